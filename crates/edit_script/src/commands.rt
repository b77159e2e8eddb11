//! Commands.

ghost use Rattle.std.specs.Prelude.{◌≡◌};

use otio_model::{FillMode, Place, RemoveMode};
use sequences::Text;
use std::alloc::{AllocError, AllocFailed};
use thiserror::Error;

/// How many commands a script has at most.
pub const MOST_COMMANDS: usize = 10_000;

/// What an edit puts in.
pub enum Put {
    /// A gap of so many record frames.
    Gap(i64),
    /// A clip of a reel. `start` counts frames of the reel's rate, `length` record frames.
    Clip {
        /// Its name.
        name: Text,
        /// The reel, as a media list names it.
        reel: Text,
        /// Where it begins, in frames of the rate of the reel; not negative.
        start: i64,
        /// How long it is, in record frames; not negative.
        length: i64,
    },
}

/// What a command does: an edit, or a step in the log. Its numbers are in record frames.
#[derive(Drop)]
pub enum Act {
    /// Puts the item in place of what is there from `at` on.
    Overwrite {
        /// The place of the track.
        place: Place,
        /// Where the item goes, in record frames from the start of the track.
        at: i64,
        /// What is put in.
        put: Put,
    },
    /// Puts the item in at `at`, and what follows moves on.
    Insert {
        /// The place of the track.
        place: Place,
        /// Where the item goes, in record frames from the start of the track.
        at: i64,
        /// What is put in.
        put: Put,
    },
    /// Cuts the item at `at` in two.
    Slice {
        /// The place of the track.
        place: Place,
        /// Where the item is cut, in record frames from the start of the track.
        at: i64,
    },
    /// Puts the item into the gap at `at`.
    Fill {
        /// The place of the track.
        place: Place,
        /// An instant of the gap, in record frames from the start of the track.
        at: i64,
        /// What of the item goes into the gap.
        mode: FillMode,
        /// What is put in.
        put: Put,
    },
    /// Takes the item at `at` out.
    Remove {
        /// The place of the track.
        place: Place,
        /// An instant of the item, in record frames from the start of the track.
        at: i64,
        /// What comes in its place.
        mode: RemoveMode,
    },
    /// Moves the head and the tail of the item at `at`, against the gaps beside it.
    Trim {
        /// The place of the track.
        place: Place,
        /// An instant of the item, in record frames from the start of the track.
        at: i64,
        /// How far the head moves, in record frames; a positive number is later.
        head: i64,
        /// How far the tail moves, in record frames; a positive number is later.
        tail: i64,
    },
    /// Moves the media that the item at `at` shows, and not the item.
    Slip {
        /// The place of the track.
        place: Place,
        /// An instant of the item, in record frames from the start of the track.
        at: i64,
        /// How far the media moves, in record frames; a positive number is later media.
        by: i64,
    },
    /// Moves the item at `at`, and the tail of the item before it with it.
    Slide {
        /// The place of the track.
        place: Place,
        /// An instant of the item, in record frames from the start of the track.
        at: i64,
        /// How far the item moves, in record frames; a positive number is later.
        by: i64,
    },
    /// Moves the head and the tail of the item at `at`, and what follows moves with it.
    Ripple {
        /// The place of the track.
        place: Place,
        /// An instant of the item, in record frames from the start of the track.
        at: i64,
        /// How far the head moves, in record frames; a positive number is later.
        head: i64,
        /// How far the tail moves, in record frames; a positive number is later.
        tail: i64,
    },
    /// Moves the cuts at the head and the tail of the item at `at`, against the items beside it.
    Roll {
        /// The place of the track.
        place: Place,
        /// An instant of the item, in record frames from the start of the track.
        at: i64,
        /// How far the cut at the head moves, in record frames; a positive number is later.
        head: i64,
        /// How far the cut at the tail moves, in record frames; a positive number is later.
        tail: i64,
    },
    /// Takes the last edit back.
    Undo,
    /// Brings the edit back that was taken back last.
    Redo,
}

/// A command and the line that it stands on, counted from 1.
pub struct ScriptCommand {
    /// The line.
    pub line: u32,
    /// What it does.
    pub act: Act,
}

/// Why bytes are no script.
#[derive(Clone, Copy, Debug, PartialEq, Eq, Error)]
pub enum ScriptFault {
    /// The line isn't UTF-8, or it says no command and isn't skipped.
    #[error("line {0} has the wrong form")]
    Line(u32),
    /// There are more than 10 000 commands.
    #[error("more than 10000 commands")]
    Many,
    /// There are more than 33 554 432 bytes.
    #[error("more than 33554432 bytes")]
    Large,
    /// Memory ran out.
    #[error("no memory")]
    Memory,
}

impl From<AllocError> for ScriptFault {
    ghost use Rattle.edit_script.specs.declared.commands.ScriptFault.TheVariants.{Memory};

    ghost from_gives = { λ _ fault. fault ≡ Memory };

    fn from(_error: AllocError) -> ScriptFault {
        ScriptFault::Memory
    }
}

impl<T: Drop> From<AllocFailed<T>> for ScriptFault {
    ghost use Rattle.edit_script.specs.declared.commands.ScriptFault.TheVariants.{Memory};

    ghost from_gives = { λ _ fault. fault ≡ Memory };

    fn from(_error: AllocFailed<T>) -> ScriptFault {
        ScriptFault::Memory
    }
}

// Drops are written out: a derived one is proved anew in each crate that drops such a value.

impl Drop for Put {
    fn drop(self) {
        match self {
            Put::Gap(_) => {}
            Put::Clip {
                name: _,
                reel: _,
                start: _,
                length: _,
            } => {}
        }
    }
}

impl Drop for ScriptCommand {
    fn drop(self) {
        let ScriptCommand { line: _, act: _ } = self;
    }
}
