//! Why a timeline isn't flattened, cut to a window or joined.

ghost use Rattle.std.specs.Prelude.{◌≡◌};

use otio_model::Place;
use std::alloc::{AllocError, AllocFailed};
use thiserror::Error;

/// What is wrong at one place. Of one place they are tried in the order in which they stand here.
#[derive(Clone, Copy, PartialEq, Eq)]
pub enum Cause {
    /// A root child is no plain track, or a stack or track stands in one.
    Nested,
    /// A transition stands where none may.
    Crossing,
    /// A cut that is needed doesn't fall on a whole tick of the media.
    Phase,
}

/// Why a timeline isn't flattened, cut to a window or joined: the first place in document order
/// at which something is wrong.
#[derive(Debug, Drop, Error)]
pub enum FlatFault {
    /// The root child at the place is no plain track, or the stack or track at the place stands in
    /// one.
    #[error("a root child is no plain track, or holds a stack or track")]
    Nested(Place),
    /// The transition at the place may not stand there.
    #[error("a transition stands where none may")]
    Transition(Place),
    /// The item at the place can't be cut where it has to be: not on a whole tick of its media.
    #[error("a cut doesn't fall on a whole tick of the media")]
    Phase(Place),
    /// The window has no frame, begins before the timeline, or ends beyond a million seconds.
    #[error("the window is no part of the timeline's time")]
    Range,
    /// Memory ran out.
    #[error("no memory")]
    Memory,
}

/// Why several timelines aren't joined: the first one that can't be, and why.
#[derive(Drop)]
pub struct FlatAt {
    /// Which one it is, counted from 0; 0 where memory ran out.
    pub input: usize,
    /// What is wrong with it.
    pub fault: FlatFault,
}

impl From<AllocError> for FlatFault {
    ghost use Rattle.flat.specs.declared.faults.FlatFault.TheVariants.{Memory};

    ghost from_gives = { λ _ fault. fault ≡ Memory };

    fn from(_error: AllocError) -> FlatFault {
        FlatFault::Memory
    }
}

impl<T: Drop> From<AllocFailed<T>> for FlatFault {
    ghost use Rattle.flat.specs.declared.faults.FlatFault.TheVariants.{Memory};

    ghost from_gives = { λ _ fault. fault ≡ Memory };

    fn from(_error: AllocFailed<T>) -> FlatFault {
        FlatFault::Memory
    }
}
