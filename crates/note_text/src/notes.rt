//! Notes of events.

use owned::Owned;
use sequences::{Sequence, Text};

/// Three numerals of JSON, for red, green and blue, each as it is spelled.
pub struct Triple {
    /// That of red.
    pub r: Text,
    /// That of green.
    pub g: Text,
    /// That of blue.
    pub b: Text,
}

/// What a note says.
pub enum Said {
    /// A locator.
    Loc {
        /// The record frame, as a frame number of the day.
        at: i64,
        /// The color: one to seven letters from A to Z.
        color: Text,
        /// The name, which may be empty.
        name: Text,
    },
    /// A color correction by slope, offset and power (ASC CDL).
    Sop {
        /// The slope.
        slope: Owned<Triple>,
        /// The offset.
        offset: Owned<Triple>,
        /// The power.
        power: Owned<Triple>,
    },
    /// A color correction by saturation: a numeral of JSON, as it is spelled (ASC CDL).
    Sat(Text),
}

/// A note of an event of a list.
pub struct Note {
    /// The place of the event in the list, counted from 0.
    pub event: usize,
    /// What the note says.
    pub said: Said,
}

/// Notes in order.
pub type Notes = Sequence<Note>;

/// What a line says as a note, and the event line before it.
pub struct Heard {
    /// The event line, counted from 1.
    pub line: u32,
    /// What the note says.
    pub said: Said,
}

// Drops are written out: a derived one is proved anew in each crate that drops such a value.

impl Drop for Triple {
    fn drop(self) {
        let Triple { r: _, g: _, b: _ } = self;
    }
}

impl Drop for Said {
    fn drop(self) {
        match self {
            Said::Loc {
                at: _,
                color: _,
                name: _,
            } => {}
            Said::Sop {
                slope: _,
                offset: _,
                power: _,
            } => {}
            Said::Sat(_) => {}
        }
    }
}

impl Drop for Note {
    fn drop(self) {
        let Note { event: _, said: _ } = self;
    }
}

impl Drop for Heard {
    fn drop(self) {
        let Heard { line: _, said: _ } = self;
    }
}
