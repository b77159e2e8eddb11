//! What a drill reports.

use edl_frames::Why;

/// What a drill reports of the list of its timeline.
#[derive(Clone, Copy)]
pub enum Carried {
    /// The list was made and conformed.
    List {
        /// How many events it has.
        events: usize,
        /// How many record frames the first root child takes.
        frames: u128,
        /// The numbers of the source frames that are shown at them, added up.
        shown: i128,
    },
    /// A list doesn't carry the timeline.
    No(Why),
}

/// What a drill reports.
#[derive(Clone, Copy)]
pub struct Tally {
    /// How many edits were accepted.
    pub edits: u32,
    /// How many were refused.
    pub refused: u32,
    /// How many children the track has after them.
    pub items: usize,
    /// What became of the list.
    pub carried: Carried,
    /// The numbers of the source frames that are shown after all is undone, added up.
    pub back: i128,
}
