//! Which listings are asked for.

/// Which listings are asked for.
#[derive(Clone, Copy, PartialEq, Eq)]
pub struct Listings {
    /// A line for each root child that is a track: `track K KIND NAME`.
    pub tracks: bool,
    /// A line for each clip: `clip PLACE NAME`.
    pub clips: bool,
    /// A line for each clip: `media PLACE KEY`.
    pub media: bool,
    /// The record rate, the start, the length, and the numbers of items of each kind.
    pub stats: bool,
}
