//! What becomes of a list.

use edl_frames::Why;
use otio_model::Timeline;

/// What becomes of the list of a timeline.
#[derive(Drop)]
pub enum Listed {
    /// The list was made and conformed.
    List {
        /// How many events it has.
        events: usize,
        /// The timeline that it conforms to.
        timeline: Timeline,
    },
    /// A list doesn't carry the timeline: the reason of the first child that isn't carried, or of
    /// the timeline itself.
    No(Why),
}
