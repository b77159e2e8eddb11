//! A drill: a timeline is made and edited by drawing numbers, its list is made and conformed, the
//! frames that it shows are summed, and all is undone.
//!
//! A generator gives numbers one after another, each from the one before, so a drill is the same
//! for the same seed. Of a frame its number counts, of a mix those of both sides, and where nothing
//! is seen 0.
#![tactic(auto)]

mod acts;
mod channels;
mod clips;
mod conforming;
mod draw_laws;
mod edit_loop;
mod frames;
mod generator;
mod laws;
mod lines;
mod list_outcome;
mod list_round_trip;
mod one_edit;
mod pictures;
mod record_frames;
mod source_reels;
mod sums;
mod tally;
mod timeline;
mod whole_drill;

pub use channels::channel_sum;
pub use draw_laws::draws_are_worked;
pub use edit_loop::{Edited, run_edits, undo_all};
pub use frames::{track_frames, track_ticks};
pub use generator::Random;
pub use laws::{lists_are_told, one_outcome, shown_sums_fit, undone_is_start};
pub use lines::write_tally;
pub use list_outcome::Listed;
pub use list_round_trip::conformed;
pub use record_frames::frames_of;
pub use source_reels::media;
pub use sums::{back_sum, child_sum};
pub use tally::{Carried, Tally};
pub use timeline::start_timeline;
pub use whole_drill::{Drilled, drill};
