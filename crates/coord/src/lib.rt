//! What timelines show, and which of them are sound.
//!
//! The definitions of `specs/` say what an item, a list and a timeline show at each instant, and
//! where a timeline has its first fault. They stand over the plain list that contracts see of
//! [`Children`](otio_model::Children). Instants and lengths are counted in ticks.
#![tactic(auto)]

mod faults;
mod judging;
mod laws;
mod media;
mod speeds;
mod timing;
mod wipes;

pub use faults::{CoordFault, ItemFault};
pub use judging::{item_fault, media_ticks, place_of, sound, speed};
pub use laws::{
    agreement_is_seen, bare_is_seen, dissolves_are_mixed, divisor_is_greatest, first_fault_is_one,
    items_are_worked, lengths_are_seen, one_fault, sound_or_faulty, weights_are_lowest,
};
pub use media::{media_rate, own_reel};
pub use speeds::{item_speed, media_millionths, media_offset};
pub use timing::{frame_ticks, record_rate, start_frame, trimmed_start};
pub use wipes::wipe_code;
