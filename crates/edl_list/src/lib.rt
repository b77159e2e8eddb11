//! Edit decision lists of the CMX 3600 kind as plain data: events on the channels V, A and A2, with
//! the frame numbers of their labels.
//!
//! Frames are counted at the list's rate. In a clause a list is the value itself, with texts as
//! lists of their UTF-8 bytes and events as the list of them. What makes a list well formed, even,
//! or the same as another stands in `specs/`.
#![tactic(auto)]

mod laws;
mod layout;
mod list;
mod speeds;

pub use laws::{channel_order, equal_speeds, frames_as_times, side_speeds, wide_columns};
pub use layout::{Layout, most_events};
pub use list::{Channel, Cross, Event, EventList, EventSeq, MOST_NUMBER, MOST_TENTHS, Reel, Side};
pub use speeds::{OWN_SPEED, count_of, half_even, side_speed};
