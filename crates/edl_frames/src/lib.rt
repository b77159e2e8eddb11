//! What an edit decision list shows, the timeline that it stands for and why it may have none, and
//! the list of a timeline and why it may have none: definitions for `conform`, for `events` and for
//! the laws of lists and timelines.
#![tactic(auto)]

mod channels;
mod faults;
mod reasons;
mod rows;

pub use channels::is_on;
pub use faults::ConformFault;
pub use reasons::{NotCarried, Why};
pub use rows::is_row_outside;
