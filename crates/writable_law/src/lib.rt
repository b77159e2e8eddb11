//! What is read is writable, what is written of it reads back as it, and what cuts make of writable
//! items is writable: laws, whose functions do nothing.
#![tactic(auto)]

mod laws;

pub use laws::{made_items_are_writable, read_timelines_are_writable, writable_timelines_stand};
