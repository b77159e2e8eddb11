//! What a script makes of a timeline, and that what is written of an edited timeline stands for it:
//! laws, whose functions do nothing.
#![tactic(auto)]

mod edited_laws;
mod laws;

pub use edited_laws::{edited_timelines_are_writable, scripts_keep_timelines_writable};
pub use laws::commands_show;
