//! The words of a command line of `otio`: what they ask for.
//!
//! The first word is the command: `convert`, `cat`, `stat`, `tool`, `frames`, `edit`, `drill`,
//! `pull` or `media`. The words after it are read by one simple command of `clap`, with the
//! meaning that `clap` publishes for such commands; what it has no match for, and a value or a
//! combination that the command doesn't allow, asks for nothing.
#![tactic(auto)]

mod conversions;
mod drills;
mod edits;
mod faults;
mod frame_lists;
mod lines;
mod logs;
mod names;
mod options;
mod pulls;
mod rates;
mod requests;
mod several;
mod tools;

pub use drills::DrillAsked;
pub use faults::WordsFault;
pub use names::{is_list_name, is_log_name};
pub use requests::{
    Command, FramesAsked, Others, Request, Task, drill_is_no_request, one_drill, one_request,
    request_of,
};
pub use tools::{Flattening, Joining, ToolAsked, TrackKind, Window};
