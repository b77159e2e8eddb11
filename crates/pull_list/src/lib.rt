//! Pull lists: which frames of which media a timeline shows, as they are asked of an archive or a
//! laboratory before a cut is conformed.
//!
//! [`pull`] gives the wanted frames of a timeline, for each key and media rate, as spans that
//! don't touch; [`write_pull`] sends a line for each span. `specs/Used.antt` says which frames are
//! used, `specs/Wanted.antt` which are wanted, and `specs/Pulled.antt` what a pull list is.
#![tactic(auto)]

mod clips;
mod groups;
mod laws;
mod lines;
mod parts;
mod pulls;
mod record;
mod runs;
mod shown;
mod spans;
mod taking;
mod texts;
mod used;
mod wanted;

pub use laws::{pull_lists_are_one, pull_lists_are_worked};
pub use lines::write_pull;
pub use pulls::pull;
pub use record::has_too_many;
pub use spans::{PullFault, PullSpan};
pub use texts::pull_text;
