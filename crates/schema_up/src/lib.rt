//! Upgrades of OpenTimelineIO's JSON: old names and old versions of schemas, rewritten in a JSON
//! value before it is read.
//!
//! The definition is `upgraded` in `specs/Upgrades.antt`.
#![tactic(auto)]

mod old_names;
mod upgraded_objects;
mod upgrading;

pub use upgrading::upgrade;
