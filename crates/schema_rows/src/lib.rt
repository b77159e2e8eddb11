//! The schemas of OpenTimelineIO: the rows of each schema as a constant table, and what an object's
//! members are read as by them.
//!
//! A row has a member's name, the kind of its values and whether the member is needed. An object
//! gives one value a row, in the order of its schema's table, and its other members are kept in
//! order, word for word ([`Fields`]).
//!
//! The definitions of `specs/` say by these tables what a JSON value represents, and which fault is
//! its first.
#![tactic(auto)]

mod faults;
mod laws;
mod rows;
mod schemas;
mod tables;
mod values;

pub use faults::SchemaFault;
pub use laws::names_are_distinct;
pub use rows::{Field, Kind};
pub use schemas::{EFFECTS, ITEMS, MARKERS, MEDIA, RANGES, ROOTS, STACKS, Schema, TIMES, named};
pub use values::{Fields, Matched, RowResult, Value, Values};
