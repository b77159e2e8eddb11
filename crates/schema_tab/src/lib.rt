//! The reader of OpenTimelineIO objects: what a JSON value represents by the tables of
//! `schema_rows`, or its first fault.
//!
//! Its parts that read nothing inside are which schema an object names, the value of an absent
//! member, numerals, texts and flags, the rules of a schema on its values, and the structs from the
//! values of their rows.
#![tactic(auto)]

mod builders;
mod counts;
mod defaults;
mod faults;
mod next_value;
mod reader;
mod required_values;
mod root_objects;
mod rules;
mod scalars;
mod schema_names;
mod tables;

pub use reader::read_fields;
pub use root_objects::object_of;
