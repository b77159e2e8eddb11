//! Objects of OpenTimelineIO in JSON, in the written order of their schemas' tables, and the layout
//! of their text.
//!
//! An object begins with its schema. Then come the rows of the schema's table from left to right,
//! and then all its other members in the order in which they were read. The text of an object is
//! handed over field by field: no JSON value is made of it, and no memory is taken.
//!
//! The current schemas are the newer family. In the older family, for programs that know no others,
//! clips are `Clip.1` and known markers `Marker.1`; not every object has a form there.
#![tactic(auto)]

mod effects;
mod effects_layout;
mod families;
mod items;
mod items_layout;
mod laws;
mod markers;
mod markers_layout;
mod media;
mod media_layout;
mod numerals;
mod numerals_layout;
mod objects;
mod objects_layout;
mod old_faults;
mod old_forms;
mod rows;
mod scalars;
mod scalars_layout;
mod times;
mod times_layout;
mod writing;

pub use laws::{texts_are_read, written_by_tables};
pub use objects::{json_of, json_of_old};
pub use objects_layout::{write_object, write_old_object, write_timeline};
pub use old_faults::{FamilyFault, OldFault};
pub use old_forms::old_form;
pub use writing::is_named;
