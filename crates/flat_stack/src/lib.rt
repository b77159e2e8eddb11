//! Flat and joined timelines (OpenTimelineIO objects of `otio_model`).
//!
//! - [`flatten`]: the tracks of a kind as one track, in which the topmost enabled clip gives each
//!   instant.
//! - [`window`]: the part of a timeline between two record frames.
//! - [`join`]: several timelines one after another, track by track; [`join_within`] with a limit on
//!   the number of items.
//! - [`pile`]: several timelines above each other.
//! - [`without_transitions`]: a timeline without the transitions of any track.
//! - [`concatenated`] and [`tooled`]: these calls as the commands `cat` and `tool` make them, one
//!   after another.
//!
//! A call that refuses a timeline answers with a [`FlatFault`], and of several timelines with a
//! [`FlatAt`]: the first place in document order at which something is wrong. `specs/Answers.antt`
//! of `flat` says what each call answers, and the theorems of `flat_law` say what the timelines
//! show.
//!
//! Instants and lengths are counted in ticks, those of a track from its start.
#![tactic(auto)]

mod concatenation;
mod counting;
mod cutting;
mod fault_places;
mod faults;
mod first_faults;
mod flat_faults;
mod flat_layers;
mod flat_tracks;
mod flattening;
mod givers;
mod input_tracks;
mod inputs;
mod join_checks;
mod joined_tracks;
mod joining;
mod laws;
mod lengths;
mod owners;
mod part_copies;
mod planned_tracks;
mod refusals;
mod root_children;
mod same_clips;
mod stacking;
mod step_faults;
mod stretches;
mod tool_steps;
mod transition_removal;
mod window_faults;
mod windowing;
mod zones;

pub use concatenation::concatenated;
pub use coord::CoordFault;
pub use fault_places::{Spot, fault_of};
pub use flat::{Cause, FlatAt, FlatFault};
pub use flat_layers::flat_parts;
pub use flat_tracks::is_of;
pub use flattening::flatten;
pub use joining::{join, join_within};
pub use laws::{one_concat, one_outcome};
pub use otio_model::{Children, Item, Place, Timeline};
pub use part_copies::copy_with;
pub use root_children::{flat_rate, is_plain};
pub use same_clips::Part;
pub use sequences::Text;
pub use stacking::pile;
pub use step_faults::ToolFault;
pub use stretches::{Given, is_layer};
pub use tick_time::Rate;
pub use tool_steps::tooled;
pub use transition_removal::without_transitions;
pub use windowing::window;
