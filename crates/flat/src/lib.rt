//! Flat timelines: the tracks of a kind as one track, the part between two record frames, several
//! timelines one after another or above each other, and a timeline without its transitions. These
//! are definitions, for the calls of `flat_stack` and for the theorems of `flat_law`.
//!
//! Instants and lengths are counted in ticks, those of a track from its start.
#![tactic(auto)]

mod faults;

pub use faults::{Cause, FlatAt, FlatFault};
