//! Theorems on the definitions of `flat`: what flat timelines show, that there are such timelines,
//! and that a flattened, cut, joined, stacked or straightened timeline reads back as it is written.
//! Their functions do nothing.
#![tactic(auto)]

mod laws;
mod written_laws;

pub use laws::{
    first_faults_are_one, flat_calls_are_made, flattened_shows, joined_shows, piled_shows,
    rows_are_worked, straight_shows, stretches_are_built, windowed_shows,
};
pub use written_laws::{
    flattened_timelines_are_writable, joined_timelines_are_writable, kept_timelines_are_writable,
    piled_timelines_are_writable, straight_timelines_are_writable, windowed_timelines_are_writable,
};
