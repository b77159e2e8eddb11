//! The five edits of edges as patches: trim, slip, slide, ripple and roll.
//!
//! A plan tests its edit in the order of [`EditFault`](otio_model::EditFault)'s variants, and then
//! makes only what comes in place of the children that the edit's zone touches.
#![tactic(auto)]

mod adjacent_items;
mod edge_edits;
mod edge_moves;
mod edge_planner;
mod replacements;
mod resized_items;
mod retimes;

pub use edge_planner::plan_trim;
