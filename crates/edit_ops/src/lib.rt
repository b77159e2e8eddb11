//! The five edits of lists as patches: overwrite, insert, slice, fill and remove.
//!
//! A plan tests its edit in the order of [`EditFault`](otio_model::EditFault)'s variants, and then
//! makes only what comes in place of the children that the edit's zone touches.
#![tactic(auto)]

mod edit_start;
mod item_at;
mod list_edits;
mod list_planner;
mod new_items;
mod slots;
mod zones;

pub use list_planner::plan_list;
