//! What cut and edited lists show, how few children an edit touches, edits at any depth (which
//! instants reach a nested track, and what is shown through an edited one), and that accepted edits
//! keep timelines sound: laws of the definitions that `edits` has, and what they speak of. Their
//! functions do nothing.
#![tactic(auto)]

mod cut_laws;
mod depth_laws;
mod edges;
mod laws;
mod lists;
mod patches;
mod sound_laws;

pub use cut_laws::{pieces_show, spliced_shows, strips_show};
pub use depth_laws::{edits_show_through, nests_are_worked, unreached_stays};
pub use edges::edge_edits_show;
pub use laws::{accepted_edits_show, edits_are_ready};
pub use lists::list_edits_show;
pub use patches::{changed_trees_are_known, edge_patches_are_narrow, patches_are_narrow};
pub use sound_laws::{edits_stay_sound, made_items_are_short};
