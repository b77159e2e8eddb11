//! Tests of timelines as trees: what they show, their edits' log, and rows of frames. There is
//! nothing here but tests.
#![tactic(auto)]

#[cfg(test)]
mod copy_tests;
#[cfg(test)]
mod instant_tests;
#[cfg(test)]
mod metadata_tests;
#[cfg(test)]
mod row_tests;
#[cfg(test)]
mod show_tests;
#[cfg(test)]
mod tree_tests;
#[cfg(test)]
mod trees;
#[cfg(test)]
mod undo_tests;
