//! Undo and redo of changes of a timeline: a log keeps for each change the patch that undoes it, or
//! the one that does it again.
//!
//! A timeline with its log stands for a list of timelines and a position in it. The room that a
//! call needs is made before it, so the call itself takes no memory.
#![tactic(auto)]

mod faults;
mod logs;

pub use faults::UndoFault;
pub use logs::Log;
