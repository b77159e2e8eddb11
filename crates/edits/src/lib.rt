//! Cuts of items and of lists of items, the ten edits of a track, what an edited track shows, and
//! why an edit is refused: definitions.
//!
//! An item that is to get another range is a [`Ranged`](specs::Children) child, and an edit makes
//! of a list of items a draft: old items, and items that are to get another range. So cuts and
//! edits are total, what an edit shows is known before times are looked at, and every new start and
//! length is made by one rule. Instants and lengths are counted in ticks, those of a list from its
//! start.
#![tactic(auto)]

mod cut_laws;
mod laws;

pub use cut_laws::cuts_are_worked;
pub use laws::{edits_are_worked, record_rates_are_one};
