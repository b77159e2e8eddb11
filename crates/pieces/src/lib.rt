//! Pieces of items and of lists of items: copies with another range.
//!
//! Instants and lengths are counted in ticks, those of a list from its start. A new start or length
//! has the rate of the old one, or the record rate where there is none.
#![tactic(auto)]

mod cut_checks;
mod cutting;
mod item_lengths;
mod list_backs;
mod list_fronts;
mod new_ranges;
mod stripping;

pub use cut_checks::{back, cuts_whole, front};
pub use cutting::{CutFault, cut, is_whole, is_whole_at};
pub use item_lengths::{known_ticks, member, sound_ticks, start_ticks, ticks_of};
pub use list_backs::back_items;
pub use list_fronts::{add_copy, front_items, new_gap, short_gap, with_last};
pub use new_ranges::{RangedFault, new_range, ranged, ranged_within};
pub use stripping::{is_stripped, strip};
