//! Steps that the planners of edits share: `edit_ops` for edits of lists, `edit_trim` for edits of
//! edges.
//!
//! - Where a zone lies in a track: [`ahead`], [`touched`], [`held`].
//! - What takes the place of the children that a zone touches: [`fill_zone`], [`kept`].
//! - How far the edges of an item move, within its media and between its neighbours: [`trim_by`],
//!   [`slip_by`], [`slide_by`], [`ripple_by`], [`roll_by`].
//! - What fills a gap, and at which speed: [`fill`].
//! - Tests by which an edit is refused: [`place_fault`], [`can_be_cut`], [`pinned`].
//! - The patch that carries out an edit, or why the result is refused: [`finish`], and
//!   [`finish_ranges`] for an edit that changes nothing but source ranges.
//! - The instant that an instant of a root child reaches in a nested composition: [`down`].
//!
//! All numbers are in ticks. Nothing here walks over all children for one edit.
#![tactic(auto)]

mod child_at;
mod clamps;
mod descent;
mod enclosing_items;
mod fit_speed;
mod gap_fill;
mod items;
mod laws;
mod lengths;
mod media_handles;
mod moves;
mod neighbours;
mod patch_result;
mod pinning;
mod refusal_tests;
mod replaced_children;
mod retimed_items;
mod retiming;
mod stretches;
mod totals;
mod touched_children;
mod tracks;
mod whole_tick_cuts;
mod zone_ends;

pub use clamps::is_zero;
pub use descent::down;
pub use gap_fill::{FillFault, fill, filling_ticks};
pub use laws::{edits_are_shown, items_are_held, rates_are_record_rates};
pub use lengths::spliced_lengths;
pub use moves::{Moves, ripple_by, roll_by, slide_by, slip_by, trim_by};
pub use neighbours::{after_item, before_item};
pub use patch_result::finish;
pub use pinning::{pinned, source_range, unpinned};
pub use refusal_tests::{is_gap, is_nothing, place_fault};
pub use replaced_children::{Middle, Stretch, Zone, fill_zone, kept};
pub use retiming::{Retiming, finish_ranges};
pub use touched_children::{Passed, ahead, child, held, is_met, touched};
pub use tracks::{edit_rate, frame_at, track_of};
pub use whole_tick_cuts::can_be_cut;
