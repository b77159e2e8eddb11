//! What is kept of a list of items, so that later calls needn't look at each of them.

ghost use Rattle.std.specs.Prelude.{◌≡◌, ◌-◌, ◌≤◌, max, true};
ghost use Rattle.otio_model.specs.Kept.{joined, joined_totals, offset_reach};

use crate::length_sums::{NOTHING, Totals};
use tick_time::Time;

/// What a list of items comes to. The two counts stop at the greatest number of 64 bits.
#[derive(Clone, Copy)]
pub(crate) struct Kept {
    /// Its lengths.
    pub(crate) lengths: Totals,
    /// How many transitions it has.
    pub(crate) transitions: usize,
    /// How far from their cuts the overlaps of its transitions reach, at most, in ticks.
    pub(crate) reach: u128,
    /// How far before its start one of the overlaps begins, at most, in ticks.
    pub(crate) before: u128,
    /// How far after its end one of them ends, at most, in ticks.
    pub(crate) after: u128,
    /// How many items it has at all levels.
    pub(crate) items: usize,
    /// Whether one of them is a clip, or has one below it.
    pub(crate) clips: bool,
    /// Whether one of them may show something.
    pub(crate) lit: bool,
}

/// What is kept of no items.
pub(crate) const NO_ITEMS: Kept = Kept {
    lengths: NOTHING,
    transitions: 0,
    reach: 0,
    before: 0,
    after: 0,
    items: 0,
    clips: false,
    lit: false,
};

// The lengths of two lists together.
fn join_totals(one: Totals, other: Totals) -> Totals
    ensures { result ≡ joined_totals one other }
{
    Totals {
        ticks: one.ticks.saturating_add(other.ticks),
        longest: one.longest.max(other.longest),
        known: one.known && other.known,
    }
}

// Whether of two lists no overlap of one reaches out of the other, nor further from its cut in the
// second than in the first.
fn stay_within(one: &Kept, other: &Kept) -> bool
    ensures reach { result ≡ true → other.now.reach ≤ one.now.reach }
    ensures before { result ≡ true → other.now.before ≤ one.now.lengths.ticks }
    ensures after { result ≡ true → one.now.after ≤ other.now.lengths.ticks }
{
    if other.reach > one.reach {
        return false;
    }
    if other.before > one.lengths.ticks {
        return false;
    }
    one.after <= other.lengths.ticks
}

// How far the overlaps of two lists together reach from their cuts, before the start and after the
// end.
fn join_reaches(one: &Kept, other: &Kept) -> (u128, u128, u128)
    ensures reach { result.0 ≡ max one.now.reach other.now.reach }
    ensures before { result.1 ≡ max one.now.before (other.now.before - one.now.lengths.ticks) }
    ensures after { result.2 ≡ max other.now.after (one.now.after - other.now.lengths.ticks) }
{
    if stay_within(one, other) {
        return (one.reach, one.before, other.after);
    }
    (
        one.reach.max(other.reach),
        one.before
            .max(other.before.saturating_sub(one.lengths.ticks)),
        other
            .after
            .max(one.after.saturating_sub(other.lengths.ticks)),
    )
}

/// What is kept of two lists together.
pub(crate) fn join(one: Kept, other: Kept) -> Kept
    ensures { result ≡ joined one other }
{
    let (reach, before, after) = join_reaches(&one, &other);
    Kept {
        lengths: join_totals(one.lengths, other.lengths),
        transitions: one.transitions.saturating_add(other.transitions),
        reach,
        before,
        after,
        items: one.items.saturating_add(other.items),
        clips: one.clips || other.clips,
        lit: one.lit || other.lit,
    }
}

/// How far from its cut an offset lies; one that isn't given is 0.
pub(crate) fn offset_ticks(offset: Option<Time>) -> u128
    ensures { result ≡ offset_reach offset }
{
    match offset {
        Some(time) => time.ticks.unsigned_abs(),
        None => 0,
    }
}

/// How far two offsets lie from their cut, at most.
pub(crate) fn offsets_ticks(in_offset: Option<Time>, out_offset: Option<Time>) -> u128
    ensures { result ≡ max (offset_reach in_offset) (offset_reach out_offset) }
{
    offset_ticks(in_offset).max(offset_ticks(out_offset))
}
