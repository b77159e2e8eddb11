//! How a plan ends that gives children other source ranges: the tests of the result, and the patch.

ghost use Rattle.std.specs.Prelude.{◌≡◌, ◌+◌, ◌<◌, ◌≤◌, ◌^◌, ◌||◌, IfErr, IfOk, None, Some, false};
ghost use Rattle.std.specs.Prelude.{drop, int_le, length, not, pos, slice_get, unsigned_abs};
ghost use Rattle.std.specs.Prelude.{◌&&◌, ◌-ℤ◌};
ghost use Rattle.otio_model.specs.declared.edit_types.Edit.{Edit as AnyEdit};
ghost use Rattle.otio_model.specs.Counts.{count, count_of};
ghost use Rattle.otio_model.specs.Lengths.{length_of, or_zero, source_of};
ghost use Rattle.otio_model.specs.Retimed.{retimed, with_source};
ghost use Rattle.otio_model.specs.Sums.{capped};
ghost use Rattle.otio_model.specs.Trees.{is_transition, items_of};
ghost use Rattle.coord.specs.Soundness as soundness;
ghost use Rattle.coord.specs.Soundness.{AreFaultless, IsSound, fault_of};
ghost use Rattle.edits.specs.Refusals.{IsRefused};
ghost use Rattle.pieces.specs.Short.{AreCuttable, IsCuttable};
ghost use Rattle.edit_plans.specs.Amounts.{ticks_in};
ghost use Rattle.edit_plans.specs.Planned.{IsPlan, IsRetiming};
ghost use Rattle.edit_plans.specs.Retimings.{KeepsUnranged, ranged_from};
ghost use Rattle.edit_plans.specs.Ways as ways;

use crate::enclosing_items::{MOST_END, end_from, is_way_long, played_ticks};
use crate::patch_result::exchanged_ticks;
use crate::totals::stretch_amount;
use crate::touched_children::child;
use crate::tracks::track_of;
use coord::speed;
use limits::MOST_ITEMS;
use otio_model::{Children, EditFault, Item, Patch, Place, Put, Timeline};
use pieces::known_ticks;
use sequences::Sequence;
use tick_time::Span;

/// Children from an index on, by the source ranges that they get.
#[derive(Drop)]
pub struct Retiming {
    /// The index of the first of them.
    pub at: usize,
    /// The source range of each.
    pub ranges: Vec<Option<Span>>,
}

// The source range at an index.
fn range_at(ranges: &[Option<Span>], index: usize) -> Option<Span>
    requires { index < length ranges.now }
    ensures { slice_get ranges.now index ≡ Some result }
{
    ranges[index]
}

// How long an item is once it has a source range; one that gets none has none.
#[tactic(auto, using(crate::proofs::Retimings::ticks_kept, crate::proofs::Retimings::ticks_none, crate::proofs::Retimings::ticks_new))]
fn retimed_ticks(item: &Item, range: Option<Span>) -> u128
    requires few { count_of item.now < 2 ^ 32 }
    requires kept { range ≡ None → source_of item.now ≡ None }
    ensures { result ≡ or_zero (length_of (with_source range item.now)) }
{
    match range {
        None => known_ticks(item),
        Some(span) => {
            if item.is_transition() {
                return 0;
            }
            span.len.ticks.unsigned_abs()
        }
    }
}

// Whether an instant lies past a million seconds, in millionths of a tick.
fn is_far(end: i128) -> bool
    ensures { result
        ≡ not (int_le (pos 0 -ℤ soundness.most_end) end && int_le end soundness.most_end) }
{
    !(-MOST_END <= end && end <= MOST_END)
}

// Whether an item that has this source range ends past a million seconds.
#[tactic(auto, using(crate::proofs::Retimings::ends_long))]
fn ends_late(item: &Item, span: Span) -> bool
    requires thing { is_transition item.now ≡ false }
    requires sound { fault_of item.now ≡ None }
    ensures { result ≡ soundness.is_long (with_source (Some span) item.now)
        (unsigned_abs span.len.ticks) }
{
    let played = played_ticks(span.len.ticks.unsigned_abs(), speed(item));
    is_far(end_from(span.start.ticks, played))
}

// Whether an item is too long once it has a source range; one that gets none has none.
#[tactic(auto, using(crate::proofs::Retimings::long_kept, crate::proofs::Retimings::long_thing, crate::proofs::Retimings::long_new))]
fn is_retimed_long(item: &Item, range: Option<Span>) -> bool
    requires sound { fault_of item.now ≡ None }
    requires kept { range ≡ None → source_of item.now ≡ None }
    ensures { result ≡ ways.is_long_fault (fault_of (with_source range item.now)) }
{
    match range {
        None => false,
        Some(span) => {
            if item.is_transition() {
                return false;
            }
            ends_late(item, span)
        }
    }
}

// How long children are together once they have source ranges.
fn come_ticks(children: &Children, at: usize, ranges: &[Option<Span>]) -> u128
    requires few { count children.now < 2 ^ 32 }
    requires there { at + length ranges.now ≤ length (items_of children.now) }
    requires kept { KeepsUnranged ranges.now (drop at (items_of children.now)) }
    ensures { result ≡ capped (ticks_in (ranged_from at ranges.now (items_of children.now))) }
{
    let mut all: u128 = 0;
    'children: for index in 0..ranges.len() {
        let ticks = retimed_ticks(child(children, at + index), range_at(ranges, index));
        all = all.saturating_add(ticks);
    }
    all
}

// Whether one of the children is too long once they have source ranges.
fn has_long(children: &Children, at: usize, ranges: &[Option<Span>]) -> bool
    requires few { count children.now < 2 ^ 32 }
    requires there { at + length ranges.now ≤ length (items_of children.now) }
    requires faultless { AreCuttable (items_of children.now) }
    requires kept { KeepsUnranged ranges.now (drop at (items_of children.now)) }
    ensures { result ≡ ways.has_long (ranged_from at ranges.now (items_of children.now)) }
{
    'children: for index in 0..ranges.len() {
        if is_retimed_long(child(children, at + index), range_at(ranges, index)) {
            return true;
        }
    }
    false
}

// How long all children are together once some have source ranges.
fn result_ticks(children: &Children, at: usize, ranges: &[Option<Span>]) -> u128
    requires few { count children.now < 2 ^ 32 }
    requires there { at + length ranges.now ≤ length (items_of children.now) }
    requires kept { KeepsUnranged ranges.now (drop at (items_of children.now)) }
    ensures { result ≡ capped (ticks_in (retimed at ranges.now (items_of children.now))) }
{
    let gone = stretch_amount(children, at, ranges.len());
    let come = come_ticks(children, at, ranges);
    exchanged_ticks(children.added_ticks(), gone.ticks, come)
}

// Whether one of the children is too long then, or an item on the way to the track, whose children
// are then so long together.
fn is_too_long(
    timeline: &Timeline,
    place: &Place,
    children: &Children,
    retiming: &Retiming,
    sum: u128,
) -> bool
    requires sound { AreFaultless timeline.now.tracks.children }
    requires all_few { count timeline.now.tracks.children < 2 ^ 32 }
    requires few { count children.now < 2 ^ 32 }
    requires there { retiming.now.at + length retiming.now.ranges.items
        ≤ length (items_of children.now) }
    requires faultless { AreCuttable (items_of children.now) }
    requires kept { KeepsUnranged retiming.now.ranges.items
        (drop retiming.now.at (items_of children.now)) }
    ensures { result ≡ (ways.has_long
        (ranged_from retiming.now.at retiming.now.ranges.items (items_of children.now))
        || ways.is_way_long place.now sum timeline.now) }
{
    has_long(children, retiming.at, retiming.ranges.as_slice()) || is_way_long(timeline, place, sum)
}

/// The patch that gives children these source ranges, where the result has no time beyond a million
/// seconds and at most 100 000 items. [`EditFault::TooLong`] comes exactly where it has such a
/// time, else [`EditFault::Items`] exactly where it has too many. It takes no memory. The edit is
/// one that no earlier test refuses, and it gives those children these source ranges and changes
/// nothing else.
pub fn finish_ranges(
    timeline: &Timeline,
    place: Place,
    retiming: Retiming,
) -> Result<Patch, EditFault>
    requires sound { IsSound timeline.now }
    requires few { count timeline.now.tracks.children < 2 ^ 32 }
    requires edit { (e : AnyEdit)
        × IsRetiming timeline.now e place retiming.at retiming.ranges.items }
    ensures plan { IfOk result (λ patch. (e : AnyEdit) →
        IsRetiming timeline.now e place retiming.at retiming.ranges.items →
        IsPlan timeline.now e patch) }
    ensures fault { IfErr result (λ fault. (e : AnyEdit) →
        IsRetiming timeline.now e place retiming.at retiming.ranges.items →
        IsRefused timeline.now e fault) }
{
    let children = track_of(timeline, &place);
    let ticks = result_ticks(children, retiming.at, retiming.ranges.as_slice());
    if is_too_long(timeline, &place, children, &retiming, ticks) {
        return Err(EditFault::TooLong);
    }
    if MOST_ITEMS < timeline.tracks.children.items_below() {
        return Err(EditFault::Items);
    }
    Ok(Patch {
        place,
        at: retiming.at,
        put: Put::Ranges(Sequence::of(retiming.ranges)),
    })
}
