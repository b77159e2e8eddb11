//! Edits of edges that change nothing but source ranges of children.

ghost use Rattle.std.specs.Prelude.{◌≡◌, ◌+◌, ◌<◌, ◌≤◌, ◌≤ℤ◌, ◌^◌, IfErr, IfNone, IfOk, IfSome};
ghost use Rattle.std.specs.Prelude.{◌++◌, ◌∷◌, ℤ, None, Some, length, pos, slice_set, true};
ghost use Rattle.otio_model.specs.Counts.{count as tally};
ghost use Rattle.otio_model.specs.Retimed.{sources};
ghost use Rattle.otio_model.specs.Trees.{items_of};
ghost use Rattle.edits.specs.Children.{all_made, has_far};
ghost use Rattle.edits.specs.Cuts.{strip};
ghost use Rattle.edits.specs.Edges as edges;
ghost use Rattle.edits.specs.Edges.{Held, first_item, last_item};
ghost use Rattle.pieces.specs.Short.{AreCuttable};
ghost use Rattle.edit_plans.specs.Bounds.{IsMove};
ghost use Rattle.edit_trim.specs.Changes as changes;
ghost use Rattle.edit_trim.specs.Changes.{IsChange, Leaves};
ghost use Rattle.edit_trim.specs.Founds.{IsSuited};
ghost use Rattle.edit_trim.specs.Motions.{motion_list};
ghost use Rattle.edit_trim.specs.Retimes as retimings;
ghost use Rattle.edit_trim.specs.Retimes.{AreRanged, IsRetimedBy, children_in};
ghost use Rattle.edit_trim.specs.Seats.{IsAt, IsFirst, IsLast, IsShaped, zone_of};
ghost use Rattle.edit_trim.specs.declared.edge_moves.Motion.TheVariants as moves;

use crate::edge_moves::Motion;
use crate::replacements::{Interval, Shape, seen_from, takes_time};
use crate::resized_items::{Change, Making, new_source, stays};
use edit_plans::{Retiming, Stretch, ahead, child, source_range, touched};
use otio_model::{Children, Seat};
use pieces::{RangedFault, is_stripped, sound_ticks};
use std::alloc::{AllocError, Global};
use tick_time::Span;

// Whether a shape makes no gap, and takes no item away.
fn is_even(shape: Shape) -> bool
    ensures { result ≡ retimings.is_even shape }
{
    shape.gap_before <= 0
        && shape.gap_behind <= 0
        && stays(shape.before)
        && stays(shape.item)
        && stays(shape.behind)
}

// Whether a zone strips none of some children. It is given as they see it.
fn strips_none(children: &Children, stretch: Stretch, zone: Interval) -> bool
    requires few { tally children.now < 2 ^ 32 }
    requires there { stretch.at + stretch.count ≤ length (items_of children.now) }
    requires faultless { AreCuttable (items_of children.now) }
    ensures { result ≡ true → children_in stretch (items_of children.now)
        ≡ strip (children_in stretch (items_of children.now)) zone.from zone.to }
{
    let mut start: i128 = 0;
    'children: for index in stretch.at..stretch.at + stretch.count {
        let item = child(children, index);
        if is_stripped(item, start, zone.from, zone.to) {
            return false;
        }
        start = start + sound_ticks(item);
    }
    true
}

// The source ranges of some children.
fn own_ranges(
    alloc: Global,
    children: &Children,
    stretch: Stretch,
) -> Result<Vec<Option<Span>>, AllocError>
    requires few { tally children.now < 2 ^ 32 }
    requires there { stretch.at + stretch.count ≤ length (items_of children.now) }
    ensures { IfOk result (λ ranges. ranges.items
        ≡ sources (children_in stretch (items_of children.now))) }
{
    let mut ranges = Vec::new(alloc);
    'children: for index in stretch.at..stretch.at + stretch.count {
        ranges.push(source_range(child(children, index)))?;
    }
    Ok(ranges)
}

// Which of some children is the last that is no transition, from the first of them on.
fn last_of(children: &Children, stretch: Stretch) -> Option<usize>
    requires few { tally children.now < 2 ^ 32 }
    requires there { stretch.at + stretch.count ≤ length (items_of children.now) }
    ensures some { IfSome result
        (IsLast (children_in stretch (items_of children.now))) }
    ensures none { IfNone result
        (last_item (children_in stretch (items_of children.now)) ≡ None) }
{
    'children: for index in (0..stretch.count).rev() {
        if takes_time(child(children, stretch.at + index)) {
            return Some(index);
        }
    }
    None
}

// Which of some children is the first that is no transition, from the first of them on.
fn first_of(children: &Children, stretch: Stretch) -> Option<usize>
    requires few { tally children.now < 2 ^ 32 }
    requires there { stretch.at + stretch.count ≤ length (items_of children.now) }
    ensures some { IfSome result
        (IsFirst (children_in stretch (items_of children.now))) }
    ensures none { IfNone result
        (first_item (children_in stretch (items_of children.now)) ≡ None) }
{
    'children: for index in 0..stretch.count {
        if takes_time(child(children, stretch.at + index)) {
            return Some(index);
        }
    }
    None
}

// Source ranges with another one at an index.
fn with_range(ranges: Vec<Option<Span>>, index: usize, range: Option<Span>) -> Vec<Option<Span>>
    requires { index < length ranges.items }
    ensures { result.items ≡ slice_set ranges.items index range }
{
    let mut ranges = ranges;
    ranges[index] = range;
    ranges
}

// The source ranges of some children, the last of which that is no transition changes.
fn last_ranges(
    making: Making,
    children: &Children,
    stretch: Stretch,
    change: Change,
) -> Result<Vec<Option<Span>>, RangedFault>
    requires few { tally children.now < 2 ^ 32 }
    requires there { stretch.at + stretch.count ≤ length (items_of children.now) }
    requires faultless { AreCuttable (items_of children.now) }
    requires change { IsChange change }
    requires stays { changes.stays change ≡ true }
    requires leaves { IfSome (last_item (children_in stretch (items_of children.now)))
        (Leaves change) }
    ensures made { IfOk result (λ ranges. AreRanged making.rate
        (edges.last_changed (changes.changed change)
        (children_in stretch (items_of children.now)))
        (children_in stretch (items_of children.now)) ranges.items) }
    ensures far { IfErr result (λ fault. fault ≡ RangedFault.Range → has_far
        (edges.last_changed (changes.changed change)
        (children_in stretch (items_of children.now))) ≡ true) }
{
    let own = match own_ranges(making.alloc, children, stretch) {
        Ok(own) => own,
        Err(_) => return Err(RangedFault::Memory),
    };
    match last_of(children, stretch) {
        None => Ok(own),
        Some(index) => match new_source(making, child(children, stretch.at + index), change) {
            Ok(range) => Ok(with_range(own, index, range)),
            Err(fault) => Err(fault),
        },
    }
}

// The source ranges of some children, the first of which that is no transition changes.
fn first_ranges(
    making: Making,
    children: &Children,
    stretch: Stretch,
    change: Change,
) -> Result<Vec<Option<Span>>, RangedFault>
    requires few { tally children.now < 2 ^ 32 }
    requires there { stretch.at + stretch.count ≤ length (items_of children.now) }
    requires faultless { AreCuttable (items_of children.now) }
    requires change { IsChange change }
    requires stays { changes.stays change ≡ true }
    requires leaves { IfSome (first_item (children_in stretch (items_of children.now)))
        (Leaves change) }
    ensures made { IfOk result (λ ranges. AreRanged making.rate
        (edges.first_changed (changes.changed change)
        (children_in stretch (items_of children.now)))
        (children_in stretch (items_of children.now)) ranges.items) }
    ensures far { IfErr result (λ fault. fault ≡ RangedFault.Range → has_far
        (edges.first_changed (changes.changed change)
        (children_in stretch (items_of children.now))) ≡ true) }
{
    let own = match own_ranges(making.alloc, children, stretch) {
        Ok(own) => own,
        Err(_) => return Err(RangedFault::Memory),
    };
    match first_of(children, stretch) {
        None => Ok(own),
        Some(index) => match new_source(making, child(children, stretch.at + index), change) {
            Ok(range) => Ok(with_range(own, index, range)),
            Err(fault) => Err(fault),
        },
    }
}

// Source ranges before an item, its own, and those after it.
fn joined(
    before: Vec<Option<Span>>,
    range: Option<Span>,
    behind: Vec<Option<Span>>,
) -> Result<Vec<Option<Span>>, RangedFault>
    ensures made { IfOk result (λ all. all.items ≡ before.items ++ (range ∷ behind.items)) }
    ensures far { IfErr result (λ fault. fault ≡ RangedFault.Memory) }
{
    let mut all = before;
    let mut behind = behind;
    match all.push(range) {
        Ok(()) => match all.append(&mut behind) {
            Ok(()) => Ok(all),
            Err(_) => Err(RangedFault::Memory),
        },
        Err(_) => Err(RangedFault::Memory),
    }
}

// The source ranges of the children that a zone touches, once the items have an even shape; none
// where the zone strips a child.
fn reshaped_ranges(
    making: Making,
    children: &Children,
    seat: Seat,
    zone: Interval,
    shape: Shape,
) -> Result<Option<Retiming>, RangedFault>
    requires few { tally children.now < 2 ^ 32 }
    requires faultless { AreCuttable (items_of children.now) }
    requires held { IsShaped (items_of children.now) seat zone shape }
    requires start { seat.start ≤ℤ pos 10000000000000000000000000000000000000 }
    requires even { retimings.is_even shape ≡ true }
    ensures made { IfOk result (λ found. IfSome found (λ retiming. (growth : ℤ)
        → IsRetimedBy making.rate (items_of children.now) seat
        (moves.Edges zone shape growth) retiming)) }
    ensures far { IfErr result (λ fault. fault ≡ RangedFault.Range → (h : Held)
        → IsAt (items_of children.now) seat h
        → has_far (changes.reshaped h (zone_of zone) shape) ≡ true) }
{
    let first = ahead(children, zone.from, zone.to);
    let count = touched(children, first, zone.from, zone.to);
    let item = child(children, seat.index);
    let end = seat.start + sound_ticks(item);
    let before = Stretch {
        at: first.count,
        count: seat.index - first.count,
    };
    let behind = Stretch {
        at: seat.index + 1,
        count: first.count + count - seat.index - 1,
    };
    if !strips_none(children, before, seen_from(zone, first.ticks)) {
        return Ok(None);
    }
    if !strips_none(children, behind, seen_from(zone, end)) {
        return Ok(None);
    }
    let front = last_ranges(making, children, before, shape.before)?;
    let range = new_source(making, item, shape.item)?;
    let back = first_ranges(making, children, behind, shape.behind)?;
    match joined(front, range, back) {
        Ok(ranges) => Ok(Some(Retiming {
            at: first.count,
            ranges,
        })),
        Err(fault) => Err(fault),
    }
}

// The source range of an item that slips.
fn slipped_ranges(
    making: Making,
    children: &Children,
    seat: Seat,
    by: i128,
) -> Result<Retiming, RangedFault>
    requires faultless { AreCuttable (items_of children.now) }
    requires there { seat.index < length (items_of children.now) }
    requires by { IsMove by }
    ensures made { IfOk result (λ retiming.
        IsRetimedBy making.rate (items_of children.now) seat (moves.Media by) retiming) }
    ensures far { IfErr result (λ fault. fault ≡ RangedFault.Range → (h : Held)
        → IsAt (items_of children.now) seat h
        → has_far (motion_list (moves.Media by) h) ≡ true) }
{
    match new_source(making, child(children, seat.index), Change::Slip { by }) {
        Ok(range) => {
            let none = Vec::new(making.alloc);
            match joined(none, range, Vec::new(making.alloc)) {
                Ok(ranges) => Ok(Retiming {
                    at: seat.index,
                    ranges,
                }),
                Err(fault) => Err(fault),
            }
        }
        Err(fault) => Err(fault),
    }
}

/// The source ranges that a motion gives children; `None` where it does more than that.
/// [`RangedFault::Range`] comes only where a new time is out of range, and [`RangedFault::Memory`]
/// where memory runs out.
pub(crate) fn retimes(
    making: Making,
    children: &Children,
    seat: Seat,
    motion: Motion,
) -> Result<Option<Retiming>, RangedFault>
    requires few { tally children.now < 2 ^ 32 }
    requires faultless { AreCuttable (items_of children.now) }
    requires held { IsSuited (items_of children.now) seat motion }
    requires start { seat.start ≤ℤ pos 10000000000000000000000000000000000000 }
    ensures made { IfOk result (λ found. IfSome found
        (IsRetimedBy making.rate (items_of children.now) seat motion)) }
    ensures far { IfErr result (λ fault. fault ≡ RangedFault.Range → (h : Held)
        → IsAt (items_of children.now) seat h → has_far (motion_list motion h) ≡ true) }
{
    match motion {
        Motion::Media { by } => match slipped_ranges(making, children, seat, by) {
            Ok(retiming) => Ok(Some(retiming)),
            Err(fault) => Err(fault),
        },
        Motion::Edges { zone, shape, .. } => {
            if !is_even(shape) {
                return Ok(None);
            }
            reshaped_ranges(making, children, seat, zone, shape)
        }
    }
}
