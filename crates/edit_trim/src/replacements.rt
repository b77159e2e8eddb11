//! What comes in place of the children that an edit of edges touches.

ghost use Rattle.std.specs.Prelude.{◌≡◌, ◌<◌, ◌≤◌, ◌^◌, ◌+◌, ◌++◌, IfErr, IfNone, IfOk, IfSome};
ghost use Rattle.std.specs.Prelude.{Some};
ghost use Rattle.std.specs.Prelude.{None, false, not, true, length, take, drop, slice_get, pos};
ghost use Rattle.std.specs.Prelude.{◌≤ℤ◌};
ghost use Rattle.std.specs.Prelude.{◌-ℤ◌};
ghost use Rattle.otio_model.specs.Counts.{count as tally};
ghost use Rattle.otio_model.specs.Edits.{replaced};
ghost use Rattle.otio_model.specs.Trees.{items_of, is_transition};
ghost use Rattle.edits.specs.Children.{all_made, has_far};
ghost use Rattle.edits.specs.Cuts.{strip};
ghost use Rattle.edits.specs.Edges as edges;
ghost use Rattle.edits.specs.Edges.{Held, first_item, last_item};
ghost use Rattle.edits.specs.Narrow.{touched as touched_children};
ghost use Rattle.pieces.specs.Short.{AreCuttable, IsCuttable};
ghost use Rattle.edit_trim.specs.Changes as changes;
ghost use Rattle.edit_trim.specs.Changes.{IsChange, Leaves};
ghost use Rattle.edit_trim.specs.Seats as seats;
ghost use Rattle.edit_trim.specs.Seats.{IsAt, IsFirst, IsInstant, IsLast, IsShape, IsShaped};
ghost use Rattle.edit_trim.specs.Seats.{LeavesAll, zone_of};

use crate::resized_items::{Change, Making, changed, gap_of};
use edit_plans::{Middle, Stretch, ahead, child, kept, touched};
use otio_model::{Children, Item, ItemOf, Seat};
use pieces::{RangedFault, member, sound_ticks};
use std::alloc::{AllocError, Global};

/// What becomes of an item, of what stands beside it, and of the time between them, in ticks.
#[derive(Clone, Copy)]
pub(crate) struct Shape {
    /// What becomes of the item before.
    pub before: Change,
    /// How long a new gap before the item is; there is none where this isn't more than 0.
    pub gap_before: i128,
    /// What becomes of the item.
    pub item: Change,
    /// The same of a new gap behind it.
    pub gap_behind: i128,
    /// What becomes of the item behind.
    pub behind: Change,
}

/// From one instant to another one, in ticks from the start of the track.
#[derive(Clone, Copy)]
pub(crate) struct Interval {
    pub from: i128,
    pub to: i128,
}

/// Whether an item is no transition, so that it takes time.
pub(crate) fn takes_time(item: &Item) -> bool
    ensures { result ≡ not (is_transition item.now) }
{
    match item {
        ItemOf::Transition(_) => false,
        _ => true,
    }
}

// The index of the last item that is no transition.
#[tactic(auto, using(crate::proofs::Walks::last_found, crate::proofs::Walks::last_passed))]
fn last_index(list: &[Item]) -> Option<usize>
    ensures some { IfSome result (λ index. IsLast list.now index) }
    ensures none { IfNone result (last_item list.now ≡ None) }
{
    'items: for index in (0..list.len()).rev() {
        if takes_time(member(list, index)) {
            return Some(index);
        }
    }
    None
}

// The index of the first item that is no transition.
#[tactic(auto, using(crate::proofs::Walks::first_found, crate::proofs::Walks::first_passed))]
fn first_index(list: &[Item]) -> Option<usize>
    ensures some { IfSome result (λ index. IsFirst list.now index) }
    ensures none { IfNone result (first_item list.now ≡ None) }
{
    'items: for index in 0..list.len() {
        if takes_time(member(list, index)) {
            return Some(index);
        }
    }
    None
}

// The list with others in the place of the item at an index.
fn swapped(list: Vec<Item>, index: usize, put: Vec<Item>) -> Result<Vec<Item>, AllocError>
    requires { index < length list.items }
    ensures { IfOk result (λ all. all.items
        ≡ take index list.items ++ (put.items ++ drop (index + 1) list.items)) }
{
    let mut all = list;
    let mut put = put;
    let mut rest = all.split_off(index + 1)?;
    all.truncate(index);
    put.append(&mut rest)?;
    all.append(&mut put)?;
    Ok(all)
}

// The list with what becomes of the item at an index.
fn changed_at(
    making: Making,
    list: Vec<Item>,
    index: usize,
    change: Change,
) -> Result<Vec<Item>, RangedFault>
    requires there { index < length list.items }
    requires items { AreCuttable list.items }
    requires change { IsChange change }
    requires leaves { IfSome (slice_get list.items index) (Leaves change) }
    ensures made { IfOk result (λ all. all_made making.rate
        (seats.changed_at change list.items index) ≡ Some all.items) }
    ensures few { IfOk result (λ all. length all.items ≤ length list.items) }
    ensures far { IfErr result (λ fault. fault ≡ RangedFault.Range → has_far
        (seats.changed_at change list.items index) ≡ true) }
{
    let put = changed(making, member(list.as_slice(), index), change)?;
    match swapped(list, index, put) {
        Ok(all) => Ok(all),
        Err(_) => Err(RangedFault::Memory),
    }
}

// The list with what becomes of its last item that is no transition.
#[tactic(auto, using(crate::proofs::PutEdges::last_is, crate::proofs::PutEdges::last_leaves, crate::proofs::PutEdges::last_stays))]
fn last_made(making: Making, list: Vec<Item>, change: Change) -> Result<Vec<Item>, RangedFault>
    requires items { AreCuttable list.items }
    requires change { IsChange change }
    requires leaves { IfSome (last_item list.items) (Leaves change) }
    ensures made { IfOk result (λ all. all_made making.rate
        (edges.last_changed (changes.changed change) list.items) ≡ Some all.items) }
    ensures few { IfOk result (λ all. length all.items ≤ length list.items) }
    ensures far { IfErr result (λ fault. fault ≡ RangedFault.Range → has_far
        (edges.last_changed (changes.changed change) list.items) ≡ true) }
{
    match last_index(list.as_slice()) {
        Some(index) => changed_at(making, list, index, change),
        None => Ok(list),
    }
}

// The list with what becomes of its first item that is no transition.
#[tactic(auto, using(crate::proofs::PutEdges::first_is, crate::proofs::PutEdges::first_leaves, crate::proofs::PutEdges::first_stays))]
fn first_made(making: Making, list: Vec<Item>, change: Change) -> Result<Vec<Item>, RangedFault>
    requires items { AreCuttable list.items }
    requires change { IsChange change }
    requires leaves { IfSome (first_item list.items) (Leaves change) }
    ensures made { IfOk result (λ all. all_made making.rate
        (edges.first_changed (changes.changed change) list.items) ≡ Some all.items) }
    ensures few { IfOk result (λ all. length all.items ≤ length list.items) }
    ensures far { IfErr result (λ fault. fault ≡ RangedFault.Range → has_far
        (edges.first_changed (changes.changed change) list.items) ≡ true) }
{
    match first_index(list.as_slice()) {
        Some(index) => changed_at(making, list, index, change),
        None => Ok(list),
    }
}

// Five lists in one.
fn joined(
    before: Vec<Item>,
    gap_before: Vec<Item>,
    item: Vec<Item>,
    gap_behind: Vec<Item>,
    behind: Vec<Item>,
) -> Result<Vec<Item>, AllocError>
    ensures { IfOk result (λ all. all.items ≡ before.items
        ++ (gap_before.items ++ (item.items ++ (gap_behind.items ++ behind.items)))) }
{
    let mut gap_behind = gap_behind;
    let mut behind = behind;
    gap_behind.append(&mut behind)?;
    let mut item = item;
    item.append(&mut gap_behind)?;
    let mut gap_before = gap_before;
    gap_before.append(&mut item)?;
    let mut before = before;
    before.append(&mut gap_before)?;
    Ok(before)
}

// What becomes of what stands before an item, of the item, and of what stands behind it.
fn parts(
    making: Making,
    before: Vec<Item>,
    item: &Item,
    behind: Vec<Item>,
    shape: Shape,
) -> Result<Vec<Item>, RangedFault>
    requires before { AreCuttable before.items }
    requires item { IsCuttable item.now }
    requires behind { AreCuttable behind.items }
    requires shape { IsShape shape }
    requires leaves { LeavesAll shape before.items item.now behind.items }
    ensures made { IfOk result (λ all. all_made making.rate
        (changes.parts shape before.items item.now behind.items) ≡ Some all.items) }
    ensures few { IfOk result (λ all.
        length all.items ≤ length before.items + 3 + length behind.items) }
    ensures far { IfErr result (λ fault. fault ≡ RangedFault.Range → has_far
        (changes.parts shape before.items item.now behind.items) ≡ true) }
{
    let before = last_made(making, before, shape.before)?;
    let gap_before = gap_of(making, shape.gap_before)?;
    let put = changed(making, item, shape.item)?;
    let gap_behind = gap_of(making, shape.gap_behind)?;
    let behind = first_made(making, behind, shape.behind)?;
    match joined(before, gap_before, put, gap_behind, behind) {
        Ok(all) => Ok(all),
        Err(_) => Err(RangedFault::Memory),
    }
}

/// A zone as what starts at an instant sees it.
pub(crate) fn seen_from(zone: Interval, instant: i128) -> Interval
    requires from { IsInstant zone.from }
    requires to { IsInstant zone.to }
    requires low { pos 0 ≤ℤ instant }
    requires high { instant ≤ℤ pos 50000000000000000000000000000000000000 }
    ensures from { result.from ≡ zone.from -ℤ instant }
    ensures to { result.to ≡ zone.to -ℤ instant }
{
    Interval {
        from: zone.from - instant,
        to: zone.to - instant,
    }
}

// Copies of children without the transitions that a zone strips. The zone is given as they see it.
fn stretch_of(
    alloc: Global,
    children: &Children,
    stretch: Stretch,
    zone: Interval,
) -> Result<Vec<Item>, RangedFault>
    requires few { tally children.now < 2 ^ 32 }
    requires there { stretch.at + stretch.count ≤ length (items_of children.now) }
    requires faultless { AreCuttable (items_of children.now) }
    ensures made { IfOk result (λ list. list.items
        ≡ strip (take stretch.count (drop stretch.at (items_of children.now))) zone.from zone.to) }
    ensures faultless { IfOk result (λ list. AreCuttable list.items) }
    ensures far { IfErr result (λ fault. fault ≡ RangedFault.Memory) }
{
    match kept(alloc, children, stretch, zone.from, zone.to) {
        Ok(list) => Ok(list),
        Err(_) => Err(RangedFault::Memory),
    }
}

/// What comes in place of the children that a zone touches in which an item begins or ends, where
/// the zone's transitions go, and the items take this shape.
pub(crate) fn reshaped(
    making: Making,
    children: &Children,
    seat: Seat,
    zone: Interval,
    shape: Shape,
) -> Result<Middle, RangedFault>
    requires few { tally children.now < 2 ^ 32 }
    requires faultless { AreCuttable (items_of children.now) }
    requires held { IsShaped (items_of children.now) seat zone shape }
    requires start { seat.start ≤ℤ pos 10000000000000000000000000000000000000 }
    ensures made { IfOk result (λ middle. (h : Held) → IsAt (items_of children.now) seat h
        → all_made making.rate (changes.reshaped h (zone_of zone) shape)
        ≡ Some (replaced middle.at middle.count middle.put.items (items_of children.now))) }
    ensures within { IfOk result (λ middle.
        middle.at + middle.count ≤ length (items_of children.now)) }
    ensures count { IfOk result (λ middle.
        middle.count ≡ length (touched_children (items_of children.now) zone.from zone.to)) }
    ensures few { IfOk result (λ middle. length middle.put.items
        ≤ length (touched_children (items_of children.now) zone.from zone.to) + 2) }
    ensures far { IfErr result (λ fault. fault ≡ RangedFault.Range → (h : Held)
        → IsAt (items_of children.now) seat h
        → has_far (changes.reshaped h (zone_of zone) shape) ≡ true) }
{
    let first = ahead(children, zone.from, zone.to);
    let count = touched(children, first, zone.from, zone.to);
    let item = child(children, seat.index);
    let end = seat.start + sound_ticks(item);
    let before = stretch_of(
        making.alloc,
        children,
        Stretch {
            at: first.count,
            count: seat.index - first.count,
        },
        seen_from(zone, first.ticks),
    )?;
    let behind = stretch_of(
        making.alloc,
        children,
        Stretch {
            at: seat.index + 1,
            count: first.count + count - seat.index - 1,
        },
        seen_from(zone, end),
    )?;
    let put = parts(making, before, item, behind, shape)?;
    Ok(Middle {
        at: first.count,
        count,
        put,
    })
}
