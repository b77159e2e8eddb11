//! Children that a zone touches, and the one that holds an instant.

ghost use Rattle.limits.specs.Limits.{most_ticks};
ghost use Rattle.std.specs.Prelude.{◌≡◌, ◌<◌, ◌≤◌, ◌^◌, ◌+◌, IfSome, IfNone, Some, None};
ghost use Rattle.std.specs.Prelude.{cond, length, slice_get, pos, ◌≤ℤ◌, ◌-ℤ◌, ◌&&◌, int_le};
ghost use Rattle.otio_model.specs.Counts.{count};
ghost use Rattle.otio_model.specs.Kept.{reach_in};
ghost use Rattle.otio_model.specs.Trees.{items_of};
ghost use Rattle.edits.specs.Narrow as narrow;
ghost use Rattle.edits.specs.Edges.{added, held_at};
ghost use Rattle.pieces.specs.Short.{IsShort, AreShort};
ghost use Rattle.edit_plans.specs.Parts.{IsClear, IsFurther, IsHeldAt, IsPassed, IsStarted};

use otio_model::{Children, Item, Seat};
use pieces::{is_stripped, ticks_of};

/// The child at an index.
pub fn child(children: &Children, index: usize) -> &Item
    requires { index < length (items_of children.now) }
    ensures { slice_get (items_of children.now) index ≡ Some result.now }
{
    children.child(index)
}

/// The first children of a list.
#[derive(Clone, Copy, PartialEq, Eq)]
pub struct Passed {
    /// How many there are.
    pub count: usize,
    /// How long they are, in ticks.
    pub ticks: i128,
}

// Whether an instant is at or before another one.
#[tactic(auto, using(crate::proofs::Passing::meets))]
fn begins_by(at: i128, to: i128) -> bool
    ensures { result ≡ int_le (pos 0) (to -ℤ at) }
{
    at <= to
}

// Whether what starts at an instant ends at or after another one.
#[tactic(auto, using(crate::proofs::Passing::meets))]
fn ends_from(at: i128, ticks: i128, from: i128) -> bool
    requires low { pos 0 ≤ℤ at }
    requires high { at ≤ℤ pos 100000000000000000000000000000000000 }
    requires short { ticks ≤ℤ pos most_ticks }
    requires long { pos 0 ≤ℤ ticks }
    ensures { result ≡ int_le (from -ℤ at) ticks }
{
    from <= at + ticks
}

// Whether a zone meets an item of a length that starts at an instant, both ends included.
fn lies_on(at: i128, ticks: i128, from: i128, to: i128) -> bool
    requires low { pos 0 ≤ℤ at }
    requires high { at ≤ℤ pos 100000000000000000000000000000000000 }
    requires short { ticks ≤ℤ pos most_ticks }
    requires long { pos 0 ≤ℤ ticks }
    ensures { result ≡ (int_le (pos 0) (to -ℤ at) && int_le (from -ℤ at) ticks) }
{
    begins_by(at, to) && ends_from(at, ticks, from)
}

/// Whether a zone touches a child that starts at an instant: the child is stripped for the zone, or
/// meets it, both ends included. All instants are in ticks from the start of the list.
pub fn is_met(item: &Item, at: i128, from: i128, to: i128) -> bool
    requires low { pos 0 ≤ℤ at }
    requires high { at ≤ℤ pos 100000000000000000000000000000000000 }
    requires short { IsShort item.now }
    ensures { result ≡ narrow.is_met item.now (from -ℤ at) (to -ℤ at) }
{
    is_stripped(item, at, from, to) || lies_on(at, ticks_of(item), from, to)
}

// How far the overlaps of children reach from their cuts at most, in ticks.
#[tactic(auto, using(crate::proofs::Clearing::reach_short))]
fn reach(children: &Children) -> i128
    ensures value { result ≡ pos (reach_in (items_of children.now)) }
    ensures high { result ≤ℤ pos most_ticks }
{
    children.overlap_reach() as i128
}

// First children that no zone from an instant on touches, found by the child that holds the
// instant less the reach of the overlaps.
fn clear(children: &Children, from: i128) -> Passed
    requires few { count children.now < 2 ^ 32 }
    ensures { IsClear (items_of children.now) from result.count result.ticks }
{
    let reach = reach(children);
    if from <= reach {
        return Passed { count: 0, ticks: 0 };
    }
    match children.holder(from - reach - 1) {
        Some(seat) => Passed {
            count: seat.index,
            ticks: seat.start,
        },
        None => Passed {
            count: children.len(),
            ticks: children.added_ticks() as i128,
        },
    }
}

// First children with those after them that are known, by whole pieces of the list, to reach no
// instant of a zone.
fn further(children: &Children, passed: Passed, from: i128, to: i128) -> Passed
    requires few { count children.now < 2 ^ 32 }
    requires passed { IsPassed (items_of children.now) passed.count passed.ticks }
    ensures { IsFurther (items_of children.now) from to passed.count passed.ticks
        result.count result.ticks }
{
    if passed.count >= children.len() {
        return passed;
    }
    let quiet = children.quiet(passed.count, from, to);
    Passed {
        count: passed.count + quiet.count,
        ticks: passed.ticks + quiet.ticks,
    }
}

/// The children before the first that a zone touches, whose ends `from` and `to` are in ticks from
/// the start of the list.
pub fn ahead(children: &Children, from: i128, to: i128) -> Passed
    requires few { count children.now < 2 ^ 32 }
    requires short { AreShort (items_of children.now) }
    ensures count { result.count ≡ length (narrow.ahead (items_of children.now) from to) }
    ensures ticks { result.ticks ≡ added (narrow.ahead (items_of children.now) from to) }
{
    let mut passed = further(children, clear(children, from), from, to);
    'children: while passed.count < children.len() {
        let item = children.child(passed.count);
        if is_met(item, passed.ticks, from, to) {
            return passed;
        }
        let next = Passed {
            count: passed.count + 1,
            ticks: passed.ticks + ticks_of(item),
        };
        passed = further(children, next, from, to);
    }
    passed
}

// How many children there are up to the last that is met, where the one after so many is met or
// isn't.
fn met_up_to(met: bool, passed: usize, count: usize) -> usize
    ensures { result ≡ cond met passed count }
{
    if met { passed } else { count }
}

// The last instant before the end of a zone, or of the children where that comes first.
fn last_instant(children: &Children, to: i128) -> i128
    requires few { count children.now < 2 ^ 32 }
{
    match i128::try_from(children.added_ticks()) {
        Ok(end) => to.min(end).saturating_sub(1),
        Err(_) => to,
    }
}

// First children up to the one at a seat, where a zone meets that one; else those ahead of it.
fn started_at(children: &Children, ahead: Passed, seat: Seat, from: i128, to: i128) -> Passed
    requires few { count children.now < 2 ^ 32 }
    requires short { AreShort (items_of children.now) }
    requires ahead { IsPassed (items_of children.now) ahead.count ahead.ticks }
    requires seat { IsPassed (items_of children.now) seat.index seat.start }
    requires there { seat.index < length (items_of children.now) }
    ensures { IsStarted (items_of children.now) from to ahead.count result.count result.ticks }
{
    if seat.index < ahead.count {
        return ahead;
    }
    let item = children.child(seat.index);
    if is_met(item, seat.start, from, to) {
        return Passed {
            count: seat.index + 1,
            ticks: seat.start + ticks_of(item),
        };
    }
    ahead
}

// First children up to the last one that starts before the end of a zone, where the zone meets
// that one; else those ahead of the zone.
fn started(children: &Children, ahead: Passed, from: i128, to: i128) -> Passed
    requires few { count children.now < 2 ^ 32 }
    requires short { AreShort (items_of children.now) }
    requires ahead { IsPassed (items_of children.now) ahead.count ahead.ticks }
    ensures { IsStarted (items_of children.now) from to ahead.count result.count result.ticks }
{
    match children.holder(last_instant(children, to)) {
        Some(seat) => started_at(children, ahead, seat, from, to),
        None => ahead,
    }
}

/// How many children there are from the first to the last that a zone touches, where those before
/// the first are given. The end of the list counts as touched where the zone begins after it.
/// `from` and `to`, the ends of the zone, are in ticks from the start of the list.
pub fn touched(children: &Children, ahead: Passed, from: i128, to: i128) -> usize
    requires few { count children.now < 2 ^ 32 }
    requires short { AreShort (items_of children.now) }
    requires zone { from ≤ℤ to }
    requires count { ahead.count ≡ length (narrow.ahead (items_of children.now) from to) }
    requires ticks { ahead.ticks ≡ added (narrow.ahead (items_of children.now) from to) }
    ensures { result ≡ length (narrow.touched (items_of children.now) from to) }
{
    let reach = reach(children);
    let mut passed = started(children, ahead, from, to);
    let mut count = passed.count - ahead.count;
    'children: while passed.count < children.len() {
        if to < passed.ticks - reach {
            return count;
        }
        let item = children.child(passed.count);
        let met = is_met(item, passed.ticks, from, to);
        let next = Passed {
            count: passed.count + 1,
            ticks: passed.ticks + ticks_of(item),
        };
        count = met_up_to(met, next.count - ahead.count, count);
        passed = further(children, next, from, to);
    }
    if passed.ticks < from {
        return children.len() - ahead.count;
    }
    count
}

/// The index of the child that holds an instant, and where it starts, both in ticks from the start
/// of the list; `None` exactly where no child holds it. A transition takes no time, so it holds
/// none.
pub fn held(children: &Children, instant: i128) -> Option<Seat>
    requires few { count children.now < 2 ^ 32 }
    ensures held { IfSome result
        (λ seat. IsHeldAt (items_of children.now) instant seat.index seat.start) }
    ensures none { IfNone result (held_at (items_of children.now) instant ≡ None) }
{
    children.holder(instant)
}
