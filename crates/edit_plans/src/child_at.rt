//! The child of a track or a stack that an instant reaches, and the instant in it.

ghost use Rattle.std.specs.Prelude.{◌≡◌, ◌<◌, ◌≤◌, ◌^◌, ℤ, pos, ◌+ℤ◌, ◌-ℤ◌, ◌≤ℤ◌, IfSome, length, true, None};
ghost use Rattle.limits.specs.Limits.{most_ticks};
ghost use Rattle.otio_model.specs.Counts.{count, count_of};
ghost use Rattle.otio_model.specs.Lengths.{added, length_of, lengths, or_zero};
ghost use Rattle.otio_model.specs.Overlaps.{within};
ghost use Rattle.otio_model.specs.Seats.{IsFirstOverlap, IsSeat, HasNoOverlap};
ghost use Rattle.otio_model.specs.Trees.{items_of};
ghost use Rattle.coord.specs.Sights.{View, looks};
ghost use Rattle.coord.specs.Soundness.{AreFaultless, fault_of};
ghost use Rattle.edits_law.specs.Down.{reached, reached_above};
ghost use Rattle.edit_plans.specs.Way as way;
ghost use Rattle.edit_plans.specs.Way.{AreShort, IsBefore, IsBehind, IsNear};

use otio_model::{Children, Item, Seat};

// The last child before an index that isn't a transition.
fn child_before(children: &Children, end: usize) -> Option<usize>
    requires { end ≤ length (items_of children.now) }
    ensures { IsBefore children.now end result }
{
    'children: for index in (0..end).rev() {
        if !children.child(index).is_transition() {
            return Some(index);
        }
    }
    None
}

// The first child from an index on that isn't a transition.
fn child_behind(children: &Children, from: usize) -> Option<usize>
    requires { from ≤ length (items_of children.now) }
    ensures { IsBehind children.now from result }
{
    'children: for index in from..children.len() {
        if !children.child(index).is_transition() {
            return Some(index);
        }
    }
    None
}

// Whether the index that was found is this one.
fn is_index(found: Option<usize>, index: usize) -> bool
    ensures { result ≡ way.is_index found index }
{
    match found {
        Some(found) => found == index,
        None => false,
    }
}

/// Whether an instant lies from 0 up to, not including, a length.
pub(crate) fn is_within(at: i128, length: i128) -> bool
    ensures { result ≡ within (pos 0) length at }
{
    0 <= at && at < length
}

/// How long an item without a fault is, in ticks.
pub(crate) fn ticks_of(item: &Item) -> i128
    requires few { count_of item.now < 2 ^ 32 }
    requires sound { fault_of item.now ≡ None }
    ensures value { result ≡ pos (or_zero (length_of item.now)) }
    ensures low { pos 0 ≤ℤ result }
    ensures high { result ≤ℤ pos most_ticks }
{
    item.length_or_zero()
}

// An instant as seen from a start.
fn since(start: i128, at: i128) -> i128
    requires { AreShort start at }
    ensures value { result ≡ at -ℤ start }
    ensures low { (pos 0 -ℤ pos most_ticks) ≤ℤ result }
    ensures high { result ≤ℤ pos most_ticks }
    ensures near { IsNear result }
{
    at - start
}

// An instant as seen from a start that lies a length before the one it was seen from.
fn later(ticks: i128, length: i128) -> i128
    requires low { (pos 0 -ℤ pos most_ticks) ≤ℤ ticks }
    requires high { ticks ≤ℤ pos most_ticks }
    requires length_low { pos 0 ≤ℤ length }
    requires length_high { length ≤ℤ pos most_ticks }
    ensures value { result ≡ ticks +ℤ length }
    ensures near { IsNear result }
{
    ticks + length
}

// The instant in a child of a track, where the first overlap that holds the track's instant has
// this cut; `None` exactly where the child is no side of it.
fn in_side(children: &Children, cut: Seat, index: usize, at: i128) -> Option<i128>
    requires few { count children.now < 2 ^ 32 }
    requires sound { AreFaultless children.now }
    requires fits { added (lengths children.now) ≤ most_ticks }
    requires there { index < length (items_of children.now) }
    requires inside { within (pos 0) (pos (added (lengths children.now))) at ≡ true }
    requires low { pos 0 ≤ℤ at }
    requires high { at ≤ℤ pos most_ticks }
    requires first { IsFirstOverlap children.now at cut }
    ensures value { (v : View) → result ≡ reached index (looks v (items_of children.now)) at }
    ensures near { IfSome result IsNear }
{
    let ticks = since(cut.start, at);
    let before = child_before(children, cut.index);
    if is_index(before, index) {
        return Some(later(ticks, ticks_of(children.child(index))));
    }
    let behind = child_behind(children, cut.index + 1);
    if is_index(behind, index) {
        return Some(ticks);
    }
    None
}

// The instant in a child of a track, where no overlap holds the track's instant; `None` exactly
// where another child holds it.
fn in_holder(children: &Children, held: Seat, index: usize, at: i128) -> Option<i128>
    requires fits { added (lengths children.now) ≤ most_ticks }
    requires held { IsSeat children.now at held }
    requires none { HasNoOverlap children.now at }
    ensures value { (v : View) → result ≡ reached index (looks v (items_of children.now)) at }
    ensures near { IfSome result IsNear }
{
    if is_index(Some(held.index), index) {
        return Some(since(held.start, at));
    }
    None
}

/// The instant that an instant of a track reaches in its child of an index; `None` exactly where
/// the track doesn't ask that child.
pub(crate) fn in_track(children: &Children, index: usize, at: i128) -> Option<i128>
    requires few { count children.now < 2 ^ 32 }
    requires sound { AreFaultless children.now }
    requires fits { added (lengths children.now) ≤ most_ticks }
    requires there { index < length (items_of children.now) }
    ensures value { (v : View) → result ≡ reached index (looks v (items_of children.now)) at }
    ensures near { IfSome result IsNear }
{
    match children.holder(at) {
        None => None,
        Some(held) => match children.first_overlap(at) {
            Some(cut) => in_side(children, cut, index, at),
            None => in_holder(children, held, index, at),
        },
    }
}

/// The instant that an instant of a stack reaches in its child of an index: the same one; `None`
/// exactly where it lies outside the child.
pub(crate) fn in_stack(children: &Children, index: usize, at: i128) -> Option<i128>
    requires few { count children.now < 2 ^ 32 }
    requires sound { AreFaultless children.now }
    requires there { index < length (items_of children.now) }
    ensures value { (v : View) → result ≡ reached_above index (looks v (items_of children.now)) at }
    ensures near { IfSome result IsNear }
{
    if is_within(at, ticks_of(children.child(index))) {
        return Some(at);
    }
    None
}
