//! Edits of edges as what becomes of the held item and of what stands beside it.

ghost use Rattle.std.specs.Prelude.{◌≡◌, ◌<◌, ℕ, IfNone, IfSome, Some, None, option_copied};
ghost use Rattle.std.specs.Prelude.{cond, pos, ◌≤ℤ◌, ◌<ℤ◌, ◌-ℤ◌, ◌+ℤ◌, ◌*ℤ◌};
ghost use Rattle.std.specs.Prelude.{◌&&◌, ◌||◌, is_none, length, not};
ghost use Rattle.std.specs.Int.{int_max, int_min};
ghost use Rattle.otio_model.specs.Trees.{items_of};
ghost use Rattle.edits.specs.Children.{ticks as child_ticks};
ghost use Rattle.edits.specs.Edges as edges;
ghost use Rattle.edits.specs.Edges.{Held, last_item};
ghost use Rattle.pieces.specs.Short.{AreCuttable, IsCuttable};
ghost use Rattle.edit_plans.specs.Bounds.{IsMove};
ghost use Rattle.edit_trim.specs.Motions as trims;
ghost use Rattle.edit_trim.specs.Motions.{IsMotion};
ghost use Rattle.edit_trim.specs.Seats as seats;
ghost use Rattle.edit_trim.specs.Seats.{IsAt, IsInstant};
ghost use Rattle.edit_trim.specs.Founds.{HasNeighbours, LacksNeighbour};
ghost use Rattle.edit_trim.specs.declared.edge_edits.EdgeEdit.TheVariants as asks;

use crate::adjacent_items::{is_gap_at, item_after, item_before};
use crate::replacements::{Interval, Shape};
use crate::resized_items::Change;
use edit_plans::{Moves, child, is_zero, ripple_by, roll_by, slide_by, slip_by, trim_by};
use otio_model::{Children, Item, Seat};
use pieces::sound_ticks;

/// What an edit of edges does to the track, in ticks.
#[derive(Clone, Copy)]
pub(crate) enum Motion {
    /// The start of the item moves in its media, and no edge moves.
    Media {
        by: i128,
    },
    /// The transitions of the zone go, the items take this shape, and the track grows.
    Edges {
        zone: Interval,
        shape: Shape,
        growth: i128,
    },
}

/// Record frames in ticks.
pub(crate) fn in_ticks(frame: i128, count: i64) -> i128
    requires low { pos 1 ≤ℤ frame }
    requires high { frame ≤ℤ pos 705600000000000000 }
    ensures value { result ≡ (count *ℤ frame) }
    ensures near { IsMove result }
{
    i128::from(count) * frame
}

// Record frames that two edges move, in ticks.
fn edges_in_ticks(frame: i128, head: i64, tail: i64) -> Moves
    requires low { pos 1 ≤ℤ frame }
    requires high { frame ≤ℤ pos 705600000000000000 }
    ensures head { result.head ≡ (head *ℤ frame) }
    ensures tail { result.tail ≡ (tail *ℤ frame) }
    ensures near_head { IsMove result.head }
    ensures near_tail { IsMove result.tail }
{
    Moves {
        head: in_ticks(frame, head),
        tail: in_ticks(frame, tail),
    }
}

// The earlier of an instant and where it moves to.
fn earlier(instant: i128, by: i128) -> i128
    requires low { pos 0 ≤ℤ instant }
    requires high { instant ≤ℤ pos 50000000000000000000000000000000000000 }
    requires by { IsMove by }
    ensures value { result ≡ int_min instant (instant +ℤ by) }
    ensures near { IsInstant result }
{
    instant.min(instant + by)
}

// The later of an instant and where it moves to.
fn later(instant: i128, by: i128) -> i128
    requires low { pos 0 ≤ℤ instant }
    requires high { instant ≤ℤ pos 50000000000000000000000000000000000000 }
    requires by { IsMove by }
    ensures value { result ≡ int_max instant (instant +ℤ by) }
    ensures near { IsInstant result }
{
    instant.max(instant + by)
}

// The zone from an instant that moves to another one that moves.
fn zone_between(first: i128, first_by: i128, last: i128, last_by: i128) -> Interval
    requires first_low { pos 0 ≤ℤ first }
    requires first_high { first ≤ℤ pos 50000000000000000000000000000000000000 }
    requires last_low { pos 0 ≤ℤ last }
    requires last_high { last ≤ℤ pos 50000000000000000000000000000000000000 }
    requires first_by { IsMove first_by }
    requires last_by { IsMove last_by }
    ensures from { result.from ≡ int_min first (first +ℤ first_by) }
    ensures to { result.to ≡ int_max last (last +ℤ last_by) }
    ensures near_from { IsInstant result.from }
    ensures near_to { IsInstant result.to }
{
    Interval {
        from: earlier(first, first_by),
        to: later(last, last_by),
    }
}

// The end of an item that starts at an instant.
fn end_of(start: i128, item: &Item) -> i128
    requires start_low { pos 0 ≤ℤ start }
    requires start_high { start ≤ℤ pos 10000000000000000000000000000000000000 }
    requires item { IsCuttable item.now }
    ensures value { result ≡ (start +ℤ child_ticks item.now) }
    ensures low { pos 0 ≤ℤ result }
    ensures high { result ≤ℤ pos 50000000000000000000000000000000000000 }
{
    start + sound_ticks(item)
}

// By how much a ripple makes a track longer.
fn ripple_growth(moves: Moves) -> i128
    requires head { IsMove moves.head }
    requires tail { IsMove moves.tail }
    ensures { result ≡ (moves.tail -ℤ moves.head) }
{
    moves.tail - moves.head
}

// An item as it was.
fn kept() -> Change
    ensures { result ≡ seats.keep }
{
    Change::Move { head: 0, tail: 0 }
}

// An item whose edges move so far.
fn both_moved(moves: Moves) -> Change
    ensures { result ≡ Change.Move moves.head moves.tail }
{
    Change::Move {
        head: moves.head,
        tail: moves.tail,
    }
}

// The shape of a slide.
fn slide_shape(by: i128) -> Shape
    ensures { result ≡ seats.slide_shape by }
{
    Shape {
        before: Change::Move { head: 0, tail: by },
        gap_before: 0,
        item: kept(),
        gap_behind: 0,
        behind: kept(),
    }
}

// The shape of a ripple.
fn ripple_shape(moves: Moves) -> Shape
    ensures { result ≡ seats.ripple_shape moves.head moves.tail }
{
    Shape {
        before: kept(),
        gap_before: 0,
        item: both_moved(moves),
        gap_behind: 0,
        behind: kept(),
    }
}

// What becomes of a gap that grows, or of another item, which stays.
fn gap_change(is_gap: bool, by: i128) -> Change
    ensures { result ≡ cond is_gap (Change.Grow by) seats.keep }
{
    if is_gap {
        return Change::Grow { by };
    }
    kept()
}

// How long a new gap is: none comes where one stands there already.
fn new_gap(is_gap: bool, ticks: i128) -> i128
    ensures { result ≡ cond is_gap (pos 0) ticks }
{
    if is_gap {
        return 0;
    }
    ticks
}

// The other way.
fn back(by: i128) -> i128
    requires { IsMove by }
    ensures { result ≡ pos 0 -ℤ by }
{
    0 - by
}

// The shape of a trim, where a gap stands before the item or behind it, or none does.
fn trim_shape(before: bool, behind: bool, moves: Moves) -> Shape
    requires { IsMove moves.tail }
    ensures { result ≡ seats.trim_shape before behind moves.head moves.tail }
{
    Shape {
        before: gap_change(before, moves.head),
        gap_before: new_gap(before, moves.head),
        item: both_moved(moves),
        gap_behind: new_gap(behind, back(moves.tail)),
        behind: gap_change(behind, back(moves.tail)),
    }
}

// The shape of a roll.
fn roll_shape(moves: Moves) -> Shape
    ensures { result ≡ seats.roll_shape moves.head moves.tail }
{
    Shape {
        before: Change::Move {
            head: 0,
            tail: moves.head,
        },
        gap_before: 0,
        item: both_moved(moves),
        gap_behind: 0,
        behind: Change::Move {
            head: moves.tail,
            tail: 0,
        },
    }
}

// By how much a track grows whose item is trimmed: only at its end.
fn trim_growth(behind: Option<&Item>, tail: i128) -> i128
    ensures { result ≡ trims.trim_growth (option_copied behind.entry) tail }
{
    match behind {
        Some(_) => 0,
        None => tail.max(0),
    }
}

/// A slip.
pub(crate) fn slip(frame: i128, item: &Item, by: i64) -> Motion
    requires low { pos 1 ≤ℤ frame }
    requires high { frame ≤ℤ pos 705600000000000000 }
    requires item { IsCuttable item.now }
    ensures { (n : ℕ) (h : Held) → frame ≡ pos n → h.item ≡ item.now
        → IsMotion (pos n) (asks.Slip by) h result }
{
    Motion::Media {
        by: slip_by(frame, item, in_ticks(frame, by)),
    }
}

/// A slide of an item that starts at an instant, where this stands before it.
pub(crate) fn slide(frame: i128, start: i128, before: &Item, by: i64) -> Motion
    requires low { pos 1 ≤ℤ frame }
    requires high { frame ≤ℤ pos 705600000000000000 }
    requires start_low { pos 0 ≤ℤ start }
    requires start_high { start ≤ℤ pos 10000000000000000000000000000000000000 }
    requires before { IsCuttable before.now }
    ensures { (n : ℕ) (h : Held) → frame ≡ pos n → start ≡ edges.start h
        → last_item h.before ≡ Some before.now → IsMotion (pos n) (asks.Slide by) h result }
{
    let by = slide_by(frame, before, in_ticks(frame, by));
    Motion::Edges {
        zone: zone_between(start, by, start, by),
        shape: slide_shape(by),
        growth: by,
    }
}

/// A ripple of an item that starts at an instant.
pub(crate) fn ripple(frame: i128, start: i128, item: &Item, head: i64, tail: i64) -> Motion
    requires low { pos 1 ≤ℤ frame }
    requires high { frame ≤ℤ pos 705600000000000000 }
    requires start_low { pos 0 ≤ℤ start }
    requires start_high { start ≤ℤ pos 10000000000000000000000000000000000000 }
    requires item { IsCuttable item.now }
    ensures { (n : ℕ) (h : Held) → frame ≡ pos n → start ≡ edges.start h → h.item ≡ item.now
        → pos 0 <ℤ child_ticks h.item → IsMotion (pos n) (asks.Ripple head tail) h result }
{
    let moves = ripple_by(frame, item, edges_in_ticks(frame, head, tail));
    Motion::Edges {
        zone: zone_between(start, 0, end_of(start, item), 0),
        shape: ripple_shape(moves),
        growth: ripple_growth(moves),
    }
}

/// A trim of the item at a seat.
pub(crate) fn trim(children: &Children, frame: i128, seat: Seat, head: i64, tail: i64) -> Motion
    requires faultless { AreCuttable (items_of children.now) }
    requires there { seat.index < length (items_of children.now) }
    requires low { pos 1 ≤ℤ frame }
    requires high { frame ≤ℤ pos 705600000000000000 }
    requires start_low { pos 0 ≤ℤ seat.start }
    requires start_high { seat.start ≤ℤ pos 10000000000000000000000000000000000000 }
    ensures { (n : ℕ) (h : Held) → frame ≡ pos n → IsAt (items_of children.now) seat h
        → pos 0 <ℤ child_ticks h.item → IsMotion (pos n) (asks.Trim head tail) h result }
{
    let before = item_before(children, seat.index);
    let item = child(children, seat.index);
    let after = item_after(children, seat.index);
    let asked = edges_in_ticks(frame, head, tail);
    let moves = trim_by(frame, before, item, after, asked);
    Motion::Edges {
        zone: zone_between(seat.start, moves.head, end_of(seat.start, item), moves.tail),
        shape: trim_shape(is_gap_at(before), is_gap_at(after), moves),
        growth: trim_growth(after, moves.tail),
    }
}

// Whether an edge moves so far next to which nothing stands.
fn is_missing(neighbour: Option<&Item>, by: i64) -> bool
    ensures { result ≡ (not (edges.is_zero by) && is_none (option_copied neighbour.entry)) }
{
    !is_zero(i128::from(by)) && neighbour.is_none()
}

// Whether an edge moves next to which nothing stands.
fn lacks(before: Option<&Item>, head: i64, after: Option<&Item>, tail: i64) -> bool
    ensures { result ≡ ((not (edges.is_zero head) && is_none (option_copied before.entry))
        || (not (edges.is_zero tail) && is_none (option_copied after.entry))) }
{
    is_missing(before, head) || is_missing(after, tail)
}

/// A roll of the item at a seat; none where an edge moves next to which nothing stands.
pub(crate) fn roll(
    children: &Children,
    frame: i128,
    seat: Seat,
    head: i64,
    tail: i64,
) -> Option<Motion>
    requires faultless { AreCuttable (items_of children.now) }
    requires there { seat.index < length (items_of children.now) }
    requires low { pos 1 ≤ℤ frame }
    requires high { frame ≤ℤ pos 705600000000000000 }
    requires start_low { pos 0 ≤ℤ seat.start }
    requires start_high { seat.start ≤ℤ pos 10000000000000000000000000000000000000 }
    ensures motion { IfSome result (λ motion. (n : ℕ) (h : Held) → frame ≡ pos n
        → IsAt (items_of children.now) seat h → pos 0 <ℤ child_ticks h.item
        → IsMotion (pos n) (asks.Roll head tail) h motion) }
    ensures beside { IfSome result (λ motion. (h : Held)
        → IsAt (items_of children.now) seat h → HasNeighbours (asks.Roll head tail) h) }
    ensures none { IfNone result ((h : Held) → IsAt (items_of children.now) seat h
        → LacksNeighbour (asks.Roll head tail) h) }
{
    let before = item_before(children, seat.index);
    let item = child(children, seat.index);
    let after = item_after(children, seat.index);
    if lacks(before, head, after, tail) {
        return None;
    }
    let asked = edges_in_ticks(frame, head, tail);
    let moves = roll_by(frame, before, item, after, asked);
    Some(Motion::Edges {
        zone: zone_between(seat.start, moves.head, end_of(seat.start, item), moves.tail),
        shape: roll_shape(moves),
        growth: 0,
    })
}
