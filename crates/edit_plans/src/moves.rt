//! How far edits move edges.

ghost use Rattle.limits.specs.Limits.{most_ticks};
ghost use Rattle.std.specs.Prelude.{◌≡◌, IfSome, None, Some, option_copied, option_map, pos, ◌≤ℤ◌};
ghost use Rattle.std.specs.Prelude.{◌-ℤ◌};
ghost use Rattle.edits.specs.Children.{ticks};
ghost use Rattle.edits.specs.Edges as edges;
ghost use Rattle.edits.specs.Edges.{Held, first_item, last_item};
ghost use Rattle.pieces.specs.Short.{IsCuttable};
ghost use Rattle.edit_plans.specs.Bounds.{IsMove, IsHandle};
ghost use Rattle.edit_plans.specs.Meanings.{gap_of_before, moves_of};

use crate::clamps::{clamped, is_zero, lesser, whole_frames, whole_limit};
use crate::media_handles::{Handles, clip_handles, head_limit, tail_limit};
use otio_model::{Item, ItemOf};
use pieces::sound_ticks;

/// How far the head and the tail of an item move, in ticks; a positive number is later.
#[derive(Clone, Copy, PartialEq, Eq)]
pub struct Moves {
    /// How far the head moves, in ticks.
    pub head: i128,
    /// How far the tail moves, in ticks.
    pub tail: i128,
}

// How far a slip goes in so much unused media, in whole frames.
fn slip_in(frame: i128, room: Handles, by: i128) -> i128
    requires frame { pos 1 ≤ℤ frame }
    requires before { IsHandle room.before }
    requires behind { IsHandle room.behind }
    requires by { IsMove by }
    ensures value { result ≡ edges.clamped (Some (edges.whole_frames frame room.before))
        (Some (edges.whole_frames frame room.behind)) by }
    ensures near { IsMove result }
{
    clamped(
        Some(whole_frames(frame, room.before)),
        Some(whole_frames(frame, room.behind)),
        by,
    )
}

/// How far a slip of an item goes: as far as wanted, but no further than its unused media, in whole
/// frames. `by` is how far is wanted; it and the result are in ticks, positive to later media.
/// `frame` is the ticks of a record frame. By [`items_are_held`](crate::items_are_held) the clause
/// `value` is about each item.
pub fn slip_by(frame: i128, item: &Item, by: i128) -> i128
    requires frame { pos 1 ≤ℤ frame }
    requires item { IsCuttable item.now }
    requires by { IsMove by }
    ensures value { (h : Held) → h.item ≡ item.now → result ≡ edges.slip_by frame h by }
    ensures near { IsMove result }
{
    match clip_handles(item) {
        Some(room) => slip_in(frame, room, by),
        None => by,
    }
}

// The whole frames of so many ticks that can go, so that a tick or more is left.
fn spare_of(frame: i128, length: i128) -> i128
    requires frame { pos 1 ≤ℤ frame }
    requires low { (pos 0 -ℤ pos 100000000000000000000000000000000000000) ≤ℤ length }
    ensures value { result ≡ edges.whole_frames frame (length -ℤ pos 1) }
    ensures low { pos 0 ≤ℤ result }
{
    whole_frames(frame, length - 1)
}

// The whole frames of an item that can go, so that a tick or more is left.
fn spare(frame: i128, item: &Item) -> i128
    requires frame { pos 1 ≤ℤ frame }
    requires item { IsCuttable item.now }
    ensures value { result ≡ edges.whole_frames frame (ticks item.now -ℤ pos 1) }
    ensures low { pos 0 ≤ℤ result }
{
    spare_of(frame, sound_ticks(item))
}

// What is left of an item of so many ticks whose head moves.
fn behind_head(length: i128, head: i128) -> i128
    requires low { pos 0 ≤ℤ length }
    requires high { length ≤ℤ pos most_ticks }
    requires head { IsMove head }
    ensures value { result ≡ length -ℤ head }
    ensures low { (pos 0 -ℤ pos 100000000000000000000000000000000000000) ≤ℤ result }
{
    length - head
}

// The whole frames of an item whose head moves that can go, so that a tick or more is left.
fn spare_behind(frame: i128, item: &Item, head: i128) -> i128
    requires frame { pos 1 ≤ℤ frame }
    requires item { IsCuttable item.now }
    requires head { IsMove head }
    ensures value { result ≡ edges.whole_frames frame ((ticks item.now -ℤ head) -ℤ pos 1) }
    ensures low { pos 0 ≤ℤ result }
{
    spare_of(frame, behind_head(sound_ticks(item), head))
}

/// How far a slide goes: as far as wanted, but the item before keeps a tick or more, and its tail
/// goes no further than its unused media. `by` is how far is wanted; it and the result are in
/// ticks, positive to later. `frame` is the ticks of a record frame.
pub fn slide_by(frame: i128, before: &Item, by: i128) -> i128
    requires frame { pos 1 ≤ℤ frame }
    requires before { IsCuttable before.now }
    requires by { IsMove by }
    ensures value { result ≡ edges.slide_by frame before.now by }
    ensures near { IsMove result }
{
    clamped(Some(spare(frame, before)), tail_limit(frame, before), by)
}

// How far a ripple moves the head of an item.
fn ripple_head(frame: i128, item: &Item, by: i128) -> i128
    requires frame { pos 1 ≤ℤ frame }
    requires item { IsCuttable item.now }
    requires by { IsMove by }
    ensures value { result ≡ edges.clamped (edges.whole_limit frame (edges.head_room item.now))
        (Some (edges.whole_frames frame (ticks item.now -ℤ pos 1))) by }
    ensures near { IsMove result }
{
    clamped(head_limit(frame, item), Some(spare(frame, item)), by)
}

// How far a ripple moves the tail of an item whose head moves.
fn ripple_tail(frame: i128, item: &Item, head: i128, by: i128) -> i128
    requires frame { pos 1 ≤ℤ frame }
    requires item { IsCuttable item.now }
    requires head { IsMove head }
    requires by { IsMove by }
    ensures value { result ≡ edges.clamped
        (Some (edges.whole_frames frame ((ticks item.now -ℤ head) -ℤ pos 1)))
        (edges.whole_limit frame (edges.tail_room item.now)) by }
    ensures near { IsMove result }
{
    clamped(
        Some(spare_behind(frame, item, head)),
        tail_limit(frame, item),
        by,
    )
}

/// How far a ripple moves the edges of an item: as far as wanted, but a tick or more is left, and
/// no edge goes further than its unused media. `by` is how far is wanted; it and the result are in
/// ticks. `frame` is the ticks of a record frame.
pub fn ripple_by(frame: i128, item: &Item, by: Moves) -> Moves
    requires frame { pos 1 ≤ℤ frame }
    requires item { IsCuttable item.now }
    requires head { IsMove by.head }
    requires tail { IsMove by.tail }
    ensures value { moves_of result ≡ edges.ripple_by frame item.now (moves_of by) }
    ensures near_head { IsMove result.head }
    ensures near_tail { IsMove result.tail }
{
    let head = ripple_head(frame, item, by.head);
    let tail = ripple_tail(frame, item, head, by.tail);
    Moves { head, tail }
}

// How long an item is that is a gap, and 0 of another one.
fn gap_ticks(item: &Item) -> i128
    requires { IsCuttable item.now }
    ensures value { result ≡ edges.gap_ticks item.now }
    ensures low { pos 0 ≤ℤ result }
{
    match item {
        ItemOf::Gap(_) => sound_ticks(item),
        _ => 0,
    }
}

// How long the gap before an item is, where this stands before it.
fn gap_before(before: Option<&Item>) -> i128
    requires { IfSome (option_copied before) IsCuttable }
    ensures { result ≡ gap_of_before (option_copied before.entry) }
{
    match before {
        Some(item) => gap_ticks(item),
        None => 0,
    }
}

// How long the gap after an item is, where this stands after it; none at the end of the track.
fn gap_behind(behind: Option<&Item>) -> Option<i128>
    requires { IfSome (option_copied behind) IsCuttable }
    ensures { result ≡ option_map edges.gap_ticks (option_copied behind.entry) }
{
    match behind {
        Some(item) => Some(gap_ticks(item)),
        None => None,
    }
}

// How far a trim moves the head of an item, where this stands before it.
fn trim_head(frame: i128, before: Option<&Item>, item: &Item, by: i128) -> i128
    requires frame { pos 1 ≤ℤ frame }
    requires before { IfSome (option_copied before) IsCuttable }
    requires item { IsCuttable item.now }
    requires by { IsMove by }
    ensures value { result ≡ edges.clamped (edges.lesser (Some (edges.whole_frames frame
        (gap_of_before (option_copied before.entry))))
        (edges.whole_limit frame (edges.head_room item.now)))
        (Some (edges.whole_frames frame (ticks item.now -ℤ pos 1))) by }
    ensures near { IsMove result }
{
    let gap = Some(whole_frames(frame, gap_before(before)));
    clamped(
        lesser(gap, head_limit(frame, item)),
        Some(spare(frame, item)),
        by,
    )
}

// How far a trim moves the tail of an item whose head moves, where this stands after it.
fn trim_tail(frame: i128, item: &Item, head: i128, behind: Option<&Item>, by: i128) -> i128
    requires frame { pos 1 ≤ℤ frame }
    requires item { IsCuttable item.now }
    requires head { IsMove head }
    requires behind { IfSome (option_copied behind) IsCuttable }
    requires by { IsMove by }
    ensures value { result ≡ edges.clamped
        (Some (edges.whole_frames frame ((ticks item.now -ℤ head) -ℤ pos 1)))
        (edges.lesser (edges.whole_limit frame
        (option_map edges.gap_ticks (option_copied behind.entry)))
        (edges.whole_limit frame (edges.tail_room item.now))) by }
    ensures near { IsMove result }
{
    let gap = whole_limit(frame, gap_behind(behind));
    clamped(
        Some(spare_behind(frame, item, head)),
        lesser(gap, tail_limit(frame, item)),
        by,
    )
}

/// How far a trim moves the edges of an item, where these stand next to it: as far as wanted, but
/// no edge goes further than the gap there or than its unused media, and a tick or more is left. At
/// the end of the track no gap holds the tail. `by` is how far is wanted; it and the result are in
/// ticks. `frame` is the ticks of a record frame. By [`items_are_held`](crate::items_are_held) the
/// clause `value` is about any item between any others that aren't transitions.
pub fn trim_by(
    frame: i128,
    before: Option<&Item>,
    item: &Item,
    behind: Option<&Item>,
    by: Moves,
) -> Moves
    requires frame { pos 1 ≤ℤ frame }
    requires before { IfSome (option_copied before) IsCuttable }
    requires item { IsCuttable item.now }
    requires behind { IfSome (option_copied behind) IsCuttable }
    requires head { IsMove by.head }
    requires tail { IsMove by.tail }
    ensures value { (h : Held) → last_item h.before ≡ option_copied before.entry
        → h.item ≡ item.now → first_item h.behind ≡ option_copied behind.entry
        → moves_of result ≡ edges.trim_by frame h (moves_of by) }
    ensures near_head { IsMove result.head }
    ensures near_tail { IsMove result.tail }
{
    let head = trim_head(frame, before, item, by.head);
    let tail = trim_tail(frame, item, head, behind, by.tail);
    Moves { head, tail }
}

// How far the cut between two items moves: as far as wanted, but each keeps a tick or more, and no
// edge goes further than its unused media.
fn cut_before(frame: i128, before: &Item, item: &Item, by: i128) -> i128
    requires frame { pos 1 ≤ℤ frame }
    requires before { IsCuttable before.now }
    requires item { IsCuttable item.now }
    requires by { IsMove by }
    ensures value { result ≡ edges.clamped
        (edges.lesser (edges.whole_limit frame (edges.head_room item.now))
        (Some (edges.whole_frames frame (ticks before.now -ℤ pos 1))))
        (edges.lesser (Some (edges.whole_frames frame (ticks item.now -ℤ pos 1)))
        (edges.whole_limit frame (edges.tail_room before.now))) by }
    ensures near { IsMove result }
{
    let earlier = lesser(head_limit(frame, item), Some(spare(frame, before)));
    let later = lesser(Some(spare(frame, item)), tail_limit(frame, before));
    clamped(earlier, later, by)
}

// The same of the cut after an item whose head moves.
fn cut_behind(frame: i128, item: &Item, head: i128, behind: &Item, by: i128) -> i128
    requires frame { pos 1 ≤ℤ frame }
    requires item { IsCuttable item.now }
    requires head { IsMove head }
    requires behind { IsCuttable behind.now }
    requires by { IsMove by }
    ensures value { result ≡ edges.clamped
        (edges.lesser (Some (edges.whole_frames frame ((ticks item.now -ℤ head) -ℤ pos 1)))
        (edges.whole_limit frame (edges.head_room behind.now)))
        (edges.lesser (edges.whole_limit frame (edges.tail_room item.now))
        (Some (edges.whole_frames frame (ticks behind.now -ℤ pos 1)))) by }
    ensures near { IsMove result }
{
    let left = Some(spare_behind(frame, item, head));
    let earlier = lesser(left, head_limit(frame, behind));
    let later = lesser(tail_limit(frame, item), Some(spare(frame, behind)));
    clamped(earlier, later, by)
}

// How far a roll moves the head of an item, where this stands before it; not at all where nothing
// does.
fn roll_head(frame: i128, before: Option<&Item>, item: &Item, by: i128) -> i128
    requires frame { pos 1 ≤ℤ frame }
    requires before { IfSome (option_copied before) IsCuttable }
    requires item { IsCuttable item.now }
    requires by { IsMove by }
    ensures value { (h : Held) → last_item h.before ≡ option_copied before.entry
        → h.item ≡ item.now → result ≡ edges.roll_head frame h by }
    ensures near { IsMove result }
{
    match before {
        Some(other) => {
            if is_zero(by) {
                return 0;
            }
            cut_before(frame, other, item, by)
        }
        None => 0,
    }
}

// How far a roll moves the tail of an item whose head moves, where this stands after it; not at
// all where nothing does.
fn roll_tail(frame: i128, item: &Item, head: i128, behind: Option<&Item>, by: i128) -> i128
    requires frame { pos 1 ≤ℤ frame }
    requires item { IsCuttable item.now }
    requires head { IsMove head }
    requires behind { IfSome (option_copied behind) IsCuttable }
    requires by { IsMove by }
    ensures value { (h : Held) → h.item ≡ item.now
        → first_item h.behind ≡ option_copied behind.entry
        → result ≡ edges.roll_tail frame h head by }
    ensures near { IsMove result }
{
    match behind {
        Some(other) => {
            if is_zero(by) {
                return 0;
            }
            cut_behind(frame, item, head, other, by)
        }
        None => 0,
    }
}

/// How far a roll moves the edges of an item, where these stand next to it: as far as wanted, but
/// each item keeps a tick or more, and no edge goes further than its unused media. An edge with no
/// item next to it isn't moved. `by` is how far is wanted; it and the result are in ticks. `frame`
/// is the ticks of a record frame. By [`items_are_held`](crate::items_are_held) the clause `value`
/// is about any item between any others that aren't transitions.
pub fn roll_by(
    frame: i128,
    before: Option<&Item>,
    item: &Item,
    behind: Option<&Item>,
    by: Moves,
) -> Moves
    requires frame { pos 1 ≤ℤ frame }
    requires before { IfSome (option_copied before) IsCuttable }
    requires item { IsCuttable item.now }
    requires behind { IfSome (option_copied behind) IsCuttable }
    requires head { IsMove by.head }
    requires tail { IsMove by.tail }
    ensures value { (h : Held) → last_item h.before ≡ option_copied before.entry
        → h.item ≡ item.now → first_item h.behind ≡ option_copied behind.entry
        → moves_of result ≡ edges.roll_by frame h (moves_of by) }
    ensures near_head { IsMove result.head }
    ensures near_tail { IsMove result.tail }
{
    let head = roll_head(frame, before, item, by.head);
    let tail = roll_tail(frame, item, head, behind, by.tail);
    Moves { head, tail }
}
