//! Overlaps of transitions, and how far an item's event reaches between them.

ghost use Rattle.std.specs.Prelude.{◌≡◌, ◌*◌, ◌+ℤ◌, ◌-ℤ◌, int_lt, IfSome, option_map};
ghost use Rattle.limits.specs.Limits.{most_ticks};
ghost use Rattle.coord.specs.Sights as sights;
ghost use Rattle.edl_frames.specs.Seats as seats;
ghost use Rattle.edl_conform.specs.Stated.{stated_lap, stated_seat};
ghost use Rattle.edl_conform.specs.Ranges.{IsNear};
ghost use Rattle.edl_conform.specs.Seated.{IsOpen, IsOpenPast, IsSeated};
ghost use Rattle.edl_conform.specs.Shots.{IsOverlap, stated_overlap};

use crate::child_context::{ChildContext, Lap};
use otio_model::{Item, ItemOf, offset_ticks};
use sequences::Text;

/// The overlap of a transition: how long before its cut it begins, and how long behind it ends.
#[derive(Clone, Copy)]
pub(crate) struct Overlap<'a> {
    pub(crate) kind: &'a Text,
    pub(crate) before: i128,
    pub(crate) after: i128,
}

/// The overlap of an item, where it is a transition.
pub(crate) fn overlap_of(item: &Item) -> Option<Overlap<'_>>
    ensures overlap { option_map stated_overlap result ≡ sights.overlap_of item.now }
    ensures range { IfSome result IsOverlap }
{
    match item {
        ItemOf::Transition(transition) => Some(Overlap {
            kind: &transition.transition_type,
            before: offset_ticks(transition.in_offset),
            after: offset_ticks(transition.out_offset),
        }),
        _ => None,
    }
}

/// Where the overlap of a cut begins.
pub(crate) fn begin_at(at: i128, overlap: Overlap<'_>) -> i128
    requires at { IsNear most_ticks at }
    requires overlap { IsOverlap overlap }
    ensures value { result ≡ at -ℤ overlap.entry.before }
    ensures range { IsNear (2 * most_ticks) result }
{
    at - overlap.before
}

/// Where the overlap of a cut ends.
pub(crate) fn end_at(at: i128, overlap: Overlap<'_>) -> i128
    requires at { IsNear most_ticks at }
    requires overlap { IsOverlap overlap }
    ensures value { result ≡ at +ℤ overlap.entry.after }
    ensures range { IsNear (2 * most_ticks) result }
{
    at + overlap.after
}

/// How long an overlap is; an empty one isn't above 0.
pub(crate) fn ticks_of(overlap: Overlap<'_>) -> i128
    requires { IsOverlap overlap }
    ensures value { result ≡ overlap.entry.before +ℤ overlap.entry.after }
    ensures range { IsNear (2 * most_ticks) result }
{
    overlap.before + overlap.after
}

/// Whether one number is less than another.
pub(crate) fn is_less(a: i128, b: i128) -> bool
    ensures { result ≡ int_lt a b }
{
    a < b
}

/// The overlap at its cut, where it isn't empty.
pub(crate) fn lap_at(at: i128, overlap: Overlap<'_>) -> Option<Lap<'_>>
    requires at { IsNear most_ticks at }
    requires overlap { IsOverlap overlap }
    ensures lap { option_map stated_lap result ≡ seats.lap_at at (stated_overlap overlap.entry) }
    ensures range { IfSome result IsOpen }
    ensures long { IfSome result
        (λ lap. (lap.end -ℤ lap.begin) ≡ (overlap.entry.before +ℤ overlap.entry.after)) }
{
    if is_less(0, ticks_of(overlap)) {
        Some(Lap {
            kind: overlap.kind,
            begin: begin_at(at, overlap),
            end: end_at(at, overlap),
        })
    } else {
        None
    }
}

/// The overlap behind an item.
pub(crate) fn lap_behind<'a>(seat: &ChildContext<'a>) -> Option<Lap<'a>>
    requires { IsSeated seat.now }
    ensures lap { option_map stated_lap result ≡ seats.lap_behind (stated_seat seat.now) }
    ensures range { IfSome result IsOpen }
{
    match seat.next {
        Some(item) => match overlap_of(item) {
            Some(overlap) => lap_at(seat.end, overlap),
            None => None,
        },
        None => None,
    }
}

/// Where an overlap ends, and another instant where there is none.
pub(crate) fn end_or(lap: Option<Lap<'_>>, other: i128) -> i128
    ensures { result ≡ seats.end_or (option_map stated_lap lap.entry) other }
{
    match lap {
        Some(lap) => lap.end,
        None => other,
    }
}

/// Where an overlap begins, and another instant where there is none.
pub(crate) fn begin_or(lap: Option<Lap<'_>>, other: i128) -> i128
    ensures value { result ≡ seats.begin_or (option_map stated_lap lap.entry) other }
    ensures range { IfSome lap.entry IsOpen → IsNear (2 * most_ticks) other
        → IsNear (2 * most_ticks) result }
{
    match lap {
        Some(lap) => lap.begin,
        None => other,
    }
}

/// Whether there is an overlap.
pub(crate) fn is_there(lap: Option<Lap<'_>>) -> bool
    ensures { result ≡ seats.is_there (option_map stated_lap lap.entry) }
{
    match lap {
        Some(_) => true,
        None => false,
    }
}

/// Where the event of a child begins: with the child, or with the overlap before it.
pub(crate) fn begin_of(seat: &ChildContext<'_>) -> i128
    requires seated { IsSeated seat.now }
    requires past { IsOpenPast seat.now.past }
    ensures value { result ≡ seats.begin_of (stated_seat seat.now) }
    ensures range { IsNear (2 * most_ticks) result }
{
    begin_or(seat.past.lap, seat.start)
}

/// Where the event of a child ends: with the child, or where this overlap behind it begins.
pub(crate) fn end_of(seat: &ChildContext<'_>, behind: Option<Lap<'_>>) -> i128
    requires seated { IsSeated seat.now }
    requires behind { option_map stated_lap behind ≡ seats.lap_behind (stated_seat seat.now) }
    requires open { IfSome behind IsOpen }
    ensures value { result ≡ seats.end_of (stated_seat seat.now) }
    ensures range { IsNear (2 * most_ticks) result }
{
    begin_or(behind, seat.end)
}
