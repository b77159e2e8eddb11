//! How many items a joined timeline has, before it is made.

ghost use Rattle.std.specs.Prelude.{◌≡◌, ◌+◌, ◌<◌, ◌^◌, ◌≤◌, false, IfNone, IfSome, IsTrue, length};
ghost use Rattle.std.specs.Prelude.{nat_lt, slice_get, Some};
ghost use Rattle.otio_model.specs.Counts.{count, counts_by};
ghost use Rattle.flat_stack.specs.declared.inputs.Part.{Part as AnyPart};
ghost use Rattle.flat_stack.specs.Inputs.{AreParts, IsPreparedInput, child_counts, given, pad_behind};
ghost use Rattle.flat_stack.specs.Inputs.{piece, slot_of, slots_of, track_count, track_counts};
ghost use Rattle.flat_stack.specs.Givers.{AreGivers};

use crate::givers::{Givers, next_giver};
use crate::input_tracks::{part_at, seat_at};
use crate::inputs::{Part, Seat};
use crate::planned_tracks::{own_track, pad_ticks};

// How many items an input gives to a joined track, at all levels.
fn own_count<'a>(part: &Part<'a>, seat: Seat<'a>) -> usize
    requires { IsPreparedInput part.now }
    ensures value { result ≡ counts_by count (given (slot_of seat.entry) part.now) }
    ensures high { result < 2 ^ 32 }
{
    match own_track(part, seat) {
        Some(own) => own.children.items_below(),
        None => 0,
    }
}

// 1 where a gap stands after what an input gives, else 0.
fn pad_count<'a>(part: &Part<'a>, seat: Seat<'a>) -> usize
    requires { IsPreparedInput part.now }
    ensures value { result ≡ child_counts (pad_behind (slot_of seat.entry) part.now) }
    ensures high { result ≤ 1 }
{
    if pad_ticks(part, seat) > 0 {
        return 1;
    }
    0
}

// How many items the input of an index gives to a joined track, with the gap after them; no gap
// stands after the last.
fn part_count<'a>(parts: &[Part<'a>], index: usize, seat: Seat<'a>) -> usize
    requires parts { AreParts parts.now }
    requires there { index < length parts.now }
    ensures value { (part : AnyPart) → slice_get parts.now index ≡ Some part →
        result ≡ child_counts (piece (slot_of seat.entry) part
        (nat_lt (index + 1) (length parts.now))) }
    ensures high { result ≤ 2 ^ 32 }
{
    let part = part_at(parts, index);
    let own = own_count(part, seat);
    if index + 1 < parts.len() {
        return own + pad_count(part, seat);
    }
    own
}

// How many more items may stand once a joined track stands, where so many may before; `None`
// where too few may.
fn room_behind<'b, 'a>(givers: &Givers<'b, 'a>, seat: Seat<'a>, room: usize) -> Option<usize>
    requires { AreGivers givers.now }
    ensures some { IfSome result
        (λ left. (left + track_count givers.now.parts.now (slot_of seat.entry)) ≡ room) }
    ensures none { IfNone result
        (room < track_count givers.now.parts.now (slot_of seat.entry)) }
{
    if room == 0 {
        return None;
    }
    let parts = givers.parts;
    let mut left = room - 1;
    let mut index = next_giver(givers, seat, 0);
    'parts: while index < parts.len() {
        let count = part_count(parts, index, seat);
        if left < count {
            return None;
        }
        left -= count;
        index = next_giver(givers, seat, index + 1);
    }
    Some(left)
}

/// Whether all joined tracks have so many items at most. It stops where there are more.
pub(crate) fn are_few<'b, 'a>(givers: &Givers<'b, 'a>, seats: &[Seat<'a>], most: usize) -> bool
    requires { AreGivers givers.now }
    ensures few { IsTrue result →
        track_counts givers.now.parts.now (slots_of seats.now) ≤ most }
    ensures many { result ≡ false →
        most < track_counts givers.now.parts.now (slots_of seats.now) }
{
    let mut room = most;
    'seats: for index in 0..seats.len() {
        match room_behind(givers, seat_at(seats, index), room) {
            Some(left) => room = left,
            None => return false,
        }
    }
    true
}
