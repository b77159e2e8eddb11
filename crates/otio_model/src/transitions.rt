//! The next transition of a list, and the first whose overlap holds an instant, found by the
//! pieces: the search begins at the first piece that may have it.

ghost use Rattle.std.specs.Prelude.{◌≡◌, ◌+◌, ◌<◌, ◌≤◌, ◌^◌, pos, ◌-ℤ◌, ◌≤ℤ◌, IfNone, IfSome};
ghost use Rattle.std.specs.Prelude.{length, slice_index, take};
ghost use Rattle.limits.specs.Limits.{most_ticks};
ghost use Rattle.otio_model.specs.Counts.{count};
ghost use Rattle.otio_model.specs.Overlaps.{offset_of, overlaps};
ghost use Rattle.otio_model.specs.Kept.{reach_in};
ghost use Rattle.otio_model.specs.Pieces.{AreNumbered, ArePieces, IsPiece, all_items, front};
ghost use Rattle.otio_model.specs.Seats.{HasNoMore, HasNoOverlap, IsFirstOverlap, IsNextTransition};
ghost use Rattle.otio_model.specs.Seeks.{HasNone, IsNext, IsOver, NoneOver, lens, total};

use crate::compositions::ItemOf;
use crate::lists::{Children, Item, Piece, item_ticks, transition_count};
use crate::piece_numbers::locate;
use crate::seeks::{Seat, last_piece, read_piece, starting_at};
use crate::step_count::Steps;
use std::marker::Brand;
use std::sync::ledger::{Blank, Ledger};
use tick_time::Time;

// The length of an item, 0 where it has none.
fn ticks_at(items: &[Item], index: usize) -> u128
    requires there { index < length items.now }
    requires fits { total (lens items.now) < 2 ^ 127 }
    ensures { result ≡ slice_index (lens items.now) index }
{
    match item_ticks(&items[index]) {
        Some(ticks) => ticks,
        None => 0,
    }
}

// How long so many items from the front are together.
fn ticks_of(items: &[Item], count: usize) -> u128
    requires there { count ≤ length items.now }
    requires fits { total (lens items.now) < 2 ^ 127 }
    ensures { result ≡ total (take count (lens items.now)) }
{
    let mut sum = 0;
    'items: for index in 0..count {
        sum += ticks_at(items, index);
    }
    sum
}

// The first transition from an index on, and where it starts.
fn next_in(items: &[Item], from: usize) -> Option<(usize, u128)>
    requires there { from ≤ length items.now }
    requires fits { total (lens items.now) < 2 ^ 127 }
    ensures found { IfSome result (λ s. IsNext items.now from s.0 s.1) }
    ensures none { IfNone result (HasNone items.now from) }
{
    'items: for index in from..items.len() {
        if transition_count(&items[index]) == 1 {
            return Some((index, ticks_of(items, index)));
        }
    }
    None
}

// The same in a piece, which is passed over where it has no transition.
fn next_in_piece(piece: &Piece, from: usize) -> Option<(usize, u128)>
    requires piece { IsPiece piece.now }
    requires fits { total (lens piece.now.items.items) < 2 ^ 127 }
    ensures found { IfSome result (λ s. IsNext piece.now.items.items from s.0 s.1) }
    ensures none { IfNone result (HasNone piece.now.items.items from) }
{
    if piece.kept.transitions == 0 {
        return None;
    }
    if from >= piece.items.len() {
        return None;
    }
    next_in(&piece.items, from)
}

// The same in all pieces, of so many items.
#[tactic(auto, using(crate::proofs::NextLemmas::next_at, crate::proofs::NextLemmas::none_next))]
fn next_in_pieces(pieces: &[Piece], len: usize, from: usize) -> Option<(usize, u128)>
    requires counted { len ≡ length (all_items pieces.now) }
    requires pieces { ArePieces pieces.now }
    requires numbered { AreNumbered front pieces.now }
    requires fits { total (lens (all_items pieces.now)) < 2 ^ 127 }
    requires few { length (all_items pieces.now) < 2 ^ 32 }
    ensures found { IfSome result (λ s. IsNext (all_items pieces.now) from s.0 s.1) }
    ensures none { IfNone result (HasNone (all_items pieces.now) from) }
{
    if from >= len {
        return None;
    }
    let (first, _) = locate(pieces, from);
    'pieces: for number in first..pieces.len() {
        let piece = read_piece(pieces, number);
        let start = piece.start;
        if let Some((index, inner)) = next_in_piece(piece, from.saturating_sub(start.items)) {
            return Some((start.items + index, start.ticks + inner));
        }
    }
    None
}

/// A transition's offset in ticks, 0 where none is given.
pub fn offset_ticks(offset: Option<Time>) -> i128
    ensures value { result ≡ offset_of offset }
    ensures low { (pos 0 -ℤ pos most_ticks) ≤ℤ result }
    ensures high { result ≤ℤ pos most_ticks }
{
    match offset {
        Some(time) => time.ticks,
        None => 0,
    }
}

// Whether an item is a transition whose overlap holds an instant that is counted from its cut.
fn is_over(item: &Item, at: i128) -> bool
    ensures { result ≡ overlaps item.now at }
{
    match item {
        ItemOf::Transition(transition) => {
            -offset_ticks(transition.in_offset) <= at && at < offset_ticks(transition.out_offset)
        }
        _ => false,
    }
}

// How far an instant lies behind a start.
fn ticks_from(start: u128, at: u128) -> i128
    requires start { start < 2 ^ 127 }
    requires at { at < 2 ^ 127 }
    ensures { result ≡ pos at -ℤ pos start }
{
    at as i128 - start as i128
}

// The first of items whose overlap holds an instant, and where it starts, where the items start at
// `first`.
fn over_in(items: &[Item], first: u128, at: u128) -> Option<(usize, u128)>
    requires fits { first + total (lens items.now) < 2 ^ 127 }
    requires short { at < 2 ^ 127 }
    ensures found { IfSome result (λ s. IsOver items.now (pos at -ℤ pos first) s.0 s.1) }
    ensures none { IfNone result (NoneOver items.now (pos at -ℤ pos first)) }
{
    let mut start = 0;
    'items: for index in 0..items.len() {
        if is_over(&items[index], ticks_from(first + start, at)) {
            return Some((index, start));
        }
        start += ticks_at(items, index);
    }
    None
}

// The same in a piece, which is passed over where its overlaps don't reach the instant.
fn over_in_piece(piece: &Piece, first: u128, at: u128) -> Option<(usize, u128)>
    requires piece { IsPiece piece.now }
    requires fits { first + total (lens piece.now.items.items) < 2 ^ 127 }
    requires short { at < 2 ^ 127 }
    ensures found { IfSome result
        (λ s. IsOver piece.now.items.items (pos at -ℤ pos first) s.0 s.1) }
    ensures none { IfNone result (NoneOver piece.now.items.items (pos at -ℤ pos first)) }
{
    if piece.kept.transitions == 0 {
        return None;
    }
    if at.saturating_add(piece.kept.before) < first {
        return None;
    }
    let end = first + piece.kept.lengths.ticks;
    if end.saturating_add(piece.kept.after) <= at {
        return None;
    }
    over_in(&piece.items, first, at)
}

// A piece before which all overlaps end too early, where none reaches further than `reach`.
fn first_within<L: Ledger>(pieces: &[Piece], at: u128, reach: u128, blank: Blank) -> usize
    requires some { 1 ≤ length pieces.now }
    requires pieces { ArePieces pieces.now }
    requires numbered { AreNumbered front pieces.now }
    requires fits { total (lens (all_items pieces.now)) < 2 ^ 127 }
    requires reach { reach_in (all_items pieces.now) ≤ reach }
    requires name { blank.name ≡ L.name }
    requires parts { blank.parts ≡ L.parts }
    requires part { 0 < blank.parts }
    ensures { NoneOver (all_items (take result pieces.now)) (pos at) }
{
    if at < reach {
        return 0;
    }
    let mut steps = Steps::<L>::of(blank);
    last_piece(pieces, at - reach, &mut steps)
}

// The same in all pieces, up to the first that starts too late.
#[tactic(auto, using(crate::proofs::OverLemmas::over_at, crate::proofs::OverLemmas::over_next))]
fn over_in_pieces(pieces: &[Piece], at: u128, reach: u128) -> Option<(usize, u128)>
    requires pieces { ArePieces pieces.now }
    requires numbered { AreNumbered front pieces.now }
    requires reach { reach_in (all_items pieces.now) ≤ reach }
    requires fits { total (lens (all_items pieces.now)) < 2 ^ 127 }
    requires few { length (all_items pieces.now) < 2 ^ 32 }
    requires short { at < 2 ^ 127 }
    ensures found { IfSome result (λ s. IsOver (all_items pieces.now) (pos at) s.0 s.1) }
    ensures none { IfNone result (NoneOver (all_items pieces.now) (pos at)) }
{
    if pieces.len() == 0 {
        return None;
    }
    let first = first_within::<Brand>(pieces, at, reach, Blank::new(1));
    'pieces: for number in first..pieces.len() {
        let piece = read_piece(pieces, number);
        let start = piece.start;
        if at.saturating_add(reach) < start.ticks {
            return None;
        }
        if let Some((index, inner)) = over_in_piece(piece, start.ticks, at) {
            return Some((start.items + index, start.ticks + inner));
        }
    }
    None
}

impl Children {
    /// The first child from `index` on that is a transition, and its cut: where it starts, in
    /// ticks. A child without a length counts as one of length 0. `None` exactly where there is
    /// none. It takes no memory.
    pub fn next_transition(&self, index: usize) -> Option<Seat>
        requires few { count self.now < 2 ^ 32 }
        ensures found { IfSome result (λ seat. IsNextTransition self.now index seat) }
        ensures none { IfNone result (HasNoMore self.now index) }
    {
        if self.transitions() == 0 {
            return None;
        }
        match next_in_pieces(self.pieces.as_slice(), self.len, index) {
            Some((number, start)) => Some(starting_at(number, start)),
            None => None,
        }
    }

    /// The first child that is a transition whose overlap holds the instant, in ticks, and its cut:
    /// where it starts. An overlap runs from the in_offset before the cut up to, not including, the
    /// out_offset behind it. A child without a length counts as one of length 0. `None` exactly
    /// where no overlap holds the instant. It takes no memory. In practice it looks only at pieces
    /// that stand no further from the instant than the longest overlap reaches, which no clause
    /// says.
    pub fn first_overlap(&self, ticks: i128) -> Option<Seat>
        requires few { count self.now < 2 ^ 32 }
        requires low { pos 0 ≤ℤ ticks }
        ensures found { IfSome result (λ seat. IsFirstOverlap self.now ticks seat) }
        ensures none { IfNone result (HasNoOverlap self.now ticks) }
    {
        if self.transitions() == 0 {
            return None;
        }
        let at = ticks.unsigned_abs();
        match over_in_pieces(self.pieces.as_slice(), at, self.overlap_reach()) {
            Some((number, start)) => Some(starting_at(number, start)),
            None => None,
        }
    }
}
