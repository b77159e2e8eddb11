//! The child that holds an instant, found by the pieces.

ghost use Rattle.std.specs.Prelude.{◌≡◌, ◌+◌, ◌-◌, ◌/◌, ◌<◌, ◌≤◌, ◌^◌, IfNone, IfSome, length};
ghost use Rattle.std.specs.Prelude.{pos, slice_index, take};
ghost use Rattle.otio_model.specs.Counts.{count};
ghost use Rattle.otio_model.specs.Lengths.{added, lengths};
ghost use Rattle.otio_model.specs.Pieces.{all_items, AreNumbered, ArePieces, front};
ghost use Rattle.otio_model.specs.Seats.{IsOutside, IsSeat};
ghost use Rattle.otio_model.specs.Seeks.{Holds, IsAround, IsRead, lens, total};
ghost use Rattle.otio_model.specs.Sums.{capped};
ghost use Rattle.otio_model.specs.Trees.{items_of};

use crate::lists::{Children, Piece, item_ticks};
use crate::step_count::Steps;
use std::marker::Brand;
use std::sync::ledger::{Blank, Ledger};

/// A child of a composition, by its index, and where it starts, in ticks.
#[derive(Clone, Copy)]
pub struct Seat {
    /// The child's index.
    pub index: usize,
    /// Its start, in ticks from the start of the composition's children.
    pub start: i128,
}

/// The piece of this number, and what is known of it.
#[tactic(auto, using(crate::proofs::SeekLemmas::read))]
pub(crate) fn read_piece(pieces: &[Piece], number: usize) -> &Piece
    requires there { number < length pieces.now }
    requires pieces { ArePieces pieces.now }
    requires numbered { AreNumbered front pieces.now }
    requires fits { total (lens (all_items pieces.now)) < 2 ^ 127 }
    ensures { IsRead pieces.now number result.now }
{
    &pieces[number]
}

// Looks at where the piece of this number starts.
fn ticks_before<L: Ledger>(pieces: &[Piece], number: usize, steps: &mut Steps<L>) -> u128
    requires there { number < length pieces.now }
    requires pieces { ArePieces pieces.now }
    requires numbered { AreNumbered front pieces.now }
    requires fits { total (lens (all_items pieces.now)) < 2 ^ 127 }
    ensures value { result ≡ total (lens (all_items (take number pieces.now))) }
    ensures cost { steps.new ≡ steps.old + 1 }
{
    steps.tick();
    read_piece(pieces, number).start.ticks
}

// Nearer bounds of the last piece that starts at or before the instant.
fn nearer<L: Ledger>(
    pieces: &[Piece],
    at: u128,
    low: usize,
    high: usize,
    steps: &mut Steps<L>,
) -> (usize, usize)
    requires pieces { ArePieces pieces.now }
    requires numbered { AreNumbered front pieces.now }
    requires fits { total (lens (all_items pieces.now)) < 2 ^ 127 }
    requires around { IsAround pieces.now at low high }
    requires far { low + 1 < high }
    ensures around { IsAround pieces.now at result.0 result.1 }
    ensures nearer { result.1 - result.0 < high - low }
    ensures cost { steps.new ≡ steps.old + 1 }
{
    let middle = low + (high - low) / 2;
    if ticks_before(pieces, middle, steps) <= at {
        return (middle, high);
    }
    (low, middle)
}

/// The last piece that starts at or before the instant, found by halves.
pub(crate) fn last_piece<L: Ledger>(pieces: &[Piece], at: u128, steps: &mut Steps<L>) -> usize
    requires pieces { ArePieces pieces.now }
    requires numbered { AreNumbered front pieces.now }
    requires fits { total (lens (all_items pieces.now)) < 2 ^ 127 }
    requires some { 1 ≤ length pieces.now }
    ensures around { IsAround pieces.now at result (result + 1) }
    ensures cost { steps.new + 1 ≤ steps.old + length pieces.now }
{
    let mut low = 0;
    let mut high = pieces.len();
    'halves: while high - low > 1 {
        let (nearer_low, nearer_high) = nearer(pieces, at, low, high, steps);
        low = nearer_low;
        high = nearer_high;
    }
    low
}

// Looks at one item of a piece.
#[tactic(auto, using(crate::proofs::SeekLemmas::length_read))]
fn member_ticks<L: Ledger>(piece: &Piece, index: usize, steps: &mut Steps<L>) -> u128
    requires { index < length piece.now.items.items }
    ensures value { result ≡ capped (slice_index (lens piece.now.items.items) index) }
    ensures cost { steps.new ≡ steps.old + 1 }
{
    steps.tick();
    match item_ticks(&piece.items[index]) {
        Some(ticks) => ticks,
        None => 0,
    }
}

// The item of a piece that holds the instant, and where it starts.
#[tactic(auto, using(crate::proofs::SeekLemmas::sums))]
fn in_piece<L: Ledger>(piece: &Piece, at: u128, steps: &mut Steps<L>) -> Option<(usize, u128)>
    requires fits { total (lens piece.now.items.items) < 2 ^ 127 }
    ensures found { IfSome result (λ s. Holds (lens piece.now.items.items) at s.0 s.1) }
    ensures none { IfNone result (total (lens piece.now.items.items) ≤ at) }
    ensures cost { steps.new ≤ steps.old + length piece.now.items.items }
{
    let mut start = 0;
    'items: for index in 0..piece.items.len() {
        let ticks = member_ticks(piece, index, steps);
        if at - start < ticks {
            return Some((index, start));
        }
        start += ticks;
    }
    None
}

// The item of all pieces that holds the instant, and where it starts. The last piece that starts
// at or before the instant has it, or none.
#[tactic(auto, using(crate::proofs::SeekLemmas::holds_at, crate::proofs::SeekLemmas::none_at))]
fn in_pieces<L: Ledger>(pieces: &[Piece], at: u128, steps: &mut Steps<L>) -> Option<(usize, u128)>
    requires pieces { ArePieces pieces.now }
    requires numbered { AreNumbered front pieces.now }
    requires fits { total (lens (all_items pieces.now)) < 2 ^ 127 }
    requires few { length (all_items pieces.now) < 2 ^ 32 }
    ensures found { IfSome result (λ s. Holds (lens (all_items pieces.now)) at s.0 s.1) }
    ensures none { IfNone result (total (lens (all_items pieces.now)) ≤ at) }
    ensures cost { steps.new ≤ steps.old + length (all_items pieces.now) / 32 + 66 }
{
    if pieces.len() == 0 {
        return None;
    }
    let number = last_piece(pieces, at, steps);
    steps.tick();
    let piece = read_piece(pieces, number);
    let start = piece.start;
    match in_piece(piece, at - start.ticks, steps) {
        Some((index, inner)) => Some((start.items + index, start.ticks + inner)),
        None => None,
    }
}

/// The seat of an index and a start.
pub(crate) fn starting_at(index: usize, start: u128) -> Seat
    requires { start < 2 ^ 127 }
    ensures index { result.index ≡ index }
    ensures start { result.start ≡ pos start }
{
    Seat {
        index,
        start: start as i128,
    }
}

impl Children {
    // The child that holds the instant, and where it starts.
    fn find<L: Ledger>(&self, at: u128, steps: &mut Steps<L>) -> Option<(usize, u128)>
        requires fits { added (lengths self.now) < 2 ^ 127 }
        requires few { length (items_of self.now) < 2 ^ 32 }
        ensures found { IfSome result (λ s. Holds (lens (items_of self.now)) at s.0 s.1) }
        ensures none { IfNone result (total (lens (items_of self.now)) ≤ at) }
        ensures cost { steps.new ≤ steps.old + length (items_of self.now) / 32 + 66 }
    {
        in_pieces(self.pieces.as_slice(), at, steps)
    }

    /// The child that holds the instant, in ticks, and where it starts. Transitions and items of
    /// length 0 hold none, and a child without a length counts as one of length 0. `None` exactly
    /// where no child holds it. It takes no memory. A step is one piece or one child looked at.
    pub fn seek<L: Ledger>(&self, ticks: i128, steps: &mut Steps<L>) -> Option<Seat>
        requires few { count self.now < 2 ^ 32 }
        ensures found { IfSome result (λ seat. IsSeat self.now ticks seat) }
        ensures none { IfNone result (IsOutside self.now ticks) }
        ensures cost { steps.new ≤ steps.old + length (items_of self.now) / 32 + 66 }
    {
        if ticks < 0 {
            return None;
        }
        match self.find(ticks.unsigned_abs(), steps) {
            Some((index, start)) => Some(starting_at(index, start)),
            None => None,
        }
    }

    // The same with its own count.
    fn seek_from<L: Ledger>(&self, ticks: i128, blank: Blank) -> Option<Seat>
        requires few { count self.now < 2 ^ 32 }
        requires name { blank.name ≡ L.name }
        requires parts { blank.parts ≡ L.parts }
        requires some { 0 < blank.parts }
        ensures found { IfSome result (λ seat. IsSeat self.now ticks seat) }
        ensures none { IfNone result (IsOutside self.now ticks) }
    {
        let mut steps = Steps::<L>::of(blank);
        self.seek(ticks, &mut steps)
    }

    /// The child that holds the instant, in ticks, and where it starts, as [`Children::seek`] gives
    /// it, for a caller that doesn't count steps.
    pub fn holder(&self, ticks: i128) -> Option<Seat>
        requires few { count self.now < 2 ^ 32 }
        ensures found { IfSome result (λ seat. IsSeat self.now ticks seat) }
        ensures none { IfNone result (IsOutside self.now ticks) }
    {
        self.seek_from::<Brand>(ticks, Blank::new(1))
    }
}
