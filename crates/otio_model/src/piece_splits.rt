//! Items into pieces, and out of them.

ghost use Rattle.std.specs.Prelude.{◌≡◌, ◌+◌, ◌-◌, ◌*◌, ◌<◌, ◌≤◌, ◌^◌, ◌++◌, [], IfOk, take};
ghost use Rattle.std.specs.Prelude.{drop, length, vec_len};
ghost use Rattle.std.specs.Vec.{vec_capacity};
ghost use Rattle.otio_model.specs.Edits.{replaced};
ghost use Rattle.otio_model.specs.Pieces.{all_items, AllFresh, AreMade, ArePieces, IsCut, IsEnd};
ghost use Rattle.otio_model.specs.Pieces.{IsOpen, IsStart, IsWindow, part};
ghost use Rattle.otio_model.specs.Rooms.{Suits};

use crate::lists::{Item, Piece, kept_items};
use crate::piece_numbers::AT_FRONT;
use crate::piece_summary::NO_ITEMS;
use crate::place_walk::Stretch;
use crate::reserve::Spare;
use crate::vec_moves;
use std::alloc::{AllocError, Global};
use std::mem;

// Moves the items of some pieces into an empty vector; the pieces stay there, without items.
fn pour(pieces: &mut Vec<Piece>, first: usize, end: usize, mid: &mut Vec<Item>)
    requires order { first ≤ end }
    requires within { end ≤ vec_len pieces.old }
    requires empty { mid.old.items ≡ [] }
    requires room { length (all_items (part first end pieces.old.items)) ≤ vec_capacity mid.old }
    ensures items { mid.new.items ≡ all_items (part first end pieces.old.items) }
    ensures front { take first pieces.new.items ≡ take first pieces.old.items }
    ensures back { drop end pieces.new.items ≡ drop end pieces.old.items }
    ensures len { vec_len pieces.new ≡ vec_len pieces.old }
    ensures capacity { vec_capacity pieces.new ≡ vec_capacity pieces.old }
    ensures room { vec_capacity mid.old ≤ vec_capacity mid.new }
{
    'pieces: for number in first..end {
        mid.append(&mut pieces[number].items).unwrap();
    }
}

/// Moves the items of pieces to the end of a list that has room for them. Each piece goes once its
/// items have moved.
pub(crate) fn pour_all(pieces: Vec<Piece>, all: &mut Vec<Item>)
    requires room { vec_len all.old + length (all_items pieces.items) ≤ vec_capacity all.old }
    ensures { all.new.items ≡ all.old.items ++ all_items pieces.items }
{
    let mut left = pieces;
    left.reverse();
    'left: while let Some(mut piece) = left.pop() {
        all.append(&mut piece.items).unwrap();
    }
}

// How many of so many items go into the next piece.
fn piece_size(all: usize) -> usize
    ensures least { 0 < all → 0 < result }
    ensures most { result ≤ 64 }
    ensures there { result ≤ all }
    ensures full { 32 ≤ all → 32 ≤ result }
    ensures rest { 32 ≤ all → result < all → 32 + result ≤ all }
    ensures last { all ≤ 64 → result ≡ all }
{
    if all >= 96 {
        64
    } else if all > 64 {
        32
    } else {
        all
    }
}

/// Cuts items into pieces, from the last one on.
pub(crate) fn cut(mid: &mut Vec<Item>, made: &mut Vec<Piece>, fresh: &mut Vec<Piece>)
    requires empty { made.old.items ≡ [] }
    requires fresh { AllFresh fresh.old.items }
    requires enough { vec_len mid.old ≤ 32 * vec_len fresh.old }
    requires room { vec_len fresh.old ≤ vec_capacity made.old }
    ensures cut { IsCut mid.old.items made.new.items }
    ensures mid { mid.new.items ≡ [] }
    ensures fresh { AllFresh fresh.new.items }
    ensures room { vec_capacity made.old ≤ vec_capacity made.new }
    ensures used { vec_len made.new + vec_len fresh.new ≡ vec_len fresh.old }
{
    'cuts: while mid.len() > 0 {
        let rest = mid.len() - piece_size(mid.len());
        let Some(mut piece) = fresh.pop() else {
            unreachable!()
        };
        vec_moves::move_tail(mid, rest, &mut piece.items);
        piece.mend();
        vec_moves::push_in_room(made, piece);
    }
    made.reverse();
}

// The piece in which a replacement begins: the one that has the item of this number, or the last
// one.
fn start_piece(pieces: &[Piece], at: usize) -> (usize, usize)
    requires there { at ≤ length (all_items pieces.now) }
    requires pieces { ArePieces pieces.now }
    ensures { IsStart pieces.now at result.0 result.1 }
{
    let mut first = 0;
    let mut before = 0;
    'starts: while pieces.len() - first > 1 {
        let long = pieces[first].items.len();
        if at - before < long {
            return (first, before);
        }
        before += long;
        first += 1;
    }
    (first, before)
}

// The end of the first piece, where there is one.
fn first_end(pieces: &[Piece], first: usize, before: usize) -> (usize, usize)
    requires few { length (all_items pieces.now) < 2 ^ 64 }
    requires pieces { ArePieces pieces.now }
    requires within { first ≤ length pieces.now }
    requires counted { length (all_items (take first pieces.now)) ≡ before }
    ensures { IsOpen pieces.now first before result.0 result.1 }
{
    if first < pieces.len() {
        let long = pieces[first].items.len();
        return (first + 1, before + long);
    }
    (first, before)
}

// The piece behind a replacement.
fn end_piece(
    pieces: &[Piece],
    at: usize,
    count: usize,
    first: usize,
    before: usize,
) -> (usize, usize)
    requires there { at + count ≤ length (all_items pieces.now) }
    requires few { length (all_items pieces.now) < 2 ^ 64 }
    requires pieces { ArePieces pieces.now }
    requires start { IsStart pieces.now at first before }
    ensures { IsEnd pieces.now at count first before result.0 result.1 }
{
    let (mut end, mut behind) = first_end(pieces, first, before);
    'ends: while behind < at + count {
        behind += pieces[end].items.len();
        end += 1;
    }
    (end, behind)
}

// The pieces that a replacement touches, from one up to another, and how many items lie before
// them.
fn window(pieces: &[Piece], at: usize, count: usize, put: usize) -> (usize, usize, usize)
    requires there { at + count ≤ length (all_items pieces.now) }
    requires few { length (all_items pieces.now) + put < 2 ^ 64 }
    requires pieces { ArePieces pieces.now }
    ensures { IsWindow pieces.now at count put result.0 result.1 result.2 }
{
    let (first, before) = start_piece(pieces, at);
    let (end, behind) = end_piece(pieces, at, count, first, before);
    if put + (behind - before - count) >= 32 {
        return (first, end, before);
    }
    if end < pieces.len() {
        return (first, end + 1, before);
    }
    if first > 0 {
        let long = pieces[first - 1].items.len();
        return (first - 1, end, before - long);
    }
    (first, end, before)
}

/// Replaces items in pieces by those of a list, which then has the ones that stood there.
pub(crate) fn replace_pieces(
    pieces: &mut Vec<Piece>,
    stretch: Stretch,
    list: &mut Vec<Item>,
    spare: &mut Spare,
)
    requires there { stretch.at + stretch.count ≤ length (all_items pieces.old.items) }
    requires pieces { ArePieces pieces.old.items }
    requires room { Suits stretch.count (length (all_items pieces.old.items)) (vec_len list.old)
        spare.old }
    ensures items { all_items pieces.new.items
        ≡ replaced stretch.at stretch.count list.old.items (all_items pieces.old.items) }
    ensures pieces { ArePieces pieces.new.items }
    ensures taken { list.new.items
        ≡ take stretch.count (drop stretch.at (all_items pieces.old.items)) }
{
    let Stretch { at, count } = stretch;
    let (first, end, before) = window(pieces.as_slice(), at, count, list.len());
    pour(pieces, first, end, &mut spare.mid);
    vec_moves::replace(&mut spare.mid, at - before, count, list, &mut spare.taken);
    cut(&mut spare.mid, &mut spare.made, &mut spare.fresh);
    vec_moves::with_room(pieces, spare.made.len(), &mut spare.outer);
    vec_moves::replace(
        pieces,
        first,
        end - first,
        &mut spare.made,
        &mut spare.outer,
    );
    spare.outer.clear();
    mem::swap(list, &mut spare.taken);
}

// So many empty pieces.
fn fresh_pieces(alloc: Global, wanted: usize) -> Result<Vec<Piece>, AllocError>
    ensures fresh { IfOk result (λ pieces. AllFresh pieces.items) }
    ensures long { IfOk result (λ pieces. vec_len pieces ≡ wanted) }
{
    let mut fresh = Vec::with_capacity(alloc, wanted)?;
    'fresh: while fresh.len() < wanted {
        let items = Vec::with_capacity(alloc, 64)?;
        fresh.push(Piece {
            items,
            kept: NO_ITEMS,
            start: AT_FRONT,
        })?;
    }
    Ok(fresh)
}

// So many items as one piece.
fn one_piece(alloc: Global, items: Vec<Item>) -> Result<Vec<Piece>, AllocError>
    requires some { 1 ≤ vec_len items }
    requires small { vec_len items ≤ 64 }
    ensures { IfOk result (λ pieces. AreMade items.items pieces.items) }
{
    let kept = kept_items(&items);
    let mut pieces = Vec::with_capacity(alloc, 1)?;
    pieces.push(Piece {
        items,
        kept,
        start: AT_FRONT,
    })?;
    Ok(pieces)
}

/// These items in pieces.
pub(crate) fn pieces_of(alloc: Global, items: Vec<Item>) -> Result<Vec<Piece>, AllocError>
    ensures { IfOk result (λ pieces. AreMade items.items pieces.items) }
{
    if items.len() == 0 {
        return Ok(Vec::new(alloc));
    }
    if items.len() <= 64 {
        return one_piece(alloc, items);
    }
    let mut list = items;
    let mut fresh = fresh_pieces(alloc, list.len() / 32 + 1)?;
    let mut made = Vec::with_capacity(alloc, fresh.len())?;
    cut(&mut list, &mut made, &mut fresh);
    Ok(made)
}
