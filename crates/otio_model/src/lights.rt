//! The last child before another one that may show something at an instant, found by the pieces.

ghost use Rattle.std.specs.Prelude.{◌≡◌, ◌-◌, ◌<◌, ◌≤◌, ◌^◌, pos, ◌≤ℤ◌, int_lt, IfNone, IfSome};
ghost use Rattle.std.specs.Prelude.{length, min};
ghost use Rattle.otio_model.specs.Lengths.{length_of, or_zero};
ghost use Rattle.otio_model.specs.Lights.{HasNoLit, IsLastLit, may_show};
ghost use Rattle.otio_model.specs.Pieces.{AllPieces, AreNumbered, IsPiece, all_items, front};
ghost use Rattle.otio_model.specs.Trees.{items_of};

use crate::lists::{Children, Item, Piece, is_lit, item_ticks};
use crate::piece_numbers::{locate, numbered_piece};

// Whether an item is longer than so many ticks.
fn is_longer(item: &Item, at: u128) -> bool
    requires short { at < 2 ^ 127 }
    ensures { result ≡ int_lt (pos at) (pos (or_zero (length_of item.now))) }
{
    match item_ticks(item) {
        Some(ticks) => at < ticks,
        None => false,
    }
}

// Whether an item may show something so many ticks from its start.
fn is_lit_at(item: &Item, at: u128) -> bool
    requires short { at < 2 ^ 127 }
    ensures { result ≡ may_show item.now (pos at) }
{
    is_lit(item) && is_longer(item, at)
}

// The last of so many first items that may.
fn lit_among(items: &[Item], end: usize, at: u128) -> Option<usize>
    requires there { end ≤ length items.now }
    requires short { at < 2 ^ 127 }
    ensures found { IfSome result (λ i. IsLastLit items.now end (pos at) i) }
    ensures none { IfNone result (HasNoLit items.now end (pos at)) }
{
    'items: for index in (0..end).rev() {
        if is_lit_at(&items[index], at) {
            return Some(index);
        }
    }
    None
}

// The same in a piece, which is passed over where none may.
fn lit_in_piece(piece: &Piece, end: usize, at: u128) -> Option<usize>
    requires piece { IsPiece piece.now }
    requires there { end ≤ length piece.now.items.items }
    requires short { at < 2 ^ 127 }
    ensures found { IfSome result (λ i. IsLastLit piece.now.items.items end (pos at) i) }
    ensures none { IfNone result (HasNoLit piece.now.items.items end (pos at)) }
{
    if !piece.kept.lit {
        return None;
    }
    if piece.kept.lengths.longest <= at {
        return None;
    }
    lit_among(&piece.items, end, at)
}

// How many of a piece's items stand before an item of all pieces.
fn most_before(piece: &Piece, end: usize) -> usize
    ensures { result ≡ min (length piece.now.items.items) (end - piece.now.start.items) }
{
    piece.items.len().min(end.saturating_sub(piece.start.items))
}

// The same in all pieces.
fn lit_in_pieces(pieces: &[Piece], end: usize, at: u128) -> Option<usize>
    requires pieces { AllPieces pieces.now }
    requires numbered { AreNumbered front pieces.now }
    requires there { end ≤ length (all_items pieces.now) }
    requires short { at < 2 ^ 127 }
    ensures found { IfSome result (λ i. IsLastLit (all_items pieces.now) end (pos at) i) }
    ensures none { IfNone result (HasNoLit (all_items pieces.now) end (pos at)) }
{
    if end == 0 {
        return None;
    }
    let (last, _) = locate(pieces, end - 1);
    'pieces: for number in (0..last + 1).rev() {
        let piece = numbered_piece(pieces, number);
        let most = most_before(piece, end);
        if let Some(index) = lit_in_piece(piece, most, at) {
            return Some(piece.start.items + index);
        }
    }
    None
}

impl Children {
    /// The index of the last child before `end` that may show something and is longer than so many
    /// ticks: an enabled clip, or an enabled stack or track with a child that may. `None` exactly
    /// where there is none. In practice it takes no step for each child, which no clause says.
    pub fn last_lit(&self, end: usize, ticks: i128) -> Option<usize>
        requires there { end ≤ length (items_of self.now) }
        requires low { pos 0 ≤ℤ ticks }
        ensures found { IfSome result (λ index. IsLastLit (items_of self.now) end ticks index) }
        ensures none { IfNone result (HasNoLit (items_of self.now) end ticks) }
    {
        lit_in_pieces(self.pieces.as_slice(), end, ticks.unsigned_abs())
    }
}
