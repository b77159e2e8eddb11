//! The first child that is a clip or has one below it, found by the pieces.

ghost use Rattle.std.specs.Prelude.{◌<◌, ◌^◌, IfNone, IfSome, length};
ghost use Rattle.otio_model.specs.Lights.{HasNoClip, IsFirstWithClip};
ghost use Rattle.otio_model.specs.Pieces.{AllPieces, AreNumbered, IsPiece, all_items, front};
ghost use Rattle.otio_model.specs.Trees.{items_of};

use crate::lists::{Children, Item, Piece, has_clip};
use crate::piece_numbers::numbered_piece;

// The first of items that is a clip or has one below it.
fn clip_among(items: &[Item]) -> Option<usize>
    ensures found { IfSome result (λ i. IsFirstWithClip items.now i) }
    ensures none { IfNone result (HasNoClip items.now) }
{
    'items: for index in 0..items.len() {
        if has_clip(&items[index]) {
            return Some(index);
        }
    }
    None
}

// The same in a piece, which is passed over where it has none.
fn clip_in_piece(piece: &Piece) -> Option<usize>
    requires piece { IsPiece piece.now }
    ensures found { IfSome result (λ i. IsFirstWithClip piece.now.items.items i) }
    ensures none { IfNone result (HasNoClip piece.now.items.items) }
{
    if !piece.kept.clips {
        return None;
    }
    clip_among(&piece.items)
}

// The same in all pieces.
fn clip_in_pieces(pieces: &[Piece]) -> Option<usize>
    requires pieces { AllPieces pieces.now }
    requires numbered { AreNumbered front pieces.now }
    requires few { length (all_items pieces.now) < 2 ^ 64 }
    ensures found { IfSome result (λ i. IsFirstWithClip (all_items pieces.now) i) }
    ensures none { IfNone result (HasNoClip (all_items pieces.now)) }
{
    'pieces: for number in 0..pieces.len() {
        let piece = numbered_piece(pieces, number);
        if let Some(index) = clip_in_piece(piece) {
            return Some(piece.start.items + index);
        }
    }
    None
}

impl Children {
    /// The index of the first child that is a clip, or has one below it; `None` exactly where there
    /// is none. In practice it takes no step for each child, which no clause says.
    pub fn first_with_clip(&self) -> Option<usize>
        ensures found { IfSome result (λ index. IsFirstWithClip (items_of self.now) index) }
        ensures none { IfNone result (HasNoClip (items_of self.now)) }
    {
        if self.len() == 0 {
            return None;
        }
        clip_in_pieces(self.pieces.as_slice())
    }
}
