//! The greatest length beside one child, found by the pieces.

ghost use Rattle.std.specs.Prelude.{◌≡◌, ◌+◌, ◌<◌, ◌^◌, drop, length, max, take};
ghost use Rattle.otio_model.specs.Counts.{count};
ghost use Rattle.otio_model.specs.Kept.{kept_of};
ghost use Rattle.otio_model.specs.Lengths.{lengths};
ghost use Rattle.otio_model.specs.Pieces.{IsSpot, AllPieces, all_items};
ghost use Rattle.otio_model.specs.Sums.{greatest};
ghost use Rattle.otio_model.specs.Trees.{items_of};

use crate::lists::{Children, Piece, kept_items, kept_pieces};
use crate::piece_numbers::locate;
use crate::piece_summary::{Kept, join};

// What is kept of the items before the one of this number, which stands in the piece `number` at
// `offset`.
fn kept_before(pieces: &[Piece], index: usize, number: usize, offset: usize) -> Kept
    requires pieces { AllPieces pieces.now }
    requires spot { IsSpot pieces.now index number offset }
    ensures { result ≡ kept_of (take index (all_items pieces.now)) }
{
    let own = kept_items(&pieces[number].items[..offset]);
    join(kept_pieces(&pieces[..number]), own)
}

// What is kept of the items after it.
fn kept_after(pieces: &[Piece], index: usize, number: usize, offset: usize) -> Kept
    requires pieces { AllPieces pieces.now }
    requires spot { IsSpot pieces.now index number offset }
    ensures { result ≡ kept_of (drop (index + 1) (all_items pieces.now)) }
{
    let own = kept_items(&pieces[number].items[offset + 1..]);
    join(own, kept_pieces(&pieces[number + 1..]))
}

#[tactic(auto, using(crate::proofs::Views::shown))]
impl Children {
    /// The greatest length of the children beside the one at `index`, one that isn't known as 0, in
    /// ticks. In practice it takes no step for each child, which no clause says.
    pub fn longest_beside(&self, index: usize) -> u128
        requires few { count self.now < 2 ^ 32 }
        requires there { index < length (items_of self.now) }
        ensures { result ≡ max (greatest (take index (lengths self.now)))
            (greatest (drop (index + 1) (lengths self.now))) }
    {
        let pieces = self.pieces.as_slice();
        let (number, offset) = locate(pieces, index);
        let before = kept_before(pieces, index, number, offset);
        let after = kept_after(pieces, index, number, offset);
        before.lengths.longest.max(after.lengths.longest)
    }
}
