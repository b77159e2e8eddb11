//! Children that a zone of instants doesn't reach, found by the pieces.

ghost use Rattle.std.specs.Prelude.{◌≡◌, ◌+◌, ◌<◌, ◌≤◌, ◌^◌, pos, ◌-ℤ◌, length, take, drop, true};
ghost use Rattle.otio_model.specs.Counts.{count};
ghost use Rattle.otio_model.specs.Passes.{IsPassed};
ghost use Rattle.otio_model.specs.Pieces.{AreNumbered, ArePieces, IsPiece, all_items, front};
ghost use Rattle.otio_model.specs.Seeks.{lens, total};
ghost use Rattle.otio_model.specs.Zones.{IsQuiet, NoneReached};

use crate::lists::{Children, Piece};
use crate::piece_numbers::locate;
use crate::seeks::read_piece;

/// Children one after another, from an index on.
#[derive(Clone, Copy)]
pub struct Quiet {
    /// How many there are.
    pub count: usize,
    /// How long they are together, in ticks. One without a length counts as one of length 0.
    pub ticks: i128,
}

// No children.
const NONE: Quiet = Quiet { count: 0, ticks: 0 };

// So many children, so long together.
fn so_many(count: usize, ticks: u128) -> Quiet
    requires { ticks < 2 ^ 127 }
    ensures count { result.count ≡ count }
    ensures ticks { result.ticks ≡ pos ticks }
{
    Quiet {
        count,
        ticks: ticks as i128,
    }
}

// Whether a piece and its overlaps end before a zone, or begin after it.
fn is_quiet(piece: &Piece, from: u128, to: u128) -> bool
    requires piece { IsPiece piece.now }
    requires fits { piece.now.start.ticks + total (lens piece.now.items.items) < 2 ^ 127 }
    requires from { from < 2 ^ 127 }
    requires to { to < 2 ^ 127 }
    ensures { result ≡ true → NoneReached piece.now.items.items
        (pos from -ℤ pos piece.now.start.ticks) (pos to -ℤ pos piece.now.start.ticks) }
{
    let end = piece.start.ticks + piece.kept.lengths.ticks;
    if end.saturating_add(piece.kept.after) < from {
        return true;
    }
    if to.saturating_add(piece.kept.before) < piece.start.ticks {
        return true;
    }
    false
}

// The pieces from one on that a zone doesn't reach, up to the first that starts further after the
// zone than `reach`: how many items they have, and how long they are together.
fn quiet_pieces(pieces: &[Piece], first: usize, from: u128, to: u128, reach: u128) -> (usize, u128)
    requires pieces { ArePieces pieces.now }
    requires numbered { AreNumbered front pieces.now }
    requires fits { total (lens (all_items pieces.now)) < 2 ^ 127 }
    requires few { length (all_items pieces.now) < 2 ^ 32 }
    requires from { from < 2 ^ 127 }
    requires to { to < 2 ^ 127 }
    ensures { IsPassed (all_items pieces.now) (length (all_items (take first pieces.now)))
        from to result.0 result.1 }
{
    let mut count = 0;
    let mut ticks = 0;
    'pieces: for number in first..pieces.len() {
        let piece = read_piece(pieces, number);
        if to.saturating_add(reach) < piece.start.ticks {
            return (count, ticks);
        }
        if !is_quiet(piece, from, to) {
            return (count, ticks);
        }
        count += piece.items.len();
        ticks += piece.kept.lengths.ticks;
    }
    (count, ticks)
}

#[tactic(auto, using(crate::proofs::PassLemmas::quiet_none))]
impl Children {
    /// Some of the children from an index on, one after another, none of which is reached by the
    /// zone of instants from `from` up to `to`, in ticks from the start of the list: the zone has
    /// no instant in common with the child, the ends of both included, and crosses no overlap. How
    /// many they are isn't said: in practice whole pieces, up to one that starts further after the
    /// zone than any overlap reaches, and it takes no step for each child.
    pub fn quiet(&self, index: usize, from: i128, to: i128) -> Quiet
        requires few { count self.now < 2 ^ 32 }
        ensures { IsQuiet self.now index from to result }
    {
        if index >= self.len {
            return NONE;
        }
        if from < 0 {
            return NONE;
        }
        if to < 0 {
            return NONE;
        }
        let pieces = self.pieces.as_slice();
        let (number, offset) = locate(pieces, index);
        if offset != 0 {
            return NONE;
        }
        let reach = self.overlap_reach();
        let (count, ticks) = quiet_pieces(
            pieces,
            number,
            from.unsigned_abs(),
            to.unsigned_abs(),
            reach,
        );
        so_many(count, ticks)
    }
}
