//! The parts of a flat track.

ghost use Rattle.std.specs.Prelude.{◌≡◌, ◌<◌, ◌^◌, ◌≤ℤ◌, IfOk, List, length, map, pos};
ghost use Rattle.otio_model.specs.Counts.{count};
ghost use Rattle.otio_model.specs.Trees.{items_of};
ghost use Rattle.coord.specs.Soundness.{AreFaultless};
ghost use Rattle.flat.specs.Pieces.{AreLongest, giver};
ghost use Rattle.flat.specs.Pieces as flat_pieces;
ghost use Rattle.pieces.specs.Short.{IsCuttable};
ghost use Rattle.flat_stack.specs.Runs.{longer, piece_of};

use crate::same_clips::{Part, longest};
use crate::stretches::{RootRange, is_layer, stretches_in};
use otio_model::{Children, Item};
use pieces::sound_ticks;
use sequences::Text;
use std::alloc::{AllocError, Global};

// The longer of a length and an item's, where the item is an enabled track of a kind.
fn with_layer(item: &Item, kind: &Text, end: i128) -> i128
    requires cuttable { IsCuttable item.now }
    requires low { pos 0 ≤ℤ end }
    requires high { end ≤ℤ pos 705600000000000000000000 }
    ensures value { result ≡ longer kind.now item.now end }
    ensures low { pos 0 ≤ℤ result }
    ensures high { result ≤ℤ pos 705600000000000000000000 }
{
    if !is_layer(item, kind) {
        return end;
    }
    let ticks = sound_ticks(item);
    if end < ticks {
        return ticks;
    }
    end
}

// How long the longest enabled track of a kind is, in ticks; 0 where there is none.
fn longest_track(children: &Children, kind: &Text) -> i128
    requires few { count children.now < 2 ^ 32 }
    requires faultless { AreFaultless children.now }
    ensures value { result ≡ flat_pieces.longest kind.now (items_of children.now) }
    ensures low { pos 0 ≤ℤ result }
    ensures high { result ≤ℤ pos 705600000000000000000000 }
{
    let mut end: i128 = 0;
    let mut left = children.len();
    'children: while left > 0 {
        left -= 1;
        end = with_layer(children.child(left), kind, end);
    }
    end
}

/// The longest stretches of one clip or of none that the enabled tracks of a kind give as a flat
/// track, one after another; there the last track is the topmost. An error comes where memory runs
/// out.
pub fn flat_parts(alloc: Global, children: &Children, kind: &Text) -> Result<Vec<Part>, AllocError>
    requires few { count children.now < 2 ^ 32 }
    requires faultless { AreFaultless children.now }
    ensures parts { IfOk result (λ parts. AreLongest (giver 0 kind.now (items_of children.now))
        (flat_pieces.longest kind.now (items_of children.now)) (pos 0)
        (map (piece_of (items_of children.now)) parts.items)) }
{
    let end = longest_track(children, kind);
    if end <= 0 {
        return Ok(Vec::new(alloc));
    }
    let all = RootRange {
        from: 0,
        count: children.len(),
    };
    let runs = stretches_in(alloc, children, kind, all, end)?;
    let parts = longest(alloc, runs.as_slice())?;
    Ok(parts)
}
