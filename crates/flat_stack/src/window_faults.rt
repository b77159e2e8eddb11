//! What is wrong with a timeline that is cut to a window.

ghost use Rattle.std.specs.Prelude.{◌≡◌, ◌&&◌, ◌<◌, ◌^◌, ◌-ℤ◌, ◌≤ℤ◌, IfNone, IfSome, List, Some};
ghost use Rattle.std.specs.Prelude.{length, pos, slice_get};
ghost use Rattle.otio_model.specs.declared.compositions.ItemOf.{ItemOf as AnyItemOf};
ghost use Rattle.otio_model.specs.declared.compositions.Listed.{Listed};
ghost use Rattle.otio_model.specs.Counts.{count, count_of};
ghost use Rattle.otio_model.specs.Trees.{items_of};
ghost use Rattle.coord.specs.Soundness.{AreFaultless, IsFaultlessItem};
ghost use Rattle.flat.specs.Blocked.{IsFirst, IsFree};
ghost use Rattle.flat.specs.Pieces as flat_pieces;
ghost use Rattle.flat.specs.Roots as roots;
ghost use Rattle.flat.specs.Windowed.{WindowBlocks};
ghost use Rattle.pieces.specs.Short.{AreCuttable, IsCuttable};
ghost use Rattle.flat_stack.specs.Spots.{IsNear, Under, inner_place, spot_place};
ghost use Rattle.flat_stack.specs.Uncut.{AreCutTo, IsUncut};

use crate::cutting::cuts_at;
use crate::fault_places::{Spot, nested};
use crate::root_children::is_plain;
use flat::Cause;
use otio_model::{Children, Item, ItemOf};
use pieces::sound_ticks;

/// Whether an item that starts at an instant can be cut at two others, or needn't be.
pub(crate) fn is_cut(item: &Item, at: i128, from: i128, to: i128) -> bool
    requires cuttable { IsCuttable item.now }
    requires low { pos 0 ≤ℤ at }
    requires high { at ≤ℤ pos 100000000000000000000000000000000000000 }
    requires from_low { pos 0 ≤ℤ from }
    requires from_high { from ≤ℤ pos 1411200000000000000000000 }
    requires to_low { pos 0 ≤ℤ to }
    requires to_high { to ≤ℤ pos 1411200000000000000000000 }
    ensures { result ≡ (flat_pieces.cuts_at item.now (from -ℤ at)
        && flat_pieces.cuts_at item.now (to -ℤ at)) }
{
    cuts_at(item, from - at) && cuts_at(item, to - at)
}

// The first child of a track that has to be cut at one of two instants and can't be.
fn first_uncut(children: &Children, from: i128, to: i128) -> Option<usize>
    requires few { length (items_of children.now) < 2 ^ 32 }
    requires cuttable { AreCuttable (items_of children.now) }
    requires from_low { pos 0 ≤ℤ from }
    requires from_high { from ≤ℤ pos 1411200000000000000000000 }
    requires to_low { pos 0 ≤ℤ to }
    requires to_high { to ≤ℤ pos 1411200000000000000000000 }
    ensures found { IfSome result (λ i. IsUncut (items_of children.now) from to i) }
    ensures none { IfNone result
        (AreCutTo (items_of children.now) from to (length (items_of children.now))) }
{
    let mut at: i128 = 0;
    'children: for index in 0..children.len() {
        let item = children.child(index);
        if !is_cut(item, at, from, to) {
            return Some(index);
        }
        at += sound_ticks(item);
    }
    None
}

// What is wrong with the root child of an index that is cut at two instants: it is no plain track,
// or else has a first child that can't be cut.
fn track_fault(item: &Item, track: usize, from: i128, to: i128) -> Option<Spot>
    requires few { count_of item.now < 2 ^ 32 }
    requires faultless { IsFaultlessItem item.now }
    requires near { track < 2 ^ 32 }
    requires from_low { pos 0 ≤ℤ from }
    requires from_high { from ≤ℤ pos 1411200000000000000000000 }
    requires to_low { pos 0 ≤ℤ to }
    requires to_high { to ≤ℤ pos 1411200000000000000000000 }
    ensures track { IfSome result (λ spot. spot.track ≡ track) }
    ensures near { IfSome result IsNear }
    ensures some { IfSome result (λ spot. (l : List (AnyItemOf Listed)) →
        slice_get l track ≡ Some item.now →
        IsFirst (Under (WindowBlocks l from to) track) (inner_place spot.child) spot.cause) }
    ensures none { IfNone result ((l : List (AnyItemOf Listed)) →
        slice_get l track ≡ Some item.now → IsFree (Under (WindowBlocks l from to) track)) }
{
    if !is_plain(item) {
        return Some(nested(track));
    }
    match item.children() {
        Some(children) => match first_uncut(children, from, to) {
            Some(child) => Some(Spot {
                cause: Cause::Phase,
                track,
                child: Some(child),
            }),
            None => None,
        },
        None => None,
    }
}

/// The first place, in document order, at which something is wrong with root children that are cut
/// at two instants, counted in ticks.
pub(crate) fn window_fault(children: &Children, from: i128, to: i128) -> Option<Spot>
    requires few { count children.now < 2 ^ 32 }
    requires faultless { AreFaultless children.now }
    requires from_low { pos 0 ≤ℤ from }
    requires from_high { from ≤ℤ pos 1411200000000000000000000 }
    requires to_low { pos 0 ≤ℤ to }
    requires to_high { to ≤ℤ pos 1411200000000000000000000 }
    ensures near { IfSome result IsNear }
    ensures some { IfSome result (λ spot.
        IsFirst (WindowBlocks (items_of children.now) from to) (spot_place spot) spot.cause) }
    ensures none { IfNone result (IsFree (WindowBlocks (items_of children.now) from to)) }
{
    'children: for index in 0..children.len() {
        match track_fault(children.child(index), index, from, to) {
            Some(spot) => return Some(spot),
            None => {}
        }
    }
    None
}
