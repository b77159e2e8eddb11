//! What is wrong with inputs that are to be joined.

ghost use Rattle.std.specs.Prelude.{◌≡◌, ◌&&◌, ◌<◌, ◌^◌, ◌≤ℤ◌, ◌∷◌, [], IfNone, IfSome, length};
ghost use Rattle.std.specs.Prelude.{List, not, pos, slice_get, Some, true, ℕ};
ghost use Rattle.otio_model.specs.declared.compositions.ItemOf.{ItemOf as AnyItemOf};
ghost use Rattle.otio_model.specs.declared.compositions.Listed.{Listed};
ghost use Rattle.otio_model.specs.Counts.{count, count_of};
ghost use Rattle.otio_model.specs.Trees.{items_of};
ghost use Rattle.coord.specs.Sights.{overlap_of};
ghost use Rattle.coord.specs.Soundness.{AreFaultless, IsFaultlessItem};
ghost use Rattle.flat.specs.Blocked.{IsFirst, IsFree};
ghost use Rattle.flat.specs.Joined.{JoinBlocks};
ghost use Rattle.flat.specs.Roots as roots;
ghost use Rattle.pieces.specs.Short.{AreCuttable};
ghost use Rattle.flat_stack.specs.Spots.{IsNear, Under, inner_place, spot_place};
ghost use Rattle.flat_stack.specs.Blocking.{AreApartTo, IsCrossing, early_by, late_by};

use crate::fault_places::{Spot, nested};
use crate::lengths::total_ticks;
use crate::root_children::{enabled_children, is_plain};
use flat::Cause;
use otio_model::{Children, Item, ItemOf, offset_ticks};
use pieces::sound_ticks;

// Whether an item is a transition that begins before its list or as its first child, where it
// stands at an index and starts at an instant.
fn begins_early(item: &Item, index: usize, at: i128) -> bool
    ensures { result ≡ early_by index at (overlap_of item.now) }
{
    match item {
        ItemOf::Transition(transition) => { index == 0 || at < offset_ticks(transition.in_offset) }
        _ => false,
    }
}

// Whether an item is a transition that ends after its list or as its last child, where so many
// children of so many ticks stand after it.
fn ends_late(item: &Item, left: usize, rest: i128) -> bool
    ensures { result ≡ late_by left rest (overlap_of item.now) }
{
    match item {
        ItemOf::Transition(transition) => {
            left == 0 || rest < offset_ticks(transition.out_offset)
        }
        _ => false,
    }
}

// Whether an item begins too early, of an input that isn't the first.
fn blocks_start(item: &Item, index: usize, at: i128, is_first: bool) -> bool
    ensures { result ≡ (not is_first && early_by index at (overlap_of item.now)) }
{
    !is_first && begins_early(item, index, at)
}

// Whether an item ends too late, of an input that isn't the last.
fn blocks_end(item: &Item, left: usize, rest: i128, is_last: bool) -> bool
    ensures { result ≡ (not is_last && late_by left rest (overlap_of item.now)) }
{
    !is_last && ends_late(item, left, rest)
}

// The first transition of a track that may not stand where it does.
fn first_crossing(children: &Children, is_first: bool, is_last: bool) -> Option<usize>
    requires few { count children.now < 2 ^ 32 }
    requires cuttable { AreCuttable (items_of children.now) }
    ensures found { IfSome result (IsCrossing is_first is_last (items_of children.now)) }
    ensures none { IfNone result (AreApartTo is_first is_last (items_of children.now)
        (length (items_of children.now))) }
{
    let total = total_ticks(children);
    let len = children.len();
    let mut at: i128 = 0;
    'children: for index in 0..len {
        let item = children.child(index);
        let end = at + sound_ticks(item);
        if blocks_start(item, index, at, is_first) {
            return Some(index);
        }
        if blocks_end(item, len - index - 1, total - end, is_last) {
            return Some(index);
        }
        at = end;
    }
    None
}

// The first transition that may not stand where it does in a root child that is a plain track; a
// disabled one has none.
fn inner_crossing(item: &Item, is_first: bool, is_last: bool) -> Option<usize>
    requires few { count_of item.now < 2 ^ 32 }
    requires faultless { IsFaultlessItem item.now }
    requires plain { roots.is_plain item.now ≡ true }
    ensures near { IfSome result (λ i. i < 2 ^ 32) }
    ensures some { IfSome result (λ i. (l : List (AnyItemOf Listed)) (k : ℕ) →
        slice_get l k ≡ Some item.now →
        IsFirst (Under (JoinBlocks is_first is_last l) k) (i ∷ []) Cause.Crossing) }
    ensures none { IfNone result ((l : List (AnyItemOf Listed)) (k : ℕ) →
        slice_get l k ≡ Some item.now → IsFree (Under (JoinBlocks is_first is_last l) k)) }
{
    match enabled_children(item) {
        Some(children) => match first_crossing(children, is_first, is_last) {
            Some(child) => Some(child),
            None => None,
        },
        None => None,
    }
}

// What is wrong with the root child of an index: it is no plain track, or else has a transition
// that may not stand where it does.
fn track_fault(item: &Item, track: usize, is_first: bool, is_last: bool) -> Option<Spot>
    requires few { count_of item.now < 2 ^ 32 }
    requires faultless { IsFaultlessItem item.now }
    requires near { track < 2 ^ 32 }
    ensures track { IfSome result (λ spot. spot.track ≡ track) }
    ensures near { IfSome result IsNear }
    ensures some { IfSome result (λ spot. (l : List (AnyItemOf Listed)) →
        slice_get l track ≡ Some item.now →
        IsFirst (Under (JoinBlocks is_first is_last l) track) (inner_place spot.child)
        spot.cause) }
    ensures none { IfNone result ((l : List (AnyItemOf Listed)) →
        slice_get l track ≡ Some item.now →
        IsFree (Under (JoinBlocks is_first is_last l) track)) }
{
    if !is_plain(item) {
        return Some(nested(track));
    }
    match inner_crossing(item, is_first, is_last) {
        Some(child) => Some(Spot {
            cause: Cause::Crossing,
            track,
            child: Some(child),
        }),
        None => None,
    }
}

/// The first place, in document order, at which something is wrong with the root children of an
/// input.
pub(crate) fn input_fault(children: &Children, is_first: bool, is_last: bool) -> Option<Spot>
    requires few { count children.now < 2 ^ 32 }
    requires faultless { AreFaultless children.now }
    ensures near { IfSome result IsNear }
    ensures some { IfSome result (λ spot. IsFirst
        (JoinBlocks is_first is_last (items_of children.now)) (spot_place spot) spot.cause) }
    ensures none { IfNone result (IsFree
        (JoinBlocks is_first is_last (items_of children.now))) }
{
    'children: for index in 0..children.len() {
        match track_fault(children.child(index), index, is_first, is_last) {
            Some(spot) => return Some(spot),
            None => {}
        }
    }
    None
}
