//! What is wrong with tracks that are flattened.

ghost use Rattle.std.specs.Prelude.{◌≡◌, ◌<◌, ◌^◌, IfNone, IfSome, List, Some, length, slice_get};
ghost use Rattle.otio_model.specs.declared.compositions.ItemOf.{ItemOf as AnyItemOf};
ghost use Rattle.otio_model.specs.declared.compositions.Listed.{Listed};
ghost use Rattle.otio_model.specs.Counts.{count, count_of};
ghost use Rattle.otio_model.specs.Trees.{items_of};
ghost use Rattle.coord.specs.Soundness.{AreFaultless};
ghost use Rattle.flat.specs.Blocked.{Blocks, IsFirst, IsFree};
ghost use Rattle.flat.specs.Roots as roots;
ghost use Rattle.flat_stack.specs.Misfits as misfits;
ghost use Rattle.flat_stack.specs.Misfits.{AreFit, IsMisfit, Misfits};
ghost use Rattle.flat_stack.specs.Parts.{AreAll};
ghost use Rattle.flat_stack.specs.Spots.{IsNear, Under, inner_place};
ghost use Rattle.flat_stack.specs.Sought.{IsSought};

use crate::fault_places::{Spot, nested};
use crate::first_faults::earlier;
use crate::refusals::first_refusal;
use crate::root_children::is_plain;
use crate::same_clips::Part;
use crate::stretches::is_layer;
use flat::Cause;
use otio_model::{Children, Item, ItemOf};
use sequences::Text;

// What is wrong with a child of a track that is flattened.
fn child_cause(item: &Item) -> Option<Cause>
    ensures { result ≡ misfits.child_cause item.now }
{
    match item {
        ItemOf::Stack(_) => Some(Cause::Nested),
        ItemOf::Track(_) => Some(Cause::Nested),
        ItemOf::Transition(_) => Some(Cause::Crossing),
        _ => None,
    }
}

// The first child with which something is wrong, and what.
fn first_misfit(children: &Children) -> Option<(usize, Cause)>
    ensures found { IfSome result (λ found. IsMisfit (items_of children.now) found.0 found.1) }
    ensures none { IfNone result (AreFit (items_of children.now) (length (items_of children.now))) }
{
    'children: for index in 0..children.len() {
        match child_cause(children.child(index)) {
            Some(cause) => return Some((index, cause)),
            None => {}
        }
    }
    None
}

// What is wrong with the root child of an index: it is no track, or it is flattened and isn't
// plain or has a first child with which something is wrong.
fn layer_fault(item: &Item, kind: &Text, track: usize) -> Option<Spot>
    requires few { count_of item.now < 2 ^ 32 }
    requires near { track < 2 ^ 32 }
    ensures track { IfSome result (λ spot. spot.track ≡ track) }
    ensures near { IfSome result IsNear }
    ensures some { IfSome result (λ spot. (l : List (AnyItemOf Listed)) →
        slice_get l track ≡ Some item.now →
        IsFirst (Under (Misfits kind.now l) track) (inner_place spot.child) spot.cause) }
    ensures none { IfNone result ((l : List (AnyItemOf Listed)) →
        slice_get l track ≡ Some item.now → IsFree (Under (Misfits kind.now l) track)) }
{
    if !item.is_track() {
        return Some(nested(track));
    }
    if !is_layer(item, kind) {
        return None;
    }
    if !is_plain(item) {
        return Some(nested(track));
    }
    match item.children() {
        Some(children) => match first_misfit(children) {
            Some((child, cause)) => Some(Spot {
                cause,
                track,
                child: Some(child),
            }),
            None => None,
        },
        None => None,
    }
}

// The first place, in document order, at which something is wrong with root children that are
// flattened, whatever their parts are.
fn root_misfit(children: &Children, kind: &Text) -> Option<Spot>
    requires few { count children.now < 2 ^ 32 }
    ensures near { IfSome result IsNear }
    ensures sought { IsSought (Misfits kind.now (items_of children.now)) result }
{
    'children: for index in 0..children.len() {
        match layer_fault(children.child(index), kind, index) {
            Some(spot) => return Some(spot),
            None => {}
        }
    }
    None
}

/// The first place, in document order, at which something is wrong with root children whose parts
/// of a flat track these are.
pub(crate) fn flat_fault(children: &Children, kind: &Text, parts: &[Part]) -> Option<Spot>
    requires few { count children.now < 2 ^ 32 }
    requires faultless { AreFaultless children.now }
    requires all { AreAll kind.now (items_of children.now) parts.now }
    ensures near { IfSome result IsNear }
    ensures sought { IsSought (Blocks kind.now (items_of children.now)) result }
{
    let misfit = root_misfit(children, kind);
    let refusal = first_refusal(children, parts);
    earlier(misfit, refusal)
}
