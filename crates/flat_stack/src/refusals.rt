//! Clips that can't be cut into the parts that a flat track has of them.

ghost use Rattle.std.specs.Prelude.{◌≡◌, ◌<◌, ◌^◌, IfSome, Some, length, slice_get};
ghost use Rattle.otio_model.specs.declared.compositions.ItemOf.{ItemOf as AnyItemOf};
ghost use Rattle.otio_model.specs.declared.compositions.Listed.{Listed};
ghost use Rattle.otio_model.specs.Counts.{count};
ghost use Rattle.otio_model.specs.Trees.{items_of};
ghost use Rattle.coord.specs.Soundness.{AreFaultless};
ghost use Rattle.flat_stack.specs.Parts.{AreParts, IsChildOf, IsPart};
ghost use Rattle.flat_stack.specs.Refused.{IsRefusal, IsRefusedTo};
ghost use Rattle.flat_stack.specs.Spots.{IsNear};
ghost use Rattle.flat_stack.specs.Sought.{IsSought};
ghost use Rattle.flat_stack.specs.Runs.{piece_of};

use crate::fault_places::Spot;
use crate::first_faults::earlier;
use crate::same_clips::Part;
use crate::window_faults::is_cut;
use flat::Cause;
use otio_model::{Children, Item};

/// The child of an index of the track of an index.
pub(crate) fn item_at(children: &Children, track: usize, child: usize) -> &Item
    requires { (item : AnyItemOf Listed) × IsChildOf (items_of children.now) track child item }
    ensures { IsChildOf (items_of children.now) track child result.now }
{
    match children.child(track).children() {
        Some(inner) => inner.child(child),
        None => unreachable!(),
    }
}

/// The part of an index.
#[tactic(auto, using(crate::proofs::RunLemmas::at_index))]
pub(crate) fn part_at(parts: &[Part], index: usize) -> Part
    requires { index < length parts.now }
    ensures { slice_get parts.now index ≡ Some result }
{
    parts[index]
}

// The clip of a part, where it can't be cut at both ends of it.
fn refusal(children: &Children, part: Part) -> Option<Spot>
    requires few { count children.now < 2 ^ 32 }
    requires faultless { AreFaultless children.now }
    requires part { IsPart (items_of children.now) part }
    ensures near { IfSome result IsNear }
    ensures sought { IsSought (IsRefusal (piece_of (items_of children.now) part)) result }
{
    match part.given {
        Some(given) => {
            let item = item_at(children, given.track, given.child);
            if is_cut(item, given.start, part.from, part.to) {
                return None;
            }
            Some(Spot {
                cause: Cause::Phase,
                track: given.track,
                child: Some(given.child),
            })
        }
        None => None,
    }
}

/// The first clip, in document order, that can't be cut at both ends of one of its parts.
pub(crate) fn first_refusal(children: &Children, parts: &[Part]) -> Option<Spot>
    requires few { count children.now < 2 ^ 32 }
    requires faultless { AreFaultless children.now }
    requires parts { AreParts (items_of children.now) parts.now }
    ensures near { IfSome result IsNear }
    ensures sought { IsSought (IsRefusedTo (items_of children.now) parts.now (length parts.now))
        result }
{
    let mut first: Option<Spot> = None;
    'parts: for index in 0..parts.len() {
        let next = refusal(children, part_at(parts, index));
        first = earlier(first, next);
    }
    first
}
