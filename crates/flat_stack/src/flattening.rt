//! The tracks of a kind as one track.

ghost use Rattle.std.specs.Prelude.{◌≡◌, ◌<◌, ◌^◌, ◌≤ℤ◌, IfErr, IfOk, Some, map, pos, true};
ghost use Rattle.edits.specs.Children as children;
ghost use Rattle.otio_model.specs.Counts.{count};
ghost use Rattle.otio_model.specs.Trees.{items_of};
ghost use Rattle.coord.specs.Soundness.{AreFaultless, IsSound};
ghost use Rattle.flat.specs.Answers.{Flattens, Names};
ghost use Rattle.flat.specs.Blocked.{Blocks, IsFree};
ghost use Rattle.flat.specs.Flattened as flattened;
ghost use Rattle.flat.specs.Flattened.{IsFlattened};
ghost use Rattle.flat.specs.Pieces as flat_pieces;
ghost use Rattle.flat.specs.Pieces.{Giver};
ghost use Rattle.flat.specs.Roots.{roots};
ghost use Rattle.flat_stack.specs.Parts.{AreAll, IsPart};
ghost use Rattle.flat_stack.specs.Placed.{IsFirstOf};
ghost use Rattle.flat_stack.specs.Runs.{piece_of};

use crate::cutting::part as part_of;
use crate::fault_places::fault_of;
use crate::flat_faults::flat_fault;
use crate::flat_layers::flat_parts;
use crate::flat_tracks::{first_of, flat_track, in_place, with_last};
use crate::part_copies::copy_with;
use crate::refusals::{item_at, part_at};
use crate::root_children::flat_rate;
use crate::same_clips::Part;
use flat::FlatFault;
use otio_model::{Children, Item, Timeline, copy_timeline};
use pieces::short_gap;
use sequences::Text;
use std::alloc::{AllocError, Global};
use tick_time::Rate;

// The item that a part becomes: a piece of its clip, or a gap.
fn part_item(alloc: Global, children: &Children, part: Part, rate: Rate) -> Result<Item, AllocError>
    requires few { count children.now < 2 ^ 32 }
    requires faultless { AreFaultless children.now }
    requires part { IsPart (items_of children.now) part }
    requires cut { (g : Giver) → (piece_of (items_of children.now) part).of ≡ Some g →
        flat_pieces.is_cut (piece_of (items_of children.now) part) g ≡ true }
    ensures { IfOk result (λ item. flat_pieces.piece_item rate
        (piece_of (items_of children.now) part) ≡ Some item) }
{
    match part.given {
        Some(given) => {
            let item = item_at(children, given.track, given.child);
            let from = part.from - given.start;
            let to = part.to - given.start;
            let piece = part_of(alloc, item, from, to, rate)?;
            Ok(piece)
        }
        None => Ok(short_gap(alloc, part.to - part.from, rate)),
    }
}

// The items that all parts become.
fn part_items(
    alloc: Global,
    children: &Children,
    kind: &Text,
    parts: &[Part],
    rate: Rate,
) -> Result<Vec<Item>, AllocError>
    requires few { count children.now < 2 ^ 32 }
    requires faultless { AreFaultless children.now }
    requires all { AreAll kind.now (items_of children.now) parts.now }
    requires free { IsFree (Blocks kind.now (items_of children.now)) }
    ensures { IfOk result (λ items. flat_pieces.piece_items rate
        (map (piece_of (items_of children.now)) parts.now) ≡ Some items.items) }
{
    let mut done: Vec<Item> = Vec::new(alloc);
    'parts: for index in 0..parts.len() {
        let item = part_item(alloc, children, part_at(parts, index), rate)?;
        done.push(item)?;
    }
    Ok(done)
}

/// Where a flat track goes among root children.
#[derive(Clone, Copy)]
pub(crate) struct FlatPlace {
    /// The index of the first track of its kind.
    first: usize,
    /// Whether the tracks of its kind stay; then it comes after all root children.
    keep: bool,
}

// Copies of the children, with a flat track after them or in place of the tracks of its kind.
fn with_flat(
    alloc: Global,
    children: &Children,
    kind: &Text,
    place: FlatPlace,
    flat: Item,
) -> Result<Vec<Item>, AllocError>
    requires { IsFirstOf kind.now (items_of children.now) place.first }
    ensures { IfOk result (λ all. all.items ≡
        flattened.put_flat place.keep kind.now flat (items_of children.now)) }
{
    if place.keep {
        let all = with_last(alloc, children, flat)?;
        return Ok(all);
    }
    let all = in_place(alloc, children, kind, place.first, flat)?;
    Ok(all)
}

// A copy of the timeline with a flat track made of these parts; a plain one where no track is of
// the kind.
fn flat_copy(
    alloc: Global,
    timeline: &Timeline,
    kind: &Text,
    parts: &[Part],
    keep: bool,
) -> Result<Timeline, AllocError>
    requires few { count timeline.now.tracks.children < 2 ^ 32 }
    requires faultless { AreFaultless timeline.now.tracks.children }
    requires all { AreAll kind.now (roots timeline.now) parts.now }
    requires free { IsFree (Blocks kind.now (roots timeline.now)) }
    ensures { IfOk result (IsFlattened timeline.now kind.now keep) }
{
    let children = &timeline.tracks.children;
    match first_of(children, kind) {
        Some(first) => {
            let items = part_items(alloc, children, kind, parts, flat_rate(timeline))?;
            let flat = flat_track(alloc, kind, items)?;
            let all = with_flat(alloc, children, kind, FlatPlace { first, keep }, flat)?;
            let copy = copy_with(alloc, timeline, all)?;
            Ok(copy)
        }
        None => {
            let copy = copy_timeline(alloc, timeline)?;
            Ok(copy)
        }
    }
}

/// A copy of the timeline with the tracks of a kind as one track, in which the enabled clip of the
/// topmost enabled track that has one there gives each instant; the last track is the topmost. With
/// `keep` it comes after all root children; else it takes the place of the first track of the
/// kind, and the others go. Where no track is of the kind, nothing changes.
///
/// The fault is that of the first place in document order: [`FlatFault::Nested`] for a root child
/// that is no track, for an enabled track of the kind that has a source_range or effects, and for a
/// stack or track in one; [`FlatFault::Transition`] for a transition in one; [`FlatFault::Phase`]
/// for a clip that can't be cut on a whole tick of its media where one of its parts begins or ends.
/// [`FlatFault::Memory`] comes where memory runs out.
pub fn flatten(
    alloc: Global,
    timeline: &Timeline,
    kind: &Text,
    keep: bool,
) -> Result<Timeline, FlatFault>
    requires few { count timeline.now.tracks.children < 2 ^ 32 }
    requires sound { IsSound timeline.now }
    ensures flattened { IfOk result (Flattens timeline.now kind.now keep) }
    ensures refused { IfErr result (Names (Blocks kind.now (roots timeline.now))) }
{
    let children = &timeline.tracks.children;
    let parts = match flat_parts(alloc, children, kind) {
        Ok(parts) => parts,
        Err(_) => return Err(FlatFault::Memory),
    };
    let list = parts.as_slice();
    match flat_fault(children, kind, list) {
        Some(spot) => Err(fault_of(alloc, spot)),
        None => match flat_copy(alloc, timeline, kind, list, keep) {
            Ok(copy) => Ok(copy),
            Err(_) => Err(FlatFault::Memory),
        },
    }
}
