//! Timelines without their transitions.

ghost use Rattle.std.specs.Prelude.{◌≡◌, ◌&&◌, IfOk};
ghost use Rattle.otio_model.specs.Trees as trees;
ghost use Rattle.flat.specs.Straight.{IsStraight};
ghost use Rattle.flat_law.proofs.Straight.{whole_item};
ghost use Rattle.flat_stack.specs.Straighten.{straight_children};

use crate::part_copies::take_children;
use otio_model::{Children, Item, ItemOf, Items, Timeline};
use std::alloc::{AllocError, Global};

// Whether an item goes: a transition of a track.
fn is_left_out(item: &Item, in_track: bool) -> bool
    ensures { result ≡ (in_track && trees.is_transition item.now) }
{
    in_track && item.is_transition()
}

// The item without the transitions of the tracks that it is or that stand below it.
#[cycle(straight)]
fn straight_item(alloc: Global, item: Item) -> Result<Item, AllocError>
    ensures { IfOk result (λ straight. straight ≡ whole_item item) }
{
    match item {
        ItemOf::Clip(clip) => Ok(ItemOf::Clip(clip)),
        ItemOf::Gap(gap) => Ok(ItemOf::Gap(gap)),
        ItemOf::Transition(transition) => Ok(ItemOf::Transition(transition)),
        ItemOf::Stack(mut stack) => {
            let children = take_children(alloc, &mut stack.children)?;
            stack.children = straight_list(alloc, children, false)?;
            Ok(ItemOf::Stack(stack))
        }
        ItemOf::Track(mut track) => {
            let children = take_children(alloc, &mut track.children)?;
            track.children = straight_list(alloc, children, true)?;
            Ok(ItemOf::Track(track))
        }
    }
}

// The children without the transitions of tracks below them, and without their own where they are
// a track's.
#[cycle(straight)]
fn straight_list(alloc: Global, children: Children, in_track: bool) -> Result<Children, AllocError>
    ensures { IfOk result (λ straight. straight ≡ straight_children in_track children) }
{
    let mut left: Vec<Item> = Vec::new(alloc);
    children.move_into(&mut left)?;
    left.reverse();
    let mut kept: Vec<Item> = Vec::new(alloc);
    'left: while let Some(item) = left.pop() {
        if is_left_out(&item, in_track) {
            drop(item);
        } else {
            let straight = straight_item(alloc, item)?;
            kept.push(straight)?;
        }
    }
    let straight = Children::of(alloc, Items::of(kept))?;
    Ok(straight)
}

/// The timeline without the transitions of any track, nested ones too; all else of it moves. An
/// error comes where memory runs out.
pub fn without_transitions(alloc: Global, timeline: Timeline) -> Result<Timeline, AllocError>
    ensures straight { IfOk result (IsStraight timeline) }
{
    let mut straight = timeline;
    let children = take_children(alloc, &mut straight.tracks.children)?;
    straight.tracks.children = straight_list(alloc, children, false)?;
    Ok(straight)
}
