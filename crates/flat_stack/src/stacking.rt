//! Timelines above each other.

ghost use Rattle.std.specs.Prelude.{◌≡◌, ◌≢◌, [], ◌∷◌, IfOk, List};
ghost use Rattle.otio_model.specs.declared.timelines.Timeline.{Timeline as AnyTimeline};
ghost use Rattle.flat.specs.Piled.{IsPiled};

use crate::part_copies::{move_roots, take_first, with_roots};
use otio_model::{Item, Timeline};
use std::alloc::{AllocError, Global};

/// The first input with the root children of all of them, in their order, which move there. An
/// error comes where memory runs out.
pub fn pile(alloc: Global, inputs: Vec<Timeline>) -> Result<Timeline, AllocError>
    requires some { inputs.items ≢ [] }
    ensures piled { IfOk result (λ r. (t : AnyTimeline) (more : List AnyTimeline) →
        inputs.items ≡ t ∷ more → IsPiled t more r) }
{
    let mut left = inputs;
    let mut first = take_first(&mut left);
    let mut all: Vec<Item> = Vec::new(alloc);
    move_roots(alloc, &mut first, &mut all)?;
    'left: while let Some(mut input) = left.pop() {
        move_roots(alloc, &mut input, &mut all)?;
    }
    let piled = with_roots(alloc, first, all)?;
    Ok(piled)
}
