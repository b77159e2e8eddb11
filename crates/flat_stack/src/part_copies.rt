//! Copies of parts of timelines.

ghost use Rattle.std.specs.Prelude.{◌≡◌, ◌≢◌, ◌++◌, ◌∷◌, [], IfOk, List, OnErr, OnOk, reverse};
ghost use Rattle.otio_model.specs.declared.compositions.ItemOf.{ItemOf as AnyItemOf};
ghost use Rattle.otio_model.specs.declared.compositions.Listed.{Listed};
ghost use Rattle.otio_model.specs.Timelines.{bare};
ghost use Rattle.otio_model.specs.Trees.{items_of};
ghost use Rattle.flat.specs.Roots as roots;

use otio_model::{Children, Item, Items, Timeline, copy_timeline_with};
use std::alloc::{AllocError, Global};
use std::mem;

/// Takes children out, and leaves none in their place. An error comes where memory runs out; then
/// the children are as they were.
pub(crate) fn take_children(alloc: Global, children: &mut Children) -> Result<Children, AllocError>
    ensures taken { IfOk result (λ taken. taken ≡ children.old) }
    ensures unchanged { OnErr result (children.new ≡ children.old) }
{
    let none = Children::of(alloc, Items::new(alloc))?;
    Ok(mem::replace(children, none))
}

/// Moves the root children of a timeline to the end of a list. An error comes where memory runs
/// out.
pub(crate) fn move_roots(
    alloc: Global,
    timeline: &mut Timeline,
    all: &mut Vec<Item>,
) -> Result<(), AllocError>
    ensures moved { OnOk result (all.new.items ≡ all.old.items ++ roots.roots timeline.old) }
    ensures rest { OnOk result ((l : List (AnyItemOf Listed)) →
        bare (roots.with_roots l timeline.new) ≡ bare (roots.with_roots l timeline.old)) }
{
    let children = take_children(alloc, &mut timeline.tracks.children)?;
    children.move_into(all)?;
    Ok(())
}

/// A timeline with other root children. An error comes where memory runs out.
pub(crate) fn with_roots(
    alloc: Global,
    timeline: Timeline,
    items: Vec<Item>,
) -> Result<Timeline, AllocError>
    ensures { IfOk result (λ whole. bare whole ≡ bare (roots.with_roots items.items timeline)) }
{
    let mut whole = timeline;
    whole.tracks.children = Children::of(alloc, Items::of(items))?;
    Ok(whole)
}

/// Takes the first of some timelines out; the others stay, the last one first.
pub(crate) fn take_first(timelines: &mut Vec<Timeline>) -> Timeline
    requires { timelines.old.items ≢ [] }
    ensures { timelines.old.items ≡ result ∷ reverse timelines.new.items }
{
    let first = timelines.remove(0);
    timelines.reverse();
    first
}

/// A copy of a timeline with other root children; its own aren't copied. An error comes where
/// memory runs out.
pub fn copy_with(
    alloc: Global,
    timeline: &Timeline,
    items: Vec<Item>,
) -> Result<Timeline, AllocError>
    ensures { IfOk result (λ copy. bare copy ≡ bare (roots.with_roots items.items timeline.now)) }
{
    let children = Children::of(alloc, Items::of(items))?;
    copy_timeline_with(alloc, timeline, children)
}
