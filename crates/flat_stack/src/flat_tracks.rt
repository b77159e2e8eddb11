//! A flat track among root children.

ghost use Rattle.std.specs.Prelude.{◌≡◌, ◌≤◌, ◌+◌, ◌++◌, IfNone, IfOk, IfSome, OnOk, false};
ghost use Rattle.std.specs.Prelude.{[], ◌∷◌, drop, filter, length, not, take};
ghost use Rattle.otio_model.specs.Trees.{items_of};
ghost use Rattle.flat.specs.Flattened as flattened;
ghost use Rattle.flat.specs.Roots as roots;
ghost use Rattle.flat_stack.specs.Placed.{IsFirstOf};

use otio_model::{Children, Effects, Item, ItemOf, Items, Markers, Metadata, TrackOf, copy_item};
use sequences::{NamedValues, Text};
use std::alloc::{AllocError, Global};

/// Whether an item is a track of a kind.
pub fn is_of(item: &Item, kind: &Text) -> bool
    ensures { result ≡ roots.is_of kind.now item.now }
{
    match item {
        ItemOf::Track(track) => track.kind.as_str() == kind.as_str(),
        _ => false,
    }
}

/// The index of the first track of a kind.
pub(crate) fn first_of(children: &Children, kind: &Text) -> Option<usize>
    ensures some { IfSome result (IsFirstOf kind.now (items_of children.now)) }
    ensures none { IfNone result (flattened.has_kind kind.now (items_of children.now) ≡ false) }
{
    'children: for index in 0..children.len() {
        if is_of(children.child(index), kind) {
            return Some(index);
        }
    }
    None
}

// Copies of the children before an index.
fn copy_front(alloc: Global, children: &Children, end: usize) -> Result<Vec<Item>, AllocError>
    requires { end ≤ length (items_of children.now) }
    ensures { IfOk result (λ front. front.items ≡ take end (items_of children.now)) }
{
    let mut front = Vec::new(alloc);
    'children: for index in 0..end {
        front.push(copy_item(alloc, children.child(index))?)?;
    }
    Ok(front)
}

// Copies of the children before an index, and another item after them.
fn front_with(
    alloc: Global,
    children: &Children,
    end: usize,
    item: Item,
) -> Result<Vec<Item>, AllocError>
    requires { end ≤ length (items_of children.now) }
    ensures { IfOk result (λ all. all.items ≡ take end (items_of children.now) ++ item ∷ []) }
{
    let mut all = match copy_front(alloc, children, end) {
        Ok(front) => front,
        Err(error) => {
            drop(item);
            return Err(error);
        }
    };
    all.push(item)?;
    Ok(all)
}

// Adds copies of the children from an index on that are no track of a kind.
fn copy_others(
    alloc: Global,
    children: &Children,
    kind: &Text,
    from: usize,
    all: &mut Vec<Item>,
) -> Result<(), AllocError>
    requires { from ≤ length (items_of children.now) }
    ensures { OnOk result (all.new.items ≡ all.old.items
        ++ filter (λ item. not (roots.is_of kind.now item)) (drop from (items_of children.now))) }
{
    'children: for index in from..children.len() {
        let item = children.child(index);
        if !is_of(item, kind) {
            all.push(copy_item(alloc, item)?)?;
        }
    }
    Ok(())
}

/// Copies of the children, with another in place of the first track of a kind, and without the
/// other tracks of the kind.
pub(crate) fn in_place(
    alloc: Global,
    children: &Children,
    kind: &Text,
    first: usize,
    flat: Item,
) -> Result<Vec<Item>, AllocError>
    requires first { IsFirstOf kind.now (items_of children.now) first }
    ensures { IfOk result
        (λ all. all.items ≡ flattened.in_place kind.now flat (items_of children.now)) }
{
    let mut all = front_with(alloc, children, first, flat)?;
    copy_others(alloc, children, kind, first + 1, &mut all)?;
    Ok(all)
}

/// The track that stands for flattened ones.
pub(crate) fn flat_track(alloc: Global, kind: &Text, items: Vec<Item>) -> Result<Item, AllocError>
    ensures { IfOk result (λ track. track ≡ flattened.flat_track kind.now items.items) }
{
    let children = Children::of(alloc, Items::of(items))?;
    let name = Text::of(alloc, "Flattened")?;
    let kind = Text::of(alloc, kind.as_str())?;
    Ok(ItemOf::Track(TrackOf {
        metadata: Metadata::new(alloc),
        name,
        source_range: None,
        effects: Effects::new(alloc),
        markers: Markers::new(alloc),
        enabled: true,
        children,
        kind,
        rest: NamedValues::new(alloc),
    }))
}

/// Copies of the children, and another after them.
pub(crate) fn with_last(
    alloc: Global,
    children: &Children,
    flat: Item,
) -> Result<Vec<Item>, AllocError>
    ensures { IfOk result (λ all. all.items ≡ items_of children.now ++ flat ∷ []) }
{
    front_with(alloc, children, children.len(), flat)
}
