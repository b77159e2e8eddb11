//! Items.

ghost use Rattle.std.specs.Prelude.{◌≡◌, IfOk};
ghost use Rattle.schema_write.specs.Objects as objects;
ghost use Rattle.schema_write.specs.Styles.{style_of};

use crate::families::Family;
use crate::scalars::{clip_in, gap_json, stack_of, track_of, transition_json};
use json_value::{Json, JsonList};
use otio_model::{Children, Item, ItemOf, Stack};
use std::alloc::{AllocError, Global};

/// An item in a family.
#[cycle(item)]
pub fn item_json(alloc: Global, item: &Item, family: Family) -> Result<Json, AllocError>
    ensures { IfOk result (λ json. json ≡ objects.item_in (style_of family) item.now) }
{
    match item {
        ItemOf::Clip(clip) => clip_in(alloc, clip, family),
        ItemOf::Gap(gap) => gap_json(alloc, gap, family),
        ItemOf::Transition(transition) => transition_json(alloc, transition),
        ItemOf::Stack(stack) => {
            let children = children_json(alloc, &stack.children, family)?;
            stack_of(alloc, stack, children, family)
        }
        ItemOf::Track(track) => {
            let children = children_json(alloc, &track.children, family)?;
            track_of(alloc, track, children, family)
        }
    }
}

// The children of a composition, in order.
#[cycle(item)]
fn children_json(alloc: Global, children: &Children, family: Family) -> Result<JsonList, AllocError>
    ensures { IfOk result (λ made. made ≡ objects.children_in (style_of family) children.now) }
{
    let mut values = Vec::with_capacity(alloc, children.len())?;
    'items: for index in 0..children.len() {
        values.push(item_json(alloc, children.child(index), family)?)?;
    }
    JsonList::of(alloc, values)
}

/// A timeline's root stack.
pub fn stack_json(alloc: Global, stack: &Stack, family: Family) -> Result<Json, AllocError>
    ensures { let style = style_of family in IfOk result (λ json.
        json ≡ objects.stack_by style (objects.children_in style) stack.now) }
{
    let children = children_json(alloc, &stack.children, family)?;
    stack_of(alloc, stack, children, family)
}
