//! The number of items of an object.

ghost use Rattle.std.specs.Prelude.{◌≡◌, ◌+◌, ◌<◌, MatchOption};
ghost use Rattle.otio_model.specs.Counts.{count, count_of as count_of_item};
ghost use Rattle.schema_rows.specs.Counts.{count_of};
ghost use Rattle.schema_tab.specs.Objects.{counts_of};

use otio_model::{Children, Item, Object};

/// What is left of a limit after the items of an object; none where there are more.
#[cycle(objects)]
pub(crate) fn left_after(limit: u32, object: &Object) -> Option<u32>
    ensures { MatchOption result (limit < count_of object.now) (λ rest.
        rest + count_of object.now ≡ limit) }
{
    match object {
        Object::Timeline(timeline) => after_children(limit, &timeline.tracks.children),
        Object::Collection(collection) => after_objects(limit, collection.children.as_slice()),
        Object::Item(item) => after_item(limit, item),
    }
}

// What is left of a limit after the items of objects; none where there are more.
#[cycle(objects)]
fn after_objects(limit: u32, objects: &[Object]) -> Option<u32>
    ensures { MatchOption result (limit < counts_of objects.now) (λ rest.
        rest + counts_of objects.now ≡ limit) }
{
    let mut left = limit;
    for object in objects {
        left = left_after(left, object)?;
    }
    Some(left)
}

// What is left of a limit after an item and the items below it; none where there are more.
#[tactic(auto, using(crate::proofs::Counting::item_count, crate::proofs::Counting::parent_count))]
fn after_item(limit: u32, item: &Item) -> Option<u32>
    ensures { MatchOption result (limit < count_of_item item.now) (λ rest.
        rest + count_of_item item.now ≡ limit) }
{
    let left = limit.checked_sub(1)?;
    match item.children() {
        Some(children) => after_children(left, children),
        None => Some(left),
    }
}

// What is left of a limit after children and the items below them; none where there are more.
fn after_children(limit: u32, children: &Children) -> Option<u32>
    ensures { MatchOption result (limit < count children.now) (λ rest.
        rest + count children.now ≡ limit) }
{
    match u32::try_from(children.items_below()) {
        Ok(items) => limit.checked_sub(items),
        Err(_) => None,
    }
}
