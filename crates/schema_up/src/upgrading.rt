// Values with old objects inside, rewritten from inside out.
ghost use Rattle.std.specs.Prelude.{◌≡◌, IfOk};
ghost use Rattle.schema_up.specs.declared.old_names.Row.TheVariants.{Object};
ghost use Rattle.schema_up.specs.Upgrades.{items_at, map_at, pairs_at, upgraded, upgraded_at};

use crate::old_names::{Form, Row, schema_of};
use crate::upgraded_objects::renew;
use json_value::{Json, JsonList, Members};
use owned::Owned;
use sequences::NamedValues;
use std::alloc::{AllocError, Global};
use std::mem;

/// The value with old names and old versions of OpenTimelineIO schemas rewritten, in the object
/// that it is and in the objects that it holds in `children`, `tracks`, `markers`,
/// `media_references` and `media_reference`. Nothing else changes, and what isn't rewritten stays
/// in its memory.
///
/// - `Sequence`, `Filler` and `SerializeableCollection` become `Track`, `Gap` and
///   `SerializableCollection`, of the same version.
/// - `Clip.1` becomes `Clip.2`: its `media_reference` becomes the one medium of `media_references`,
///   at the key `DEFAULT_MEDIA`, which is its `active_media_reference_key`. Where it is absent or
///   null, the medium is `{"OTIO_SCHEMA": "MissingReference.1"}`.
/// - `Marker.1` becomes `Marker.2`: its `range` is named `marked_range`.
/// - Members of the new names that such a clip or marker has already are dropped.
///
/// An error comes where memory runs out.
pub fn upgrade(alloc: Global, value: Json) -> Result<Json, AllocError>
    ensures { IfOk result (λ made. made ≡ upgraded value) }
{
    upgrade_at(alloc, value, Row::Object)
}

// What a value becomes at a place.
#[cycle(upgrade)]
fn upgrade_at(alloc: Global, value: Json, row: Row) -> Result<Json, AllocError>
    ensures { IfOk result (λ made. made ≡ upgraded_at value row) }
{
    match value {
        Json::List(items) => Ok(Json::List(upgrade_items(alloc, items, row.item())?)),
        Json::Map(members) => Ok(Json::Map(upgrade_map(alloc, members, row)?)),
        scalar => Ok(scalar),
    }
}

// What the items of a list become, at each of which that stands.
#[cycle(upgrade)]
fn upgrade_items(alloc: Global, items: JsonList, row: Row) -> Result<JsonList, AllocError>
    ensures { IfOk result (λ made. made ≡ items_at row items) }
{
    match row {
        Row::Kept => Ok(items),
        _ => each_item(alloc, items, row),
    }
}

#[cycle(upgrade)]
fn each_item(alloc: Global, items: JsonList, row: Row) -> Result<JsonList, AllocError>
    ensures { IfOk result (λ made. made ≡ items_at row items) }
{
    let mut list = items.into_vec(alloc)?;
    for index in 0..list.len() {
        let item = &mut list[index];
        let value = mem::replace(&mut *item, Json::Null);
        *item = upgrade_at(alloc, value, row)?;
    }
    JsonList::of(alloc, list)
}

// What an object's members become at a place.
#[cycle(upgrade)]
fn upgrade_map(
    alloc: Global,
    members: Owned<Members>,
    row: Row,
) -> Result<Owned<Members>, AllocError>
    ensures { IfOk result (λ made. made ≡ map_at row members) }
{
    match row {
        Row::Object => Owned::of(alloc, upgrade_object(alloc, members.into_inner())?),
        Row::Media => {
            let made = each_member(alloc, members.into_inner(), Row::Media, Form::Other)?;
            Owned::of(alloc, made)
        }
        Row::Kept | Row::Objects => Ok(members),
    }
}

#[cycle(upgrade)]
fn upgrade_object(alloc: Global, members: Members) -> Result<Members, AllocError>
    ensures { IfOk result (λ made. made ≡ map_at Object members) }
{
    let schema = schema_of(&members);
    let inside = each_member(alloc, members, Row::Object, schema)?;
    renew(alloc, inside, schema)
}

// What the values of an object's members become, by the object's schema.
#[cycle(upgrade)]
fn each_member(
    alloc: Global,
    members: Members,
    row: Row,
    schema: Form,
) -> Result<Members, AllocError>
    ensures { IfOk result (λ made. made ≡ pairs_at row schema members) }
{
    let mut pairs = members.into_vec();
    for index in 0..pairs.len() {
        let pair = &mut pairs[index];
        let inner = row.member(schema, pair.0.as_str());
        let value = mem::replace(&mut pair.1, Json::Null);
        pair.1 = upgrade_at(alloc, value, inner)?;
    }
    Ok(NamedValues::of(pairs))
}
