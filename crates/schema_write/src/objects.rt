//! What may stand at the root of a file.

ghost use Rattle.std.specs.Prelude.{◌≡◌, IfErr, IfOk, map};
ghost use Rattle.schema_write.specs.Objects as objects;
ghost use Rattle.schema_write.specs.Styles.{style_of};
ghost use Rattle.schema_write.specs.OldForms.{HasOldForm, IsOldFault};

use crate::families::Family;
use crate::items::{item_json, stack_json};
use crate::old_faults::FamilyFault;
use crate::old_forms::old_form;
use crate::times::offset_json;
use crate::writing::{add, named, written};
use json_value::{Json, JsonList};
use otio_model::{Collection, Object, Objects, Timeline};
use schema_rows::Schema;
use std::alloc::{AllocError, Global};

/// The object in JSON (OpenTimelineIO's schema pages): `OTIO_SCHEMA` with the name and the version
/// of its table, the rows of the table from left to right, and then all its other members in their
/// order. A member of `rest` that has the name of a row or `OTIO_SCHEMA` is left out.
///
/// Times and ranges that are absent are null, kept values stand word for word, and a FreezeFrame's
/// speed is `0.0` whatever its field holds. An error comes where memory runs out.
pub fn json_of(alloc: Global, object: &Object) -> Result<Json, AllocError>
    ensures { IfOk result (λ json. json ≡ objects.json_of object.now) }
{
    object_json(alloc, object, Family::New)
}

/// The object in JSON in the older family (OpenTimelineIO's schema pages): as [`json_of`] has it,
/// but with each clip as `Clip.1`, its one reference under `media_reference` in place of its
/// references and active key, and each known marker as `Marker.1`, its range under `range`.
///
/// # Errors
/// [`FamilyFault::Keys`] or [`FamilyFault::Member`] at the first item, in document order, that has
/// no form there, `Keys` before `Member` at one item. [`FamilyFault::Memory`] where memory runs
/// out.
pub fn json_of_old(alloc: Global, object: &Object) -> Result<Json, FamilyFault>
    ensures json { IfOk result (λ json. json ≡ objects.old_json_of object.now) }
    ensures form { IfOk result (λ _. HasOldForm object.now) }
    ensures fault { IfErr result (IsOldFault object.now) }
{
    match old_form(alloc, object) {
        Ok(()) => match object_json(alloc, object, Family::Old) {
            Ok(json) => Ok(json),
            Err(_) => Err(FamilyFault::Memory),
        },
        Err(fault) => Err(fault),
    }
}

// The object in JSON in a family.
#[cycle(object)]
fn object_json(alloc: Global, object: &Object, family: Family) -> Result<Json, AllocError>
    ensures { IfOk result (λ json. json ≡ objects.object_in (style_of family) object.now) }
{
    match object {
        Object::Timeline(timeline) => timeline_json(alloc, timeline, family),
        Object::Collection(collection) => collection_json(alloc, collection, family),
        Object::Item(item) => item_json(alloc, item, family),
    }
}

#[cycle(object)]
fn collection_json(
    alloc: Global,
    collection: &Collection,
    family: Family,
) -> Result<Json, AllocError>
    ensures { IfOk result (λ json.
        json ≡ objects.collection_in (style_of family) collection.now) }
{
    let mut values = named(alloc, &collection.metadata, &collection.name, 3)?;
    values.push(Json::List(objects_json(alloc, &collection.children, family)?))?;
    written(alloc, Schema::Collection, values, &collection.rest)
}

// The objects of a collection, in order.
#[cycle(object)]
fn objects_json(alloc: Global, inside: &Objects, family: Family) -> Result<JsonList, AllocError>
    ensures { IfOk result (λ made.
        made ≡ map (objects.object_in (style_of family)) inside.now) }
{
    let list = inside.as_slice();
    let mut values = Vec::with_capacity(alloc, list.len())?;
    'objects: for inner in list {
        values.push(object_json(alloc, inner, family)?)?;
    }
    JsonList::of(alloc, values)
}

fn timeline_json(alloc: Global, timeline: &Timeline, family: Family) -> Result<Json, AllocError>
    ensures { IfOk result (λ json. json ≡ objects.timeline_in (style_of family) timeline.now) }
{
    let mut values = named(alloc, &timeline.metadata, &timeline.name, 4)?;
    add(&mut values, offset_json(alloc, timeline.global_start_time))?;
    add(&mut values, stack_json(alloc, &timeline.tracks, family))?;
    written(alloc, Schema::Timeline, values, &timeline.rest)
}
