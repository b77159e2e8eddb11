//! Values of lists and under keys, by what is asked of them.

ghost use Rattle.std.specs.Prelude.{◌≡◌, ◌≢◌, List, MatchOption, IfOk, IfErr};
ghost use Rattle.json_value.specs.declared.Json.{Json};
ghost use Rattle.json_value.specs.declared.Json.TheVariants as json;
ghost use Rattle.schema_rows.specs.declared.schemas.Schema.{Schema};
ghost use Rattle.schema_rows.specs.declared.schemas.TheConstants as families;
ghost use Rattle.schema_rows.specs.Rows as rows;
ghost use Rattle.schema_rows.specs.Readings as readings;
ghost use Rattle.schema_rows.specs.Defaults as defaults;
ghost use Rattle.schema_rows.specs.Schemas.{IsForeign, rows_of};
ghost use Rattle.schema_tab.specs.Shapes.{HaveKinds, IsAmong};
ghost use Rattle.schema_rows.specs.Families.{child, member as want_member, medium};
ghost use Rattle.schema_rows.specs.Stands.{Gives, Gives_fields, Gives_reading};
ghost use Rattle.schema_rows.specs.Faults.{Refuses_reading};

use crate::builders::{
    clip_of, collection_of, external_of, freeze_of, gap_of, generator_of, images_of, mark_of,
    missing_of, plain_of, stack_of, timeline_of, track_of, transition_of, warp_of,
};
use crate::faults::{not_object_fault, unknown_fault};
use crate::schema_names::found_object;
use json_value::{Json, copy_json};
use otio_model::{Effect, Item, ItemOf, Marker, Media, Missing, Object, Place, Stack};
use owned::Owned;
use schema_rows::{Fields, Matched, RowResult, Schema, SchemaFault, Value};
use sequences::{NamedValues, Text};
use std::alloc::{AllocError, Global};

// S1 or S2: what a child is that is no object of the schemas that may stand there.
fn stranger_fault(alloc: Global, value: &Json, place: &Place) -> SchemaFault
    ensures { result ≢ SchemaFault.Memory → (family : List Schema) → IsForeign family value.now →
        Refuses_reading (child family) place.now value.now result }
{
    match found_object(value) {
        Some(_) => unknown_fault(alloc, place),
        None => not_object_fault(alloc, place),
    }
}

#[tactic(auto, using(crate::proofs::Asking::fields_are))]
fn item_from(alloc: Global, fields: Fields) -> Result<Item, SchemaFault>
    requires family { IsAmong families.ITEMS fields.schema }
    requires kinds { HaveKinds (rows_of fields.schema) fields.values }
    ensures made { IfOk result (λ item. readings.item_fields item ≡ fields) }
    ensures memory { IfErr result (λ fault. fault ≡ SchemaFault.Memory) }
{
    match fields.schema {
        Schema::Clip => match clip_of(alloc, fields) {
            Ok(clip) => Ok(ItemOf::Clip(clip)),
            Err(_) => Err(SchemaFault::Memory),
        },
        Schema::Gap => Ok(ItemOf::Gap(gap_of(fields))),
        Schema::Transition => Ok(ItemOf::Transition(transition_of(fields))),
        Schema::Stack => match stack_of(alloc, fields) {
            Ok(stack) => Ok(ItemOf::Stack(stack)),
            Err(_) => Err(SchemaFault::Memory),
        },
        // Of the items' schemas, tracks' alone is left.
        _ => match track_of(alloc, fields) {
            Ok(track) => Ok(ItemOf::Track(track)),
            Err(_) => Err(SchemaFault::Memory),
        },
    }
}

#[tactic(auto, using(crate::proofs::Asking::fields_are))]
fn object_from(alloc: Global, fields: Fields) -> Result<Object, SchemaFault>
    requires family { IsAmong families.ROOTS fields.schema }
    requires kinds { HaveKinds (rows_of fields.schema) fields.values }
    ensures made { IfOk result (λ object. readings.object_fields object ≡ fields) }
    ensures memory { IfErr result (λ fault. fault ≡ SchemaFault.Memory) }
{
    match fields.schema {
        Schema::Timeline => Ok(Object::Timeline(timeline_of(alloc, fields))),
        Schema::Collection => Ok(Object::Collection(collection_of(fields))),
        _ => match item_from(alloc, fields) {
            Ok(item) => Ok(Object::Item(item)),
            Err(fault) => Err(fault),
        },
    }
}

#[tactic(auto, using(crate::proofs::Asking::known_are))]
fn effect_from(alloc: Global, fields: Fields) -> Result<Effect, AllocError>
    requires family { IsAmong families.EFFECTS fields.schema }
    requires kinds { HaveKinds (rows_of fields.schema) fields.values }
    ensures { IfOk result (λ effect. readings.effect_reading effect ≡ readings.known fields) }
{
    match fields.schema {
        Schema::Warp => Ok(Effect::Warp(Owned::of(alloc, warp_of(fields))?)),
        Schema::Freeze => Ok(Effect::Freeze(Owned::of(alloc, freeze_of(fields))?)),
        Schema::TimeEffect => Ok(Effect::Plain(Owned::of(alloc, plain_of(fields, true))?)),
        // Of the effects' schemas, `Effect` alone is left.
        _ => Ok(Effect::Plain(Owned::of(alloc, plain_of(fields, false))?)),
    }
}

#[tactic(auto, using(crate::proofs::Asking::known_are))]
fn marker_from(alloc: Global, fields: Fields) -> Result<Marker, AllocError>
    requires family { IsAmong families.MARKERS fields.schema }
    requires kinds { HaveKinds (rows_of fields.schema) fields.values }
    ensures { IfOk result (λ marker. readings.marker_reading marker ≡ readings.known fields) }
{
    Ok(Marker::Known(Owned::of(alloc, mark_of(fields))?))
}

#[tactic(auto, using(crate::proofs::Asking::known_are))]
fn medium_from(fields: Fields) -> Media
    requires family { IsAmong families.MEDIA fields.schema }
    requires kinds { HaveKinds (rows_of fields.schema) fields.values }
    ensures { readings.medium_reading result ≡ readings.known fields }
{
    match fields.schema {
        Schema::External => Media::External(external_of(fields)),
        Schema::Missing => Media::Missing(missing_of(fields)),
        Schema::Generator => Media::Generator(generator_of(fields)),
        // Of the references' schemas, image sequences' alone is left.
        _ => Media::Sequence(images_of(fields)),
    }
}

/// An item of a list; S1 or S2 where the value is none, `Memory` where memory runs out. `found` has
/// to be the value's fields as an object of `ITEMS`, none where it is no such object.
pub fn item_of(
    alloc: Global,
    value: &Json,
    place: &Place,
    found: Matched,
) -> Result<Item, SchemaFault>
    requires found { MatchOption found (IsForeign families.ITEMS value.now)
        (Gives_fields families.ITEMS value.now) }
    ensures value { IfOk result (λ item.
        Gives_reading (child families.ITEMS) value.now
        (readings.known (readings.item_fields item))) }
    ensures fault { IfErr result (λ fault. fault ≢ SchemaFault.Memory →
        Refuses_reading (child families.ITEMS) place.now value.now fault) }
{
    match found {
        Some(fields) => item_from(alloc, fields),
        None => Err(stranger_fault(alloc, value, place)),
    }
}

/// An object of a collection, or the root; S1 or S2 where the value is none, `Memory` where memory
/// runs out. `found` has to be the value's fields as an object of `ROOTS`, none where it is no such
/// object.
pub fn root_of(
    alloc: Global,
    value: &Json,
    place: &Place,
    found: Matched,
) -> Result<Object, SchemaFault>
    requires found { MatchOption found (IsForeign families.ROOTS value.now)
        (Gives_fields families.ROOTS value.now) }
    ensures value { IfOk result (λ object.
        Gives_reading (child families.ROOTS) value.now
        (readings.known (readings.object_fields object))) }
    ensures fault { IfErr result (λ fault. fault ≢ SchemaFault.Memory →
        Refuses_reading (child families.ROOTS) place.now value.now fault) }
{
    match found {
        Some(fields) => object_from(alloc, fields),
        None => Err(stranger_fault(alloc, value, place)),
    }
}

// The stack of these fields, in memory of its own.
fn owned_stack(alloc: Global, fields: Fields) -> Result<Owned<Stack>, AllocError>
    requires { HaveKinds rows.stack_rows fields.values }
    ensures values { IfOk result (λ made. (readings.stack_fields made).values ≡ fields.values) }
    ensures rest { IfOk result (λ made. (readings.stack_fields made).rest ≡ fields.rest) }
{
    Owned::of(alloc, stack_of(alloc, fields)?)
}

/// The root stack of a timeline; S1 or S2 where the value is none, `Memory` where memory runs out.
/// `found` has to be the value's fields as an object of `STACKS`, none where it is no such object.
pub fn tracks_of(alloc: Global, value: &Json, place: &Place, found: Matched) -> RowResult
    requires found { MatchOption found (IsForeign families.STACKS value.now)
        (Gives_fields families.STACKS value.now) }
    ensures value { IfOk result (Gives rows.stack value.now) }
    ensures fault { IfErr result (λ fault. fault ≢ SchemaFault.Memory →
        Refuses_reading (child families.STACKS) place.now value.now fault) }
{
    match found {
        Some(fields) => match owned_stack(alloc, fields) {
            Ok(stack) => Ok(Value::Stack(stack)),
            Err(_) => Err(SchemaFault::Memory),
        },
        None => Err(stranger_fault(alloc, value, place)),
    }
}

/// An effect, or the value kept word for word. The one error is `Memory`, where memory runs out.
/// `found` has to be the value's fields as an object of `EFFECTS`, none where it is no such object.
pub fn effect_of(alloc: Global, value: &Json, found: Matched) -> Result<Effect, SchemaFault>
    requires found { MatchOption found (IsForeign families.EFFECTS value.now)
        (Gives_fields families.EFFECTS value.now) }
    ensures value { IfOk result (λ effect.
        Gives_reading (want_member families.EFFECTS) value.now (readings.effect_reading effect)) }
    ensures memory { IfErr result (λ fault. fault ≡ SchemaFault.Memory) }
{
    match found {
        Some(fields) => match effect_from(alloc, fields) {
            Ok(effect) => Ok(effect),
            Err(_) => Err(SchemaFault::Memory),
        },
        None => match copy_json(alloc, value) {
            Ok(copy) => Ok(Effect::Kept(copy)),
            Err(_) => Err(SchemaFault::Memory),
        },
    }
}

/// A marker, or the value kept word for word. The one error is `Memory`, where memory runs out.
/// `found` has to be the value's fields as an object of `MARKERS`, none where it is no such object.
pub fn marker_of(alloc: Global, value: &Json, found: Matched) -> Result<Marker, SchemaFault>
    requires found { MatchOption found (IsForeign families.MARKERS value.now)
        (Gives_fields families.MARKERS value.now) }
    ensures value { IfOk result (λ marker.
        Gives_reading (want_member families.MARKERS) value.now (readings.marker_reading marker)) }
    ensures memory { IfErr result (λ fault. fault ≡ SchemaFault.Memory) }
{
    match found {
        Some(fields) => match marker_from(alloc, fields) {
            Ok(marker) => Ok(marker),
            Err(_) => Err(SchemaFault::Memory),
        },
        None => match copy_json(alloc, value) {
            Ok(copy) => Ok(Marker::Kept(copy)),
            Err(_) => Err(SchemaFault::Memory),
        },
    }
}

/// The media reference that null means, and an absent member.
pub fn empty_missing(alloc: Global) -> Result<Missing, AllocError>
    ensures { IfOk result (λ missing. missing ≡ defaults.empty_missing) }
{
    let name = Text::of(alloc, "")?;
    Ok(Missing {
        metadata: NamedValues::new(alloc),
        name,
        available_range: None,
        rest: NamedValues::new(alloc),
    })
}

// A media reference that is not null, or the value kept word for word.
fn reference_of(alloc: Global, value: &Json, found: Matched) -> Result<Media, SchemaFault>
    requires found { MatchOption found (IsForeign families.MEDIA value.now)
        (Gives_fields families.MEDIA value.now) }
    requires some { value.now ≢ json.Null }
    ensures value { IfOk result (λ reference.
        Gives_reading medium value.now (readings.medium_reading reference)) }
    ensures memory { IfErr result (λ fault. fault ≡ SchemaFault.Memory) }
{
    match found {
        Some(fields) => Ok(medium_from(fields)),
        None => match copy_json(alloc, value) {
            Ok(copy) => Ok(Media::Kept(copy)),
            Err(_) => Err(SchemaFault::Memory),
        },
    }
}

/// A media reference, or the value kept word for word. Null means a missing reference. The one
/// error is `Memory`, where memory runs out. `found` has to be the value's fields as an object of
/// `MEDIA`, none where it is no such object.
pub fn medium_of(alloc: Global, value: &Json, found: Matched) -> Result<Media, SchemaFault>
    requires found { MatchOption found (IsForeign families.MEDIA value.now)
        (Gives_fields families.MEDIA value.now) }
    ensures value { IfOk result (λ reference.
        Gives_reading medium value.now (readings.medium_reading reference)) }
    ensures memory { IfErr result (λ fault. fault ≡ SchemaFault.Memory) }
{
    match value {
        Json::Null => match empty_missing(alloc) {
            Ok(missing) => Ok(Media::Missing(missing)),
            Err(_) => Err(SchemaFault::Memory),
        },
        _ => reference_of(alloc, value, found),
    }
}

/// The one media reference of a row. The one error is `Memory`, where memory runs out. `found` has
/// to be the value's fields as an object of `MEDIA`, none where it is no such object.
pub fn medium_row(alloc: Global, value: &Json, found: Matched) -> RowResult
    requires found { MatchOption found (IsForeign families.MEDIA value.now)
        (Gives_fields families.MEDIA value.now) }
    ensures value { IfOk result (Gives rows.medium value.now) }
    ensures memory { IfErr result (λ fault. fault ≡ SchemaFault.Memory) }
{
    match medium_of(alloc, value, found) {
        Ok(reference) => match Owned::of(alloc, reference) {
            Ok(owned) => Ok(Value::Medium(owned)),
            Err(_) => Err(SchemaFault::Memory),
        },
        Err(fault) => Err(fault),
    }
}
