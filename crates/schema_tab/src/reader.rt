//! The reader of objects: one loop over the rows of any table, and one over each kind of list.

ghost use Rattle.std.specs.Prelude.{◌≡◌, ◌≢◌, ℕ, List, MatchOption, IfOk, IfErr, map};
ghost use Rattle.json_value.specs.declared.Json.{Json};
ghost use Rattle.json_value.specs.declared.Json.TheVariants as json;
ghost use Rattle.schema_rows.specs.declared.schemas.TheConstants as families;
ghost use Rattle.schema_rows.specs.Rows as rows_are;
ghost use Rattle.schema_rows.specs.Rows.{row_of, kind_of};
ghost use Rattle.schema_rows.specs.Schemas.{IsForeign};
ghost use Rattle.schema_rows.specs.Numerals.{HasNumerals};
ghost use Rattle.schema_rows.specs.Families.{child, member as want_member, medium};
ghost use Rattle.schema_rows.specs.Stands.{Gives, Gives_row, Gives_rows, Gives_fields};
ghost use Rattle.schema_rows.specs.Faults.{Refuses, Refuses_row, Refuses_rows, Refuses_fields, Refuses_any};

use crate::defaults::absent;
use crate::faults::{child_place, field_fault, newer_fault};
use crate::required_values::{
    effect_of, item_of, marker_of, medium_of, medium_row, root_of, tracks_of,
};
use crate::scalars::{flag_of, meta_of, number_of, numeral_of, rate_of, span_of, text_of, time_of};
use crate::schema_names::{found_object, given};
use crate::tables::finished;
use json_value::{Json, JsonList, Members};
use otio_model::{Effects, Markers, MediaMap, Place};
use schema_rows::{
    EFFECTS, Field, ITEMS, Kind, MARKERS, MEDIA, Matched, RANGES, ROOTS, RowResult, STACKS, Schema,
    SchemaFault, TIMES, Value, named,
};
use sequences::{Sequence, Text};
use std::alloc::Global;

/// The values of the rows of a table that an object's members give, in the order of the table; or
/// the first fault of the rows in their order, with all that stands inside them. The value has to
/// be an object, and its numerals those of JSON. `Memory` may come at any point.
pub fn read_fields(
    alloc: Global,
    rows: &[Field],
    value: &Json,
    place: &Place,
) -> Result<Vec<Value>, SchemaFault>
    requires object { (members : List (List ℕ × Json)) × (value.now ≡ json.Map members) }
    requires numerals { HasNumerals value.now }
    ensures values { IfOk result (λ values. (members : List (List ℕ × Json)) →
        value.now ≡ json.Map members → Gives_rows (map row_of rows.now) members values.items) }
    ensures fault { IfErr result (λ fault. fault ≢ SchemaFault.Memory →
        (members : List (List ℕ × Json)) → value.now ≡ json.Map members →
        Refuses_rows place.now (map row_of rows.now) members fault) }
{
    match value {
        Json::Map(members) => read_rows(alloc, rows, members.get(), place),
        _ => unreachable!(),
    }
}

#[cycle(object)]
fn read_rows(
    alloc: Global,
    rows: &[Field],
    members: &Members,
    place: &Place,
) -> Result<Vec<Value>, SchemaFault>
    requires numerals { HasNumerals (json.Map members.now) }
    ensures values { IfOk result (λ values.
        Gives_rows (map row_of rows.now) members.now values.items) }
    ensures fault { IfErr result (λ fault. fault ≢ SchemaFault.Memory →
        Refuses_rows place.now (map row_of rows.now) members.now fault) }
{
    let mut values = Vec::with_capacity(alloc, rows.len())?;
    for row in rows {
        let value = read_row(alloc, row, members, place)?;
        values.push(value)?;
    }
    Ok(values)
}

#[cycle(object)]
fn read_row(alloc: Global, row: &Field, members: &Members, place: &Place) -> RowResult
    requires numerals { HasNumerals (json.Map members.now) }
    ensures value { IfOk result (Gives_row (row_of row.now) members.now) }
    ensures fault { IfErr result (λ fault. fault ≢ SchemaFault.Memory →
        Refuses_row place.now (row_of row.now) members.now fault) }
{
    match given(members, row.name) {
        Some(member) => read_member(alloc, row, member, place),
        None => absent(alloc, row, place),
    }
}

#[cycle(object)]
fn read_member(alloc: Global, row: &Field, value: &Json, place: &Place) -> RowResult
    requires numerals { HasNumerals value.now }
    ensures value { IfOk result (Gives (kind_of row.now.kind) value.now) }
    ensures fault { IfErr result (λ fault. fault ≢ SchemaFault.Memory →
        Refuses place.now (row_of row.now) value.now fault) }
{
    match row.kind {
        Kind::Text(_) => text_of(alloc, row, value, place),
        Kind::Flag => flag_of(alloc, row, value, place),
        Kind::Meta => meta_of(alloc, row, value, place),
        Kind::Number(_) => number_of(alloc, row, value, place),
        Kind::Rate => rate_of(alloc, row, value, place),
        Kind::Numeral => numeral_of(alloc, row, value, place),
        Kind::Span => {
            let found = read_object(alloc, &RANGES, value, place)?;
            span_of(alloc, row, value, place, found)
        }
        Kind::Time => {
            let found = read_object(alloc, &TIMES, value, place)?;
            time_of(alloc, row, value, place, found)
        }
        Kind::Stack => {
            let found = read_object(alloc, &STACKS, value, place)?;
            tracks_of(alloc, value, place, found)
        }
        Kind::Medium => {
            let found = read_object(alloc, &MEDIA, value, place)?;
            medium_row(alloc, value, found)
        }
        Kind::Items => read_items(alloc, list_of(alloc, row, value, place)?, place),
        Kind::Objects => read_objects(alloc, list_of(alloc, row, value, place)?, place),
        Kind::Effects => read_effects(alloc, list_of(alloc, row, value, place)?, place),
        Kind::Markers => read_markers(alloc, list_of(alloc, row, value, place)?, place),
        Kind::Media => match value {
            Json::Map(members) => read_media(alloc, members.get(), place),
            _ => Err(field_fault(alloc, row, place)),
        },
    }
}

// The list that a row's member is; S4 where it is none.
fn list_of<'a>(
    alloc: Global,
    row: &Field,
    value: &'a Json,
    place: &Place,
) -> Result<&'a JsonList, SchemaFault>
    ensures list { IfOk result (λ list. value.now ≡ json.List list.now) }
    ensures fault { IfErr result (λ fault. fault ≢ SchemaFault.Memory →
        ((list : List Json) → value.now ≡ json.List list → ⊥)
        × (fault ≡ SchemaFault.Field place.now row.now.name.now)) }
{
    match value {
        Json::List(list) => Ok(list),
        _ => Err(field_fault(alloc, row, place)),
    }
}

#[cycle(object)]
fn read_items(alloc: Global, list: &JsonList, place: &Place) -> RowResult
    requires numerals { HasNumerals (json.List list.now) }
    ensures value { IfOk result (Gives rows_are.items (json.List list.now)) }
    ensures fault { IfErr result (λ fault. fault ≢ SchemaFault.Memory →
        Refuses_any (child families.ITEMS) place.now 0 list.now fault) }
{
    let values = list.as_slice();
    let mut items = Vec::with_capacity(alloc, values.len())?;
    for (index, value) in values.iter().enumerate() {
        let here = child_place(alloc, place, index)?;
        let found = read_object(alloc, &ITEMS, value, &here)?;
        let item = item_of(alloc, value, &here, found)?;
        items.push(item)?;
    }
    Ok(Value::Items(Sequence::of(items)))
}

#[cycle(object)]
fn read_objects(alloc: Global, list: &JsonList, place: &Place) -> RowResult
    requires numerals { HasNumerals (json.List list.now) }
    ensures value { IfOk result (Gives rows_are.objects (json.List list.now)) }
    ensures fault { IfErr result (λ fault. fault ≢ SchemaFault.Memory →
        Refuses_any (child families.ROOTS) place.now 0 list.now fault) }
{
    let values = list.as_slice();
    let mut objects = Vec::with_capacity(alloc, values.len())?;
    for (index, value) in values.iter().enumerate() {
        let here = child_place(alloc, place, index)?;
        let found = read_object(alloc, &ROOTS, value, &here)?;
        let object = root_of(alloc, value, &here, found)?;
        objects.push(object)?;
    }
    Ok(Value::Objects(Sequence::of(objects)))
}

#[cycle(object)]
fn read_effects(alloc: Global, list: &JsonList, place: &Place) -> RowResult
    requires numerals { HasNumerals (json.List list.now) }
    ensures value { IfOk result (Gives rows_are.effects (json.List list.now)) }
    ensures fault { IfErr result (λ fault. fault ≢ SchemaFault.Memory →
        Refuses_any (want_member families.EFFECTS) place.now 0 list.now fault) }
{
    let values = list.as_slice();
    let mut effects = Vec::with_capacity(alloc, values.len())?;
    for value in values {
        let found = read_object(alloc, &EFFECTS, value, place)?;
        let effect = effect_of(alloc, value, found)?;
        effects.push(effect)?;
    }
    Ok(Value::Effects(Effects::of(effects)))
}

#[cycle(object)]
fn read_markers(alloc: Global, list: &JsonList, place: &Place) -> RowResult
    requires numerals { HasNumerals (json.List list.now) }
    ensures value { IfOk result (Gives rows_are.markers (json.List list.now)) }
    ensures fault { IfErr result (λ fault. fault ≢ SchemaFault.Memory →
        Refuses_any (want_member families.MARKERS) place.now 0 list.now fault) }
{
    let values = list.as_slice();
    let mut markers = Vec::with_capacity(alloc, values.len())?;
    for value in values {
        let found = read_object(alloc, &MARKERS, value, place)?;
        let marker = marker_of(alloc, value, found)?;
        markers.push(marker)?;
    }
    Ok(Value::Markers(Markers::of(markers)))
}

#[cycle(object)]
fn read_media(alloc: Global, members: &Members, place: &Place) -> RowResult
    requires numerals { HasNumerals (json.Map members.now) }
    ensures value { IfOk result (Gives rows_are.media (json.Map members.now)) }
    ensures fault { IfErr result (λ fault. fault ≢ SchemaFault.Memory →
        Refuses_any medium place.now 0 (map (λ member. member.1) members.now) fault) }
{
    let pairs = members.as_slice();
    let mut media = Vec::with_capacity(alloc, pairs.len())?;
    for pair in pairs {
        let key = Text::of(alloc, pair.0.as_str())?;
        let found = read_object(alloc, &MEDIA, &pair.1, place)?;
        let reference = medium_of(alloc, &pair.1, found)?;
        media.push((key, reference))?;
    }
    Ok(Value::Media(MediaMap::of(media)))
}

/// The fields of an object of one of the schemas; none where the value is no such object.
#[cycle(object)]
pub(crate) fn read_object(
    alloc: Global,
    family: &[Schema],
    value: &Json,
    place: &Place,
) -> Result<Matched, SchemaFault>
    requires numerals { HasNumerals value.now }
    ensures fields { IfOk result (λ found.
        MatchOption found (IsForeign family.now value.now) (Gives_fields family.now value.now)) }
    ensures fault { IfErr result (λ fault. fault ≢ SchemaFault.Memory →
        Refuses_fields place.now family.now value.now fault) }
{
    match found_object(value) {
        Some(found) => match named(family, found.name) {
            Some(schema) => {
                if found.version > schema.version() {
                    return Err(newer_fault(alloc, place));
                }
                let values = read_rows(alloc, schema.table(), found.members, place)?;
                finished(alloc, schema, values, found.members, place)
            }
            None => Ok(None),
        },
        None => Ok(None),
    }
}
