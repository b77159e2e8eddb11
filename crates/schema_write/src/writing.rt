//! An object of a schema in the written order.

ghost use Rattle.std.specs.Prelude.{◌≡◌, ◌<◌, ◌≤◌, ◌++◌, ◌∷◌, [], ◌||◌, length, map, IfOk, IsOkAnd, OnOk, Some, option_map, slice_get};
ghost use Rattle.std.specs.Str.{bytes_eq};
ghost use Rattle.json_value.specs.declared.Json.{Str, Map};
ghost use Rattle.sequences.specs.Pairs.{names_of, AreDistinct};
ghost use Rattle.schema_rows.specs.Rows.{row_of};
ghost use Rattle.schema_rows.specs.Schemas.{rows_of, schema_key};
ghost use Rattle.schema_rows.specs.Families.{is_row, others};
ghost use Rattle.schema_write.specs.Written as order;
ghost use Rattle.schema_write.specs.Written.{name_of};

use crate::families::newer;
use json_value::{Json, Members, copy_json, copy_members};
use owned::Owned;
use schema_rows::{Field, Schema};
use sequences::{NamedValues, Text};
use std::alloc::{AllocError, Global};
use std::mem;

/// A string of the characters of a text.
pub fn string(alloc: Global, text: &Text) -> Result<Json, AllocError>
    ensures { IfOk result (λ json. json ≡ Str text.now) }
{
    Ok(Json::Str(Text::of(alloc, text.as_str())?))
}

// An object that is kept as it is.
fn object(alloc: Global, members: &Members) -> Result<Json, AllocError>
    ensures { IfOk result (λ json. json ≡ Map members.now) }
{
    let copy = copy_members(alloc, members)?;
    Ok(Json::Map(Owned::of(alloc, copy)?))
}

/// The values of the first rows of each schema, metadata and name, with room for so many in all.
pub fn named(
    alloc: Global,
    metadata: &Members,
    name: &Text,
    room: usize,
) -> Result<Vec<Json>, AllocError>
    ensures { IfOk result (λ values. values.items ≡ Map metadata.now ∷ Str name.now ∷ []) }
{
    let mut values = Vec::with_capacity(alloc, room)?;
    add(&mut values, object(alloc, metadata))?;
    add(&mut values, string(alloc, name))?;
    Ok(values)
}

/// Adds a value, once that is made.
pub fn add(values: &mut Vec<Json>, made: Result<Json, AllocError>) -> Result<(), AllocError>
    ensures { OnOk result (IsOkAnd made (λ value.
        values.new.items ≡ values.old.items ++ value ∷ [])) }
{
    values.push(made?)?;
    Ok(())
}

/// An object of a schema by its table: the schema, a value for each row, and the other members.
pub fn written(
    alloc: Global,
    schema: Schema,
    values: Vec<Json>,
    rest: &Members,
) -> Result<Json, AllocError>
    requires { length values.items ≡ length (rows_of schema) }
    ensures { IfOk result (λ json. json ≡ order.written schema values.items rest.now) }
{
    let table = schema.table();
    let room = values.len().saturating_add(rest.len()).saturating_add(1);
    let mut pairs = Vec::with_capacity(alloc, room)?;
    let text = Json::Str(Text::of(alloc, schema.text())?);
    pairs.push((Text::of(alloc, "OTIO_SCHEMA")?, text))?;
    put_rows(alloc, &mut pairs, table, values)?;
    put_others(alloc, &mut pairs, table, rest)?;
    Ok(Json::Map(Owned::of(alloc, NamedValues::of(pairs))?))
}

/// An object of an older schema by its table: the schema, a value for each row, and the members
/// that neither its table nor that of the newer schema has a row for.
pub fn written_old(
    alloc: Global,
    schema: Schema,
    values: Vec<Json>,
    rest: &Members,
) -> Result<Json, AllocError>
    requires { length values.items ≡ length (rows_of schema) }
    ensures { IfOk result (λ json. json ≡ order.written_old schema values.items rest.now) }
{
    let rest = other_members(alloc, newer(schema), rest)?;
    let made = written(alloc, schema, values, &rest);
    drop(rest);
    made
}

// The members that a schema's table has no row for.
fn other_members(alloc: Global, schema: Schema, rest: &Members) -> Result<Members, AllocError>
    ensures { IfOk result (λ made. made ≡ others (rows_of schema) rest.now) }
{
    let mut pairs = Vec::with_capacity(alloc, rest.len())?;
    put_others(alloc, &mut pairs, schema.table(), rest)?;
    Ok(NamedValues::of(pairs))
}

// Adds a value for each row of a table.
fn put_rows(
    alloc: Global,
    pairs: &mut Vec<(Text, Json)>,
    table: &[Field],
    values: Vec<Json>,
) -> Result<(), AllocError>
    requires { length values.items ≤ length table.now }
    ensures { OnOk result (pairs.new.items
        ≡ pairs.old.items ++ order.named_values (map row_of table.now) values.items) }
{
    let mut list = values;
    'rows: for index in 0..list.len() {
        let value = mem::replace(&mut list[index], Json::Null);
        pairs.push((Text::of(alloc, name_at(table, index))?, value))?;
    }
    Ok(())
}

// The name of the row at an index.
fn name_at(table: &[Field], index: usize) -> &'static str
    requires { index < length table.now }
    ensures { option_map name_of (slice_get table.now index) ≡ Some result.now }
{
    table[index].name
}

// Adds the members that a table has no row for.
fn put_others(
    alloc: Global,
    pairs: &mut Vec<(Text, Json)>,
    table: &[Field],
    rest: &Members,
) -> Result<(), AllocError>
    ensures added { OnOk result (pairs.new.items
        ≡ pairs.old.items ++ others (map row_of table.now) rest.now) }
    ensures distinct { AreDistinct (names_of rest.now) }
{
    let members = rest.as_slice();
    'members: for member in members {
        if !is_named(table, member.0.as_str()) {
            let name = Text::of(alloc, member.0.as_str())?;
            pairs.push((name, copy_json(alloc, &member.1)?))?;
        }
    }
    Ok(())
}

/// Whether that is the name of the schema's member or of a row.
pub fn is_named(table: &[Field], name: &str) -> bool
    ensures { result ≡ (bytes_eq name.now schema_key || is_row (map row_of table.now) name.now) }
{
    if name == "OTIO_SCHEMA" {
        return true;
    }
    is_row_name(table, name)
}

fn is_row_name(table: &[Field], name: &str) -> bool
    ensures { result ≡ is_row (map row_of table.now) name.now }
{
    'rows: for field in table {
        if name == field.name {
            return true;
        }
    }
    false
}
