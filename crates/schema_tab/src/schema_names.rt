//! The schema that an object names, and its members by name.

ghost use Rattle.std.specs.Prelude.{◌≡◌, ◌≢◌, ◌<◌, ◌≤◌, ◌∷◌, ◌++◌, ℕ, List, length, slice_index, not, ◌||◌, MatchOption, IfOk, Some, None, map};
ghost use Rattle.std.specs.Str.Parse.{AllDigits, digits_value};
ghost use Rattle.std.specs.Str.{bytes_eq};
ghost use Rattle.json_value.specs.declared.Json.{Json};
ghost use Rattle.schema_rows.specs.Rows.{row_of};
ghost use Rattle.schema_rows.specs.Schemas.{IsSchemaText, IsObjectOf, rows_of, schema_key};
ghost use Rattle.schema_rows.specs.Families.{IsAbsent, IsGiven};
ghost use Rattle.schema_rows.specs.Families as families;

use json_value::{Json, Members, copy_json};
use schema_rows::{Field, Schema};
use sequences::{NamedValues, Text};
use std::alloc::{AllocError, Global};
use tick_time::are_digits;

/// An object with the name and version of its schema.
#[derive(Clone, Copy)]
pub struct Found<'a> {
    /// All members of the object, `OTIO_SCHEMA` among them.
    pub members: &'a Members,
    /// The schema's name, without its version.
    pub name: &'a str,
    /// The schema's version.
    pub version: u32,
}

// The parts of a text before and after its first point; none where it has no point.
fn around_point(text: &str) -> Option<(&str, &str)>
    ensures { MatchOption result ((i : ℕ) → i < length text.now → slice_index text.now i ≢ 46)
        (λ parts. (text.now ≡ parts.0.now ++ (46 ∷ parts.1.now))
        × ((i : ℕ) → i < length parts.0.now → slice_index parts.0.now i ≢ 46)) }
{
    text.split_once('.')
}

// The number of at most 9 digits.
fn number_of(digits: &[u8]) -> u32
    requires digits { AllDigits 10 digits.now }
    requires few { length digits.now ≤ 9 }
    ensures { result ≡ digits_value 10 digits.now }
{
    let mut number: u32 = 0;
    for digit in digits {
        number = number * 10 + u32::from(*digit - b'0');
    }
    number
}

// The name and the version that a text gives: a name without points, a point and 1 to 9 digits.
fn schema_parts(text: &str) -> Option<(&str, u32)>
    ensures { MatchOption result ((name : List ℕ) (version : ℕ) →
        IsSchemaText text.now name version → ⊥)
        (λ parts. IsSchemaText text.now parts.0.now parts.1) }
{
    let (name, digits) = around_point(text)?;
    if name.is_empty() {
        return None;
    }
    if digits.is_empty() {
        return None;
    }
    if digits.len() > 9 {
        return None;
    }
    if !are_digits(digits.as_bytes()) {
        return None;
    }
    Some((name, number_of(digits.as_bytes())))
}

/// The object that a value is, with the name and version of its schema. None exactly where the
/// value is no object, or its `OTIO_SCHEMA` isn't a name without points, a point and a version of 1
/// to 9 digits.
pub fn found_object(value: &Json) -> Option<Found<'_>>
    ensures { MatchOption result ((members : List (List ℕ × Json)) (name : List ℕ) (version : ℕ) →
        IsObjectOf value.now members name version → ⊥)
        (λ found. IsObjectOf value.now found.members.now found.name.now found.version) }
{
    let Json::Map(object) = value else {
        return None;
    };
    let members = object.get();
    match members.get("OTIO_SCHEMA")? {
        Json::Str(text) => {
            let (name, version) = schema_parts(text.as_str())?;
            Some(Found {
                members,
                name,
                version,
            })
        }
        _ => None,
    }
}

/// The member of that name; none where it is null, which counts as absent.
pub fn given<'a>(members: &'a Members, name: &str) -> Option<&'a Json>
    ensures { MatchOption result (IsAbsent name.now members.now) (λ member.
        IsGiven name.now members.now member.now) }
{
    match members.get(name)? {
        Json::Null => None,
        member => Some(member),
    }
}

// Whether a name is that of a row.
fn has_row(rows: &[Field], name: &str) -> bool
    ensures { result ≡ families.is_row (map row_of rows.now) name.now }
{
    for row in rows {
        if name == row.name {
            return true;
        }
    }
    false
}

// Whether a schema's table has a row of that name.
fn is_row(schema: Schema, name: &str) -> bool
    ensures { result ≡ families.is_row (rows_of schema) name.now }
{
    has_row(schema.table(), name)
}

// Whether a member is kept next to the rows.
fn is_other(schema: Schema, name: &str) -> bool
    ensures { result
        ≡ not (bytes_eq name.now schema_key || families.is_row (rows_of schema) name.now) }
{
    !(name == "OTIO_SCHEMA" || is_row(schema, name))
}

/// The members that a schema's table has no row for, in order, without `OTIO_SCHEMA`. An error
/// comes where memory runs out.
pub fn others(alloc: Global, schema: Schema, members: &Members) -> Result<Members, AllocError>
    ensures { IfOk result (λ rest. rest ≡ families.others (rows_of schema) members.now) }
{
    let mut rest = Vec::new(alloc);
    for member in members.as_slice() {
        if is_other(schema, member.0.as_str()) {
            let name = Text::of(alloc, member.0.as_str())?;
            let value = copy_json(alloc, &member.1)?;
            rest.push((name, value))?;
        }
    }
    Ok(NamedValues::of(rest))
}
