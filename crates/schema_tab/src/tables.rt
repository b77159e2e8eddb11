//! An object's fields once its rows are read.

ghost use Rattle.std.specs.Prelude.{◌≡◌, ◌≢◌, true, false, map, Some, IfOk, IfErr};
ghost use Rattle.std.specs.List.{list_any};
ghost use Rattle.schema_rows.specs.declared.values.Fields.{Fields};
ghost use Rattle.schema_rows.specs.Schemas.{rows_of};
ghost use Rattle.schema_rows.specs.Families as families;

use crate::faults::transitions_fault;
use crate::rules::{breaks, still};
use crate::schema_names::others;
use json_value::Members;
use otio_model::Place;
use schema_rows::{Fields, Matched, Schema, SchemaFault, Value};
use sequences::Sequence;
use std::alloc::Global;

/// The fields of an object from the values of its rows; `Transitions` where they break a rule on
/// transitions.
pub(crate) fn finished(
    alloc: Global,
    schema: Schema,
    values: Vec<Value>,
    members: &Members,
    place: &Place,
) -> Result<Matched, SchemaFault>
    ensures fields { IfOk result (λ found. (fields : Fields) × (found ≡ Some fields)
        × (list_any (families.breaks schema) values.items ≡ false)
        × (fields.schema ≡ schema) × (fields.values ≡ map (families.stilled schema) values.items)
        × (fields.rest ≡ families.others (rows_of schema) members.now)) }
    ensures fault { IfErr result (λ fault. fault ≢ SchemaFault.Memory →
        (list_any (families.breaks schema) values.items ≡ true)
        × (fault ≡ SchemaFault.Transitions place.now)) }
{
    if breaks(schema, values.as_slice()) {
        return Err(transitions_fault(alloc, place));
    }
    let values = still(alloc, schema, values)?;
    let rest = others(alloc, schema, members)?;
    Ok(Some(Fields {
        schema,
        values: Sequence::of(values),
        rest,
    }))
}
