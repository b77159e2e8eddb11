//! Whole values.

ghost use Rattle.std.specs.Prelude.{◌≢◌, ◌≤◌, IfOk, IfErr};
ghost use Rattle.limits.specs.Limits.{most_items};
ghost use Rattle.schema_rows.specs.Numerals.{HasNumerals};
ghost use Rattle.schema_rows.specs.Counts.{count_of};
ghost use Rattle.schema_rows.specs.Stands.{Stands};
ghost use Rattle.schema_rows.specs.Faults.{IsFirstFault};

use crate::counts::left_after;
use crate::reader::read_object;
use crate::required_values::root_of;
use json_value::Json;
use limits::MOST_ITEMS;
use otio_model::{Object, Place};
use schema_rows::{ROOTS, SchemaFault};
use std::alloc::Global;

/// The object that a value represents by the tables of the schemas, or the value's first fault.
/// Each numeral in the value is one of JSON (RFC 8259). No old names or versions are rewritten
/// here.
///
/// The root may be a timeline, a collection or an item. The first fault is that of an object's
/// schema (`NotObject`, `UnknownChild`, `Newer`), then that of its rows in the order of its table
/// with all that stands inside them, then `Transitions`; `Items` comes last. `Memory` comes where
/// memory runs out.
pub fn object_of(alloc: Global, value: &Json) -> Result<Object, SchemaFault>
    requires { HasNumerals value.now }
    ensures stands { IfOk result (Stands value.now) }
    ensures few { IfOk result (λ object. count_of object ≤ most_items) }
    ensures fault { IfErr result (λ fault. fault ≢ SchemaFault.Memory →
        IsFirstFault value.now fault) }
{
    let place = Place::new(alloc);
    let found = read_object(alloc, &ROOTS, value, &place)?;
    let object = root_of(alloc, value, &place, found)?;
    match left_after(MOST_ITEMS as u32, &object) {
        Some(_) => Ok(object),
        None => {
            drop(object);
            Err(SchemaFault::Items)
        }
    }
}
