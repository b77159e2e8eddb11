//! The rules of a schema on its own values.

ghost use Rattle.std.specs.Prelude.{◌≡◌, map, IfOk};
ghost use Rattle.std.specs.List.{list_any};
ghost use Rattle.otio_model.specs.Misplaced as misplaced;
ghost use Rattle.otio_model.specs.Trees as trees;
ghost use Rattle.schema_rows.specs.Families as families;
ghost use Rattle.schema_rows.specs.declared.schemas.Schema.TheVariants as schemas;

use otio_model::{Item, ItemOf};
use schema_rows::{Schema, Value};
use std::alloc::{AllocError, Global};
use tick_time::{Scalar, Time};

fn is_transition(item: &Item) -> bool
    ensures { result ≡ trees.is_transition item.now }
{
    matches!(item, ItemOf::Transition(_))
}

// Whether two transitions stand side by side.
fn side_by_side(items: &[Item]) -> bool
    ensures { result ≡ misplaced.side_by_side items.now }
{
    let mut behind = false;
    for item in items {
        let here = is_transition(item);
        if behind && here {
            return true;
        }
        behind = here;
    }
    false
}

fn any_transition(items: &[Item]) -> bool
    ensures { result ≡ list_any trees.is_transition items.now }
{
    items.iter().any(|item| is_transition(item))
}

fn is_negative(offset: &Option<Time>) -> bool
    ensures { result ≡ misplaced.is_negative offset.now }
{
    match offset {
        Some(time) => time.ticks < 0,
        None => false,
    }
}

// Whether a value breaks a rule on transitions.
fn value_breaks(schema: Schema, value: &Value) -> bool
    ensures { result ≡ families.breaks schema value.now }
{
    match schema {
        Schema::Track => match value {
            Value::Items(items) => side_by_side(items.as_slice()),
            _ => false,
        },
        Schema::Stack => match value {
            Value::Items(items) => any_transition(items.as_slice()),
            _ => false,
        },
        Schema::Transition => match value {
            Value::Time(offset) => is_negative(offset),
            _ => false,
        },
        _ => false,
    }
}

/// Whether one of the values breaks a rule on transitions.
pub fn breaks(schema: Schema, values: &[Value]) -> bool
    ensures { result ≡ list_any (families.breaks schema) values.now }
{
    values.iter().any(|value| value_breaks(schema, value))
}

// A value of a freeze frame, whose speed is 0.
fn still_value(value: Value) -> Value
    ensures { result ≡ families.stilled schemas.Freeze value }
{
    match value {
        Value::Number(_) => Value::Number(Scalar(0)),
        value => value,
    }
}

// The values of a freeze frame, whose speed is 0.
fn still_values(alloc: Global, values: Vec<Value>) -> Result<Vec<Value>, AllocError>
    ensures { IfOk result (λ still.
        still.items ≡ map (families.stilled schemas.Freeze) values.items) }
{
    let mut made = Vec::with_capacity(alloc, values.len())?;
    for value in values {
        made.push(still_value(value))?;
    }
    Ok(made)
}

/// The values, where a freeze frame's speed is 0. An error comes where memory runs out.
pub fn still(alloc: Global, schema: Schema, values: Vec<Value>) -> Result<Vec<Value>, AllocError>
    ensures { IfOk result (λ still. still.items ≡ map (families.stilled schema) values.items) }
{
    match schema {
        Schema::Freeze => still_values(alloc, values),
        _ => Ok(values),
    }
}
