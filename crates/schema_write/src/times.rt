//! Times and ranges of time.

ghost use Rattle.std.specs.Prelude.{◌≡◌, IfOk};
ghost use Rattle.schema_write.specs.Objects as objects;

use crate::numerals::{rate_numeral, value_numeral};
use crate::writing::{add, written};
use json_value::Json;
use schema_rows::Schema;
use sequences::NamedValues;
use std::alloc::{AllocError, Global};
use tick_time::{Span, Time};

/// A time.
pub fn time_json(alloc: Global, time: Time) -> Result<Json, AllocError>
    ensures { IfOk result (λ json. json ≡ objects.time_json time) }
{
    let mut values = Vec::with_capacity(alloc, 2)?;
    add(&mut values, rate_numeral(alloc, time.rate))?;
    add(&mut values, value_numeral(alloc, time))?;
    let rest = NamedValues::new(alloc);
    written(alloc, Schema::RationalTime, values, &rest)
}

/// A time, or null.
pub fn offset_json(alloc: Global, offset: Option<Time>) -> Result<Json, AllocError>
    ensures { IfOk result (λ json. json ≡ objects.offset_json offset) }
{
    match offset {
        Some(time) => time_json(alloc, time),
        None => Ok(Json::Null),
    }
}

/// A range of time, or null.
pub fn span_json(alloc: Global, span: Option<Span>) -> Result<Json, AllocError>
    ensures { IfOk result (λ json. json ≡ objects.span_json span) }
{
    match span {
        Some(span) => range_json(alloc, span),
        None => Ok(Json::Null),
    }
}

fn range_json(alloc: Global, span: Span) -> Result<Json, AllocError>
    ensures { IfOk result (λ json. json ≡ objects.range_json span) }
{
    let mut values = Vec::with_capacity(alloc, 2)?;
    add(&mut values, time_json(alloc, span.len))?;
    add(&mut values, time_json(alloc, span.start))?;
    let rest = NamedValues::new(alloc);
    written(alloc, Schema::TimeRange, values, &rest)
}
