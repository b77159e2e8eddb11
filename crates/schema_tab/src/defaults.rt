//! The values of absent members.

ghost use Rattle.std.specs.Prelude.{◌≡◌, ◌≢◌, IfOk, IfErr, Some, None, cond, true};
ghost use Rattle.tick_time.specs.Times.{is_speed};
ghost use Rattle.schema_rows.specs.Rows.{row_of, kind_of};
ghost use Rattle.schema_rows.specs.Defaults as defaults;

use crate::faults::field_fault;
use crate::required_values::empty_missing;
use otio_model::{Children, Effects, Markers, Media, MediaMap, Metadata, Place, Stack, StackOf};
use owned::Owned;
use schema_rows::{Field, Kind, RowResult, SchemaFault, Value};
use sequences::{NamedValues, Sequence, Text};
use std::alloc::{AllocError, Global};
use tick_time::Scalar;

// The root stack of a timeline that has none.
fn empty_tracks(alloc: Global) -> Result<Stack, AllocError>
    ensures { IfOk result (λ stack. stack ≡ defaults.empty_tracks) }
{
    let name = Text::of(alloc, "tracks")?;
    let children = Children::of(alloc, Sequence::new(alloc))?;
    Ok(StackOf {
        metadata: Metadata::new(alloc),
        name,
        source_range: None,
        effects: Effects::new(alloc),
        markers: Markers::new(alloc),
        enabled: true,
        children,
        rest: NamedValues::new(alloc),
    })
}

// A default in millionths as a speed.
fn default_speed(number: i64) -> Option<Value>
    ensures { result ≡ cond (is_speed number) (Some (Value.Number number)) None }
{
    if -1_000_000_000 <= number && number <= 1_000_000_000 {
        Some(Value::Number(Scalar(number)))
    } else {
        None
    }
}

// The default of a kind.
fn default_of(alloc: Global, kind: Kind) -> Result<Option<Value>, AllocError>
    ensures { IfOk result (λ value. value ≡ defaults.default_of (kind_of kind)) }
{
    match kind {
        Kind::Text(text) => {
            let text = Text::of(alloc, text)?;
            Ok(Some(Value::Text(text)))
        }
        Kind::Flag => Ok(Some(Value::Flag(true))),
        Kind::Meta => Ok(Some(Value::Meta(NamedValues::new(alloc)))),
        Kind::Span => Ok(Some(Value::Span(None))),
        Kind::Time => Ok(Some(Value::Time(None))),
        Kind::Number(number) => Ok(default_speed(number)),
        Kind::Items => Ok(Some(Value::Items(Sequence::new(alloc)))),
        Kind::Effects => Ok(Some(Value::Effects(Effects::new(alloc)))),
        Kind::Markers => Ok(Some(Value::Markers(Markers::new(alloc)))),
        Kind::Media => Ok(Some(Value::Media(MediaMap::new(alloc)))),
        Kind::Medium => {
            let missing = empty_missing(alloc)?;
            Ok(Some(Value::Medium(Owned::of(alloc, Media::Missing(missing))?)))
        }
        Kind::Stack => {
            let stack = empty_tracks(alloc)?;
            Ok(Some(Value::Stack(Owned::of(alloc, stack)?)))
        }
        Kind::Objects => Ok(Some(Value::Objects(Sequence::new(alloc)))),
        Kind::Rate => Ok(None),
        Kind::Numeral => Ok(None),
    }
}

/// The value of a row whose member is absent; S4 where it is needed, or its kind has no
/// default. `Memory` where memory runs out.
pub fn absent(alloc: Global, row: &Field, place: &Place) -> RowResult
    ensures value { IfOk result (λ value. defaults.absent_value (row_of row.now) ≡ Some value) }
    ensures fault { IfErr result (λ fault. fault ≢ SchemaFault.Memory →
        (defaults.absent_value (row_of row.now) ≡ None)
        × (fault ≡ SchemaFault.Field place.now row.now.name.now)) }
{
    if row.need {
        return Err(field_fault(alloc, row, place));
    }
    match default_of(alloc, row.kind) {
        Ok(Some(value)) => Ok(value),
        Ok(None) => Err(field_fault(alloc, row, place)),
        Err(_) => Err(SchemaFault::Memory),
    }
}
