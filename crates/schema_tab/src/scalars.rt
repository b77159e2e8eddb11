//! Values without others inside them.

ghost use Rattle.std.specs.Prelude.{◌≡◌, ◌≢◌, ℕ, ℤ, List, MatchOption, IfOk, IfErr, Some, [], ◌∷◌};
ghost use Rattle.json_value.specs.declared.Json.{Json};
ghost use Rattle.json_value.specs.declared.Json.TheVariants as json;
ghost use Rattle.tick_time.specs.Numerals.{IsNumeral};
ghost use Rattle.tick_time.specs.declared.decimals.Decimal.{Decimal};
ghost use Rattle.tick_time.specs.Decimals.{millionths, IsHalfEven};
ghost use Rattle.schema_rows.specs.declared.schemas.TheConstants as families;
ghost use Rattle.schema_rows.specs.Rows.{row_of, kind_of};
ghost use Rattle.schema_rows.specs.Rows as rows;
ghost use Rattle.schema_rows.specs.Schemas.{IsForeign};
ghost use Rattle.schema_rows.specs.Numerals.{HasNumerals, IsSpelled, IsLong, value_of_decimal};
ghost use Rattle.schema_rows.specs.Stands.{Gives, Gives_fields};
ghost use Rattle.schema_rows.specs.Faults.{HasBeyond, HasNegative, IsNoSpeed, Refuses};
ghost use Rattle.schema_tab.specs.Shapes.{AreOfRange, AreOfTime};
ghost use Rattle.tick_time.specs.Sums.{IsTimeOf};
ghost use Rattle.tick_time.specs.Times.{IsSpeed};
ghost use Rattle.tick_time.specs.declared.rates.Rate.{Rate};
ghost use Rattle.tick_time.specs.declared.spans.Span.{Span};
ghost use Rattle.tick_time.specs.declared.times.Time.{Time};

use crate::faults::{field_fault, range_fault, rate_fault};
use json_value::{Json, Members, copy_json};
use otio_model::Place;
use schema_rows::{Field, Fields, Matched, RowResult, SchemaFault, Value};
use sequences::Text;
use std::alloc::Global;
use tick_time::{Decimal, Rate, Scalar, Span, Time};

// The decimal that a numeral spells; none where it is too long.
fn decimal_of(numeral: &Text) -> Option<Decimal>
    requires { IsNumeral numeral.now }
    ensures { MatchOption result (IsLong numeral.now) (IsSpelled numeral.now) }
{
    match Decimal::read(numeral.as_str().as_bytes()) {
        Ok(decimal) => Some(decimal),
        Err(_) => None,
    }
}

// The speed itself, which is known to be one.
fn ranged(speed: Scalar) -> Scalar
    ensures same { result ≡ speed }
    ensures range { IsSpeed result }
{
    Scalar(speed.0)
}

// The speed that a numeral spells; none where it is too long or too fast.
fn speed_of(numeral: &Text) -> Option<Scalar>
    requires { IsNumeral numeral.now }
    ensures { MatchOption result (IsNoSpeed numeral.now)
        (λ speed. (decimal : Decimal) × IsSpelled numeral.now decimal
        × IsHalfEven (millionths (value_of_decimal decimal)) speed × IsSpeed speed) }
{
    match decimal_of(numeral) {
        Some(decimal) => match Scalar::of(&decimal) {
            Ok(speed) => Some(ranged(speed)),
            Err(_) => None,
        },
        None => None,
    }
}

/// The text that a row holds. The row has to be of the kind `Text`. `Field` where the value is no
/// string, `Memory` where memory runs out.
pub fn text_of(alloc: Global, row: &Field, value: &Json, place: &Place) -> RowResult
    ensures value { (default : List ℕ) → kind_of row.now.kind ≡ rows.text default →
        IfOk result (Gives (kind_of row.now.kind) value.now) }
    ensures fault { (default : List ℕ) → kind_of row.now.kind ≡ rows.text default
        → IfErr result (λ fault. fault ≢ SchemaFault.Memory →
        Refuses place.now (row_of row.now) value.now fault) }
{
    match value {
        Json::Str(text) => match Text::of(alloc, text.as_str()) {
            Ok(text) => Ok(Value::Text(text)),
            Err(_) => Err(SchemaFault::Memory),
        },
        _ => Err(field_fault(alloc, row, place)),
    }
}

/// The truth value that a row holds. The row has to be of the kind `Flag`. `Field` where the value
/// is no truth value, `Memory` where there is no memory for that fault.
pub fn flag_of(alloc: Global, row: &Field, value: &Json, place: &Place) -> RowResult
    ensures value { kind_of row.now.kind ≡ rows.flag →
        IfOk result (Gives (kind_of row.now.kind) value.now) }
    ensures fault { kind_of row.now.kind ≡ rows.flag
        → IfErr result (λ fault. fault ≢ SchemaFault.Memory →
        Refuses place.now (row_of row.now) value.now fault) }
{
    match value {
        Json::Bool(truth) => Ok(Value::Flag(*truth)),
        _ => Err(field_fault(alloc, row, place)),
    }
}

// The members of an object.
fn members_in(value: Json) -> Option<Members>
    ensures { MatchOption result ((members : List (List ℕ × Json)) → value ≡ json.Map members →
        ⊥) (λ members. value ≡ json.Map members) }
{
    match value {
        Json::Map(members) => Some(members.into_inner()),
        _ => None,
    }
}

/// The object that a row holds, kept word for word. The row has to be of the kind `Meta`. `Field`
/// where the value is no object, `Memory` where memory runs out.
pub fn meta_of(alloc: Global, row: &Field, value: &Json, place: &Place) -> RowResult
    ensures value { kind_of row.now.kind ≡ rows.meta →
        IfOk result (Gives (kind_of row.now.kind) value.now) }
    ensures fault { kind_of row.now.kind ≡ rows.meta
        → IfErr result (λ fault. fault ≢ SchemaFault.Memory →
        Refuses place.now (row_of row.now) value.now fault) }
{
    match copy_json(alloc, value) {
        Ok(copy) => match members_in(copy) {
            Some(members) => Ok(Value::Meta(members)),
            None => Err(field_fault(alloc, row, place)),
        },
        Err(_) => Err(SchemaFault::Memory),
    }
}

/// The speed that a row holds, in millionths. The row has to be of the kind `Number`, and the
/// value's numerals those of JSON. `Field` where the value is no numeral, or one that is too long
/// or beyond 1000 times, either way; `Memory` where there is no memory for that fault.
pub fn number_of(alloc: Global, row: &Field, value: &Json, place: &Place) -> RowResult
    requires numerals { HasNumerals value.now }
    ensures value { (default : ℤ) → kind_of row.now.kind ≡ rows.number default →
        IfOk result (Gives (kind_of row.now.kind) value.now) }
    ensures fault { (default : ℤ) → kind_of row.now.kind ≡ rows.number default
        → IfErr result (λ fault. fault ≢ SchemaFault.Memory →
        Refuses place.now (row_of row.now) value.now fault) }
{
    match value {
        Json::Num(numeral) => match speed_of(numeral) {
            Some(speed) => Ok(Value::Number(speed)),
            None => Err(field_fault(alloc, row, place)),
        },
        _ => Err(field_fault(alloc, row, place)),
    }
}

/// The decimal that a row holds. The row has to be of the kind `Numeral`, and the value's numerals
/// those of JSON. `Field` where the value is no numeral, `Range` where it is one that is too long,
/// `Memory` where there is no memory for such a fault.
pub fn numeral_of(alloc: Global, row: &Field, value: &Json, place: &Place) -> RowResult
    requires numerals { HasNumerals value.now }
    ensures value { kind_of row.now.kind ≡ rows.numeral →
        IfOk result (Gives (kind_of row.now.kind) value.now) }
    ensures fault { kind_of row.now.kind ≡ rows.numeral
        → IfErr result (λ fault. fault ≢ SchemaFault.Memory →
        Refuses place.now (row_of row.now) value.now fault) }
{
    match value {
        Json::Num(numeral) => match decimal_of(numeral) {
            Some(decimal) => Ok(Value::Numeral(decimal)),
            None => Err(range_fault(alloc, place)),
        },
        _ => Err(field_fault(alloc, row, place)),
    }
}

/// The rate that a row holds. The row has to be of the kind `Rate`, and the value's numerals those
/// of JSON. `Field` where the value is no numeral, `Range` where it is one that is too long, `Rate`
/// where it is outside the profile, `Memory` where there is no memory for such a fault.
pub fn rate_of(alloc: Global, row: &Field, value: &Json, place: &Place) -> RowResult
    requires numerals { HasNumerals value.now }
    ensures value { kind_of row.now.kind ≡ rows.rate →
        IfOk result (Gives (kind_of row.now.kind) value.now) }
    ensures fault { kind_of row.now.kind ≡ rows.rate
        → IfErr result (λ fault. fault ≢ SchemaFault.Memory →
        Refuses place.now (row_of row.now) value.now fault) }
{
    match value {
        Json::Num(numeral) => match decimal_of(numeral) {
            Some(decimal) => match Rate::of(&decimal) {
                Ok(rate) => Ok(Value::Rate(rate)),
                Err(_) => Err(rate_fault(alloc, place)),
            },
            None => Err(range_fault(alloc, place)),
        },
        _ => Err(field_fault(alloc, row, place)),
    }
}

// The length and the start of a range of time.
fn range_in(fields: &Fields) -> (Time, Time)
    requires { AreOfRange fields.now.values }
    ensures { fields.now.values
        ≡ Value.Time (Some result.0) ∷ (Value.Time (Some result.1) ∷ []) }
{
    match fields.values.as_slice() {
        [Value::Time(Some(len)), Value::Time(Some(start))] => (*len, *start),
        _ => unreachable!(),
    }
}

// The rate and the decimal of a time.
fn rated_in(fields: &Fields) -> (Rate, Decimal)
    requires { AreOfTime fields.now.values }
    ensures { fields.now.values ≡ Value.Rate result.0 ∷ (Value.Numeral result.1 ∷ []) }
{
    match fields.values.as_slice() {
        [Value::Rate(rate), Value::Numeral(decimal)] => (*rate, *decimal),
        _ => unreachable!(),
    }
}

// A range of time, from the fields of its object.
fn span_from(alloc: Global, fields: &Fields, place: &Place) -> RowResult
    requires { AreOfRange fields.now.values }
    ensures value { IfOk result (λ value. (span : Span)
        × (fields.now.values ≡ Value.Time (Some span.len) ∷ (Value.Time (Some span.start) ∷ []))
        × (value ≡ Value.Span (Some span))) }
    ensures fault { IfErr result (λ fault. fault ≢ SchemaFault.Memory →
        HasNegative fields.now.values × (fault ≡ SchemaFault.Range place.now)) }
{
    let (len, start) = range_in(fields);
    if len.ticks < 0 {
        return Err(range_fault(alloc, place));
    }
    Ok(Value::Span(Some(Span { start, len })))
}

/// The range of time that a row holds. The row has to be of the kind `Span`, and `found` the
/// value's fields as an object of `RANGES`, none where it is no such object. `Field` where it is
/// none, `Range` where its length is negative, `Memory` where there is no memory for such a fault.
pub fn span_of(alloc: Global, row: &Field, value: &Json, place: &Place, found: Matched) -> RowResult
    requires found { MatchOption found (IsForeign families.RANGES value.now)
        (Gives_fields families.RANGES value.now) }
    ensures value { kind_of row.now.kind ≡ rows.span →
        IfOk result (Gives (kind_of row.now.kind) value.now) }
    ensures fault { kind_of row.now.kind ≡ rows.span
        → IfErr result (λ fault. fault ≢ SchemaFault.Memory →
        Refuses place.now (row_of row.now) value.now fault) }
{
    match found {
        Some(fields) => span_from(alloc, &fields, place),
        None => Err(field_fault(alloc, row, place)),
    }
}

// A time, from the fields of its object.
fn time_from(alloc: Global, fields: &Fields, place: &Place) -> RowResult
    requires { AreOfTime fields.now.values }
    ensures value { IfOk result (λ value. (rate : Rate) × (decimal : Decimal) × (time : Time)
        × (fields.now.values ≡ Value.Rate rate ∷ (Value.Numeral decimal ∷ []))
        × IsTimeOf (value_of_decimal decimal) rate time × (value ≡ Value.Time (Some time))) }
    ensures fault { IfErr result (λ fault. fault ≢ SchemaFault.Memory → HasBeyond fields.now.values
        × (fault ≡ SchemaFault.Range place.now)) }
{
    let (rate, decimal) = rated_in(fields);
    match Time::of(&decimal, rate) {
        Ok(time) => Ok(Value::Time(Some(time))),
        Err(_) => Err(range_fault(alloc, place)),
    }
}

/// The time that a row holds. The row has to be of the kind `Time`, and `found` the value's fields
/// as an object of `TIMES`, none where it is no such object. `Field` where it is none, `Range`
/// where it is out of range at its rate, `Memory` where there is no memory for such a fault.
pub fn time_of(alloc: Global, row: &Field, value: &Json, place: &Place, found: Matched) -> RowResult
    requires found { MatchOption found (IsForeign families.TIMES value.now)
        (Gives_fields families.TIMES value.now) }
    ensures value { kind_of row.now.kind ≡ rows.time →
        IfOk result (Gives (kind_of row.now.kind) value.now) }
    ensures fault { kind_of row.now.kind ≡ rows.time
        → IfErr result (λ fault. fault ≢ SchemaFault.Memory →
        Refuses place.now (row_of row.now) value.now fault) }
{
    match found {
        Some(fields) => time_from(alloc, &fields, place),
        None => Err(field_fault(alloc, row, place)),
    }
}
