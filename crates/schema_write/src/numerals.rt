//! Numerals of rates, values and speeds.

ghost use Rattle.std.specs.Prelude.{◌≡◌, IfOk, codes};
ghost use Rattle.json_value.specs.declared.Json.{Num};
ghost use Rattle.schema_write.specs.Texts as texts;

use json_value::Json;
use sequences::Text;
use std::alloc::{AllocError, Global};
use tick_time::{Rate, Scalar, Time};

// A numeral of these characters.
fn numeral(alloc: Global, characters: &str) -> Result<Json, AllocError>
    ensures { IfOk result (λ json. json ≡ Num characters.now) }
{
    Ok(Json::Num(Text::of(alloc, characters)?))
}

/// A rate.
pub fn rate_numeral(alloc: Global, rate: Rate) -> Result<Json, AllocError>
    ensures { IfOk result (λ json. json ≡ Num (texts.rate_text rate)) }
{
    numeral(alloc, rate.text().as_str())
}

/// The value of a time, in frames of its rate.
pub fn value_numeral(alloc: Global, time: Time) -> Result<Json, AllocError>
    ensures { IfOk result (λ json. json ≡ Num (texts.value_text time)) }
{
    numeral(alloc, time.value_text().as_str())
}

/// A speed.
pub fn speed_numeral(alloc: Global, speed: Scalar) -> Result<Json, AllocError>
    ensures { IfOk result (λ json. json ≡ Num (texts.decimal_text speed)) }
{
    numeral(alloc, speed.text().as_str())
}

/// The speed 0.
pub fn zero_numeral(alloc: Global) -> Result<Json, AllocError>
    ensures { IfOk result (λ json. json ≡ Num (codes "0.0")) }
{
    numeral(alloc, "0.0")
}
