//! Speeds in whole millionths.

ghost use Rattle.std.specs.Prelude.{◌≡◌, ℤ, pos, ◌-ℤ◌, ◌≤ℤ◌, ◌↔◌, IfOk, IfErr, IsTrue};
ghost use Rattle.tick_time.specs.Decimals.{decimal_value, millionths, IsHalfEven, IsTooFast};
ghost use Rattle.tick_time.specs.Times as bounds;
ghost use Rattle.tick_time.specs.Times.{IsSpeed};
ghost use Rattle.tick_time.specs.Texts.{IsDecimalText};

use crate::decimals::Decimal;
use crate::faults::TimeFault;
use crate::rounding;
use crate::texts::millionths_text;
use arrayvec::ArrayString;
use std::marker::Model;

/// A speed: whole millionths, from -1000 to 1000 times. Contracts see the millionths.
#[derive(Clone, Copy, PartialEq, Eq)]
pub struct Scalar(pub i64);

impl Model for Scalar {
    ghost use Rattle.std.specs.Prelude.{ℤ};
    ghost use Rattle.std.specs.Coded.{coded_ℤ};

    ghost Value = { ℤ };

    ghost use Rattle.tick_time.specs.Times.{IsSpeed};

    ghost view = { λ speed. speed.0 };

    ghost invariant = { λ speed. IsSpeed speed.0 };

    ghost inverse = { λ speed. record { 0 = speed } };
}

impl Scalar {
    /// The speed that a numeral stands for, rounded half to even to millionths.
    /// [`TimeFault::Scalar`] comes exactly where it then passes 1000 either way.
    pub fn of(d: &Decimal) -> Result<Scalar, TimeFault>
        ensures speed { IfOk result (λ speed. IsHalfEven
            (millionths (decimal_value d.now.neg d.now.digits d.now.exp)) speed) }
        ensures fault { IfErr result (λ fault. (fault ≡ TimeFault.Scalar) ×
            IsTooFast (decimal_value d.now.neg d.now.digits d.now.exp)) }
    {
        match rounding::millionths(d) {
            Some(speed) => {
                if is_speed(speed) {
                    Ok(Scalar(speed as i64))
                } else {
                    Err(TimeFault::Scalar)
                }
            }
            None => Err(TimeFault::Scalar),
        }
    }

    /// The speed as a decimal with no final zeros and at least one digit behind the point.
    pub fn text(&self) -> ArrayString<32>
        ensures text { IsDecimalText result.bytes self.now }
        ensures range { IsSpeed self.now }
    {
        millionths_text(i128::from(self.0))
    }
}

// Whether the millionths lie from -1000 to 1000 times.
fn is_speed(millionths: i128) -> bool
    ensures test { result ≡ bounds.is_speed millionths }
    ensures speed { IsTrue result ↔ IsSpeed millionths }
{
    -1_000_000_000 <= millionths && millionths <= 1_000_000_000
}
