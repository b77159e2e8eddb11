//! Decimals as numerals spell them.

ghost use Rattle.std.specs.Prelude.{◌≡◌, ◌⊎◌, ℕ, ◌+◌, ◌*◌, ◌%◌, ◌^◌, ◌<◌, ◌≤◌, ◌++◌, Bool, true, false, List, length, ℤ, pos, negsuc, ◌+ℤ◌, ◌-ℤ◌, ◌≤ℤ◌, IfOk, IfErr, OnOk, IsTrue};
ghost use Rattle.std.specs.Str.Parse.{AllDigits, digits_value};
ghost use Rattle.tick_time.specs.Numerals.{Numeral, Spells, IsNumeral, IsSame, IsTooLong, fraction, Fraction, signed};
ghost use Rattle.tick_time.specs.Decimals.{decimal_value, scale};

use crate::digits::number_of;
use crate::faults::TimeFault;
use crate::numerals::split_numeral;
use crate::tallies::Tally;

/// A decimal: its digits times a power of ten, with a sign. It is kept in one form, so equal
/// decimals have equal fields.
#[derive(Clone, Copy, PartialEq, Eq)]
pub struct Decimal {
    /// Whether it is below 0.
    pub neg: bool,
    /// Its digits, at most 38, of which the last is not 0; 0 for zero.
    pub digits: u128,
    /// The power of ten that the digits are multiplied by; 0 for zero.
    pub exp: i128,
    ghost short: { digits < 100000000000000000000000000000000000000 },
    ghost last: { digits % 10 ≡ 0 → digits ≡ 0 },
    ghost plain_zero: { digits ≡ 0 → exp ≡ pos 0 },
    ghost unsigned_zero: { digits ≡ 0 → neg ≡ false },
    ghost low: { (pos 0 -ℤ pos 147573952589676412928) ≤ℤ exp },
    ghost high: { exp ≤ℤ pos 147573952589676412928 },
}

impl Decimal {
    /// The decimal that a number of JSON (RFC 8259, section 6) spells. [`TimeFault::TooLong`] comes
    /// exactly where more than 38 digits stand from the first that is not 0 to the last that is not
    /// 0, or the exponent has more than three digits.
    pub fn read(text: &[u8]) -> Result<Decimal, TimeFault>
        requires { IsNumeral text.now }
        ensures value { (number : Numeral) → Spells text.now number →
            IfOk result (λ decimal. IsSame (decimal_value decimal.neg decimal.digits decimal.exp)
            (fraction number)) }
        ensures short { (number : Numeral) → Spells text.now number → IsTooLong number →
            result ≡ Err TimeFault.TooLong }
        ensures fault { (number : Numeral) → Spells text.now number →
            IfErr result (λ fault. (fault ≡ TimeFault.TooLong) × IsTooLong number) }
    {
        let parts = split_numeral(text);
        if parts.power.len() > 3 {
            return Err(TimeFault::TooLong);
        }
        match Tally::read(parts.whole, parts.decimals) {
            Some(tally) => Ok(scaled(
                parts.neg,
                tally,
                offset(parts.down, parts.power, parts.decimals.len()),
            )),
            None => Err(TimeFault::TooLong),
        }
    }
}

// The power of ten that an exponent and so many decimals leave.
#[tactic(auto, using(crate::proofs::Offsets::offset_is, crate::proofs::Offsets::offset_low, crate::proofs::Offsets::offset_high))]
fn offset(down: bool, power: &[u8], places: usize) -> i128
    requires power { AllDigits 10 power.now }
    requires few { length power.now ≤ 3 }
    ensures value { result ≡ scale down (digits_value 10 power.now) places }
    ensures low { (pos 0 -ℤ pos 36893488147419103232) ≤ℤ result }
    ensures high { result ≤ℤ pos 1000 }
{
    exponent_of(down, power) - place_count(places)
}

// An exponent of at most three digits, as a number.
#[tactic(auto, using(crate::proofs::Scans::below_thousand))]
fn exponent_of(down: bool, power: &[u8]) -> i128
    requires power { AllDigits 10 power.now }
    requires few { length power.now ≤ 3 }
    ensures value { result ≡ signed down (digits_value 10 power.now) }
    ensures low { (pos 0 -ℤ pos 1000) ≤ℤ result }
    ensures high { result ≤ℤ pos 1000 }
{
    let number = i128::from(number_of(power));
    if down { -number } else { number }
}

// How many decimals there are, as a number that can be taken off.
fn place_count(places: usize) -> i128
    ensures { result ≡ pos places }
{
    places as i128
}

// The decimal of these digits, with the zeros behind them, times a power of ten.
fn scaled(neg: bool, tally: Tally, offset: i128) -> Decimal
    requires zeros { tally.zeros < 2 ^ 66 }
    requires low { (pos 0 -ℤ pos 36893488147419103232) ≤ℤ offset }
    requires high { offset ≤ℤ pos 1000 }
    ensures digits { result.digits ≡ tally.digits }
    ensures scaled { (result.digits ≡ 0) ⊎
        ((result.neg ≡ neg) × (result.exp ≡ (pos tally.zeros +ℤ offset))) }
{
    if tally.digits == 0 {
        return Decimal {
            neg: false,
            digits: 0,
            exp: 0,
        };
    }
    Decimal {
        neg,
        digits: tally.digits,
        exp: tally.zeros as i128 + offset,
    }
}
