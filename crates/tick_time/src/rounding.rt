//! Decimals rounded half to even to six places.

ghost use Rattle.std.specs.Prelude.{◌≡◌, ℕ, ◌+◌, ◌*◌, ◌%◌, ◌^◌, ◌<◌, ◌≤◌, ℤ, pos, ◌-ℤ◌, ◌+ℤ◌, ◌≤ℤ◌, MatchOption};
ghost use Rattle.tick_time.specs.Numerals.{signed};
ghost use Rattle.tick_time.specs.Decimals.{decimal_value, raised, lowered, IsNearestEven, IsRounded, IsHuge, millionths_top};
ghost use Rattle.tick_time.specs.Rounding as rounding;

use crate::decimals::Decimal;
use crate::tallies::power_of_ten;

/// More millionths than any value or speed has.
const MOST: u128 = 1_000_000_000_000_000_000_000_000;

/// The millionths of a decimal, rounded half to even; `None` where they pass 10 ^ 24 either way.
pub(crate) fn millionths(decimal: &Decimal) -> Option<i128>
    ensures { MatchOption result (IsHuge
        (decimal_value decimal.now.neg decimal.now.digits decimal.now.exp))
        (IsRounded (decimal_value decimal.now.neg decimal.now.digits decimal.now.exp)) }
{
    match rounded_size(decimal.digits, decimal.exp) {
        Some(size) => Some(signed_number(decimal.neg, size)),
        None => None,
    }
}

// A number, or the one below 0.
fn signed_number(neg: bool, size: u128) -> i128
    requires { size ≤ 1000000000000000000000000 }
    ensures { result ≡ signed neg size }
{
    if neg { -(size as i128) } else { size as i128 }
}

// The millionths of digits with an exponent.
fn rounded_size(digits: u128, exp: i128) -> Option<u128>
    requires short { digits < 100000000000000000000000000000000000000 }
    requires plain_zero { digits ≡ 0 → exp ≡ pos 0 }
    requires low { (pos 0 -ℤ pos 147573952589676412928) ≤ℤ exp }
    requires high { exp ≤ℤ pos 147573952589676412928 }
    ensures { MatchOption result
        ((n : ℕ) × IsNearestEven (millionths_top digits exp) (10 ^ lowered exp) n ×
        (1000000000000000000000000 < n))
        (λ n. IsNearestEven (millionths_top digits exp) (10 ^ lowered exp) n ×
        (n ≤ 1000000000000000000000000)) }
{
    if exp >= -6 {
        raised_size(digits, raised_shift(exp))
    } else {
        let size = lowered_size(digits, lowered_shift(exp));
        if size <= MOST { Some(size) } else { None }
    }
}

/// The power of ten of the millionths, where it multiplies.
pub(crate) fn raised_shift(exp: i128) -> u128
    requires low { (pos 0 -ℤ pos 6) ≤ℤ exp }
    requires high { exp ≤ℤ pos 147573952589676412928 }
    ensures { pos result ≡ (exp +ℤ pos 6) }
{
    (exp + 6) as u128
}

// The power of ten of the millionths, where it divides.
fn lowered_shift(exp: i128) -> u128
    requires low { (pos 0 -ℤ pos 147573952589676412928) ≤ℤ exp }
    requires high { exp ≤ℤ (pos 0 -ℤ pos 7) }
    ensures { (pos result +ℤ pos 6) ≡ (pos 0 -ℤ exp) }
{
    (-6 - exp) as u128
}

/// Digits times a power of ten.
pub(crate) fn raised_size(digits: u128, shift: u128) -> Option<u128>
    ensures { MatchOption result (1000000000000000000000000 < digits * 10 ^ shift)
        (λ n. (n ≡ digits * 10 ^ shift) × (n ≤ 1000000000000000000000000)) }
{
    if digits == 0 {
        return Some(0);
    }
    if shift > 24 {
        return None;
    }
    let power = power_of_ten(shift);
    if digits <= MOST / power {
        Some(digits * power)
    } else {
        None
    }
}

// Digits over a power of ten, rounded half to even.
fn lowered_size(digits: u128, shift: u128) -> u128
    requires { digits < 100000000000000000000000000000000000000 }
    ensures { IsNearestEven digits (10 ^ shift) result }
{
    if shift > 38 {
        0
    } else {
        half_even(digits, power_of_ten(shift))
    }
}

/// A fraction of numbers from 0 on, rounded to the nearest whole number, and to the even one of
/// two.
#[tactic(auto, using(crate::proofs::NearestEven::half_even_is_nearest))]
pub fn half_even(top: u128, bottom: u128) -> u128
    requires top { top ≤ 100000000000000000000000000000000000000 }
    requires positive { 1 ≤ bottom }
    requires bottom { bottom ≤ 100000000000000000000000000000000000000 }
    ensures value { result ≡ rounding.half_even top bottom }
    ensures nearest { IsNearestEven top bottom result }
{
    let whole = top / bottom;
    let rest = top % bottom;
    if 2 * rest < bottom {
        return whole;
    }
    if bottom < 2 * rest {
        return whole + 1;
    }
    whole + whole % 2
}

// Whether a division by a million with this quotient and this rest is rounded down, half to even.
fn is_rounded_down(quotient: i128, rest: i128) -> bool
    ensures { result ≡ rounding.is_rounded_down quotient rest }
{
    rest < 500_000 || (rest <= 500_000 && quotient.unsigned_abs() % 2 == 0)
}

/// So many millionths, of either sign, as a whole number, rounded half to even.
pub fn from_millionths(millionths: i128) -> i128
    requires low { (pos 0 -ℤ pos 1000000000000000000) ≤ℤ millionths }
    requires high { millionths ≤ℤ pos 1000000000000000000 }
    ensures { result ≡ rounding.from_millionths millionths }
{
    let quotient = millionths.div_euclid(1_000_000);
    if is_rounded_down(quotient, millionths.rem_euclid(1_000_000)) {
        quotient
    } else {
        quotient + 1
    }
}
