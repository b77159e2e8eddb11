//! Fractions of whole numbers: their order and their lowest terms.

ghost use Rattle.std.specs.Prelude.{◌≡◌, ℕ, ◌+◌, ◌*◌, ◌%◌, ◌^◌, ◌<◌, ◌≤◌, ◌↔◌, ◌⊎◌, ℤ, pos, ◌-ℤ◌, ◌≤ℤ◌, IsTrue, MatchOption, true, false};
ghost use Rattle.std.specs.Int.{IsGcd};
ghost use Rattle.std.specs.List.{Contains};
ghost use Rattle.tick_time.specs.Rates.{is_near, is_near_any, counts};
ghost use Rattle.tick_time.specs.Decimals.{raised, lowered, IsFarFromRates};

use crate::rounding::raised_size;
use crate::tallies::power_of_ten;

/// The greatest common divisor.
pub(crate) fn gcd(a: u128, b: u128) -> u128
    ensures { IsGcd a b result }
{
    if b == 0 { a } else { gcd(b, a % b) }
}

/// Whether `a / b` is at most `c / d`, without a product that may not fit.
pub(crate) fn at_most(a: u128, b: u128, c: u128, d: u128) -> bool
    requires left { 1 ≤ b }
    requires right { 1 ≤ d }
    ensures { IsTrue result ↔ (a * d ≤ c * b) }
{
    let left = a / b;
    let right = c / d;
    if left != right {
        return left < right;
    }
    let over = a % b;
    let under = c % d;
    if over == 0 {
        return true;
    }
    if under == 0 {
        return false;
    }
    at_most(d, under, b, over)
}

// Whether a fraction lies within 1/100 of the 1001 relative of a count.
fn is_near_count(top: u128, bottom: u128, count: u128) -> bool
    requires bottom { 1 ≤ bottom }
    requires low { 1 ≤ count }
    requires high { count ≤ 120 }
    ensures { result ≡ is_near top bottom count }
{
    at_most(100_000 * count - 1001, 100_100, top, bottom)
        && at_most(top, bottom, 100_000 * count + 1001, 100_100)
}

/// The count whose 1001 relative lies within 1/100 of a fraction.
pub(crate) fn near_count(top: u128, bottom: u128) -> Option<u128>
    requires { 1 ≤ bottom }
    ensures { MatchOption result (is_near_any top bottom ≡ false) (λ count. Contains counts count ×
        (is_near top bottom count ≡ true)) }
{
    if is_near_count(top, bottom, 15) {
        Some(15)
    } else if is_near_count(top, bottom, 24) {
        Some(24)
    } else if is_near_count(top, bottom, 30) {
        Some(30)
    } else if is_near_count(top, bottom, 48) {
        Some(48)
    } else if is_near_count(top, bottom, 60) {
        Some(60)
    } else if is_near_count(top, bottom, 120) {
        Some(120)
    } else {
        None
    }
}

/// A fraction of two numbers.
#[derive(Clone, Copy)]
pub(crate) struct Ratio {
    pub(crate) top: u128,
    pub(crate) bottom: u128,
    ghost positive: { 1 ≤ bottom },
}

/// Digits with an exponent as a fraction; `None` where it passes 10 ^ 24 or lies below 1/10.
pub(crate) fn ratio_of(digits: u128, exp: i128) -> Option<Ratio>
    requires low { (pos 0 -ℤ pos 147573952589676412928) ≤ℤ exp }
    requires high { exp ≤ℤ pos 147573952589676412928 }
    ensures { MatchOption result (IsFarFromRates digits exp)
        (λ ratio. (ratio.top ≡ digits * 10 ^ raised exp) × (ratio.bottom ≡ 10 ^ lowered exp)) }
{
    if exp >= 0 {
        match raised_size(digits, exp as u128) {
            Some(top) => Some(Ratio { top, bottom: 1 }),
            None => None,
        }
    } else if exp >= -38 {
        Some(Ratio {
            top: digits,
            bottom: power_of_ten((-exp) as u128),
        })
    } else {
        None
    }
}
