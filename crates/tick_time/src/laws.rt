//! Laws of what is read again and of `==`, each on a function that makes the calls it speaks of.

ghost use Rattle.std.specs.Prelude.{◌≡◌, ◌↔◌, ◌≤◌, ℕ, ℤ, List, IsTrue, IsOk, IfOk};
ghost use Rattle.tick_time.specs.Decimals.{IsHalfEven, IsNearestEven};
ghost use Rattle.tick_time.specs.RateWords.{IsRateWord};
ghost use Rattle.tick_time.specs.Rounding.{half_even, from_millionths};
ghost use Rattle.tick_time.specs.declared.rates.Rate.{Rate as AnyRate};

use crate::decimals::Decimal;
use crate::faults::TimeFault;
use crate::rates::Rate;
use crate::scalars::Scalar;
use crate::times::Time;

/// A rate's text, read as a rate: the rate itself. It never answers an error.
pub fn rate_read_again(rate: &Rate) -> Result<Rate, TimeFault>
    ensures ok { IsOk result }
    ensures num { IfOk result (λ again. again.num ≡ rate.now.num) }
    ensures den { IfOk result (λ again. again.den ≡ rate.now.den) }
{
    let text = rate.text();
    match Decimal::read(text.as_str().as_bytes()) {
        Ok(decimal) => Rate::of(&decimal),
        Err(fault) => Err(fault),
    }
}

/// A time's value, read as a value of its rate: the time itself. It never answers an error.
pub fn time_read_again(time: &Time) -> Result<Time, TimeFault>
    ensures ok { IsOk result }
    ensures ticks { IfOk result (λ again. again.ticks ≡ time.now.ticks) }
    ensures rate { IfOk result (λ again. again.rate ≡ time.now.rate) }
{
    let text = time.value_text();
    match Decimal::read(text.as_str().as_bytes()) {
        Ok(decimal) => Time::of(&decimal, time.rate),
        Err(fault) => Err(fault),
    }
}

/// A speed's text, read as a speed: the speed itself. It never answers an error.
pub fn speed_read_again(speed: &Scalar) -> Result<Scalar, TimeFault>
    ensures ok { IsOk result }
    ensures speed { IfOk result (λ again. again ≡ speed.now) }
{
    let text = speed.text();
    match Decimal::read(text.as_str().as_bytes()) {
        Ok(decimal) => Scalar::of(&decimal),
        Err(fault) => Err(fault),
    }
}

/// Whether `==` says that two rates are equal: exactly where they are the same.
pub fn equal_rates(rate: &Rate, other: &Rate) -> bool
    ensures { IsTrue result ↔ (rate.now ≡ other.now) }
{
    *rate == *other
}

/// Whether `==` says that two times are equal: exactly where they are the same, in ticks and rate.
pub fn equal_times(time: &Time, other: &Time) -> bool
    ensures { IsTrue result ↔ (time.now ≡ other.now) }
{
    *time == *other
}

/// Law: both ways to calculate a rounded number give the nearest whole number, and the even one of
/// two. It does nothing.
pub fn rounds_to_nearest()
    ensures fraction { (a b : ℕ) → 1 ≤ b → IsNearestEven a b (half_even a b) }
    ensures millionths { (z : ℤ) → IsHalfEven (record { top = z; bottom = 1000000 })
        (from_millionths z) }
{}

/// Law: a word is at most one rate. It does nothing.
pub fn one_rate()
    ensures { (word : List ℕ) (one other : AnyRate) → IsRateWord word one →
        IsRateWord word other → one ≡ other }
{}
