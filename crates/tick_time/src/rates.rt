//! Rates of frames a second.

ghost use Rattle.std.specs.Prelude.{◌≡◌, ℕ, ◌*◌, ◌/◌, ◌%◌, ◌^◌, ◌≤◌, ◌<◌, ℤ, pos, ◌*ℤ◌, ◌-ℤ◌, ◌≤ℤ◌, IsTrue, IfOk, IfErr, MatchOption, unsigned_abs, true, false, ◌≢◌, length};
ghost use Rattle.tick_time.specs.Texts.{IsDecimalText, relative_text, rate_millionths, ReadsAsRate};
ghost use Rattle.std.specs.List.{Contains};
ghost use Rattle.tick_time.specs.Decimals.{decimal_value, raised, lowered};
ghost use Rattle.tick_time.specs.Rates.{is_rate, is_near_any, counts, IsLowest, IsSpelledRate, GivesRate, unit, frame, nominal, per_millionth};

use crate::decimals::Decimal;
use crate::faults::TimeFault;
use crate::ratios::{gcd, near_count, ratio_of};
use crate::rounding::{raised_shift, raised_size};
use crate::texts::{millionths_text, text_of};
use arrayvec::ArrayString;

/// A rate of frames a second, the fraction `num / den` in lowest terms.
///
/// It is one of the 1001 relatives of 15, 24, 30, 48, 60 and 120 frames a second (SMPTE ST 12-1
/// has timecode for several of them), or a decimal of at most six places, from 1 on, whose
/// numerator divides 705 600 000 000.
#[derive(Clone, Copy)]
pub struct Rate {
    /// The numerator, from 1 to 705 600 000 000.
    pub num: i64,
    /// The denominator, from 1 to 1 000 000 and at most the numerator.
    pub den: i64,
    ghost positive: { pos 1 ≤ℤ den },
    ghost at_least_one: { den ≤ℤ num },
    ghost small_num: { num ≤ℤ pos 705600000000 },
    ghost small_den: { den ≤ℤ pos 1000000 },
    ghost whole: { per_millionth * unsigned_abs den % unsigned_abs num ≡ 0 },
    ghost lowest: { IsLowest (unsigned_abs num) (unsigned_abs den) },
    ghost given: { IsTrue (is_rate (unsigned_abs num) (unsigned_abs den)) },
}

ghost use Rattle.std.proofs.Common.{rules};
ghost use Rattle.std.specs.Cmp.Rules.{comparing};
ghost use Rattle.std.specs.Ordering.{int_eq, on, eq_of_both};

/// Two rates are equal exactly where they are the same fraction.
impl PartialEq for Rate {
    ghost eq = { eq_of_both (on (λ rate. rate.num) int_eq) (on (λ rate. rate.den) int_eq) };

    ghost laws = { Prim.search (comparing, rules) };

    fn eq(&self, other: &Rate) -> bool {
        self.num == other.num && self.den == other.den
    }
}

impl Eq for Rate {
    ghost laws = { Prim.search (comparing, rules) };
}

impl Rate {
    ghost use Rattle.tick_time.specs.Sums.{larger};

    /// The rate that a numeral stands for: within 1/100 of a 1001 relative, that relative; else the
    /// fraction that it spells, where it has at most six decimals, lies from 1 to 705 600 000 000
    /// and its numerator in lowest terms divides 705 600 000 000. [`TimeFault::Rate`] comes exactly
    /// where it is neither.
    pub fn of(d: &Decimal) -> Result<Rate, TimeFault>
        ensures rate { IfOk result (λ rate. GivesRate
            (decimal_value d.now.neg d.now.digits d.now.exp) rate.num rate.den) }
        ensures fault { IfErr result (λ fault. (fault ≡ TimeFault.Rate) ×
            ((num den : ℤ) → GivesRate (decimal_value d.now.neg d.now.digits d.now.exp) num den →
            ⊥)) }
    {
        if d.neg {
            return Err(TimeFault::Rate);
        }
        let ratio = match ratio_of(d.digits, d.exp) {
            Some(ratio) => ratio,
            None => return Err(TimeFault::Rate),
        };
        match near_count(ratio.top, ratio.bottom) {
            Some(count) => Ok(relative_rate(count)),
            None => match spelled_rate(d.digits, d.exp) {
                Some(rate) => Ok(rate),
                None => Err(TimeFault::Rate),
            },
        }
    }

    /// The ticks of a millionth of a frame, from 1 to 705 600 000 000.
    #[tactic(auto, using(crate::proofs::Units::units))]
    pub fn unit(&self) -> i128
        ensures value { result ≡ pos (unit self.now.num self.now.den) }
        ensures positive { pos 1 ≤ℤ result }
        ensures small { result ≤ℤ pos 705600000000 }
        ensures whole { (result *ℤ self.now.num) ≡ (pos per_millionth *ℤ self.now.den) }
    {
        unit_of(self.num, self.den)
    }

    /// The ticks of a frame.
    pub fn frame_ticks(&self) -> i128
        ensures value { result ≡ pos (frame self.now.num self.now.den) }
        ensures positive { pos 1000000 ≤ℤ result }
        ensures small { result ≤ℤ pos 705600000000000000 }
    {
        1_000_000 * self.unit()
    }

    /// The count by which timecode numbers the frames of a second (SMPTE ST 12-1), or `None` where
    /// the rate has no timecode.
    pub fn nominal(&self) -> Option<i64>
        ensures { result ≡ nominal self.now.num self.now.den }
    {
        match (self.num, self.den) {
            (15_000, 1001) => Some(15),
            (24_000, 1001) => Some(24),
            (30_000, 1001) => Some(30),
            (48_000, 1001) => Some(48),
            (60_000, 1001) => Some(60),
            (num, 1) if num <= 60 => Some(num),
            _ => None,
        }
    }

    /// The rate as a numeral that is read as the same rate: a decimal with no final zeros and at
    /// least one digit behind the point, and for a 1001 relative the digits that a 64-bit binary
    /// fraction needs.
    pub fn text(&self) -> ArrayString<32>
        ensures relative { self.now.den ≡ pos 1001 →
            result.bytes ≡ relative_text (unsigned_abs self.now.num) }
        ensures spelled { self.now.den ≢ pos 1001 →
            IsDecimalText result.bytes (pos (rate_millionths self.now.num self.now.den)) }
        ensures reads { ReadsAsRate result.bytes self.now.num self.now.den }
    {
        if self.den == 1001 {
            text_of(relative_text_of(self.num))
        } else {
            millionths_text(rate_size(self.num, self.den))
        }
    }

    /// The larger of two rates.
    #[tactic(auto, using(crate::proofs::RateBounds::num_low, crate::proofs::RateBounds::first_larger, crate::proofs::RateBounds::second_larger))]
    pub(crate) fn larger(self, other: Rate) -> Rate
        ensures { result ≡ larger self other }
    {
        let here = cross(self.num, other.den);
        let there = cross(other.num, self.den);
        if here >= there { self } else { other }
    }
}

// The ticks of a millionth of a frame of `num / den`.
fn unit_of(num: i64, den: i64) -> i128
    requires positive { pos 1 ≤ℤ den }
    requires at_least_one { den ≤ℤ num }
    requires small { den ≤ℤ pos 1000000 }
    ensures { result ≡ pos (unit num den) }
{
    705_600_000_000 * i128::from(den) / i128::from(num)
}

// A numerator times the other denominator.
#[tactic(auto, using(crate::proofs::Products::cross_fits, crate::proofs::Products::cross_is))]
fn cross(num: i64, den: i64) -> i128
    requires num_low { pos 1 ≤ℤ num }
    requires num_high { num ≤ℤ pos 705600000000 }
    requires den_low { pos 1 ≤ℤ den }
    requires den_high { den ≤ℤ pos 1000000 }
    ensures { result ≡ pos (unsigned_abs num * unsigned_abs den) }
{
    i128::from(num) * i128::from(den)
}

// The 1001 relative of a count.
fn relative_rate(count: u128) -> Rate
    requires { Contains counts count }
    ensures num { result.num ≡ pos (1000 * count) }
    ensures den { result.den ≡ pos 1001 }
{
    make_rate(1000 * count, 1001)
}

// The rate of a fraction that meets a rate's conditions.
fn make_rate(num: u128, den: u128) -> Rate
    requires positive { 1 ≤ den }
    requires at_least_one { den ≤ num }
    requires small_num { num ≤ 705600000000 }
    requires small_den { den ≤ 1000000 }
    requires whole { per_millionth * den % num ≡ 0 }
    requires lowest { IsLowest num den }
    requires given { IsTrue (is_rate num den) }
    ensures num { result.num ≡ pos num }
    ensures den { result.den ≡ pos den }
{
    Rate {
        num: num as i64,
        den: den as i64,
    }
}

// The rate that digits with an exponent spell.
fn spelled_rate(digits: u128, exp: i128) -> Option<Rate>
    requires last { digits % 10 ≡ 0 → digits ≡ 0 }
    requires low { (pos 0 -ℤ pos 147573952589676412928) ≤ℤ exp }
    requires high { exp ≤ℤ pos 147573952589676412928 }
    requires apart { is_near_any (digits * 10 ^ raised exp) (10 ^ lowered exp) ≡ false }
    ensures { MatchOption result
        ((num den : ℕ) → IsSpelledRate (digits * 10 ^ raised exp) (10 ^ lowered exp) num den → ⊥)
        (λ rate. IsSpelledRate (digits * 10 ^ raised exp) (10 ^ lowered exp) (unsigned_abs rate.num)
        (unsigned_abs rate.den)) }
{
    if exp < -6 {
        return None;
    }
    match raised_size(digits, raised_shift(exp)) {
        Some(millionths) => lowest_rate(millionths),
        None => None,
    }
}

// The rate of so many millionths of a frame a second.
fn lowest_rate(millionths: u128) -> Option<Rate>
    requires small { millionths ≤ 1000000000000000000000000 }
    requires apart { is_near_any millionths 1000000 ≡ false }
    ensures { MatchOption result
        ((num den : ℕ) → IsSpelledRate millionths 1000000 num den → ⊥)
        (λ rate. IsSpelledRate millionths 1000000 (unsigned_abs rate.num) (unsigned_abs rate.den)) }
{
    let divisor = gcd(millionths, 1_000_000);
    let num = millionths / divisor;
    let den = 1_000_000 / divisor;
    if den <= num && 705_600_000_000 % num == 0 {
        Some(make_rate(num, den))
    } else {
        None
    }
}

// The text of a 1001 relative, by its numerator.
fn relative_text_of(num: i64) -> &'static str
    requires { pos 1 ≤ℤ num }
    ensures text { result.now ≡ relative_text (unsigned_abs num) }
    ensures short { length result.now ≤ 18 }
{
    match num {
        15_000 => "14.985014985014985",
        24_000 => "23.976023976023978",
        30_000 => "29.97002997002997",
        48_000 => "47.952047952047955",
        60_000 => "59.94005994005994",
        _ => "119.88011988011988",
    }
}

// The millionths of a rate.
#[tactic(auto, using(crate::proofs::Products::millionths_fit, crate::proofs::Products::millionths_small, crate::proofs::Products::millionths_are))]
fn rate_size(num: i64, den: i64) -> i128
    requires num_low { pos 1 ≤ℤ num }
    requires num_high { num ≤ℤ pos 705600000000 }
    requires den_low { pos 1 ≤ℤ den }
    requires den_high { den ≤ℤ pos 1000000 }
    ensures value { result ≡ pos (rate_millionths num den) }
    ensures small { unsigned_abs result ≤ 1000000000000000000000000 }
{
    i128::from(num) * million_over(den)
}

// A million over a denominator.
#[tactic(auto, using(crate::proofs::Products::over_is, crate::proofs::Products::over_fits, crate::proofs::Products::over_low, crate::proofs::Products::over_high))]
fn million_over(den: i64) -> i128
    requires { pos 1 ≤ℤ den }
    ensures value { result ≡ pos (1000000 / unsigned_abs den) }
    ensures low { pos 0 ≤ℤ result }
    ensures high { result ≤ℤ pos 1000000 }
{
    1_000_000 / i128::from(den)
}
