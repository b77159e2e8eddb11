//! Times as whole ticks with a rate.

ghost use Rattle.std.specs.Prelude.{◌≡◌, ℕ, ◌*◌, ◌%◌, ◌≤◌, ◌<◌, ◌↔◌, pos, ◌+ℤ◌, ◌-ℤ◌, ◌*ℤ◌, ◌≤ℤ◌, ℤ, IsTrue, IfOk, IfErr, unsigned_abs};
ghost use Rattle.std.specs.Int.{int_div_euclid};
ghost use Rattle.std.specs.Ordering.{int_cmp};
ghost use Rattle.tick_time.specs.Rates.{unit, frame};
ghost use Rattle.tick_time.specs.Decimals.{decimal_value};
ghost use Rattle.tick_time.specs.Texts.{IsValueText};
ghost use Rattle.limits.specs.Limits.{most_ticks};
ghost use Rattle.tick_time.specs.Times.{IsInRange, IsWhole};

use crate::decimals::Decimal;
use crate::faults::TimeFault;
use crate::fixed_rates::finest_rate;
use crate::rates::Rate;
use crate::rounding::millionths;
use crate::texts::millionths_text;
use arrayvec::ArrayString;
use limits::MOST_TICKS;
use std::cmp::Ordering;

/// A time: whole ticks, of which a second has 705 600 000 000 000 000, and the rate at which it is
/// counted.
#[derive(Clone, Copy)]
pub struct Time {
    /// Ticks from 0, at most a million seconds either way.
    pub ticks: i128,
    /// The rate, of whose units the ticks are a whole number.
    pub rate: Rate,
    ghost low: { (pos 0 -ℤ pos most_ticks) ≤ℤ ticks },
    ghost high: { ticks ≤ℤ pos most_ticks },
    ghost whole: { IsWhole ticks (unit rate.num rate.den) },
}

ghost use Rattle.std.proofs.Common.{rules};
ghost use Rattle.std.specs.Cmp.Rules.{comparing};
ghost use Rattle.std.specs.Ordering.{int_eq, on, eq_of_both};

/// Two times are equal exactly where their ticks and their rates are.
impl PartialEq for Time {
    ghost eq = { eq_of_both (on (λ time. time.ticks) int_eq)
        (eq_of_both (on (λ time. time.rate.num) int_eq) (on (λ time. time.rate.den) int_eq)) };

    ghost laws = { Prim.search (comparing, rules) depth 9 };

    fn eq(&self, other: &Time) -> bool {
        self.ticks == other.ticks && self.rate == other.rate
    }
}

impl Eq for Time {
    ghost laws = { Prim.search (comparing, rules) depth 9 };
}

#[tactic(auto, using(crate::proofs::Wholes::wholes))]
impl Time {
    ghost use Rattle.tick_time.specs.Frames.{IsFrames, in_ticks};
    ghost use Rattle.tick_time.specs.Sums.{larger, IsNear, IsTimeOf, IsBeyond};

    /// The time of a value of a rate, a number of frames: its millionths, rounded half to even, are
    /// so many units. [`TimeFault::Range`] comes exactly where it lies more than a million seconds
    /// from 0.
    pub fn of(d: &Decimal, rate: Rate) -> Result<Time, TimeFault>
        ensures time { IfOk result (IsTimeOf
            (decimal_value d.now.neg d.now.digits d.now.exp) rate) }
        ensures fault { IfErr result (λ fault. (fault ≡ TimeFault.Range) ×
            IsBeyond (decimal_value d.now.neg d.now.digits d.now.exp) rate) }
    {
        match millionths(d) {
            Some(units) => time_of_ticks(unit_ticks(units, &rate), rate),
            None => Err(TimeFault::Range),
        }
    }

    /// The time of whole frames of the rate. [`TimeFault::Range`] comes exactly where it lies more
    /// than a million seconds from 0.
    pub fn frames(n: i64, rate: Rate) -> Result<Time, TimeFault>
        ensures ticks { IfOk result (λ time. time.ticks ≡ n *ℤ pos (frame rate.num rate.den)) }
        ensures rate { IfOk result (λ time. time.rate ≡ rate) }
        ensures fault { IfErr result (λ fault. (fault ≡ TimeFault.Range) ×
            (IsInRange (n *ℤ pos (frame rate.num rate.den)) → ⊥)) }
    {
        time_of_ticks(ticks_of_frames(n, &rate), rate)
    }

    /// The time of whole frames of the rate that lie at most a million seconds from 0.
    pub fn of_frames(n: i64, rate: Rate) -> Time
        requires range { IsInRange (in_ticks rate n) }
        ensures { IsFrames rate n result }
    {
        match Time::frames(n, rate) {
            Ok(time) => time,
            Err(_) => unreachable!(),
        }
    }

    /// The time of these ticks, at the rate where they are a whole number of its units, else at the
    /// finest rate. [`TimeFault::Range`] comes exactly where it lies more than a million seconds
    /// from 0.
    pub fn near(ticks: i128, rate: Rate) -> Result<Time, TimeFault>
        ensures near { IfOk result (IsNear ticks rate) }
        ensures fault { IfErr result (λ fault. (fault ≡ TimeFault.Range) × (IsInRange ticks → ⊥)) }
    {
        if is_whole(ticks, rate.unit()) {
            time_of_ticks(ticks, rate)
        } else {
            time_of_ticks(ticks, finest_rate())
        }
    }

    /// The sum, at the larger of the two rates where its ticks are a whole number of units of that
    /// rate, else at the finest rate. [`TimeFault::Range`] comes exactly where it lies more than a
    /// million seconds from 0.
    pub fn add(self, other: Time) -> Result<Time, TimeFault>
        ensures sum { IfOk result (IsNear (self.ticks +ℤ other.ticks)
            (larger self.rate other.rate)) }
        ensures fault { IfErr result (λ fault. (fault ≡ TimeFault.Range) ×
            (IsInRange (self.ticks +ℤ other.ticks) → ⊥)) }
    {
        Time::near(self.ticks + other.ticks, self.rate.larger(other.rate))
    }

    /// The difference, at a rate as in [`Time::add`], and with its fault.
    pub fn sub(self, other: Time) -> Result<Time, TimeFault>
        ensures difference { IfOk result
            (IsNear (self.ticks -ℤ other.ticks) (larger self.rate other.rate)) }
        ensures fault { IfErr result (λ fault. (fault ≡ TimeFault.Range) ×
            (IsInRange (self.ticks -ℤ other.ticks) → ⊥)) }
    {
        Time::near(self.ticks - other.ticks, self.rate.larger(other.rate))
    }

    /// The value of the time, in frames of its rate, as a decimal with no final zeros and at least
    /// one digit behind the point.
    pub fn value_text(&self) -> ArrayString<32>
        ensures { IsValueText result.bytes self.now.ticks
            (unit self.now.rate.num self.now.rate.den) }
    {
        millionths_text(unit_count(self.ticks, self.rate.unit()))
    }

    /// The order of two times by their ticks alone.
    pub fn compare(&self, other: &Time) -> Ordering
        ensures { result ≡ int_cmp self.now.ticks other.now.ticks }
    {
        self.ticks.cmp(&other.ticks)
    }

    /// The number of the frame of a rate that holds the time: the whole frames before it.
    pub fn floor_frame(&self, of: Rate) -> i128
        ensures { result ≡ int_div_euclid self.now.ticks (pos (frame of.num of.den)) }
    {
        self.ticks.div_euclid(of.frame_ticks())
    }

    /// Whether the time is a whole number of frames of a rate.
    pub fn on_frame(&self, of: Rate) -> bool
        ensures { IsTrue result ↔ IsWhole self.now.ticks (frame of.num of.den) }
    {
        is_whole(self.ticks, of.frame_ticks())
    }
}

// The time of these ticks, where they are in range.
fn time_of_ticks(ticks: i128, rate: Rate) -> Result<Time, TimeFault>
    requires { IsWhole ticks (unit rate.num rate.den) }
    ensures time { IfOk result (λ time. (time.ticks ≡ ticks) × (time.rate ≡ rate)) }
    ensures fault { IfErr result (λ fault. (fault ≡ TimeFault.Range) × (IsInRange ticks → ⊥)) }
{
    if is_in_range(ticks) {
        Ok(Time { ticks, rate })
    } else {
        Err(TimeFault::Range)
    }
}

// The ticks of so many frames of a rate.
fn ticks_of_frames(n: i64, rate: &Rate) -> i128
    ensures { result ≡ n *ℤ pos (frame rate.now.num rate.now.den) }
{
    frame_count_ticks(i128::from(n), rate.frame_ticks())
}

// So many times the ticks of a frame.
#[tactic(auto, using(crate::proofs::Products::frames_fit))]
fn frame_count_ticks(count: i128, piece: i128) -> i128
    requires low { (pos 0 -ℤ pos 10000000000000000000) ≤ℤ count }
    requires high { count ≤ℤ pos 10000000000000000000 }
    requires piece_low { pos 1 ≤ℤ piece }
    requires piece_high { piece ≤ℤ pos 705600000000000000 }
    ensures { result ≡ count *ℤ piece }
{
    count * piece
}

// The ticks of so many units of a rate.
#[tactic(auto, using(crate::proofs::Products::units_fit))]
fn unit_ticks(units: i128, rate: &Rate) -> i128
    requires { unsigned_abs units ≤ 1000000000000000000000000 }
    ensures { result ≡ units *ℤ pos (unit rate.now.num rate.now.den) }
{
    units * rate.unit()
}

// How many whole units the ticks are.
fn unit_count(ticks: i128, unit: i128) -> i128
    requires low { (pos 0 -ℤ pos most_ticks) ≤ℤ ticks }
    requires high { ticks ≤ℤ pos most_ticks }
    requires unit { pos 1 ≤ℤ unit }
    ensures exact { (units : ℤ) → ticks ≡ (units *ℤ unit) → result ≡ units }
    ensures small { unsigned_abs result ≤ 1000000000000000000000000 }
{
    ticks.div_euclid(unit)
}

// Whether the ticks lie at most a million seconds from 0.
fn is_in_range(ticks: i128) -> bool
    ensures { IsTrue result ↔ IsInRange ticks }
{
    -MOST_TICKS <= ticks && ticks <= MOST_TICKS
}

// Whether the ticks are a whole number of pieces of so many ticks.
fn is_whole(ticks: i128, piece: i128) -> bool
    requires { pos 1 ≤ℤ piece }
    ensures { IsTrue result ↔ IsWhole ticks (unsigned_abs piece) }
{
    ticks.rem_euclid(piece) == 0
}
