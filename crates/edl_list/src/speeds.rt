//! What a rate counts, and rounding.
ghost use Rattle.std.specs.Prelude.{◌≡◌, ◌≤◌, ◌^◌, pos, false, IsSome};
ghost use Rattle.smpte_tc.specs.Modes.{mode_of};
ghost use Rattle.edl_list.specs.Speeds.{count_of as frames_of, half_even as rounded, side_speed as speed_of_side};

use crate::list::Side;
use tick_time::Rate;

/// The rate's own speed, in millionths.
pub const OWN_SPEED: i64 = 1_000_000;

/// The frame numbers that timecode gives a second, and 0 where the rate has no timecode
/// (SMPTE ST 12-1).
pub fn count_of(rate: Rate) -> u32
    ensures count { result ≡ frames_of rate }
    ensures small { result ≤ 60 }
    ensures some { IsSome (mode_of rate false) → 1 ≤ result }
{
    match rate.nominal() {
        Some(count) => count as u32,
        None => 0,
    }
}

/// The quotient, rounded to the nearest whole number, and to the even one of two.
pub fn half_even(a: u64, b: u64) -> u64
    requires some { 1 ≤ b }
    requires few { a ≤ 10 ^ 18 }
    ensures { result ≡ rounded a b }
{
    let whole = a / b;
    let rest = a % b;
    if 2 * rest < b {
        return whole;
    }
    if b < 2 * rest {
        return whole + 1;
    }
    whole + whole % 2
}

/// The speed of a side, in millionths of the rate's own, which is [`OWN_SPEED`].
pub fn side_speed(rate: Rate, side: &Side) -> i64
    requires timecode { 1 ≤ frames_of rate }
    ensures { result ≡ pos (speed_of_side rate side.now) }
{
    match side.speed {
        Some(tenths) => half_even(u64::from(tenths) * 100_000, u64::from(count_of(rate))) as i64,
        None => OWN_SPEED,
    }
}
