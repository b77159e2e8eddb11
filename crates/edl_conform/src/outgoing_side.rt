//! What serves as an outgoing side.

ghost use Rattle.std.specs.Prelude.{◌≡◌, ◌≤◌, ◌≤ℤ◌, ◌+ℤ◌, ◌*ℤ◌, ◌==◌, ◌&&◌, pos};
ghost use Rattle.std.specs.Prelude.{unsigned_abs};
ghost use Rattle.std.specs.Option.{option_copied};
ghost use Rattle.std.specs.Ordering.{int_eq};
ghost use Rattle.edl_list.specs.Speeds as speeds;
ghost use Rattle.edl_frames.specs.Conformed as conformed;
ghost use Rattle.edl_law.specs.Fits.{FitsBefore, FitsEvent, FitsSide};
ghost use Rattle.edl_conform.specs.ConformedRanges.{IsLess, IsSmall};

use edl_list::{Event, Reel, Side, side_speed};
use tick_time::Rate;

// Whether two reels are one.
fn is_same_reel(a: &Reel, b: &Reel) -> bool
    ensures { result ≡ conformed.is_same_reel a.now b.now }
{
    match a {
        Reel::Black => match b {
            Reel::Black => true,
            Reel::Named(_) => false,
        },
        Reel::Named(one) => match b {
            Reel::Black => false,
            Reel::Named(other) => one.as_str() == other.as_str(),
        },
    }
}

// Whether the reel is black.
fn is_black(reel: &Reel) -> bool
    ensures { result ≡ conformed.is_black reel.now }
{
    match reel {
        Reel::Black => true,
        Reel::Named(_) => false,
    }
}

/// The product of two numbers of up to a thousand million.
pub(crate) fn product(a: i64, b: i64) -> i128
    requires a { IsSmall a }
    requires b { IsSmall b }
    ensures value { result ≡ a *ℤ b }
    ensures less { IsLess result }
{
    i128::from(a) * i128::from(b)
}

// Whether the sum of two products is a third one.
fn is_sum(a: i128, b: i128, c: i128) -> bool
    requires a { IsLess a }
    requires b { IsLess b }
    requires c { IsLess c }
    ensures { result ≡ int_eq (a +ℤ b) c }
{
    a + b == c
}

// Whether a source that plays so many frames of the record from a frame on, at a speed in
// millionths, has come to another frame.
fn has_come(from: i64, count: i64, speed: i64, to: i64) -> bool
    requires from { IsSmall from }
    requires count { IsSmall count }
    requires speed { IsSmall speed }
    requires to { IsSmall to }
    ensures { result ≡ int_eq ((from *ℤ pos 1000000) +ℤ (count *ℤ speed)) (to *ℤ pos 1000000) }
{
    is_sum(
        product(from, 1_000_000),
        product(count, speed),
        product(to, 1_000_000),
    )
}

// Whether two numbers are equal.
fn is_same(a: i64, b: i64) -> bool
    ensures { result ≡ int_eq a b }
{
    a == b
}

fn is_same_speed(a: i64, b: i64) -> bool
    requires a { pos 0 ≤ℤ a }
    requires b { pos 0 ≤ℤ b }
    ensures { result ≡ (unsigned_abs a == unsigned_abs b) }
{
    a == b
}

fn all_four(a: bool, b: bool, c: bool, d: bool) -> bool
    ensures { result ≡ (a && (b && (c && d))) }
{
    a && b && c && d
}

// Whether an event that ends at a frame goes on as a side: with the same reel and speed, and its
// source has come to that of the side.
fn goes_on(rate: Rate, before: &Event, at: i64, side: &Side) -> bool
    requires timecode { 1 ≤ speeds.count_of rate }
    requires before { FitsEvent rate before.now }
    requires side { FitsSide rate side.now }
    ensures { result ≡ conformed.goes_on rate before.now at side.now }
{
    let speed = side_speed(rate, &before.to);
    all_four(
        is_same(before.rec_out, at),
        is_same_reel(&before.to.reel, &side.reel),
        is_same_speed(speed, side_speed(rate, side)),
        has_come(
            before.to.src_in,
            before.rec_out - before.rec_in,
            speed,
            side.src_in,
        ),
    )
}

// Whether a gap stands before a frame: the event before ends earlier, or is black.
fn leaves_gap(before: &Event, at: i64) -> bool
    ensures { result ≡ conformed.leaves_gap before.now at }
{
    before.rec_out < at || is_black(&before.to.reel)
}

/// Whether the item before, that of the event before or the gap after it, continues as the side
/// that goes out at a frame; the start of a track continues as black.
pub(crate) fn serves(rate: Rate, before: Option<&Event>, at: i64, side: &Side) -> bool
    requires timecode { 1 ≤ speeds.count_of rate }
    requires before { FitsBefore rate (option_copied before) }
    requires side { FitsSide rate side.now }
    ensures { result ≡ conformed.serves rate (option_copied before.entry) at side.now }
{
    match before {
        None => is_black(&side.reel),
        Some(event) => {
            if is_black(&side.reel) {
                leaves_gap(event, at)
            } else {
                goes_on(rate, event, at, side)
            }
        }
    }
}
