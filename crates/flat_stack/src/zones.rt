//! The ends of a window, as times and in ticks.

ghost use Rattle.std.specs.Prelude.{◌≡◌, ◌*ℤ◌, ◌-ℤ◌, ◌≤ℤ◌, IfNone, IfSome, false, pos};
ghost use Rattle.tick_time.specs.Rates.{frame};
ghost use Rattle.edits.specs.Finest.{in_range};
ghost use Rattle.coord.specs.Soundness.{StartsOnFrame};
ghost use Rattle.flat.specs.Windowed.{is_window};
ghost use Rattle.flat_stack.specs.Ends.{IsZone};
ghost use Rattle.flat_stack.specs.Ends as zones;

use crate::root_children::flat_rate;
use coord::start_frame;
use otio_model::Timeline;
use tick_time::{Rate, Time};

// Where a timeline starts, in ticks.
fn first_ticks(timeline: &Timeline) -> i128
    ensures value { result ≡ zones.first_ticks timeline.now }
    ensures low { (pos 0 -ℤ pos 705600000000000000000000) ≤ℤ result }
    ensures high { result ≤ℤ pos 705600000000000000000000 }
{
    match timeline.global_start_time {
        Some(start) => start.ticks,
        None => 0,
    }
}

// A frame of a rate as a time; `None` exactly where it lies more than a million seconds from 0.
fn frame_time(number: i128, rate: Rate) -> Option<Time>
    ensures ticks { IfSome result
        (λ time. time.ticks ≡ (number *ℤ pos (frame rate.num rate.den))) }
    ensures rate { IfSome result (λ time. time.rate ≡ rate) }
    ensures none { IfNone result (in_range (number *ℤ pos (frame rate.num rate.den)) ≡ false) }
{
    if number > 1_000_000_000_000_000_000 {
        return None;
    }
    if number < -1_000_000_000_000_000_000 {
        return None;
    }
    match Time::frames(number as i64, rate) {
        Ok(time) => Some(time),
        Err(_) => None,
    }
}

/// The time of a window's first record frame, and the window's ends in ticks from the timeline's
/// start; `None` exactly where it is no window of the timeline.
pub(crate) fn zone_of(timeline: &Timeline, a: i128, b: i128) -> Option<(Time, i128, i128)>
    requires start { StartsOnFrame timeline.now }
    ensures some { IfSome result (λ zone. IsZone timeline.now a b zone.0 zone.1 zone.2) }
    ensures none { IfNone result (is_window timeline.now a b ≡ false) }
{
    if a >= b {
        return None;
    }
    if a < start_frame(timeline) {
        return None;
    }
    let rate = flat_rate(timeline);
    let first = first_ticks(timeline);
    match frame_time(a, rate) {
        Some(start) => match frame_time(b, rate) {
            Some(end) => Some((start, start.ticks - first, end.ticks - first)),
            None => None,
        },
        None => None,
    }
}
