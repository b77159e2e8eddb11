//! The speed at which an item fills a gap.

ghost use Rattle.std.specs.Prelude.{◌≡◌, ◌≤◌, ◌<◌, ◌*◌, ℤ, pos, ◌≤ℤ◌, ◌<ℤ◌, unsigned_abs};
ghost use Rattle.limits.specs.Limits.{most_ticks};
ghost use Rattle.tick_time.specs.Times.{IsSpeed};
ghost use Rattle.coord.specs.Speeds as speeds;
ghost use Rattle.edits_law.specs.Editable.{IsEditItem};
ghost use Rattle.edits.specs.Edits as edits;

use coord::item_speed;
use otio_model::Item;
use tick_time::half_even;

/// The speed of an item that may be put into a track, in millionths.
#[tactic(auto, using(crate::proofs::FitLemmas::edit_speeds))]
pub(crate) fn edit_speed(item: &Item) -> i64
    requires { IsEditItem item.now }
    ensures value { result ≡ speeds.speed_of item.now }
    ensures range { IsSpeed result }
{
    match item_speed(item) {
        Some(speed) => speed,
        None => unreachable!(),
    }
}

/// The speed at which so many ticks fill a gap, in millionths.
pub(crate) fn fit_speed(ticks: i128, room: i128) -> u128
    requires ticks_low { pos 0 ≤ℤ ticks }
    requires ticks_high { ticks ≤ℤ pos most_ticks }
    requires room_low { pos 0 <ℤ room }
    requires room_high { room ≤ℤ pos most_ticks }
    ensures { pos result ≡ edits.fit_speed ticks room }
{
    half_even(ticks.unsigned_abs() * 1_000_000, room.unsigned_abs())
}
