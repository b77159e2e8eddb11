//! The speeds at which items play.

ghost use Rattle.std.specs.Prelude.{◌≡◌, pos, ◌-ℤ◌, ◌*ℤ◌, ◌≤ℤ◌, ◌≤◌, ◌*◌, IfSome, unsigned_abs};
ghost use Rattle.std.specs.Int.{int_div_euclid};
ghost use Rattle.tick_time.specs.Times.{IsSpeed};
ghost use Rattle.otio_model.specs.Speeds.{kept_speed};
ghost use Rattle.coord.specs.Speeds as speeds;

use otio_model::{Item, ItemOf};

/// The speed that the effects of an item come to, in millionths. `None` exactly where it passes
/// 1000 times, either way, after one of them.
pub fn item_speed(item: &Item) -> Option<i64>
    ensures speed { result ≡ kept_speed (pos 1000000) (speeds.effects_of item.now) }
    ensures range { IfSome result IsSpeed }
{
    match item {
        ItemOf::Clip(clip) => clip.effects.speed(),
        ItemOf::Gap(gap) => gap.effects.speed(),
        ItemOf::Transition(_) => Some(1_000_000),
        ItemOf::Stack(stack) => stack.effects.speed(),
        ItemOf::Track(track) => track.effects.speed(),
    }
}

/// How far the media of an item go in so many of its ticks, at a speed in millionths: the ticks
/// times the speed, rounded down to whole ticks. It is negative where they go backwards. It counts
/// frames as well as ticks.
pub fn media_offset(ticks: i128, speed: i64) -> i128
    requires low { (pos 0 -ℤ pos 100000000000000000000000000) ≤ℤ ticks }
    requires high { ticks ≤ℤ pos 100000000000000000000000000 }
    requires speed_low { (pos 0 -ℤ pos 1000000000) ≤ℤ speed }
    requires speed_high { speed ≤ℤ pos 1000000000 }
    ensures value { result ≡ int_div_euclid (ticks *ℤ speed) (pos 1000000) }
    ensures near { unsigned_abs result ≤ 1000 * unsigned_abs ticks }
    ensures least { (pos 0 -ℤ pos 100000000000000000000000000000) ≤ℤ result }
    ensures most { result ≤ℤ pos 100000000000000000000000000000 }
{
    // At the plain speed no division is needed.
    if speed == 1_000_000 {
        return ticks;
    }
    scaled_ticks(ticks, speed)
}

// The same at any speed.
fn scaled_ticks(ticks: i128, speed: i64) -> i128
    requires low { (pos 0 -ℤ pos 100000000000000000000000000) ≤ℤ ticks }
    requires high { ticks ≤ℤ pos 100000000000000000000000000 }
    requires speed_low { (pos 0 -ℤ pos 1000000000) ≤ℤ speed }
    requires speed_high { speed ≤ℤ pos 1000000000 }
    ensures value { result ≡ int_div_euclid (ticks *ℤ speed) (pos 1000000) }
    ensures near { unsigned_abs result ≤ 1000 * unsigned_abs ticks }
{
    media_millionths(ticks, speed).div_euclid(1_000_000)
}

/// How much media so many ticks play at a speed in millionths, in millionths of a tick: the ticks
/// times the speed, negative where they play backwards.
pub fn media_millionths(ticks: i128, speed: i64) -> i128
    requires low { (pos 0 -ℤ pos 100000000000000000000000000) ≤ℤ ticks }
    requires high { ticks ≤ℤ pos 100000000000000000000000000 }
    requires speed_low { (pos 0 -ℤ pos 1000000000) ≤ℤ speed }
    requires speed_high { speed ≤ℤ pos 1000000000 }
    ensures value { result ≡ ticks *ℤ speed }
    ensures near { unsigned_abs result ≤ 1000000000 * unsigned_abs ticks }
{
    ticks * i128::from(speed)
}
