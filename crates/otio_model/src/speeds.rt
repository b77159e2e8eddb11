//! The speed that effects come to.

ghost use Rattle.std.specs.Prelude.{◌≡◌, ℤ, pos, ◌-ℤ◌, ◌≤ℤ◌, ◌*ℤ◌, IfSome};
ghost use Rattle.tick_time.specs.Times.{IsSpeed, is_speed};
ghost use Rattle.otio_model.specs.Speeds as speeds;

use crate::effect_types::Effect;
use tick_time::from_millionths;

// One speed times another, in millionths.
#[tactic(auto, using(crate::proofs::SpeedLemmas::product_low, crate::proofs::SpeedLemmas::product_high))]
fn times(speed: i128, scalar: i64) -> i128
    requires speed_low { (pos 0 -ℤ pos 1000000000) ≤ℤ speed }
    requires speed_high { speed ≤ℤ pos 1000000000 }
    requires scalar_low { (pos 0 -ℤ pos 1000000000) ≤ℤ scalar }
    requires scalar_high { scalar ≤ℤ pos 1000000000 }
    ensures { result ≡ speeds.from_millionths (speed *ℤ scalar) }
{
    from_millionths(product(speed, scalar))
}

// The product of two speeds.
fn product(speed: i128, scalar: i64) -> i128
    requires speed_low { (pos 0 -ℤ pos 1000000000) ≤ℤ speed }
    requires speed_high { speed ≤ℤ pos 1000000000 }
    requires scalar_low { (pos 0 -ℤ pos 1000000000) ≤ℤ scalar }
    requires scalar_high { scalar ≤ℤ pos 1000000000 }
    ensures { result ≡ (speed *ℤ scalar) }
{
    speed * i128::from(scalar)
}

// The speed after one more effect.
fn next_speed(speed: i128, effect: &Effect) -> i128
    requires low { (pos 0 -ℤ pos 1000000000) ≤ℤ speed }
    requires high { speed ≤ℤ pos 1000000000 }
    ensures { result ≡ speeds.next_speed speed effect.now }
{
    match effect {
        Effect::Warp(warp) => times(speed, warp.get().time_scalar.0),
        Effect::Freeze(_) => 0,
        _ => speed,
    }
}

// Whether a speed is at most 1000 times, either way.
fn is_speed(speed: i128) -> bool
    ensures { result ≡ is_speed speed }
{
    -1_000_000_000 <= speed && speed <= 1_000_000_000
}

/// The number that is kept of a speed in millionths, or of none.
#[tactic(auto, using(crate::proofs::SpeedLemmas::speed_in_speed))]
pub(crate) fn number_of(speed: Option<i64>) -> i64
    requires { IfSome speed IsSpeed }
    ensures { speeds.speed_in result ≡ speed }
{
    match speed {
        Some(speed) => speed,
        None => i64::MAX,
    }
}

/// The speed that was kept as a number.
pub(crate) fn speed_in(number: i64) -> Option<i64>
    ensures { result ≡ speeds.speed_in number }
{
    if is_speed(i128::from(number)) {
        Some(number)
    } else {
        None
    }
}

/// The speed after these effects, in millionths. `None` exactly where it passes 1000 times, either
/// way, after one of them.
pub(crate) fn kept_speed(effects: &[Effect]) -> Option<i64>
    ensures speed { result ≡ speeds.kept_speed (pos 1000000) effects.now }
    ensures range { IfSome result IsSpeed }
{
    let mut speed: i128 = 1_000_000;
    'effects: for effect in effects {
        speed = next_speed(speed, effect);
        if !is_speed(speed) {
            return None;
        }
    }
    Some(speed as i64)
}
