//! Rates that are fixed.

ghost use Rattle.std.specs.Prelude.{◌≡◌, pos};
ghost use Rattle.tick_time.specs.FixedRates.{finest, rate_24 as film_rate};
ghost use Rattle.tick_time.specs.Rates.{per_millionth};

use crate::rates::Rate;

/// The finest rate, 705 600 000 000 frames a second, whose unit is one tick.
pub fn finest_rate() -> Rate
    ensures is { result ≡ finest }
    ensures num { result.num ≡ pos per_millionth }
    ensures den { result.den ≡ pos 1 }
{
    Rate {
        num: 705_600_000_000,
        den: 1,
    }
}

/// 24 frames a second, the rate of film.
pub fn rate_24() -> Rate
    ensures is { result ≡ film_rate }
    ensures num { result.num ≡ pos 24 }
    ensures den { result.den ≡ pos 1 }
{
    Rate { num: 24, den: 1 }
}
