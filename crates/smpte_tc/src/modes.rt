// How the frames of a rate are counted.
ghost use Rattle.std.specs.Prelude.{◌≡◌, ◌≤ℤ◌, pos, IfSome};
ghost use Rattle.smpte_tc.specs.Modes.{mode_of as mode_at, drop_mode as drop_mode_at, plain_mode as plain_mode_at, IsMode};

use tick_time::Rate;

/// How the frame numbers of a day are counted (SMPTE ST 12-1).
#[derive(Clone, Copy, PartialEq, Eq)]
pub struct Mode {
    /// The frame numbers of a second, from 1 to 60.
    pub nominal: u8,
    /// How many frame numbers drop-frame leaves out of a minute whose number is not a multiple of
    /// ten; 0 without drop-frame.
    pub dropped: u8,
}

/// How the frames of a rate are counted, with drop-frame or without. None where the rate has no
/// such timecode.
pub fn mode_of(rate: Rate, drop: bool) -> Option<Mode>
    ensures mode { result ≡ mode_at rate drop }
    ensures fair { IfSome result IsMode }
{
    if drop {
        drop_mode(rate.num, rate.den)
    } else {
        plain_mode(rate)
    }
}

fn drop_mode(num: i64, den: i64) -> Option<Mode>
    requires num_positive { pos 1 ≤ℤ num }
    requires den_positive { pos 1 ≤ℤ den }
    ensures mode { result ≡ drop_mode_at num den }
    ensures fair { IfSome result IsMode }
{
    match (num, den) {
        (30_000, 1001) => Some(Mode {
            nominal: 30,
            dropped: 2,
        }),
        (60_000, 1001) => Some(Mode {
            nominal: 60,
            dropped: 4,
        }),
        _ => None,
    }
}

fn plain_mode(rate: Rate) -> Option<Mode>
    ensures mode { result ≡ plain_mode_at rate.num rate.den }
    ensures fair { IfSome result IsMode }
{
    match rate.nominal() {
        Some(count) => Some(Mode {
            nominal: count as u8,
            dropped: 0,
        }),
        None => None,
    }
}
