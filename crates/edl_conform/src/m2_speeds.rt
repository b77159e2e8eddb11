//! Speeds in tenths of a frame a second.

ghost use Rattle.std.specs.Prelude.{◌≡◌, ◌≤◌};
ghost use Rattle.edl_frames.specs.Jobs as jobs;
ghost use Rattle.edl_conform.specs.Ranges.{IsNear};
ghost use Rattle.edl_conform.specs.Tenths.{nearest_tenths};

use edl_list::half_even;

// The tenths of a frame a second that are nearest to a speed in millionths.
fn nearest(count: u64, speed: u64) -> u64
    requires count { count ≤ 60 }
    requires speed { speed ≤ 1000000000 }
    ensures { result ≡ nearest_tenths count speed }
{
    (speed * count + 50_000) / 100_000
}

/// The tenths of a frame a second, at most 9999, that give a speed in millionths, where timecode
/// counts so many frames a second.
pub(crate) fn tenths_of(count: u64, speed: i64) -> Option<u16>
    requires some { 1 ≤ count }
    requires few { count ≤ 60 }
    requires speed { IsNear 1000000000 speed }
    ensures { result ≡ jobs.tenths_of count speed }
{
    if speed < 0 {
        return None;
    }
    let tenths = nearest(count, speed as u64);
    if tenths <= 9999 && half_even(tenths * 100_000, count) == speed as u64 {
        Some(tenths as u16)
    } else {
        None
    }
}
