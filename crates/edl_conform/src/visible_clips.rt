//! Clips that are shown, and where their sources stand.

ghost use Rattle.std.specs.Prelude.{◌≡◌, ◌+◌, ◌*◌, ◌*ℤ◌, ◌-ℤ◌, ◌≤ℤ◌, None, pos, IfSome, option_map};
ghost use Rattle.std.specs.Int.{int_div_euclid};
ghost use Rattle.limits.specs.Limits.{most_ticks};
ghost use Rattle.coord.specs.Soundness.{fault_of};
ghost use Rattle.coord.specs.Speeds as speeds;
ghost use Rattle.edl_frames.specs.Seats as seats;
ghost use Rattle.edl_frames.specs.Sides as sides;
ghost use Rattle.edl_conform.specs.Stated.{stated_job};
ghost use Rattle.edl_conform.specs.Ranges.{IsNear};
ghost use Rattle.edl_conform.specs.Shots.{IsShot, clip_of};

use crate::frames::frames_in;
use crate::list_settings::Job;
use coord::{media_offset, speed, trimmed_start};
use otio_model::{Clip, Item, ItemOf};

/// A clip that is shown, its speed in millionths, and where its trimmed range starts, in ticks.
#[derive(Clone, Copy)]
pub(crate) struct Shot<'a> {
    pub(crate) clip: &'a Clip,
    pub(crate) speed: i64,
    pub(crate) start: i128,
}

/// The clip that an item is, where it is shown.
pub(crate) fn shot_in(item: &Item) -> Option<Shot<'_>>
    requires { fault_of item.now ≡ None }
    ensures clip { option_map clip_of result ≡ seats.clip_in item.now }
    ensures shot { IfSome result IsShot }
{
    match item {
        ItemOf::Clip(clip) => {
            if clip.enabled {
                Some(Shot {
                    clip,
                    speed: speed(item),
                    start: trimmed_start(item),
                })
            } else {
                None
            }
        }
        _ => None,
    }
}

/// So many ticks at a speed in millionths, in millionths of a tick.
pub(crate) fn product(ticks: i128, speed: i64) -> i128
    requires low { (pos 0 -ℤ pos 2116800000000000000000000) ≤ℤ ticks }
    requires high { ticks ≤ℤ pos 2116800000000000000000000 }
    requires speed_low { (pos 0 -ℤ pos 1000000000) ≤ℤ speed }
    requires speed_high { speed ≤ℤ pos 1000000000 }
    ensures value { result ≡ ticks *ℤ speed }
    ensures least { (pos 0 -ℤ pos 2116800000000000000000000000000000) ≤ℤ result }
    ensures most { result ≤ℤ pos 2116800000000000000000000000000000 }
{
    ticks * i128::from(speed)
}

/// How far the media go in so many ticks, or frames, at a speed in millionths.
pub(crate) fn played(ticks: i128, speed: i64) -> i128
    requires ticks { IsNear (3 * most_ticks) ticks }
    requires speed { IsNear 1000000000 speed }
    ensures value { result ≡ int_div_euclid (ticks *ℤ speed) (pos 1000000) }
    ensures range { IsNear (3000 * most_ticks + 1) result }
{
    media_offset(ticks, speed)
}

/// How many source frames go by in so many record frames, at a speed in millionths.
pub(crate) fn gone(count: i128, speed: i64) -> i128
    requires count { IsNear 1000000000000 count }
    requires speed { IsNear 1000000000 speed }
    ensures value { result ≡ int_div_euclid (count *ℤ speed) (pos 1000000) }
    ensures range { IsNear 1000000000000001 result }
{
    media_offset(count, speed)
}

// The instant of the media that is reached in so many ticks from a start.
fn media_at(start: i128, speed: i64, ticks: i128) -> i128
    requires start { IsNear most_ticks start }
    requires ticks { IsNear (3 * most_ticks) ticks }
    requires speed { IsNear 1000000000 speed }
    ensures value { result ≡ speeds.media_at start speed ticks }
    ensures range { IsNear (4000 * most_ticks) result }
{
    start + played(ticks, speed)
}

/// The source frame of a clip that starts at an instant of the track, at another one.
pub(crate) fn source_at(job: &Job<'_>, shot: &Shot<'_>, start: i128, at: i128) -> i128
    requires shot { IsShot shot.now }
    requires start { IsNear most_ticks start }
    requires at { IsNear (2 * most_ticks) at }
    ensures value { result ≡ sides.source_at (stated_job job.now) (clip_of shot.now) start at }
    ensures range { IsNear 1000000000000 result }
{
    frames_in(job, media_at(shot.start, shot.speed, at - start))
}
