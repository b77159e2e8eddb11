//! Sides of events.

ghost use Rattle.std.specs.Prelude.{◌≡◌, ◌*◌, IfOk};
ghost use Rattle.limits.specs.Limits.{most_ticks};
ghost use Rattle.edl_frames.specs.Sides as sides;
ghost use Rattle.edl_conform.specs.Stated.{stated_job};
ghost use Rattle.edl_conform.specs.Ranges.{IsNear};
ghost use Rattle.edl_conform.specs.Shots.{IsShot, clip_of};
ghost use Rattle.edl_conform.specs.Drafts.{IsShown};

use crate::clips::{reel_of, row_of};
use crate::draft_events::Shown;
use crate::list_settings::Job;
use crate::m2_speeds::tenths_of;
use crate::visible_clips::{Shot, gone, source_at};
use edl_list::{Reel, Side};
use otio_model::Clip;
use sequences::Text;
use std::alloc::{AllocError, Global};

// The reel of a clip, and black where it has none.
fn reel(alloc: Global, job: &Job<'_>, clip: &Clip) -> Result<Reel, AllocError>
    ensures { IfOk result (λ reel. reel ≡ sides.reel_named
        (sides.clip_reel job.now.layout (stated_job job.now).media clip.now)) }
{
    match reel_of(job, clip, row_of(job, clip)) {
        Some(name) => Ok(Reel::Named(Text::of(alloc, name.as_str())?)),
        None => Ok(Reel::Black),
    }
}

// A name that isn't empty.
fn name_of(alloc: Global, name: &Text) -> Result<Option<Text>, AllocError>
    ensures { IfOk result (λ copy. copy ≡ sides.name_in name.now) }
{
    if name.as_str().is_empty() {
        return Ok(None);
    }
    Ok(Some(Text::of(alloc, name.as_str())?))
}

// The speed of a clip in tenths of a frame a second, none at the rate's own.
fn speed_of(job: &Job<'_>, shot: &Shot<'_>) -> Option<u16>
    requires { IsShot shot.now }
    ensures { result ≡
        sides.speed_in_tenths (stated_job job.now) (sides.speed_in (clip_of shot.now)) }
{
    if shot.speed == 1_000_000 {
        None
    } else {
        tenths_of(job.count, shot.speed)
    }
}

/// The side of a clip from an instant of the track on, over so many record frames.
pub(crate) fn side_of(
    alloc: Global,
    job: &Job<'_>,
    shown: &Shown<'_>,
    at: i128,
    count: i128,
) -> Result<Side, AllocError>
    requires shown { IsShown shown.now }
    requires at { IsNear (2 * most_ticks) at }
    requires count { IsNear 1000000000000 count }
    ensures { IfOk result (λ side. side ≡ sides.side_of (stated_job job.now)
        (clip_of shown.now.shot) shown.now.start at count) }
{
    let first = source_at(job, &shown.shot, shown.start, at);
    let end = first + gone(count, shown.shot.speed);
    Ok(Side {
        reel: reel(alloc, job, shown.shot.clip)?,
        name: name_of(alloc, &shown.shot.clip.name)?,
        src_in: first as i64,
        src_out: end as i64,
        speed: speed_of(job, &shown.shot),
    })
}

/// Black over so many record frames.
pub(crate) fn black_side(count: i128) -> Side
    requires { IsNear 1000000000000 count }
    ensures { result ≡ sides.black_side count }
{
    Side {
        reel: Reel::Black,
        name: None,
        src_in: 0,
        src_out: count as i64,
        speed: None,
    }
}
