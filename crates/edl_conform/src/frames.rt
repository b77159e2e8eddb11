//! Record frames and their labels.

ghost use Rattle.std.specs.Prelude.{◌≡◌, ◌*◌};
ghost use Rattle.limits.specs.Limits.{most_ticks};
ghost use Rattle.edl_frames.specs.Jobs as jobs;
ghost use Rattle.edl_conform.specs.Stated.{stated_job};
ghost use Rattle.edl_conform.specs.Ranges.{IsNear};

use crate::bools::both;
use crate::list_settings::Job;

/// Whole record frames in so many ticks.
pub(crate) fn frames_in(job: &Job<'_>, ticks: i128) -> i128
    requires { IsNear (4000 * most_ticks) ticks }
    ensures value { result ≡ jobs.frames_in (stated_job job.now) ticks }
    ensures range { IsNear 1000000000000 result }
{
    ticks.div_euclid(job.ticks)
}

/// The record frame at an instant of a track.
pub(crate) fn record_at(job: &Job<'_>, ticks: i128) -> i128
    requires { IsNear (4000 * most_ticks) ticks }
    ensures value { result ≡ jobs.record_at (stated_job job.now) ticks }
    ensures range { IsNear 2000000000000000000 result }
{
    job.first + frames_in(job, ticks)
}

/// Whether an instant is the start of a record frame.
pub(crate) fn is_on_frame(job: &Job<'_>, ticks: i128) -> bool
    ensures { result ≡ jobs.is_on_frame (stated_job job.now) ticks }
{
    ticks.rem_euclid(job.ticks) == 0
}

/// Whether the label of a frame number is one of the day.
pub(crate) fn is_in_day(job: &Job<'_>, frame: i128) -> bool
    ensures { result ≡ jobs.is_in_day (stated_job job.now) frame }
{
    both(0 <= frame, frame < job.day)
}
