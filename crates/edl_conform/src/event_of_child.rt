//! The event of a child.

ghost use Rattle.std.specs.Prelude.{◌≡◌, ◌*◌, ◌≤ℤ◌, pos, ◌-ℤ◌, IfOk, IfSome, option_map, unsigned_abs};
ghost use Rattle.limits.specs.Limits.{most_ticks};
ghost use Rattle.coord.specs.Images.{kind_of};
ghost use Rattle.edl_frames.specs.Jobs as jobs;
ghost use Rattle.edl_frames.specs.Sides as sides;
ghost use Rattle.edl_frames.specs.ChildEvents as events;
ghost use Rattle.edl_conform.specs.Stated.{stated_job, stated_lap, stated_past, stated_seat};
ghost use Rattle.edl_conform.specs.Ranges.{IsNear};
ghost use Rattle.edl_conform.specs.Seated.{IsCarried, IsItemAt, IsOpen, IsPast, IsSeated, IsShort};
ghost use Rattle.edl_conform.specs.Drafts.{IsDraft, IsShown, drafted, side_in};

use crate::child_context::{ChildContext, Lap, Past};
use crate::clips::{LapKind, lap_kind};
use crate::draft_events::{Draft, Shown, draft_of, shown_before};
use crate::frames::{frames_in, record_at};
use crate::list_settings::Job;
use crate::sides::{black_side, side_of};
use edl_list::{Channel, Cross, Event, Side};
use owned::Owned;
use sequences::Text;
use std::alloc::{AllocError, Global};

// The side that comes in from one instant to another: that of a clip that is shown, else black.
fn side_in(
    alloc: Global,
    job: &Job<'_>,
    shown: Option<Shown<'_>>,
    begin: i128,
    end: i128,
) -> Result<Side, AllocError>
    requires shown { IfSome shown IsShown }
    requires begin { IsNear (2 * most_ticks) begin }
    requires end { IsNear (2 * most_ticks) end }
    ensures { IfOk result (λ side. side ≡ side_in (stated_job job.now) shown.entry begin end) }
{
    let count = frames_in(job, end - begin);
    match shown {
        Some(shown) => side_of(alloc, job, &shown, begin, count),
        None => Ok(black_side(count)),
    }
}

// The side that goes out at an instant.
fn side_out(alloc: Global, job: &Job<'_>, past: &Past<'_>, at: i128) -> Result<Side, AllocError>
    requires past { IfSome past.now.item IsItemAt }
    requires at { IsNear (2 * most_ticks) at }
    ensures { IfOk result (λ side. side ≡
        sides.side_out (stated_job job.now) (stated_past past.now).item at) }
{
    match shown_before(past) {
        Some(shown) => side_of(alloc, job, &shown, at, 0),
        None => Ok(black_side(0)),
    }
}

// How an event begins that crosses from a side over so many frames, by its transition's type.
fn crossing(alloc: Global, kind: &Text, frames: u16, from: Side) -> Result<Cross, AllocError>
    ensures { IfOk result (λ cross. cross ≡ sides.crossing (kind_of kind.now) frames from) }
{
    match lap_kind(kind) {
        LapKind::Dissolve => Ok(Cross::Dissolve {
            frames,
            from: Owned::of(alloc, from)?,
        }),
        LapKind::Wipe(code) => Ok(Cross::Wipe {
            code,
            frames,
            from: Owned::of(alloc, from)?,
        }),
        LapKind::Other => Ok(Cross::Cut),
    }
}

// A count of frames of an overlap.
fn small(frames: i128) -> u16
    requires low { pos 0 ≤ℤ frames }
    requires high { frames ≤ℤ pos 999 }
    ensures { result ≡ unsigned_abs frames }
{
    frames as u16
}

// How many frames an overlap has.
fn lap_frames(job: &Job<'_>, lap: &Lap<'_>) -> u16
    requires open { IsOpen lap.now }
    requires short { IsShort job.now.ticks lap.now }
    ensures { result ≡ unsigned_abs
        (jobs.frames_in (stated_job job.now) (lap.now.end -ℤ lap.now.begin)) }
{
    small(frames_in(job, lap.end - lap.begin))
}

// How an event behind an overlap begins.
fn cross_in(
    alloc: Global,
    job: &Job<'_>,
    past: &Past<'_>,
    lap: Option<Lap<'_>>,
) -> Result<Cross, AllocError>
    requires past { IfSome past.now.item IsItemAt }
    requires open { IfSome lap IsOpen }
    requires short { IfSome lap (IsShort job.now.ticks) }
    ensures { IfOk result (λ cross. cross ≡ sides.cross_in (stated_job job.now)
        (stated_past past.now) (option_map stated_lap lap.entry)) }
{
    match lap {
        Some(lap) => {
            let from = side_out(alloc, job, past, lap.begin)?;
            crossing(alloc, lap.kind, lap_frames(job, &lap), from)
        }
        None => Ok(Cross::Cut),
    }
}

// The event that a draft stands for.
fn write(
    alloc: Global,
    job: &Job<'_>,
    channel: Channel,
    past: &Past<'_>,
    draft: Draft<'_>,
) -> Result<Event, AllocError>
    requires past { IfSome past.now.item IsItemAt }
    requires draft { IsDraft draft }
    requires short { IfSome draft.lap (IsShort job.now.ticks) }
    ensures { IfOk result (λ event. event ≡ drafted (stated_job job.now) channel
        (stated_past past.now) draft.entry) }
{
    let to = side_in(alloc, job, draft.shown, draft.begin, draft.end)?;
    let cross = cross_in(alloc, job, past, draft.lap)?;
    Ok(Event {
        line: 0,
        channel,
        to,
        cross,
        rec_in: record_at(job, draft.begin) as i64,
        rec_out: record_at(job, draft.end) as i64,
    })
}

/// The event that a child gives which is carried, on a channel, with 0 for its line; none where it
/// gives none. An error comes where memory runs out.
pub fn event_of(
    alloc: Global,
    job: &Job<'_>,
    channel: Channel,
    seat: &ChildContext<'_>,
) -> Result<Option<Event>, AllocError>
    requires seated { IsSeated seat.now }
    requires past { IsPast job.now.ticks seat.now.past }
    requires carried { IsCarried job.now seat.now }
    ensures { IfOk result (λ event. event ≡
        events.event_of (stated_job job.now) channel (stated_seat seat.now)) }
{
    match draft_of(seat) {
        Some(draft) => Ok(Some(write(alloc, job, channel, &seat.past, draft)?)),
        None => Ok(None),
    }
}
