//! The sides that a clip has: that of its event, and that which goes out at its end.

ghost use Rattle.std.specs.Prelude.{◌≡◌, [], ◌∷◌, ◌++◌, ◌*◌, ◌+ℤ◌, ◌-ℤ◌, ◌*ℤ◌, ◌≤ℤ◌, pos, IfSome, option_map};
ghost use Rattle.std.specs.Option.{option_copied, option_to_list};
ghost use Rattle.std.specs.Int.{int_rem_euclid};
ghost use Rattle.std.specs.Ordering.{int_eq};
ghost use Rattle.limits.specs.Limits.{most_ticks};
ghost use Rattle.edl_frames.specs.Jobs.{ticks_of};
ghost use Rattle.edl_frames.specs.ChildReasons as reasons;
ghost use Rattle.edl_conform.specs.Stated.{stated_job, stated_lap};
ghost use Rattle.edl_conform.specs.Ranges.{IsNear};
ghost use Rattle.edl_conform.specs.Seated.{IsOpen};
ghost use Rattle.edl_conform.specs.Shots.{IsNearPart, clip_of, stated_part};
ghost use Rattle.edl_conform.specs.Drafts.{IsShown, IsTested, event_part_at, going_side, tested_either};

use crate::bools::{any_of, both};
use crate::child_context::Lap;
use crate::draft_events::Shown;
use crate::frames::{frames_in, is_in_day};
use crate::list_settings::Job;
use crate::visible_clips::{played, product, source_at};
use edl_frames::is_row_outside;
use media_rows::MediaRow;

/// A side of a clip: the instant of the track at which it begins, how many record frames it has,
/// and after how many its source out stands.
#[derive(Clone, Copy)]
pub(crate) struct Part {
    pub(crate) at: i128,
    pub(crate) frames: i128,
    pub(crate) counted: i128,
}

/// What is tested of the sides of a clip.
#[derive(Clone, Copy)]
pub(crate) struct Tested {
    /// The source stands between two frames where a side begins.
    pub(crate) is_between: bool,
    /// A source label isn't in the day.
    pub(crate) is_past_day: bool,
    /// A shown frame lies outside the listed ones.
    pub(crate) is_outside: bool,
}

/// The side of the event, where it has a length.
pub(crate) fn event_part(job: &Job<'_>, begin: i128, end: i128) -> Option<Part>
    requires begin { IsNear (2 * most_ticks) begin }
    requires end { IsNear (2 * most_ticks) end }
    ensures part { option_map stated_part result ≡ event_part_at (stated_job job.now) begin end }
    ensures range { IfSome result IsNearPart }
{
    if begin < end {
        let frames = frames_in(job, end - begin);
        Some(Part {
            at: begin,
            frames,
            counted: frames,
        })
    } else {
        None
    }
}

// The side that goes out over this overlap.
fn going_part(job: &Job<'_>, lap: Lap<'_>) -> Part
    requires { IsOpen lap }
    ensures part { stated_part result ≡ going_side (stated_job job.now) (stated_lap lap.entry) }
    ensures range { IsNearPart result }
{
    Part {
        at: lap.begin,
        frames: frames_in(job, lap.end - lap.begin),
        counted: 0,
    }
}

/// The side that goes out over an overlap, where there is one.
pub(crate) fn lap_part(job: &Job<'_>, lap: Option<Lap<'_>>) -> Option<Part>
    requires { IfSome lap IsOpen }
    ensures part { option_to_list (option_map stated_part result)
        ≡ reasons.lap_part (stated_job job.now) (option_map stated_lap lap.entry) }
    ensures range { IfSome result IsNearPart }
{
    match lap {
        Some(lap) => Some(going_part(job, lap)),
        None => None,
    }
}

// So much behind a start, in millionths of a tick.
fn reached(start: i128, run: i128) -> i128
    requires low { (pos 0 -ℤ pos 705600000000000000000000) ≤ℤ start }
    requires high { start ≤ℤ pos 705600000000000000000000 }
    requires run_low { (pos 0 -ℤ pos 2116800000000000000000000000000000) ≤ℤ run }
    requires run_high { run ≤ℤ pos 2116800000000000000000000000000000 }
    ensures { result ≡ (start *ℤ pos 1000000) +ℤ run }
{
    start * 1_000_000 + run
}

// A frame in millionths of a tick.
fn frame_of(job: &Job<'_>) -> i128
    ensures value { result ≡ ticks_of (stated_job job.now) *ℤ pos 1000000 }
    ensures some { pos 1 ≤ℤ result }
{
    job.ticks * 1_000_000
}

// Whether so much is a whole number of pieces.
fn is_whole(run: i128, piece: i128) -> bool
    requires { pos 1 ≤ℤ piece }
    ensures { result ≡ int_eq (int_rem_euclid run piece) (pos 0) }
{
    run.rem_euclid(piece) == 0
}

// Whether the source stands between two frames where the side begins.
fn is_between(job: &Job<'_>, shown: &Shown<'_>, part: Part) -> bool
    requires shown { IsShown shown.now }
    requires part { IsNearPart part }
    ensures { result ≡
        reasons.is_between (stated_job job.now) (clip_of shown.now.shot) shown.now.start
        (stated_part part) }
{
    let run = product(part.at - shown.start, shown.shot.speed);
    !is_whole(reached(shown.shot.start, run), frame_of(job))
}

// Whether a source label of the side isn't in the day.
fn is_past_day(job: &Job<'_>, shown: &Shown<'_>, part: Part) -> bool
    requires shown { IsShown shown.now }
    requires part { IsNearPart part }
    ensures { result ≡
        reasons.is_past_day (stated_job job.now) (clip_of shown.now.shot) shown.now.start
        (stated_part part) }
{
    let first = source_at(job, &shown.shot, shown.start, part.at);
    let end = first + played(part.counted, shown.shot.speed);
    !both(is_in_day(job, first), is_in_day(job, end))
}

// Whether a frame that the side shows lies outside the listed ones.
fn is_outside(job: &Job<'_>, shown: &Shown<'_>, row: Option<&MediaRow>, part: Part) -> bool
    requires shown { IsShown shown.now }
    requires part { IsNearPart part }
    ensures { result ≡ reasons.is_outside_row (stated_job job.now) (clip_of shown.now.shot)
        shown.now.start (option_copied row.entry) (stated_part part) }
{
    match row {
        Some(row) => {
            let first = source_at(job, &shown.shot, shown.start, part.at);
            let last = first + played(part.frames - 1, shown.shot.speed);
            is_row_outside(row, first, last)
        }
        None => false,
    }
}

// What is tested of a side.
fn test_one(job: &Job<'_>, shown: &Shown<'_>, row: Option<&MediaRow>, part: Part) -> Tested
    requires shown { IsShown shown.now }
    requires part { IsNearPart part }
    ensures { IsTested (stated_job job.now) (clip_of shown.now.shot) shown.now.start
        (option_copied row.entry) (stated_part part ∷ []) result }
{
    Tested {
        is_between: is_between(job, shown, part),
        is_past_day: is_past_day(job, shown, part),
        is_outside: is_outside(job, shown, row, part),
    }
}

// What is tested of a side, where there is one.
fn test_part(job: &Job<'_>, shown: &Shown<'_>, row: Option<&MediaRow>, part: Option<Part>) -> Tested
    requires shown { IsShown shown.now }
    requires part { IfSome part IsNearPart }
    ensures { IsTested (stated_job job.now) (clip_of shown.now.shot) shown.now.start
        (option_copied row.entry) (option_to_list (option_map stated_part part)) result }
{
    match part {
        Some(part) => test_one(job, shown, row, part),
        None => Tested {
            is_between: false,
            is_past_day: false,
            is_outside: false,
        },
    }
}

// What is tested of one side or another.
fn either(a: Tested, b: Tested) -> Tested
    ensures { result ≡ tested_either a b }
{
    Tested {
        is_between: any_of(a.is_between, b.is_between),
        is_past_day: any_of(a.is_past_day, b.is_past_day),
        is_outside: any_of(a.is_outside, b.is_outside),
    }
}

/// What is tested of the sides of a clip: that of its event, and that which goes out at its end.
pub(crate) fn test_parts(
    job: &Job<'_>,
    shown: &Shown<'_>,
    row: Option<&MediaRow>,
    event: Option<Part>,
    going: Option<Part>,
) -> Tested
    requires shown { IsShown shown.now }
    requires event { IfSome event IsNearPart }
    requires going { IfSome going IsNearPart }
    ensures { IsTested (stated_job job.now) (clip_of shown.now.shot) shown.now.start
        (option_copied row.entry) (option_to_list (option_map stated_part event)
        ++ option_to_list (option_map stated_part going)) result }
{
    either(
        test_part(job, shown, row, event),
        test_part(job, shown, row, going),
    )
}
