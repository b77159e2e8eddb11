//! Sums over record frames.

ghost use Rattle.std.specs.Prelude.{◌≡◌, ◌<◌, ◌^◌, ◌+ℤ◌, pos, true, length, IfOk, OnErr};
ghost use Rattle.otio_model.specs.Counts.{count as count_all};
ghost use Rattle.otio_model.specs.Trees.{items_of};
ghost use Rattle.coord.specs.Programs.{program, start_frame as first_frame};
ghost use Rattle.coord.specs.Images.{image, is_mix};
ghost use Rattle.coord.specs.Soundness.{IsFaultless};
ghost use Rattle.show_prog.specs.Clocks.{IsClockOf};
ghost use Rattle.drill.specs.Sums as sums;
ghost use Rattle.drill.specs.Sums.{numbers_of, IsWide, StopsChild};

use crate::pictures::picture_sum;
use crate::record_frames::frames_of;
use coord::start_frame;
use otio_model::Timeline;
use show_prog::{Clock, clock_of, show_at};
use std::alloc::{AllocError, Global};

// The record frame so many after another; an error where its number leaves 128 bits.
fn frame_behind(first: i128, count: u128) -> Result<i128, AllocError>
    ensures frame { IfOk result (λ frame. frame ≡ first +ℤ pos count) }
    ensures wide { OnErr result (IsWide (first +ℤ pos count)) }
{
    match first.checked_add_unsigned(count) {
        Some(frame) => Ok(frame),
        None => Err(AllocError),
    }
}

// Two sums added; an error where that leaves 128 bits.
fn added(sum: i128, more: i128) -> Result<i128, AllocError>
    ensures sum { IfOk result (λ all. all ≡ sum +ℤ more) }
    ensures wide { OnErr result (IsWide (sum +ℤ more)) }
{
    match sum.checked_add(more) {
        Some(all) => Ok(all),
        None => Err(AllocError),
    }
}

// The numbers that are seen of a root child at a record frame, added up.
fn sum_at(
    alloc: Global,
    timeline: &Timeline,
    clock: Clock,
    child: usize,
    frame: i128,
) -> Result<i128, AllocError>
    requires few { count_all timeline.now.tracks.children < 2 ^ 32 }
    requires sound { IsFaultless timeline.now }
    requires clock { IsClockOf timeline.now clock }
    requires there { child < length (items_of timeline.now.tracks.children) }
    ensures sum { IfOk result
        (λ sum. sum ≡ numbers_of (image (program timeline.now child frame))) }
    ensures memory { OnErr result (is_mix (program timeline.now child frame) ≡ true) }
{
    let picture = match show_at(alloc, timeline, clock, child, frame) {
        Ok(picture) => picture,
        Err(error) => return Err(error),
    };
    match picture_sum(&picture) {
        Some(sum) => Ok(sum),
        None => Err(AllocError),
    }
}

/// The source frame numbers that a root child shows at so many record frames from one on, added
/// up: of a mix those of both sides, and 0 where nothing is shown.
///
/// An error comes where memory runs out, and only where a mix is shown; or where a frame's number
/// or a sum leaves 128 bits, which no timeline of a drill comes near.
pub fn child_sum(
    alloc: Global,
    timeline: &Timeline,
    child: usize,
    first: i128,
    count: u128,
) -> Result<i128, AllocError>
    requires few { count_all timeline.now.tracks.children < 2 ^ 32 }
    requires sound { IsFaultless timeline.now }
    requires there { child < length (items_of timeline.now.tracks.children) }
    ensures sum { IfOk result (λ sum. sum ≡ sums.child_sum timeline.now child first count) }
    ensures memory { OnErr result (StopsChild timeline.now child first count) }
{
    let clock = clock_of(timeline);
    let mut total: i128 = 0;
    'frames: for index in 0..count {
        let frame = frame_behind(first, index)?;
        let here = sum_at(alloc, timeline, clock, child, frame)?;
        total = added(total, here)?;
    }
    Ok(total)
}

/// The source frame numbers that the first root child shows at its own record frames, from the
/// timeline's first on, added up as in [`child_sum`]; 0 where there is no child.
///
/// An error comes where memory runs out, and only where a mix is shown; or where a frame's number
/// or a sum leaves 128 bits, which no timeline of a drill comes near.
pub fn back_sum(alloc: Global, timeline: &Timeline) -> Result<i128, AllocError>
    requires few { count_all timeline.now.tracks.children < 2 ^ 32 }
    requires sound { IsFaultless timeline.now }
    ensures sum { IfOk result (λ sum. sum ≡ sums.back_sum timeline.now) }
    ensures memory { OnErr result
        (StopsChild timeline.now 0 (first_frame timeline.now) (sums.frames_of timeline.now)) }
{
    if timeline.tracks.children.len() == 0 {
        return Ok(0);
    }
    child_sum(
        alloc,
        timeline,
        0,
        start_frame(timeline),
        frames_of(timeline),
    )
}
