//! What is seen on a root child at a record frame.

ghost use Rattle.std.specs.Prelude.{◌≡◌, ◌<◌, ◌^◌, ◌-ℤ◌, ◌*ℤ◌, ◌≤ℤ◌, pos, true, false, IfOk, OnErr, length};
ghost use Rattle.otio_model.specs.Counts.{count, count_of};
ghost use Rattle.otio_model.specs.Trees.{items_of};
ghost use Rattle.coord.specs.Programs.{program, child_shows};
ghost use Rattle.coord.specs.Soundness.{IsFaultless, IsFaultlessItem};
ghost use Rattle.show_prog.specs.Clocks.{IsClockOf};
ghost use Rattle.show_prog.specs.Walk.{IsInstant};
ghost use Rattle.coord.specs.Images.{image, is_mix};
ghost use Rattle.show_prog.specs.Pictures.{image_of};

use crate::items::show_item;
use crate::picture::Picture;
use coord::{record_rate, start_frame};
use otio_model::{Item, Timeline};
use std::alloc::{AllocError, Global};

/// How the record frames of a timeline are counted. It is found once, and then serves each
/// frame.
#[derive(Clone, Copy)]
pub struct Clock {
    /// The number of the first record frame.
    start: i128,
    /// The ticks of a record frame.
    ticks: i128,
}

/// How the record frames of a timeline are counted: from its start frame on, at its record rate.
pub fn clock_of(timeline: &Timeline) -> Clock
    ensures { IsClockOf timeline.now result }
{
    Clock {
        start: start_frame(timeline),
        ticks: record_rate(timeline).frame_ticks(),
    }
}

// The instant of a record frame, in ticks from the start, where the first frame has this number
// and a frame so many ticks; `None` only where it lies outside every child.
fn instant(start: i128, ticks: i128, frame: i128) -> Option<i128>
    requires { pos 1 ≤ℤ ticks }
    ensures { IsInstant ((frame -ℤ start) *ℤ ticks) result }
{
    match frame.checked_sub(start) {
        Some(offset) => offset.checked_mul(ticks),
        None => None,
    }
}

// What a root child shows, Blank outside its length.
fn show_root<'a>(alloc: Global, item: &'a Item, ticks: i128) -> Result<Picture<'a>, AllocError>
    requires few { count_of item.now < 2 ^ 32 }
    requires sound { IsFaultlessItem item.now }
    ensures image { IfOk result (λ p. image_of p ≡
        image (child_shows (λ rate. rate) item.now ticks)) }
    ensures memory { OnErr result (is_mix (child_shows (λ rate. rate) item.now ticks) ≡ true) }
{
    if ticks < 0 {
        return Ok(Picture::Blank);
    }
    if ticks < item.length_or_zero() {
        show_item(alloc, item, item.root_kind(), ticks)
    } else {
        Ok(Picture::Blank)
    }
}

/// What a root child shows at a record frame. An error comes where memory runs out, and only where
/// a mix is shown.
pub fn show<'a>(
    alloc: Global,
    timeline: &'a Timeline,
    child: usize,
    frame: i128,
) -> Result<Picture<'a>, AllocError>
    requires few { count timeline.now.tracks.children < 2 ^ 32 }
    requires sound { IsFaultless timeline.now }
    requires there { child < length (items_of timeline.now.tracks.children) }
    ensures image { IfOk result
        (λ picture. image_of picture ≡ image (program timeline.now child frame)) }
    ensures memory { OnErr result (is_mix (program timeline.now child frame) ≡ true) }
{
    show_at(alloc, timeline, clock_of(timeline), child, frame)
}

/// The same as [`show`], with the timeline's own clock ([`clock_of`]), so that record rate and
/// start aren't found again for each frame. An error comes where memory runs out, and only where
/// a mix is shown.
pub fn show_at<'a>(
    alloc: Global,
    timeline: &'a Timeline,
    clock: Clock,
    child: usize,
    frame: i128,
) -> Result<Picture<'a>, AllocError>
    requires few { count timeline.now.tracks.children < 2 ^ 32 }
    requires sound { IsFaultless timeline.now }
    requires clock { IsClockOf timeline.now clock }
    requires there { child < length (items_of timeline.now.tracks.children) }
    ensures image { IfOk result
        (λ picture. image_of picture ≡ image (program timeline.now child frame)) }
    ensures memory { OnErr result (is_mix (program timeline.now child frame) ≡ true) }
{
    let item = timeline.tracks.children.child(child);
    match instant(clock.start, clock.ticks, frame) {
        Some(ticks) => show_root(alloc, item, ticks),
        None => Ok(Picture::Blank),
    }
}
