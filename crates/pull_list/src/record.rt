//! The record frames of a timeline: how many there are, and what is shown at each.

ghost use Rattle.std.specs.Prelude.{◌≡◌, ◌↔◌, ◌<◌, ◌≤◌, ◌^◌, pos, ◌*ℤ◌, ◌≤ℤ◌, ◌<ℤ◌, IsTrue, OnOk};
ghost use Rattle.std.specs.Int.{div_ceil};
ghost use Rattle.otio_model.specs.Counts.{count, count_of};
ghost use Rattle.otio_model.specs.Lengths.{length_of, or_zero};
ghost use Rattle.coord.specs.Programs.{child_shows};
ghost use Rattle.coord.specs.Soundness.{IsFaultless, IsFaultlessItem};
ghost use Rattle.pull_list.specs.Found.{AddsChild, AddsShown, AddsUsed, clips_of_item};
ghost use Rattle.pull_list.specs.Parts.{IsPart};
ghost use Rattle.pull_list.specs.Record.{HasTooMany, record_frames};
ghost use Rattle.pull_list.specs.Runs.{Each, IsRun};

use crate::parts::{Part, part_at};
use crate::shown::add_item;
use crate::used::Used;
use coord::frame_ticks;
use otio_model::{Item, Timeline};
use std::alloc::AllocError;

// How many record frames are looked at, at most.
const MOST_FRAMES: u128 = 10_000_000;

/// Whether the root children take more than 10 000 000 record frames together, each rounded up to
/// whole ones. Disabled children, and those without clips, count as well.
pub fn has_too_many(timeline: &Timeline) -> bool
    requires { count timeline.now.tracks.children < 2 ^ 32 }
    ensures { IsTrue result ↔ HasTooMany timeline.now }
{
    frame_count(timeline) > MOST_FRAMES
}

// How many record frames the root children take together, each rounded up to whole ones.
fn frame_count(timeline: &Timeline) -> u128
    requires { count timeline.now.tracks.children < 2 ^ 32 }
    ensures { result ≡ record_frames timeline.now }
{
    let ticks = frame_ticks(timeline);
    let mut sum = 0;
    'children: for index in 0..timeline.tracks.children.len() {
        sum += frames_of(timeline.tracks.children.child(index), ticks);
    }
    sum
}

// How many record frames of so many ticks an item takes, rounded up to whole ones.
fn frames_of(item: &Item, ticks: u128) -> u128
    requires few { count_of item.now < 2 ^ 32 }
    requires ticks { 1000000 ≤ ticks }
    ensures { result ≡ div_ceil (or_zero (length_of item.now)) ticks }
{
    (item.length_or_zero() as u128).div_ceil(ticks)
}

/// Adds the frames that the root children show at all record frames.
pub(crate) fn add_children<'a>(
    used: &mut Used<'a>,
    timeline: &'a Timeline,
) -> Result<(), AllocError>
    requires few { count timeline.now.tracks.children < 2 ^ 32 }
    requires sound { IsFaultless timeline.now }
    requires bounded { HasTooMany timeline.now → ⊥ }
    requires runs { Each IsRun used.old.runs.items }
    ensures groups { used.new.groups ≡ used.old.groups }
    ensures added { OnOk result (AddsUsed used.old.groups timeline.now used.old.runs.items
        used.new.runs.items) }
{
    let ticks = frame_ticks(timeline);
    'children: for index in 0..timeline.tracks.children.len() {
        add_child(used, timeline.tracks.children.child(index), ticks)?;
    }
    Ok(())
}

// Adds the frames that a root child shows at its record frames of so many ticks.
fn add_child<'a>(used: &mut Used<'a>, item: &'a Item, ticks: u128) -> Result<(), AllocError>
    requires few { count_of item.now < 2 ^ 32 }
    requires sound { IsFaultlessItem item.now }
    requires least { 1000000 ≤ ticks }
    requires most { ticks ≤ 705600000000000000 }
    requires bounded { div_ceil (or_zero (length_of item.now)) ticks ≤ 10000000 }
    requires runs { Each IsRun used.old.runs.items }
    ensures groups { used.new.groups ≡ used.old.groups }
    ensures added { OnOk result (AddsChild used.old.groups item.now ticks
        (div_ceil (or_zero (length_of item.now)) ticks) used.old.runs.items
        used.new.runs.items) }
{
    let count = frames_of(item, ticks) as u32;
    let mut part = Part {
        item,
        ahead: 0,
        past: 0,
    };
    'frames: for frame in 0..count {
        let start = frame_start(frame, ticks);
        part = part_at(item, part, start);
        add_frame(used, item, part, start)?;
    }
    Ok(())
}

// Where a record frame of so many ticks starts.
fn frame_start(frame: u32, ticks: u128) -> i128
    requires frame { frame < 10000000 }
    requires most { ticks ≤ 705600000000000000 }
    ensures { result ≡ pos frame *ℤ pos ticks }
{
    i128::from(frame) * ticks as i128
}

// Adds the frames that a root child shows at an instant in its length, which a part holds.
fn add_frame<'a>(
    used: &mut Used<'a>,
    item: &'a Item,
    part: Part<'a>,
    ticks: i128,
) -> Result<(), AllocError>
    requires few { count_of item.now < 2 ^ 32 }
    requires sound { IsFaultlessItem item.now }
    requires low { pos 0 ≤ℤ ticks }
    requires high { ticks <ℤ pos (or_zero (length_of item.now)) }
    requires part { IsPart item.now ticks part }
    requires holds { ticks <ℤ part.past }
    requires runs { Each IsRun used.old.runs.items }
    ensures groups { used.new.groups ≡ used.old.groups }
    ensures added { OnOk result (AddsShown used.old.groups (clips_of_item item.now)
        used.old.runs.items used.new.runs.items
        (child_shows (λ rate. rate) item.now ticks)) }
{
    add_item(used, part.item, item.root_kind(), ticks + part.ahead)?;
    Ok(())
}
