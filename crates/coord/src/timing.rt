//! When items and timelines start, and at which rate a timeline is counted.

ghost use Rattle.std.specs.Prelude.{◌≡◌, ◌≤◌, option_map};
ghost use Rattle.std.specs.Option.{option_copied, option_or};
ghost use Rattle.otio_model.specs.Lengths as lengths;
ghost use Rattle.coord.specs.Keys.{frame_rate};
ghost use Rattle.coord.specs.Programs as programs;

use crate::media::media_rate;
use otio_model::{Children, Clip, Item, ItemOf, Timeline};
use tick_time::{Rate, Span, rate_24};

// Where a span starts, else another one, else 0.
fn start_of(span: Option<Span>, other: Option<Span>) -> i128
    ensures { result ≡ lengths.range_start (option_or (option_map lengths.range_of span)
        (option_map lengths.range_of other)) }
{
    match span {
        Some(span) => span.start.ticks,
        None => match other {
            Some(other) => other.start.ticks,
            None => 0,
        },
    }
}

/// Where the trimmed range of an item starts, in ticks of its media or its children: with its
/// source_range, else with what is available.
#[tactic(auto, using(crate::proofs::Starts::from_zero_starts))]
pub fn trimmed_start(item: &Item) -> i128
    ensures { result ≡ lengths.trimmed_start item.now }
{
    match item {
        ItemOf::Clip(clip) => start_of(clip.source_range, clip.available_range()),
        ItemOf::Gap(gap) => start_of(gap.source_range, None),
        ItemOf::Transition(_) => 0,
        ItemOf::Stack(stack) => start_of(stack.source_range, None),
        ItemOf::Track(track) => start_of(track.source_range, None),
    }
}

// The rate of a clip's media, or 24 where it has no range.
fn clip_rate(clip: &Clip) -> Rate
    ensures { frame_rate result ≡ programs.rate_of_clip clip.now }
{
    match media_rate(clip) {
        Some(rate) => rate,
        None => rate_24(),
    }
}

// The first clip among an item and those below it.
#[cycle(clip)]
fn clip_in(item: &Item) -> Option<&Clip>
    ensures { option_copied result ≡ programs.clip_by programs.first_clip item.now }
{
    match item {
        ItemOf::Clip(clip) => Some(clip),
        ItemOf::Stack(stack) => first_clip(&stack.children),
        ItemOf::Track(track) => first_clip(&track.children),
        _ => None,
    }
}

// The first clip among children and those below them.
#[cycle(clip)]
fn first_clip(children: &Children) -> Option<&Clip>
    ensures { option_copied result ≡ programs.first_clip children.now }
{
    match children.first_with_clip() {
        Some(index) => clip_in(children.child(index)),
        None => None,
    }
}

/// The record rate: that of the start, else of the media of the first clip, else 24.
pub fn record_rate(timeline: &Timeline) -> Rate
    ensures { frame_rate result ≡ programs.record_rate timeline.now }
{
    match timeline.global_start_time {
        Some(start) => start.rate,
        None => match first_clip(&timeline.tracks.children) {
            Some(clip) => clip_rate(clip),
            None => rate_24(),
        },
    }
}

/// How many ticks a record frame of the timeline takes.
pub fn frame_ticks(timeline: &Timeline) -> u128
    ensures value { result ≡ programs.frame_ticks (programs.record_rate timeline.now) }
    ensures some { 1000000 ≤ result }
    ensures few { result ≤ 705600000000000000 }
{
    record_rate(timeline).frame_ticks() as u128
}

/// The number of the first record frame: that of the start, else 0.
pub fn start_frame(timeline: &Timeline) -> i128
    ensures { result ≡ programs.start_frame timeline.now }
{
    match timeline.global_start_time {
        Some(start) => start.floor_frame(start.rate),
        None => 0,
    }
}
