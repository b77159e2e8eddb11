//! Faults, rates and speeds of small timelines.

ghost use Rattle.std.specs.Prelude.{◌≡◌, ◌<◌, ◌+◌, IfOk};
ghost use Rattle.otio_model.specs.Counts.{count, count_of};

use crate::trees::{FRAME, frames, one, played, rate_25, span, span_at, timeline_of, track, warps};
use coord::{CoordFault, record_rate, sound, speed, start_frame, trimmed_start};
use otio_model::{Effects, Item, ItemOf, Media, MediaMap, Metadata, Missing, Timeline, Transition};
use sequences::{NamedValues, Text};
use std::alloc::{AllocError, Global};
use std::process::Abort;
use std::test::Fail;
use tick_time::{Rate, Scalar, Span, Time};

// An hour at 25 frames a second.
fn hour() -> Option<Time> {
    frames(90_000, rate_25())
}

// Missing media of this range.
fn missing(alloc: Global, available_range: Option<Span>) -> Media {
    Media::Missing(Missing {
        metadata: NamedValues::new(alloc),
        name: Text::empty(),
        available_range,
        rest: NamedValues::new(alloc),
    })
}

fn media(alloc: Global, available_range: Option<Span>) -> Result<MediaMap, AllocError> {
    MediaMap::one(alloc, "", missing(alloc, available_range))
}

fn clip(alloc: Global, source_range: Option<Span>, media_references: MediaMap) -> Item
    ensures { count_of result ≡ 1 }
{
    let effects = Effects::new(alloc);
    ItemOf::Clip(played(
        alloc,
        Text::empty(),
        source_range,
        media_references,
        effects,
    ))
}

// A track of one item.
fn track_of(alloc: Global, item: Item) -> Result<Item, AllocError>
    ensures { IfOk result (λ track. count_of track ≡ count_of item + 1) }
{
    Ok(track(alloc, one(alloc, item)?))
}

// A timeline of one track with one item.
fn timeline(alloc: Global, start: Option<Time>, item: Item) -> Result<Timeline, AllocError>
    ensures { IfOk result (λ timeline. count timeline.tracks.children ≡ count_of item + 1) }
{
    let track = track_of(alloc, item)?;
    Ok(timeline_of(alloc, start, one(alloc, track)?))
}

/// What was found in a timeline.
#[derive(Clone, Copy, PartialEq, Eq)]
enum Outcome {
    /// No fault.
    Sound,
    /// The child of the root without a length.
    NoLength(u32),
    /// A speed past 1000, of an item so many levels below the root.
    Speed(usize),
    /// An item past a million seconds, so many levels below the root.
    Long(usize),
    /// Something else.
    Other,
}

fn outcome_of(found: Result<(), CoordFault>) -> Outcome {
    match found {
        Ok(()) => Outcome::Sound,
        Err(CoordFault::NoLength(place)) => {
            if place.len() != 1 {
                return Outcome::Other;
            }
            match place.index(0) {
                Some(index) => Outcome::NoLength(index),
                None => Outcome::Other,
            }
        }
        Err(CoordFault::Speed(place)) => Outcome::Speed(place.len()),
        Err(CoordFault::Long(place)) => Outcome::Long(place.len()),
        Err(_) => Outcome::Other,
    }
}

// What is found in a timeline of one track with one item.
fn judged(alloc: Global, item: Item) -> Result<Outcome, AllocError>
    requires { count_of item < 100 }
{
    let timeline = timeline(alloc, None, item)?;
    let found = sound(alloc, &timeline);
    drop(timeline);
    Ok(outcome_of(found))
}

// Holds what is found in a timeline of one track with one item.
fn is_judged(rt: &impl Abort, alloc: Global, item: Item, wanted: Outcome) -> Result<(), Fail>
    requires { count_of item < 100 }
{
    assert!(rt; judged(alloc, item)? == wanted);
    Ok(())
}

// A clip that is played at 2000 times its speed.
fn fast(alloc: Global) -> Result<Item, AllocError>
    ensures { IfOk result (λ item. count_of item ≡ 1) }
{
    let effects = warps(alloc, Scalar(1_000_000_000), Scalar(2_000_000))?;
    Ok(ItemOf::Clip(played(
        alloc,
        Text::empty(),
        span(0, 24),
        MediaMap::new(alloc),
        effects,
    )))
}

// A clip whose media end behind a million seconds.
fn late(alloc: Global) -> Item
    ensures { count_of result ≡ 1 }
{
    clip(alloc, span(23_999_999, 24), MediaMap::new(alloc))
}

// The record rate and the number of the first frame of a timeline of one track with one clip.
fn counted(alloc: Global, start: Option<Time>, item: Item) -> Result<(Rate, i128), AllocError> {
    let timeline = timeline(alloc, start, item)?;
    let found = (record_rate(&timeline), start_frame(&timeline));
    drop(timeline);
    Ok(found)
}

// Holds that such a timeline counts at 25 frames a second, from this frame on.
fn counts_at_25(
    rt: &impl Abort,
    alloc: Global,
    start: Option<Time>,
    item: Item,
    frame: i128,
) -> Result<(), Fail> {
    let (rate, first) = counted(alloc, start, item)?;
    assert!(rt; (rate.num, first) == (25, frame));
    Ok(())
}

fn start_of(alloc: Global, source_range: Option<Span>, media: MediaMap) -> i128 {
    let item = clip(alloc, source_range, media);
    let start = trimmed_start(&item);
    drop(item);
    start
}

#[test]
fn a_transition_plays_as_it_is(rt: HostRuntime) -> Result<(), Fail> {
    let item = ItemOf::Transition(Transition {
        metadata: Metadata::new(rt.alloc()),
        name: Text::empty(),
        transition_type: Text::empty(),
        in_offset: None,
        out_offset: None,
        rest: NamedValues::new(rt.alloc()),
    });
    let found = speed(&item);
    drop(item);
    assert!(rt; found == 1_000_000);
    Ok(())
}

#[test]
fn a_clip_starts_with_its_source_range(rt: HostRuntime) -> Result<(), Fail> {
    let media = media(rt.alloc(), span(10, 200))?;
    assert!(rt; start_of(rt.alloc(), span(24, 48), media) == 24 * FRAME);
    Ok(())
}

#[test]
fn a_clip_without_one_starts_with_its_media(rt: HostRuntime) -> Result<(), Fail> {
    let media = media(rt.alloc(), span(10, 200))?;
    assert!(rt; start_of(rt.alloc(), None, media) == 10 * FRAME);
    Ok(())
}

#[test]
fn a_timeline_counts_at_the_rate_of_its_media(rt: HostRuntime) -> Result<(), Fail> {
    let media = media(rt.alloc(), span_at(0, 200, rate_25()))?;
    let item = clip(rt.alloc(), span(0, 24), media);
    counts_at_25(&rt, rt.alloc(), None, item, 0)
}

#[test]
fn a_timeline_counts_at_the_rate_of_its_start(rt: HostRuntime) -> Result<(), Fail> {
    let item = clip(rt.alloc(), None, MediaMap::new(rt.alloc()));
    counts_at_25(&rt, rt.alloc(), hour(), item, 90_000)
}

#[test]
fn a_track_of_a_clip_without_a_range_has_no_length(rt: HostRuntime) -> Result<(), Fail> {
    let media = media(rt.alloc(), None)?;
    let item = clip(rt.alloc(), None, media);
    is_judged(&rt, rt.alloc(), item, Outcome::NoLength(0))
}

#[test]
fn a_timeline_of_a_clip_with_a_range_is_sound(rt: HostRuntime) -> Result<(), Fail> {
    let item = clip(rt.alloc(), span(24, 48), MediaMap::new(rt.alloc()));
    is_judged(&rt, rt.alloc(), item, Outcome::Sound)
}

#[test]
fn a_speed_is_found_at_each_depth(rt: HostRuntime) -> Result<(), Fail> {
    let alloc = rt.alloc();
    is_judged(&rt, alloc, fast(alloc)?, Outcome::Speed(2))?;
    let deeper = track_of(alloc, fast(alloc)?)?;
    is_judged(&rt, alloc, deeper, Outcome::Speed(3))
}

#[test]
fn an_end_is_found_at_each_depth(rt: HostRuntime) -> Result<(), Fail> {
    let alloc = rt.alloc();
    is_judged(&rt, alloc, late(alloc), Outcome::Long(2))?;
    let deeper = track_of(alloc, late(alloc))?;
    is_judged(&rt, alloc, deeper, Outcome::Long(3))
}
