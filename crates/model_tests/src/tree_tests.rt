//! Lengths, places and copies of leaves, speeds of effects, and searches over children.

use crate::trees::{FRAME, copied, frames, gap, played, rate_24, span, warps};
use otio_model::{
    Children, Clip, Effects, External, Item, ItemOf, Items, Media, MediaMap, Metadata, Place,
    Transition, copy_place,
};
use sequences::{NamedValues, Text};
use std::alloc::{AllocError, Global};
use std::process::Abort;
use std::test::Fail;
use tick_time::{Scalar, Span};

// A clip of these media, that uses those of this key.
fn clip_of(alloc: Global, key: Text, media_references: MediaMap) -> Clip {
    let effects = Effects::new(alloc);
    let mut clip = played(alloc, Text::empty(), None, media_references, effects);
    clip.active_media_reference_key = key;
    clip
}

// A reference to a file.
fn external(alloc: Global, available_range: Option<Span>) -> Result<Media, AllocError> {
    let target_url = Text::of(alloc, "a.mov")?;
    Ok(Media::External(External {
        metadata: NamedValues::new(alloc),
        name: Text::empty(),
        available_range,
        target_url,
        rest: NamedValues::new(alloc),
    }))
}

// The media that are one, under that key.
fn media_of(alloc: Global, key: Text, medium: Media) -> Result<MediaMap, AllocError> {
    MediaMap::one(alloc, key.as_str(), medium)
}

// A clip with one medium, under that key, that uses those of the key `m`.
fn clip_under(alloc: Global, key: &str, available_range: Option<Span>) -> Result<Clip, AllocError> {
    let used = Text::of(alloc, "m")?;
    let key = Text::of(alloc, key)?;
    let media = media_of(alloc, key, external(alloc, available_range)?)?;
    Ok(clip_of(alloc, used, media))
}

fn transition(alloc: Global) -> Result<Transition, AllocError> {
    let transition_type = Text::of(alloc, "SMPTE_Dissolve")?;
    Ok(Transition {
        metadata: Metadata::new(alloc),
        name: Text::empty(),
        transition_type,
        in_offset: frames(6, rate_24()),
        out_offset: frames(7, rate_24()),
        rest: NamedValues::new(alloc),
    })
}

// How long a leaf is.
fn ticks_of(item: Item) -> Option<i128> {
    let length = match &item {
        ItemOf::Clip(_) | ItemOf::Gap(_) | ItemOf::Transition(_) => item.length(),
        ItemOf::Stack(_) | ItemOf::Track(_) => None,
    };
    drop(item);
    length
}

// Holds how long a leaf is, in ticks.
fn lasts(rt: &impl Abort, item: Item, ticks: Option<i128>) {
    assert!(rt; ticks_of(item) == ticks);
}

#[test]
fn lengths_of_leaves(rt: HostRuntime) -> Result<(), Fail> {
    let alloc = rt.alloc();
    lasts(&rt, ItemOf::Transition(transition(alloc)?), Some(0));
    lasts(&rt, gap(alloc, None), Some(0));
    let bare = clip_of(alloc, Text::empty(), MediaMap::new(alloc));
    lasts(&rt, ItemOf::Clip(bare), None);
    let by_media = clip_under(alloc, "m", span(10, 100))?;
    lasts(&rt, ItemOf::Clip(by_media), Some(100 * FRAME));
    Ok(())
}

// Holds whether a clip has a medium, and which range is available.
fn has_medium(rt: &impl Abort, clip: Clip, wanted: (bool, Option<Span>)) {
    let found = (clip.media().is_some(), clip.available_range());
    drop(clip);
    assert!(rt; found == wanted);
}

#[test]
fn media_are_those_of_the_key(rt: HostRuntime) -> Result<(), Fail> {
    let alloc = rt.alloc();
    let range = span(10, 100);
    has_medium(&rt, clip_under(alloc, "m", range)?, (true, range));
    has_medium(&rt, clip_under(alloc, "n", range)?, (false, None));
    Ok(())
}

#[test]
fn kept_places_change_no_value(rt: HostRuntime) -> Result<(), Fail> {
    let range = span(10, 100);
    let clip = clip_under(rt.alloc(), "m", range)?.with_places(rt.alloc())?;
    let has_reel = clip.listed_reel().is_some();
    assert!(rt; !has_reel);
    has_medium(&rt, clip, (true, range));
    Ok(())
}

// A place of one index.
fn place_one(alloc: Global, first: u32) -> Result<Place, AllocError> {
    let mut place = Place::new(alloc);
    place.push(first)?;
    Ok(place)
}

// A place of two indexes.
fn place_two(alloc: Global, first: u32, second: u32) -> Result<Place, AllocError> {
    let mut place = place_one(alloc, first)?;
    place.push(second)?;
    Ok(place)
}

#[test]
fn places_keep_indexes(rt: HostRuntime) -> Result<(), Fail> {
    let alloc = rt.alloc();
    let place = place_two(alloc, 7, 4_294_967_295)?;
    let copied = copy_place(alloc, &place);
    drop(place);
    let copy = copied?;
    let found = (copy.len(), copy.index(1), copy.index(2));
    drop(copy);
    assert!(rt; found == (2, Some(4_294_967_295), None));
    Ok(())
}

#[test]
fn a_copy_of_a_gap(rt: HostRuntime) -> Result<(), Fail> {
    let alloc = rt.alloc();
    let copy = copied(alloc, Ok(gap(alloc, span(24, 48))));
    lasts(&rt, copy?, Some(48 * FRAME));
    Ok(())
}

// So many gaps of one frame.
fn frame_gaps(alloc: Global, count: usize) -> Result<Items, AllocError> {
    let mut list = Vec::with_capacity(alloc, count)?;
    'gaps: for _ in 0..count {
        list.push(gap(alloc, span(0, 1)))?;
    }
    Ok(Items::of(list))
}

// The index of the child that holds the instant.
fn held(children: &Children, ticks: i128) -> Option<usize> {
    if children.items_below() < 4_294_967_296 {
        match children.holder(ticks) {
            Some(seat) => Some(seat.index),
            None => None,
        }
    } else {
        None
    }
}

// How many of the frames of a track of so many gaps of one frame are held by the gap of their
// number.
fn frames_held(alloc: Global, count: usize) -> Result<usize, AllocError> {
    let children = Children::of(alloc, frame_gaps(alloc, count)?)?;
    let mut right: usize = 0;
    'frames: for frame in 0..count {
        let ticks = (frame as i128) * 29_400_000_000_000_000;
        if held(&children, ticks) == Some(frame)
            && held(&children, ticks + 29_399_999_999_999_999) == Some(frame)
        {
            right = right.wrapping_add(1);
        }
    }
    if held(&children, (count as i128) * 29_400_000_000_000_000).is_none() {
        right = right.wrapping_add(1);
    }
    drop(children);
    Ok(right)
}

// A transition, from 6 frames before its cut to 7 behind it, between gaps of 10 frames.
fn dissolve(alloc: Global) -> Result<Children, AllocError> {
    let cross = ItemOf::Transition(transition(alloc)?);
    let list = vec![in alloc; gap(alloc, span(0, 10)), cross, gap(alloc, span(0, 10))]?;
    Children::of(alloc, Items::of(list))
}

// The index of the transition whose overlap holds a frame's first instant.
fn over(children: &Children, frame: u8) -> Option<usize> {
    if children.items_below() < 4_294_967_296 {
        match children.first_overlap((frame as i128) * 29_400_000_000_000_000) {
            Some(seat) => Some(seat.index),
            None => None,
        }
    } else {
        None
    }
}

// The index of the next transition.
fn next(children: &Children, index: usize) -> Option<usize> {
    if children.items_below() < 4_294_967_296 {
        match children.next_transition(index) {
            Some(seat) => Some(seat.index),
            None => None,
        }
    } else {
        None
    }
}

// What the overlaps hold at four frames, and the next transition from two indexes on.
fn found(made: Result<Children, AllocError>) -> Result<[Option<usize>; 6], AllocError> {
    let children = made?;
    let found = [
        over(&children, 3),
        over(&children, 4),
        over(&children, 16),
        over(&children, 17),
        next(&children, 1),
        next(&children, 2),
    ];
    drop(children);
    Ok(found)
}

#[test]
fn overlaps_are_found(rt: HostRuntime) -> Result<(), Fail> {
    let found = found(dissolve(rt.alloc()))?;
    assert!(rt; found == [None, Some(1), Some(1), None, Some(1), None]);
    Ok(())
}

#[test]
fn each_frame_is_held_by_its_gap(rt: HostRuntime) -> Result<(), Fail> {
    assert!(rt; frames_held(rt.alloc(), 1000)? == 1001);
    Ok(())
}

// The speed of two changes of speed, one after the other.
fn speed_of(alloc: Global, first: Scalar, second: Scalar) -> Result<Option<i64>, AllocError> {
    let effects = warps(alloc, first, second)?;
    let speed = effects.speed();
    drop(effects);
    Ok(speed)
}

#[test]
fn speeds_are_rounded_half_to_even(rt: HostRuntime) -> Result<(), Fail> {
    let speed = speed_of(rt.alloc(), Scalar(1_500_000), Scalar(333_333))?;
    assert!(rt; speed == Some(500_000));
    Ok(())
}

#[test]
fn a_speed_may_pass_1000_on_the_way(rt: HostRuntime) -> Result<(), Fail> {
    let speed = speed_of(rt.alloc(), Scalar(1_000_000_000), Scalar(2_000_000))?;
    assert!(rt; speed == None);
    Ok(())
}
