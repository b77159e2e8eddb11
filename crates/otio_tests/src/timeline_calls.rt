//! Calls on timelines that no command makes, each with ample memory: pictures, lists that are cut,
//! joined timelines, and the way down to a place.

ghost use Rattle.std.specs.Prelude.{◌≡◌, ◌<◌, ◌^◌, ◌*ℤ◌, IfOk, IfSome, pos};
ghost use Rattle.otio_model.specs.Counts.{count, count_of};
ghost use Rattle.coord.specs.Soundness.{IsFaultlessItem, IsSound};

use crate::runs::put_text;
use crate::timelines::{nested_track, one_track, three_tracks, two_layers};
use coord::sound;
use dev_io::{MemFiles, MemOut};
use edit_plans::{down, edit_rate};
use flat_stack::join;
use otio_model::{Item, ItemOf, Place, Timeline};
use pieces::{CutFault, back, cuts_whole, front, strip};
use show_prog::{print_show, show};
use source_files::timeline_file;
use std::alloc::{AllocError, Global};
use std::mem::forget;
use std::process::Abort;
use std::slice::from_ref;
use std::test::Fail;
use writable_law::read_timelines_are_writable;

// The sound timeline that a text is, once that is made; none where it is none.
fn timeline_of(
    alloc: Global,
    made: Result<String, AllocError>,
) -> Result<Option<Timeline>, AllocError>
    ensures sound { IfOk result (λ found. IfSome found IsSound) }
    ensures few { IfOk result
        (λ found. IfSome found (λ timeline. count timeline.tracks.children < 2 ^ 32)) }
{
    read_timelines_are_writable();
    let mut files = MemFiles::new(alloc);
    put_text(&mut files, "a.otio", made)?;
    let read = timeline_file(alloc, "a.otio", &mut files);
    drop(files);
    match read {
        Ok(timeline) => match sound(alloc, &timeline) {
            Ok(()) => Ok(Some(timeline)),
            Err(_) => {
                forget(timeline);
                Ok(None)
            }
        },
        Err(_) => Ok(None),
    }
}

/// A record frame of a root child.
#[derive(Clone, Copy)]
struct FrameAt {
    child: usize,
    frame: i128,
}

// Prints what a root child shows at a record frame.
fn print_at(
    rt: &impl Abort,
    alloc: Global,
    timeline: &Timeline,
    at: FrameAt,
    out: &mut MemOut,
) -> Result<(), Fail>
    requires sound { IsSound timeline.now }
    requires few { count timeline.now.tracks.children < 2 ^ 32 }
{
    if at.child < timeline.tracks.children.len() {
        let picture = show(alloc, timeline, at.child, at.frame)?;
        let printed = print_show(&picture, out);
        drop(picture);
        assert!(rt; printed.is_ok());
    }
    Ok(())
}

// Holds that a root child shows this at a record frame.
fn check_shown(
    rt: &impl Abort,
    alloc: Global,
    timeline: &Timeline,
    at: FrameAt,
    text: &[u8],
) -> Result<(), Fail>
    requires sound { IsSound timeline.now }
    requires few { count timeline.now.tracks.children < 2 ^ 32 }
{
    let mut out = MemOut::new(alloc, 200)?;
    print_at(rt, alloc, timeline, at, &mut out)?;
    assert!(rt; out.sent() == text);
    drop(out);
    Ok(())
}

fn at(child: usize, frame: i128) -> FrameAt {
    FrameAt { child, frame }
}

fn check_pictures(rt: &impl Abort, alloc: Global, timeline: &Timeline) -> Result<(), Fail>
    requires sound { IsSound timeline.now }
    requires few { count timeline.now.tracks.children < 2 ^ 32 }
{
    let mix = b"mix(dissolve 1/2 url:\"a.mov\"@72 url:\"b.mov\"@100)";
    check_shown(rt, alloc, timeline, at(0, 86448), mix)?;
    check_shown(rt, alloc, timeline, at(1, 86472), b"url:\"c.mov\"@40")?;
    check_shown(rt, alloc, timeline, at(2, 86496), b"-")
}

#[test]
fn pictures_are_shown(rt: HostRuntime) -> Result<(), Fail> {
    let alloc = rt.alloc();
    match timeline_of(alloc, three_tracks(alloc))? {
        Some(timeline) => {
            let held = check_pictures(&rt, alloc, &timeline);
            forget(timeline);
            held
        }
        None => {
            assert!(rt; false);
            Ok(())
        }
    }
}

// How many ticks a number of frames of 24 a second has.
fn ticks_of(frames: u32) -> i128
    ensures { result ≡ pos frames *ℤ pos 29400000000000000 }
{
    i128::from(frames) * 29_400_000_000_000_000
}

/// Where a frame of a root child is reached: the child, the frame, the indexes below the child, and
/// the frame there.
type Reach = (u32, &'static [u32], Option<u32>);

/// A track of ten frames, twenty of a stack at twice its speed, and ten; the stack has one track.
static REACHED: [Reach; 10] = [
    (12, &[0], Some(12)),
    (12, &[0, 1], Some(4)),
    (12, &[0, 1, 0], Some(4)),
    (10, &[0, 1, 0], Some(0)),
    (29, &[0, 1, 0], Some(38)),
    (9, &[0, 1, 0], None),
    (30, &[0, 1, 0], None),
    (40, &[0], None),
    (5, &[0, 0], None),
    (12, &[], None),
];

fn place_of(alloc: Global, indexes: &[u32]) -> Result<Place, AllocError> {
    let mut place = Place::new(alloc);
    for index in indexes {
        place.push(*index)?;
    }
    Ok(place)
}

fn is_reached(
    rt: &impl Abort,
    alloc: Global,
    timeline: &Timeline,
    reach: &Reach,
) -> Result<(), Fail>
    requires sound { IsSound timeline.now }
    requires few { count timeline.now.tracks.children < 2 ^ 32 }
{
    let (frame, indexes, reached) = *reach;
    let place = place_of(alloc, indexes)?;
    let found = down(timeline, &place, ticks_of(frame));
    drop(place);
    let there = match reached {
        Some(frame) => Some(ticks_of(frame)),
        None => None,
    };
    assert!(rt; found == there);
    Ok(())
}

fn check_reached(rt: &impl Abort, alloc: Global, timeline: &Timeline) -> Result<(), Fail>
    requires sound { IsSound timeline.now }
    requires few { count timeline.now.tracks.children < 2 ^ 32 }
{
    for reach in &REACHED {
        is_reached(rt, alloc, timeline, reach)?;
    }
    Ok(())
}

#[test]
fn places_are_reached(rt: HostRuntime) -> Result<(), Fail> {
    let alloc = rt.alloc();
    match timeline_of(alloc, nested_track(alloc))? {
        Some(timeline) => {
            let held = check_reached(&rt, alloc, &timeline);
            forget(timeline);
            held
        }
        None => {
            assert!(rt; false);
            Ok(())
        }
    }
}

// How long the range of a track is, in ticks; none where these aren't one track that has a range.
fn range_ticks(items: &[Item]) -> Option<i128> {
    match items {
        [ItemOf::Track(track)] => match track.source_range {
            Some(range) => Some(range.len.ticks),
            None => None,
        },
        _ => None,
    }
}

// Holds how long a piece of a track is, in ticks.
fn is_long(rt: &impl Abort, piece: Result<Vec<Item>, CutFault>, ticks: i128) {
    match piece {
        Ok(items) => {
            let found = range_ticks(&items);
            forget(items);
            assert!(rt; found == Some(ticks));
        }
        Err(_) => assert!(rt; false),
    }
}

// Holds that a track can be cut behind four of twenty frames, and how long both pieces are.
fn check_cut(rt: &impl Abort, alloc: Global, timeline: &Timeline, track: &Item) -> Result<(), Fail>
    requires few { count_of track.now < 2 ^ 32 }
    requires faultless { IsFaultlessItem track.now }
{
    let list = from_ref(track);
    let rate = edit_rate(timeline);
    let four = 117_600_000_000_000_000;
    assert!(rt; cuts_whole(list, four));
    is_long(rt, front(alloc, list, four, rate), four);
    is_long(rt, back(alloc, list, four, rate), 470_400_000_000_000_000);
    let items = strip(alloc, list, four, four)?;
    let len = items.len();
    forget(items);
    assert!(rt; len == 1);
    Ok(())
}

fn check_first_cut(rt: &impl Abort, alloc: Global, timeline: &Timeline) -> Result<(), Fail>
    requires sound { IsSound timeline.now }
    requires few { count timeline.now.tracks.children < 2 ^ 32 }
{
    match timeline.tracks.children.item(0) {
        Some(track) => check_cut(rt, alloc, timeline, track),
        None => {
            assert!(rt; false);
            Ok(())
        }
    }
}

#[test]
fn lists_are_cut(rt: HostRuntime) -> Result<(), Fail> {
    let alloc = rt.alloc();
    let two = [("a.mov", 0, 10), ("b.mov", 0, 10)];
    match timeline_of(alloc, one_track(alloc, &two))? {
        Some(timeline) => {
            let held = check_first_cut(&rt, alloc, &timeline);
            forget(timeline);
            held
        }
        None => {
            assert!(rt; false);
            Ok(())
        }
    }
}

/// How many items the first root child has; none where it has no children.
pub fn first_len(timeline: &Timeline) -> Option<usize> {
    match timeline.tracks.children.item(0) {
        Some(ItemOf::Track(track)) => Some(track.children.len()),
        _ => None,
    }
}

// How many items the first track has of two timelines that are joined; none where they aren't.
fn joined_len(alloc: Global, first: Timeline, second: Timeline) -> Option<usize>
    requires first { IsSound first }
    requires second { IsSound second }
    requires few_first { count first.tracks.children < 2 ^ 32 }
    requires few_second { count second.tracks.children < 2 ^ 32 }
{
    let Ok(inputs) = vec![in alloc; first, second] else {
        return None;
    };
    match join(alloc, inputs) {
        Ok(timeline) => {
            let len = first_len(&timeline);
            forget(timeline);
            len
        }
        Err(_) => None,
    }
}

#[test]
fn timelines_are_joined(rt: HostRuntime) -> Result<(), Fail> {
    let alloc = rt.alloc();
    let text = one_track(alloc, &[("a.mov", 0, 10)]);
    let len = match timeline_of(alloc, text)? {
        Some(first) => match timeline_of(alloc, two_layers(alloc)) {
            Ok(Some(second)) => joined_len(alloc, first, second),
            _ => {
                forget(first);
                None
            }
        },
        None => None,
    };
    assert!(rt; len == Some(2));
    Ok(())
}
