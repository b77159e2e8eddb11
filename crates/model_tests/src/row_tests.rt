//! What is listed of small timelines, and its lines.

ghost use Rattle.std.specs.Prelude.{◌≡◌, IfOk};
ghost use Rattle.otio_model.specs.Counts.{count, count_of};

use crate::trees::{frames, gap, one, played, rate_25, span, timeline_of, track, two};
use coord::sound;
use dev_io::MemOut;
use otio_model::{Children, Effects, Item, ItemOf, Items, MediaMap, Timeline};
use sequences::Text;
use show_prog::{Listing, OutputFault, listing_of, write_rows};
use smpte_tc::RecordPoint;
use std::alloc::{AllocError, Global};
use std::process::Abort;
use std::test::Fail;
use tick_time::{Span, Time};

// A clip of this name without media.
fn clip(alloc: Global, name: Text, source_range: Option<Span>) -> Item
    ensures { count_of result ≡ 1 }
{
    let effects = Effects::new(alloc);
    ItemOf::Clip(played(alloc, name, source_range, MediaMap::new(alloc), effects))
}

// A timeline of a clip of so many frames at 24 frames a second, above a gap of one.
fn timeline(alloc: Global, start: Option<Time>, len: i64) -> Result<Timeline, AllocError>
    ensures { IfOk result (λ timeline. count timeline.tracks.children ≡ 2) }
{
    let name = Text::of(alloc, "c")?;
    let below = gap(alloc, span(0, 1));
    let children = two(alloc, below, clip(alloc, name, span(0, len)))?;
    Ok(timeline_of(alloc, start, children))
}

// What is listed of a clip of 21 frames at 24 frames a second, that begins at an hour at 25.
fn listed(
    alloc: Global,
    start: Option<RecordPoint>,
    count: Option<u32>,
) -> Result<Option<Listing>, AllocError> {
    let timeline = timeline(alloc, frames(90_000, rate_25()), 21)?;
    let listing = listing_of(&timeline, Some(1), start, count);
    drop(timeline);
    Ok(listing)
}

// Holds what is listed of it.
fn lists(
    rt: &impl Abort,
    alloc: Global,
    start: Option<RecordPoint>,
    count: Option<u32>,
    wanted: Option<Listing>,
) -> Result<(), Fail> {
    assert!(rt; listed(alloc, start, count)? == wanted);
    Ok(())
}

// Sends what is listed of a timeline, once that is made. `None` where it has too many items or
// isn't sound.
fn sent_of(
    alloc: Global,
    made: Result<Timeline, AllocError>,
    listing: &Listing,
    out: &mut MemOut,
) -> Result<Option<Result<(), OutputFault>>, AllocError> {
    let timeline = made?;
    if 4_294_967_296 <= timeline.tracks.children.items_below() {
        drop(timeline);
        return Ok(None);
    }
    let sent = match sound(alloc, &timeline) {
        Ok(()) => Some(write_rows(alloc, &timeline, listing, out)),
        Err(_) => None,
    };
    drop(timeline);
    Ok(sent)
}

// Sends what is listed of a clip of two frames at 24 frames a second.
fn written(
    alloc: Global,
    listing: &Listing,
    out: &mut MemOut,
) -> Result<Option<Result<(), OutputFault>>, AllocError> {
    sent_of(alloc, timeline(alloc, None, 2), listing, out)
}

// Holds how such a listing ends.
fn ends(
    rt: &impl Abort,
    sent: Result<Option<Result<(), OutputFault>>, AllocError>,
    wanted: Result<(), OutputFault>,
) -> Result<(), Fail> {
    assert!(rt; sent? == Some(wanted));
    Ok(())
}

// Holds what is sent of a clip of two frames at 24 frames a second.
fn writes(rt: &impl Abort, alloc: Global, listing: &Listing, wanted: &[u8]) -> Result<(), Fail> {
    let mut out = MemOut::new(alloc, 200)?;
    ends(rt, written(alloc, listing, &mut out), Ok(()))?;
    assert!(rt; out.sent() == wanted);
    drop(out);
    Ok(())
}

// So many clips of one frame, each of the frame of its media that has its index.
fn clips(alloc: Global, count: i64) -> Result<Items, AllocError> {
    let mut list = Vec::new(alloc);
    'clips: for index in 0..count {
        let name = Text::of(alloc, "c")?;
        list.push(clip(alloc, name, span(index, 1)))?;
    }
    Ok(Items::of(list))
}

// A timeline of one track of so many clips of one frame.
fn long_timeline(alloc: Global, count: i64) -> Result<Timeline, AllocError> {
    let children = Children::of(alloc, clips(alloc, count)?)?;
    let root = one(alloc, track(alloc, children))?;
    Ok(timeline_of(alloc, None, root))
}

// Sends what is listed of a track of so many clips of one frame.
fn written_long(
    alloc: Global,
    count: i64,
    listing: &Listing,
    out: &mut MemOut,
) -> Result<Option<Result<(), OutputFault>>, AllocError> {
    sent_of(alloc, long_timeline(alloc, count), listing, out)
}

#[test]
fn a_listing_ends_with_the_longest_child(rt: HostRuntime) -> Result<(), Fail> {
    let want = Listing {
        child: Some(1),
        from: 90_000,
        count: 22,
    };
    lists(&rt, rt.alloc(), None, None, Some(want))?;
    let behind = Some(RecordPoint::Frame(90_022));
    let want = Listing {
        child: Some(1),
        from: 90_022,
        count: 0,
    };
    lists(&rt, rt.alloc(), behind, None, Some(want))
}

#[test]
fn a_label_is_read_at_the_record_rate(rt: HostRuntime) -> Result<(), Fail> {
    let label = Some(RecordPoint::Label(*b"01:00:00:24"));
    let want = Listing {
        child: Some(1),
        from: 90_024,
        count: 3,
    };
    lists(&rt, rt.alloc(), label, Some(3), Some(want))?;
    let past = Some(RecordPoint::Label(*b"01:00:00:25"));
    lists(&rt, rt.alloc(), past, Some(3), None)?;
    let drop = Some(RecordPoint::Label(*b"01:00:00;24"));
    lists(&rt, rt.alloc(), drop, Some(3), None)
}

#[test]
fn lines_go_by_frames_and_then_by_children(rt: HostRuntime) -> Result<(), Fail> {
    let listing = Listing {
        child: None,
        from: -1,
        count: 3,
    };
    let want = b"-1 0 -\n-1 1 -\n0 0 -\n0 1 name:\"c\"@0\n1 0 -\n1 1 name:\"c\"@1\n";
    writes(&rt, rt.alloc(), &listing, want)
}

#[test]
fn a_child_that_is_not_there_has_no_lines(rt: HostRuntime) -> Result<(), Fail> {
    let listing = Listing {
        child: Some(2),
        from: 0,
        count: 3,
    };
    writes(&rt, rt.alloc(), &listing, b"")
}

#[test]
fn a_stream_that_fails_ends_the_lines(rt: HostRuntime) -> Result<(), Fail> {
    let mut out = MemOut::new(rt.alloc(), 10_000)?;
    out.fail_on(2)?;
    let listing = Listing {
        child: Some(0),
        from: 0,
        count: 1000,
    };
    let stopped = written(rt.alloc(), &listing, &mut out);
    ends(&rt, stopped, Err(OutputFault::Sink))?;
    // the lines of frames 0 to 255, of which the first 10, 90 and 156 have one, two and three
    // digits
    assert!(rt; out.sent().len() == 10 * 6 + 90 * 7 + 156 * 8);
    drop(out);
    Ok(())
}

// The lines of so many clips of one frame: frame i shows the frame of number i of its media.
fn lines_of_clips(alloc: Global, count: i64) -> Result<String, AllocError> {
    let mut lines = String::new(alloc);
    'lines: for index in 0..count {
        let line = format!(in alloc; "{index} 0 name:\"c\"@{index}\n")?;
        lines.push_str(line.as_str())?;
    }
    Ok(lines)
}

// Holds that each frame of 99 000 clips is sent.
fn check_clips(rt: &impl Abort, alloc: Global, out: &mut MemOut) -> Result<(), Fail> {
    let listing = Listing {
        child: Some(0),
        from: 0,
        count: 99_000,
    };
    ends(rt, written_long(alloc, 99_000, &listing, out), Ok(()))?;
    let lines = lines_of_clips(alloc, 99_000)?;
    assert!(rt; out.sent() == lines.as_bytes());
    drop(lines);
    Ok(())
}

#[test]
fn each_frame_of_99_000_clips_is_shown(rt: HostRuntime) -> Result<(), Fail> {
    let mut out = MemOut::new(rt.alloc(), 3_000_000)?;
    let held = check_clips(&rt, rt.alloc(), &mut out);
    drop(out);
    held
}
