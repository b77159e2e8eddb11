//! Which record frames are listed.

ghost use Rattle.std.specs.Prelude.{◌≡◌, ◌<◌, ◌≤◌, ◌^◌, pos, ◌≤ℤ◌, ◌+ℤ◌, ◌-ℤ◌, min, unsigned_abs};
ghost use Rattle.std.specs.Int.{div_ceil};
ghost use Rattle.otio_model.specs.Counts.{count as count_all};
ghost use Rattle.coord.specs.Programs as programs;
ghost use Rattle.show_prog.specs.Rows as rows;

use coord::{frame_ticks, record_rate, start_frame};
use otio_model::Timeline;
use smpte_tc::{RecordPoint, frame_at};

/// How many record frames are listed at most where no count is given.
const MOST_LISTED: i128 = 100_000;

/// What is listed of a timeline.
#[derive(Clone, Copy, PartialEq, Eq)]
pub struct Listing {
    /// The index of the one root child that is listed, else all are.
    pub child: Option<u64>,
    /// The first record frame that is listed.
    pub from: i64,
    /// How many record frames are listed.
    pub count: u32,
}

// How many whole frames of so many ticks hold a length.
fn frames_of(length: u128, ticks: u128) -> u128
    requires { 1000000 ≤ ticks }
    ensures value { result ≡ div_ceil length ticks }
    ensures few { result ≤ 2 ^ 110 }
{
    length.div_ceil(ticks)
}

/// How many record frames the longest root child takes, rounded up to whole ones.
pub(crate) fn whole_frames(timeline: &Timeline) -> u128
    requires few { count_all timeline.now.tracks.children < 2 ^ 32 }
    ensures value { result ≡ rows.whole_frames timeline.now }
    ensures few { result ≤ 2 ^ 110 }
{
    frames_of(
        timeline.tracks.children.longest_ticks(),
        frame_ticks(timeline),
    )
}

// The frame that comes so many frames after another.
fn frames_after(from: i128, frames: u128) -> i128
    requires low { (pos 0 -ℤ pos (2 ^ 63)) ≤ℤ from }
    requires high { from ≤ℤ pos (2 ^ 63) }
    requires few { frames ≤ 2 ^ 110 }
    ensures { result ≡ from +ℤ pos frames }
{
    from + frames as i128
}

// The first record frame of a timeline.
fn first_of(timeline: &Timeline) -> i64
    ensures { result ≡ programs.start_frame timeline.now }
{
    start_frame(timeline) as i64
}

// The record frame after the last one that the longest root child reaches.
fn end_frame(timeline: &Timeline) -> i128
    requires few { count_all timeline.now.tracks.children < 2 ^ 32 }
    ensures value { result ≡ rows.end_frame timeline.now }
    ensures low { (pos 0 -ℤ pos (2 ^ 63)) ≤ℤ result }
    ensures high { result ≤ℤ pos (2 ^ 111) }
{
    frames_after(start_frame(timeline), whole_frames(timeline))
}

// So many frames, and at most so many as are listed where no count is given.
fn at_most_listed(frames: i128) -> u32
    requires { pos 0 ≤ℤ frames }
    ensures { result ≡ min rows.most_listed (unsigned_abs frames) }
{
    frames.min(MOST_LISTED) as u32
}

// How many frames there are from one up to, not including, another, and at most so many as are
// listed where no count is given.
fn frames_between(from: i128, end: i128) -> u32
    requires first { (pos 0 -ℤ pos (2 ^ 63)) ≤ℤ from }
    requires last { from ≤ℤ pos (2 ^ 63) }
    requires low { (pos 0 -ℤ pos (2 ^ 63)) ≤ℤ end }
    requires high { end ≤ℤ pos (2 ^ 111) }
    ensures { result ≡ min rows.most_listed (rows.frames_between from end) }
{
    if end <= from {
        return 0;
    }
    at_most_listed(end - from)
}

// How many frames are listed from one on where no count is given.
fn frames_left(timeline: &Timeline, from: i64) -> u32
    requires few { count_all timeline.now.tracks.children < 2 ^ 32 }
    ensures { result ≡ rows.frames_left timeline.now from }
{
    frames_between(i128::from(from), end_frame(timeline))
}

// The first frame that is listed: that of the start at the record rate, else the first of the
// timeline.
fn first_frame(timeline: &Timeline, start: Option<RecordPoint>) -> Option<i64>
    ensures { result ≡ rows.first_frame timeline.now start }
{
    match start {
        Some(point) => frame_at(point, record_rate(timeline)),
        None => Some(first_of(timeline)),
    }
}

// What is listed from a frame on.
fn listing_from(timeline: &Timeline, child: Option<u64>, count: Option<u32>, from: i64) -> Listing
    requires few { count_all timeline.now.tracks.children < 2 ^ 32 }
    ensures { result ≡ rows.listing_from timeline.now child count from }
{
    let count = match count {
        Some(count) => count,
        None => frames_left(timeline, from),
    };
    Listing { child, from, count }
}

/// What is listed of a timeline for a child, a first frame and a count, each of which may be left
/// out: all root children, from the timeline's start frame on, up to the end of its longest root
/// child and at most 100 000 frames. A label is read at the record rate.
/// `None` exactly where the start is a label that doesn't exist at that rate (SMPTE ST 12-1). It
/// takes no memory.
pub fn listing_of(
    timeline: &Timeline,
    child: Option<u64>,
    start: Option<RecordPoint>,
    count: Option<u32>,
) -> Option<Listing>
    requires few { count_all timeline.now.tracks.children < 2 ^ 32 }
    ensures { result ≡ rows.listing_of timeline.now child start count }
{
    match first_frame(timeline, start) {
        Some(from) => Some(listing_from(timeline, child, count, from)),
        None => None,
    }
}
