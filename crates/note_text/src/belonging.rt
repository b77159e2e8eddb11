//! Which notes an event has.
ghost use Rattle.std.specs.Prelude.{ℕ, ◌≡◌, ◌≤◌, ◌<◌, ◌/◌, ◌≤ℤ◌, ◌<ℤ◌, ◌*◌, pos, option_map, unsigned_abs};
ghost use Rattle.edl_list.specs.Speeds as speeds;
ghost use Rattle.edl_list.specs.Formed.{IsEvent, IsSide};
ghost use Rattle.edl_list.specs.Speeds.{day_of};
ghost use Rattle.edl_frames.specs.Shown.{source_frame as frame_shown};
ghost use Rattle.note_text.specs.Belonging.{counts_at, does_count, first_shown};
ghost use Rattle.note_text.specs.StateShown.{IsAheadOf};

use crate::notes::Said;
use edl_list::{Event, Side, side_speed};
use tick_time::{Rate, Time};

/// The rate's own speed, in millionths.
const OWN_SPEED: u64 = 1_000_000;

/// More source frames than a side passes in a day.
const MOST_AHEAD: i128 = 10_000_000_000;

/// The source frame that a side shows in the frame k, counted from 0 where the side begins, for k
/// below the frames of a day.
pub fn source_frame(rate: Rate, side: &Side, k: i64) -> i64
    requires timecode { 1 ≤ speeds.count_of rate }
    requires side { IsSide (day_of rate) side.now }
    requires low { pos 0 ≤ℤ k }
    requires high { k <ℤ pos (60 * 86400) }
    ensures { result ≡ frame_shown rate side.now k }
{
    side.src_in + k * side_speed(rate, side) / OWN_SPEED as i64
}

// Whether a locator at a record frame counts for an event: the event's record span holds the frame,
// and the source frame there lies in the range of times.
fn counts_for(rate: Rate, event: &Event, at: i64) -> bool
    requires timecode { 1 ≤ speeds.count_of rate }
    requires event { IsEvent (day_of rate) event.now }
    ensures { result ≡ counts_at rate event.now at }
{
    if at < event.rec_in || event.rec_out <= at {
        return false;
    }
    let frame = source_frame(rate, &event.to, at - event.rec_in);
    Time::frames(frame, rate).is_ok()
}

/// Whether a note counts for an event that it belongs to.
pub(crate) fn counts(rate: Rate, event: &Event, said: &Said) -> bool
    requires timecode { 1 ≤ speeds.count_of rate }
    requires event { IsEvent (day_of rate) event.now }
    ensures { result ≡ does_count rate event.now said.now }
{
    match said {
        Said::Loc { at, .. } => counts_for(rate, event, *at),
        Said::Sop { .. } => true,
        Said::Sat(_) => true,
    }
}

/// How many frames after the start of an event its incoming side first shows a source frame; none
/// where it doesn't within the event.
pub fn frames_to(rate: Rate, event: &Event, frame: i128) -> Option<i64>
    requires timecode { 1 ≤ speeds.count_of rate }
    requires event { IsEvent (day_of rate) event.now }
    ensures { option_map (λ k. unsigned_abs k) result ≡ first_shown rate event.now frame }
{
    let Some(ahead) = ahead_of(&event.to, frame) else {
        return None;
    };
    let speed = side_speed(rate, &event.to) as u64;
    let k = least_frames(ahead, speed);
    let length = (event.rec_out - event.rec_in) as u64;
    if k < length && shown_after(k, speed) == ahead {
        Some(k as i64)
    } else {
        None
    }
}

// How many source frames a side is past its first one at a source frame; none where it doesn't
// come there in a day.
fn ahead_of(side: &Side, frame: i128) -> Option<u64>
    requires low { pos 0 ≤ℤ side.now.src_in }
    requires high { side.now.src_in <ℤ pos (60 * 86400) }
    ensures { IsAheadOf side.now.src_in frame result }
{
    let from = i128::from(side.src_in);
    if frame < from || from + MOST_AHEAD < frame {
        None
    } else {
        Some((frame - from) as u64)
    }
}

// How many source frames are passed in so many frames, at a speed in millionths.
fn shown_after(k: u64, speed: u64) -> u64
    requires few { k < 60 * 86400 }
    requires slow { speed ≤ 1000 * 1000000 }
    ensures { result ≡ k * speed / 1000000 }
{
    k * speed / OWN_SPEED
}

// The least number of frames after which a side of that speed in millionths has come so far at
// least, where it ever does.
fn least_frames(ahead: u64, speed: u64) -> u64
    requires near { ahead ≤ 10000000000 }
    requires slow { speed ≤ 1000 * 1000000 }
    ensures before { (k : ℕ) → k < result → k * speed < ahead * 1000000 }
    ensures there { 0 < speed → ahead * 1000000 ≤ result * speed }
{
    if speed == 0 {
        return 0;
    }
    (ahead * OWN_SPEED + speed - 1) / speed
}
