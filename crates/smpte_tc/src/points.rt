// Points of a record, and the frames that they name.
ghost use Rattle.std.specs.Prelude.{◌≡◌, true, false, pos, IfSome, MatchOption};
ghost use Rattle.std.specs.Option.{option_map};
ghost use Rattle.smpte_tc.specs.Frames.{label_frame as frame_named};
ghost use Rattle.smpte_tc.specs.Words.{IsPoint, IsOnePoint, is_label_form as has_label_form};
ghost use Rattle.smpte_tc.specs.PointFrames.{point_frame, IsFrame};

use crate::forms::is_label_form;
use crate::numbers::whole_number;
use crate::timecode::label_frame;
use tick_time::Rate;

/// A point of a record.
#[derive(Clone, Copy, PartialEq, Eq)]
pub enum RecordPoint {
    /// The record frame of this number.
    Frame(u64),
    /// The record frame of this timecode label: eleven bytes, `HH:MM:SS:FF` or `HH:MM:SS;FF` (SMPTE
    /// ST 12-1).
    Label([u8; 11]),
}

/// The point that a word names: a whole number of at most 18 digits without a sign or a leading
/// zero, or a word in the form of a label, `dd:dd:dd:dd` or `dd:dd:dd;dd` with digits `d`. Whether
/// it is a label at a rate is for [`frame_at`] to say. None for every other word.
pub fn point_of(word: &str) -> Option<RecordPoint>
    ensures { MatchOption result ((point : RecordPoint) → IsPoint word.now point → ⊥)
        (IsPoint word.now) }
{
    if let Some(label) = label_of(word.as_bytes()) {
        return Some(RecordPoint::Label(label));
    }
    match whole_number(word) {
        Some(number) => Some(RecordPoint::Frame(number)),
        None => None,
    }
}

// The bytes of a word in the form of a label.
fn label_of(word: &[u8]) -> Option<[u8; 11]>
    ensures { MatchOption result (has_label_form word.now ≡ false)
        (λ label. (label ≡ word.now) × (has_label_form word.now ≡ true)) }
{
    if !is_label_form(word) {
        return None;
    }
    word.try_into().ok()
}

/// The record frame that a point names at a rate.
///
/// None exactly where the point is a label that is none at that rate: the rate has no timecode, or
/// none with drop-frame where `;` stands before the frames, a part is out of its range, or
/// drop-frame leaves the label out; and where it is a number of more than 18 digits, which no word
/// names.
pub fn frame_at(point: RecordPoint, rate: Rate) -> Option<i64>
    ensures frame { result ≡ point_frame rate point }
    ensures bound { IfSome result IsFrame }
{
    match point {
        RecordPoint::Frame(number) => frame_number(number),
        RecordPoint::Label(label) => frame_of_label(label.as_slice(), rate),
    }
}

// The record frame of that number.
fn frame_number(number: u64) -> Option<i64>
    ensures frame { (rate : Rate) → result ≡ point_frame rate (RecordPoint.Frame number) }
    ensures bound { IfSome result IsFrame }
{
    if number < 1_000_000_000_000_000_000 {
        Some(number as i64)
    } else {
        None
    }
}

/// The frame number of the day that a label names at a rate; none exactly where the bytes are no
/// label at that rate, as [`frame_at`] says. `;` before the frames means drop-frame.
pub fn frame_of_label(label: &[u8], rate: Rate) -> Option<i64>
    ensures frame { result ≡ option_map pos (frame_named rate false label.now) }
    ensures bound { IfSome result IsFrame }
{
    match label_frame(label, rate, false) {
        Some(frame) => Some(i64::from(frame)),
        None => None,
    }
}

/// Law: a word names at most one point. It does nothing.
pub fn one_point()
    ensures { IsOnePoint }
{}
