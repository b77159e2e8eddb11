//! The first event that a media list doesn't hold.

ghost use Rattle.std.specs.Prelude.{◌≡◌, ◌≤◌, ◌≤ℤ◌, ◌<ℤ◌, ◌-ℤ◌, ◌+ℤ◌, ◌*ℤ◌, ◌||◌, [], ◌∷◌};
ghost use Rattle.std.specs.Prelude.{ℤ, pos, false, not, All};
ghost use Rattle.std.specs.Int.{int_div_euclid};
ghost use Rattle.std.specs.Option.{option_copied};
ghost use Rattle.edl_list.specs.Laws.{IsTimed};
ghost use Rattle.edl_list.specs.Speeds.{count_of};
ghost use Rattle.edl_frames.specs.Refused as refused;
ghost use Rattle.edl_frames.specs.Refused.{use_of};
ghost use Rattle.edl_frames.specs.Shown as shown;
ghost use Rattle.edl_law.specs.Fits.{FitsEvent, FitsSide};
ghost use Rattle.edl_conform.specs.ConformedRanges.{IsLess, IsShown, IsSmall};
ghost use Rattle.edl_conform.specs.Uses as uses;
ghost use Rattle.edl_conform.specs.Uses.{uses_fault};

use crate::outgoing_side::product;
use crate::reel_rows::{ListMedia, reel_row};
use edl_frames::{ConformFault, is_row_outside};
use edl_list::{Cross, Event, Reel, Side, side_speed};
use media_list::MediaList;
use media_rows::MediaRow;
use tick_time::Rate;

// Whether there is no row.
fn is_none(row: Option<&MediaRow>) -> bool
    ensures { result ≡ refused.is_none (option_copied row.entry) }
{
    match row {
        Some(_) => false,
        None => true,
    }
}

// Whether there is a media list that doesn't list the side's reel, whose row this is.
fn is_unlisted(media: Option<&MediaList>, side: &Side, row: Option<&MediaRow>) -> bool
    requires row { option_copied row ≡ refused.reel_row (option_copied media) side.now.reel }
    ensures { (frames : ℤ) → result ≡
        refused.is_unlisted (option_copied media.entry) (use_of side.now frames) }
{
    match media {
        Some(_) => match &side.reel {
            Reel::Named(_) => is_none(row),
            Reel::Black => false,
        },
        None => false,
    }
}

// Whether two rates are the same.
fn is_same_rate(a: Rate, b: Rate) -> bool
    ensures { result ≡ refused.is_same_rate a b }
{
    a.num == b.num && a.den == b.den
}

// Whether there is a row, and its rate is another one.
fn has_other_rate(rate: Rate, row: Option<&MediaRow>) -> bool
    ensures { result ≡ refused.if_listed (λ row. not (refused.is_same_rate row.rate rate))
        (option_copied row.entry) }
{
    match row {
        Some(row) => !is_same_rate(row.rate, rate),
        None => false,
    }
}

// How far a source has come in so many frames, at a speed in millionths.
fn advance(k: i64, speed: i64) -> i128
    requires k { IsSmall k }
    requires speed { IsSmall speed }
    ensures value { result ≡ int_div_euclid (k *ℤ speed) (pos 1000000) }
    ensures less { IsLess result }
{
    product(k, speed).div_euclid(1_000_000)
}

// So much after a number.
fn behind(from: i64, more: i128) -> i128
    requires more { IsLess more }
    ensures { result ≡ from +ℤ more }
{
    i128::from(from) + more
}

// The source frame that a side shows in a frame from where it begins.
fn source_frame(rate: Rate, side: &Side, k: i64) -> i128
    requires timecode { 1 ≤ count_of rate }
    requires side { FitsSide rate side.now }
    requires k { IsSmall k }
    ensures { result ≡ shown.source_frame rate side.now k }
{
    behind(side.src_in, advance(k, side_speed(rate, side)))
}

// The last of so many frames.
fn last_of(frames: i64) -> i64
    requires { IsShown frames }
    ensures value { result ≡ frames -ℤ pos 1 }
    ensures small { IsSmall result }
{
    frames - 1
}

// How many frames of the record an event takes.
fn length_of(event: &Event) -> i64
    requires low { pos 0 ≤ℤ event.now.rec_in }
    requires high { event.now.rec_out ≤ℤ pos 5184000 }
    requires some { event.now.rec_in <ℤ event.now.rec_out }
    ensures value { result ≡ event.now.rec_out -ℤ event.now.rec_in }
    ensures shown { IsShown result }
{
    event.rec_out - event.rec_in
}

// How many frames a dissolve or wipe takes.
fn count_of_frames(rate: Rate, frames: u16) -> i64
    requires some { 1 ≤ frames }
    requires timed { IsTimed rate (pos frames) }
    ensures value { result ≡ pos frames }
    ensures shown { IsShown result }
{
    i64::from(frames)
}

// Whether a frame that a side shows lies outside the media of the row, where there is one.
fn is_outside(rate: Rate, side: &Side, row: Option<&MediaRow>, frames: i64) -> bool
    requires timecode { 1 ≤ count_of rate }
    requires side { FitsSide rate side.now }
    requires frames { IsShown frames }
    ensures { result ≡ refused.if_listed (refused.is_row_outside
        (shown.source_frame rate side.now (pos 0))
        (shown.source_frame rate side.now (frames -ℤ pos 1))) (option_copied row.entry) }
{
    match row {
        Some(row) => {
            let first = source_frame(rate, side, 0);
            let last = source_frame(rate, side, last_of(frames));
            is_row_outside(row, first, last)
        }
        None => false,
    }
}

// The first reason that holds, for an event at a line.
fn first_reason(line: u32, unlisted: bool, other_rate: bool, outside: bool) -> Option<ConformFault>
    ensures { result ≡ uses.first_reason line unlisted other_rate outside }
{
    if unlisted {
        return Some(ConformFault::NoReel(line));
    }
    if other_rate {
        return Some(ConformFault::Rate(line));
    }
    if outside {
        return Some(ConformFault::Outside(line));
    }
    None
}

/// A side of an event, and in how many frames of the record it is shown.
#[derive(Clone, Copy)]
struct SideUse<'a> {
    side: &'a Side,
    frames: i64,
}

// Why an event of one side isn't held.
fn cut_fault(media: &ListMedia<'_>, line: u32, to: &SideUse<'_>) -> Option<ConformFault>
    requires timecode { 1 ≤ count_of media.now.rate }
    requires side { FitsSide media.now.rate to.now.side.now }
    requires frames { IsShown to.now.frames }
    ensures { result ≡ uses_fault media.now.rate (option_copied media.now.rows) line
        (use_of to.now.side.now to.now.frames ∷ []) }
{
    let row = reel_row(media.rows, &to.side.reel);
    first_reason(
        line,
        alone(is_unlisted(media.rows, to.side, row)),
        alone(has_other_rate(media.rate, row)),
        alone(is_outside(media.rate, to.side, row, to.frames)),
    )
}

// What a test says of the one side of a cut.
fn alone(a: bool) -> bool
    ensures { result ≡ (a || false) }
{
    a
}

// Whether a test holds of one of the two sides of a pair.
fn either(a: bool, b: bool) -> bool
    ensures { result ≡ (a || (b || false)) }
{
    a || b
}

// Why an event of two sides isn't held.
fn pair_fault(
    media: &ListMedia<'_>,
    line: u32,
    from: &SideUse<'_>,
    to: &SideUse<'_>,
) -> Option<ConformFault>
    requires timecode { 1 ≤ count_of media.now.rate }
    requires from { FitsSide media.now.rate from.now.side.now }
    requires from_frames { IsShown from.now.frames }
    requires to { FitsSide media.now.rate to.now.side.now }
    requires to_frames { IsShown to.now.frames }
    ensures { result ≡ uses_fault media.now.rate (option_copied media.now.rows) line
        (use_of from.now.side.now from.now.frames ∷ use_of to.now.side.now to.now.frames ∷ []) }
{
    let from_row = reel_row(media.rows, &from.side.reel);
    let to_row = reel_row(media.rows, &to.side.reel);
    first_reason(
        line,
        either(
            is_unlisted(media.rows, from.side, from_row),
            is_unlisted(media.rows, to.side, to_row),
        ),
        either(
            has_other_rate(media.rate, from_row),
            has_other_rate(media.rate, to_row),
        ),
        either(
            is_outside(media.rate, from.side, from_row, from.frames),
            is_outside(media.rate, to.side, to_row, to.frames),
        ),
    )
}

// Why an event isn't held. Each reel is looked up once.
fn event_fault(media: &ListMedia<'_>, event: &Event) -> Option<ConformFault>
    requires { FitsEvent media.now.rate event.now }
    ensures { result ≡
        refused.event_fault media.now.rate (option_copied media.now.rows) event.now }
{
    let to = SideUse {
        side: &event.to,
        frames: length_of(event),
    };
    match &event.cross {
        Cross::Cut => cut_fault(media, event.line, &to),
        Cross::Dissolve { frames, from } => {
            let frames = count_of_frames(media.rate, *frames);
            pair_fault(
                media,
                event.line,
                &SideUse {
                    side: from.get(),
                    frames,
                },
                &to,
            )
        }
        Cross::Wipe { frames, from, .. } => {
            let frames = count_of_frames(media.rate, *frames);
            pair_fault(
                media,
                event.line,
                &SideUse {
                    side: from.get(),
                    frames,
                },
                &to,
            )
        }
    }
}

/// The fault of the first event that has one.
pub(crate) fn first_fault(media: &ListMedia<'_>, events: &[Event]) -> Option<ConformFault>
    requires { All (FitsEvent media.now.rate) events.now }
    ensures { result ≡
        refused.first_fault media.now.rate (option_copied media.now.rows) events.now }
{
    'events: for event in events {
        match event_fault(media, event) {
            Some(fault) => return Some(fault),
            None => {}
        }
    }
    None
}
