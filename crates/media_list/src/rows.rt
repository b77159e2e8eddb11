//! The row that a line says.

ghost use Rattle.std.specs.Prelude.{◌≡◌, ◌⊎◌, ◌+ℤ◌, ◌*ℤ◌, ◌↔◌, ℤ, pos, Some, IsTrue, IsUtf8, IfOk, IfErr, MatchOption};
ghost use Rattle.tick_time.specs.Rates.{frame};
ghost use Rattle.tick_time.specs.Times.{IsInRange};
ghost use Rattle.smpte_tc.specs.PointFrames.{IsFrame};
ghost use Rattle.media_list.specs.Lines.{IsSpanInRange, IsSpan, IsSkipped, IsRow, IsOwnFault};
ghost use Rattle.media_list.specs.Views.{fields_in, row_of_fields};
ghost use Rattle.text_lines.specs.ReelNames.{IsReelName};
ghost use Rattle.media_list.specs.Words.{IsNumber, IsStartForm, start_frame};

use crate::faults::MediaFault;
use crate::fields::{LineFields, form_of};
use crate::words::{number_of, start_of};
use media_rows::MediaRow;
use sequences::Text;
use std::alloc::{AllocError, Global};
use text_lines::is_comment;
use tick_time::{Rate, Time, rate_of};

/// Where media start, and how many frames there are.
#[derive(Clone, Copy)]
struct Span {
    start: i64,
    count: i64,
}

// Whether there is a frame, and the end lies within a million seconds.
fn is_span_in_range(start: i64, count: i64, rate: Rate) -> bool
    requires start { IsFrame start }
    requires count { IsFrame count }
    ensures { IsTrue result ↔ IsSpanInRange rate start count }
{
    count > 0 && is_end_in_range(end_of(start, count), rate)
}

// The number of the frame behind the last one.
fn end_of(start: i64, count: i64) -> i64
    requires start { IsFrame start }
    requires count { IsFrame count }
    ensures { result ≡ (start +ℤ count) }
{
    start + count
}

// Whether the frames before this one lie within a million seconds.
fn is_end_in_range(end: i64, rate: Rate) -> bool
    ensures { IsTrue result ↔ IsInRange (end *ℤ pos (frame rate.num rate.den)) }
{
    Time::frames(end, rate).is_ok()
}

// The span of these fields; none where the start names no frame, there are no frames, or the end
// lies beyond a million seconds.
fn span_of(fields: &LineFields<'_>, rate: Rate) -> Option<Span>
    requires start { IsStartForm fields.now.start.now }
    requires count { IsNumber fields.now.count.now }
    ensures { MatchOption result
        ((start count : ℤ) → IsSpan rate (fields_in fields.now) start count → ⊥)
        (λ span. IsSpan rate (fields_in fields.now) span.start span.count) }
{
    match start_of(fields.start, rate) {
        Some(start) => span_from(fields, start, rate),
        None => None,
    }
}

// The span of these fields where the start names this frame.
fn span_from(fields: &LineFields<'_>, start: i64, rate: Rate) -> Option<Span>
    requires start { start_frame rate fields.now.start.now ≡ Some start }
    requires bound { IsFrame start }
    requires count { IsNumber fields.now.count.now }
    ensures { MatchOption result
        ((start count : ℤ) → IsSpan rate (fields_in fields.now) start count → ⊥)
        (λ span. IsSpan rate (fields_in fields.now) span.start span.count) }
{
    let count = number_of(fields.count);
    if is_span_in_range(start, count, rate) {
        Some(Span { start, count })
    } else {
        None
    }
}

// The text of bytes that are UTF-8.
fn text_of(alloc: Global, bytes: &[u8]) -> Result<Text, AllocError>
    requires { IsUtf8 bytes.now }
    ensures { IfOk result (λ text. text ≡ bytes.now) }
{
    match std::str::from_utf8(bytes) {
        Ok(text) => Text::of(alloc, text),
        Err(_) => unreachable!(),
    }
}

/// The row that a line of that number says; none where it is skipped.
pub(crate) fn row_of(
    alloc: Global,
    line: &[u8],
    number: u32,
) -> Result<Option<MediaRow>, MediaFault>
    ensures row { IfOk result (λ said. MatchOption said
        (IsSkipped line.now) (λ row. IsRow line.now row)) }
    ensures fault { IfErr result (λ fault. (fault ≡ MediaFault.Memory)
        ⊎ IsOwnFault number line.now fault) }
{
    if std::str::from_utf8(line).is_err() {
        return Err(MediaFault::Line(number));
    }
    if is_comment(line) {
        return Ok(None);
    }
    let Some(fields) = form_of(line) else {
        return Err(MediaFault::Line(number));
    };
    let Some(rate) = rate_of(fields.rate) else {
        return Err(MediaFault::Rate(number));
    };
    match span_of(&fields, rate) {
        Some(span) => Ok(Some(row_from(alloc, &fields, rate, span)?)),
        None => Err(MediaFault::Range(number)),
    }
}

// The row of these fields, with this rate and span.
#[tactic(auto, using(text_lines::proofs::ReelLemmas::reel_is_text))]
fn row_from(
    alloc: Global,
    fields: &LineFields<'_>,
    rate: Rate,
    span: Span,
) -> Result<MediaRow, AllocError>
    requires reel { IsReelName fields.now.reel.now }
    requires url { IsUtf8 fields.now.url.now }
    ensures { IfOk result
        (λ row. row ≡ row_of_fields (fields_in fields.now) rate span.start span.count) }
{
    let reel = text_of(alloc, fields.reel)?;
    let url = text_of(alloc, fields.url)?;
    Ok(MediaRow {
        reel,
        url,
        rate,
        start: span.start,
        count: span.count,
    })
}
