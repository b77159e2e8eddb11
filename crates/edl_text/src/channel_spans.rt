// Spans of the record on one channel, one behind another.
ghost use Rattle.std.specs.Prelude.{◌≡◌, ◌≤ℤ◌, ◌↔◌, AllPairs, IfOk, IsTrue};
ghost use Rattle.edl_text.specs.Overlaps.{AreRead};
ghost use Rattle.edl_text.specs.StateSpans.{AreApartOn, AreClear, HasSpans, span_of as span_by};

use edl_list::{Channel, Event};
use std::alloc::{AllocError, Global};

// The record span of an event, and its line.
type Span = ((i64, i64), u32);

/// Whether no two events on the channel share a frame, as their spans show in order. Where it
/// answers `false` nothing is known.
pub(crate) fn are_apart(
    alloc: Global,
    channel: Channel,
    events: &[Event],
) -> Result<bool, AllocError>
    ensures { AreRead events.now → IfOk result
        (λ apart. IsTrue apart → AllPairs (AreApartOn channel) events.now) }
{
    let mut spans = spans_on(alloc, channel, events)?;
    spans.sort()?;
    Ok(are_in_turn(spans.as_slice()))
}

// The spans of the events on the channel.
fn spans_on(alloc: Global, channel: Channel, events: &[Event]) -> Result<Vec<Span>, AllocError>
    ensures { IfOk result (λ spans. HasSpans channel events.now spans.items) }
{
    let mut spans = Vec::new(alloc);
    'events: for event in events {
        if is_on(event, channel) {
            spans.push(span_of(event))?;
        }
    }
    Ok(spans)
}

/// Whether the event is on the channel.
pub(crate) fn is_on(event: &Event, channel: Channel) -> bool
    ensures { IsTrue result ↔ (event.now.channel ≡ channel) }
{
    event.channel == channel
}

// The record span of an event, and its line.
fn span_of(event: &Event) -> Span
    ensures { result ≡ span_by event.now }
{
    ((event.rec_in, event.rec_out), event.line)
}

// Whether each span begins at the end of the one before it, or behind it.
fn are_in_turn(spans: &[Span]) -> bool
    ensures { IsTrue result → AllPairs AreClear spans.now }
{
    let mut end = i64::MIN;
    'spans: for span in spans {
        if !follows(span, end) {
            return false;
        }
        end = end_of(span);
    }
    true
}

// Whether the span begins at this record frame or behind it, and ends no earlier than it begins.
fn follows(span: &Span, frame: i64) -> bool
    ensures { IsTrue result → (frame ≤ℤ span.now.0.0) × (span.now.0.0 ≤ℤ span.now.0.1) }
{
    frame <= span.0.0 && span.0.0 <= span.0.1
}

// The record frame behind the span.
fn end_of(span: &Span) -> i64
    ensures { result ≡ span.now.0.1 }
{
    span.0.1
}
