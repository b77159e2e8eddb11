//! Locators as markers.

ghost use Rattle.std.specs.Prelude.{◌≡◌, ◌≤◌, ◌*ℤ◌, ◌∷◌, [], All, IfOk, pos, true};
ghost use Rattle.tick_time.specs.Rates.{frame as ticks_of};
ghost use Rattle.tick_time.specs.Times.{IsInRange};
ghost use Rattle.edl_frames.specs.Conformed.{IsSpanOf};
ghost use Rattle.edl_list.specs.Formed.{IsEvent};
ghost use Rattle.edl_list.specs.Speeds.{count_of, day_of};
ghost use Rattle.note_text.specs.Belonging.{does_count};
ghost use Rattle.edl_notes.specs.Steps.{AddsMarkers, IsMarkerAt, said_by};

use edl_list::Event;
use json_value::{Json, Members};
use note_text::{Note, Said, source_frame};
use otio_model::{Mark, Marker, Markers};
use owned::Owned;
use sequences::{NamedValues, Text};
use std::alloc::{AllocError, Global};
use tick_time::{Rate, Span};

/// Puts a marker for each locator among the notes of an event at the end of the markers.
pub(crate) fn put_markers(
    alloc: Global,
    markers: &mut Markers,
    event: &Event,
    rate: Rate,
    notes: &[&Note],
) -> Result<(), AllocError>
    requires timecode { 1 ≤ count_of rate }
    requires event { IsEvent (day_of rate) event.now }
    requires counts { All (λ said. does_count rate event.now said ≡ true) (said_by notes.now) }
    ensures { IfOk result (λ _.
        AddsMarkers rate event.now (said_by notes.now) markers.old markers.new) }
{
    'notes: for note in notes {
        put_marker(alloc, markers, event, rate, &note.said)?;
    }
    Ok(())
}

// Puts the marker of what a note says at the end of the markers, where that is a locator.
fn put_marker(
    alloc: Global,
    markers: &mut Markers,
    event: &Event,
    rate: Rate,
    said: &Said,
) -> Result<(), AllocError>
    requires timecode { 1 ≤ count_of rate }
    requires event { IsEvent (day_of rate) event.now }
    requires counts { does_count rate event.now said.now ≡ true }
    ensures { IfOk result (λ _.
        AddsMarkers rate event.now (said.now ∷ []) markers.old markers.new) }
{
    match said {
        Said::Loc { at, color, name } => {
            let frame = source_frame(rate, &event.to, *at - event.rec_in);
            let marker = marker_of(alloc, frame, rate, color, name)?;
            markers.push(marker)?;
        }
        Said::Sop { .. } => {}
        Said::Sat(_) => {}
    }
    Ok(())
}

// The marker of a source frame with a name and a color.
fn marker_of(
    alloc: Global,
    frame: i64,
    rate: Rate,
    color: &Text,
    name: &Text,
) -> Result<Marker, AllocError>
    requires { IsInRange (frame *ℤ pos (ticks_of rate.num rate.den)) }
    ensures { IfOk result (IsMarkerAt rate frame color.now name.now) }
{
    let color = Text::of(alloc, color.as_str())?;
    let mark = Mark {
        metadata: Members::new(alloc),
        name: Text::of(alloc, name.as_str())?,
        marked_range: Some(frame_span(frame, rate)),
        rest: NamedValues::one(alloc, "color", Json::Str(color))?,
    };
    Ok(Marker::Known(Owned::of(alloc, mark)?))
}

// One frame of the rate.
fn frame_span(frame: i64, rate: Rate) -> Span
    requires { IsInRange (frame *ℤ pos (ticks_of rate.num rate.den)) }
    ensures { IsSpanOf rate frame (pos 1) result }
{
    Span::of_frames(frame, rate, 1, rate)
}
