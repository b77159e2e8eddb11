//! Markers as locators.

ghost use Rattle.std.specs.Prelude.{◌≡◌, ◌≤◌, ◌∷◌, [], ℕ, ℤ, IfOk, MatchOption, Some, option_map};
ghost use Rattle.json_value.specs.declared.Json.{out-Json};
ghost use Rattle.coord.specs.Keys as keys;
ghost use Rattle.edl_list.specs.declared.list.Event.{Event as AnyEvent};
ghost use Rattle.edl_list.specs.Formed.{IsEvent};
ghost use Rattle.edl_list.specs.Speeds.{count_of, day_of};
ghost use Rattle.note_text.specs.Belonging.{first_shown};
ghost use Rattle.note_text.specs.Found.{IsColorOf, SaysMark, SaysMarker, SayMarkers, color_text, marked_frame};
ghost use Rattle.edl_notes.specs.Steps.{AddsSaid, SaysAt};

use crate::names::cleaned_text;
use edl_list::Event;
use json_value::Json;
use note_text::{Note, Said, frames_to, is_color};
use otio_model::{Mark, Marker};
use sequences::Text;
use std::alloc::{AllocError, Global};
use tick_time::Rate;

/// The color of a marker that gives none.
const RED: &str = "RED";

/// An event of a list, at its place, and the list's rate, which has timecode.
#[derive(Clone, Copy)]
pub(crate) struct Shown<'a> {
    pub(crate) index: usize,
    pub(crate) event: &'a Event,
    pub(crate) rate: Rate,
    ghost timecode: { 1 ≤ count_of rate },
}

/// Puts a locator for each marker that begins in a frame that the event shows at the end of the
/// notes.
pub(crate) fn put_locators(
    alloc: Global,
    markers: &[Marker],
    shown: Shown<'_>,
    notes: &mut Vec<Note>,
) -> Result<(), AllocError>
    requires event { IsEvent (day_of shown.rate) shown.event.now }
    ensures { IfOk result (λ _. AddsSaid shown.entry.index
        (SayMarkers shown.entry.rate shown.entry.event.now markers.now)
        notes.old.items notes.new.items) }
{
    'markers: for marker in markers {
        put_locator(alloc, marker, shown, notes)?;
    }
    Ok(())
}

// Puts the locator of a marker at the end of the notes, where it has one.
fn put_locator(
    alloc: Global,
    marker: &Marker,
    shown: Shown<'_>,
    notes: &mut Vec<Note>,
) -> Result<(), AllocError>
    requires event { IsEvent (day_of shown.rate) shown.event.now }
    ensures { IfOk result (λ _. AddsSaid shown.entry.index
        (SaysMarker shown.entry.rate shown.entry.event.now marker.now)
        notes.old.items notes.new.items) }
{
    match marker {
        Marker::Known(mark) => put_mark(alloc, mark.get(), shown, notes),
        Marker::Kept(_) => Ok(()),
    }
}

// Puts the locator of a mark at the end of the notes, where the event shows its frame.
fn put_mark(
    alloc: Global,
    mark: &Mark,
    shown: Shown<'_>,
    notes: &mut Vec<Note>,
) -> Result<(), AllocError>
    requires event { IsEvent (day_of shown.rate) shown.event.now }
    ensures { IfOk result (λ _. AddsSaid shown.entry.index
        (SaysMark shown.entry.rate shown.entry.event.now mark.now)
        notes.old.items notes.new.items) }
{
    match frame_of(mark, shown.event, shown.rate) {
        Some(at) => {
            let said = locator_of(alloc, at, mark)?;
            notes.push(Note {
                event: shown.index,
                said,
            })?;
            Ok(())
        }
        None => Ok(()),
    }
}

// The first record frame of an event that shows the source frame in which a mark's range begins.
fn frame_of(mark: &Mark, event: &Event, rate: Rate) -> Option<i64>
    requires timecode { 1 ≤ count_of rate }
    requires event { IsEvent (day_of rate) event.now }
    ensures { MatchOption result
        ((v : ℤ) (k : ℕ) → marked_frame rate mark.now ≡ Some v →
        first_shown rate event.now v ≡ Some k → ⊥)
        (SaysAt rate event.now mark.now) }
{
    let Some(range) = mark.marked_range else {
        return None;
    };
    match frames_to(rate, event, range.start.floor_frame(rate)) {
        Some(k) => Some(event.rec_in + k.unsigned_abs() as i64),
        None => None,
    }
}

// The locator of a mark at a record frame.
fn locator_of(alloc: Global, at: i64, mark: &Mark) -> Result<Said, AllocError>
    ensures { IfOk result (λ said. (event : AnyEvent) (rate : Rate) →
        SaysAt rate event mark.now at → SaysMark rate event mark.now (said ∷ [])) }
{
    Ok(Said::Loc {
        at,
        color: Text::of(alloc, color_in(mark))?,
        name: cleaned_text(alloc, &mark.name)?,
    })
}

// The color of a mark.
fn color_in(mark: &Mark) -> &str
    ensures { IsColorOf mark.now result.now }
{
    match own_color(mark) {
        Some(color) => {
            if is_color(color.as_bytes()) {
                color
            } else {
                RED
            }
        }
        None => RED,
    }
}

// The characters of the member `color` of a mark.
fn own_color(mark: &Mark) -> Option<&str>
    ensures { option_map (λ s. s.now) result ≡ color_text mark.now }
{
    match mark.rest.get("color") {
        Some(value) => text_in(value),
        None => None,
    }
}

// The characters of a string.
fn text_in(value: &Json) -> Option<&str>
    ensures { option_map (λ s. s.now) result ≡ keys.text_in (out-Json value.now) }
{
    match value {
        Json::Str(text) => Some(text.as_str()),
        _ => None,
    }
}
