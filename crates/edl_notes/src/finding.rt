//! The notes of a timeline for the list of its events.

ghost use Rattle.std.specs.Prelude.{◌≡◌, ◌<◌, ◌^◌, ◌++◌, ◌∷◌, [], IfOk};
ghost use Rattle.std.specs.Option.{option_copied};
ghost use Rattle.otio_model.specs.Counts.{count};
ghost use Rattle.otio_model.specs.Trees.{item_at};
ghost use Rattle.coord.specs.Soundness.{IsFaultless};
ghost use Rattle.edl_list.specs.Formed.{IsEvent, IsWellFormed};
ghost use Rattle.edl_list.specs.Speeds.{day_of};
ghost use Rattle.edl_frames.specs.Homes.{HasList};
ghost use Rattle.note_text.specs.Found.{AreNotesOf, SaysClip, SaysHome, SaysSat, SaysSop};
ghost use Rattle.note_text.specs.Views.{spoken as said_in};
ghost use Rattle.edl_notes.specs.Steps.{AddsSaid, shown_clip};

use crate::locators::{Shown, put_locators};
use crate::members::{correction_in, saturation_in};
use edl_conform::homes;
use edl_list::{Event, EventList, Reel};
use json_value::Members;
use note_text::{Note, Notes, Spoken, said_of};
use otio_model::{Clip, ItemOf, Place, Timeline};
use std::alloc::{AllocError, Global};

/// The notes of a timeline for the list of its events, in the order of these: of each event whose
/// incoming side isn't black the color corrections of its clip and then its markers. An error comes
/// where memory runs out.
pub fn notes_of(alloc: Global, timeline: &Timeline, list: &EventList) -> Result<Notes, AllocError>
    requires few { count timeline.now.tracks.children < 2 ^ 32 }
    requires sound { IsFaultless timeline.now }
    requires list { HasList timeline.now list.now }
    requires formed { IsWellFormed list.now }
    ensures { IfOk result (AreNotesOf timeline.now list.now) }
{
    let places = homes(alloc, timeline, list)?;
    let events = list.events.as_slice();
    let mut notes = Vec::new(alloc);
    'events: for (index, event) in events.iter().enumerate() {
        let shown = Shown {
            index,
            event,
            rate: list.rate,
        };
        put_notes(alloc, timeline, &places[index], shown, &mut notes)?;
    }
    Ok(Notes::of(notes))
}

// Puts the notes of the event whose item stands at a place at the end of the notes.
fn put_notes(
    alloc: Global,
    timeline: &Timeline,
    place: &Place,
    shown: Shown<'_>,
    notes: &mut Vec<Note>,
) -> Result<(), AllocError>
    requires event { IsEvent (day_of shown.rate) shown.event.now }
    ensures { IfOk result (λ _. AddsSaid shown.entry.index
        (SaysHome shown.entry.rate shown.entry.event.now
        (item_at place.now timeline.now.tracks.children))
        notes.old.items notes.new.items) }
{
    match clip_at(timeline, place, shown.event) {
        Some(clip) => {
            put_clip(alloc, clip, shown, notes)?;
            Ok(())
        }
        None => Ok(()),
    }
}

// The clip that an event shows, where its incoming side isn't black.
fn clip_at<'a>(timeline: &'a Timeline, place: &Place, event: &Event) -> Option<&'a Clip>
    ensures { option_copied result
        ≡ shown_clip event.now (item_at place.now timeline.now.tracks.children) }
{
    match event.to.reel {
        Reel::Black => None,
        Reel::Named(_) => match timeline.at(place) {
            Some(ItemOf::Clip(clip)) => Some(clip),
            _ => None,
        },
    }
}

// Puts the notes of a clip at the end of the notes: its color corrections, and then its markers.
fn put_clip(
    alloc: Global,
    clip: &Clip,
    shown: Shown<'_>,
    notes: &mut Vec<Note>,
) -> Result<(), AllocError>
    requires event { IsEvent (day_of shown.rate) shown.event.now }
    ensures { IfOk result (λ _. AddsSaid shown.entry.index
        (SaysClip shown.entry.rate shown.entry.event.now clip.now)
        notes.old.items notes.new.items) }
{
    put_correction(alloc, shown.index, clip.metadata.get(), notes)?;
    put_saturation(alloc, shown.index, clip.metadata.get(), notes)?;
    put_locators(alloc, clip.markers.as_slice(), shown, notes)?;
    Ok(())
}

// Puts slope, offset and power at the end of the notes, where metadata have them.
fn put_correction(
    alloc: Global,
    index: usize,
    metadata: &Members,
    notes: &mut Vec<Note>,
) -> Result<(), AllocError>
    ensures { IfOk result (λ _. AddsSaid index (SaysSop metadata.now)
        notes.old.items notes.new.items) }
{
    match correction_in(metadata) {
        Some(found) => {
            let spoken = Spoken::Sop {
                slope: found.slope,
                offset: found.offset,
                power: found.power,
            };
            put_spoken(alloc, index, spoken, notes)?;
            Ok(())
        }
        None => Ok(()),
    }
}

// Puts the saturation at the end of the notes, where metadata have one.
fn put_saturation(
    alloc: Global,
    index: usize,
    metadata: &Members,
    notes: &mut Vec<Note>,
) -> Result<(), AllocError>
    ensures { IfOk result (λ _. AddsSaid index (SaysSat metadata.now)
        notes.old.items notes.new.items) }
{
    match saturation_in(metadata) {
        Some(numeral) => {
            put_spoken(alloc, index, Spoken::Sat(numeral), notes)?;
            Ok(())
        }
        None => Ok(()),
    }
}

// Puts a note of an event at the end of the notes.
fn put_spoken(
    alloc: Global,
    index: usize,
    spoken: Spoken<'_>,
    notes: &mut Vec<Note>,
) -> Result<(), AllocError>
    ensures { IfOk result (λ _. notes.new.items
        ≡ notes.old.items ++ record { event = index; said = said_in spoken.entry } ∷ []) }
{
    let said = said_of(alloc, spoken)?;
    notes.push(Note { event: index, said })?;
    Ok(())
}
