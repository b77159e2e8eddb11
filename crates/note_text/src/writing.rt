//! The text of a list with notes.
ghost use Rattle.std.specs.Prelude.{◌≡◌, ◌≤◌, ◌<◌, IfOk, IsTrue, All, AllPairs, ℕ, length};
ghost use Rattle.dev_io.specs.Buffer.{HandsOver};
ghost use Rattle.dev_io.specs.Calls.{Tells, SendsAll};
ghost use Rattle.dev_io.specs.Causes.{HasCause};
ghost use Rattle.edl_list.specs.Formed.{IsEvent, IsWellFormed};
ghost use Rattle.edl_list.specs.Layouts.{layout_of, most_events, wide_layout, FitsEvent, FitsLayout};
ghost use Rattle.edl_list.specs.Labelled.{IsLabelled};
ghost use Rattle.edl_list.specs.Speeds.{day_of};
ghost use Rattle.edl_text.specs.Spelling.{text_of};
ghost use Rattle.note_text.specs.Belonging.{own_notes, IsNoteOf, IsSaidBelowDay};
ghost use Rattle.note_text.specs.NotedSpelling.{noted_spelling, noted_lines_from, own_lines};

use crate::notes::{Note, Notes};
use crate::putting::put_note;
use dev_io::{Out, OutBuffer, WriteFault};
use edl_list::{Event, EventList, Layout};
use edl_text::{Numbering, Style, put_event, put_head};
use std::alloc::AllocError;

/// The notes in the order of their events, those of one event in their own order. An error comes
/// where memory runs out.
pub fn notes_by_event(notes: Notes) -> Result<Notes, AllocError>
    ensures own { IfOk result (λ sorted. (index : ℕ) → own_notes index sorted
        ≡ own_notes index notes) }
    ensures order { IfOk result (AllPairs (λ a b. a.event ≤ b.event)) }
{
    let mut notes = notes.into_vec();
    notes.sort_by_key(|note| note.event)?;
    Ok(Notes::of(notes))
}

/// Sends the one text of a list with notes (CMX 3600), at its rate, with drop-frame or without, in
/// the wide layout or the narrow one: as [`edl_text::write_list`] does, but each event's lines are
/// followed by its notes, in their order.
///
/// It takes no memory. `Sink` comes only where a write failed, and then a prefix of the text was
/// sent and the count of faults rose, or stands at 2^64 - 1. Where the notes stand in the order of
/// their events it takes time in proportion to events and notes, else to their product.
pub fn write_noted<W: Out>(
    list: &EventList,
    notes: &Notes,
    drop: bool,
    wide: bool,
    out: &mut W,
) -> Result<(), WriteFault>
    requires formed { IsWellFormed list.now }
    requires fits { FitsLayout (layout_of wide) list.now }
    requires labels { All (IsLabelled list.now.rate drop) list.now.events }
    requires notes { All (IsNoteOf list.now drop) notes.now }
    ensures told { Tells (SendsAll (noted_spelling list.now notes.now drop wide) result)
        (W.known out.old) (W.known out.new) }
    ensures cause { HasCause (W.faults out.old) (W.faults out.new) result }
{
    let mut buffer = OutBuffer::new();
    let style = Style {
        rate: list.rate,
        drop,
        layout: Layout::of(wide),
    };
    put_head(&mut buffer, out, list, drop);
    let events = list.events.as_slice();
    let notes = notes.as_slice();
    if are_in_order(notes) {
        put_in_order(&mut buffer, out, events, notes, style);
    } else {
        put_each(&mut buffer, out, events, notes, style);
    }
    buffer.flush(out)
}

// Whether the notes stand in the order of their events.
fn are_in_order(notes: &[Note]) -> bool
    ensures { IsTrue result → AllPairs (λ a b. a.event ≤ b.event) notes.now }
{
    let mut least = 0;
    'notes: for note in notes {
        if note.event < least {
            return false;
        }
        least = note.event;
    }
    true
}

// Hands over the lines of the events, numbered from 1, with their notes, which stand in the order
// of the events.
fn put_in_order<W: Out>(
    buffer: &mut OutBuffer,
    out: &mut W,
    events: &[Event],
    notes: &[Note],
    style: Style,
)
    requires few { length events.now ≤ most_events wide_layout }
    requires events { All (IsEvent (day_of style.rate)) events.now }
    requires fits { All (FitsEvent style.layout) events.now }
    requires labels { All (IsLabelled style.rate style.drop) events.now }
    requires notes { All (λ note. IsSaidBelowDay style.rate style.drop note.said) notes.now }
    requires order { AllPairs (λ a b. a.event ≤ b.event) notes.now }
    ensures { HandsOver W.known W.faults out.old out.new buffer.old buffer.new
        (text_of (noted_lines_from style.rate style.drop style.layout 0 events.now notes.now)) }
{
    let mut at = 0;
    let mut number = 1;
    'events: for (index, event) in events.iter().enumerate() {
        put_event(buffer, out, event, Numbering { number, style });
        'own: while at < notes.len() && notes[at].event == index {
            put_note(buffer, out, &notes[at], style.rate, style.drop);
            at += 1;
        }
        number += 1;
    }
}

// Hands over the lines of the events, numbered from 1, with their notes, whatever order these
// stand in.
fn put_each<W: Out>(
    buffer: &mut OutBuffer,
    out: &mut W,
    events: &[Event],
    notes: &[Note],
    style: Style,
)
    requires few { length events.now ≤ most_events wide_layout }
    requires events { All (IsEvent (day_of style.rate)) events.now }
    requires fits { All (FitsEvent style.layout) events.now }
    requires labels { All (IsLabelled style.rate style.drop) events.now }
    requires notes { All (λ note. IsSaidBelowDay style.rate style.drop note.said) notes.now }
    ensures { HandsOver W.known W.faults out.old out.new buffer.old buffer.new
        (text_of (noted_lines_from style.rate style.drop style.layout 0 events.now notes.now)) }
{
    let mut number = 1;
    'events: for (index, event) in events.iter().enumerate() {
        put_event(buffer, out, event, Numbering { number, style });
        put_own(buffer, out, index, notes, style);
        number += 1;
    }
}

// Hands over the notes of one event.
fn put_own<W: Out>(buffer: &mut OutBuffer, out: &mut W, index: usize, notes: &[Note], style: Style)
    requires { All (λ note. IsSaidBelowDay style.rate style.drop note.said) notes.now }
    ensures { HandsOver W.known W.faults out.old out.new buffer.old buffer.new
        (text_of (own_lines style.rate style.drop index notes.now)) }
{
    'notes: for note in notes {
        if note.event == index {
            put_note(buffer, out, note, style.rate, style.drop);
        }
    }
}
