//! The notes of a list.
ghost use Rattle.std.specs.Prelude.{◌≡◌, ◌==◌, ◌++◌, IfOk, filter};
ghost use Rattle.std.specs.List.Sorted.{IsNonDecreasingBy};
ghost use Rattle.edl_list.specs.Formed.{IsWellFormed};
ghost use Rattle.edl_frames.specs.Conformed.{is_black as is_black_reel};
ghost use Rattle.edl_text.specs.Lists.{IsList};
ghost use Rattle.note_text.specs.Belonging.{AreNotes, notes_said};
ghost use Rattle.note_text.specs.StateOwners.{AreOwners, gives, notes_given};

use crate::belonging::counts;
use crate::copies::copy_said;
use crate::hearing::NoteReader;
use crate::notes::{Heard, Note, Notes, Said};
use edl_list::{Event, EventList, Reel};
use std::alloc::{AllocError, Global};

/// An event that notes may belong to: its line, and its place in the list.
#[derive(Clone, Copy)]
struct Owner {
    line: u32,
    index: usize,
}

/// The notes of the bytes that gave the list, in the order of their lines. An error comes where
/// memory runs out.
pub fn read_notes(alloc: Global, bytes: &[u8], list: &EventList) -> Result<Notes, AllocError>
    requires formed { IsWellFormed list.now }
    requires list { IsList list.now.rate bytes.now list.now }
    ensures { IfOk result (AreNotes bytes.now list.now) }
{
    let mut reader = NoteReader::new(alloc, list.rate);
    reader.feed(bytes)?;
    reader.finish(list)
}

/// What was heard, given to the events of the list, in the order of the lines.
pub(crate) fn notes_for(
    alloc: Global,
    list: &EventList,
    heard: &[Heard],
) -> Result<Notes, AllocError>
    requires { IsWellFormed list.now }
    ensures { IfOk result (λ notes. notes ≡ notes_said list.now.rate list.now.events heard.now) }
{
    let owners = owners_of(alloc, list.events.as_slice())?;
    let mut notes = Vec::new(alloc);
    'heard: for one in heard {
        put_notes(alloc, list, owners.as_slice(), one, &mut notes)?;
    }
    Ok(Notes::of(notes))
}

// The events that aren't black, in the order of their lines, those of one line in the order of the
// list.
fn owners_of(alloc: Global, events: &[Event]) -> Result<Vec<Owner>, AllocError>
    ensures { IfOk result (λ owners. AreOwners events.now owners.items) }
{
    let mut owners = Vec::with_capacity(alloc, events.len())?;
    'events: for (index, event) in events.iter().enumerate() {
        if !is_black(event) {
            owners.push(Owner {
                line: event.line,
                index,
            })?;
        }
    }
    owners.sort_by_key(|owner| owner.line)?;
    Ok(owners)
}

// Whether the incoming side of an event is black.
fn is_black(event: &Event) -> bool
    ensures { result ≡ is_black_reel event.now.to.reel }
{
    match event.to.reel {
        Reel::Black => true,
        Reel::Named(_) => false,
    }
}

// The owners of a line.
fn owners_at(owners: &[Owner], line: u32) -> &[Owner]
    requires { IsNonDecreasingBy (λ owner. owner.line) owners.now }
    ensures { result.now ≡ filter (λ owner. owner.line == line) owners.now }
{
    let from = owners.partition_point(|owner| owner.line < line);
    let rest = &owners[from..];
    let to = rest.partition_point(|owner| owner.line <= line);
    &rest[..to]
}

// Puts the notes that the owners, those of its line, have of what was heard.
fn put_notes(
    alloc: Global,
    list: &EventList,
    owners: &[Owner],
    heard: &Heard,
    notes: &mut Vec<Note>,
) -> Result<(), AllocError>
    requires list { IsWellFormed list.now }
    requires owners { IsNonDecreasingBy (λ owner. owner.line) owners.now }
    ensures { IfOk result (λ _. notes.new.items ≡ notes.old.items
        ++ notes_given list.now.rate list.now.events heard.now.said
        (filter (λ owner. owner.line == heard.now.line) owners.now)) }
{
    put_given(
        alloc,
        list,
        owners_at(owners, heard.line),
        &heard.said,
        notes,
    )
}

// Puts the notes that these owners have of what was said.
fn put_given(
    alloc: Global,
    list: &EventList,
    owners: &[Owner],
    said: &Said,
    notes: &mut Vec<Note>,
) -> Result<(), AllocError>
    requires list { IsWellFormed list.now }
    ensures { IfOk result (λ _. notes.new.items ≡ notes.old.items
        ++ notes_given list.now.rate list.now.events said.now owners.now) }
{
    'owners: for owner in owners {
        if does_give(list, owner.index, said) {
            let copy = copy_said(alloc, said)?;
            notes.push(Note {
                event: owner.index,
                said: copy,
            })?;
        }
    }
    Ok(())
}

// Whether what was said counts for the event at a place.
fn does_give(list: &EventList, index: usize, said: &Said) -> bool
    requires list { IsWellFormed list.now }
    ensures { result ≡ gives list.now.rate list.now.events said.now index }
{
    match list.events.as_slice().get(index) {
        Some(event) => counts(list.rate, event, said),
        None => false,
    }
}
