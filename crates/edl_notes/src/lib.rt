//! Notes of events in timelines: markers and color corrections that come from the notes of a list,
//! and the notes that a list of a timeline has.
//!
//! [`add_notes`] puts the notes of a list on the items of the timeline that it conforms to: a
//! locator is a marker, and a color correction stands in the metadata, in a member `cdl`.
//! [`notes_of`] gives the notes of a timeline for the list of its events. Neither changes what a
//! frame shows. What notes are, and their texts, are those of the crate `note_text`, whose
//! `specs/Noted.antt` and `specs/Found.antt` say what the two calls answer.
#![tactic(auto)]

mod adding;
mod colors;
mod events;
mod finding;
mod items;
mod kinds;
mod locators;
mod markers;
mod members;
mod names;
mod own;
mod tracks;

pub use adding::add_notes;
pub use finding::notes_of;
pub use note_text::{
    Note, NoteReader, Notes, Said, Triple, notes_below_day, notes_by_event, read_notes, write_noted,
};
