//! Notes of events in the texts of edit decision lists: locators, and color corrections of the kind
//! of ASC CDL, as comments of CMX 3600 lists.
//!
//! A note is a line that the reader of lists ignores. [`NoteReader`] takes the same bytes as
//! [`edl_text::EdlReader`], piece by piece, keeps what the notes say with the event lines that
//! stand before them, and at the end gives each to the events of its event line. [`write_noted`]
//! writes a list with the notes of each event after its lines.
//!
//! What a line says as a note stands in `specs/Forms.antt`, which notes bytes have for a list in
//! `specs/Heard.antt` and `specs/Belonging.antt`, and the text in `specs/NotedSpelling.antt`.
#![tactic(auto)]

mod belonging;
mod copies;
mod day;
mod forms;
mod hearing;
mod notes;
mod putting;
mod reading;
mod words;
mod writing;

pub use belonging::{frames_to, source_frame};
pub use copies::said_of;
pub use day::notes_below_day;
pub use forms::{Spoken, Words, is_color, spoken_in};
pub use hearing::NoteReader;
pub use notes::{Heard, Note, Notes, Said, Triple};
pub use reading::read_notes;
pub use writing::{notes_by_event, write_noted};
