//! The text of edit decision lists in the general form of CMX 3600: read, in pieces of any size,
//! and written.
//!
//! **The surface.** [`EdlReader`] takes the bytes of a list at a rate, and gives the list that its
//! lines say together, or their first fault ([`EdlFault`]). [`write_list`] sends the text of a
//! list, and [`write_event`] that of one event; writing takes no memory. The types that these take
//! and give are given out here too: [`EventList`], [`Event`], [`Side`] and the others of a list.
//! Rates are those of `tick_time`, and outputs those of `dev_io`.
//!
//! The other calls are for the crates of this program: [`statement_of`] reads one line,
//! [`in_record_order`] sorts events, [`first_overlap`] finds two that overlap, and [`put_event`]
//! and [`put_head`] write into a buffer. [`first_label_past_day`] and [`first_wide_reel`] name the
//! first event that a text of a list can't have.
//!
//! A line is judged by what it says by itself and by what the lines before it say; once all lines
//! are valid the events are judged in the order of the record. A line comes without its end, a line
//! feed or a carriage return and a line feed. Spaces and tabs at both ends say nothing, and runs of
//! them part its fields. What a line says, what lines say together, their faults and the order of
//! these stand in `specs/`, and the one text of a list in `specs/Spelling.antt`.
#![tactic(auto)]

ghost use Rattle.std.specs.Prelude.{◌≡◌, ℕ, List};
ghost use Rattle.tick_time.specs.declared.rates.Rate.{Rate};
ghost use Rattle.edl_list.specs.declared.list.EventList.{EventList};
ghost use Rattle.edl_text.specs.Lists.{IsList, IsFault};
ghost use Rattle.edl_text.specs.declared.faults.EdlFault.{EdlFault as Fault};

mod channel_spans;
mod columns;
mod end_of_list_faults;
mod event_frames;
mod faults;
mod fields;
mod laws;
mod list_settings;
mod list_so_far;
mod open_event;
mod order;
mod overlap;
mod read_comments;
mod read_events;
mod read_numbers;
mod read_speeds;
mod reader;
mod sides;
mod spans;
mod statement_types;
mod statements;
mod write;
mod write_comments;
mod write_rows;
mod write_speeds;
mod written_labels;

pub use edl_list::{Channel, Cross, Event, EventList, EventSeq, Layout, Reel, Side};
pub use faults::EdlFault;
pub use laws::one_statement;
pub use list_settings::{Numbering, Style};
pub use order::in_record_order;
pub use overlap::first_overlap;
pub use reader::EdlReader;
pub use statement_types::{
    Channels, EventLine, Kind, Labels, LineFault, ReelName, SpeedLine, Statement,
};
pub use statements::statement_of;
pub use write::{put_event, put_head, write_event, write_head, write_list};
pub use write_comments::{put_written, trim_written};
pub use written_labels::{first_label_past_day, first_wide_reel, label_of};

/// Law: at a rate bytes are one list at most, or have one fault at most, and never both. It does
/// nothing.
pub fn one_outcome()
    ensures list { (rate : Rate) (bytes : List ℕ) (a b : EventList) → IsList rate bytes a
        → IsList rate bytes b → a ≡ b }
    ensures fault { (rate : Rate) (bytes : List ℕ) (f g : Fault) → IsFault rate bytes f
        → IsFault rate bytes g → f ≡ g }
    ensures either { (rate : Rate) (bytes : List ℕ) (list : EventList) (fault : Fault)
        → IsList rate bytes list → IsFault rate bytes fault → ⊥ }
{}
