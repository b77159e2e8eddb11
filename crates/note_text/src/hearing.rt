//! Notes of a list, read in pieces.
ghost use Rattle.std.specs.Prelude.{◌≡◌, ◌++◌, ◌∷◌, ◌<◌, ◌-◌, ◌^◌, false, [], List, ℕ, IfOk, OnOk, length};
ghost use Rattle.text_lines.specs.First.{HasNone, begins_with_blank};

use crate::copies::said_of;
use crate::forms::spoken_in;
use crate::notes::{Heard, Notes};
use crate::reading::notes_for;
use edl_list::EventList;
use edl_text::{Statement, statement_of};
use std::alloc::{AllocError, Global};
use text_lines::{after, before, first_byte, strip_return, trim_blanks};
use tick_time::Rate;

/// What the lines so far say as notes.
#[derive(Drop)]
pub(crate) struct Hearing {
    pub(crate) alloc: Global,
    pub(crate) rate: Rate,
    /// The number of lines.
    pub(crate) line: u32,
    /// Whether drop-frame mode is in force.
    pub(crate) drop: bool,
    /// The latest event line.
    pub(crate) event_line: Option<u32>,
    /// The notes that stand after an event line.
    pub(crate) heard: Vec<Heard>,
}

impl Hearing {
    ghost use Rattle.tick_time.specs.declared.rates.Rate.{Rate as RateSaid};
    ghost use Rattle.edl_text.specs.Statements.{Statement as Said};
    ghost use Rattle.edl_text.specs.Saying.{Says};
    ghost use Rattle.note_text.specs.StateHeard.{Hears, Takes};

    /// What no line says.
    pub(crate) fn new(alloc: Global, rate: Rate) -> Hearing
        ensures { Hears rate [] [] result }
    {
        Hearing {
            alloc,
            rate,
            line: 0,
            drop: false,
            event_line: None,
            heard: Vec::new(alloc),
        }
    }

    /// Takes the next line.
    pub(crate) fn take_line(&mut self, line: &[u8]) -> Result<(), AllocError>
        ensures { OnOk result ((rate : RateSaid) (past : List Said) (lines : List (List ℕ))
            (statement : Said) → length past < 2 ^ 32 - 1 → Hears rate past lines self.old
            → Says line.now statement
            → Hears rate (statement ∷ past) (lines ++ line.now ∷ []) self.new) }
    {
        self.line = self.line.saturating_add(1);
        match statement_of(line) {
            Ok(Statement::Nothing) => self.hear(trim_blanks(line)),
            Ok(Statement::Mode(drop)) => {
                self.drop = drop;
                Ok(())
            }
            Ok(Statement::Event(_)) => {
                self.event_line = Some(self.line);
                Ok(())
            }
            Ok(Statement::Title(_)) => Ok(()),
            Ok(Statement::Speed(_)) => Ok(()),
            Ok(Statement::FromName(_)) => Ok(()),
            Ok(Statement::ToName(_)) => Ok(()),
            Err(_) => Ok(()),
        }
    }

    // Keeps what a line that a list ignores says as a note, where an event line stands before it.
    fn hear(&mut self, line: &[u8]) -> Result<(), AllocError>
        requires { begins_with_blank line.now ≡ false }
        ensures { OnOk result (Takes self.old self.new line.now) }
    {
        let Some(event_line) = self.event_line else {
            return Ok(());
        };
        match spoken_in(line, self.rate, self.drop) {
            Some(spoken) => {
                let said = said_of(self.alloc, spoken)?;
                self.heard.push(Heard {
                    line: event_line,
                    said,
                })?;
            }
            None => {}
        }
        Ok(())
    }
}

/// A reader of the notes of one list (CMX 3600). It takes the bytes of the list in pieces of any
/// size, as [`edl_text::EdlReader`] does, and keeps of them only the notes and the line in hand.
pub struct NoteReader {
    hearing: Hearing,
    held: Vec<u8>,
}

impl NoteReader {
    ghost use Rattle.tick_time.specs.declared.rates.Rate.{Rate as RateSaid};
    ghost use Rattle.edl_list.specs.Formed.{IsWellFormed};
    ghost use Rattle.edl_text.specs.Lists.{IsList};
    ghost use Rattle.note_text.specs.Belonging.{AreNotes};
    ghost use Rattle.note_text.specs.Reader.{HasHeard};

    /// A reader of the notes of a list at that rate that was fed nothing. It takes no memory.
    pub fn new(alloc: Global, rate: Rate) -> NoteReader
        ensures { HasHeard rate [] result }
    {
        NoteReader {
            hearing: Hearing::new(alloc, rate),
            held: Vec::new(alloc),
        }
    }

    /// Reads the next bytes. An error comes where memory runs out.
    pub fn feed(&mut self, piece: &[u8]) -> Result<(), AllocError>
        ensures { OnOk result ((rate : RateSaid) (bytes : List ℕ) → HasHeard rate bytes self.old
            → HasHeard rate (bytes ++ piece.now) self.new) }
    {
        let mut rest = piece;
        'lines: while let Some(end) = first_byte(rest, b'\n') {
            self.end_line(before(rest, end))?;
            rest = after(rest, end + 1);
        }
        self.held.extend_from_slice(rest)?;
        Ok(())
    }

    /// The notes that the bytes have for the list that they gave, in the order of their lines. An
    /// error comes where memory runs out.
    pub fn finish(self, list: &EventList) -> Result<Notes, AllocError>
        requires { IsWellFormed list.now }
        ensures { IfOk result (λ notes. (rate : RateSaid) (bytes : List ℕ)
            → HasHeard rate bytes self → IsList rate bytes list.now
            → AreNotes bytes list.now notes) }
    {
        let NoteReader { hearing, held } = self;
        let mut hearing = hearing;
        hearing.take_line(held.as_slice())?;
        let Hearing {
            alloc,
            rate: _,
            line: _,
            drop: _,
            event_line: _,
            heard,
        } = hearing;
        notes_for(alloc, list, heard.as_slice())
    }

    // Reads the rest of a line and the line feed after it.
    fn end_line(&mut self, piece: &[u8]) -> Result<(), AllocError>
        requires { HasNone 10 piece.now }
        ensures { OnOk result ((rate : RateSaid) (bytes : List ℕ) → HasHeard rate bytes self.old
            → HasHeard rate (bytes ++ (piece.now ++ 10 ∷ [])) self.new) }
    {
        self.held.extend_from_slice(piece)?;
        self.hearing.take_line(strip_return(self.held.as_slice()))?;
        self.held.clear();
        Ok(())
    }
}

// Drops are written out: a derived one is proved anew in each crate that drops such a value.

impl Drop for NoteReader {
    fn drop(self) {
        let NoteReader {
            hearing: _,
            held: _,
        } = self;
    }
}
