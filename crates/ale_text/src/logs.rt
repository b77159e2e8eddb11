//! Logs.

ghost use Rattle.std.specs.Prelude.{◌≡◌, ◌⊎◌, ◌≤◌, ℕ, List, length, IfOk, IfErr, OnOk};
ghost use Rattle.limits.specs.Limits.{most_bytes};
ghost use Rattle.ale_text.specs.Words.{IsBlankLine, IsSection};
ghost use Rattle.ale_text.specs.Lines.{IsLineFault};
ghost use Rattle.ale_text.specs.Logs.{EndsEarly, IsLog, IsFault, log_lines};
ghost use Rattle.ale_text.specs.Tables.{HasEnded, HasTimecode, IsKept, IsOfLog, IsTimed, Steps};
ghost use Rattle.ale_text.specs.declared.sections.Due.TheVariants.{Row};

use crate::faults::AleFault;
use crate::fields::columns_of;
use crate::heading::due_after_entry;
use crate::rows::take_of;
use crate::sections::{Columns, Due};
use crate::spaces::{is_blank_line, is_section};
use crate::tapes::Tapes;
use limits::MOST_BYTES;
use media_list::MediaList;
use std::alloc::Global;
use text_lines::{after, before, first_byte, strip_return};
use tick_time::Rate;

/// How many bytes a log has at most.
const LIMIT: usize = MOST_BYTES as usize;

/// The media list of a log (Avid Log Exchange): a row for each tape, in the order of the first row
/// of the log that counts for it, from the least start to the greatest end of the rows that count
/// for it. Its reel is the tape, and its URL `tape:` and the tape.
///
/// # Errors
/// [`AleFault::Large`] before all; else the fault of the first line that has one:
/// [`AleFault::Form`], [`AleFault::Rate`] or [`AleFault::Label`]. A log that ends before its rows
/// is [`AleFault::Form`] at the number of its lines plus one. [`AleFault::Memory`] comes where
/// memory runs out.
pub fn read_ale(alloc: Global, bytes: &[u8]) -> Result<MediaList, AleFault>
    ensures list { IfOk result (λ list. IsLog bytes.now list) }
    ensures fault { IfErr result (λ fault. (fault ≡ AleFault.Memory) ⊎ IsFault bytes.now fault) }
{
    if bytes.len() > LIMIT {
        return Err(AleFault::Large);
    }
    let tapes = tapes_of(alloc, bytes)?;
    Ok(tapes.into_list(alloc)?)
}

// The tapes of all lines.
fn tapes_of(alloc: Global, bytes: &[u8]) -> Result<Tapes, AleFault>
    requires { length bytes.now ≤ most_bytes }
    ensures log { IfOk result (IsOfLog bytes.now) }
    ensures fault { IfErr result (λ fault. (fault ≡ AleFault.Memory) ⊎ IsFault bytes.now fault) }
{
    let mut tapes = Tapes::new(alloc);
    let mut due = Due::Heading;
    let mut rest = bytes;
    let mut number: u32 = 1;
    'lines: while let Some(end) = first_byte(rest, b'\n') {
        let line = strip_return(before(rest, end));
        match take_line(&mut tapes, alloc, due, line, number) {
            Ok(next) => due = next,
            Err(fault) => return Err(fault),
        }
        rest = after(rest, end + 1);
        number += 1;
    }
    if rest.is_empty() {
        return ended(tapes, due, number);
    }
    match take_line(&mut tapes, alloc, due, rest, number) {
        Ok(next) => ended(tapes, next, number + 1),
        Err(fault) => Err(fault),
    }
}

// The tapes of a log that ends before the line of that number, where this is due.
fn ended(tapes: Tapes, due: Due, number: u32) -> Result<Tapes, AleFault>
    ensures log { (bytes : List ℕ) → HasEnded bytes number due tapes →
        IfOk result (IsOfLog bytes) }
    ensures fault { (bytes : List ℕ) → HasEnded bytes number due tapes →
        IfErr result (EndsEarly (log_lines bytes)) }
{
    match due {
        Due::Row(_, _) => Ok(tapes),
        _ => Err(AleFault::Form(number)),
    }
}

// Takes the line of that number, where this is due. The value is what is due after it.
fn take_line(
    tapes: &mut Tapes,
    alloc: Global,
    due: Due,
    line: &[u8],
    number: u32,
) -> Result<Due, AleFault>
    requires kept { IsKept tapes.old }
    requires timed { IsTimed due }
    ensures steps { IfOk result (λ next.
        Steps due line.now next tapes.old.rows.items tapes.new.rows.items) }
    ensures kept { OnOk result (IsKept tapes.new) }
    ensures fault { IfErr result (λ fault. (fault ≡ AleFault.Memory)
        ⊎ IsLineFault due number line.now fault) }
{
    if is_blank_line(line) {
        return Ok(due);
    }
    match due {
        Due::Heading => due_after_section(line, b"Heading", Due::Entry(None), number),
        Due::Entry(rate) => due_after_entry(line, rate, number),
        Due::Names(rate) => match columns_of(line) {
            Some(columns) => Ok(Due::Data(rate, columns)),
            None => Err(AleFault::Form(number)),
        },
        Due::Data(rate, columns) => {
            due_after_section(line, b"Data", Due::Row(rate, columns), number)
        }
        Due::Row(rate, columns) => take_row(tapes, alloc, RowForm { rate, columns }, line, number),
    }
}

// What is due after a line that must be that of this section.
fn due_after_section(line: &[u8], word: &[u8], next: Due, number: u32) -> Result<Due, AleFault>
    ensures due { IfOk result (λ due. IsSection word.now line.now × (due ≡ next)) }
    ensures fault { IfErr result (λ fault. (fault ≡ AleFault.Form number)
        × (IsSection word.now line.now → ⊥)) }
{
    if is_section(line, word) {
        Ok(next)
    } else {
        Err(AleFault::Form(number))
    }
}

// How the rows of a log are read: the rate of their labels, and the columns of their fields.
#[derive(Clone, Copy)]
struct RowForm {
    rate: Rate,
    columns: Columns,
}

// Takes a row of a log of this form.
fn take_row(
    tapes: &mut Tapes,
    alloc: Global,
    form: RowForm,
    line: &[u8],
    number: u32,
) -> Result<Due, AleFault>
    requires kept { IsKept tapes.old }
    requires timecode { HasTimecode form.rate }
    requires full { IsBlankLine line.now → ⊥ }
    ensures steps { IfOk result (λ next. Steps (Row form.rate form.columns) line.now next
        tapes.old.rows.items tapes.new.rows.items) }
    ensures kept { OnOk result (IsKept tapes.new) }
    ensures fault { IfErr result (λ fault. (fault ≡ AleFault.Memory)
        ⊎ IsLineFault (Row form.rate form.columns) number line.now fault) }
{
    let RowForm { rate, columns } = form;
    match take_of(line, rate, columns, number) {
        Ok(Some(take)) => {
            tapes.add(alloc, take, rate)?;
            Ok(Due::Row(rate, columns))
        }
        Ok(None) => Ok(Due::Row(rate, columns)),
        Err(fault) => Err(fault),
    }
}
