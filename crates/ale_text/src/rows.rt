//! The rows of a log.

ghost use Rattle.std.specs.Prelude.{◌≡◌, ◌↔◌, ◌⊎◌, [], IsTrue, IfErr, IfOk, MatchOption};
ghost use Rattle.ale_text.specs.Words.{IsTape};
ghost use Rattle.ale_text.specs.Lines.{RowSays, LacksLabel};
ghost use Rattle.ale_text.specs.Views.{HasTaken};

use crate::faults::AleFault;
use crate::fields::field_at;
use crate::sections::Columns;
use smpte_tc::frame_of_label;
use text_lines::{is_text, reel_name};
use tick_time::Rate;

/// Frames of a tape that a row names: from the first up to, not including, the end.
#[derive(Clone, Copy)]
pub(crate) struct Take<'a> {
    pub(crate) tape: &'a str,
    pub(crate) start: i64,
    pub(crate) end: i64,
}

// A field as the name of a tape: the name of a reel that doesn't begin with `#`.
fn tape_name(field: &[u8]) -> Option<&str>
    ensures { MatchOption result (IsTape field.now → ⊥)
        (λ name. IsTape field.now × (name.now ≡ field.now)) }
{
    match reel_name(field) {
        Some(name) if field[0] != b'#' => Some(name),
        _ => None,
    }
}

// Whether one of two fields is empty.
fn is_one_empty(start: &[u8], end: &[u8]) -> bool
    ensures { IsTrue result ↔ ((start.now ≡ []) ⊎ (end.now ≡ [])) }
{
    is_text(start, b"") || is_text(end, b"")
}

/// The frames of a tape that a row names, in a log of this rate and these columns; none where the
/// row doesn't count. The error is that the row, of that number, has a tape and both labels, and
/// one of them isn't a label at the rate.
pub(crate) fn take_of(
    line: &[u8],
    rate: Rate,
    columns: Columns,
    number: u32,
) -> Result<Option<Take<'_>>, AleFault>
    ensures said { IfOk result (λ said. MatchOption said (RowSays rate columns line.now [])
        (λ take. HasTaken rate columns line.now take)) }
    ensures fault { IfErr result (λ fault. (fault ≡ AleFault.Label number)
        × LacksLabel rate columns line.now) }
{
    let Some(tape) = tape_name(field_at(line, columns.tape)) else {
        return Ok(None);
    };
    let start = field_at(line, columns.start);
    let end = field_at(line, columns.end);
    if is_one_empty(start, end) {
        return Ok(None);
    }
    let Some(start) = frame_of_label(start, rate) else {
        return Err(AleFault::Label(number));
    };
    match frame_of_label(end, rate) {
        Some(end) if start < end => Ok(Some(Take { tape, start, end })),
        Some(_) => Ok(None),
        None => Err(AleFault::Label(number)),
    }
}
