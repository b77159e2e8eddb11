// What a line says.
ghost use Rattle.std.specs.Prelude.{◌≡◌, ◌↔◌, Bool, true, false, codes, IsTrue, MatchOption, MatchResult};
ghost use Rattle.text_lines.specs.First.{begins_with_blank};
ghost use Rattle.text_lines.specs.Lines.{fields_of};
ghost use Rattle.edl_text.specs.Notes.{IsNote};
ghost use Rattle.edl_text.specs.Saying as saying;
ghost use Rattle.edl_text.specs.Saying.{Says, HasFault, SaysTight, FaultTight, IsFree};
ghost use Rattle.edl_text.specs.StateLines.{IsWordy};
ghost use Rattle.edl_text.specs.Views.{said};

use crate::fields::{first_field, fourth_field, has_fields};
use crate::read_comments::{name_of, note_of};
use crate::read_events::event_of;
use crate::read_speeds::speed_of;
use crate::statement_types::{LineFault, Statement};
use text_lines::{is_text, strip_front, trim_blanks};

/// What a line says, or why it is refused. The line comes without its end; spaces and tabs at both
/// ends are dropped.
///
/// [`LineFault::Key`] comes exactly where the line begins with a digit and its fourth field with
/// `K`, [`LineFault::Split`] exactly where its first field is `AUD`, `SPLIT` or `SPLIT:`, and
/// [`LineFault::Form`] exactly where it says nothing that a list may say and is neither of these.
pub fn statement_of(line: &[u8]) -> Result<Statement<'_>, LineFault>
    ensures { MatchResult result
        (λ statement. Says line.now (said statement))
        (λ fault. HasFault line.now fault) }
{
    tight_statement(trim_blanks(line))
}

// The same of a line without blanks at its ends.
fn tight_statement(line: &[u8]) -> Result<Statement<'_>, LineFault>
    requires { begins_with_blank line.now ≡ false }
    ensures { MatchResult result
        (λ statement. SaysTight line.now (said statement))
        (FaultTight line.now) }
{
    if line.is_empty() {
        return Ok(Statement::Nothing);
    }
    if let Some(text) = strip_front(line, b"TITLE:") {
        return Ok(Statement::Title(trim_blanks(text)));
    }
    if begins_with_digit(line) {
        return event_statement(line);
    }
    word_statement(line)
}

// The statement of a line that begins with a digit.
#[tactic(auto, using(crate::proofs::RefusedLines::event_form))]
fn event_statement(line: &[u8]) -> Result<Statement<'_>, LineFault>
    requires tight { begins_with_blank line.now ≡ false }
    requires digit { saying.begins_with_digit line.now ≡ true }
    ensures { MatchResult result
        (λ statement. SaysTight line.now (said statement))
        (FaultTight line.now) }
{
    if is_key_word(fourth_field(line)) {
        return Err(LineFault::Key);
    }
    match event_of(line) {
        Some(event) => Ok(Statement::Event(event)),
        None => Err(LineFault::Form),
    }
}

// The statement of a line that begins with no digit and is no title.
fn word_statement(line: &[u8]) -> Result<Statement<'_>, LineFault>
    requires tight { begins_with_blank line.now ≡ false }
    requires wordy { IsWordy line.now }
    ensures { MatchResult result
        (λ statement. SaysTight line.now (said statement))
        (FaultTight line.now) }
{
    if let Some(drop) = mode_of(line) {
        return Ok(Statement::Mode(drop));
    }
    if let Some(text) = note_of(line, b"FROM") {
        return from_statement(line, text);
    }
    if let Some(text) = note_of(line, b"TO") {
        return to_statement(line, text);
    }
    if is_text(first_field(line), b"M2") {
        return speed_statement(line);
    }
    remark_statement(line)
}

// The statement of a note for `FROM`.
#[tactic(auto, using(crate::proofs::RefusedLines::from_form))]
fn from_statement<'a>(line: &'a [u8], text: &'a [u8]) -> Result<Statement<'a>, LineFault>
    requires tight { begins_with_blank line.now ≡ false }
    requires note { IsNote (codes "FROM") line.now text.now }
    ensures { MatchResult result
        (λ statement. SaysTight line.now (said statement))
        (FaultTight line.now) }
{
    match name_of(text) {
        Some(name) => Ok(Statement::FromName(name)),
        None => Err(LineFault::Form),
    }
}

// The statement of a note for `TO`.
#[tactic(auto, using(crate::proofs::RefusedLines::to_form))]
fn to_statement<'a>(line: &'a [u8], text: &'a [u8]) -> Result<Statement<'a>, LineFault>
    requires tight { begins_with_blank line.now ≡ false }
    requires note { IsNote (codes "TO") line.now text.now }
    ensures { MatchResult result
        (λ statement. SaysTight line.now (said statement))
        (FaultTight line.now) }
{
    match name_of(text) {
        Some(name) => Ok(Statement::ToName(name)),
        None => Err(LineFault::Form),
    }
}

// The statement of a line whose first field is `M2`.
#[tactic(auto, using(crate::proofs::RefusedLines::speed_form))]
fn speed_statement(line: &[u8]) -> Result<Statement<'_>, LineFault>
    requires tight { begins_with_blank line.now ≡ false }
    requires first { saying.first_of (fields_of line.now) ≡ codes "M2" }
    ensures { MatchResult result
        (λ statement. SaysTight line.now (said statement))
        (FaultTight line.now) }
{
    match speed_of(line) {
        Some(speed) => Ok(Statement::Speed(speed)),
        None => Err(LineFault::Form),
    }
}

// The statement of a line that is ignored or refused.
#[tactic(auto, using(crate::proofs::RefusedLines::other_form))]
fn remark_statement(line: &[u8]) -> Result<Statement<'_>, LineFault>
    requires tight { begins_with_blank line.now ≡ false }
    requires wordy { IsWordy line.now }
    requires free { IsFree line.now }
    ensures { MatchResult result
        (λ statement. SaysTight line.now (said statement))
        (FaultTight line.now) }
{
    if is_split(first_field(line)) {
        return Err(LineFault::Split);
    }
    if begins_remark(line) {
        Ok(Statement::Nothing)
    } else {
        Err(LineFault::Form)
    }
}

// The frame code mode of a line: whether drop frame.
fn mode_of(line: &[u8]) -> Option<bool>
    ensures { MatchOption result
        ((drop : Bool) → saying.IsMode (fields_of line.now) drop → ⊥)
        (saying.IsMode (fields_of line.now)) }
{
    if has_fields(line, &[b"FCM:".as_slice(), b"DROP", b"FRAME"]) {
        return Some(true);
    }
    if has_fields(line, &[b"FCM:".as_slice(), b"NON-DROP", b"FRAME"])
        || has_fields(line, &[b"FCM:".as_slice(), b"NON", b"DROP", b"FRAME"])
    {
        return Some(false);
    }
    None
}

// Whether a digit stands at the front.
fn begins_with_digit(line: &[u8]) -> bool
    ensures { result ≡ saying.begins_with_digit line.now }
{
    match line {
        [first, ..] => first.is_ascii_digit(),
        [] => false,
    }
}

// Whether `*`, `>` or a letter stands at the front.
fn begins_remark(line: &[u8]) -> bool
    ensures { result ≡ saying.begins_remark line.now }
{
    match line {
        [first, ..] => *first == b'*' || *first == b'>' || first.is_ascii_alphabetic(),
        [] => false,
    }
}

// Whether the field is the type of a key event.
fn is_key_word(field: &[u8]) -> bool
    ensures { IsTrue result ↔ saying.IsKeyWord field.now }
{
    match strip_front(field, b"K") {
        Some(_) => true,
        None => false,
    }
}

// Whether the field says that an edit is split.
fn is_split(first: &[u8]) -> bool
    ensures { IsTrue result ↔ saying.IsSplitWord first.now }
{
    is_text(first, b"AUD") || is_text(first, b"SPLIT") || is_text(first, b"SPLIT:")
}
