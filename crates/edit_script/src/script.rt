//! Scripts.

ghost use Rattle.std.specs.Prelude.{◌≡◌, ◌⊎◌, ◌≤◌, ◌<◌, ◌∷◌, [], ℕ, List, Some, None, IfOk, IfErr, OnOk, MatchBool, length};
ghost use Rattle.std.specs.Str.{is_utf8};
ghost use Rattle.limits.specs.Limits.{most_bytes};
ghost use Rattle.edit_script.specs.Scripts.{IsScript, IsFault, says, most_commands};
ghost use Rattle.edit_script.specs.declared.commands.ScriptCommand.{ScriptCommand as AnyCommand};
ghost use Rattle.edit_script.specs.declared.commands.ScriptFault.{ScriptFault as AnyFault};
ghost use Rattle.edit_script.specs.Reading.{IsNext, Kept, Takes, one_or_none};

use crate::acts::said_by;
use crate::commands::{MOST_COMMANDS, ScriptCommand, ScriptFault};
use limits::MOST_BYTES;
use std::alloc::Global;
use text_lines::{after, before, first_byte, is_comment, strip_return};

/// How many bytes a script has at most.
const LIMIT: usize = MOST_BYTES as usize;

/// The commands that bytes are, in the order of their lines.
///
/// # Errors
/// [`ScriptFault::Large`] before all; then [`ScriptFault::Line`] with the first line that has the
/// wrong form; then [`ScriptFault::Many`]. [`ScriptFault::Memory`] where memory runs out.
pub fn read_script(alloc: Global, bytes: &[u8]) -> Result<Vec<ScriptCommand>, ScriptFault>
    ensures script { IfOk result (λ commands. IsScript bytes.now commands.items) }
    ensures fault { IfErr result (λ fault. (fault ≡ ScriptFault.Memory)
        ⊎ IsFault bytes.now fault) }
{
    if bytes.len() > LIMIT {
        return Err(ScriptFault::Large);
    }
    let commands = commands_of(alloc, bytes)?;
    if are_few(commands.len()) {
        return Ok(commands);
    }
    Err(ScriptFault::Many)
}

// The commands of all lines, and no more than one above those that a script has.
fn commands_of(alloc: Global, bytes: &[u8]) -> Result<Vec<ScriptCommand>, ScriptFault>
    requires { length bytes.now ≤ most_bytes }
    ensures kept { IfOk result (λ commands. Kept bytes.now commands.items) }
    ensures fault { IfErr result (λ fault. (fault ≡ ScriptFault.Memory)
        ⊎ IsFault bytes.now fault) }
{
    let mut commands = Vec::new(alloc);
    let mut rest = bytes;
    let mut number: u32 = 1;
    'lines: while let Some(end) = first_byte(rest, b'\n') {
        match take_line(
            alloc,
            &mut commands,
            strip_return(before(rest, end)),
            number,
        ) {
            Ok(()) => {}
            Err(fault) => return Err(fault),
        }
        rest = after(rest, end + 1);
        number += 1;
    }
    match take_line(alloc, &mut commands, rest, number) {
        Ok(()) => Ok(commands),
        Err(fault) => Err(fault),
    }
}

// Takes what a line of that number says behind the commands before it.
fn take_line(
    alloc: Global,
    commands: &mut Vec<ScriptCommand>,
    line: &[u8],
    number: u32,
) -> Result<(), ScriptFault>
    ensures taken { OnOk result
        (Takes (says number line.now) commands.old.items commands.new.items) }
    ensures fault { IfErr result (λ fault. (fault ≡ ScriptFault.Memory)
        ⊎ ((fault ≡ ScriptFault.Line number) × (says number line.now ≡ None))) }
{
    match command_on(alloc, line, number) {
        Ok(Some(command)) => keep(commands, command),
        Ok(None) => Ok(()),
        Err(fault) => Err(fault),
    }
}

// The command on a line of that number; none where the line is skipped.
fn command_on(alloc: Global, line: &[u8], number: u32) -> Result<Option<ScriptCommand>, ScriptFault>
    ensures says { IfOk result (λ command. says number line.now ≡ Some (one_or_none command)) }
    ensures fault { IfErr result (λ fault. (fault ≡ ScriptFault.Memory)
        ⊎ ((fault ≡ ScriptFault.Line number) × (says number line.now ≡ None))) }
{
    if !is_text(line) {
        return Err(ScriptFault::Line(number));
    }
    if is_comment(line) {
        return Ok(None);
    }
    match said_by(alloc, line)? {
        Some(act) => Ok(Some(ScriptCommand { line: number, act })),
        None => Err(ScriptFault::Line(number)),
    }
}

// Puts a command last, where one more than a script has still fits.
fn keep(commands: &mut Vec<ScriptCommand>, command: ScriptCommand) -> Result<(), ScriptFault>
    ensures next { OnOk result
        (IsNext commands.old.items (command ∷ []) commands.new.items) }
    ensures memory { IfErr result (λ fault. fault ≡ ScriptFault.Memory) }
{
    if !are_few(commands.len()) {
        return Ok(());
    }
    commands.push(command)?;
    Ok(())
}

// Whether a script may have so many commands.
fn are_few(count: usize) -> bool
    ensures { MatchBool result (count ≤ most_commands) (most_commands < count) }
{
    count <= MOST_COMMANDS
}

// Whether a line is UTF-8.
fn is_text(line: &[u8]) -> bool
    ensures { result ≡ is_utf8 line.now }
{
    match std::str::from_utf8(line) {
        Ok(_) => true,
        Err(_) => false,
    }
}

/// Law: bytes are one script at most, or have one fault at most, and never both. It does nothing.
pub fn one_outcome()
    ensures script { (bytes : List ℕ) (a b : List AnyCommand) →
        IsScript bytes a → IsScript bytes b → a ≡ b }
    ensures fault { (bytes : List ℕ) (f g : AnyFault) → IsFault bytes f → IsFault bytes g → f ≡ g }
    ensures either { (bytes : List ℕ) (commands : List AnyCommand) (fault : AnyFault) →
        IsScript bytes commands → IsFault bytes fault → ⊥ }
{}
