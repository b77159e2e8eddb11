// Reading an edit script.
ghost use Rattle.std.specs.Prelude.{◌≡◌, ◌≢◌, ◌++◌, ℕ, List, OnOk};
ghost use Rattle.source_files.specs.Faults.{script_fault_text};
ghost use Rattle.source_files.specs.Formats.{IsCommands, RefusesScript, IsCalmScript};
ghost use Rattle.source_files.specs.Hand.{Judges};
ghost use Rattle.source_files.specs.Following.{Follows};
ghost use Rattle.source_files.specs.HandedFiles.{HandsOver, GivesHand};
ghost use Rattle.source_files.specs.Reading.{IsRefused, Raised};

use crate::messages::script_reason;
use crate::read_faults::{ReadFault, Refusal};
use dev_io::Files;
use edit_script::{ScriptCommand, ScriptFault, read_script};
use limits::{MOST_BYTES, PIECE_BYTES};
use std::alloc::{AllocError, Global};

/// How many bytes a file may have.
const MOST: usize = MOST_BYTES as usize;

/// The commands of the script that is left of the file in hand. It is judged when all of it was
/// read.
pub fn read_commands<F: Files>(
    alloc: Global,
    files: &mut F,
) -> Result<Vec<ScriptCommand>, ReadFault>
    ensures given { HandsOver (GivesHand IsCommands RefusesScript IsCalmScript result)
        (F.handed files.old) (F.handed files.new) }
    ensures followed { Follows (F.known files.old) (F.known files.new) (F.handed files.old)
        (F.handed files.new) }
    ensures cause { Raised result (F.faults files.old) (F.faults files.new) }
{
    let mut bytes = Vec::new(alloc);
    let mut piece = [0u8; PIECE_BYTES];
    'pieces: while bytes.len() <= MOST {
        match files.read(&mut piece) {
            Err(_) => return Err(ReadFault::Failed),
            Ok(0) => return commands_of(alloc, bytes.as_slice()),
            Ok(count) => match put_last(&mut bytes, &piece[..count]) {
                Ok(()) => {}
                Err(_) => return Err(ReadFault::Refused(Refusal::Memory)),
            },
        }
    }
    Err(ReadFault::Refused(script_refusal(ScriptFault::Large)))
}

/// Puts a piece after the bytes.
pub(crate) fn put_last(bytes: &mut Vec<u8>, piece: &[u8]) -> Result<(), AllocError>
    ensures { OnOk result (bytes.new.items ≡ bytes.old.items ++ piece.now) }
{
    bytes.extend_from_slice(piece)?;
    Ok(())
}

// The commands that all bytes are.
fn commands_of(alloc: Global, bytes: &[u8]) -> Result<Vec<ScriptCommand>, ReadFault>
    ensures read { Judges IsCommands RefusesScript bytes.now result }
    ensures calm { (n : ℕ) → Raised result n n }
{
    match read_script(alloc, bytes) {
        Ok(commands) => Ok(commands),
        Err(fault) => Err(ReadFault::Refused(script_refusal(fault))),
    }
}

// How a fault of a script is refused.
fn script_refusal(fault: ScriptFault) -> Refusal
    ensures { IsRefused (λ why. (fault ≢ ScriptFault.Memory)
        × (why ≡ script_fault_text fault)) result }
{
    match script_reason(fault) {
        Some(reason) => Refusal::Broken(reason),
        None => Refusal::Memory,
    }
}
