// Reading a log.
ghost use Rattle.std.specs.Prelude.{◌≡◌, ◌≢◌, ℕ, List};
ghost use Rattle.ale_text.specs.Logs.{IsLog};
ghost use Rattle.source_files.specs.Faults.{ale_fault_text};
ghost use Rattle.source_files.specs.Formats.{RefusesLog, IsCalmLog};
ghost use Rattle.source_files.specs.Hand.{Judges};
ghost use Rattle.source_files.specs.Following.{Follows};
ghost use Rattle.source_files.specs.HandedFiles.{HandsOver, GivesHand};
ghost use Rattle.source_files.specs.Reading.{IsRefused, Raised};

use crate::messages::ale_reason;
use crate::read_faults::{ReadFault, Refusal};
use crate::scripts::put_last;
use ale_text::{AleFault, read_ale};
use dev_io::Files;
use limits::{MOST_BYTES, PIECE_BYTES};
use media_list::MediaList;
use std::alloc::Global;

/// How many bytes a file may have.
const MOST: usize = MOST_BYTES as usize;

/// The media list of the log that is left of the file in hand. It is judged when all of it is read.
pub fn read_log<F: Files>(alloc: Global, files: &mut F) -> Result<MediaList, ReadFault>
    ensures given { HandsOver (GivesHand IsLog RefusesLog IsCalmLog result)
        (F.handed files.old) (F.handed files.new) }
    ensures followed { Follows (F.known files.old) (F.known files.new) (F.handed files.old)
        (F.handed files.new) }
    ensures cause { Raised result (F.faults files.old) (F.faults files.new) }
{
    let mut bytes = Vec::new(alloc);
    let mut piece = [0u8; PIECE_BYTES];
    'pieces: while bytes.len() <= MOST {
        match files.read(&mut piece) {
            Err(_) => return Err(ReadFault::Failed),
            Ok(0) => return rows_of(alloc, bytes.as_slice()),
            Ok(count) => match put_last(&mut bytes, &piece[..count]) {
                Ok(()) => {}
                Err(_) => return Err(ReadFault::Refused(Refusal::Memory)),
            },
        }
    }
    Err(ReadFault::Refused(log_refusal(AleFault::Large)))
}

// The media list of the log that all bytes are.
fn rows_of(alloc: Global, bytes: &[u8]) -> Result<MediaList, ReadFault>
    ensures read { Judges IsLog RefusesLog bytes.now result }
    ensures calm { (n : ℕ) → Raised result n n }
{
    match read_ale(alloc, bytes) {
        Ok(rows) => Ok(rows),
        Err(fault) => Err(ReadFault::Refused(log_refusal(fault))),
    }
}

// How a fault of a log is refused.
fn log_refusal(fault: AleFault) -> Refusal
    ensures { IsRefused (λ why. (fault ≢ AleFault.Memory)
        × (why ≡ ale_fault_text fault)) result }
{
    match ale_reason(fault) {
        Some(reason) => Refusal::Broken(reason),
        None => Refusal::Memory,
    }
}
