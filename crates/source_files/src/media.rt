// Reading a media list in pieces.
ghost use Rattle.std.specs.Prelude.{◌≡◌, ◌≢◌, ℕ, List};
ghost use Rattle.media_list.specs.Lists.{IsMediaList};
ghost use Rattle.source_files.specs.Faults.{media_fault_text};
ghost use Rattle.source_files.specs.Formats.{RefusesMedia, IsCalmMedia};
ghost use Rattle.source_files.specs.Hand.{Judges};
ghost use Rattle.source_files.specs.Following.{Follows};
ghost use Rattle.source_files.specs.HandedFiles.{HandsOver, GivesHand};
ghost use Rattle.source_files.specs.Reading.{IsRefused, Raised};

use crate::messages::media_reason;
use crate::read_faults::{ReadFault, Refusal};
use dev_io::Files;
use limits::{MOST_BYTES, PIECE_BYTES};
use media_list::{MediaFault, MediaList, MediaReader};
use std::alloc::Global;
use std::mem;

/// How many bytes a file may have.
const MOST: usize = MOST_BYTES as usize;

/// The media list that is left of the file in hand. It is judged when all of it was read.
pub fn read_media<F: Files>(alloc: Global, files: &mut F) -> Result<MediaList, ReadFault>
    ensures given { HandsOver (GivesHand IsMediaList RefusesMedia IsCalmMedia result)
        (F.handed files.old) (F.handed files.new) }
    ensures followed { Follows (F.known files.old) (F.known files.new) (F.handed files.old)
        (F.handed files.new) }
    ensures cause { Raised result (F.faults files.old) (F.faults files.new) }
{
    let mut reader = MediaReader::new(alloc);
    let mut piece = [0u8; PIECE_BYTES];
    let mut taken = 0usize;
    'pieces: while taken <= MOST {
        match files.read(&mut piece) {
            Err(_) => {
                mem::forget(reader);
                return Err(ReadFault::Failed);
            }
            Ok(0) => return rows_of(reader),
            Ok(count) => match reader.feed(&piece[..count]) {
                Ok(()) => taken += count,
                Err(fault) => {
                    mem::forget(reader);
                    return Err(ReadFault::Refused(media_refusal(fault)));
                }
            },
        }
    }
    mem::forget(reader);
    Err(ReadFault::Refused(media_refusal(MediaFault::Large)))
}

// The media list that was read.
fn rows_of(reader: MediaReader) -> Result<MediaList, ReadFault>
    ensures read { Judges IsMediaList RefusesMedia reader result }
    ensures calm { (n : ℕ) → Raised result n n }
{
    match reader.finish() {
        Ok(list) => Ok(list),
        Err(fault) => Err(ReadFault::Refused(media_refusal(fault))),
    }
}

// How a fault of a media list is refused.
fn media_refusal(fault: MediaFault) -> Refusal
    ensures { IsRefused (λ why. (fault ≢ MediaFault.Memory)
        × (why ≡ media_fault_text fault)) result }
{
    match media_reason(fault) {
        Some(reason) => Refusal::Broken(reason),
        None => Refusal::Memory,
    }
}
