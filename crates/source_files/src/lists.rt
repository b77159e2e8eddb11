// Reading a list in pieces.
ghost use Rattle.std.specs.Prelude.{◌≡◌, ◌≢◌, ◌⊎◌, ◌≤◌, ◌++◌, ℕ, List, length, IfOk, IfErr, OnOk};
ghost use Rattle.edl_list.specs.Formed.{IsWellFormed};
ghost use Rattle.edl_text.specs.Lists.{IsList, IsEarlyFault};
ghost use Rattle.edl_text.specs.Reader.{HasRead};
ghost use Rattle.limits.specs.Limits.{most_bytes};
ghost use Rattle.note_text.specs.Reader.{HasHeard};
ghost use Rattle.source_files.specs.Faults.{list_fault_text};
ghost use Rattle.source_files.specs.Formats.{IsNotedList, RefusesList, IsCalmList, SuitsNotes};
ghost use Rattle.source_files.specs.Hand.{Judges};
ghost use Rattle.source_files.specs.Following.{Follows};
ghost use Rattle.source_files.specs.HandedFiles.{HandsOver, GivesHand};
ghost use Rattle.source_files.specs.Reading.{IsRefused, Raised};

use crate::messages::list_reason;
use crate::read_faults::{ReadFault, Refusal};
use dev_io::Files;
use edl_list::EventList;
use edl_text::{EdlFault, EdlReader};
use limits::{MOST_BYTES, PIECE_BYTES};
use note_text::{NoteReader, Notes};
use std::alloc::Global;
use std::mem;
use tick_time::Rate;

/// How many bytes a file may have.
const MOST: usize = MOST_BYTES as usize;

/// The list that is left of the file in hand. Each piece is judged before the next is read.
pub fn read_list<F: Files>(alloc: Global, rate: Rate, files: &mut F) -> Result<EventList, ReadFault>
    ensures formed { IfOk result (λ list. IsWellFormed list) }
    ensures given { HandsOver (GivesHand (IsList rate) (RefusesList rate) (IsCalmList rate) result)
        (F.handed files.old) (F.handed files.new) }
    ensures followed { Follows (F.known files.old) (F.known files.new) (F.handed files.old)
        (F.handed files.new) }
    ensures cause { Raised result (F.faults files.old) (F.faults files.new) }
{
    let mut reader = EdlReader::new(alloc, rate);
    let mut piece = [0u8; PIECE_BYTES];
    let mut taken = 0usize;
    'pieces: while taken <= MOST {
        match files.read(&mut piece) {
            Err(_) => {
                mem::forget(reader);
                return Err(ReadFault::Failed);
            }
            Ok(0) => return list_of(reader),
            Ok(count) => match reader.feed(&piece[..count]) {
                Ok(()) => taken += count,
                Err(fault) => {
                    mem::forget(reader);
                    return Err(ReadFault::Refused(list_refusal(fault)));
                }
            },
        }
    }
    mem::forget(reader);
    Err(ReadFault::Refused(list_refusal(EdlFault::Large)))
}

/// The list that is left of the file in hand, and its notes. Each piece is judged before the next
/// is read, and its notes are kept, not its bytes.
pub fn read_noted_list<F: Files>(
    alloc: Global,
    rate: Rate,
    files: &mut F,
) -> Result<(EventList, Notes), ReadFault>
    ensures suits { IfOk result (λ read. SuitsNotes read.0 read.1) }
    ensures given { HandsOver (GivesHand (λ bytes read. IsNotedList rate bytes read.0 read.1)
        (RefusesList rate) (IsCalmList rate) result) (F.handed files.old) (F.handed files.new) }
    ensures followed { Follows (F.known files.old) (F.known files.new) (F.handed files.old)
        (F.handed files.new) }
    ensures cause { Raised result (F.faults files.old) (F.faults files.new) }
{
    let mut reader = EdlReader::new(alloc, rate);
    let mut listener = NoteReader::new(alloc, rate);
    let mut piece = [0u8; PIECE_BYTES];
    let mut taken = 0usize;
    'pieces: while taken <= MOST {
        match files.read(&mut piece) {
            Err(_) => {
                mem::forget(reader);
                mem::forget(listener);
                return Err(ReadFault::Failed);
            }
            Ok(0) => return noted_of(reader, listener),
            Ok(count) => match feed_both(&mut reader, &mut listener, &piece[..count]) {
                Ok(()) => taken += count,
                Err(fault) => {
                    let refusal = list_refusal(fault);
                    mem::forget(reader);
                    mem::forget(listener);
                    return Err(ReadFault::Refused(refusal));
                }
            },
        }
    }
    mem::forget(reader);
    mem::forget(listener);
    Err(ReadFault::Refused(list_refusal(EdlFault::Large)))
}

// Feeds a piece to the reader of the list, and where it shows no fault to that of the notes.
fn feed_both(
    reader: &mut EdlReader,
    listener: &mut NoteReader,
    piece: &[u8],
) -> Result<(), EdlFault>
    ensures read { OnOk result ((rate : Rate) (bytes : List ℕ) → HasRead rate bytes reader.old
        → HasRead rate (bytes ++ piece.now) reader.new) }
    ensures heard { OnOk result ((rate : Rate) (bytes : List ℕ) → HasHeard rate bytes listener.old
        → HasHeard rate (bytes ++ piece.now) listener.new) }
    ensures live { OnOk result ((rate : Rate) (bytes : List ℕ) → HasRead rate bytes reader.old
        → (length (bytes ++ piece.now) ≤ most_bytes)
        × ((fault : EdlFault) → IsEarlyFault rate (bytes ++ piece.now) fault → ⊥)) }
    ensures fault { IfErr result (λ fault. (rate : Rate) (bytes : List ℕ)
        → HasRead rate bytes reader.old → (fault ≡ EdlFault.Memory)
        ⊎ IsEarlyFault rate (bytes ++ piece.now) fault) }
{
    match reader.feed(piece) {
        Ok(()) => {}
        Err(fault) => return Err(fault),
    }
    match listener.feed(piece) {
        Ok(()) => Ok(()),
        Err(_) => Err(EdlFault::Memory),
    }
}

// The list that was read, and its notes.
fn noted_of(reader: EdlReader, listener: NoteReader) -> Result<(EventList, Notes), ReadFault>
    requires { (rate : Rate) × (bytes : List ℕ) × HasRead rate bytes reader }
    ensures read { (rate : Rate) (bytes : List ℕ) → HasRead rate bytes reader
        → HasHeard rate bytes listener
        → Judges (λ of read. IsNotedList rate of read.0 read.1) (RefusesList rate) bytes result }
    ensures suits { (rate : Rate) (bytes : List ℕ) → HasRead rate bytes reader
        → HasHeard rate bytes listener → IfOk result (λ read. SuitsNotes read.0 read.1) }
    ensures calm { (n : ℕ) → Raised result n n }
{
    match reader.finish() {
        Ok(list) => match listener.finish(&list) {
            Ok(notes) => Ok((list, notes)),
            Err(_) => {
                mem::forget(list);
                Err(ReadFault::Refused(Refusal::Memory))
            }
        },
        Err(fault) => Err(ReadFault::Refused(list_refusal(fault))),
    }
}

// The list that was read.
fn list_of(reader: EdlReader) -> Result<EventList, ReadFault>
    ensures read { (rate : Rate) (bytes : List ℕ) → HasRead rate bytes reader
        → Judges (IsList rate) (RefusesList rate) bytes result }
    ensures formed { (rate : Rate) (bytes : List ℕ) → HasRead rate bytes reader →
        IfOk result (λ list. IsWellFormed list) }
    ensures calm { (n : ℕ) → Raised result n n }
{
    match reader.finish() {
        Ok(list) => Ok(list),
        Err(fault) => Err(ReadFault::Refused(list_refusal(fault))),
    }
}

// How a fault of a list is refused.
fn list_refusal(fault: EdlFault) -> Refusal
    ensures { IsRefused (λ why. (fault ≢ EdlFault.Memory) × (why ≡ list_fault_text fault)) result }
{
    match list_reason(fault) {
        Some(reason) => Refusal::Broken(reason),
        None => Refusal::Memory,
    }
}
