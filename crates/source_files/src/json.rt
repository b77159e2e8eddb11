// Reading a JSON text in pieces.
ghost use Rattle.std.specs.Prelude.{◌≡◌, ◌≢◌, ℕ, List, IfOk};
ghost use Rattle.json_text.specs.Reader.{HasRead};
ghost use Rattle.json_text.specs.Grammar.{text_of};
ghost use Rattle.source_files.specs.Faults.{json_fault_text};
ghost use Rattle.source_files.specs.Formats.{IsJson, RefusesJson, IsCalmJson};
ghost use Rattle.source_files.specs.Hand.{Judges};
ghost use Rattle.source_files.specs.Following.{Follows};
ghost use Rattle.source_files.specs.HandedFiles.{HandsOver, GivesHand};
ghost use Rattle.source_files.specs.Reading.{IsRefused, Raised};

use crate::messages::json_reason;
use crate::read_faults::{ReadFault, Refusal};
use dev_io::Files;
use json_text::{JsonFault, JsonReader};
use json_value::Json;
use limits::{MOST_BYTES, PIECE_BYTES};
use std::alloc::Global;
use std::mem;

/// How many bytes a file may have.
const MOST: usize = MOST_BYTES as usize;

/// The value of the JSON text that is left of the file in hand. Each piece is judged before the
/// next is read.
pub fn read_json<F: Files>(alloc: Global, files: &mut F) -> Result<Json, ReadFault>
    ensures text { IfOk result (λ value. (bytes : List ℕ) × text_of bytes value) }
    ensures given { HandsOver (GivesHand IsJson RefusesJson IsCalmJson result)
        (F.handed files.old) (F.handed files.new) }
    ensures followed { Follows (F.known files.old) (F.known files.new) (F.handed files.old)
        (F.handed files.new) }
    ensures cause { Raised result (F.faults files.old) (F.faults files.new) }
{
    let mut reader = JsonReader::new(alloc);
    let mut piece = [0u8; PIECE_BYTES];
    let mut taken = 0usize;
    'pieces: while taken <= MOST {
        match files.read(&mut piece) {
            Err(_) => {
                mem::forget(reader);
                return Err(ReadFault::Failed);
            }
            Ok(0) => return value_of(reader),
            Ok(count) => match reader.feed(&piece[..count]) {
                Ok(()) => taken += count,
                Err(fault) => {
                    mem::forget(reader);
                    return Err(ReadFault::Refused(json_refusal(fault)));
                }
            },
        }
    }
    mem::forget(reader);
    Err(ReadFault::Refused(json_refusal(JsonFault::Large)))
}

// The value of the text that was read.
fn value_of(reader: JsonReader) -> Result<Json, ReadFault>
    ensures read { (bytes : List ℕ) → HasRead bytes reader →
        Judges IsJson RefusesJson bytes result }
    ensures text { (bytes : List ℕ) → HasRead bytes reader →
        IfOk result (λ value. text_of bytes value) }
    ensures calm { (n : ℕ) → Raised result n n }
{
    match reader.finish() {
        Ok(value) => Ok(value),
        Err(fault) => Err(ReadFault::Refused(json_refusal(fault))),
    }
}

// How a fault of a JSON text is refused.
fn json_refusal(fault: JsonFault) -> Refusal
    ensures { IsRefused (λ why. (fault ≢ JsonFault.Memory) × (why ≡ json_fault_text fault)) result }
{
    match json_reason(fault) {
        Some(reason) => Refusal::Broken(reason),
        None => Refusal::Memory,
    }
}
