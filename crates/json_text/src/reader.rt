//! The reader of JSON text.

ghost use Rattle.std.specs.Prelude.{◌≡◌, ◌≢◌, ◌++◌, ◌<◌, ◌≤◌, [], List, ℕ, IfOk, IfErr, OnOk, Err, None, Some, length};
ghost use Rattle.limits.specs.Limits.{most_bytes};
ghost use Rattle.json_text.specs.State.Machine as spec;
ghost use Rattle.json_text.specs.State.Runs.{named};
ghost use Rattle.json_text.specs.State.Stands.{state_of};

use crate::bytes::before;
use crate::faults::JsonFault;
use crate::machine::Machine;
use crate::state::{Ran, Stop};
use json_value::Json;
use limits::MOST_BYTES;
use sequences::TextRoom;
use std::alloc::{AllocError, Global};

/// A reader of one text of JSON (RFC 8259), in UTF-8, that takes it in pieces of any size.
///
/// A text has at most 127 levels of lists and objects and at most 33 554 432 bytes. A numeral
/// stands for its spelling. A later member of a name replaces the value of the first one, in the
/// first one's place. An escape that names half of a character needs the other half.
pub struct JsonReader {
    machine: Machine,
    taken: u64,
    fault: Option<JsonFault>,
    /// Room for a numeral that is the whole value, from the first piece on.
    room: Option<TextRoom>,
    ghost within: { taken ≤ most_bytes },
}

impl JsonReader {
    ghost use Rattle.json_text.specs.Grammar.{text_of};
    ghost use Rattle.json_text.specs.Faults.{Names};
    ghost use Rattle.json_text.specs.Reader.{HasRead, HasFailed, HasReadOrFailed, ReadsOn, StaysLive};

    /// A reader that was fed nothing. It takes no memory.
    pub fn new(alloc: Global) -> JsonReader
        ensures { HasRead [] result }
    {
        JsonReader {
            machine: Machine::new(alloc),
            taken: 0,
            fault: None,
            room: None,
        }
    }

    /// Reads the next bytes. The answer is the first fault that all bytes so far have, if they have
    /// one; any later call answers that fault again, want of memory included.
    pub fn feed(&mut self, piece: &[u8]) -> Result<(), JsonFault>
        ensures read { OnOk result (ReadsOn self.old piece.now self.new) }
        ensures live { OnOk result (StaysLive self.old piece.now) }
        ensures fault { IfErr result (λ fault. (bytes : List ℕ) → HasRead bytes self.old →
            Names fault (bytes ++ piece.now)) }
        ensures failed { IfErr result (λ fault. HasFailed fault self.new) }
        ensures again { (fault : JsonFault) → HasFailed fault self.old → result ≡ Err fault }
        ensures stands { HasReadOrFailed self.old → HasReadOrFailed self.new }
    {
        if let Some(fault) = self.fault {
            return Err(fault);
        }
        match self.take(piece) {
            Ok(()) => Ok(()),
            Err(fault) => {
                self.fault = Some(fault);
                Err(fault)
            }
        }
    }

    // Reads the next bytes where no fault came before.
    fn take(&mut self, piece: &[u8]) -> Result<(), JsonFault>
        ensures read { OnOk result (ReadsOn self.old piece.now self.new) }
        ensures live { OnOk result (StaysLive self.old piece.now) }
        ensures fault { IfErr result (λ fault. (bytes : List ℕ) → HasRead bytes self.old →
            Names fault (bytes ++ piece.now)) }
    {
        match keep_room(self.machine.alloc, &mut self.room) {
            Ok(()) => {}
            Err(_) => return Err(JsonFault::Memory),
        }
        let most = (MOST_BYTES - self.taken) as usize;
        let within = before(piece, most);
        match self.machine.run(within) {
            Ok(Ran::All) => {}
            Ok(Ran::Stops(index, stop)) => return Err(fault_of(stop, self.taken + index as u64)),
            Err(_) => return Err(JsonFault::Memory),
        }
        if piece.len() > most {
            return Err(JsonFault::Large);
        }
        self.taken += piece.len() as u64;
        Ok(())
    }

    /// The value of the text that was read; `Syntax` with the number of bytes where these are no
    /// whole text. After a fault of `feed` it answers that fault, want of memory included. It takes
    /// no memory.
    pub fn finish(self) -> Result<Json, JsonFault>
        ensures text { IfOk result (λ value. (bytes : List ℕ) → HasRead bytes self →
            text_of bytes value) }
        ensures only { IfOk result (λ value. (bytes : List ℕ) → HasRead bytes self →
            (other : Json) → text_of bytes other → other ≡ value) }
        ensures fault { IfErr result (λ fault. (bytes : List ℕ) → HasRead bytes self →
            (fault ≡ JsonFault.Syntax (length bytes)) ×
            ((value : Json) → text_of bytes value → ⊥)) }
        ensures again { (fault : JsonFault) → HasFailed fault self → result ≡ Err fault }
    {
        let JsonReader {
            machine,
            taken,
            fault,
            room,
        } = self;
        if let Some(fault) = fault {
            return Err(fault);
        }
        match whole(machine, room) {
            Some(value) => Ok(value),
            None => Err(JsonFault::Syntax(taken)),
        }
    }
}

// The value, where the bytes that the machine took are a whole text; `None` where there is no
// room.
fn whole(machine: Machine, room: Option<TextRoom>) -> Option<Json>
    ensures value { room ≢ None → result ≡ spec.at_last (state_of machine) }
    ensures nothing { room ≡ None → result ≡ None }
{
    match room {
        Some(room) => machine.finish(room),
        None => None,
    }
}

// Makes room for one text, where there is none. An error comes where memory runs out.
fn keep_room(alloc: Global, room: &mut Option<TextRoom>) -> Result<(), AllocError>
    ensures { OnOk result (room.new ≢ None) }
{
    match room {
        Some(_) => {}
        None => *room = Some(TextRoom::new(alloc)?),
    }
    Ok(())
}

// The fault of a byte at an offset.
fn fault_of(stop: Stop, offset: u64) -> JsonFault
    ensures { result ≡ named stop offset }
{
    match stop {
        Stop::Syntax => JsonFault::Syntax(offset),
        Stop::Utf8 => JsonFault::Utf8(offset),
        Stop::Depth => JsonFault::Depth(offset),
    }
}

// Drops are written out: a derived one is proved again in each crate that drops such a value.

impl Drop for JsonReader {
    fn drop(self) {
        let JsonReader {
            machine: _,
            taken: _,
            fault: _,
            room: _,
        } = self;
    }
}
