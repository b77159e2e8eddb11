//! The reader of lists.

ghost use Rattle.std.specs.Prelude.{◌≡◌, ◌⊎◌, ◌++◌, ◌∷◌, ◌+◌, ◌<◌, ◌≤◌, [], List, ℕ, IfOk, IfErr, OnOk, Err, length, take as bytes_before};
ghost use Rattle.limits.specs.Limits.{most_bytes};
ghost use Rattle.text_lines.specs.First.{HasNone};
ghost use Rattle.text_lines.specs.Lines.{ended_lines};

use crate::faults::EdlFault;
use crate::list_so_far::Said;
use edl_list::EventList;
use limits::MOST_BYTES;
use std::alloc::Global;
use text_lines::{after, before, first_byte, strip_return};
use tick_time::Rate;

/// How many bytes a list may have.
const LIMIT: usize = MOST_BYTES as usize;

/// A reader of one edit decision list in the general form of CMX 3600, at a rate, that takes it in
/// pieces of any size.
///
/// Lines end with a line feed or with a carriage return and a line feed; the last may lack its end.
/// A list has at most 33 554 432 bytes. Its events are pairs and cuts on the channels V, A and A2,
/// with the frame numbers of their labels (SMPTE ST 12-1), the names that notes give their sides,
/// and the speeds that M2 lines give them.
pub struct EdlReader {
    said: Said,
    held: Vec<u8>,
    taken: usize,
    fault: Option<EdlFault>,
    ghost within: { taken ≤ most_bytes },
}

impl EdlReader {
    ghost use Rattle.tick_time.specs.declared.rates.Rate.{Rate as RateSaid};
    ghost use Rattle.edl_list.specs.Formed.{IsWellFormed};
    ghost use Rattle.edl_text.specs.Lines.{HasFirstFault};
    ghost use Rattle.edl_text.specs.Lists.{IsList, IsEarlyFault, IsFault};
    ghost use Rattle.edl_text.specs.Reader.{HasRead, HasFailed, HasReadOrFailed, GoesOn, StaysLive};

    /// A reader of a list at that rate that was fed nothing. It takes no memory.
    pub fn new(alloc: Global, rate: Rate) -> EdlReader
        ensures { HasRead rate [] result }
    {
        EdlReader {
            said: Said::new(alloc, rate),
            held: Vec::new(alloc),
            taken: 0,
            fault: None,
        }
    }

    /// Reads the next bytes.
    ///
    /// # Errors
    /// The first fault that shows in all bytes so far: that of the first line that has one, where
    /// its line feed has come, or [`EdlFault::Large`] where there are more bytes than a list may
    /// have and no line that ends within that many has a fault. Any later call answers the same
    /// fault again, out of memory included.
    pub fn feed(&mut self, piece: &[u8]) -> Result<(), EdlFault>
        ensures read { OnOk result ((rate : RateSaid) (bytes : List ℕ)
            → HasRead rate bytes self.old → HasRead rate (bytes ++ piece.now) self.new) }
        ensures live { OnOk result ((rate : RateSaid) (bytes : List ℕ)
            → HasRead rate bytes self.old
            → (length (bytes ++ piece.now) ≤ most_bytes)
            × ((fault : EdlFault) → IsEarlyFault rate (bytes ++ piece.now) fault → ⊥)) }
        ensures fault { IfErr result (λ fault. (rate : RateSaid) (bytes : List ℕ)
            → HasRead rate bytes self.old → (fault ≡ EdlFault.Memory)
            ⊎ IsEarlyFault rate (bytes ++ piece.now) fault) }
        ensures failed { IfErr result (λ fault. HasFailed fault self.new) }
        ensures again { (fault : EdlFault) → HasFailed fault self.old → result ≡ Err fault }
        ensures stands { HasReadOrFailed self.old → HasReadOrFailed self.new }
    {
        if let Some(fault) = self.fault {
            return Err(fault);
        }
        match self.take(piece) {
            Err(fault) => Err(self.failed(fault)),
            Ok(()) => Ok(()),
        }
    }

    /// The list that was read.
    ///
    /// # Errors
    /// The fault of the last line where that has no end, and then the first of
    /// [`EdlFault::Unequal`] and [`EdlFault::Overlap`] by line, on one line in this order.
    /// [`EdlFault::Memory`] where memory runs out. After a fault of [`EdlReader::feed`] the same
    /// fault.
    pub fn finish(self) -> Result<EventList, EdlFault>
        ensures list { IfOk result (λ list. (rate : RateSaid) (bytes : List ℕ)
            → HasRead rate bytes self → IsList rate bytes list) }
        ensures well_formed { IfOk result (λ list. (rate : RateSaid) (bytes : List ℕ)
            → HasRead rate bytes self → IsWellFormed list) }
        ensures fault { IfErr result (λ fault. (rate : RateSaid) (bytes : List ℕ)
            → HasRead rate bytes self → (fault ≡ EdlFault.Memory) ⊎ IsFault rate bytes fault) }
        ensures again { (fault : EdlFault) → HasFailed fault self → result ≡ Err fault }
    {
        let EdlReader {
            said,
            held,
            taken: _,
            fault,
        } = self;
        if let Some(fault) = fault {
            return Err(fault);
        }
        let mut said = said;
        match said.take_line(held.as_slice()) {
            Ok(()) => {}
            Err(fault) => return Err(fault),
        }
        match said.list() {
            Ok(list) => Ok(list),
            Err(fault) => Err(fault),
        }
    }

    // Keeps a fault, which every later call then answers.
    fn failed(&mut self, fault: EdlFault) -> EdlFault
        ensures fault { result ≡ fault }
        ensures failed { HasFailed result self.new }
    {
        self.fault = Some(fault);
        fault
    }

    // Reads the next bytes where no fault came before.
    fn take(&mut self, piece: &[u8]) -> Result<(), EdlFault>
        ensures read { OnOk result (GoesOn piece.now self.old self.new) }
        ensures live { OnOk result (StaysLive piece.now self.old) }
        ensures fault { IfErr result (λ fault. (rate : RateSaid) (bytes : List ℕ)
            → HasRead rate bytes self.old → (fault ≡ EdlFault.Memory)
            ⊎ IsEarlyFault rate (bytes ++ piece.now) fault) }
    {
        let room = LIMIT - self.taken;
        match self.take_within(first(piece, room)) {
            Ok(()) => {}
            Err(fault) => return Err(fault),
        }
        if piece.len() > room {
            return Err(EdlFault::Large);
        }
        Ok(())
    }

    // Reads bytes that there is room for.
    fn take_within(&mut self, piece: &[u8]) -> Result<(), EdlFault>
        requires { self.old.taken + length piece.now ≤ most_bytes }
        ensures read { OnOk result (GoesOn piece.now self.old self.new) }
        ensures fault { IfErr result (λ fault. (rate : RateSaid) (bytes : List ℕ)
            → HasRead rate bytes self.old → (fault ≡ EdlFault.Memory)
            ⊎ HasFirstFault rate [] (ended_lines (bytes ++ piece.now)) fault) }
    {
        let mut rest = piece;
        'lines: while let Some(end) = first_byte(rest, b'\n') {
            match self.end_line(before(rest, end)) {
                Ok(()) => rest = after(rest, end + 1),
                Err(fault) => return Err(fault),
            }
        }
        match self.hold(rest) {
            Ok(()) => Ok(()),
            Err(fault) => Err(fault),
        }
    }

    // Reads bytes of a line without its end.
    fn hold(&mut self, piece: &[u8]) -> Result<(), EdlFault>
        requires none { HasNone 10 piece.now }
        requires room { self.old.taken + length piece.now ≤ most_bytes }
        ensures read { OnOk result (GoesOn piece.now self.old self.new) }
        ensures taken { OnOk result (self.new.taken ≡ self.old.taken + length piece.now) }
        ensures fault { IfErr result (λ fault. fault ≡ EdlFault.Memory) }
    {
        self.held.extend_from_slice(piece)?;
        self.taken += piece.len();
        Ok(())
    }

    // Reads the rest of a line with the line feed behind it.
    fn end_line(&mut self, piece: &[u8]) -> Result<(), EdlFault>
        requires none { HasNone 10 piece.now }
        requires room { self.old.taken + length piece.now < most_bytes }
        ensures read { OnOk result ((rate : RateSaid) (bytes : List ℕ)
            → HasRead rate bytes self.old
            → HasRead rate (bytes ++ (piece.now ++ 10 ∷ [])) self.new) }
        ensures taken { OnOk result (self.new.taken ≡ self.old.taken + (length piece.now + 1)) }
        ensures fault { IfErr result (λ fault. (rate : RateSaid) (bytes : List ℕ)
            → HasRead rate bytes self.old → (fault ≡ EdlFault.Memory)
            ⊎ HasFirstFault rate [] (ended_lines (bytes ++ (piece.now ++ 10 ∷ []))) fault) }
    {
        self.hold(piece)?;
        match self.said.take_line(strip_return(self.held.as_slice())) {
            Ok(()) => {}
            Err(fault) => return Err(fault),
        }
        self.held.clear();
        self.taken += 1;
        Ok(())
    }
}

// The first bytes, so many, or all where there are fewer.
fn first(bytes: &[u8], count: usize) -> &[u8]
    ensures { result.now ≡ bytes_before count bytes.now }
{
    if count < bytes.len() {
        before(bytes, count)
    } else {
        bytes
    }
}

// Drops are written out: a derived one is proved anew in each crate that drops such a value.

impl Drop for EdlReader {
    fn drop(self) {
        let EdlReader {
            said: _,
            held: _,
            taken: _,
            fault: _,
        } = self;
    }
}
