// A buffer of fixed size beside a stream.
ghost use Rattle.std.specs.Prelude.{◌≡◌, ◌+◌, ◌<◌, ◌≤◌, ◌↔◌, ◌++◌, [], false, IsTrue, IsErr, OnOk, length};
ghost use Rattle.dev_io.specs.Calls.{Tells, SendsAll};
ghost use Rattle.dev_io.specs.Causes.{HasCause};
ghost use Rattle.dev_io.specs.Parts.{joined};

use crate::output::{Out, WriteFault, write_all};

/// How many bytes a buffer holds at most, which is about the size of the pieces that a stream is
/// handed.
pub const BUFFER_SIZE: usize = 8192;

// So few bytes are short.
const SHORT: usize = 4;

/// A buffer of fixed size that goes beside a stream, so that many small texts leave in pieces of
/// some kilobytes.
///
/// It keeps whether a write failed. From then on it takes what it is handed and sends nothing, so a
/// writer of many parts hands them over one by one and asks once, at `flush`. What is held when it
/// is dropped is not sent. It takes no memory.
#[derive(Drop)]
pub struct OutBuffer {
    bytes: [u8; BUFFER_SIZE],
    // So many of the first bytes are held. The others have no meaning.
    count: usize,
    failed: bool,
    ghost fits: { count < 8193 },
}

impl OutBuffer {
    ghost use Rattle.dev_io.specs.Buffer.{standing, HandsOver, Flushes, held_of, has_failed};

    /// An empty buffer.
    pub fn new() -> OutBuffer
        ensures held { held_of result ≡ [] }
        ensures failed { has_failed result ≡ false }
    {
        OutBuffer {
            bytes: [0; BUFFER_SIZE],
            count: 0,
            failed: false,
        }
    }

    /// Hands these bytes over. What was held is sent where there is no room for them, and they too
    /// where they are too many for an empty buffer. Where a write fails, `flush` says so, and
    /// nothing is sent from then on.
    #[inline]
    pub fn put<W: Out>(&mut self, out: &mut W, bytes: &[u8])
        ensures { HandsOver W.known W.faults out.old out.new self.old self.new bytes.now }
    {
        if self.failed {
            return;
        }
        if bytes.len() <= BUFFER_SIZE - self.count {
            self.hold(bytes);
        } else {
            self.put_past(out, bytes);
        }
    }

    // Holds these bytes too, for which there is room.
    #[inline]
    fn hold(&mut self, bytes: &[u8])
        requires { self.old.count + length bytes.now ≤ 8192 }
        ensures held { held_of self.new ≡ held_of self.old ++ bytes.now }
        ensures count { self.new.count ≡ self.old.count + length bytes.now }
        ensures failed { has_failed self.new ≡ has_failed self.old }
    {
        let start = self.count;
        let end = start + bytes.len();
        self.bytes[start..end].copy_from_slice(bytes);
        self.count = end;
    }

    // Hands over bytes for which there is no room.
    #[inline(never)]
    fn put_past<W: Out>(&mut self, out: &mut W, bytes: &[u8])
        requires { has_failed self.old ≡ false }
        ensures { HandsOver W.known W.faults out.old out.new self.old self.new bytes.now }
    {
        match self.flush(out) {
            Ok(()) => self.put_first(out, bytes),
            Err(_) => {}
        }
    }

    // Hands over the first bytes to an empty buffer.
    fn put_first<W: Out>(&mut self, out: &mut W, bytes: &[u8])
        requires empty { held_of self.old ≡ [] }
        requires sound { has_failed self.old ≡ false }
        ensures { HandsOver W.known W.faults out.old out.new self.old self.new bytes.now }
    {
        if bytes.len() <= BUFFER_SIZE {
            self.hold(bytes);
            return;
        }
        match write_all(out, bytes) {
            Ok(()) => {}
            Err(_) => self.failed = true,
        }
    }

    /// Hands over a part between two others, which are short. Where a write fails, `flush` says so,
    /// and nothing is sent from then on.
    #[inline(always)]
    pub fn put_between<W: Out>(&mut self, out: &mut W, before: &[u8], part: &[u8], after: &[u8])
        ensures { HandsOver W.known W.faults out.old out.new self.old self.new
            (before.now ++ (part.now ++ after.now)) }
    {
        if before.len() > SHORT || after.len() > SHORT || self.failed {
            self.put_three(out, before, part, after);
            return;
        }
        if part.len() + 2 * SHORT <= BUFFER_SIZE - self.count {
            self.hold(before);
            self.hold(part);
            self.hold(after);
        } else {
            self.put_three(out, before, part, after);
        }
    }

    // Hands over three parts, one after another.
    #[inline(never)]
    fn put_three<W: Out>(&mut self, out: &mut W, before: &[u8], part: &[u8], after: &[u8])
        ensures { HandsOver W.known W.faults out.old out.new self.old self.new
            (before.now ++ (part.now ++ after.now)) }
    {
        self.put(out, before);
        self.put(out, part);
        self.put(out, after);
    }

    /// Hands these parts over, one after another. Where a write fails, `flush` says so, and
    /// nothing is sent from then on.
    pub fn put_parts<W: Out>(&mut self, out: &mut W, parts: &[&[u8]])
        ensures { HandsOver W.known W.faults out.old out.new self.old self.new (joined parts.now) }
    {
        for part in parts {
            self.put(out, part);
        }
    }

    /// Sends what is held. `Sink` comes where a write has failed, now or before, and then a prefix
    /// of all that was handed over was sent, and the count of faults rose at that write, or stands
    /// at 2^64 - 1.
    pub fn flush<W: Out>(&mut self, out: &mut W) -> Result<(), WriteFault>
        ensures sent { Flushes (standing W.known W.faults out.old self.old)
            (standing W.known W.faults out.new self.new) result }
        ensures empty { OnOk result (held_of self.new ≡ []) }
        ensures failed { IsTrue (has_failed self.new) ↔ IsErr result }
    {
        if self.failed {
            return Err(WriteFault::Sink);
        }
        match write_all(out, &self.bytes[..self.count]) {
            Ok(()) => {
                self.count = 0;
                Ok(())
            }
            Err(_) => {
                self.failed = true;
                Err(WriteFault::Sink)
            }
        }
    }
}

/// Sends the parts, one after another, through a buffer. `Sink` comes only where a write failed,
/// and then a prefix of all of them was sent, and the count of faults rose, or stands at 2^64 - 1.
pub fn write_parts<W: Out>(out: &mut W, parts: &[&[u8]]) -> Result<(), WriteFault>
    ensures told { Tells (SendsAll (joined parts.now) result) (W.known out.old) (W.known out.new) }
    ensures cause { HasCause (W.faults out.old) (W.faults out.new) result }
{
    let mut buffer = OutBuffer::new();
    buffer.put_parts(out, parts);
    buffer.flush(out)
}
