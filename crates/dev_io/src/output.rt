// The stream that a program writes.
ghost use Rattle.std.specs.Prelude.{◌≡◌, ◌<◌, ℕ, length, IfOk};
ghost use Rattle.std.specs.Io.{WritesAtMost};
ghost use Rattle.std.specs.declared.option.Option.{Option};
ghost use Rattle.dev_io.specs.Known.{KnownOut};
ghost use Rattle.dev_io.specs.Calls.{Tells, Aims, Sends, SendsAll, IsFresh};
ghost use Rattle.dev_io.specs.Causes.{HasCause};

use crate::files::Failed;

/// Why a call that writes a whole text stopped before its end.
#[derive(Clone, Copy, Debug, PartialEq, Eq)]
pub enum WriteFault {
    /// A write of the stream failed, and its count of faults rose, or stands at 2^64 - 1. Of
    /// `OutBuffer::flush` that may have been in an earlier call.
    Sink,
}

impl From<Failed> for WriteFault {
    ghost use Rattle.dev_io.specs.declared.output.WriteFault.TheVariants.{Sink};

    ghost from_gives = { λ _ fault. fault ≡ Sink };

    fn from(_failed: Failed) -> WriteFault {
        WriteFault::Sink
    }
}

/// A stream of bytes to standard output, or after `aim` to a file.
///
/// Its target and the bytes sent may be known. A call that fails leaves both as they were. Its
/// count of faults never falls.
pub trait Out {
    /// Where it writes and what was sent, where that is known.
    ghost known: { Self → Option KnownOut };

    /// How often a call failed.
    ghost faults: { Self → ℕ };

    /// From here on the bytes go to the file of that name. Nothing may have been written yet, where
    /// that is known. After `Failed` they go where they went before, the bytes sent are as they
    /// were, and the count of faults rose, or stands at 2^64 - 1.
    fn aim(&mut self, name: &str) -> Result<(), Failed>
        requires { IsFresh (known self.old) }
        ensures told { Tells (Aims name.now result) (known self.old) (known self.new) }
        ensures cause { HasCause (faults self.old) (faults self.new) result };

    /// Sends some bytes from the front of the piece, at least one where there are any, and says how
    /// many. A stream that takes none of them has failed. After `Failed` the target and the bytes
    /// sent are as they were, and the count of faults rose, or stands at 2^64 - 1.
    fn write(&mut self, piece: &[u8]) -> Result<usize, Failed>
        ensures bound { WritesAtMost result piece.now }
        ensures some { IfOk result (λ n. 0 < length piece.now → 0 < n) }
        ensures told { Tells (Sends piece.now result) (known self.old) (known self.new) }
        ensures cause { HasCause (faults self.old) (faults self.new) result };
}

/// Sends all of the bytes. Where it fails, a prefix of them was sent, and the stream's count of
/// faults rose, or stands at 2^64 - 1. It takes no memory.
pub fn write_all<W: Out>(out: &mut W, bytes: &[u8]) -> Result<(), Failed>
    ensures told { Tells (SendsAll bytes.now result) (W.known out.old) (W.known out.new) }
    ensures cause { HasCause (W.faults out.old) (W.faults out.new) result }
{
    let mut rest = bytes;
    while !rest.is_empty() {
        let sent = out.write(rest)?;
        rest = &rest[sent..];
    }
    Ok(())
}
