//! Reads that are made again where a signal interrupts them (EINTR of POSIX).
ghost use Rattle.std.specs.Io.{ReadsAtMost};
ghost use Rattle.std.specs.Io.KnownBytes.{ReadConsumes};

use std::io;
use std::io::{ErrorKind, Read};

/// How often a read or a write that a signal interrupts is made again.
pub(crate) const RETRIES: usize = 1000;

/// Reads the next bytes of `input` into `buf`, and gives their number, which is 0 only at the end
/// or where `buf` is empty. A read that a signal interrupts is made again, up to a thousand times.
///
/// # Errors
/// The first error that is no interruption, else that of the last try. No byte was read then.
pub fn read_retrying<I: Read>(input: &mut I, buf: &mut [u8]) -> io::Result<usize>
    ensures bound { ReadsAtMost result buf.new }
    ensures bytes { ReadConsumes (I.remaining input.old) (I.remaining input.new) result buf.new }
{
    'tries: for _ in 0..RETRIES {
        match input.read(buf) {
            Err(error) if error.kind() == ErrorKind::Interrupted => {}
            result => return result,
        }
    }
    input.read(buf)
}
