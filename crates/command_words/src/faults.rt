// Why words give no request.
ghost use Rattle.std.specs.Prelude.{◌≡◌, ◌↔◌};
ghost use Rattle.clap.specs.Words.{kind_of};

use clap::Error;
use clap::error::ErrorKind;

/// Why words give no request.
#[derive(Clone, Copy, PartialEq, Eq)]
pub enum WordsFault {
    /// They ask for nothing.
    Usage,
    /// No memory was left to read them.
    Memory,
}

/// What an error of `clap` means.
pub fn fault_of(error: &Error) -> WordsFault
    ensures { (result ≡ WordsFault.Memory) ↔ (kind_of error.now ≡ ErrorKind.OutOfMemory) }
{
    match error.kind() {
        ErrorKind::OutOfMemory => WordsFault::Memory,
        _ => WordsFault::Usage,
    }
}
