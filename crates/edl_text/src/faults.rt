//! Why bytes are no list.

ghost use Rattle.std.specs.Prelude.{◌≡◌};

use std::alloc::{AllocError, AllocFailed};
use thiserror::Error;

/// Why bytes are no list of events: the first fault, at its line, which counts from 1.
#[derive(Clone, Copy, Debug, PartialEq, Eq, Error)]
pub enum EdlFault {
    /// The line has the wrong form, a `D` or `W` line follows no `C` line of its number and
    /// channels, an M2 line names no side that has no M2 line yet, an M2 line or a name note has no
    /// event line before it, or a name or the first title isn't UTF-8.
    #[error("line {0} has the wrong form")]
    Form(u32),
    /// A label isn't one of the day at the rate, in the mode in force, or the rate has no such
    /// timecode.
    #[error("line {0} has a label that names no frame")]
    Timecode(u32),
    /// An out lies before its in, the lines of a pair don't meet, or a duration is above the record
    /// length.
    #[error("line {0} is out of order")]
    Order(u32),
    /// Source and record length differ on the side of a cut or the incoming side of a pair, and it
    /// has no M2 line.
    #[error("line {0} has unequal lengths")]
    Unequal(u32),
    /// The event line is a key: it begins with a digit, and its fourth field with `K`.
    #[error("line {0} is a key")]
    Key(u32),
    /// The line splits audio from the picture: its first field is `AUD`, `SPLIT` or `SPLIT:`.
    #[error("line {0} is a split")]
    Split(u32),
    /// The record span meets that of an event of an earlier line on its channel.
    #[error("line {0} overlaps an earlier event")]
    Overlap(u32),
    /// The speed of an M2 line has a minus.
    #[error("line {0} runs in reverse")]
    Reverse(u32),
    /// There are more than 33 554 432 bytes.
    #[error("more than 33554432 bytes")]
    Large,
    /// Memory ran out.
    #[error("no memory")]
    Memory,
}

impl From<AllocError> for EdlFault {
    ghost use Rattle.edl_text.specs.declared.faults.EdlFault.TheVariants.{Memory};

    ghost from_gives = { λ _ fault. fault ≡ Memory };

    fn from(_error: AllocError) -> EdlFault {
        EdlFault::Memory
    }
}

impl<T: Drop> From<AllocFailed<T>> for EdlFault {
    ghost use Rattle.edl_text.specs.declared.faults.EdlFault.TheVariants.{Memory};

    ghost from_gives = { λ _ fault. fault ≡ Memory };

    fn from(_error: AllocFailed<T>) -> EdlFault {
        EdlFault::Memory
    }
}
