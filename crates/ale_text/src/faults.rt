//! Why bytes are no log (Avid Log Exchange).

ghost use Rattle.std.specs.Prelude.{◌≡◌};

use std::alloc::{AllocError, AllocFailed};
use thiserror::Error;

/// Why bytes are no log: the first fault, at its line, which counts from 1.
#[derive(Clone, Copy, Debug, PartialEq, Eq, Error)]
pub enum AleFault {
    /// The line isn't one that may stand there, the columns or the rate are missing, or the log
    /// ends before this line, which must stand there.
    #[error("line {0} has the wrong form")]
    Form(u32),
    /// The first `FPS` of the heading is no rate, or a rate without timecode.
    #[error("line {0} has no rate with timecode")]
    Rate(u32),
    /// A row with a tape, a start and an end has a start or an end that is no label of the day at
    /// the rate (SMPTE ST 12-1).
    #[error("line {0} has no timecode label")]
    Label(u32),
    /// There are more bytes than 33 554 432.
    #[error("more than 33554432 bytes")]
    Large,
    /// No memory was left.
    #[error("no memory")]
    Memory,
}

impl From<AllocError> for AleFault {
    ghost use Rattle.ale_text.specs.declared.faults.AleFault.TheVariants.{Memory};

    ghost from_gives = { λ _ fault. fault ≡ Memory };

    fn from(_error: AllocError) -> AleFault {
        AleFault::Memory
    }
}

impl<T: Drop> From<AllocFailed<T>> for AleFault {
    ghost use Rattle.ale_text.specs.declared.faults.AleFault.TheVariants.{Memory};

    ghost from_gives = { λ _ fault. fault ≡ Memory };

    fn from(_error: AllocFailed<T>) -> AleFault {
        AleFault::Memory
    }
}
