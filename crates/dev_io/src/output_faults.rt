// Why an output isn't whole.
ghost use Rattle.std.specs.Prelude.{◌≡◌};

use crate::files::Failed;
use crate::output::WriteFault;
use std::alloc::AllocError;

/// Why an output isn't whole. A prefix of it was sent.
#[derive(Clone, Copy, Debug, PartialEq, Eq)]
pub enum OutputFault {
    /// A call of the stream failed, and its count of faults rose, or stands at 2^64 - 1.
    Sink,
    /// Memory ran out.
    Memory,
}

impl From<Failed> for OutputFault {
    ghost use Rattle.dev_io.specs.declared.output_faults.OutputFault.TheVariants.{Sink};

    ghost from_gives = { λ _ fault. fault ≡ Sink };

    fn from(_failed: Failed) -> OutputFault {
        OutputFault::Sink
    }
}

impl From<WriteFault> for OutputFault {
    ghost use Rattle.dev_io.specs.declared.output_faults.OutputFault.TheVariants.{Sink};

    ghost from_gives = { λ _ fault. fault ≡ Sink };

    fn from(_fault: WriteFault) -> OutputFault {
        OutputFault::Sink
    }
}

impl From<AllocError> for OutputFault {
    ghost use Rattle.dev_io.specs.declared.output_faults.OutputFault.TheVariants.{Memory};

    ghost from_gives = { λ _ fault. fault ≡ Memory };

    fn from(_error: AllocError) -> OutputFault {
        OutputFault::Memory
    }
}
