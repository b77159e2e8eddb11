//! Why bytes are no media list.

ghost use Rattle.std.specs.Prelude.{◌≡◌};

use std::alloc::{AllocError, AllocFailed};
use thiserror::Error;

/// Why bytes are no media list: the first fault, at its line, which counts from 1.
#[derive(Clone, Copy, Debug, PartialEq, Eq, Error)]
pub enum MediaFault {
    /// The line isn't UTF-8, or it is no comment and has the wrong form.
    #[error("line {0} has the wrong form")]
    Line(u32),
    /// The numeral is no rate.
    #[error("line {0} has a numeral that is no rate")]
    Rate(u32),
    /// The start is no label of the day at the rate, the length is 0, or start plus length passes a
    /// million seconds.
    #[error("line {0} has media out of range")]
    Range(u32),
    /// An earlier line has the reel.
    #[error("line {0} has the reel of an earlier line")]
    ReelTwice(u32),
    /// An earlier line has the URL.
    #[error("line {0} has the URL of an earlier line")]
    UrlTwice(u32),
    /// There are more bytes than 33 554 432.
    #[error("more than 33554432 bytes")]
    Large,
    /// No memory was left.
    #[error("no memory")]
    Memory,
}

impl From<AllocError> for MediaFault {
    ghost use Rattle.media_list.specs.declared.faults.MediaFault.TheVariants.{Memory};

    ghost from_gives = { λ _ fault. fault ≡ Memory };

    fn from(_error: AllocError) -> MediaFault {
        MediaFault::Memory
    }
}

impl<T: Drop> From<AllocFailed<T>> for MediaFault {
    ghost use Rattle.media_list.specs.declared.faults.MediaFault.TheVariants.{Memory};

    ghost from_gives = { λ _ fault. fault ≡ Memory };

    fn from(_error: AllocFailed<T>) -> MediaFault {
        MediaFault::Memory
    }
}
