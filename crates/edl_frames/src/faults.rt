//! Why a list isn't conformed.

ghost use Rattle.std.specs.Prelude.{◌≡◌};

use std::alloc::{AllocError, AllocFailed};
use thiserror::Error;

/// Why a list has no timeline: the first event, in the order of the list, that its media list
/// doesn't hold, by its line, which counts from 1. Of one event the reels come before the rates,
/// and these before the frames.
#[derive(Clone, Copy, Debug, PartialEq, Eq, Error)]
pub enum ConformFault {
    /// A reel of the event isn't listed.
    #[error("the event of line {0} has a reel that isn't listed")]
    NoReel(u32),
    /// The listed rate of a reel of the event differs from the list's.
    #[error("the event of line {0} has a reel of another rate")]
    Rate(u32),
    /// A frame that the event shows lies outside the listed media.
    #[error("the event of line {0} shows a frame outside the listed media")]
    Outside(u32),
    /// The timeline would have more than 100 000 items.
    #[error("more than 100000 items")]
    Items,
    /// Memory ran out.
    #[error("no memory")]
    Memory,
}

impl From<AllocError> for ConformFault {
    ghost use Rattle.edl_frames.specs.declared.faults.ConformFault.TheVariants.{Memory};

    ghost from_gives = { λ _ fault. fault ≡ Memory };

    fn from(_error: AllocError) -> ConformFault {
        ConformFault::Memory
    }
}

impl<T: Drop> From<AllocFailed<T>> for ConformFault {
    ghost use Rattle.edl_frames.specs.declared.faults.ConformFault.TheVariants.{Memory};

    ghost from_gives = { λ _ fault. fault ≡ Memory };

    fn from(_error: AllocFailed<T>) -> ConformFault {
        ConformFault::Memory
    }
}
