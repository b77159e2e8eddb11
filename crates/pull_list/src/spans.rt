//! The spans of a pull list, and why there may be none.

ghost use Rattle.std.specs.Prelude.{◌≡◌};

use show_prog::KeyRef;
use std::alloc::{AllocError, AllocFailed};
use thiserror::Error;
use tick_time::Rate;

/// Frames of media that follow one another, as they are asked of an archive.
#[derive(Clone, Copy)]
pub struct PullSpan<'a> {
    /// What the frames are known by: the URL of their media, the names of an image sequence, a
    /// generator, a reel or a clip's name.
    pub key: KeyRef<'a>,
    /// The rate of their media, in frames per second.
    pub rate: Rate,
    /// The number of the first one: frame 0 of media begins at instant 0 of their time.
    pub first: i128,
    /// How many they are; at least one.
    pub count: i128,
}

/// Why there is no pull list.
#[derive(Clone, Copy, Debug, PartialEq, Eq, Error)]
pub enum PullFault {
    /// The root children take more than 10 000 000 record frames together.
    #[error("more than 10000000 record frames")]
    Frames,
    /// No memory was left.
    #[error("no memory")]
    Memory,
}

impl From<AllocError> for PullFault {
    ghost use Rattle.pull_list.specs.declared.spans.PullFault.TheVariants.{Memory};

    ghost from_gives = { λ _ fault. fault ≡ Memory };

    fn from(_error: AllocError) -> PullFault {
        PullFault::Memory
    }
}

impl<T: Drop> From<AllocFailed<T>> for PullFault {
    ghost use Rattle.pull_list.specs.declared.spans.PullFault.TheVariants.{Memory};

    ghost from_gives = { λ _ fault. fault ≡ Memory };

    fn from(_error: AllocFailed<T>) -> PullFault {
        PullFault::Memory
    }
}
