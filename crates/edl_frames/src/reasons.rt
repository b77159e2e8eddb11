//! Why a timeline isn't written as a list.

ghost use Rattle.std.specs.Prelude.{◌≡◌};
ghost use Rattle.edl_frames.specs.ReasonWords.{code_of, word_of};

use otio_model::Place;
use std::alloc::{AllocError, AllocFailed};
use thiserror::Error;

/// Why an edit decision list of the CMX 3600 kind doesn't carry a child of a timeline, or the
/// timeline itself. Of one child the reasons are tried in the order in which they stand here; those
/// of a clip that is shown in no frame, of a disabled clip and of a gap are `OffFrame` and
/// `RecordDay` alone.
#[derive(Clone, Copy, Debug, PartialEq, Eq)]
pub enum Why {
    /// The record rate has no timecode, or none with drop-frame where that is asked for. It is said
    /// of the timeline itself, before all else.
    NoTimecode,
    /// The root child isn't a track, or is a second Video track, a third Audio track or a track of
    /// another kind.
    Tracks,
    /// The track has a source range or effects, or the child of a track is a stack or a track.
    Nested,
    /// The child, or its overlap, doesn't start or end on a frame of the record.
    OffFrame,
    /// The transition is neither a dissolve nor a wipe, and its overlap isn't empty.
    Kind,
    /// The transition's overlap starts before the track, before the item before it or before the
    /// end of an earlier overlap, ends after the item after it or after the track, or has more
    /// than 999 frames.
    Overlap,
    /// The clip has an effect that neither warps nor freezes time.
    Effect,
    /// No speed of 0 to 9 999 tenths of a frame a second gives that of the clip.
    Speed,
    /// The clip has no reel: the media list doesn't list its URL, or without a media list its
    /// metadata names none; or the name isn't one of a reel, or is longer than its column.
    NoReel,
    /// The rate of the clip's media, or the listed one, isn't the record rate.
    RateDiffers,
    /// At a speed other than the rate's own a side of the clip begins between two source frames.
    Phase,
    /// A source label of the clip isn't one of the day.
    SourceDay,
    /// The clip shows a frame outside the listed media.
    Outside,
    /// A record label of the event that the child gives isn't one of the day.
    RecordDay,
    /// There are more events than the layout has numbers for: 999, in the wide layout 999 999. It
    /// is said of the timeline itself, after all else.
    Events,
}

impl Why {
    /// Its code in a message: `N` and a number from 1 to 15.
    pub fn code(self) -> &'static str
        ensures { result.now ≡ code_of self }
    {
        match self {
            Why::Tracks => "N1",
            Why::Nested => "N2",
            Why::OffFrame => "N3",
            Why::NoReel => "N4",
            Why::RateDiffers => "N5",
            Why::SourceDay => "N6",
            Why::Effect => "N7",
            Why::Speed => "N8",
            Why::Phase => "N9",
            Why::Overlap => "N10",
            Why::Kind => "N11",
            Why::Outside => "N12",
            Why::Events => "N13",
            Why::RecordDay => "N14",
            Why::NoTimecode => "N15",
        }
    }

    /// The word for it in a message, which is its name.
    pub fn word(self) -> &'static str
        ensures { result.now ≡ word_of self }
    {
        match self {
            Why::Tracks => "Tracks",
            Why::Nested => "Nested",
            Why::OffFrame => "OffFrame",
            Why::NoReel => "NoReel",
            Why::RateDiffers => "RateDiffers",
            Why::SourceDay => "SourceDay",
            Why::Effect => "Effect",
            Why::Speed => "Speed",
            Why::Phase => "Phase",
            Why::Overlap => "Overlap",
            Why::Kind => "Kind",
            Why::Outside => "Outside",
            Why::Events => "Events",
            Why::RecordDay => "RecordDay",
            Why::NoTimecode => "NoTimecode",
        }
    }
}

/// Why a timeline has no list.
#[derive(Debug, Drop, Error)]
pub enum NotCarried {
    /// The first child in document order that isn't carried, with its first reason. The empty place
    /// stands for the timeline itself.
    #[error("a child isn't carried")]
    At {
        /// Where the child stands.
        place: Place,
        /// Its first reason.
        why: Why,
    },
    /// Memory ran out.
    #[error("no memory")]
    Memory,
}

impl From<AllocError> for NotCarried {
    ghost use Rattle.edl_frames.specs.declared.reasons.NotCarried.TheVariants.{Memory};

    ghost from_gives = { λ _ fault. fault ≡ Memory };

    fn from(_error: AllocError) -> NotCarried {
        NotCarried::Memory
    }
}

impl<T: Drop> From<AllocFailed<T>> for NotCarried {
    ghost use Rattle.edl_frames.specs.declared.reasons.NotCarried.TheVariants.{Memory};

    ghost from_gives = { λ _ fault. fault ≡ Memory };

    fn from(_error: AllocFailed<T>) -> NotCarried {
        NotCarried::Memory
    }
}
