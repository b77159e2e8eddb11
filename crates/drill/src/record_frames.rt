//! How many record frames the one track of a drill takes.

ghost use Rattle.std.specs.Prelude.{◌≡◌, ◌<◌, ◌^◌};
ghost use Rattle.otio_model.specs.Counts.{count as count_all};
ghost use Rattle.drill.specs.Sums as sums;

use crate::frames::track_ticks;
use coord::frame_ticks;
use otio_model::Timeline;

/// How many record frames the first root child takes, the last one whole; 0 where there is no
/// child.
pub fn frames_of(timeline: &Timeline) -> u128
    requires few { count_all timeline.now.tracks.children < 2 ^ 32 }
    ensures { result ≡ sums.frames_of timeline.now }
{
    track_ticks(timeline).div_ceil(frame_ticks(timeline))
}
