//! How long the one track of a drill is.

ghost use Rattle.std.specs.Prelude.{◌≡◌, ◌<◌, ◌^◌};
ghost use Rattle.otio_model.specs.Counts.{count};
ghost use Rattle.drill.specs.Frames as frames;

use coord::frame_ticks;
use otio_model::Timeline;

/// How long the first root child is, in ticks; 0 where there is none.
pub fn track_ticks(timeline: &Timeline) -> u128
    requires few { count timeline.now.tracks.children < 2 ^ 32 }
    ensures value { result ≡ frames.track_ticks timeline.now }
    ensures small { result < 2 ^ 127 }
{
    match timeline.tracks.children.item(0) {
        Some(item) => item.length_or_zero() as u128,
        None => 0,
    }
}

/// How long the first root child is, in whole record frames; 0 where there is none.
pub fn track_frames(timeline: &Timeline) -> u128
    requires few { count timeline.now.tracks.children < 2 ^ 32 }
    ensures value { result ≡ frames.track_frames timeline.now }
    ensures small { result < 2 ^ 127 }
{
    track_ticks(timeline) / frame_ticks(timeline)
}
