//! The list of a timeline, conformed.

ghost use Rattle.std.specs.Prelude.{◌≡◌, ◌<◌, ◌^◌, false, Some, None, IfOk};
ghost use Rattle.otio_model.specs.Counts.{count};
ghost use Rattle.coord.specs.Soundness.{IsSound};
ghost use Rattle.media_rows.specs.Rows.{AreRows};
ghost use Rattle.edl_frames.specs.Carried.{IsListOf, not_carried};
ghost use Rattle.drill.specs.Lists.{IsListed, KeepsFrames};
ghost use Rattle.drill.specs.Reasons as reasons;

use crate::conforming::conform_held;
use crate::list_outcome::Listed;
use edl_conform::events;
use edl_frames::{NotCarried, Why};
use edl_list::EventList;
use media_list::MediaList;
use otio_model::Timeline;
use std::alloc::{AllocError, Global};

// The reason that a fault has; `None` where memory ran out.
fn why_of(fault: NotCarried) -> Option<Why>
    ensures { result ≡ reasons.why_of fault }
{
    match fault {
        NotCarried::At { why, .. } => Some(why),
        NotCarried::Memory => None,
    }
}

// What becomes of the list of a timeline.
fn list_conformed(
    alloc: Global,
    timeline: &Timeline,
    list: &EventList,
    media: &MediaList,
) -> Result<Listed, AllocError>
    requires sound { IsSound timeline.now }
    requires rows { AreRows media.now }
    requires carried { not_carried timeline.now (Some media.now) false false ≡ None }
    requires list { IsListOf timeline.now (Some media.now) false false list.now }
    ensures listed { IfOk result (IsListed timeline.now media.now) }
    ensures kept { IfOk result (KeepsFrames timeline.now) }
{
    match conform_held(alloc, list, media) {
        Ok(timeline) => Ok(Listed::List {
            events: list.events.len(),
            timeline,
        }),
        Err(error) => Err(error),
    }
}

/// The edit decision list of a sound timeline, in the narrow layout and without drop-frame, with
/// the reels that a media list has for the URLs of its clips, and the timeline that this list
/// conforms to with the same media list; or why a list doesn't carry the timeline. The media list
/// holds each list that is made with it, so conforming isn't refused. An error comes where memory
/// runs out.
pub fn conformed(
    alloc: Global,
    timeline: &Timeline,
    media: &MediaList,
) -> Result<Listed, AllocError>
    requires few { count timeline.now.tracks.children < 2 ^ 32 }
    requires sound { IsSound timeline.now }
    ensures listed { IfOk result (IsListed timeline.now media.now) }
    ensures kept { IfOk result (KeepsFrames timeline.now) }
{
    let _ = media.rows();
    match events(alloc, timeline, Some(media), false, false) {
        Ok(list) => list_conformed(alloc, timeline, &list, media),
        Err(fault) => match why_of(fault) {
            Some(why) => Ok(Listed::No(why)),
            None => Err(AllocError),
        },
    }
}
