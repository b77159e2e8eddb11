//! A list that its media list holds, conformed.

ghost use Rattle.std.specs.Prelude.{◌≡◌, ◌≤◌, Some, IfOk};
ghost use Rattle.limits.specs.Limits.{most_items};
ghost use Rattle.edl_list.specs.Formed.{IsWellFormed};
ghost use Rattle.edl_frames.specs.Conformed.{IsTimelineOf};
ghost use Rattle.edl_frames.specs.Counted.{item_count};
ghost use Rattle.edl_frames.specs.Refused.{IsAccepted};

use edl_conform::{ConformFault, conform};
use edl_list::EventList;
use media_list::MediaList;
use otio_model::Timeline;
use std::alloc::{AllocError, Global};

// Out of memory, which is all that conforming such a list fails for.
fn out_of_memory(fault: ConformFault) -> AllocError
    requires { fault ≡ ConformFault.Memory }
{
    drop(fault);
    AllocError
}

/// The timeline of a list whose events its media list holds and that makes no more items than a
/// timeline may have. An error comes where memory runs out.
pub(crate) fn conform_held(
    alloc: Global,
    list: &EventList,
    media: &MediaList,
) -> Result<Timeline, AllocError>
    requires formed { IsWellFormed list.now }
    requires held { IsAccepted list.now (Some media.now) }
    requires few { item_count list.now ≤ most_items }
    ensures { IfOk result (IsTimelineOf list.now (Some media.now)) }
{
    match conform(alloc, list, Some(media)) {
        Ok(timeline) => Ok(timeline),
        Err(fault) => Err(out_of_memory(fault)),
    }
}
