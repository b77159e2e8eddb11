//! The timeline of a list, or why there is none.

ghost use Rattle.std.specs.Prelude.{◌≤◌, IfErr, IfOk};
ghost use Rattle.std.specs.Option.{option_copied};
ghost use Rattle.limits.specs.Limits.{most_items};
ghost use Rattle.edl_list.specs.Formed.{IsWellFormed};
ghost use Rattle.edl_frames.specs.Conformed.{IsTimelineOf};
ghost use Rattle.edl_frames.specs.Counted.{item_count};
ghost use Rattle.edl_frames.specs.Faults.{IsConformFault};
ghost use Rattle.edl_frames.specs.Refused.{IsAccepted};

use crate::item_counts::is_large;
use crate::media_faults::first_fault;
use crate::reel_rows::ListMedia;
use crate::timeline_from_list::timeline_of;
use edl_frames::ConformFault;
use edl_list::EventList;
use media_list::MediaList;
use otio_model::Timeline;
use std::alloc::Global;

/// The timeline that a list stands for, its times at the list's rate. With a media list the media
/// of each clip are those that are listed of its reel; without one no media are known.
///
/// # Errors
/// With a media list [`ConformFault::NoReel`], [`ConformFault::Rate`] or [`ConformFault::Outside`]:
/// the first event that it doesn't hold, at its line, with the first of these reasons that is one
/// of its sides'. Else [`ConformFault::Items`] where the timeline would have more than 100 000
/// items, tracks counted and the root not. [`ConformFault::Memory`] comes where memory runs out.
pub fn conform(
    alloc: Global,
    list: &EventList,
    media: Option<&MediaList>,
) -> Result<Timeline, ConformFault>
    requires formed { IsWellFormed list.now }
    ensures timeline { IfOk result (IsTimelineOf list.now (option_copied media.entry)) }
    ensures accepted { IfOk result
        (λ timeline. IsAccepted list.now (option_copied media.entry)) }
    ensures few { IfOk result (λ timeline. item_count list.now ≤ most_items) }
    ensures refused { IfErr result (IsConformFault list.now (option_copied media.entry)) }
{
    let rows = ListMedia {
        rate: list.rate,
        rows: media,
    };
    match first_fault(&rows, list.events.as_slice()) {
        Some(fault) => return Err(fault),
        None => {}
    }
    if is_large(list) {
        return Err(ConformFault::Items);
    }
    match timeline_of(alloc, list, media) {
        Ok(timeline) => Ok(timeline),
        Err(_) => Err(ConformFault::Memory),
    }
}
