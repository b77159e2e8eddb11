//! The list of a timeline, or why it has none.

ghost use Rattle.std.specs.Prelude.{◌≡◌, ◌<◌, ◌^◌, IfErr, IfOk, None};
ghost use Rattle.std.specs.Option.{option_copied};
ghost use Rattle.otio_model.specs.Counts.{count};
ghost use Rattle.coord.specs.Soundness.{IsFaultless};
ghost use Rattle.edl_frames.specs.Carried.{IsListOf, IsNotCarried, not_carried};

use crate::events_from_tracks::gather;
use crate::faults_at_places::at_root;
use crate::merging::listed;
use crate::settings_for::job_of;
use edl_frames::{NotCarried, Why};
use edl_list::{EventList, most_events};
use media_list::MediaList;
use otio_model::Timeline;
use sequences::Text;
use std::alloc::Global;

/// The edit decision list of a timeline (CMX 3600): on V the events of its Video track, on A and A2
/// those of its first and its second Audio track, at the record rate, in order of record in, then
/// of V, A and A2, and numbered from 1. With a media list the reels are those that it lists for the
/// URLs of the clips; without one they are those of the clips' metadata. `drop` says that labels
/// are drop-frame, and `wide` that the list is to be written in the wide layout, which has room for
/// more events and longer reels.
///
/// # Errors
/// [`NotCarried::At`]: the first child, in document order, that a list doesn't carry, with its
/// first reason. The timeline itself comes before all children ([`Why::NoTimecode`]) and behind
/// them ([`Why::Events`]). [`NotCarried::Memory`] comes where memory runs out.
pub fn events(
    alloc: Global,
    timeline: &Timeline,
    media: Option<&MediaList>,
    drop: bool,
    wide: bool,
) -> Result<EventList, NotCarried>
    requires few { count timeline.now.tracks.children < 2 ^ 32 }
    requires sound { IsFaultless timeline.now }
    ensures list { IfOk result
        (IsListOf timeline.now (option_copied media.entry) drop wide) }
    ensures carried { IfOk result
        (λ list. not_carried timeline.now (option_copied media.entry) drop wide ≡ None) }
    ensures refused { IfErr result
        (IsNotCarried timeline.now (option_copied media.entry) drop wide) }
{
    let job = match job_of(timeline, media, drop, wide) {
        Some(job) => job,
        None => return Err(at_root(alloc, Why::NoTimecode)),
    };
    let gathered = match gather(alloc, &job, &timeline.tracks.children) {
        Ok(gathered) => gathered,
        Err(fault) => return Err(fault),
    };
    if most_events(wide) < gathered.len() {
        return Err(at_root(alloc, Why::Events));
    }
    let events = listed(gathered)?;
    let title = Text::of(alloc, timeline.name.as_str())?;
    Ok(EventList {
        title,
        rate: job.rate,
        drop,
        events,
    })
}
