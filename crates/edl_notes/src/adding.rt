//! Notes on the items of a conformed timeline.

ghost use Rattle.std.specs.Prelude.{◌≡◌, ◌<◌, ◌^◌, IfOk, All, AllPairs};
ghost use Rattle.otio_model.specs.Counts.{count};
ghost use Rattle.edl_list.specs.Formed.{AreInOrder, IsWellFormed};
ghost use Rattle.edl_frames.specs.Conformed.{first_record as least_record};
ghost use Rattle.note_text.specs.Noted.{IsNoted, IsNoteFor};

use crate::events::Work;
use crate::own::by_event;
use crate::tracks::noted_tracks;
use edl_list::{Event, EventList};
use note_text::Notes;
use otio_model::Timeline;
use std::alloc::{AllocError, Global};

/// The timeline that a list conforms to, with these notes on the items of their events: each
/// locator as a marker of one frame, and the last color corrections of an event in a member `cdl`
/// of the item's metadata. An error comes where memory runs out.
pub fn add_notes(
    alloc: Global,
    timeline: Timeline,
    list: &EventList,
    notes: &Notes,
) -> Result<Timeline, AllocError>
    requires few { count timeline.tracks.children < 2 ^ 32 }
    requires formed { IsWellFormed list.now }
    requires notes { All (IsNoteFor list.now) notes.now }
    ensures { IfOk result (IsNoted timeline list.now notes.now) }
{
    let order = by_event(alloc, notes.as_slice())?;
    let work = Work {
        list,
        first: first_record(list.events.as_slice()),
        notes: order.as_slice(),
    };
    let children = noted_tracks(alloc, &timeline.tracks.children, work)?;
    let mut noted = timeline;
    noted.tracks.children = children;
    Ok(noted)
}

// The least record in of events that stand in order; 0 where there are none.
fn first_record(events: &[Event]) -> i64
    requires { AllPairs AreInOrder events.now }
    ensures { result ≡ least_record events.now }
{
    match events {
        [] => 0,
        [first, ..] => first.rec_in,
    }
}
