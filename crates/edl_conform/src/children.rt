//! The events of a track's children.

ghost use Rattle.std.specs.Prelude.{◌≡◌, ◌≤◌, ◌<◌, ◌^◌, ◌++◌, IfOk, OnOk};
ghost use Rattle.std.specs.Option.{option_to_list};
ghost use Rattle.limits.specs.Limits.{most_ticks};
ghost use Rattle.otio_model.specs.Counts.{count};
ghost use Rattle.otio_model.specs.Lengths.{added, lengths};
ghost use Rattle.otio_model.specs.Trees.{items_of};
ghost use Rattle.coord.specs.Soundness.{AreFaultless};
ghost use Rattle.edl_frames.specs.ChildEvents as child_events;
ghost use Rattle.edl_conform.specs.Seated.{IsCarried, IsPast, IsSeated};
ghost use Rattle.edl_conform.specs.Stated.{stated_job, stated_seat};
ghost use Rattle.edl_conform.specs.Walk.{IsWalked};

use crate::child_context::{ChildContext, Past};
use crate::child_reasons::reason_of;
use crate::event_of_child::event_of;
use crate::list_settings::Job;
use edl_frames::Why;
use edl_list::{Channel, Event};
use otio_model::Children;
use std::alloc::{AllocError, Global};

/// The first child of a track that isn't carried, and its first reason.
#[derive(Clone, Copy)]
pub(crate) struct Stop {
    pub(crate) index: u32,
    pub(crate) why: Why,
}

// Puts the event of a child behind the others, where it gives one.
fn put_event(
    alloc: Global,
    job: &Job<'_>,
    channel: Channel,
    seat: &ChildContext<'_>,
    events: &mut Vec<Event>,
) -> Result<(), AllocError>
    requires seated { IsSeated seat.now }
    requires past { IsPast job.now.ticks seat.now.past }
    requires carried { IsCarried job.now seat.now }
    ensures { OnOk result (events.new.items ≡ events.old.items
        ++ option_to_list (child_events.event_of (stated_job job.now) channel
        (stated_seat seat.now))) }
{
    match event_of(alloc, job, channel, seat)? {
        Some(event) => events.push(event)?,
        None => {}
    }
    Ok(())
}

/// Puts the events of a track's children behind the others, in order, up to the first child that
/// isn't carried.
pub(crate) fn put_children(
    alloc: Global,
    job: &Job<'_>,
    channel: Channel,
    children: &Children,
    events: &mut Vec<Event>,
) -> Result<Option<Stop>, AllocError>
    requires few { count children.now < 2 ^ 32 }
    requires sound { AreFaultless children.now }
    requires fits { added (lengths children.now) ≤ most_ticks }
    ensures { IfOk result (IsWalked (stated_job job.now) channel (items_of children.now)
        events.old.items events.new.items) }
{
    let mut past = Past::head();
    let mut start = 0;
    'children: for index in 0..children.len() {
        let seat = ChildContext::at(children, index, start, past);
        match reason_of(job, &seat) {
            Some(why) => return Ok(Some(Stop {
                index: index as u32,
                why,
            })),
            None => {}
        }
        put_event(alloc, job, channel, &seat, events)?;
        past = seat.past_after(job);
        start = seat.end;
    }
    Ok(None)
}
