//! The items of a channel.

ghost use Rattle.std.specs.Prelude.{◌≡◌, ◌≤◌, ◌≤ℤ◌, ◌-ℤ◌, ◌*ℤ◌, pos, codes, None, IfOk};
ghost use Rattle.std.specs.Prelude.{OnOk};
ghost use Rattle.std.specs.Option.{option_copied};
ghost use Rattle.tick_time.specs.Rates.{frame};
ghost use Rattle.tick_time.specs.Times.{IsInRange};
ghost use Rattle.edl_list.specs.Laws.{IsTimed};
ghost use Rattle.edl_list.specs.Speeds.{count_of};
ghost use Rattle.edl_frames.specs.Conformed as conformed;
ghost use Rattle.edl_frames.specs.Shown as shown;
ghost use Rattle.edl_law.specs.Fits.{AreAhead, FitsAt, FitsBefore, FitsEvent, FitsSide};
ghost use Rattle.edl_conform.specs.Steps.{AddsEvent, AddsLead, AddsOutgoing, AddsSpace};

use crate::items::{clip_of, gap_of, transition_of};
use crate::outgoing_side::serves;
use crate::reel_rows::ListMedia;
use crate::wipes::wipe_type;
use edl_frames::is_on;
use edl_list::{Channel, Cross, Event, Reel, Side};
use otio_model::Item;
use sequences::Text;
use std::alloc::{AllocError, Global};
use tick_time::Rate;

/// How far the items of a channel have come: the event that was put last, and the record frame at
/// which the next one may begin.
#[derive(Clone, Copy)]
struct Reached<'a> {
    before: Option<&'a Event>,
    at: i64,
}

// The item of a side, so many frames of the record long: a gap for black, else a clip.
fn item_of(
    alloc: Global,
    media: &ListMedia<'_>,
    side: &Side,
    count: i64,
) -> Result<Item, AllocError>
    requires timecode { 1 ≤ count_of media.now.rate }
    requires count { pos 0 ≤ℤ count }
    requires lasts { IsInRange (count *ℤ pos (frame media.now.rate.num media.now.rate.den)) }
    requires side { FitsSide media.now.rate side.now }
    ensures { IfOk result
        (conformed.IsItem media.now.rate (option_copied media.now.rows) side.now count) }
{
    match &side.reel {
        Reel::Black => Ok(gap_of(alloc, media.rate, count)),
        Reel::Named(reel) => clip_of(alloc, media, side, reel, count),
    }
}

// Puts a gap up to a record frame after the items, where it lies after them.
fn put_space(
    alloc: Global,
    rate: Rate,
    at: i64,
    to: i64,
    items: &mut Vec<Item>,
) -> Result<(), AllocError>
    requires at { IsTimed rate at }
    requires to { IsTimed rate to }
    requires later { at ≤ℤ to }
    requires gap { IsTimed rate (to -ℤ at) }
    ensures { OnOk result (AddsSpace rate at to items.old.items items.new.items) }
{
    if at < to {
        items.push(gap_of(alloc, rate, to - at))?;
    }
    Ok(())
}

// Puts the outgoing side of a pair that begins here after the items, where no item there continues
// as it.
fn put_outgoing(
    alloc: Global,
    media: &ListMedia<'_>,
    reached: &Reached<'_>,
    from: &Side,
    items: &mut Vec<Item>,
) -> Result<(), AllocError>
    requires timecode { 1 ≤ count_of media.now.rate }
    requires before { FitsBefore media.now.rate (option_copied reached.now.before) }
    requires from { FitsSide media.now.rate from.now }
    ensures { OnOk result (AddsOutgoing media.now.rate (option_copied media.now.rows)
        (option_copied reached.now.before) reached.now.at from.now
        items.old.items items.new.items) }
{
    if !serves(media.rate, reached.before, reached.at, from) {
        let side = item_of(alloc, media, from, 0)?;
        items.push(side)?;
    }
    Ok(())
}

// The type of a dissolve.
fn dissolve_type(alloc: Global) -> Result<Text, AllocError>
    ensures { IfOk result (λ kind. kind ≡ codes "SMPTE_Dissolve") }
{
    Text::of(alloc, "SMPTE_Dissolve")
}

// Puts what stands before an event's item after the items.
fn put_lead(
    alloc: Global,
    media: &ListMedia<'_>,
    before: Option<&Event>,
    event: &Event,
    items: &mut Vec<Item>,
) -> Result<(), AllocError>
    requires before { FitsBefore media.now.rate (option_copied before) }
    requires event { FitsEvent media.now.rate event.now }
    ensures { OnOk result (AddsLead media.now.rate (option_copied media.now.rows)
        (option_copied before.entry) event.now.rec_in (conformed.pair_of event.now.cross)
        items.old.items items.new.items) }
{
    let reached = Reached {
        before,
        at: event.rec_in,
    };
    match &event.cross {
        Cross::Cut => Ok(()),
        Cross::Dissolve { frames, from } => {
            put_outgoing(alloc, media, &reached, from.get(), items)?;
            let kind = dissolve_type(alloc)?;
            items.push(transition_of(alloc, media.rate, kind, *frames))?;
            Ok(())
        }
        Cross::Wipe { code, frames, from } => {
            put_outgoing(alloc, media, &reached, from.get(), items)?;
            let kind = wipe_type(alloc, *code)?;
            items.push(transition_of(alloc, media.rate, kind, *frames))?;
            Ok(())
        }
    }
}

// Puts the items of an event after the others.
fn put_event(
    alloc: Global,
    media: &ListMedia<'_>,
    reached: &Reached<'_>,
    event: &Event,
    items: &mut Vec<Item>,
) -> Result<(), AllocError>
    requires { FitsAt media.now.rate (option_copied reached.now.before) reached.now.at
        event.now }
    ensures { OnOk result (AddsEvent media.now.rate (option_copied media.now.rows)
        (option_copied reached.now.before) reached.now.at event.now
        items.old.items items.new.items) }
{
    put_space(alloc, media.rate, reached.at, event.rec_in, items)?;
    put_lead(alloc, media, reached.before, event, items)?;
    let item = item_of(alloc, media, &event.to, event.rec_out - event.rec_in)?;
    items.push(item)?;
    Ok(())
}

/// The items of a channel's events, from the list's first record frame on.
pub(crate) fn items_on(
    alloc: Global,
    media: &ListMedia<'_>,
    events: &[Event],
    channel: Channel,
    first: i64,
) -> Result<Vec<Item>, AllocError>
    requires { AreAhead media.now.rate None first (shown.on_channel channel events.now) }
    ensures { IfOk result (λ items. conformed.AreItems media.now.rate
        (option_copied media.now.rows) None first (shown.on_channel channel events.now)
        items.items) }
{
    let mut items = Vec::new(alloc);
    let mut before: Option<&Event> = None;
    let mut at = first;
    'events: for event in events {
        if is_on(channel, event) {
            put_event(alloc, media, &Reached { before, at }, event, &mut items)?;
            before = Some(event);
            at = event.rec_out;
        }
    }
    Ok(items)
}
