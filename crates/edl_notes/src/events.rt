//! The children of a channel's track, with the notes of their events.

ghost use Rattle.std.specs.Prelude.{◌≡◌, ◌<◌, ◌^◌, ◌-ℤ◌, ℕ, List, IfOk, MatchOption, Some, length, nat_lt, pos, slice_get};
ghost use Rattle.otio_model.specs.Counts.{count, count_of};
ghost use Rattle.otio_model.specs.Lengths.{length_of, or_zero};
ghost use Rattle.otio_model.specs.Trees.{items_of};
ghost use Rattle.edl_list.specs.Laws.{IsTimed};
ghost use Rattle.edl_list.specs.declared.list.Event.{Event as AnyEvent};
ghost use Rattle.note_text.specs.Noted.{AreNotedChildren};
ghost use Rattle.note_text.specs.declared.notes.Note.{Note as AnyNote};
ghost use Rattle.note_text.specs.Belonging.{HaveSameOwn};
ghost use Rattle.edl_notes.specs.Steps.{notes_at};
ghost use Rattle.edl_notes.specs.Walks as walks;
ghost use Rattle.edl_notes.specs.Walks.{AreEarlier, BeginsAt, IsNext, IsNotedBy, IsWork};

use crate::items::noted_item;
use crate::own::own;
use edl_frames::is_on;
use edl_list::{Channel, Event, EventList};
use note_text::Note;
use otio_model::{Children, Item, Items, copy_item};
use std::alloc::{AllocError, Global};
use tick_time::Time;

/// A list, its least record in, and notes of it in the order of their events.
#[derive(Clone, Copy)]
pub(crate) struct Work<'a> {
    pub(crate) list: &'a EventList,
    pub(crate) first: i64,
    pub(crate) notes: &'a [&'a Note],
}

/// The children of a channel's track with the notes of their events.
pub(crate) fn noted_children(
    alloc: Global,
    children: &Children,
    work: Work<'_>,
    channel: Channel,
) -> Result<Children, AllocError>
    requires few { count children.now < 2 ^ 32 }
    requires work { IsWork work }
    ensures { IfOk result (λ made. (notes : List AnyNote) →
        HaveSameOwn notes (notes_at work.entry.notes.now) →
        AreNotedChildren work.entry.list.now notes channel (pos 0) (items_of children.now)
        (items_of made)) }
{
    let mut copies = Vec::with_capacity(alloc, children.len())?;
    let mut start: u128 = 0;
    let mut at = 0;
    'children: for index in 0..children.len() {
        let item = children.child(index);
        at = next_event(work, channel, at, start);
        let event = event_at(work, channel, item, at, start);
        copies.push(noted_child(alloc, item, work, event)?)?;
        start = start.saturating_add(ticks_of(item));
    }
    let made = Children::of(alloc, Items::of(copies))?;
    Ok(made)
}

// A child with the notes of the event at a place, where it is the item of one.
fn noted_child(
    alloc: Global,
    item: &Item,
    work: Work<'_>,
    event: Option<usize>,
) -> Result<Item, AllocError>
    requires work { IsWork work }
    requires there { MatchOption event (Unit {0})
        (λ index. index < length work.list.now.events) }
    ensures { IfOk result (λ made. (notes : List AnyNote) →
        HaveSameOwn notes (notes_at work.entry.notes.now) →
        IsNotedBy work.entry.list.now notes event item.now made) }
{
    let copy = copy_item(alloc, item)?;
    match event {
        Some(index) => {
            let event = event_in(work.list, index);
            let notes = own(work.notes, index);
            let made = noted_item(alloc, copy, event, work.list.rate, notes)?;
            Ok(made)
        }
        None => Ok(copy),
    }
}

// The place of the event whose item a child of a channel's track is, from that of the next event
// of the channel and the ticks before the child.
fn event_at(work: Work<'_>, channel: Channel, item: &Item, at: usize, start: u128) -> Option<usize>
    requires few { count_of item.now < 2 ^ 32 }
    requires work { IsWork work }
    requires next { IsNext work.list.now channel start at }
    ensures { MatchOption result
        ((index : ℕ) (e : AnyEvent) →
        BeginsAt work.entry.list.now channel start item.now index e → ⊥)
        (λ index. (e : AnyEvent) ×
        BeginsAt work.entry.list.now channel start item.now index e) }
{
    if !lasts(item) {
        return None;
    }
    match work.list.events.get(at) {
        Some(event) => {
            if ticks_before(work, event) == start {
                Some(at)
            } else {
                None
            }
        }
        None => None,
    }
}

// Whether an item has a length above 0.
fn lasts(item: &Item) -> bool
    requires { count_of item.now < 2 ^ 32 }
    ensures { result ≡ nat_lt 0 (or_zero (length_of item.now)) }
{
    ticks_of(item) > 0
}

// How long an item is, in ticks; 0 where it has no length.
fn ticks_of(item: &Item) -> u128
    requires { count_of item.now < 2 ^ 32 }
    ensures { result ≡ or_zero (length_of item.now) }
{
    item.length_or_zero().unsigned_abs()
}

// The event at a place.
fn event_in(list: &EventList, index: usize) -> &Event
    requires { index < length list.now.events }
    ensures { slice_get list.now.events index ≡ Some result.now }
{
    match list.events.get(index) {
        Some(event) => event,
        None => unreachable!(),
    }
}

// The place of the first event of a channel, from this one on, that begins so many ticks after the
// start of the track or later; that after all events where there is none.
fn next_event(work: Work<'_>, channel: Channel, from: usize, start: u128) -> usize
    requires work { IsWork work }
    requires earlier { AreEarlier work.list.now channel start from }
    ensures { IsNext work.entry.list.now channel start result }
{
    let mut at = from;
    'events: while at < work.list.events.len() {
        if !is_earlier(work, channel, event_in(work.list, at), start) {
            return at;
        }
        at += 1;
    }
    at
}

// Whether an event is on another channel, or begins less than so many ticks after the start of the
// track.
fn is_earlier(work: Work<'_>, channel: Channel, event: &Event, start: u128) -> bool
    requires first { walks.HasFirst work }
    requires timed { IsTimed work.list.now.rate (event.now.rec_in -ℤ work.first) }
    ensures { result ≡ walks.is_earlier work.entry.list.now channel start event.now }
{
    !is_on(channel, event) || ticks_before(work, event) < start
}

// The ticks from the start of a track to the record in of an event.
fn ticks_before(work: Work<'_>, event: &Event) -> u128
    requires first { walks.HasFirst work }
    requires timed { IsTimed work.list.now.rate (event.now.rec_in -ℤ work.first) }
    ensures { result ≡ walks.ticks_before work.entry.list.now event.now }
{
    Time::of_frames(event.rec_in - work.first, work.list.rate)
        .ticks
        .unsigned_abs()
}
