//! How many items the timeline of a list has.

ghost use Rattle.std.specs.Prelude.{◌≡◌, ◌≤◌, ◌+◌, None, nat_lt};
ghost use Rattle.std.specs.Option.{option_copied};
ghost use Rattle.limits.specs.Limits.{most_items};
ghost use Rattle.edl_list.specs.Formed.{IsWellFormed};
ghost use Rattle.edl_list.specs.Speeds.{count_of};
ghost use Rattle.edl_frames.specs.Conformed as conformed;
ghost use Rattle.edl_frames.specs.Shown.{on_channel};
ghost use Rattle.edl_frames.specs.Counted as counted;
ghost use Rattle.edl_law.specs.Fits.{AreAhead, FitsAt, FitsBefore, FitsEvent, FitsSide};
ghost use Rattle.edl_conform.specs.Steps.{saturated};

use crate::outgoing_side::serves;
use crate::timeline_from_list::{first_record, has_track};
use edl_frames::is_on;
use edl_list::{Channel, Cross, Event, EventList, Side};
use limits::MOST_ITEMS;
use tick_time::Rate;

/// A count that is above the most items anyway.
const TOO_MANY: usize = MOST_ITEMS + 1;

// The sum of two counts, at most `TOO_MANY`.
fn add(a: usize, b: usize) -> usize
    requires a { a ≤ most_items + 1 }
    requires b { b ≤ most_items + 1 }
    ensures sum { result ≡ saturated (a + b) }
    ensures few { result ≤ most_items + 1 }
{
    if a + b < TOO_MANY {
        return a + b;
    }
    TOO_MANY
}

// What stands before the item of a pair.
fn pair_count(rate: Rate, before: Option<&Event>, at: i64, from: &Side) -> usize
    requires timecode { 1 ≤ count_of rate }
    requires before { FitsBefore rate (option_copied before) }
    requires from { FitsSide rate from.now }
    ensures count { result ≡ counted.pair_count rate (option_copied before.entry) at from.now }
    ensures few { result ≤ 2 }
{
    if serves(rate, before, at, from) {
        return 1;
    }
    2
}

// What stands before the item of an event.
fn lead_count(rate: Rate, before: Option<&Event>, event: &Event) -> usize
    requires before { FitsBefore rate (option_copied before) }
    requires event { FitsEvent rate event.now }
    ensures count { result ≡ counted.lead_count rate (option_copied before.entry)
        event.now.rec_in (conformed.pair_of event.now.cross) }
    ensures few { result ≤ 2 }
{
    match &event.cross {
        Cross::Cut => 0,
        Cross::Dissolve { from, .. } => pair_count(rate, before, event.rec_in, from.get()),
        Cross::Wipe { from, .. } => pair_count(rate, before, event.rec_in, from.get()),
    }
}

// A gap, where the event begins later.
fn gap_count(at: i64, event: &Event) -> usize
    ensures count { result ≡ counted.gap_count at event.now }
    ensures few { result ≤ 1 }
{
    if at < event.rec_in {
        return 1;
    }
    0
}

// The items of an event.
fn event_count(rate: Rate, before: Option<&Event>, at: i64, event: &Event) -> usize
    requires { FitsAt rate (option_copied before) at event.now }
    ensures count { result ≡ counted.event_count rate (option_copied before.entry) at event.now }
    ensures few { result ≤ 4 }
{
    gap_count(at, event) + lead_count(rate, before, event) + 1
}

// The items of a channel's events, as far as they count.
fn channel_count(rate: Rate, events: &[Event], channel: Channel, first: i64) -> usize
    requires { AreAhead rate None first (on_channel channel events.now) }
    ensures count { result ≡ saturated
        (counted.channel_count rate None first (on_channel channel events.now)) }
    ensures few { result ≤ most_items + 1 }
{
    let mut count: usize = 0;
    let mut before: Option<&Event> = None;
    let mut at = first;
    'events: for event in events {
        if is_on(channel, event) {
            count = add(count, event_count(rate, before, at, event));
            before = Some(event);
            at = event.rec_out;
        }
    }
    count
}

// A channel's track and its items, as far as they count.
fn track_count(list: &EventList, channel: Channel) -> usize
    requires { IsWellFormed list.now }
    ensures count { result ≡ saturated (counted.track_count list.now channel) }
    ensures few { result ≤ most_items + 1 }
{
    if has_track(channel, list) {
        let first = first_record(list);
        let events = list.events.as_slice();
        return add(1, channel_count(list.rate, events, channel, first));
    }
    0
}

/// Whether the timeline of a list would have more items than there may be.
pub(crate) fn is_large(list: &EventList) -> bool
    requires { IsWellFormed list.now }
    ensures { result ≡ nat_lt most_items (counted.item_count list.now) }
{
    let v = track_count(list, Channel::V);
    let a = track_count(list, Channel::A);
    let a2 = track_count(list, Channel::A2);
    MOST_ITEMS < v + (a + a2)
}
