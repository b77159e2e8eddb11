//! Tracks, and the timeline.

ghost use Rattle.std.specs.Prelude.{◌≡◌, AllPairs, IfOk, OnOk, [], ◌∷◌};
ghost use Rattle.std.specs.Option.{option_copied};
ghost use Rattle.otio_model.specs.Trees.{items_of};
ghost use Rattle.edl_list.specs.declared.list.Channel.TheVariants as channels;
ghost use Rattle.edl_list.specs.Formed.{AreInOrder, IsWellFormed};
ghost use Rattle.edl_frames.specs.Conformed as conformed;
ghost use Rattle.edl_conform.specs.Steps.{AddsTrack, HasTrackItems};

use crate::bools::any_of;
use crate::channels::has_events;
use crate::items_from_events::items_on;
use crate::reel_rows::ListMedia;
use edl_list::{Channel, Event, EventList};
use json_value::Members;
use media_list::MediaList;
use otio_model::{
    Children, Effects, Item, ItemOf, Markers, Metadata, Stack, StackOf, Timeline, TrackOf,
};
use sequences::{Sequence, Text};
use std::alloc::{AllocError, Global};
use tick_time::Time;

// The name of a channel's track.
fn channel_name(alloc: Global, channel: Channel) -> Result<Text, AllocError>
    ensures { IfOk result (λ name. name ≡ conformed.channel_name channel) }
{
    match channel {
        Channel::V => Text::of(alloc, "V"),
        Channel::A => Text::of(alloc, "A"),
        Channel::A2 => Text::of(alloc, "A2"),
    }
}

// The kind of a channel's track.
fn channel_kind(alloc: Global, channel: Channel) -> Result<Text, AllocError>
    ensures { IfOk result (λ kind. kind ≡ conformed.channel_kind channel) }
{
    match channel {
        Channel::V => Text::of(alloc, "Video"),
        Channel::A => Text::of(alloc, "Audio"),
        Channel::A2 => Text::of(alloc, "Audio"),
    }
}

/// Whether a channel has a track.
pub(crate) fn has_track(channel: Channel, list: &EventList) -> bool
    ensures { result ≡ conformed.has_track list.now.events channel }
{
    let events = list.events.as_slice();
    match channel {
        Channel::V => has_events(Channel::V, events),
        Channel::A => any_of(
            has_events(Channel::A, events),
            has_events(Channel::A2, events),
        ),
        Channel::A2 => has_events(Channel::A2, events),
    }
}

// The children of a channel's track.
fn children_on(
    alloc: Global,
    list: &EventList,
    media: Option<&MediaList>,
    channel: Channel,
) -> Result<Children, AllocError>
    requires { IsWellFormed list.now }
    ensures { IfOk result (λ children. conformed.AreChildren list.now
        (option_copied media.entry) channel (items_of children)) }
{
    let first = first_record(list);
    let media = ListMedia {
        rate: list.rate,
        rows: media,
    };
    let items = items_on(alloc, &media, list.events.as_slice(), channel, first)?;
    let children = Children::of(alloc, Sequence::of(items))?;
    Ok(children)
}

// The track of a channel.
fn track_of(
    alloc: Global,
    list: &EventList,
    media: Option<&MediaList>,
    channel: Channel,
) -> Result<Item, AllocError>
    requires { IsWellFormed list.now }
    ensures { IfOk result
        (conformed.IsTrackOf list.now (option_copied media.entry) channel) }
{
    let children = children_on(alloc, list, media, channel)?;
    let name = channel_name(alloc, channel)?;
    let kind = channel_kind(alloc, channel)?;
    Ok(ItemOf::Track(TrackOf {
        metadata: Metadata::new(alloc),
        name,
        source_range: None,
        effects: Effects::new(alloc),
        markers: Markers::new(alloc),
        enabled: true,
        kind,
        children,
        rest: Members::new(alloc),
    }))
}

// Puts the track of a channel after the others, where it has one.
fn put_track(
    alloc: Global,
    list: &EventList,
    media: Option<&MediaList>,
    channel: Channel,
    tracks: &mut Vec<Item>,
) -> Result<(), AllocError>
    requires { IsWellFormed list.now }
    ensures { OnOk result (AddsTrack list.now (option_copied media.entry) channel
        tracks.old.items tracks.new.items) }
{
    if has_track(channel, list) {
        let track = track_of(alloc, list, media, channel)?;
        tracks.push(track)?;
        return Ok(());
    }
    Ok(())
}

// The tracks of a list.
fn tracks_of(
    alloc: Global,
    list: &EventList,
    media: Option<&MediaList>,
) -> Result<Vec<Item>, AllocError>
    requires { IsWellFormed list.now }
    ensures { IfOk result (λ tracks. conformed.AreTracks list.now (option_copied media.entry)
        (channels.V ∷ channels.A ∷ channels.A2 ∷ []) tracks.items) }
{
    let mut tracks = Vec::new(alloc);
    put_track(alloc, list, media, Channel::V, &mut tracks)?;
    put_track(alloc, list, media, Channel::A, &mut tracks)?;
    put_track(alloc, list, media, Channel::A2, &mut tracks)?;
    Ok(tracks)
}

// The root stack of these tracks.
fn root_of(alloc: Global, tracks: Vec<Item>) -> Result<Stack, AllocError>
    ensures { IfOk result (HasTrackItems tracks.items) }
{
    let children = Children::of(alloc, Sequence::of(tracks))?;
    let name = Text::of(alloc, "tracks")?;
    Ok(StackOf {
        name,
        children,
        enabled: true,
        source_range: None,
        metadata: Metadata::new(alloc),
        rest: Members::new(alloc),
        markers: Markers::new(alloc),
        effects: Effects::new(alloc),
    })
}

// Where an event begins in the record.
fn rec_in_of(event: &Event) -> i64
    ensures { result ≡ event.now.rec_in }
{
    event.rec_in
}

// The least record in of events in order, and 0 without events.
fn first_of(events: &[Event]) -> i64
    requires { AllPairs AreInOrder events.now }
    ensures { result ≡ conformed.first_record events.now }
{
    let Some((event, _rest)) = events.split_first() else {
        return 0;
    };
    rec_in_of(event)
}

/// The least record in, and 0 without events.
pub(crate) fn first_record(list: &EventList) -> i64
    requires { IsWellFormed list.now }
    ensures { result ≡ conformed.first_record list.now.events }
{
    first_of(list.events.as_slice())
}

/// The timeline of a list.
pub(crate) fn timeline_of(
    alloc: Global,
    list: &EventList,
    media: Option<&MediaList>,
) -> Result<Timeline, AllocError>
    requires { IsWellFormed list.now }
    ensures { IfOk result (conformed.IsTimelineOf list.now (option_copied media.entry)) }
{
    let tracks = tracks_of(alloc, list, media)?;
    let root = root_of(alloc, tracks)?;
    let title = Text::of(alloc, list.title.as_str())?;
    Ok(Timeline::of(
        alloc,
        Members::new(alloc),
        title,
        Some(Time::of_frames(first_record(list), list.rate)),
        root,
        Members::new(alloc),
    ))
}
