//! The events of a timeline's tracks.

ghost use Rattle.std.specs.Prelude.{◌≡◌, ◌==◌, ◌<◌, ◌^◌, ◌&&◌, [], Some, None, IfErr, IfOk, List, OnOk};
ghost use Rattle.otio_model.specs.Counts.{count, count_of};
ghost use Rattle.otio_model.specs.Trees.{items_of};
ghost use Rattle.otio_model.specs.declared.compositions.ItemOf.{ItemOf as AnyItem};
ghost use Rattle.otio_model.specs.declared.compositions.ItemOf.TheVariants as items;
ghost use Rattle.otio_model.specs.declared.compositions.Listed.{Listed};
ghost use Rattle.coord.specs.Soundness.{AreFaultless, IsFaultlessItem};
ghost use Rattle.edl_frames.specs.Carried as carried;
ghost use Rattle.edl_frames.specs.Carried.{examine, examine_all, examine_track, first_said};
ghost use Rattle.edl_conform.specs.Stated.{stated_job};
ghost use Rattle.edl_conform.specs.Walk as walk;
ghost use Rattle.edl_conform.specs.Walk.{AddsRoot, AddsTrack, AreGathered, AreTaken, IsSaid};

use crate::children::put_children;
use crate::faults_at_places::{at_child, at_track};
use crate::list_settings::Job;
use edl_frames::{NotCarried, Why};
use edl_list::{Channel, Event};
use otio_model::{Children, Item, ItemOf, Track};
use std::alloc::Global;

/// How many Video and how many Audio tracks have a channel.
#[derive(Clone, Copy)]
pub(crate) struct Taken {
    pub(crate) video: u8,
    pub(crate) audio: u8,
}

/// The channel of a track behind these.
pub(crate) fn channel_behind(taken: Taken, track: &Track) -> Option<Channel>
    ensures { result ≡ walk.channel_behind taken track.now }
{
    let kind = track.kind.as_str();
    if kind == "Video" {
        return if taken.video == 0 {
            Some(Channel::V)
        } else {
            None
        };
    }
    if kind == "Audio" {
        return sound_channel(taken);
    }
    None
}

// The channel of an Audio track behind these.
fn sound_channel(taken: Taken) -> Option<Channel>
    ensures { result ≡ walk.sound_behind taken }
{
    if taken.audio == 0 {
        return Some(Channel::A);
    }
    if taken.audio == 1 {
        return Some(Channel::A2);
    }
    None
}

/// These and a track on the channel.
pub(crate) fn after(channel: Channel, taken: Taken) -> Taken
    ensures { result ≡ walk.taken_after channel taken }
{
    match channel {
        Channel::V => Taken {
            video: 1,
            audio: taken.audio,
        },
        Channel::A => Taken {
            video: taken.video,
            audio: 1,
        },
        Channel::A2 => Taken {
            video: taken.video,
            audio: 2,
        },
    }
}

// Whether a track has neither a source range nor effects.
fn is_plain(track: &Track) -> bool
    ensures { result ≡ carried.is_plain track.now }
{
    track.source_range.is_none() && track.effects.as_slice().is_empty()
}

/// The index of a track among the root children, and its channel.
#[derive(Clone, Copy)]
struct TrackAt {
    index: u32,
    channel: Channel,
}

// Puts the events of a track behind the others; of one that is disabled there are none.
fn put_track(
    alloc: Global,
    job: &Job<'_>,
    at: TrackAt,
    track: &Track,
    events: &mut Vec<Event>,
) -> Result<(), NotCarried>
    requires few { count track.now.children < 2 ^ 32 }
    requires sound { IsFaultlessItem (items.Track track.now) }
    ensures added { OnOk result (AddsTrack (stated_job job.now) at.channel at.index track.now
        events.old.items events.new.items) }
    ensures refused { IfErr result (IsSaid
        (first_said (examine_track (stated_job job.now) at.index track.now (Some at.channel)))) }
{
    if !track.enabled {
        return Ok(());
    }
    if !is_plain(track) {
        return Err(at_track(alloc, at.index, Why::Nested));
    }
    match put_children(alloc, job, at.channel, &track.children, events) {
        Ok(None) => Ok(()),
        Ok(Some(stop)) => Err(at_child(alloc, at.index, stop.index, stop.why)),
        Err(_) => Err(NotCarried::Memory),
    }
}

/// The index of a root child, and which tracks before it have a channel.
#[derive(Clone, Copy)]
struct RootAt {
    index: u32,
    taken: Taken,
}

// Puts the events of a root child behind the others, and answers which tracks have a channel then.
fn put_root(
    alloc: Global,
    job: &Job<'_>,
    at: RootAt,
    item: &Item,
    events: &mut Vec<Event>,
) -> Result<Taken, NotCarried>
    requires few { count_of item.now < 2 ^ 32 }
    requires sound { IsFaultlessItem item.now }
    ensures added { IfOk result (λ next. (past : List (AnyItem Listed)) → AreTaken past at.taken
        → AddsRoot (stated_job job.now) at.index past item.now next events.old.items
        events.new.items) }
    ensures refused { IfErr result (λ fault. (past : List (AnyItem Listed)) → AreTaken past at.taken
        → IsSaid (first_said (examine (stated_job job.now) at.index past item.now)) fault) }
{
    match item {
        ItemOf::Track(track) => match channel_behind(at.taken, track) {
            Some(channel) => {
                let index = at.index;
                match put_track(alloc, job, TrackAt { index, channel }, track, events) {
                    Ok(()) => Ok(after(channel, at.taken)),
                    Err(fault) => Err(fault),
                }
            }
            None => Err(at_track(alloc, at.index, Why::Tracks)),
        },
        _ => Err(at_track(alloc, at.index, Why::Tracks)),
    }
}

/// The events of all tracks, one track after another.
///
/// # Errors
/// The first place of which something is said, with the first reason; or want of memory.
pub(crate) fn gather(
    alloc: Global,
    job: &Job<'_>,
    tracks: &Children,
) -> Result<Vec<Event>, NotCarried>
    requires few { count tracks.now < 2 ^ 32 }
    requires sound { AreFaultless tracks.now }
    ensures gathered { IfOk result
        (λ events. AreGathered (stated_job job.now) (items_of tracks.now) events.items) }
    ensures carried { OnOk result
        (first_said (examine_all (stated_job job.now) 0 [] (items_of tracks.now)) ≡ None) }
    ensures refused { IfErr result (IsSaid
        (first_said (examine_all (stated_job job.now) 0 [] (items_of tracks.now)))) }
{
    let mut events = Vec::new(alloc);
    let mut taken = Taken { video: 0, audio: 0 };
    'tracks: for index in 0..tracks.len() {
        let at = RootAt {
            index: index as u32,
            taken,
        };
        match put_root(alloc, job, at, tracks.child(index), &mut events) {
            Ok(next) => taken = next,
            Err(fault) => return Err(fault),
        }
    }
    Ok(events)
}
