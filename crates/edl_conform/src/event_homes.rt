//! The places of the items whose events a list has.

ghost use Rattle.std.specs.Prelude.{◌≡◌, ◌<◌, ◌≤◌, ◌^◌, ◌++◌, IfOk, List, OnOk, Some, length, pos, []};
ghost use Rattle.limits.specs.Limits.{most_ticks};
ghost use Rattle.otio_model.specs.Counts.{count, count_of};
ghost use Rattle.otio_model.specs.Lengths.{added, lengths};
ghost use Rattle.otio_model.specs.Trees.{items_of};
ghost use Rattle.otio_model.specs.declared.compositions.ItemOf.{ItemOf as AnyItem};
ghost use Rattle.otio_model.specs.declared.compositions.ItemOf.TheVariants as items;
ghost use Rattle.otio_model.specs.declared.compositions.Listed.{Listed};
ghost use Rattle.edl_list.specs.declared.list.Channel.{Channel as AnyChannel};
ghost use Rattle.coord.specs.Soundness.{AreFaultless, IsFaultless, IsFaultlessItem};
ghost use Rattle.edl_frames.specs.Jobs.{Job};
ghost use Rattle.edl_frames.specs.Homes.{AreHomes, HasList, homed_all, homed_on, homed_seats, homed_track};
ghost use Rattle.edl_frames.specs.Seats as seats;
ghost use Rattle.edl_frames.specs.ChildEvents.{event_of};
ghost use Rattle.edl_conform.specs.Seated.{IsOpenPast, IsSeated};
ghost use Rattle.edl_conform.specs.Stated.{stated_seat};
ghost use Rattle.edl_conform.specs.Givers.{AreCounted, PutsRoot, given_on, homes_in, home_at, one_home, places, spots_on, given_behind};

use crate::child_context::{ChildContext, Past};
use crate::draft_events::draft_of;
use crate::events_from_tracks::{Taken, after, channel_behind};
use crate::faults_at_places::child_place;
use edl_list::{Channel, EventList};
use otio_model::{Children, Item, ItemOf, Place, Timeline, Track};
use std::alloc::{AllocError, Global};

/// A child of a track.
#[derive(Clone, Copy)]
struct Spot {
    /// The place of the track among the root's children.
    track: u32,
    /// The place of the child in the track.
    child: u32,
}

/// The children that give the events of each channel, in order.
#[derive(Drop)]
struct Givers {
    picture: Vec<Spot>,
    first_sound: Vec<Spot>,
    second_sound: Vec<Spot>,
}

/// How many events of each channel have their places.
#[derive(Clone, Copy)]
struct Given {
    picture: usize,
    first_sound: usize,
    second_sound: usize,
}

/// For each event of a timeline's list (CMX 3600), in order, the place of the item whose event it
/// is: for an event to black that of what comes in, a gap or a disabled item, and of the transition
/// itself where nothing comes in. The list is that of the timeline, with any media list and in any
/// mode and layout. An error comes where memory runs out.
pub fn homes(alloc: Global, timeline: &Timeline, list: &EventList) -> Result<Vec<Place>, AllocError>
    requires few { count timeline.now.tracks.children < 2 ^ 32 }
    requires sound { IsFaultless timeline.now }
    requires list { HasList timeline.now list.now }
    ensures { IfOk result (λ homes. AreHomes timeline.now list.now homes.items) }
{
    let givers = givers_of(alloc, &timeline.tracks.children)?;
    let events = list.events.as_slice();
    let mut homes = Vec::with_capacity(alloc, events.len())?;
    let mut given = Given {
        picture: 0,
        first_sound: 0,
        second_sound: 0,
    };
    'events: for event in events {
        let place = next_place(alloc, &givers, given, event.channel)?;
        homes.push(place)?;
        given = after_one(event.channel, given);
    }
    Ok(homes)
}

// The place of a child.
fn place_at(alloc: Global, spots: &[Spot], index: usize) -> Result<Place, AllocError>
    requires { index < length spots.now }
    ensures { IfOk result (λ place. place ≡ home_at spots.now index) }
{
    let spot = spots[index];
    child_place(alloc, spot.track, spot.child)
}

// The place of the next child that gives an event of a channel.
fn next_place(
    alloc: Global,
    givers: &Givers,
    given: Given,
    channel: Channel,
) -> Result<Place, AllocError>
    requires { given_on channel given < length (spots_on channel givers.now) }
    ensures { IfOk result (λ place.
        place ≡ home_at (spots_on channel givers.now) (given_on channel given)) }
{
    match channel {
        Channel::V => place_at(alloc, givers.picture.as_slice(), given.picture),
        Channel::A => place_at(alloc, givers.first_sound.as_slice(), given.first_sound),
        Channel::A2 => place_at(alloc, givers.second_sound.as_slice(), given.second_sound),
    }
}

// These, and one more event of the channel.
fn after_one(channel: Channel, given: Given) -> Given
    requires { given_on channel given < 2 ^ 63 }
    ensures { result ≡ given_behind channel given }
{
    match channel {
        Channel::V => Given {
            picture: given.picture + 1,
            first_sound: given.first_sound,
            second_sound: given.second_sound,
        },
        Channel::A => Given {
            picture: given.picture,
            first_sound: given.first_sound + 1,
            second_sound: given.second_sound,
        },
        Channel::A2 => Given {
            picture: given.picture,
            first_sound: given.first_sound,
            second_sound: given.second_sound + 1,
        },
    }
}

// The children that give the events of each channel.
fn givers_of(alloc: Global, tracks: &Children) -> Result<Givers, AllocError>
    requires few { count tracks.now < 2 ^ 32 }
    requires sound { AreFaultless tracks.now }
    ensures { IfOk result (λ givers. (j : Job) (c : AnyChannel) → places (spots_on c givers)
        ≡ homes_in (homed_on c (homed_all j 0 [] (items_of tracks.now)))) }
{
    let mut givers = Givers {
        picture: Vec::new(alloc),
        first_sound: Vec::new(alloc),
        second_sound: Vec::new(alloc),
    };
    let mut taken = Taken { video: 0, audio: 0 };
    'tracks: for index in 0..tracks.len() {
        taken = put_root(index as u32, tracks.child(index), taken, &mut givers)?;
    }
    Ok(givers)
}

// Puts the children of a root child that give an event after the others of their channel, and
// answers which tracks have a channel then.
fn put_root(index: u32, item: &Item, taken: Taken, givers: &mut Givers) -> Result<Taken, AllocError>
    requires few { count_of item.now < 2 ^ 32 }
    requires sound { IsFaultlessItem item.now }
    ensures { IfOk result (λ next. (past : List (AnyItem Listed)) → AreCounted past taken
        → PutsRoot index past item.now next givers.old givers.new) }
{
    match item {
        ItemOf::Track(track) => match channel_behind(taken, track) {
            Some(channel) => {
                put_on(index, channel, track, givers)?;
                Ok(after(channel, taken))
            }
            None => Ok(taken),
        },
        _ => Ok(taken),
    }
}

// Puts the children of a track of a channel that give an event after the others of the channel.
fn put_on(
    index: u32,
    channel: Channel,
    track: &Track,
    givers: &mut Givers,
) -> Result<(), AllocError>
    requires few { count track.now.children < 2 ^ 32 }
    requires sound { IsFaultlessItem (items.Track track.now) }
    ensures { OnOk result ((j : Job) (c : AnyChannel) → places (spots_on c givers.new)
        ≡ places (spots_on c givers.old)
        ++ homes_in (homed_on c (homed_track j index track.now (Some channel)))) }
{
    match channel {
        Channel::V => put_track(index, track, &mut givers.picture)?,
        Channel::A => put_track(index, track, &mut givers.first_sound)?,
        Channel::A2 => put_track(index, track, &mut givers.second_sound)?,
    }
    Ok(())
}

// Puts the children of a track that give an event after the others; of one that is disabled
// there are none.
fn put_track(index: u32, track: &Track, spots: &mut Vec<Spot>) -> Result<(), AllocError>
    requires few { count track.now.children < 2 ^ 32 }
    requires sound { IsFaultlessItem (items.Track track.now) }
    ensures { OnOk result ((j : Job) (c : AnyChannel) → places spots.new.items
        ≡ places spots.old.items ++ homes_in (homed_track j index track.now (Some c))) }
{
    if !track.enabled {
        return Ok(());
    }
    put_spots(index, &track.children, spots)
}

// Puts a child after the others, where it gives an event.
fn put_spot(
    track: u32,
    child: u32,
    seat: &ChildContext<'_>,
    spots: &mut Vec<Spot>,
) -> Result<(), AllocError>
    requires seated { IsSeated seat.now }
    requires past { IsOpenPast seat.now.past }
    ensures { OnOk result ((j : Job) (c : AnyChannel) → places spots.new.items
        ≡ places spots.old.items ++ one_home (event_of j c (stated_seat seat.now)) track child) }
{
    match draft_of(seat) {
        Some(_) => spots.push(Spot { track, child })?,
        None => {}
    }
    Ok(())
}

// Puts the children that give an event after the others.
fn put_spots(track: u32, children: &Children, spots: &mut Vec<Spot>) -> Result<(), AllocError>
    requires few { count children.now < 2 ^ 32 }
    requires sound { AreFaultless children.now }
    requires fits { added (lengths children.now) ≤ most_ticks }
    ensures { OnOk result ((j : Job) (c : AnyChannel) → places spots.new.items
        ≡ places spots.old.items
        ++ homes_in (homed_seats j c track 0
        (seats.seats (pos 0) seats.head (items_of children.now)))) }
{
    let mut past = Past::head();
    let mut start = 0;
    'children: for index in 0..children.len() {
        let seat = ChildContext::at(children, index, start, past);
        put_spot(track, index as u32, &seat, spots)?;
        past = seat.past_behind();
        start = seat.end;
    }
    Ok(())
}
