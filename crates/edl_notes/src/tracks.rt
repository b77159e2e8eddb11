//! The tracks of a conformed timeline with notes.

ghost use Rattle.std.specs.Prelude.{◌<◌, ◌^◌, [], IfOk, List};
ghost use Rattle.otio_model.specs.Counts.{count, count_of};
ghost use Rattle.otio_model.specs.Trees.{items_of};
ghost use Rattle.otio_model.specs.declared.compositions.ItemOf.{ItemOf as AnyItem};
ghost use Rattle.otio_model.specs.declared.compositions.Listed.{Listed};
ghost use Rattle.otio_model.specs.declared.compositions.ItemOf.TheVariants as items;
ghost use Rattle.note_text.specs.Noted.{AreNotedRoots, IsNotedRoot};
ghost use Rattle.note_text.specs.declared.notes.Note.{Note as AnyNote};
ghost use Rattle.note_text.specs.Belonging.{HaveSameOwn};
ghost use Rattle.edl_notes.specs.Steps.{notes_at};
ghost use Rattle.edl_notes.specs.Kinds.{AreCounted};
ghost use Rattle.edl_notes.specs.Walks.{IsWork};

use crate::events::{Work, noted_children};
use crate::kinds::{Kinds, channel_of, with_one};
use otio_model::{Children, Item, ItemOf, Items, Track, copy_item};
use std::alloc::{AllocError, Global};

/// The root children with the notes on the items of their events.
pub(crate) fn noted_tracks(
    alloc: Global,
    tracks: &Children,
    work: Work<'_>,
) -> Result<Children, AllocError>
    requires few { count tracks.now < 2 ^ 32 }
    requires work { IsWork work }
    ensures { IfOk result (λ made. (notes : List AnyNote) →
        HaveSameOwn notes (notes_at work.entry.notes.now) →
        AreNotedRoots work.entry.list.now notes [] (items_of tracks.now) (items_of made)) }
{
    let mut copies = Vec::with_capacity(alloc, tracks.len())?;
    let mut kinds = Kinds { video: 0, audio: 0 };
    'tracks: for index in 0..tracks.len() {
        let item = tracks.child(index);
        copies.push(noted_root(alloc, item, work, kinds)?)?;
        kinds = with_one(kinds, item);
    }
    let made = Children::of(alloc, Items::of(copies))?;
    Ok(made)
}

// A root child with the notes of its channel, where it has one after tracks of so many kinds.
fn noted_root(alloc: Global, item: &Item, work: Work<'_>, kinds: Kinds) -> Result<Item, AllocError>
    requires few { count_of item.now < 2 ^ 32 }
    requires work { IsWork work }
    ensures { IfOk result (λ made. (past : List (AnyItem Listed)) → AreCounted past kinds →
        (notes : List AnyNote) → HaveSameOwn notes (notes_at work.entry.notes.now) →
        IsNotedRoot work.entry.list.now notes past item.now made) }
{
    let copy = copy_item(alloc, item)?;
    match copy {
        ItemOf::Track(track) => Ok(ItemOf::Track(noted_track(alloc, track, work, kinds)?)),
        other => Ok(other),
    }
}

// A track with the notes of its channel, where it has one.
fn noted_track(
    alloc: Global,
    track: Track,
    work: Work<'_>,
    kinds: Kinds,
) -> Result<Track, AllocError>
    requires few { count track.children < 2 ^ 32 }
    requires work { IsWork work }
    ensures { IfOk result (λ made. (past : List (AnyItem Listed)) → AreCounted past kinds →
        (notes : List AnyNote) → HaveSameOwn notes (notes_at work.entry.notes.now) →
        IsNotedRoot work.entry.list.now notes past (items.Track track) (items.Track made)) }
{
    match channel_of(kinds, &track) {
        Some(channel) => {
            let children = noted_children(alloc, &track.children, work, channel)?;
            let mut track = track;
            track.children = children;
            Ok(track)
        }
        None => Ok(track),
    }
}
