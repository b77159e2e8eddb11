//! What pins a track whose length would change.

ghost use Rattle.std.specs.Prelude.{◌≡◌, ◌≢◌, ◌<◌, ◌≤◌, ◌^◌, ℕ, IfErr, IfOk, List, None, OnOk};
ghost use Rattle.std.specs.Prelude.{Some, drop, length, slice_get, take};
ghost use Rattle.otio_model.specs.Lengths.{source_of};
ghost use Rattle.edits.specs.Refusals as refusals;
ghost use Rattle.edit_plans.specs.Pins.{freedom, pin_by};

use crate::clamps::is_zero;
use otio_model::{EditFault, Item, ItemOf, Place, Timeline};
use std::alloc::{AllocError, Global};
use tick_time::Span;

/// Whether the length of an item changes with that of the track below it.
#[derive(Clone, Copy)]
enum Pin {
    /// It is pinned.
    Pinned,
    /// The item to which so many indexes lead isn't pinned: its parent is a track.
    Above(usize),
    /// It changes.
    Changes,
}

/// The first index of a place, which has fewer than 2^64.
pub(crate) fn first_index(place: &Place) -> Option<u32>
    ensures index { result ≡ slice_get place.now 0 }
    ensures short { length place.now < 2 ^ 64 }
{
    match place.len() {
        0 => None,
        _ => place.index(0),
    }
}

/// The source_range of an item; a transition has none.
pub fn source_range(item: &Item) -> Option<Span>
    ensures { result ≡ source_of item.now }
{
    match item {
        ItemOf::Clip(clip) => clip.source_range,
        ItemOf::Gap(gap) => gap.source_range,
        ItemOf::Transition(_) => None,
        ItemOf::Stack(stack) => stack.source_range,
        ItemOf::Track(track) => track.source_range,
    }
}

// Whether a source_range pins an item that would change.
fn own_range(item: &Item) -> Pin
    ensures { (place : List ℕ) → freedom place result ≡ refusals.own_range item.now }
{
    match source_range(item) {
        Some(_) => Pin::Pinned,
        None => Pin::Changes,
    }
}

// What pins an item, where that is known of its child, to which so many indexes lead.
fn above(item: &Item, child: usize, pin: Pin) -> Pin
    ensures { (place : List ℕ) → freedom place result
        ≡ refusals.with_child (take child place) item.now (freedom place pin) }
{
    match pin {
        Pin::Changes => {
            if item.is_track() {
                Pin::Above(child)
            } else {
                own_range(item)
            }
        }
        other => other,
    }
}

// What pins the item to which so many indexes of the place lead.
fn pin_of(item: &Item, place: &Place, depth: usize) -> Pin
    requires depth { depth ≤ length place.now }
    requires short { length place.now < 2 ^ 64 }
    ensures { freedom place.now result
        ≡ refusals.free (drop depth place.now) (take depth place.now) item.now }
{
    match place.index(depth) {
        None => own_range(item),
        Some(index) => match item.children() {
            None => Pin::Pinned,
            Some(children) => match children.item(index as usize) {
                None => Pin::Pinned,
                Some(child) => above(item, depth + 1, pin_of(child, place, depth + 1)),
            },
        },
    }
}

// The place of so many of the indexes.
#[tactic(auto, using(crate::proofs::PinLemmas::front_next, crate::proofs::PinLemmas::front_same, crate::proofs::PinLemmas::front_all))]
fn front(alloc: Global, place: &Place, len: usize) -> Result<Place, AllocError>
    ensures { IfOk result (λ front. front ≡ take len place.now) }
{
    let mut front = Place::new(alloc);
    'indexes: for at in 0..len {
        match place.index(at) {
            Some(index) => front.push(index)?,
            None => {}
        }
    }
    Ok(front)
}

/// The place that isn't pinned where the length of the track at a place would change: the track, or
/// a composition above it, whose parent is a track; none where something pins it. An error comes
/// where memory runs out.
pub fn unpinned(
    alloc: Global,
    timeline: &Timeline,
    place: &Place,
) -> Result<Option<Place>, AllocError>
    ensures { IfOk result (λ free. free ≡ refusals.unpinned place.now timeline.now) }
{
    match first_index(place) {
        None => Ok(None),
        Some(first) => match timeline.tracks.children.item(first as usize) {
            None => Ok(None),
            Some(item) => match pin_of(item, place, 1) {
                Pin::Above(len) => Ok(Some(front(alloc, place, len)?)),
                _ => Ok(None),
            },
        },
    }
}

/// Lets the length of the track at a place change by so many ticks: it stays as it is, or something
/// pins it. [`EditFault::Unpinned`] comes exactly where nothing does, and [`EditFault::Memory`]
/// where memory runs out.
pub fn pinned(
    alloc: Global,
    timeline: &Timeline,
    place: &Place,
    more: i128,
) -> Result<(), EditFault>
    ensures ok { OnOk result (pin_by more place.now timeline.now ≡ None) }
    ensures fault { IfErr result (λ fault. fault ≢ EditFault.Memory →
        pin_by more place.now timeline.now ≡ Some fault) }
{
    if is_zero(more) {
        return Ok(());
    }
    match unpinned(alloc, timeline, place) {
        Ok(Some(free)) => Err(EditFault::Unpinned(free)),
        Ok(None) => Ok(()),
        Err(_) => Err(EditFault::Memory),
    }
}
