//! What inputs give to joined tracks, before anything moves.

ghost use Rattle.std.specs.Prelude.{◌≡◌, ◌++◌, ◌<◌, ◌^◌, ◌≤ℤ◌, ◌<ℤ◌, ◌-ℤ◌, ◌+◌, [], IfNone, IfOk};
ghost use Rattle.std.specs.Prelude.{IfSome, length, List, map, nat_lt, None, OnOk, pos, slice_get};
ghost use Rattle.std.specs.Prelude.{Some};
ghost use Rattle.std.specs.Option.{option_copied};
ghost use Rattle.limits.specs.Limits.{most_ticks};
ghost use Rattle.otio_model.specs.declared.compositions.ItemOf.{ItemOf as AnyItemOf};
ghost use Rattle.otio_model.specs.declared.compositions.Listed.{Listed};
ghost use Rattle.otio_model.specs.declared.timelines.Timeline.{Timeline as AnyTimeline};
ghost use Rattle.otio_model.specs.Counts.{count};
ghost use Rattle.otio_model.specs.Trees.{items_of};
ghost use Rattle.coord.specs.Programs as programs;
ghost use Rattle.edits.specs.Children as children;
ghost use Rattle.edits.specs.Edges.{added};
ghost use Rattle.flat.specs.Joined as joined;
ghost use Rattle.pieces.specs.Short.{AreCuttable};
ghost use Rattle.flat_stack.specs.declared.inputs.Part.{Part as AnyPart};
ghost use Rattle.flat_stack.specs.Inputs.{AreParts, IsAdded, IsPreparedInput, children_from, given};
ghost use Rattle.flat_stack.specs.Inputs.{inputs_of, list_of, pad_behind, piece, slot_of, slots_of};
ghost use Rattle.flat_stack.specs.Inputs.{track_from, tracks_from};
ghost use Rattle.flat_stack.specs.Givers.{AreGivers};
ghost use Rattle.flat_stack.specs.Portions.{HasChildren, items_or, planned_track, portions_items};

use crate::givers::{Givers, next_giver};
use crate::input_tracks::{part_at, seat_at};
use crate::inputs::{Part, Seat, track_at};
use crate::lengths::total_ticks;
use crate::root_children::enabled_children;
use otio_model::{Children, Item, Items, copy_item, copy_item_with};
use pieces::short_gap;
use std::alloc::{AllocError, Global};
use tick_time::Rate;

/// What stands next in a joined track.
#[derive(Drop)]
pub(crate) enum Portion {
    /// The children of a root child of an input, which are to move there.
    Moved {
        /// The input.
        input: usize,
        /// The root child, counted from 0.
        child: usize,
    },
    /// An item that is made for it.
    Made(Item),
}

/// A joined track, and what is to stand in it.
#[derive(Drop)]
pub(crate) struct PlannedTrack {
    /// The first track that it is made of, without its children.
    pub(crate) track: Item,
    pub(crate) portions: Vec<Portion>,
}

/// What an input gives to a joined track.
#[derive(Clone, Copy)]
pub(crate) struct OwnTrack<'b> {
    /// The number of its track among its root children.
    pub(crate) number: usize,
    pub(crate) children: &'b Children,
}

// The number of an input's track that goes into a joined one; `None` where it has none.
fn own_number<'a>(part: &Part<'a>, seat: Seat<'a>) -> Option<usize>
    requires { IsPreparedInput part.now }
    ensures some { IfSome result (λ number. slice_get (list_of part.now) number ≡
        joined.track_of (programs.kind_of seat.entry.first.now) seat.entry.index
        (list_of part.now)) }
    ensures none { IfNone result (None ≡
        joined.track_of (programs.kind_of seat.entry.first.now) seat.entry.index
        (list_of part.now)) }
{
    match track_at(&part.tracks, seat.first.root_kind(), seat.index) {
        Some(number) => Some(number),
        None => None,
    }
}

// The root child of a number.
fn root_of<'b, 'a>(part: &'b Part<'a>, number: usize) -> Option<&'b Item>
    ensures { option_copied result ≡ slice_get (list_of part.now) number }
{
    part.input.tracks.children.item(number)
}

// The track of a number, where it is an enabled one.
fn enabled_track<'b, 'a>(part: &'b Part<'a>, number: usize) -> Option<OwnTrack<'b>>
    ensures there { IfSome result (λ own.
        HasChildren (list_of part.now) number own.children.now) }
    ensures some { IfSome result (λ own. items_of own.children.now ≡
        joined.own_items (slice_get (list_of part.now) number)) }
    ensures number { IfSome result (λ own. items_or (slice_get (list_of part.now) own.number) ≡
        joined.own_items (slice_get (list_of part.now) number)) }
    ensures none { IfNone result (joined.own_items (slice_get (list_of part.now) number) ≡ []) }
{
    match root_of(part, number) {
        Some(track) => match enabled_children(track) {
            Some(children) => Some(OwnTrack { number, children }),
            None => None,
        },
        None => None,
    }
}

/// What an input gives to a joined track.
pub(crate) fn own_track<'b, 'a>(part: &'b Part<'a>, seat: Seat<'a>) -> Option<OwnTrack<'b>>
    requires { IsPreparedInput part.now }
    ensures some { IfSome result (λ own. items_of own.children.now ≡
        given (slot_of seat.entry) part.now) }
    ensures number { IfSome result (λ own.
        items_or (slice_get (list_of part.now) own.number) ≡
        given (slot_of seat.entry) part.now) }
    ensures none { IfNone result
        (given (slot_of seat.entry) part.now ≡ []) }
    ensures few { IfSome result (λ own. count own.children.now < 2 ^ 32) }
    ensures cuttable { IfSome result (λ own. AreCuttable (items_of own.children.now)) }
{
    match own_number(part, seat) {
        Some(number) => match enabled_track(part, number) {
            Some(own) => Some(own),
            None => None,
        },
        None => None,
    }
}

// How long the children are that an input gives, in ticks.
fn own_ticks<'a>(part: &Part<'a>, seat: Seat<'a>) -> i128
    requires { IsPreparedInput part.now }
    ensures value { result ≡
        added (given (slot_of seat.entry) part.now) }
    ensures low { pos 0 ≤ℤ result }
    ensures high { result ≤ℤ pos 10000000000000000000000000000000000 }
{
    match own_track(part, seat) {
        Some(own) => total_ticks(own.children),
        None => 0,
    }
}

/// How long the gap is after what an input gives, in ticks; there is none where this isn't above 0.
pub(crate) fn pad_ticks<'a>(part: &Part<'a>, seat: Seat<'a>) -> i128
    requires { IsPreparedInput part.now }
    ensures value { result ≡ (part.now.stretch -ℤ
        added (given (slot_of seat.entry) part.now)) }
    ensures low { (pos 0 -ℤ pos 10000000000000000000000000000000000) ≤ℤ result }
    ensures high { result ≤ℤ pos most_ticks }
{
    part.stretch - own_ticks(part, seat)
}

// Adds what the input of an index gives, which is to move.
fn put_own<'a>(
    parts: &[Part<'a>],
    index: usize,
    seat: Seat<'a>,
    all: &mut Vec<Portion>,
) -> Result<(), AllocError>
    requires parts { AreParts parts.now }
    requires there { index < length parts.now }
    ensures { OnOk result ((part : AnyPart) → slice_get parts.now index ≡ Some part →
        portions_items (inputs_of parts.now) all.new.items ≡
        portions_items (inputs_of parts.now) all.old.items ++ given (slot_of seat.entry) part) }
{
    match own_track(part_at(parts, index), seat) {
        Some(own) => {
            let child = own.number;
            all.push(Portion::Moved {
                input: index,
                child,
            })?;
            Ok(())
        }
        None => Ok(()),
    }
}

// Adds the gap after what an input gives, up to the next input.
fn put_pad<'a>(
    alloc: Global,
    part: &Part<'a>,
    seat: Seat<'a>,
    rate: Rate,
    all: &mut Vec<Portion>,
) -> Result<(), AllocError>
    requires { IsPreparedInput part.now }
    ensures { OnOk result ((inputs : List AnyTimeline) → IsAdded rate
        (pad_behind (slot_of seat.entry) part.now) (portions_items inputs all.old.items)
        (portions_items inputs all.new.items)) }
{
    let ticks = pad_ticks(part, seat);
    if ticks <= 0 {
        return Ok(());
    }
    all.push(Portion::Made(short_gap(alloc, ticks, rate)))?;
    Ok(())
}

/// A track that is joined.
#[derive(Clone, Copy)]
struct JoinedTrack<'a> {
    /// The first track of an input that it is made of.
    seat: Seat<'a>,
    /// The record rate, at which its gaps are counted.
    rate: Rate,
}

// Adds what the input of an index gives, and the gap after it where more inputs follow.
fn put_part<'a>(
    alloc: Global,
    parts: &[Part<'a>],
    index: usize,
    track: JoinedTrack<'a>,
    all: &mut Vec<Portion>,
) -> Result<(), AllocError>
    requires parts { AreParts parts.now }
    requires there { index < length parts.now }
    ensures { OnOk result ((part : AnyPart) → slice_get parts.now index ≡ Some part →
        IsAdded track.entry.rate
        (piece (slot_of track.entry.seat) part (nat_lt (index + 1) (length parts.now)))
        (portions_items (inputs_of parts.now) all.old.items)
        (portions_items (inputs_of parts.now) all.new.items)) }
{
    put_own(parts, index, track.seat, all)?;
    if index + 1 < parts.len() {
        put_pad(alloc, part_at(parts, index), track.seat, track.rate, all)?;
        return Ok(());
    }
    Ok(())
}

// What is to stand in a joined track.
fn seat_portions<'b, 'a>(
    alloc: Global,
    givers: &Givers<'b, 'a>,
    track: JoinedTrack<'a>,
) -> Result<Vec<Portion>, AllocError>
    requires { AreGivers givers.now }
    ensures { IfOk result (λ all. children.all_made track.entry.rate
        (children_from (slot_of track.entry.seat) givers.now.parts.now) ≡
        Some (portions_items (inputs_of givers.now.parts.now) all.items)) }
{
    let parts = givers.parts;
    let mut all: Vec<Portion> = Vec::new(alloc);
    let mut index = next_giver(givers, track.seat, 0);
    'parts: while index < parts.len() {
        put_part(alloc, parts, index, track, &mut all)?;
        index = next_giver(givers, track.seat, index + 1);
    }
    Ok(all)
}

// A copy of a track without its children, which aren't copied; another item as it is.
#[tactic(auto, using(crate::proofs::JoinedTracks::track_bare, crate::proofs::JoinedTracks::other_bare))]
fn bare_track(alloc: Global, first: &Item) -> Result<Item, AllocError>
    ensures { IfOk result (λ track. (m : List (AnyItemOf Listed)) →
        joined.joined_with track m ≡ joined.joined_with first.now m) }
{
    if !first.is_track() {
        let copy = copy_item(alloc, first)?;
        return Ok(copy);
    }
    let none = Children::of(alloc, Items::new(alloc))?;
    let track = copy_item_with(alloc, first, none)?;
    Ok(track)
}

// The joined track of a seat.
fn planned_of<'b, 'a>(
    alloc: Global,
    givers: &Givers<'b, 'a>,
    seat: Seat<'a>,
    rate: Rate,
) -> Result<PlannedTrack, AllocError>
    requires { AreGivers givers.now }
    ensures { IfOk result (λ planned.
        track_from rate givers.now.parts.now (slot_of seat.entry) ≡
        Some (planned_track (inputs_of givers.now.parts.now) planned)) }
{
    let track = bare_track(alloc, seat.first)?;
    let portions = seat_portions(alloc, givers, JoinedTrack { seat, rate })?;
    Ok(PlannedTrack { track, portions })
}

/// The joined tracks of seats.
pub(crate) fn planned_tracks<'b, 'a>(
    alloc: Global,
    givers: &Givers<'b, 'a>,
    seats: &[Seat<'a>],
    rate: Rate,
) -> Result<Vec<PlannedTrack>, AllocError>
    requires { AreGivers givers.now }
    ensures { IfOk result (λ plans. tracks_from rate givers.now.parts.now (slots_of seats.now) ≡
        Some (map (planned_track (inputs_of givers.now.parts.now)) plans.items)) }
{
    let mut all: Vec<PlannedTrack> = Vec::new(alloc);
    'seats: for index in 0..seats.len() {
        let planned = planned_of(alloc, givers, seat_at(seats, index), rate)?;
        all.push(planned)?;
    }
    Ok(all)
}
