//! The part of a timeline between two record frames.

ghost use Rattle.std.specs.Prelude.{◌≡◌, ◌<◌, ◌^◌, ◌||◌, ◌≤ℤ◌, ◌<ℤ◌, ◌-ℤ◌, IfErr, IfOk, OnOk, Some};
ghost use Rattle.std.specs.Prelude.{◌&&◌, int_le, int_lt, length, pos, true};
ghost use Rattle.edits.specs.Children as children;
ghost use Rattle.otio_model.specs.Counts.{count};
ghost use Rattle.otio_model.specs.Trees.{items_of};
ghost use Rattle.coord.specs.Sights.{overlap_of};
ghost use Rattle.coord.specs.Soundness.{AreFaultless, IsSound};
ghost use Rattle.edits.specs.Splices.{is_stripped as is_met};
ghost use Rattle.flat.specs.Answers as answers;
ghost use Rattle.flat.specs.Blocked.{IsFree};
ghost use Rattle.flat.specs.Roots as roots;
ghost use Rattle.flat.specs.Windowed as windowed;
ghost use Rattle.flat.specs.Windowed.{WindowBlocks};
ghost use Rattle.pieces.specs.Short.{AreCuttable, IsCuttable};
ghost use Rattle.flat_stack.specs.Ends.{IsCutTo};
ghost use Rattle.flat_stack.specs.Passed.{IsPut, passed};
ghost use Rattle.flat_stack.specs.Uncut.{AreCutTo, IsInWindow};
ghost use Rattle.flat.specs.Pieces as flat_pieces;

use crate::cutting::part;
use crate::fault_places::fault_of;
use crate::root_children::flat_rate;
use crate::window_faults::window_fault;
use crate::zones::zone_of;
use flat::FlatFault;
use otio_model::{Children, Item, Items, Timeline, copy_item_with};
use pieces::{is_stripped, sound_ticks};
use std::alloc::{AllocError, Global};
use tick_time::{Rate, Time};

// Whether an item that starts at an instant is a transition that meets one of two others.
fn is_left_out(item: &Item, at: i128, from: i128, to: i128) -> bool
    requires low { pos 0 ≤ℤ at }
    requires high { at ≤ℤ pos 100000000000000000000000000000000000000 }
    ensures { result ≡ (is_met (from -ℤ at) (from -ℤ at) (overlap_of item.now)
        || is_met (to -ℤ at) (to -ℤ at) (overlap_of item.now)) }
{
    is_stripped(item, at, from, from) || is_stripped(item, at, to, to)
}

// Whether an item ends at an instant after its start, or before it.
fn is_over(item: &Item, from: i128) -> bool
    requires { IsCuttable item.now }
    ensures { result ≡ (int_lt (pos 0) from && int_le (children.ticks item.now) from) }
{
    from > 0 && sound_ticks(item) <= from
}

/// From one instant up to another, in ticks from the start of an item.
#[derive(Clone, Copy)]
pub(crate) struct Zone {
    from: i128,
    to: i128,
}

// Adds what stands of an item in a zone.
fn put_part(
    alloc: Global,
    item: &Item,
    zone: Zone,
    rate: Rate,
    all: &mut Vec<Item>,
) -> Result<(), AllocError>
    requires cuttable { IsCuttable item.now }
    requires low { pos 0 <ℤ zone.to }
    requires wide { zone.from <ℤ zone.to }
    requires first { flat_pieces.cuts_at item.now zone.from ≡ true }
    requires last { flat_pieces.cuts_at item.now zone.to ≡ true }
    ensures { OnOk result
        (IsPut rate zone.from zone.to item.now all.old.items all.new.items) }
{
    if is_over(item, zone.from) {
        return Ok(());
    }
    let piece = part(alloc, item, zone.from, zone.to, rate)?;
    all.push(piece)?;
    Ok(())
}

// What stands of a track's children between two instants.
fn window_items(
    alloc: Global,
    children: &Children,
    from: i128,
    to: i128,
    rate: Rate,
) -> Result<Vec<Item>, AllocError>
    requires few { length (items_of children.now) < 2 ^ 32 }
    requires cuttable { AreCuttable (items_of children.now) }
    requires cut { AreCutTo (items_of children.now) from to (length (items_of children.now)) }
    requires low { pos 0 ≤ℤ from }
    requires wide { from <ℤ to }
    requires high { to ≤ℤ pos 1411200000000000000000000 }
    ensures { IfOk result (λ items. passed rate from to
        (windowed.stripped (items_of children.now) from to) ≡ Some items.items) }
{
    let mut done: Vec<Item> = Vec::new(alloc);
    let mut at: i128 = 0;
    'children: for index in 0..children.len() {
        let item = children.child(index);
        if at >= to {
            return Ok(done);
        }
        if !is_left_out(item, at, from, to) {
            let zone = Zone {
                from: from - at,
                to: to - at,
            };
            put_part(alloc, item, zone, rate, &mut done)?;
            at += sound_ticks(item);
        }
    }
    Ok(done)
}

// The children of a track in a window.
fn track_items(
    alloc: Global,
    item: &Item,
    from: i128,
    to: i128,
    rate: Rate,
) -> Result<Vec<Item>, AllocError>
    requires { IsInWindow item.now from to }
    ensures { IfOk result (λ items. windowed.window_of rate from to
        (windowed.stripped (roots.items_in item.now) from to) ≡ Some items.items) }
{
    if sound_ticks(item) <= from {
        return Ok(Vec::new(alloc));
    }
    match item.children() {
        Some(children) => {
            let items = window_items(alloc, children, from, to, rate)?;
            Ok(items)
        }
        None => Ok(Vec::new(alloc)),
    }
}

// A track in a window.
fn window_track(
    alloc: Global,
    item: &Item,
    from: i128,
    to: i128,
    rate: Rate,
) -> Result<Item, AllocError>
    requires { IsInWindow item.now from to }
    ensures { IfOk result
        (λ track. windowed.window_track rate from to item.now ≡ Some track) }
{
    let items = track_items(alloc, item, from, to, rate)?;
    let children = Children::of(alloc, Items::of(items))?;
    let track = copy_item_with(alloc, item, children)?;
    Ok(track)
}

// All tracks in a window.
fn window_tracks(
    alloc: Global,
    children: &Children,
    from: i128,
    to: i128,
    rate: Rate,
) -> Result<Vec<Item>, AllocError>
    requires few { count children.now < 2 ^ 32 }
    requires faultless { AreFaultless children.now }
    requires free { IsFree (WindowBlocks (items_of children.now) from to) }
    requires low { pos 0 ≤ℤ from }
    requires wide { from <ℤ to }
    requires high { to ≤ℤ pos 1411200000000000000000000 }
    ensures { IfOk result (λ tracks.
        windowed.window_tracks rate from to (items_of children.now) ≡ Some tracks.items) }
{
    let mut done: Vec<Item> = Vec::new(alloc);
    'children: for index in 0..children.len() {
        let item = children.child(index);
        let track = window_track(alloc, item, from, to, rate)?;
        done.push(track)?;
    }
    Ok(done)
}

// The timeline from one instant up to another, with another start.
fn cut_to(
    alloc: Global,
    timeline: Timeline,
    start: Time,
    from: i128,
    to: i128,
) -> Result<Timeline, AllocError>
    requires few { count timeline.tracks.children < 2 ^ 32 }
    requires faultless { AreFaultless timeline.tracks.children }
    requires free { IsFree (WindowBlocks (roots.roots timeline) from to) }
    requires low { pos 0 ≤ℤ from }
    requires wide { from <ℤ to }
    requires high { to ≤ℤ pos 1411200000000000000000000 }
    ensures { IfOk result (λ cut. IsCutTo timeline start from to cut) }
{
    let rate = flat_rate(&timeline);
    let tracks = match window_tracks(alloc, &timeline.tracks.children, from, to, rate) {
        Ok(tracks) => tracks,
        Err(error) => {
            drop(timeline);
            return Err(error);
        }
    };
    let children = match Children::of(alloc, Items::of(tracks)) {
        Ok(children) => children,
        Err(error) => {
            drop(timeline);
            return Err(error);
        }
    };
    let mut cut = timeline;
    cut.tracks.children = children;
    cut.global_start_time = Some(start);
    Ok(cut)
}

/// The timeline from record frame `a` up to, not including, `b`: its tracks without the transitions
/// that meet an end, cut there, and with `a` as its start. A track that ends before `b` stays as
/// short. [`FlatFault::Range`] comes exactly where `a` isn't below `b`, lies before the timeline's
/// start, or one of the two lies beyond a million seconds. Else the fault is that of the first
/// place in document order: [`FlatFault::Nested`] for a root child that is no track or has a
/// source_range or effects, or [`FlatFault::Phase`] for an item that can't be cut on a whole tick
/// of its media. [`FlatFault::Memory`] comes where memory runs out.
pub fn window(alloc: Global, timeline: Timeline, a: i128, b: i128) -> Result<Timeline, FlatFault>
    requires few { count timeline.tracks.children < 2 ^ 32 }
    requires sound { IsSound timeline }
    ensures cut { IfOk result (answers.Windows timeline a b) }
    ensures fault { IfErr result (answers.WindowNames timeline a b) }
{
    match zone_of(&timeline, a, b) {
        Some((start, from, to)) => match window_fault(&timeline.tracks.children, from, to) {
            Some(spot) => {
                drop(timeline);
                Err(fault_of(alloc, spot))
            }
            None => match cut_to(alloc, timeline, start, from, to) {
                Ok(cut) => Ok(cut),
                Err(_) => Err(FlatFault::Memory),
            },
        },
        None => {
            drop(timeline);
            Err(FlatFault::Range)
        }
    }
}
