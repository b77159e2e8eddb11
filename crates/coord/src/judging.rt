//! Whether a timeline has a fault, and its first one.

ghost use Rattle.std.specs.Prelude.{◌≡◌, ℕ, ◌<◌, ◌≤◌, ◌^◌, ◌∷◌, pos, ◌≤ℤ◌, ◌-ℤ◌, Some, None, IfErr, IfSome, OnOk, ◌+ℤ◌, ◌*ℤ◌, IsTrue, ◌↔◌, slice_get, length, unsigned_abs};
ghost use Rattle.limits.specs.Limits.{most_ticks};
ghost use Rattle.tick_time.specs.Times.{IsSpeed};
ghost use Rattle.otio_model.specs.Trees.{items_of};
ghost use Rattle.otio_model.specs.Lengths.{length_of, lengths, added};
ghost use Rattle.otio_model.specs.Counts.{count, count_of};
ghost use Rattle.coord.specs.Soundness.{IsFaultlessItem};
ghost use Rattle.coord.specs.Speeds.{speed_of};
ghost use Rattle.coord.specs.Soundness as soundness;
ghost use Rattle.coord.specs.Walk.{IsFoundIn, IsFoundAt, IsUnder};

use crate::faults::{CoordFault, ItemFault};
use crate::speeds::{item_speed, media_millionths};
use crate::timing::trimmed_start;
use limits::MOST_TICKS;
use otio_model::{Children, Item, ItemOf, Place, Timeline};
use std::alloc::Global;
use tick_time::Span;

/// What was found below some children or in an item.
#[derive(Drop)]
pub(crate) enum Found {
    /// A fault, and the indexes that lead to its item.
    At(Vec<u32>, ItemFault),
    /// A fault, but no memory for these indexes.
    Memory,
}

/// A million seconds in ticks.
const MOST_LENGTH: u128 = MOST_TICKS as u128;

/// A million seconds in millionths of a tick.
const MOST_END: i128 = MOST_TICKS * 1_000_000;

// The length of a span, 0 where there is none.
fn span_ticks(span: Option<Span>) -> u128
    ensures { result ≡ soundness.span_ticks span }
{
    match span {
        Some(span) => span.len.ticks.unsigned_abs(),
        None => 0,
    }
}

// How long the available range is, where a child without a length counts 0.
fn available_ticks(item: &Item) -> u128
    requires few { count_of item.now < 2 ^ 32 }
    ensures { result ≡ soundness.available_ticks item.now }
{
    match item {
        ItemOf::Clip(clip) => span_ticks(clip.available_range()),
        ItemOf::Gap(_) => 0,
        ItemOf::Transition(_) => 0,
        ItemOf::Stack(stack) => stack.children.longest_ticks(),
        ItemOf::Track(track) => track.children.added_ticks(),
    }
}

// Where so many ticks end in the media, in millionths of a tick.
fn media_end(start: i128, ticks: u128, speed: i64) -> i128
    requires low { (pos 0 -ℤ pos most_ticks) ≤ℤ start }
    requires high { start ≤ℤ pos most_ticks }
    requires ticks { ticks ≤ most_ticks }
    requires speed_low { (pos 0 -ℤ pos 1000000000) ≤ℤ speed }
    requires speed_high { speed ≤ℤ pos 1000000000 }
    ensures { result ≡ (start *ℤ pos 1000000) +ℤ (pos ticks *ℤ speed) }
{
    start * 1_000_000 + media_ticks(ticks as i128, speed)
}

/// How much media a length of up to a million seconds plays: [`media_millionths`] with closer
/// bounds.
pub fn media_ticks(ticks: i128, speed: i64) -> i128
    requires low { pos 0 ≤ℤ ticks }
    requires high { ticks ≤ℤ pos most_ticks }
    requires speed_low { (pos 0 -ℤ pos 1000000000) ≤ℤ speed }
    requires speed_high { speed ≤ℤ pos 1000000000 }
    ensures value { result ≡ (ticks *ℤ speed) }
    ensures least { (pos 0 -ℤ pos 1000000000000000000000000000000000) ≤ℤ result }
    ensures most { result ≤ℤ pos 1000000000000000000000000000000000 }
{
    media_millionths(ticks, speed)
}

// Whether the item, so many ticks long, passes a million seconds.
fn is_long(item: &Item, ticks: u128, speed: i64) -> bool
    requires few { count_of item.now < 2 ^ 32 }
    requires speed_low { (pos 0 -ℤ pos 1000000000) ≤ℤ speed }
    requires speed_high { speed ≤ℤ pos 1000000000 }
    requires same { speed ≡ speed_of item.now }
    ensures { result ≡ soundness.is_long item.now ticks }
{
    if MOST_LENGTH < ticks || MOST_LENGTH < available_ticks(item) {
        return true;
    }
    let end = media_end(trimmed_start(item), ticks, speed);
    !(-MOST_END <= end && end <= MOST_END)
}

// The fault of an item that is so many ticks long.
fn ranged_fault(item: &Item, ticks: u128) -> Option<ItemFault>
    requires few { count_of item.now < 2 ^ 32 }
    ensures { result ≡ soundness.ranged_fault item.now ticks }
{
    match item_speed(item) {
        Some(speed) => {
            if is_long(item, ticks, speed) {
                Some(ItemFault::Long)
            } else {
                None
            }
        }
        None => Some(ItemFault::Speed),
    }
}

/// The fault of an item, whatever those below it have: [`ItemFault::NoLength`], else
/// [`ItemFault::Speed`], else [`ItemFault::Long`]. A transition has none. It takes no memory.
pub fn item_fault(item: &Item) -> Option<ItemFault>
    requires few { count_of item.now < 2 ^ 32 }
    ensures { result ≡ soundness.fault_of item.now }
{
    match item {
        ItemOf::Transition(_) => None,
        _ => match item.length() {
            Some(ticks) => ranged_fault(item, ticks.unsigned_abs()),
            None => Some(ItemFault::NoLength),
        },
    }
}

// What was found, seen from one level up.
fn under(index: usize, found: Found) -> Found
    requires { index < 2 ^ 32 }
    ensures { IsUnder index found result }
{
    match found {
        Found::At(mut way, fault) => match way.insert(0, index as u32) {
            Ok(()) => Found::At(way, fault),
            Err(_) => Found::Memory,
        },
        Found::Memory => Found::Memory,
    }
}

// Looks for the first fault of an item and those below it.
#[tactic(auto, using(crate::proofs::JudgingLemmas::sound_with, crate::proofs::JudgingLemmas::sound_alone, crate::proofs::JudgingLemmas::found_with))]
#[cycle(judge)]
fn judge_item(alloc: Global, item: &Item) -> Result<(), Found>
    requires few { count_of item.now < 2 ^ 32 }
    ensures ok { OnOk result (IsFaultlessItem item.now) }
    ensures found { IfErr result (IsFoundAt item.now) }
{
    match item_fault(item) {
        Some(fault) => Err(Found::At(Vec::new(alloc), fault)),
        None => match item.children() {
            Some(children) => match judge_children(alloc, children) {
                Ok(()) => Ok(()),
                Err(found) => Err(found),
            },
            None => Ok(()),
        },
    }
}

// Looks for the first fault of children and those below them.
#[tactic(auto, using(crate::proofs::JudgingLemmas::sound_next, crate::proofs::JudgingLemmas::sound_all, crate::proofs::JudgingLemmas::found_under, crate::proofs::Members::child_few, crate::proofs::Members::index_few))]
#[cycle(judge)]
fn judge_children(alloc: Global, children: &Children) -> Result<(), Found>
    requires few { count children.now < 2 ^ 32 }
    ensures ok { OnOk result (soundness.AreFaultless children.now) }
    ensures found { IfErr result (IsFoundIn children.now) }
{
    'children: for index in 0..children.len() {
        match judge_item(alloc, children.child(index)) {
            Ok(()) => {}
            Err(found) => return Err(under(index, found)),
        }
    }
    Ok(())
}

/// The place of these indexes, from the root down; `None` where memory runs out.
pub fn place_of(alloc: Global, way: &[u32]) -> Option<Place>
    ensures { IfSome result (λ place. place ≡ way.now) }
{
    let mut place = Place::new(alloc);
    'indexes: for index in way {
        match place.push(*index) {
            Ok(()) => {}
            Err(_) => return None,
        }
    }
    Some(place)
}

// The fault of an item as that of its timeline.
fn fault_at(place: Place, fault: ItemFault) -> CoordFault
    ensures { result ≡ soundness.fault_at place fault }
{
    match fault {
        ItemFault::NoLength => CoordFault::NoLength(place),
        ItemFault::Speed => CoordFault::Speed(place),
        ItemFault::Long => CoordFault::Long(place),
    }
}

// Whether the timeline begins on a frame of its own rate.
fn starts_on_frame(timeline: &Timeline) -> bool
    ensures { IsTrue result ↔ soundness.StartsOnFrame timeline.now }
{
    match timeline.global_start_time {
        Some(start) => start.on_frame(start.rate),
        None => true,
    }
}

/// Looks whether a timeline has a fault; one that has none, and whose transitions stand where they
/// may, is sound. The error names its first fault:
///
/// - [`CoordFault::StartOffFrame`]: it begins on no frame of its own rate;
/// - else that of the first item, in document order, that has one. An item's is
/// [`CoordFault::NoLength`], else [`CoordFault::Speed`], else [`CoordFault::Long`]. The root stack
/// and transitions have none;
/// - [`CoordFault::Memory`]: an item has a fault, and memory ran out for its place.
pub fn sound(alloc: Global, timeline: &Timeline) -> Result<(), CoordFault>
    requires few { count timeline.now.tracks.children < 2 ^ 32 }
    ensures ok { OnOk result (soundness.IsFaultless timeline.now) }
    ensures fault { IfErr result (soundness.IsFaultOf timeline.now) }
{
    if !starts_on_frame(timeline) {
        return Err(CoordFault::StartOffFrame);
    }
    match judge_children(alloc, &timeline.tracks.children) {
        Ok(()) => Ok(()),
        Err(Found::Memory) => Err(CoordFault::Memory),
        Err(Found::At(way, fault)) => match place_of(alloc, way.as_slice()) {
            Some(place) => Err(fault_at(place, fault)),
            None => Err(CoordFault::Memory),
        },
    }
}

/// The speed of an item without a fault, in millionths: by its effects, one after another.
#[tactic(auto, using(crate::proofs::SpeedProducts::kept_is))]
pub fn speed(item: &Item) -> i64
    requires { soundness.fault_of item.now ≡ None }
    ensures value { result ≡ speed_of item.now }
    ensures range { IsSpeed result }
{
    match item_speed(item) {
        Some(speed) => speed,
        None => unreachable!(),
    }
}
