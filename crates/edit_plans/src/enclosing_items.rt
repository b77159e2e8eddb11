//! How long the items are that enclose a changed track.

ghost use Rattle.std.specs.Prelude.{◌≡◌, ◌+ℤ◌, ◌*ℤ◌, ◌-ℤ◌, ◌<◌, ◌≤◌, ◌≤ℤ◌, ◌^◌, IfSome, None};
ghost use Rattle.std.specs.Prelude.{drop, length, pos};
ghost use Rattle.limits.specs.Limits.{most_ticks};
ghost use Rattle.tick_time.specs.Times.{IsSpeed};
ghost use Rattle.otio_model.specs.Counts.{count, count_of};
ghost use Rattle.otio_model.specs.Lengths.{added, lengths};
ghost use Rattle.otio_model.specs.Sums.{greatest};
ghost use Rattle.otio_model.specs.Trees.{children_of, items_of};
ghost use Rattle.coord.specs.Soundness as soundness;
ghost use Rattle.coord.specs.Soundness.{AreFaultless, IsFaultlessItem, fault_of};
ghost use Rattle.edit_plans.specs.Amounts.{AreFew};
ghost use Rattle.edit_plans.specs.Ways as ways;
ghost use Rattle.edit_plans.specs.Ways.{with_ticks};

use crate::pinning::{first_index, source_range};
use coord::{ItemFault, item_fault, media_ticks, speed, trimmed_start};
use limits::MOST_TICKS;
use otio_model::{Children, Item, ItemOf, Place, Timeline};
use pieces::{known_ticks, member};

/// A million seconds in ticks.
const MOST_LENGTH: u128 = MOST_TICKS as u128;

/// A million seconds in millionths of a tick.
pub(crate) const MOST_END: i128 = MOST_TICKS * 1_000_000;

// Whether an item is too long.
fn is_long_item(item: &Item) -> bool
    requires { count_of item.now < 2 ^ 32 }
    ensures { result ≡ ways.is_long_fault (fault_of item.now) }
{
    match item_fault(item) {
        Some(ItemFault::Long) => true,
        _ => false,
    }
}

/// Whether one of the items is too long.
#[tactic(auto, using(crate::proofs::WayLemmas::long_here, crate::proofs::WayLemmas::long_next, crate::proofs::WayLemmas::long_none))]
pub(crate) fn has_long(list: &[Item]) -> bool
    requires { AreFew list.now }
    ensures { result ≡ ways.has_long list.now }
{
    'items: for index in 0..list.len() {
        if is_long_item(member(list, index)) {
            return true;
        }
    }
    false
}

// How long an item is in which so much is available.
fn ticks_with(item: &Item, available: u128) -> u128
    ensures { result ≡ ways.ticks_with item.now available }
{
    match source_range(item) {
        Some(span) => span.len.ticks.unsigned_abs(),
        None => available,
    }
}

/// How far so many ticks go at a speed, in millionths of a tick.
pub(crate) fn played_ticks(ticks: u128, speed: i64) -> i128
    requires ticks { ticks ≤ most_ticks }
    requires speed { IsSpeed speed }
    ensures value { result ≡ (pos ticks *ℤ speed) }
    ensures least { (pos 0 -ℤ pos 1000000000000000000000000000000000) ≤ℤ result }
    ensures most { result ≤ℤ pos 1000000000000000000000000000000000 }
{
    media_ticks(ticks as i128, speed)
}

/// Where what goes so far ends, in millionths of a tick, from a start in ticks.
pub(crate) fn end_from(start: i128, played: i128) -> i128
    requires start_low { (pos 0 -ℤ pos most_ticks) ≤ℤ start }
    requires start_high { start ≤ℤ pos most_ticks }
    requires least { (pos 0 -ℤ pos 1000000000000000000000000000000000) ≤ℤ played }
    requires most { played ≤ℤ pos 1000000000000000000000000000000000 }
    ensures { result ≡ ((start *ℤ pos 1000000) +ℤ played) }
{
    start * 1_000_000 + played
}

// Where so many ticks of an item end in its media or its children, in millionths of a tick.
#[tactic(auto, using(pieces::proofs::Faultless::starts_near))]
fn media_end(item: &Item, ticks: u128) -> i128
    requires sound { fault_of item.now ≡ None }
    requires ticks { ticks ≤ most_ticks }
    ensures { result ≡ soundness.media_end item.now ticks }
{
    end_from(trimmed_start(item), played_ticks(ticks, speed(item)))
}

// Whether an item so long, in which so much is available, passes a million seconds.
fn is_long_with(item: &Item, available: u128, ticks: u128) -> bool
    requires { fault_of item.now ≡ None }
    ensures { result ≡ ways.is_long_with item.now available ticks }
{
    if MOST_LENGTH < ticks || MOST_LENGTH < available {
        return true;
    }
    let end = media_end(item, ticks);
    !(-MOST_END <= end && end <= MOST_END)
}

// How long an item is in which so much is available; `None` where it is too long.
fn short_ticks(item: &Item, available: u128) -> Option<u128>
    requires { fault_of item.now ≡ None }
    ensures ticks { result ≡ ways.short_ticks item.now available }
    ensures short { IfSome result (λ ticks. ticks ≤ most_ticks) }
{
    let ticks = ticks_with(item, available);
    if is_long_with(item, available, ticks) {
        None
    } else {
        Some(ticks)
    }
}

// The lengths of children added up, where that of one of them is another.
#[tactic(auto, using(crate::proofs::WayLemmas::sum_is))]
fn sum_with(children: &Children, index: usize, ticks: u128) -> u128
    requires few { count children.now < 2 ^ 32 }
    requires there { index < length (items_of children.now) }
    requires ticks { ticks ≤ most_ticks }
    ensures { result ≡ added (with_ticks index ticks (lengths children.now)) }
{
    let old = known_ticks(children.child(index));
    children.added_ticks() - old + ticks
}

// The greatest length of children, where that of one of them is another.
#[tactic(auto, using(crate::proofs::WayLemmas::longest_is))]
fn longest_with(children: &Children, index: usize, ticks: u128) -> u128
    requires few { count children.now < 2 ^ 32 }
    requires there { index < length (items_of children.now) }
    ensures { result ≡ greatest (with_ticks index ticks (lengths children.now)) }
{
    children.longest_beside(index).max(ticks)
}

// How much is available in a composition whose child at the index is so long.
fn available_with(item: &Item, index: usize, ticks: u128) -> u128
    requires few { count_of item.now < 2 ^ 32 }
    requires there { IfSome (children_of item.now) (λ l. index < length (items_of l)) }
    requires ticks { ticks ≤ most_ticks }
    ensures { result ≡ ways.available_with item.now index ticks }
{
    match item {
        ItemOf::Stack(stack) => longest_with(&stack.children, index, ticks),
        ItemOf::Track(track) => sum_with(&track.children, index, ticks),
        _ => 0,
    }
}

// How long an item is once the children of the track to which the rest of the place leads are so
// long together; `None` where it is too long, or one on the way.
fn way_ticks(item: &Item, place: &Place, depth: usize, sum: u128) -> Option<u128>
    requires few { count_of item.now < 2 ^ 32 }
    requires sound { IsFaultlessItem item.now }
    requires depth { depth ≤ length place.now }
    requires short { length place.now < 2 ^ 64 }
    ensures ticks { result ≡ ways.way_ticks (drop depth place.now) sum item.now }
    ensures short { IfSome result (λ ticks. ticks ≤ most_ticks) }
{
    match place.index(depth) {
        None => short_ticks(item, sum),
        Some(index) => match item.children() {
            None => None,
            Some(children) => match children.item(index as usize) {
                None => None,
                Some(child) => match way_ticks(child, place, depth + 1, sum) {
                    None => None,
                    Some(ticks) => short_ticks(item, available_with(item, index as usize, ticks)),
                },
            },
        },
    }
}

/// Whether an item on the way to a place is too long once the children of the track there are so
/// long together. The root stack isn't tested.
pub(crate) fn is_way_long(timeline: &Timeline, place: &Place, sum: u128) -> bool
    requires few { count timeline.now.tracks.children < 2 ^ 32 }
    requires sound { AreFaultless timeline.now.tracks.children }
    ensures { result ≡ ways.is_way_long place.now sum timeline.now }
{
    match first_index(place) {
        None => false,
        Some(first) => match timeline.tracks.children.item(first as usize) {
            None => false,
            Some(item) => match way_ticks(item, place, 1, sum) {
                None => true,
                Some(_) => false,
            },
        },
    }
}
