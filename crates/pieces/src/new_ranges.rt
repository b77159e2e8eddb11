//! Items with another range.

ghost use Rattle.limits.specs.Limits.{most_ticks};
ghost use Rattle.std.specs.Prelude.{◌≡◌, ◌≢◌, IfErr, IfOk, Some, pos, ◌≤ℤ◌, ◌-ℤ◌, true};
ghost use Rattle.edits.specs.Children as children;
ghost use Rattle.edits.specs.Children.{is_far};

use otio_model::{Clip, Item, ItemOf, copy_item};
use std::alloc::{AllocError, Global};
use tick_time::{Rate, Span, Time};

/// Why an item isn't made.
#[derive(Clone, Copy, PartialEq, Eq)]
pub enum RangedFault {
    /// A start or a length lies beyond a million seconds.
    Range,
    /// Memory ran out.
    Memory,
}

// The range of a clip: its own, else that of its media.
fn clip_range(clip: &Clip) -> Option<Span>
    ensures { result ≡ children.old_range (ItemOf.Clip clip.now) }
{
    match clip.source_range {
        Some(range) => Some(range),
        None => clip.available_range(),
    }
}

// The range by whose rates an item's times are counted.
fn old_range(item: &Item) -> Option<Span>
    ensures { result ≡ children.old_range item.now }
{
    match item {
        ItemOf::Clip(clip) => clip_range(clip),
        ItemOf::Gap(gap) => gap.source_range,
        ItemOf::Transition(_) => None,
        ItemOf::Stack(stack) => stack.source_range,
        ItemOf::Track(track) => track.source_range,
    }
}

// The rate of an item's start, where one without a range counts at the record rate.
fn start_rate(item: &Item, rate: Rate) -> Rate
    ensures { result ≡ children.start_rate rate item.now }
{
    match old_range(item) {
        Some(range) => range.start.rate,
        None => rate,
    }
}

// The rate of its length.
fn length_rate(item: &Item, rate: Rate) -> Rate
    ensures { result ≡ children.length_rate rate item.now }
{
    match old_range(item) {
        Some(range) => range.len.rate,
        None => rate,
    }
}

// The item with another range; a transition has none.
fn with_range(item: Item, range: Span) -> Item
    ensures { result ≡ children.with_range range item }
{
    match item {
        ItemOf::Clip(mut clip) => {
            clip.source_range = Some(range);
            ItemOf::Clip(clip)
        }
        ItemOf::Gap(mut gap) => {
            gap.source_range = Some(range);
            ItemOf::Gap(gap)
        }
        ItemOf::Transition(transition) => ItemOf::Transition(transition),
        ItemOf::Stack(mut stack) => {
            stack.source_range = Some(range);
            ItemOf::Stack(stack)
        }
        ItemOf::Track(mut track) => {
            track.source_range = Some(range);
            ItemOf::Track(track)
        }
    }
}

/// The range of an item with this start and this length, in ticks, counted as [`ranged`] counts
/// them. [`RangedFault::Range`] comes only where the start or the length lies beyond a million
/// seconds.
#[tactic(auto, using(crate::proofs::SameTimes::made_from, crate::proofs::SameTimes::far_start, crate::proofs::SameTimes::far_length))]
pub fn new_range(item: &Item, start: i128, len: i128, rate: Rate) -> Result<Span, RangedFault>
    requires { pos 0 ≤ℤ len }
    ensures made { IfOk result
        (λ span. children.made rate (children.Ranged item.now start len)
        ≡ Some (children.with_range span item.now)) }
    ensures fault { IfErr result (λ fault. fault ≡ RangedFault.Range) }
    ensures far { IfErr result (λ _. is_far (children.Ranged item.now start len) ≡ true) }
{
    let start = match Time::near(start, start_rate(item, rate)) {
        Ok(time) => time,
        Err(_) => return Err(RangedFault::Range),
    };
    let len = match Time::near(len, length_rate(item, rate)) {
        Ok(time) => time,
        Err(_) => return Err(RangedFault::Range),
    };
    Ok(Span { start, len })
}

/// A copy of an item with this start and this length, in ticks. They are counted at the rates of
/// the old start and length, or at the record rate `rate` where the item has no range; where they
/// are no whole units of these, at the finest rate. [`RangedFault::Range`] comes only where the
/// start or the length lies beyond a million seconds, and [`RangedFault::Memory`] where memory runs
/// out.
#[tactic(auto, using(crate::proofs::SameTimes::made_from, crate::proofs::SameTimes::far_start, crate::proofs::SameTimes::far_length))]
pub fn ranged(
    alloc: Global,
    item: &Item,
    start: i128,
    len: i128,
    rate: Rate,
) -> Result<Item, RangedFault>
    requires { pos 0 ≤ℤ len }
    ensures made { IfOk result
        (λ made. children.made rate (children.Ranged item.now start len) ≡ Some made) }
    ensures far { IfErr result
        (λ fault. fault ≡ RangedFault.Range → is_far (children.Ranged item.now start len) ≡ true) }
{
    let start = match Time::near(start, start_rate(item, rate)) {
        Ok(time) => time,
        Err(_) => return Err(RangedFault::Range),
    };
    let len = match Time::near(len, length_rate(item, rate)) {
        Ok(time) => time,
        Err(_) => return Err(RangedFault::Range),
    };
    match copy_item(alloc, item) {
        Ok(copy) => Ok(with_range(copy, Span { start, len })),
        Err(_) => Err(RangedFault::Memory),
    }
}

/// What is left of the faults where no new time is out of range: memory ran out.
pub(crate) fn out_of_memory(fault: RangedFault) -> AllocError
    requires { fault ≢ RangedFault.Range }
{
    let _ = fault;
    AllocError
}

/// A copy of an item with this start and this length, as [`ranged`] makes it, where both lie within
/// a million seconds. An error comes where memory runs out.
pub fn ranged_within(
    alloc: Global,
    item: &Item,
    start: i128,
    len: i128,
    rate: Rate,
) -> Result<Item, AllocError>
    requires start_low { (pos 0 -ℤ pos most_ticks) ≤ℤ start }
    requires start_high { start ≤ℤ pos most_ticks }
    requires low { pos 0 ≤ℤ len }
    requires high { len ≤ℤ pos most_ticks }
    ensures { IfOk result
        (λ made. children.made rate (children.Ranged item.now start len) ≡ Some made) }
{
    match ranged(alloc, item, start, len, rate) {
        Ok(made) => Ok(made),
        Err(fault) => Err(out_of_memory(fault)),
    }
}
