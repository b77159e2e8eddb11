//! What fills a gap.

ghost use Rattle.std.specs.Prelude.{◌≡◌, ◌==◌, true, false, pos, ◌≤ℤ◌, ◌<ℤ◌};
ghost use Rattle.std.specs.Prelude.{IfErr, IfOk, Some};
ghost use Rattle.limits.specs.Limits.{most_ticks};
ghost use Rattle.edits.specs.Children as children;
ghost use Rattle.edits.specs.Cuts as cuts;
ghost use Rattle.edits_law.specs.Editable.{IsEditItem};
ghost use Rattle.edits.specs.Edits as edits;
ghost use Rattle.edits.specs.Refusals.{is_wrong_fit};
ghost use Rattle.pieces.specs.Short.{IsShort};
ghost use Rattle.edit_plans.specs.Filled.{IsFilling, IsMisfit};
ghost use Rattle.edit_plans.specs.Filled as filled;

use crate::fit_speed::{edit_speed, fit_speed};
use crate::retimed_items::warped;
use coord::item_speed;
use otio_model::{FillMode, Item};
use pieces::{is_whole, ranged_within, start_ticks, ticks_of};
use std::alloc::Global;
use tick_time::Rate;

/// The most millionths that a speed has.
const MOST_SPEED: u128 = 1_000_000_000;

/// Why an item doesn't fill a gap.
#[derive(Clone, Copy, PartialEq, Eq)]
pub enum FillFault {
    /// Its speed would be 0 or pass 1000 times, or that of the change of speed would.
    Speed,
    /// It can't be cut to the gap's length: the cut doesn't fall on a whole tick of its media.
    Phase,
    /// Memory ran out.
    Memory,
}

/// How long what fills a gap of so many ticks is, in ticks.
#[tactic(auto, using(crate::proofs::FillLemmas::lengths))]
pub fn filling_ticks(mode: FillMode, item: &Item, room: i128) -> i128
    requires short { IsShort item.now }
    requires low { pos 0 ≤ℤ room }
    requires high { room ≤ℤ pos most_ticks }
    ensures value { result ≡ children.child_ticks (edits.filling mode item.now room) }
    ensures low { pos 0 ≤ℤ result }
    ensures high { result ≤ℤ pos most_ticks }
{
    let ticks = ticks_of(item);
    match mode {
        FillMode::Source => ticks,
        FillMode::Sequence => { if room < ticks { room } else { ticks } }
        FillMode::Fit => room,
    }
}

// Whether an item can be cut at so many ticks from its start.
fn is_whole_at(item: &Item, ticks: i128) -> bool
    requires item { IsEditItem item.now }
    requires low { pos 0 ≤ℤ ticks }
    requires high { ticks ≤ℤ pos most_ticks }
    ensures { result ≡ cuts.is_whole_at item.now ticks }
{
    is_whole(ticks, edit_speed(item))
}

// The item, or the piece of it that fills a gap where it is longer. [`FillFault::Phase`] comes
// where it can't be cut.
fn cut_to(alloc: Global, item: Item, room: i128, rate: Rate) -> Result<Item, FillFault>
    requires item { IsEditItem item }
    requires short { IsShort item }
    requires low { pos 0 <ℤ room }
    requires high { room ≤ℤ pos most_ticks }
    ensures made { IfOk result (IsFilling FillMode.Sequence item room rate) }
    ensures fault { IfErr result (IsMisfit FillMode.Sequence item room) }
{
    let ticks = ticks_of(&item);
    if ticks <= room {
        return Ok(item);
    }
    if !is_whole_at(&item, room) {
        drop(item);
        return Err(FillFault::Phase);
    }
    let start = start_ticks(&item);
    let made = ranged_within(alloc, &item, start, room, rate);
    drop(item);
    match made {
        Ok(piece) => Ok(piece),
        Err(_) => Err(FillFault::Memory),
    }
}

// Whether an item stands still, or passes 1000 times its speed on the way.
#[tactic(auto, using(crate::proofs::FitLemmas::still))]
fn stands_still(item: &Item) -> bool
    ensures { result ≡ filled.stands_still item.now }
{
    match item_speed(item) {
        Some(speed) => speed == 0,
        None => true,
    }
}

// The item where it moves. [`FillFault::Speed`] comes where it stands still, or where its speed
// passes 1000 times.
fn moving(item: Item) -> Result<Item, FillFault>
    ensures same { IfOk result (λ made. made ≡ item) }
    ensures moves { IfOk result (λ _. filled.stands_still item ≡ false) }
    ensures speed { IfErr result (λ fault. fault ≡ FillFault.Speed) }
    ensures still { IfErr result (λ _. filled.stands_still item ≡ true) }
{
    if stands_still(&item) {
        drop(item);
        return Err(FillFault::Speed);
    }
    Ok(item)
}

// The item with a last change of speed by which it is as long as the gap. [`FillFault::Speed`]
// comes where there is no such speed.
fn fitted(alloc: Global, item: Item, room: i128) -> Result<Item, FillFault>
    requires item { IsEditItem item }
    requires short { IsShort item }
    requires low { pos 0 <ℤ room }
    requires high { room ≤ℤ pos most_ticks }
    ensures made { IfOk result (λ made. made ≡ edits.fitted item room) }
    ensures right { IfOk result (λ _. is_wrong_fit item room ≡ false) }
    ensures fault { IfErr result (IsMisfit FillMode.Fit item room) }
{
    let ticks = ticks_of(&item);
    let speed = fit_speed(ticks, room);
    if speed > MOST_SPEED {
        drop(item);
        return Err(FillFault::Speed);
    }
    match warped(alloc, item, speed) {
        Ok(fast) => moving(fast),
        Err(_) => Err(FillFault::Memory),
    }
}

// The item at the speed at which it is as long as the gap.
fn fit_to(alloc: Global, item: Item, room: i128, rate: Rate) -> Result<Item, FillFault>
    requires item { IsEditItem item }
    requires short { IsShort item }
    requires low { pos 0 <ℤ room }
    requires high { room ≤ℤ pos most_ticks }
    ensures made { IfOk result (IsFilling FillMode.Fit item room rate) }
    ensures fault { IfErr result (IsMisfit FillMode.Fit item room) }
{
    let start = start_ticks(&item);
    let fast = match fitted(alloc, item, room) {
        Ok(fast) => fast,
        Err(fault) => return Err(fault),
    };
    let made = ranged_within(alloc, &fast, start, room, rate);
    drop(fast);
    match made {
        Ok(made) => Ok(made),
        Err(_) => Err(FillFault::Memory),
    }
}

/// What fills a gap of so many ticks, at the record rate `rate`: the whole item, the item cut to
/// the gap's length where it is longer, or the item at the speed at which it is as long as the gap.
/// [`FillFault::Speed`] comes exactly where there is no such speed, else [`FillFault::Phase`]
/// exactly where the item can't be cut, and [`FillFault::Memory`] where memory runs out.
pub fn fill(
    alloc: Global,
    mode: FillMode,
    item: Item,
    room: i128,
    rate: Rate,
) -> Result<Item, FillFault>
    requires item { IsEditItem item }
    requires short { IsShort item }
    requires low { pos 0 <ℤ room }
    requires high { room ≤ℤ pos most_ticks }
    ensures made { IfOk result (IsFilling mode item room rate) }
    ensures fault { IfErr result (IsMisfit mode item room) }
{
    match mode {
        FillMode::Source => Ok(item),
        FillMode::Sequence => cut_to(alloc, item, room, rate),
        FillMode::Fit => fit_to(alloc, item, room, rate),
    }
}
