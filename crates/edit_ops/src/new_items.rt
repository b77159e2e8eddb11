//! What the five edits of lists put into a track: the items themselves, pieces of them, and gaps.

ghost use Rattle.std.specs.Prelude.{◌≡◌, ◌≢◌, ◌<◌, ◌≤◌, ◌≤ℤ◌, ◌<ℤ◌, pos, true, false};
ghost use Rattle.std.specs.Prelude.{[], ◌∷◌, length, IfErr, IfOk, Some};
ghost use Rattle.limits.specs.Limits.{most_ticks};
ghost use Rattle.otio_model.specs.declared.edit_types.EditFault.TheVariants.{Memory};
ghost use Rattle.edits.specs.Children as children;
ghost use Rattle.edits.specs.Children.{all_made};
ghost use Rattle.edits_law.specs.Editable.{IsEditItem};
ghost use Rattle.edits.specs.Edges as edges;
ghost use Rattle.edits.specs.Edits as edits;
ghost use Rattle.edits.specs.Refusals.{cuts_filling};
ghost use Rattle.edit_plans.specs.Filled.{is_wrong};
ghost use Rattle.edit_ops.specs.Zoned.{in_place, in_place_ticks, misfit};
ghost use Rattle.edit_ops.specs.Zoned as zoned;

use edit_plans::{FillFault, fill, filling_ticks, is_nothing};
use otio_model::{EditFault, FillMode, Item, RemoveMode};
use pieces::{short_gap, ticks_of};
use std::alloc::{AllocError, Global};
use tick_time::Rate;

/// An item that comes over what is there, or before it.
#[derive(Drop)]
pub(crate) struct Placing {
    /// The item.
    pub(crate) item: Item,
    /// Whether it comes over what is there.
    pub(crate) over: bool,
}

/// An item that fills a gap.
#[derive(Drop)]
pub(crate) struct Filling {
    /// The item.
    pub(crate) item: Item,
    /// How it fills the gap.
    pub(crate) mode: FillMode,
}

/// A list of one item.
pub(crate) fn one(alloc: Global, item: Item) -> Result<Vec<Item>, AllocError>
    ensures { IfOk result (λ list. list.items ≡ item ∷ []) }
{
    let mut list = Vec::new(alloc);
    list.push(item)?;
    Ok(list)
}

/// How long an item is that may be put into a track, in ticks.
#[tactic(auto, using(crate::proofs::Items::short_items))]
pub(crate) fn item_ticks(item: &Item) -> i128
    requires { IsEditItem item.now }
    ensures value { result ≡ children.ticks item.now }
    ensures low { pos 0 ≤ℤ result }
    ensures high { result ≤ℤ pos most_ticks }
{
    ticks_of(item)
}

/// Whether an item that may be put into a track has no length.
#[tactic(auto, using(crate::proofs::Items::short_items))]
pub(crate) fn is_empty(item: &Item) -> bool
    requires { IsEditItem item.now }
    ensures { result ≡ edges.is_zero (children.ticks item.now) }
{
    is_nothing(item)
}

/// How long what fills a gap of so many ticks is.
#[tactic(auto, using(crate::proofs::Items::short_items))]
pub(crate) fn item_filling_ticks(mode: FillMode, item: &Item, room: i128) -> i128
    requires item { IsEditItem item.now }
    requires low { pos 0 ≤ℤ room }
    requires high { room ≤ℤ pos most_ticks }
    ensures value { result ≡ children.child_ticks (edits.filling mode item.now room) }
    ensures low { pos 0 ≤ℤ result }
    ensures high { result ≤ℤ pos most_ticks }
{
    filling_ticks(mode, item, room)
}

// Why an item doesn't fill a gap, as the fault of its edit.
fn told(fault: FillFault) -> EditFault
    ensures { result ≡ zoned.told fault }
{
    match fault {
        FillFault::Speed => EditFault::Speed,
        FillFault::Phase => EditFault::Phase,
        FillFault::Memory => EditFault::Memory,
    }
}

/// What fills a gap of so many ticks, as a list. [`EditFault::Speed`] comes exactly where it would
/// have no speed that there is, else [`EditFault::Phase`] exactly where it can't be cut, and
/// [`EditFault::Memory`] where memory runs out.
pub(crate) fn filled(
    alloc: Global,
    filling: Filling,
    room: i128,
    rate: Rate,
) -> Result<Vec<Item>, EditFault>
    requires item { IsEditItem filling.item }
    requires low { pos 0 <ℤ room }
    requires high { room ≤ℤ pos most_ticks }
    ensures right { IfOk result (λ _. is_wrong filling.mode filling.item room ≡ false) }
    ensures whole { IfOk result (λ _. cuts_filling filling.mode filling.item room ≡ true) }
    ensures made { IfOk result (λ put.
        all_made rate (edits.filling filling.mode filling.item room ∷ []) ≡ Some put.items) }
    ensures few { IfOk result (λ put. length put.items ≡ 1) }
    ensures fault { IfErr result (λ fault. fault ≢ Memory →
        misfit filling.mode filling.item room (Some EditFault.Memory) ≡ Some fault) }
{
    match fill(alloc, filling.mode, filling.item, room, rate) {
        Ok(item) => match one(alloc, item) {
            Ok(put) => Ok(put),
            Err(_) => Err(EditFault::Memory),
        },
        Err(fault) => Err(told(fault)),
    }
}

/// How long what comes in place of an item that is removed is.
pub(crate) fn left_ticks(mode: RemoveMode, ticks: i128) -> i128
    requires low { pos 0 ≤ℤ ticks }
    ensures value { result ≡ in_place_ticks mode ticks }
    ensures low { pos 0 ≤ℤ result }
    ensures high { result ≤ℤ ticks }
{
    match mode {
        RemoveMode::Gap => ticks,
        RemoveMode::Close => 0,
    }
}

/// A gap in place of an item that is removed, or nothing.
pub(crate) fn left(
    alloc: Global,
    mode: RemoveMode,
    ticks: i128,
    rate: Rate,
) -> Result<Vec<Item>, AllocError>
    requires low { pos 0 ≤ℤ ticks }
    requires high { ticks ≤ℤ pos most_ticks }
    ensures made { IfOk result (λ put. all_made rate (in_place mode ticks) ≡ Some put.items) }
    ensures few { IfOk result (λ put. length put.items ≤ 1) }
{
    match mode {
        RemoveMode::Gap => one(alloc, short_gap(alloc, ticks, rate)),
        RemoveMode::Close => Ok(Vec::new(alloc)),
    }
}
