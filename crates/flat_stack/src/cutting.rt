//! Parts of items between two instants.

ghost use Rattle.std.specs.Prelude.{◌≡◌, ◌<ℤ◌, IfOk, Some, pos, true, option_and_then};
ghost use Rattle.edits.specs.Children as children;
ghost use Rattle.edits.specs.Cuts as cuts;
ghost use Rattle.flat.specs.Pieces as flat_pieces;
ghost use Rattle.pieces.specs.Short.{IsCuttable};

use otio_model::{Item, copy_item};
use pieces::{CutFault, cut, is_whole_at, sound_ticks};
use std::alloc::{AllocError, Global};
use tick_time::Rate;

/// Whether an item can be cut so many ticks from its start, or needn't be.
pub(crate) fn cuts_at(item: &Item, ticks: i128) -> bool
    requires { IsCuttable item.now }
    ensures { result ≡ flat_pieces.cuts_at item.now ticks }
{
    if ticks <= 0 {
        return true;
    }
    if sound_ticks(item) <= ticks {
        return true;
    }
    is_whole_at(item, ticks)
}

// Both parts of an item that is cut so many ticks from its start, on a whole tick of its media.
fn parted(alloc: Global, item: &Item, ticks: i128, rate: Rate) -> Result<(Item, Item), AllocError>
    requires cuttable { IsCuttable item.now }
    requires low { pos 0 <ℤ ticks }
    requires high { ticks <ℤ children.ticks item.now }
    requires whole { flat_pieces.cuts_at item.now ticks ≡ true }
    ensures left { IfOk result
        (λ parts. children.made rate (cuts.left_piece item.now ticks) ≡ Some parts.0) }
    ensures right { IfOk result
        (λ parts. children.made rate (cuts.right_piece item.now ticks) ≡ Some parts.1) }
{
    match cut(alloc, item, ticks, rate) {
        Ok((front, back)) => Ok((front, back)),
        Err(CutFault::Phase) => unreachable!(),
        Err(CutFault::Memory) => Err(AllocError),
    }
}

// What stands of an item up to so many ticks from its start, as a copy.
fn up_to(alloc: Global, item: &Item, ticks: i128, rate: Rate) -> Result<Item, AllocError>
    requires cuttable { IsCuttable item.now }
    requires low { pos 0 <ℤ ticks }
    requires whole { flat_pieces.cuts_at item.now ticks ≡ true }
    ensures { IfOk result (λ front. flat_pieces.up_to rate ticks item.now ≡ Some front) }
{
    if sound_ticks(item) <= ticks {
        let copy = copy_item(alloc, item)?;
        return Ok(copy);
    }
    match parted(alloc, item, ticks, rate) {
        Ok((front, back)) => {
            drop(back);
            Ok(front)
        }
        Err(error) => Err(error),
    }
}

// What stands of an item from so many ticks from its start on.
fn from_on(alloc: Global, item: Item, ticks: i128, rate: Rate) -> Result<Item, AllocError>
    requires cuttable { IsCuttable item }
    requires high { pos 0 <ℤ ticks → ticks <ℤ children.ticks item }
    requires whole { flat_pieces.cuts_at item ticks ≡ true }
    ensures { IfOk result (λ back. flat_pieces.from_on rate ticks item ≡ Some back) }
{
    if ticks <= 0 {
        return Ok(item);
    }
    match parted(alloc, &item, ticks, rate) {
        Ok((front, back)) => {
            drop(front);
            drop(item);
            Ok(back)
        }
        Err(error) => {
            drop(item);
            Err(error)
        }
    }
}

/// A copy of what stands of an item from one instant up to another, counted from its start: cut at
/// the second and then at the first. `rate` is the record rate, at which an item without a range is
/// counted. An error comes where memory runs out.
pub(crate) fn part(
    alloc: Global,
    item: &Item,
    from: i128,
    to: i128,
    rate: Rate,
) -> Result<Item, AllocError>
    requires cuttable { IsCuttable item.now }
    requires low { pos 0 <ℤ to }
    requires wide { from <ℤ to }
    requires high { pos 0 <ℤ from → from <ℤ children.ticks item.now }
    requires first { flat_pieces.cuts_at item.now from ≡ true }
    requires last { flat_pieces.cuts_at item.now to ≡ true }
    ensures { IfOk result (λ part. option_and_then (flat_pieces.from_on rate from)
        (flat_pieces.up_to rate to item.now) ≡ Some part) }
{
    let front = up_to(alloc, item, to, rate)?;
    let part = from_on(alloc, front, from, rate)?;
    Ok(part)
}
