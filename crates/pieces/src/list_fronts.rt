//! Fronts of lists.

ghost use Rattle.limits.specs.Limits.{most_ticks};
ghost use Rattle.std.specs.Prelude.{◌≡◌, ◌<◌, ◌≤◌, IfErr, IfOk, OnOk, Some, true, []};
ghost use Rattle.std.specs.Prelude.{◌∷◌, ◌++◌, length, pos, ◌≤ℤ◌};
ghost use Rattle.edits.specs.Children as children;
ghost use Rattle.edits.specs.Cuts as cuts;
ghost use Rattle.edits.specs.Children.{is_far, has_far};
ghost use Rattle.pieces.specs.Short.{AreShort};

use crate::cutting::left_piece;
use crate::item_lengths::{member, ticks_of};
use crate::new_ranges::RangedFault;
use otio_model::{Effects, Gap, Item, ItemOf, Markers, Metadata, copy_item};
use sequences::{NamedValues, Text};
use std::alloc::{AllocError, Global};
use tick_time::{Rate, Span, Time};

/// A new gap of so many ticks, which starts at 0, at a rate. [`RangedFault::Range`] comes only
/// where it would be longer than a million seconds.
#[tactic(auto, using(crate::proofs::SameTimes::far_start, crate::proofs::SameTimes::far_length))]
pub fn new_gap(alloc: Global, ticks: i128, rate: Rate) -> Result<Item, RangedFault>
    requires { pos 0 ≤ℤ ticks }
    ensures made { IfOk result (λ gap. children.made rate (children.new_gap ticks) ≡ Some gap) }
    ensures far { IfErr result
        (λ fault. fault ≡ RangedFault.Range → is_far (children.new_gap ticks) ≡ true) }
    ensures range { IfErr result (λ fault. fault ≡ RangedFault.Range) }
{
    let start = match Time::near(0, rate) {
        Ok(time) => time,
        Err(_) => return Err(RangedFault::Range),
    };
    let len = match Time::near(ticks, rate) {
        Ok(time) => time,
        Err(_) => return Err(RangedFault::Range),
    };
    Ok(gap_of(alloc, Span { start, len }))
}

// A gap of a range.
fn gap_of(alloc: Global, range: Span) -> Item
    ensures { result ≡ children.with_range range children.plain_gap }
{
    ItemOf::Gap(Gap {
        metadata: Metadata::new(alloc),
        name: Text::empty(),
        source_range: Some(range),
        effects: Effects::new(alloc),
        markers: Markers::new(alloc),
        enabled: true,
        rest: NamedValues::new(alloc),
    })
}

/// A gap as [`new_gap`] makes it, of a length that lies within a million seconds.
pub fn short_gap(alloc: Global, ticks: i128, rate: Rate) -> Item
    requires low { pos 0 ≤ℤ ticks }
    requires high { ticks ≤ℤ pos most_ticks }
    ensures { children.made rate (children.new_gap ticks) ≡ Some result }
{
    match new_gap(alloc, ticks, rate) {
        Ok(gap) => gap,
        Err(_) => unreachable!(),
    }
}

/// A copy of an item more at the end of a list. An error comes where memory runs out.
pub fn add_copy(alloc: Global, list: &mut Vec<Item>, item: &Item) -> Result<(), AllocError>
    ensures { OnOk result (list.new.items ≡ list.old.items ++ item.now ∷ []) }
{
    let copy = copy_item(alloc, item)?;
    list.push(copy)?;
    Ok(())
}

/// A list with one item more at its end. [`RangedFault::Memory`] comes where memory runs out, and
/// no other error.
pub fn with_last(list: Vec<Item>, item: Item) -> Result<Vec<Item>, RangedFault>
    ensures added { IfOk result (λ all. all.items ≡ list.items ++ item ∷ []) }
    ensures fault { IfErr result (λ fault. fault ≡ RangedFault.Memory) }
{
    let mut list = list;
    match list.push(item) {
        Ok(()) => Ok(list),
        Err(refused) => {
            drop(refused);
            drop(list);
            Err(RangedFault::Memory)
        }
    }
}

/// What of a list starts before `ticks`, the last one cut there, then a gap of the missing length
/// at the record rate `rate`. It doesn't ask whether the cut falls on a whole tick.
/// [`RangedFault::Range`] comes only where a new time is out of range, and [`RangedFault::Memory`]
/// where memory runs out.
pub fn front_items(
    alloc: Global,
    list: &[Item],
    ticks: i128,
    rate: Rate,
) -> Result<Vec<Item>, RangedFault>
    requires low { pos 0 ≤ℤ ticks }
    requires short { AreShort list.now }
    ensures made { IfOk result
        (λ front. children.all_made rate (cuts.front list.now ticks) ≡ Some front.items) }
    ensures far { IfErr result
        (λ fault. fault ≡ RangedFault.Range → has_far (cuts.front list.now ticks) ≡ true) }
{
    let mut done = Vec::new(alloc);
    let mut left = ticks;
    'items: for index in 0..list.len() {
        let item = member(list, index);
        if left <= 0 {
            return Ok(done);
        }
        let length = ticks_of(item);
        if left < length {
            return match left_piece(alloc, item, left, rate) {
                Ok(piece) => with_last(done, piece),
                Err(_) => Err(RangedFault::Memory),
            };
        }
        match add_copy(alloc, &mut done, item) {
            Ok(()) => left -= length,
            Err(_) => return Err(RangedFault::Memory),
        }
    }
    if left <= 0 {
        return Ok(done);
    }
    match new_gap(alloc, left, rate) {
        Ok(gap) => with_last(done, gap),
        Err(fault) => Err(fault),
    }
}
