//! What comes in place of the children that a zone touches.

ghost use Rattle.std.specs.Prelude.{◌≡◌, ◌<◌, ◌≤◌, ◌^◌, ◌+◌, ◌++◌, IfErr, IfOk, Some, true};
ghost use Rattle.std.specs.Prelude.{List, length, take, drop, pos, ◌≤ℤ◌};
ghost use Rattle.otio_model.specs.Counts.{count};
ghost use Rattle.otio_model.specs.Edits.{replaced};
ghost use Rattle.otio_model.specs.Trees.{items_of};
ghost use Rattle.edits.specs.Children.{Child, all_made, has_far};
ghost use Rattle.edits.specs.Cuts as cuts;
ghost use Rattle.edits.specs.Narrow as narrow;
ghost use Rattle.pieces.specs.Short.{AreCuttable};

use crate::stretches::touched_stretch;
use crate::zone_ends::{zone_back, zone_front};
use otio_model::{Children, Item};
use pieces::{RangedFault, add_copy, is_stripped, sound_ticks};
use std::alloc::{AllocError, Global};
use tick_time::Rate;

/// Children that go, by the index of the first and their number, and what comes in their place.
#[derive(Drop)]
pub struct Middle {
    /// The index of the first that goes.
    pub at: usize,
    /// How many go.
    pub count: usize,
    /// What comes in their place.
    pub put: Vec<Item>,
}

/// Children that stand one after another.
#[derive(Clone, Copy)]
pub struct Stretch {
    /// The index of the first of them.
    pub at: usize,
    /// How many they are.
    pub count: usize,
}

/// A zone of a list: from one instant up to another one, in ticks from the start of the list.
#[derive(Clone, Copy)]
pub struct Zone {
    /// Where it begins.
    pub from: i128,
    /// Where it ends.
    pub to: i128,
    pub ghost low: { pos 0 ≤ℤ from },
    pub ghost forward: { from ≤ℤ to },
    pub ghost high: { to ≤ℤ pos 170141183460469231731687303715884105727 },
}

// Three lists in one.
fn joined(front: Vec<Item>, put: Vec<Item>, back: Vec<Item>) -> Result<Vec<Item>, AllocError>
    ensures { IfOk result (λ all. all.items ≡ front.items ++ (put.items ++ back.items)) }
{
    let mut all = front;
    let mut put = put;
    let mut back = back;
    put.append(&mut back)?;
    all.append(&mut put)?;
    Ok(all)
}

/// Copies of these children without the transitions that a zone strips: those whose overlap has an
/// instant of it, or whose cut lies in it, both ends included. The zone goes from `from` to `to`,
/// in ticks from the start of the first of these children. An error comes where memory runs out.
pub fn kept(
    alloc: Global,
    children: &Children,
    stretch: Stretch,
    from: i128,
    to: i128,
) -> Result<Vec<Item>, AllocError>
    requires few { count children.now < 2 ^ 32 }
    requires there { stretch.at + stretch.count ≤ length (items_of children.now) }
    requires faultless { AreCuttable (items_of children.now) }
    ensures made { IfOk result (λ list. list.items
        ≡ cuts.strip (take stretch.count (drop stretch.at (items_of children.now))) from to) }
    ensures faultless { IfOk result (λ list. AreCuttable list.items) }
{
    let mut kept = Vec::new(alloc);
    let mut start: i128 = 0;
    'children: for index in stretch.at..stretch.at + stretch.count {
        let item = children.child(index);
        if !is_stripped(item, start, from, to) {
            add_copy(alloc, &mut kept, item)?;
            start += sound_ticks(item);
        }
    }
    Ok(kept)
}

/// What comes in place of the children that a zone touches, where the zone's transitions go and
/// these items are put into it. `rate` is the record rate, at which an item without a range is
/// counted. It doesn't ask whether the cuts fall on whole ticks. [`RangedFault::Range`] comes only
/// where a new time is out of range, and [`RangedFault::Memory`] where memory runs out.
pub fn fill_zone(
    alloc: Global,
    children: &Children,
    zone: Zone,
    put: Vec<Item>,
    rate: Rate,
) -> Result<Middle, RangedFault>
    requires few { count children.now < 2 ^ 32 }
    requires faultless { AreCuttable (items_of children.now) }
    ensures made { IfOk result (λ m. (n : List Child) → all_made rate n ≡ Some put.items →
        all_made rate (cuts.put_between (cuts.strip (items_of children.now) zone.from zone.to)
        zone.from n zone.to)
        ≡ Some (replaced m.at m.count m.put.items (items_of children.now))) }
    ensures at { IfOk result
        (λ m. m.at ≡ length (narrow.ahead (items_of children.now) zone.from zone.to)) }
    ensures count { IfOk result
        (λ m. m.count ≡ length (narrow.touched (items_of children.now) zone.from zone.to)) }
    ensures within { IfOk result (λ m. m.at + m.count ≤ length (items_of children.now)) }
    ensures few { IfOk result (λ m. length m.put.items
        ≤ length (narrow.touched (items_of children.now) zone.from zone.to) + 1
        + length put.items) }
    ensures far { IfErr result (λ fault. fault ≡ RangedFault.Range → (n : List Child) → has_far
        (cuts.put_between (cuts.strip (items_of children.now) zone.from zone.to)
        zone.from n zone.to) ≡ true) }
{
    let (stretch, inner) = touched_stretch(children, zone);
    let front = match zone_front(alloc, children, stretch, inner, rate) {
        Ok(front) => front,
        Err(fault) => return Err(fault),
    };
    let back = match zone_back(alloc, children, stretch, inner, rate) {
        Ok(back) => back,
        Err(_) => return Err(RangedFault::Memory),
    };
    match joined(front, put, back) {
        Ok(all) => Ok(Middle {
            at: stretch.at,
            count: stretch.count,
            put: all,
        }),
        Err(_) => Err(RangedFault::Memory),
    }
}
