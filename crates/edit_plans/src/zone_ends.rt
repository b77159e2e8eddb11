//! What of the touched children stays at both ends of a zone.
//!
//! Only children that reach one of the ends are copied: those inside the zone go.

ghost use Rattle.std.specs.Prelude.{◌≡◌, ◌+◌, ◌<◌, ◌≤◌, ◌^◌, IfErr, IfOk, Some, true, length};
ghost use Rattle.std.specs.Prelude.{drop, take};
ghost use Rattle.otio_model.specs.Counts.{count};
ghost use Rattle.otio_model.specs.Trees.{items_of};
ghost use Rattle.edits.specs.Children.{all_made, has_far};
ghost use Rattle.edits.specs.Cuts.{back, front, strip};
ghost use Rattle.pieces.specs.Short.{AreCuttable};
ghost use Rattle.edit_plans.specs.Touched.{AreEnded};

use crate::replaced_children::{Stretch, Zone, kept};
use crate::touched_children::{Passed, child};
use otio_model::{Children, Item};
use pieces::{RangedFault, back_items, front_items, sound_ticks};
use std::alloc::{AllocError, Global};
use tick_time::Rate;

// The first of some children that end before an instant, which is counted from where they start.
fn ended_before(children: &Children, stretch: Stretch, instant: i128) -> Passed
    requires few { count children.now < 2 ^ 32 }
    requires there { stretch.at + stretch.count ≤ length (items_of children.now) }
    requires faultless { AreCuttable (items_of children.now) }
    ensures { AreEnded (take stretch.count (drop stretch.at (items_of children.now))) instant
        result.count result.ticks }
{
    let mut passed = Passed { count: 0, ticks: 0 };
    'children: while passed.count < stretch.count {
        let end = passed.ticks + sound_ticks(child(children, stretch.at + passed.count));
        if end >= instant {
            return passed;
        }
        passed = Passed {
            count: passed.count + 1,
            ticks: end,
        };
    }
    passed
}

/// What stands before a zone of touched children, without those that it strips, the last one cut
/// where the zone begins. It doesn't ask whether the cut falls on a whole tick.
/// [`RangedFault::Range`] comes only where a new time is out of range, and [`RangedFault::Memory`]
/// where memory runs out.
pub(crate) fn zone_front(
    alloc: Global,
    children: &Children,
    stretch: Stretch,
    zone: Zone,
    rate: Rate,
) -> Result<Vec<Item>, RangedFault>
    requires few { count children.now < 2 ^ 32 }
    requires there { stretch.at + stretch.count ≤ length (items_of children.now) }
    requires faultless { AreCuttable (items_of children.now) }
    ensures made { IfOk result (λ made. all_made rate
        (front (strip (take stretch.count (drop stretch.at (items_of children.now)))
        zone.from zone.to) zone.from) ≡ Some made.items) }
    ensures far { IfErr result (λ fault. fault ≡ RangedFault.Range → has_far
        (front (strip (take stretch.count (drop stretch.at (items_of children.now)))
        zone.from zone.to) zone.from) ≡ true) }
{
    let ended = ended_before(children, stretch, zone.from);
    let near = Stretch {
        at: stretch.at,
        count: stretch.count.min(ended.count + 1),
    };
    match kept(alloc, children, near, zone.from, zone.to) {
        Ok(list) => {
            let front = front_items(alloc, list.as_slice(), zone.from, rate);
            drop(list);
            front
        }
        Err(_) => Err(RangedFault::Memory),
    }
}

/// What stands after a zone of touched children, without those that it strips, the first one cut
/// where the zone ends. It doesn't ask whether the cut falls on a whole tick. An error comes where
/// memory runs out.
pub(crate) fn zone_back(
    alloc: Global,
    children: &Children,
    stretch: Stretch,
    zone: Zone,
    rate: Rate,
) -> Result<Vec<Item>, AllocError>
    requires few { count children.now < 2 ^ 32 }
    requires there { stretch.at + stretch.count ≤ length (items_of children.now) }
    requires faultless { AreCuttable (items_of children.now) }
    ensures { IfOk result (λ made. all_made rate
        (back (strip (take stretch.count (drop stretch.at (items_of children.now)))
        zone.from zone.to) zone.to) ≡ Some made.items) }
{
    let ended = ended_before(children, stretch, zone.to);
    let late = Stretch {
        at: stretch.at + ended.count,
        count: stretch.count - ended.count,
    };
    let from = zone.from - ended.ticks;
    let to = zone.to - ended.ticks;
    match kept(alloc, children, late, from, to) {
        Ok(list) => {
            let back = back_items(alloc, list.as_slice(), to, rate);
            drop(list);
            back
        }
        Err(error) => Err(error),
    }
}
