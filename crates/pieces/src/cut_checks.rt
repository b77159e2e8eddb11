//! Whether lists can be cut.

ghost use Rattle.limits.specs.Limits.{most_ticks};
ghost use Rattle.std.specs.Prelude.{◌≡◌, ◌<◌, ◌≤◌, IfErr, IfOk, Some, true, false, pos};
ghost use Rattle.std.specs.Prelude.{◌≤ℤ◌, ◌≢◌};
ghost use Rattle.edits.specs.Children as children;
ghost use Rattle.edits.specs.Cuts as cuts;
ghost use Rattle.pieces.specs.Short.{AreCuttable};

use crate::cutting::{CutFault, is_whole_at};
use crate::item_lengths::{member, sound_ticks};
use crate::list_backs::back_items;
use crate::list_fronts::front_items;
use crate::new_ranges::out_of_memory;
use otio_model::Item;
use std::alloc::Global;
use tick_time::Rate;

/// Whether what `ticks` cuts of a list can be cut there: on a whole tick of its media.
pub fn cuts_whole(list: &[Item], ticks: i128) -> bool
    requires low { pos 0 ≤ℤ ticks }
    requires faultless { AreCuttable list.now }
    ensures { result ≡ cuts.cuts_whole list.now ticks }
{
    let mut left = ticks;
    'items: for index in 0..list.len() {
        let item = member(list, index);
        if left <= 0 {
            return true;
        }
        let length = sound_ticks(item);
        if left < length {
            return is_whole_at(item, left);
        }
        left -= length;
    }
    true
}

/// What of a list starts before `ticks`, the last one cut there, then a gap of the missing length.
/// `rate` is the record rate. [`CutFault::Phase`] comes exactly where what is cut can't be cut
/// there, and [`CutFault::Memory`] where memory runs out.
pub fn front(alloc: Global, list: &[Item], ticks: i128, rate: Rate) -> Result<Vec<Item>, CutFault>
    requires low { pos 0 ≤ℤ ticks }
    requires high { ticks ≤ℤ pos most_ticks }
    requires faultless { AreCuttable list.now }
    ensures made { IfOk result
        (λ front. children.all_made rate (cuts.front list.now ticks) ≡ Some front.items) }
    ensures whole { IfOk result (λ _. cuts.cuts_whole list.now ticks ≡ true) }
    ensures fault { IfErr result
        (λ fault. fault ≢ CutFault.Memory → (fault ≡ CutFault.Phase) ×
        (cuts.cuts_whole list.now ticks ≡ false)) }
{
    if !cuts_whole(list, ticks) {
        return Err(CutFault::Phase);
    }
    match front_items(alloc, list, ticks, rate) {
        Ok(front) => Ok(front),
        Err(fault) => {
            out_of_memory(fault);
            Err(CutFault::Memory)
        }
    }
}

/// The right piece of what `ticks` cuts of a list, then what starts there or later. `rate` is the
/// record rate. [`CutFault::Phase`] comes exactly where what is cut can't be cut there, and
/// [`CutFault::Memory`] where memory runs out.
pub fn back(alloc: Global, list: &[Item], ticks: i128, rate: Rate) -> Result<Vec<Item>, CutFault>
    requires low { pos 0 ≤ℤ ticks }
    requires high { ticks ≤ℤ pos most_ticks }
    requires faultless { AreCuttable list.now }
    ensures made { IfOk result
        (λ back. children.all_made rate (cuts.back list.now ticks) ≡ Some back.items) }
    ensures whole { IfOk result (λ _. cuts.cuts_whole list.now ticks ≡ true) }
    ensures fault { IfErr result
        (λ fault. fault ≢ CutFault.Memory → (fault ≡ CutFault.Phase) ×
        (cuts.cuts_whole list.now ticks ≡ false)) }
{
    if !cuts_whole(list, ticks) {
        return Err(CutFault::Phase);
    }
    match back_items(alloc, list, ticks, rate) {
        Ok(back) => Ok(back),
        Err(_) => Err(CutFault::Memory),
    }
}
