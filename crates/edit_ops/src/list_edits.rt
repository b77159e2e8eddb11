//! Plans of each of the five edits of lists.

ghost use Rattle.std.specs.Prelude.{◌≡◌, ◌<◌, ◌^◌, cond, pos};
ghost use Rattle.std.specs.Prelude.{◌≤ℤ◌};
ghost use Rattle.limits.specs.Limits.{most_ticks};
ghost use Rattle.otio_model.specs.Counts.{count};
ghost use Rattle.coord.specs.Soundness.{IsSound};
ghost use Rattle.edits_law.specs.Editable.{IsEditItem};
ghost use Rattle.edit_ops.specs.Answered.{IsAnswer, put_edit};

use crate::edit_start::begin;
use crate::item_at::item_held;
use crate::new_items::{
    Filling, Placing, filled, is_empty, item_filling_ticks, item_ticks, left, left_ticks, one,
};
use crate::slots::{Put, slot_from};
use crate::zones::{plan_cuts, plan_zone};
use otio_model::{Edit, EditFault, Patch, Place, RemoveMode, Timeline};
use std::alloc::Global;

// How long the zone of an item of so many ticks is that is put over what is there, or before it.
fn zone_ticks(over: bool, ticks: i128) -> i128
    requires low { pos 0 ≤ℤ ticks }
    requires high { ticks ≤ℤ pos most_ticks }
    ensures value { result ≡ cond over ticks (pos 0) }
    ensures low { pos 0 ≤ℤ result }
    ensures high { result ≤ℤ pos most_ticks }
{
    if over { ticks } else { 0 }
}

/// The plan of an overwrite, or of an insert.
pub(crate) fn plan_put(
    alloc: Global,
    timeline: &Timeline,
    place: Place,
    at: i64,
    placing: Placing,
) -> Result<Patch, EditFault>
    requires sound { IsSound timeline.now }
    requires few { count timeline.now.tracks.children < 2 ^ 32 }
    requires item { IsEditItem placing.item }
    ensures { IsAnswer timeline.now (put_edit placing.over place at placing.item) result }
{
    let moment = match begin(timeline, &place, at) {
        Ok(moment) => moment,
        Err(fault) => {
            drop(placing);
            return Err(fault);
        }
    };
    if is_empty(&placing.item) {
        drop(placing);
        return Err(EditFault::Empty);
    }
    let ticks = item_ticks(&placing.item);
    let slot = slot_from(
        moment.rate,
        moment.instant,
        zone_ticks(placing.over, ticks),
        ticks,
    );
    match one(alloc, placing.item) {
        Ok(new) => plan_cuts(alloc, timeline, Put { place, slot, new }),
        Err(_) => Err(EditFault::Memory),
    }
}

/// The plan of a slice.
pub(crate) fn plan_slice(
    alloc: Global,
    timeline: &Timeline,
    place: Place,
    at: i64,
) -> Result<Patch, EditFault>
    requires sound { IsSound timeline.now }
    requires few { count timeline.now.tracks.children < 2 ^ 32 }
    ensures { IsAnswer timeline.now (Edit.Slice place at) result }
{
    match item_held(timeline, &place, at) {
        Ok(hold) => {
            let slot = slot_from(hold.rate, hold.instant, 0, 0);
            let new = Vec::new(alloc);
            plan_cuts(alloc, timeline, Put { place, slot, new })
        }
        Err(fault) => Err(fault),
    }
}

/// The plan of a fill.
pub(crate) fn plan_fill(
    alloc: Global,
    timeline: &Timeline,
    place: Place,
    at: i64,
    filling: Filling,
) -> Result<Patch, EditFault>
    requires sound { IsSound timeline.now }
    requires few { count timeline.now.tracks.children < 2 ^ 32 }
    requires item { IsEditItem filling.item }
    ensures { IsAnswer timeline.now (Edit.Fill place at filling.mode filling.item) result }
{
    let hold = match item_held(timeline, &place, at) {
        Ok(hold) => hold,
        Err(fault) => {
            drop(filling);
            return Err(fault);
        }
    };
    if !hold.is_gap {
        drop(filling);
        return Err(EditFault::NotGap);
    }
    if is_empty(&filling.item) {
        drop(filling);
        return Err(EditFault::Empty);
    }
    let ticks = item_filling_ticks(filling.mode, &filling.item, hold.ticks);
    let slot = slot_from(hold.rate, hold.from, ticks, ticks);
    match filled(alloc, filling, hold.ticks, hold.rate) {
        Ok(new) => plan_cuts(alloc, timeline, Put { place, slot, new }),
        Err(fault) => Err(fault),
    }
}

/// The plan of a removal.
pub(crate) fn plan_remove(
    alloc: Global,
    timeline: &Timeline,
    place: Place,
    at: i64,
    mode: RemoveMode,
) -> Result<Patch, EditFault>
    requires sound { IsSound timeline.now }
    requires few { count timeline.now.tracks.children < 2 ^ 32 }
    ensures { IsAnswer timeline.now (Edit.Remove place at mode) result }
{
    match item_held(timeline, &place, at) {
        Ok(hold) => {
            let ticks = left_ticks(mode, hold.ticks);
            let slot = slot_from(hold.rate, hold.from, hold.ticks, ticks);
            match left(alloc, mode, hold.ticks, hold.rate) {
                Ok(new) => plan_zone(alloc, timeline, Put { place, slot, new }),
                Err(_) => Err(EditFault::Memory),
            }
        }
        Err(fault) => Err(fault),
    }
}
