//! Items between two instants of a track.

ghost use Rattle.std.specs.Prelude.{◌≡◌, ◌<◌, ◌^◌, ◌≤ℤ◌, ◌-ℤ◌, ◌&&◌, pos};
ghost use Rattle.std.specs.Int.{int_max};
ghost use Rattle.otio_model.specs.declared.edit_types.Edit.{Edit as AnyEdit};
ghost use Rattle.otio_model.specs.Counts.{count};
ghost use Rattle.otio_model.specs.Trees.{items_of};
ghost use Rattle.coord.specs.Soundness.{IsSound};
ghost use Rattle.edits.specs.Cuts.{cuts_whole};
ghost use Rattle.edits.specs.Edges.{added};
ghost use Rattle.edits.specs.Refusals.{cuts_ends, pin_fault};
ghost use Rattle.pieces.specs.Short.{AreCuttable};
ghost use Rattle.edit_ops.specs.Zoned as zoned;
ghost use Rattle.edit_ops.specs.Zoned.{IsPutBy, IsTrackAt, cut_fault};
ghost use Rattle.edit_ops.specs.Answered.{IsAnswer};

use crate::slots::{Put, Slot};
use edit_plans::{Zone, can_be_cut, fill_zone, finish, pinned, track_of};
use otio_model::{Children, EditFault, Patch, Timeline};
use pieces::RangedFault;
use std::alloc::Global;

// How long children are, one after another, in ticks.
#[tactic(auto, using(crate::proofs::Totals::totals))]
fn added_ticks(children: &Children) -> u128
    requires few { count children.now < 2 ^ 32 }
    ensures value { pos result ≡ added (items_of children.now) }
    ensures fits { result < 2 ^ 127 }
{
    children.added_ticks()
}

// The same as a signed number.
fn track_ticks(children: &Children) -> i128
    requires few { count children.now < 2 ^ 32 }
    ensures value { result ≡ added (items_of children.now) }
    ensures low { pos 0 ≤ℤ result }
{
    added_ticks(children) as i128
}

// How much of a track of so many ticks stands before an instant, in ticks.
#[tactic(auto, using(crate::proofs::Totals::befores))]
fn ticks_before(total: i128, to: i128) -> i128
    requires total { pos 0 ≤ℤ total }
    requires to { pos 0 ≤ℤ to }
    ensures value { result ≡ total -ℤ int_max (pos 0) (total -ℤ to) }
    ensures low { pos 0 ≤ℤ result }
{
    if to < total { to } else { total }
}

// How much longer a track of so many ticks is with what comes in place of a zone.
fn change(total: i128, slot: Slot) -> i128
    requires { pos 0 ≤ℤ total }
    ensures { result ≡ zoned.change total slot.from slot.ticks slot.to }
{
    slot.from + slot.ticks - ticks_before(total, slot.to)
}

// The patch that puts items into a zone of a track. The fault is that of a result that is too long
// or of one of too many items, and [`EditFault::Memory`] where memory runs out. No earlier test
// refuses the edit.
fn put_zone(alloc: Global, timeline: &Timeline, put: Put) -> Result<Patch, EditFault>
    requires sound { IsSound timeline.now }
    requires few { count timeline.now.tracks.children < 2 ^ 32 }
    requires track { IsTrackAt timeline.now put.place put.slot.rate }
    requires edit { (e : AnyEdit) × IsPutBy timeline.now put zoned.unrefused e }
    ensures { (e : AnyEdit) → IsPutBy timeline.now put zoned.unrefused e →
        IsAnswer timeline.now e result }
{
    let children = track_of(timeline, &put.place);
    let zone = Zone {
        from: put.slot.from,
        to: put.slot.to,
    };
    match fill_zone(alloc, children, zone, put.new, put.slot.rate) {
        Ok(middle) => finish(timeline, put.place, middle),
        Err(fault) => match fault {
            RangedFault::Range => Err(EditFault::TooLong),
            RangedFault::Memory => Err(EditFault::Memory),
        },
    }
}

/// The patch that puts items into a zone of a track. The fault is that of a track that isn't
/// pinned, of a result that is too long or of one of too many items, and [`EditFault::Memory`]
/// where memory runs out.
pub(crate) fn plan_zone(alloc: Global, timeline: &Timeline, put: Put) -> Result<Patch, EditFault>
    requires sound { IsSound timeline.now }
    requires few { count timeline.now.tracks.children < 2 ^ 32 }
    requires track { IsTrackAt timeline.now put.place put.slot.rate }
    requires edit { (e : AnyEdit) × IsPutBy timeline.now put (pin_fault timeline.now) e }
    ensures { (e : AnyEdit) → IsPutBy timeline.now put (pin_fault timeline.now) e →
        IsAnswer timeline.now e result }
{
    let total = track_ticks(track_of(timeline, &put.place));
    let more = change(total, put.slot);
    match pinned(alloc, timeline, &put.place, more) {
        Ok(()) => put_zone(alloc, timeline, put),
        Err(fault) => {
            drop(put);
            Err(fault)
        }
    }
}

// Whether children can be cut at two instants.
fn can_be_cut_twice(children: &Children, slot: Slot) -> bool
    requires few { count children.now < 2 ^ 32 }
    requires faultless { AreCuttable (items_of children.now) }
    ensures { result ≡ (cuts_whole (items_of children.now) slot.from
        && cuts_whole (items_of children.now) slot.to) }
{
    can_be_cut(children, slot.from) && can_be_cut(children, slot.to)
}

// Whether children can be cut at both ends of a zone, without the transitions that it strips.
#[tactic(auto, using(crate::proofs::Stripping::ends_whole))]
fn can_cut_ends(children: &Children, slot: Slot) -> bool
    requires few { count children.now < 2 ^ 32 }
    requires faultless { AreCuttable (items_of children.now) }
    ensures { result ≡ cuts_ends (items_of children.now) slot.from slot.to }
{
    can_be_cut_twice(children, slot)
}

/// The same where what stands at both ends of the zone is cut. [`EditFault::Phase`] comes first,
/// exactly where it can't be.
pub(crate) fn plan_cuts(alloc: Global, timeline: &Timeline, put: Put) -> Result<Patch, EditFault>
    requires sound { IsSound timeline.now }
    requires few { count timeline.now.tracks.children < 2 ^ 32 }
    requires track { IsTrackAt timeline.now put.place put.slot.rate }
    requires edit { (e : AnyEdit) × IsPutBy timeline.now put (cut_fault timeline.now put.slot) e }
    ensures { (e : AnyEdit) → IsPutBy timeline.now put (cut_fault timeline.now put.slot) e →
        IsAnswer timeline.now e result }
{
    if !can_cut_ends(track_of(timeline, &put.place), put.slot) {
        drop(put);
        return Err(EditFault::Phase);
    }
    plan_zone(alloc, timeline, put)
}
