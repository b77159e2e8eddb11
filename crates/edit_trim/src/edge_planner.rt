//! Plans of the five edits of edges.

ghost use Rattle.std.specs.Prelude.{◌≡◌, ◌≢◌, ◌<◌, ◌≤◌, ◌^◌, ◌+◌, ◌⊎◌, ℕ, IfErr, IfNone, IfOk};
ghost use Rattle.std.specs.Prelude.{IfSome, None, Some, false, true, length, pos};
ghost use Rattle.std.specs.Prelude.{◌≤ℤ◌, ◌<ℤ◌, ◌*ℤ◌};
ghost use Rattle.otio_model.specs.declared.edit_types.Edit.{Edit as AnyEdit};
ghost use Rattle.otio_model.specs.Counts.{count as tally};
ghost use Rattle.otio_model.specs.Edits.{replaced};
ghost use Rattle.otio_model.specs.Patches.{applied};
ghost use Rattle.otio_model.specs.Trees.{items_of};
ghost use Rattle.coord.specs.Soundness.{IsSound};
ghost use Rattle.edits.specs.Children.{all_made, has_far, ticks as child_ticks};
ghost use Rattle.edits.specs.Edges.{Held};
ghost use Rattle.edits.specs.Refusals as refusals;
ghost use Rattle.edits.specs.Refusals.{IsRefused};
ghost use Rattle.pieces.specs.Short.{AreCuttable};
ghost use Rattle.edit_plans.specs.Bounds.{IsMove};
ghost use Rattle.edit_plans.specs.Planned.{is_list_edit, IsMiddle, IsPlan, ShowsThrough};
ghost use Rattle.edit_trim.specs.Asked.{edit_of};
ghost use Rattle.edit_trim.specs.Founds.{HasNeighbours, IsFound, IsNoItem, IsNoNeighbour};
ghost use Rattle.edit_trim.specs.Founds.{IsSuited, LacksNeighbour, motion_touches};
ghost use Rattle.edit_trim.specs.Motions.{IsMotion, growth_of, motion_list};
ghost use Rattle.edit_trim.specs.Plans.{IsPlanned, IsPlannedBy};
ghost use Rattle.edit_trim.specs.Seats.{IsAt};
ghost use Rattle.edit_trim.specs.declared.edge_moves.Motion.TheVariants as moves;

use crate::adjacent_items::item_before;
use crate::edge_edits::{EdgeEdit, parts_of};
use crate::edge_moves::{Motion, in_ticks, ripple, roll, slide, slip, trim};
use crate::replacements::reshaped;
use crate::resized_items::{Change, Making, changed};
use crate::retimes::retimes;
use edit_plans::{
    Middle, Retiming, child, edit_rate, finish, finish_ranges, frame_at, held, pinned, place_fault,
    track_of,
};
use otio_model::{Children, Edit, EditFault, Patch, Place, Seat, Timeline};
use pieces::RangedFault;
use std::alloc::Global;

/// Where the held item stands, and what an edit does to it.
#[derive(Clone, Copy)]
struct Found {
    seat: Seat,
    motion: Motion,
}

// What an edit does to the item at a seat; none where nothing stands beside it and has to.
fn motion_at(children: &Children, frame: i128, seat: Seat, edges: EdgeEdit) -> Option<Motion>
    requires few { tally children.now < 2 ^ 32 }
    requires faultless { AreCuttable (items_of children.now) }
    requires low { pos 1 ≤ℤ frame }
    requires high { frame ≤ℤ pos 705600000000000000 }
    requires there { seat.index < length (items_of children.now) }
    requires start_low { pos 0 ≤ℤ seat.start }
    requires start_high { seat.start ≤ℤ pos 10000000000000000000000000000000000000 }
    ensures motion { IfSome result (λ motion. (n : ℕ) (h : Held) → frame ≡ pos n
        → IsAt (items_of children.now) seat h → pos 0 <ℤ child_ticks h.item
        → IsMotion (pos n) edges h motion) }
    ensures beside { IfSome result (λ motion. (h : Held)
        → IsAt (items_of children.now) seat h → HasNeighbours edges h) }
    ensures none { IfNone result ((h : Held) → IsAt (items_of children.now) seat h
        → LacksNeighbour edges h) }
{
    let item = child(children, seat.index);
    match edges {
        EdgeEdit::Slip { by } => Some(slip(frame, item, by)),
        EdgeEdit::Ripple { head, tail } => Some(ripple(frame, seat.start, item, head, tail)),
        EdgeEdit::Slide { by } => match item_before(children, seat.index) {
            Some(before) => Some(slide(frame, seat.start, before, by)),
            None => None,
        },
        EdgeEdit::Trim { head, tail } => Some(trim(children, frame, seat, head, tail)),
        EdgeEdit::Roll { head, tail } => roll(children, frame, seat, head, tail),
    }
}

// The item that an edit asks for, and what the edit does to it.
fn seek(children: &Children, frame: i128, at: i64, edges: EdgeEdit) -> Result<Found, EditFault>
    requires few { tally children.now < 2 ^ 32 }
    requires faultless { AreCuttable (items_of children.now) }
    requires low { pos 1 ≤ℤ frame }
    requires high { frame ≤ℤ pos 705600000000000000 }
    ensures found { IfOk result (λ found. (n : ℕ) → frame ≡ pos n
        → IsFound (pos n) edges (items_of children.now) (at *ℤ frame) found.seat found.motion) }
    ensures near { IfOk result (λ found.
        found.seat.start ≤ℤ pos 10000000000000000000000000000000000000) }
    ensures fault { IfErr result (λ fault. IsNoItem (items_of children.now) (at *ℤ frame) fault
        ⊎ IsNoNeighbour edges (items_of children.now) (at *ℤ frame) fault) }
{
    match held(children, in_ticks(frame, at)) {
        Some(seat) => match motion_at(children, frame, seat, edges) {
            Some(motion) => Ok(Found { seat, motion }),
            None => Err(EditFault::NoNeighbour),
        },
        None => Err(EditFault::NoItem),
    }
}

// What comes in place of an item that slips.
fn slipped_at(
    making: Making,
    children: &Children,
    seat: Seat,
    by: i128,
) -> Result<Middle, RangedFault>
    requires faultless { AreCuttable (items_of children.now) }
    requires there { seat.index < length (items_of children.now) }
    requires by { IsMove by }
    ensures made { IfOk result (λ m. (h : Held) → IsAt (items_of children.now) seat h
        → all_made making.rate (motion_list (moves.Media by) h)
        ≡ Some (replaced m.at m.count m.put.items (items_of children.now))) }
    ensures within { IfOk result (λ m. m.at + m.count ≤ length (items_of children.now)) }
    ensures count { IfOk result (λ m. m.count ≤ 2) }
    ensures few { IfOk result (λ m. length m.put.items ≤ 4) }
    ensures far { IfErr result (λ fault. fault ≡ RangedFault.Range → (h : Held)
        → IsAt (items_of children.now) seat h
        → has_far (motion_list (moves.Media by) h) ≡ true) }
{
    let item = child(children, seat.index);
    match changed(making, item, Change::Slip { by }) {
        Ok(put) => Ok(Middle {
            at: seat.index,
            count: 1,
            put,
        }),
        Err(fault) => Err(fault),
    }
}

// What comes in place of the children that a motion touches. [`RangedFault::Range`] comes only
// where a new time is out of range, and [`RangedFault::Memory`] where memory runs out.
fn middle_of(
    making: Making,
    children: &Children,
    seat: Seat,
    motion: Motion,
) -> Result<Middle, RangedFault>
    requires few { tally children.now < 2 ^ 32 }
    requires faultless { AreCuttable (items_of children.now) }
    requires held { IsSuited (items_of children.now) seat motion }
    requires start { seat.start ≤ℤ pos 10000000000000000000000000000000000000 }
    ensures made { IfOk result (λ m. (h : Held) → IsAt (items_of children.now) seat h
        → all_made making.rate (motion_list motion h)
        ≡ Some (replaced m.at m.count m.put.items (items_of children.now))) }
    ensures within { IfOk result (λ m. m.at + m.count ≤ length (items_of children.now)) }
    ensures count { IfOk result (λ m.
        m.count ≤ motion_touches (items_of children.now) motion + 2) }
    ensures few { IfOk result (λ m.
        length m.put.items ≤ motion_touches (items_of children.now) motion + 4) }
    ensures far { IfErr result (λ fault. fault ≡ RangedFault.Range → (h : Held)
        → IsAt (items_of children.now) seat h → has_far (motion_list motion h) ≡ true) }
{
    match motion {
        Motion::Media { by } => slipped_at(making, children, seat, by),
        Motion::Edges { zone, shape, .. } => reshaped(making, children, seat, zone, shape)
    }
}

// By how much a motion makes a track longer, in ticks.
fn growth(motion: Motion) -> i128
    ensures { result ≡ growth_of motion }
{
    match motion {
        Motion::Media { .. } => 0,
        Motion::Edges { growth, .. } => growth,
    }
}

/// What an edit makes of the children that it touches.
#[derive(Drop)]
enum Plan {
    /// Others in their place.
    Others(Middle),
    /// Other source ranges, and nothing else.
    Ranges(Retiming),
}

// What a motion makes of the children that it touches. [`RangedFault::Range`] comes only where a
// new time is out of range, and [`RangedFault::Memory`] where memory runs out.
fn planned_by(
    making: Making,
    children: &Children,
    seat: Seat,
    motion: Motion,
) -> Result<Plan, RangedFault>
    requires few { tally children.now < 2 ^ 32 }
    requires faultless { AreCuttable (items_of children.now) }
    requires held { IsSuited (items_of children.now) seat motion }
    requires start { seat.start ≤ℤ pos 10000000000000000000000000000000000000 }
    ensures made { IfOk result (IsPlannedBy making.rate (items_of children.now) seat motion) }
    ensures far { IfErr result (λ fault. fault ≡ RangedFault.Range → (h : Held)
        → IsAt (items_of children.now) seat h → has_far (motion_list motion h) ≡ true) }
{
    match retimes(making, children, seat, motion) {
        Ok(Some(retiming)) => Ok(Plan::Ranges(retiming)),
        Ok(None) => match middle_of(making, children, seat, motion) {
            Ok(middle) => Ok(Plan::Others(middle)),
            Err(fault) => Err(fault),
        },
        Err(fault) => Err(fault),
    }
}

// What an edit makes of the children that it touches, where nothing refuses it up to the result's
// times.
fn planned(
    alloc: Global,
    timeline: &Timeline,
    place: &Place,
    at: i64,
    edges: EdgeEdit,
) -> Result<Plan, EditFault>
    requires sound { IsSound timeline.now }
    requires few { tally timeline.now.tracks.children < 2 ^ 32 }
    requires there { refusals.place_fault place.now timeline.now ≡ None }
    requires low { pos 0 ≤ℤ at }
    ensures plan { IfOk result (IsPlanned timeline.now (edit_of place.now at edges) place.now) }
    ensures fault { IfErr result (λ fault. fault ≢ EditFault.Memory
        → IsRefused timeline.now (edit_of place.now at edges) fault) }
{
    let children = track_of(timeline, place);
    let rate = edit_rate(timeline);
    let found = match seek(children, frame_at(rate), at, edges) {
        Ok(found) => found,
        Err(fault) => return Err(fault),
    };
    match pinned(alloc, timeline, place, growth(found.motion)) {
        Ok(()) => {}
        Err(fault) => return Err(fault),
    }
    match planned_by(Making { alloc, rate }, children, found.seat, found.motion) {
        Ok(made) => Ok(made),
        Err(RangedFault::Range) => Err(EditFault::TooLong),
        Err(RangedFault::Memory) => Err(EditFault::Memory),
    }
}

// The patch that makes this of the children, or why the result is refused.
fn finished(timeline: &Timeline, place: Place, plan: Plan) -> Result<Patch, EditFault>
    requires sound { IsSound timeline.now }
    requires few { tally timeline.now.tracks.children < 2 ^ 32 }
    requires edit { (e : AnyEdit) × IsPlanned timeline.now e place plan }
    ensures plan { IfOk result (λ patch. (e : AnyEdit) → IsPlanned timeline.now e place plan →
        IsPlan timeline.now e patch) }
    ensures fault { IfErr result (λ fault. (e : AnyEdit) → IsPlanned timeline.now e place plan →
        IsRefused timeline.now e fault) }
{
    match plan {
        Plan::Others(middle) => finish(timeline, place, middle),
        Plan::Ranges(retiming) => finish_ranges(timeline, place, retiming),
    }
}

// The patch that does an edit in its parts.
fn plan_parts_of(
    alloc: Global,
    timeline: &Timeline,
    place: Place,
    at: i64,
    edges: EdgeEdit,
) -> Result<Patch, EditFault>
    requires sound { IsSound timeline.now }
    requires few { tally timeline.now.tracks.children < 2 ^ 32 }
    ensures plan { IfOk result (IsPlan timeline.now (edit_of place at edges)) }
    ensures fault { IfErr result (λ fault. fault ≢ EditFault.Memory
        → IsRefused timeline.now (edit_of place at edges) fault) }
{
    match place_fault(timeline, &place) {
        Some(fault) => return Err(fault),
        None => {}
    }
    if at < 0 {
        return Err(EditFault::Negative);
    }
    match planned(alloc, timeline, &place, at, edges) {
        Ok(made) => finished(timeline, place, made),
        Err(fault) => Err(fault),
    }
}

/// The patch that does one of the five edits of edges, or the first fault of the edit, in the order
/// of [`EditFault`]'s variants. [`EditFault::Memory`] may come at any point.
pub fn plan_trim(alloc: Global, timeline: &Timeline, edit: Edit) -> Result<Patch, EditFault>
    requires sound { IsSound timeline.now }
    requires few { tally timeline.now.tracks.children < 2 ^ 32 }
    requires group { is_list_edit edit ≡ false }
    ensures plan { IfOk result (IsPlan timeline.now edit) }
    ensures law { IfOk result (λ p. ShowsThrough timeline.now edit (applied p timeline.now)) }
    ensures fault { IfErr result
        (λ fault. fault ≢ EditFault.Memory → IsRefused timeline.now edit fault) }
{
    let asked = parts_of(edit);
    plan_parts_of(alloc, timeline, asked.place, asked.at, asked.edges)
}
