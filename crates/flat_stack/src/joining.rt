//! Timelines one after another.

ghost use Rattle.std.specs.Prelude.{◌≡◌, ◌≢◌, ◌<◌, ◌^◌, ◌≤◌, ◌∷◌, [], IfErr, IfNone, IfOk, IfSome};
ghost use Rattle.std.specs.Prelude.{List, map, slice_get, Some, true, ℕ};
ghost use Rattle.tick_time.specs.Rates.{frame};
ghost use Rattle.otio_model.specs.declared.timelines.Timeline.{Timeline as AnyTimeline};
ghost use Rattle.otio_model.specs.Counts.{count};
ghost use Rattle.edits.specs.After.{rate_of};
ghost use Rattle.flat.specs.Answers.{AreFree, AreSound, JoinRefused, Joins};
ghost use Rattle.flat_stack.specs.Inputs.{AreParts, AreStretched, IsWithin, inputs_of};
ghost use Rattle.flat_stack.specs.Portions.{ArePlans};

use crate::counting::are_few;
use crate::faults::{first_fault, input_at};
use crate::givers::givers_of;
use crate::input_tracks::all_seats;
use crate::inputs::{Part, part_of};
use crate::joined_tracks::joined_as;
use crate::planned_tracks::{PlannedTrack, planned_tracks};
use crate::root_children::flat_rate;
use flat::{FlatAt, FlatFault};
use otio_model::Timeline;
use std::alloc::{AllocError, Global};
use tick_time::Rate;

// The inputs with their tracks by kind, at a record rate.
fn parts_of<'a>(
    alloc: Global,
    inputs: &'a [Timeline],
    rate: Rate,
) -> Result<Vec<Part<'a>>, AllocError>
    requires few { (i : ℕ) (t : AnyTimeline) → slice_get inputs.now i ≡ Some t →
        count t.tracks.children < 2 ^ 32 }
    requires sound { AreSound inputs.now }
    requires free { AreFree true inputs.now }
    ensures parts { IfOk result (λ parts. AreParts parts.items) }
    ensures inputs { IfOk result (λ parts. inputs_of parts.items ≡ inputs.now) }
    ensures stretched { IfOk result
        (λ parts. AreStretched (frame rate.num rate.den) parts.items) }
{
    let mut parts: Vec<Part<'a>> = Vec::new(alloc);
    'inputs: for index in 0..inputs.len() {
        let part = match part_of(alloc, input_at(inputs, index), rate) {
            Ok(part) => part,
            Err(error) => return Err(error),
        };
        parts.push(part)?;
    }
    Ok(parts)
}

// The tracks by which inputs are joined, where the joined timeline has so many items at most;
// `None` where it has more.
fn plans_within(
    alloc: Global,
    inputs: &[Timeline],
    most: usize,
) -> Result<Option<Vec<PlannedTrack>>, AllocError>
    requires some { inputs.now ≢ [] }
    requires few { (i : ℕ) (t : AnyTimeline) → slice_get inputs.now i ≡ Some t →
        count t.tracks.children < 2 ^ 32 }
    requires sound { AreSound inputs.now }
    requires free { AreFree true inputs.now }
    ensures { IfOk result (ArePlans inputs.now most) }
{
    let first = input_at(inputs, 0);
    let rate = flat_rate(first);
    let kept = match parts_of(alloc, inputs, rate) {
        Ok(kept) => kept,
        Err(error) => return Err(error),
    };
    let givers = match givers_of(alloc, kept.as_slice()) {
        Ok(givers) => givers,
        Err(error) => return Err(error),
    };
    let found = match all_seats(alloc, givers.parts) {
        Ok(found) => found,
        Err(error) => return Err(error),
    };
    let seats = found.as_slice();
    if !are_few(&givers, seats, most) {
        return Ok(None);
    }
    match planned_tracks(alloc, &givers, seats, rate) {
        Ok(plans) => Ok(Some(plans)),
        Err(error) => Err(error),
    }
}

// The inputs joined, where that has so many items at most; `None` where it has more.
fn joined_within(
    alloc: Global,
    inputs: Vec<Timeline>,
    most: usize,
) -> Result<Option<Timeline>, AllocError>
    requires some { inputs.items ≢ [] }
    requires few { (i : ℕ) (t : AnyTimeline) → slice_get inputs.items i ≡ Some t →
        count t.tracks.children < 2 ^ 32 }
    requires sound { AreSound inputs.items }
    requires free { AreFree true inputs.items }
    ensures { IfOk result (IsWithin inputs.items most) }
{
    match plans_within(alloc, inputs.as_slice(), most) {
        Ok(found) => match found {
            Some(plans) => match joined_as(alloc, inputs, plans) {
                Ok(joined) => Ok(Some(joined)),
                Err(error) => Err(error),
            },
            None => {
                drop(inputs);
                Ok(None)
            }
        },
        Err(error) => {
            drop(inputs);
            Err(error)
        }
    }
}

// Memory ran out, which is no input's fault.
fn no_memory() -> FlatAt
    ensures { result ≡ record { input = 0; fault = FlatFault.Memory } }
{
    FlatAt {
        input: 0,
        fault: FlatFault::Memory,
    }
}

/// The inputs one after another: a track of the joined timeline has the children of the inputs'
/// tracks of one kind and number, and between two inputs a gap for what is missing up to the length
/// of the first of these. An input is as long as its longest root child, up to whole frames of the
/// first input's record rate, and at most a million seconds. All else is the first input's. `None`
/// comes exactly where nothing refuses the inputs and the joined timeline has more than `most`
/// items below its root stack. Else the fault is that of the first input that has one, at its first
/// place in document order: [`FlatFault::Nested`] for a root child that is no track or has a
/// source_range or effects, or [`FlatFault::Transition`] for a transition of an enabled track that
/// reaches an end of its track at which another input stands. [`FlatFault::Memory`] comes where
/// memory runs out, and then the input is 0. The children of the inputs' tracks move.
pub fn join_within(
    alloc: Global,
    inputs: Vec<Timeline>,
    most: u64,
) -> Result<Option<Timeline>, FlatAt>
    requires some { inputs.items ≢ [] }
    requires few { (i : ℕ) (t : AnyTimeline) → slice_get inputs.items i ≡ Some t →
        count t.tracks.children < 2 ^ 32 }
    requires sound { AreSound inputs.items }
    ensures joined { IfOk result (λ joined. IfSome joined
        (λ r. Joins inputs.items r × (count r.tracks.children ≤ most))) }
    ensures large { IfOk result (λ joined. IfNone joined (AreFree true inputs.items ×
        ((r : AnyTimeline) → Joins inputs.items r → most < count r.tracks.children))) }
    ensures refused { IfErr result (JoinRefused inputs.items) }
    ensures memory { IfErr result (λ at. at.fault ≡ FlatFault.Memory → at.input ≡ 0) }
{
    match first_fault(alloc, inputs.as_slice()) {
        Some(fault) => {
            drop(inputs);
            Err(fault)
        }
        None => match joined_within(alloc, inputs, most as usize) {
            Ok(joined) => Ok(joined),
            Err(_) => Err(no_memory()),
        },
    }
}

/// The inputs one after another, as [`join_within`] says it, however many items there are. The
/// fault is [`FlatFault::Nested`] or [`FlatFault::Transition`] of the first input that has one, as
/// there, or [`FlatFault::Memory`] where memory runs out, and then the input is 0.
pub fn join(alloc: Global, inputs: Vec<Timeline>) -> Result<Timeline, FlatAt>
    requires some { inputs.items ≢ [] }
    requires few { (i : ℕ) (t : AnyTimeline) → slice_get inputs.items i ≡ Some t →
        count t.tracks.children < 2 ^ 32 }
    requires sound { AreSound inputs.items }
    ensures joined { IfOk result (Joins inputs.items) }
    ensures refused { IfErr result (JoinRefused inputs.items) }
    ensures memory { IfErr result (λ at. at.fault ≡ FlatFault.Memory → at.input ≡ 0) }
{
    match join_within(alloc, inputs, u64::MAX) {
        Ok(Some(joined)) => Ok(joined),
        Ok(None) => Err(no_memory()),
        Err(fault) => Err(fault),
    }
}
