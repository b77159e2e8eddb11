//! Timelines that become one.

ghost use Rattle.std.specs.Prelude.{◌≡◌, ◌≢◌, ◌<◌, ◌≤◌, ◌^◌, [], ◌∷◌, All, IfErr, IfOk, MatchBool};
ghost use Rattle.std.specs.Prelude.{None, Some, length};
ghost use Rattle.limits.specs.Limits.{most_items};
ghost use Rattle.otio_model.specs.Counts.{count};
ghost use Rattle.otio_model.specs.Kept.{capped_count};
ghost use Rattle.coord.specs.Soundness.{IsFaultless};
ghost use Rattle.object_law.specs.Writable.{IsTimeline};
ghost use Rattle.flat_stack.specs.Chains.{Stops, Then, Told};
ghost use Rattle.flat_stack.specs.Gathered as gathers;
ghost use Rattle.flat_stack.specs.Gathered.{IsCheckFault, IsChecked, IsConcat, IsConcatFault};
ghost use Rattle.flat_stack.specs.Gathered.{IsGathered, IsStack, IsStackFault, IsUngathered};
ghost use Rattle.flat_stack.specs.Ready.{IsReady};

use crate::joining::join_within;
use crate::stacking::pile;
use crate::step_faults::{ToolFault, at, unsound};
use command_words::Joining;
use coord::sound;
use limits::MOST_ITEMS;
use otio_model::Timeline;
use std::alloc::Global;

/// The timelines one after another, track by track, with at most 100 000 items. An error tells the
/// first input that can't be joined ([`ToolFault::At`]), or else [`ToolFault::Items`]; or it is
/// [`ToolFault::Memory`] where memory runs out. Whether what comes of them is sound isn't asked.
pub fn concatenated(alloc: Global, inputs: Vec<Timeline>) -> Result<Timeline, ToolFault>
    requires some { inputs.items ≢ [] }
    requires ready { All IsReady inputs.items }
    ensures joined { IfOk result (IsConcat inputs.items) }
    ensures written { IfOk result IsTimeline }
    ensures fault { IfErr result (Told (IsConcatFault inputs.items)) }
{
    match join_within(alloc, inputs, MOST_ITEMS as u64) {
        Ok(Some(joined)) => Ok(joined),
        Ok(None) => Err(ToolFault::Items),
        Err(why) => Err(at(why.input, why.fault)),
    }
}

// The timeline, where it has no fault.
fn checked(alloc: Global, timeline: Timeline) -> Result<Timeline, ToolFault>
    requires few { count timeline.tracks.children < 2 ^ 32 }
    ensures same { IfOk result (λ found. found ≡ timeline) }
    ensures sound { IfOk result IsFaultless }
    ensures fault { IfErr result (Told (IsCheckFault timeline)) }
{
    match sound(alloc, &timeline) {
        Ok(()) => Ok(timeline),
        Err(why) => {
            drop(timeline);
            Err(unsound(why))
        }
    }
}

// The timelines one after another, where that is sound.
fn concatenated_soundly(alloc: Global, inputs: Vec<Timeline>) -> Result<Timeline, ToolFault>
    requires some { inputs.items ≢ [] }
    requires ready { All IsReady inputs.items }
    ensures joined { IfOk result (Then IsConcat IsChecked inputs.items) }
    ensures ready { IfOk result IsReady }
    ensures fault { IfErr result
        (Told (Stops IsConcat IsConcatFault IsCheckFault inputs.items)) }
{
    match concatenated(alloc, inputs) {
        Ok(joined) => match checked(alloc, joined) {
            Ok(sound) => Ok(sound),
            Err(fault) => Err(fault),
        },
        Err(fault) => Err(fault),
    }
}

// How many items timelines have together, up to the greatest number of 64 bits.
fn items_in(inputs: &[Timeline]) -> usize
    ensures { result ≡ capped_count (gathers.items_in inputs.now) }
{
    let mut items: usize = 0;
    'inputs: for input in inputs {
        items = items.saturating_add(input.tracks.children.items_below());
    }
    items
}

// Whether timelines have more than 100 000 items together.
fn are_many(inputs: &[Timeline]) -> bool
    ensures { MatchBool result (most_items < gathers.items_in inputs.now)
        (gathers.items_in inputs.now ≤ most_items) }
{
    items_in(inputs) > MOST_ITEMS
}

// The timelines above each other, with at most 100 000 items. Their items are counted before
// anything moves.
fn stacked(alloc: Global, inputs: Vec<Timeline>) -> Result<Timeline, ToolFault>
    requires some { inputs.items ≢ [] }
    requires ready { All IsReady inputs.items }
    ensures stacked { IfOk result (IsStack inputs.items) }
    ensures ready { IfOk result IsReady }
    ensures fault { IfErr result (Told (IsStackFault inputs.items)) }
{
    if are_many(inputs.as_slice()) {
        drop(inputs);
        return Err(ToolFault::Items);
    }
    match pile(alloc, inputs) {
        Ok(piled) => Ok(piled),
        Err(_) => Err(ToolFault::Memory),
    }
}

// The one timeline that there is.
fn the_one(inputs: Vec<Timeline>) -> Timeline
    requires { length inputs.items ≡ 1 }
    ensures { inputs.items ≡ result ∷ [] }
{
    let mut inputs = inputs;
    inputs.swap_remove(0)
}

// The timelines as one, one after another or above each other.
fn joined_by(alloc: Global, inputs: Vec<Timeline>, joining: Joining) -> Result<Timeline, ToolFault>
    requires some { inputs.items ≢ [] }
    requires ready { All IsReady inputs.items }
    ensures gathered { IfOk result (IsGathered (Some joining) inputs.items) }
    ensures ready { IfOk result IsReady }
    ensures fault { IfErr result (Told (IsUngathered (Some joining) inputs.items)) }
{
    match joining {
        Joining::Concat => concatenated_soundly(alloc, inputs),
        Joining::Stack => stacked(alloc, inputs),
    }
}

/// The timelines as one.
pub(crate) fn gathered(
    alloc: Global,
    inputs: Vec<Timeline>,
    joining: Option<Joining>,
) -> Result<Timeline, ToolFault>
    requires some { inputs.items ≢ [] }
    requires one { joining ≡ None → length inputs.items ≡ 1 }
    requires ready { All IsReady inputs.items }
    ensures gathered { IfOk result (IsGathered joining inputs.items) }
    ensures ready { IfOk result IsReady }
    ensures fault { IfErr result (Told (IsUngathered joining inputs.items)) }
{
    match joining {
        Some(joining) => joined_by(alloc, inputs, joining),
        None => Ok(the_one(inputs)),
    }
}
