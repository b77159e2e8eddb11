//! Which input can't be joined, and why.

ghost use Rattle.std.specs.Prelude.{◌≡◌, ◌<◌, ◌^◌, IfNone, IfSome, length, slice_get, Some, true};
ghost use Rattle.std.specs.Prelude.{ℕ};
ghost use Rattle.otio_model.specs.declared.timelines.Timeline.{Timeline as AnyTimeline};
ghost use Rattle.otio_model.specs.Counts.{count};
ghost use Rattle.flat.specs.Answers.{AreFree, AreSound, JoinRefused};
ghost use Rattle.flat_stack.specs.Spots.{IsNear, IsSaid};
ghost use Rattle.flat_stack.specs.Blocking.{TellsInput};

use crate::fault_places::{Spot, fault_of};
use crate::join_checks::input_fault;
use flat::{FlatAt, FlatFault};
use otio_model::Timeline;
use std::alloc::Global;

/// The input of an index that isn't past the end.
#[tactic(auto, using(crate::proofs::RunLemmas::at_index))]
pub(crate) fn input_at(inputs: &[Timeline], index: usize) -> &Timeline
    requires { index < length inputs.now }
    ensures { slice_get inputs.now index ≡ Some result.now }
{
    &inputs[index]
}

// The fault at a spot of an input; where memory runs out, the input is 0.
fn told(alloc: Global, input: usize, spot: Spot) -> FlatAt
    requires { IsNear spot }
    ensures said { IsSaid spot result.fault }
    ensures input { TellsInput input result.fault result.input }
{
    match fault_of(alloc, spot) {
        FlatFault::Nested(place) => FlatAt {
            input,
            fault: FlatFault::Nested(place),
        },
        FlatFault::Transition(place) => FlatAt {
            input,
            fault: FlatFault::Transition(place),
        },
        FlatFault::Phase(place) => FlatAt {
            input,
            fault: FlatFault::Phase(place),
        },
        FlatFault::Range => FlatAt {
            input,
            fault: FlatFault::Range,
        },
        FlatFault::Memory => FlatAt {
            input: 0,
            fault: FlatFault::Memory,
        },
    }
}

/// The first fault of the first input that has one.
pub(crate) fn first_fault(alloc: Global, inputs: &[Timeline]) -> Option<FlatAt>
    requires few { (i : ℕ) (t : AnyTimeline) → slice_get inputs.now i ≡ Some t →
        count t.tracks.children < 2 ^ 32 }
    requires sound { AreSound inputs.now }
    ensures some { IfSome result (JoinRefused inputs.now) }
    ensures memory { IfSome result (λ at. at.fault ≡ FlatFault.Memory → at.input ≡ 0) }
    ensures none { IfNone result (AreFree true inputs.now) }
{
    'inputs: for index in 0..inputs.len() {
        let input = input_at(inputs, index);
        match input_fault(
            &input.tracks.children,
            index == 0,
            index + 1 == inputs.len(),
        ) {
            Some(spot) => return Some(told(alloc, index, spot)),
            None => {}
        }
    }
    None
}
