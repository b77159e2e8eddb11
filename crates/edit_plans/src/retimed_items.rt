//! Items with one effect more.

ghost use Rattle.std.specs.Prelude.{◌≡◌, pos, ◌≤◌, IfOk};
ghost use Rattle.edits.specs.Edits as edits;

use json_value::Members;
use otio_model::{Effect, Item, ItemOf, Warp};
use owned::Owned;
use sequences::{NamedValues, Text};
use std::alloc::{AllocError, Global};
use tick_time::Scalar;

// The change to a speed in millionths.
fn warp(alloc: Global, speed: u128) -> Result<Effect, AllocError>
    requires { speed ≤ 1000000000 }
    ensures { IfOk result (λ effect. effect ≡ edits.warp (pos speed)) }
{
    let warp = Warp {
        metadata: Members::new(alloc),
        name: Text::empty(),
        effect_name: Text::empty(),
        time_scalar: Scalar(speed as i64),
        rest: NamedValues::new(alloc),
    };
    Ok(Effect::Warp(Owned::of(alloc, warp)?))
}

// The item with one effect more; a transition has none.
fn with_effect(item: Item, effect: Effect) -> Result<Item, AllocError>
    ensures { IfOk result (λ made. made ≡ edits.with_effect effect item) }
{
    match item {
        ItemOf::Clip(mut clip) => match clip.effects.push(effect) {
            Ok(()) => Ok(ItemOf::Clip(clip)),
            Err(error) => {
                drop(clip);
                Err(error)
            }
        },
        ItemOf::Gap(mut gap) => match gap.effects.push(effect) {
            Ok(()) => Ok(ItemOf::Gap(gap)),
            Err(error) => {
                drop(gap);
                Err(error)
            }
        },
        ItemOf::Transition(transition) => Ok(ItemOf::Transition(transition)),
        ItemOf::Stack(mut stack) => match stack.effects.push(effect) {
            Ok(()) => Ok(ItemOf::Stack(stack)),
            Err(error) => {
                drop(stack);
                Err(error)
            }
        },
        ItemOf::Track(mut track) => match track.effects.push(effect) {
            Ok(()) => Ok(ItemOf::Track(track)),
            Err(error) => {
                drop(track);
                Err(error)
            }
        },
    }
}

/// The item with a last effect that changes its speed so many millionths times.
pub(crate) fn warped(alloc: Global, item: Item, speed: u128) -> Result<Item, AllocError>
    requires { speed ≤ 1000000000 }
    ensures { IfOk result (λ made. made ≡ edits.with_effect (edits.warp (pos speed)) item) }
{
    match warp(alloc, speed) {
        Ok(effect) => with_effect(item, effect),
        Err(error) => {
            drop(item);
            Err(error)
        }
    }
}
