//! Effects.

ghost use Rattle.std.specs.Prelude.{◌≡◌, IfOk};
ghost use Rattle.schema_write.specs.Objects as objects;

use crate::numerals::{speed_numeral, zero_numeral};
use crate::writing::{add, named, string, written};
use json_value::{Json, JsonList, copy_json};
use otio_model::{Effect, Effects, Freeze, Plain, Warp};
use schema_rows::Schema;
use std::alloc::{AllocError, Global};

/// The effects of an item, in order.
pub fn effects_json(alloc: Global, effects: &Effects) -> Result<Json, AllocError>
    ensures { IfOk result (λ json. json ≡ objects.effects_json effects.now) }
{
    let list = effects.as_slice();
    let mut values = Vec::with_capacity(alloc, list.len())?;
    'effects: for effect in list {
        values.push(effect_json(alloc, effect)?)?;
    }
    Ok(Json::List(JsonList::of(alloc, values)?))
}

fn effect_json(alloc: Global, effect: &Effect) -> Result<Json, AllocError>
    ensures { IfOk result (λ json. json ≡ objects.effect_json effect.now) }
{
    match effect {
        Effect::Warp(warp) => warp_json(alloc, warp.get()),
        Effect::Freeze(freeze) => freeze_json(alloc, freeze.get()),
        Effect::Plain(plain) => plain_json(alloc, plain.get()),
        Effect::Kept(value) => copy_json(alloc, value),
    }
}

fn warp_json(alloc: Global, warp: &Warp) -> Result<Json, AllocError>
    ensures { IfOk result (λ json. json ≡ objects.warp_json warp.now) }
{
    let mut values = named(alloc, &warp.metadata, &warp.name, 4)?;
    add(&mut values, string(alloc, &warp.effect_name))?;
    add(&mut values, speed_numeral(alloc, warp.time_scalar))?;
    written(alloc, Schema::Warp, values, &warp.rest)
}

fn freeze_json(alloc: Global, freeze: &Freeze) -> Result<Json, AllocError>
    ensures { IfOk result (λ json. json ≡ objects.freeze_json freeze.now) }
{
    let mut values = named(alloc, &freeze.metadata, &freeze.name, 4)?;
    add(&mut values, string(alloc, &freeze.effect_name))?;
    add(&mut values, zero_numeral(alloc))?;
    written(alloc, Schema::Freeze, values, &freeze.rest)
}

fn plain_json(alloc: Global, plain: &Plain) -> Result<Json, AllocError>
    ensures { IfOk result (λ json. json ≡ objects.plain_json plain.now) }
{
    let mut values = named(alloc, &plain.metadata, &plain.name, 3)?;
    add(&mut values, string(alloc, &plain.effect_name))?;
    if plain.timed {
        return written(alloc, Schema::TimeEffect, values, &plain.rest);
    }
    written(alloc, Schema::Effect, values, &plain.rest)
}
