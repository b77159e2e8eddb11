//! Copies of values.

ghost use Rattle.std.specs.Prelude.{◌≡◌, IfOk};
ghost use Rattle.sequences.specs.Pairs.{AreDistinct, names_of};

use crate::{Json, Members};
use owned::Owned;
use sequences::{Fitted, NamedValues, Text};
use std::alloc::{AllocError, Global};

/// An equal value, in memory of its own. An error comes where memory runs out.
#[cycle(copy)]
pub fn copy_json(alloc: Global, value: &Json) -> Result<Json, AllocError>
    ensures { IfOk result (λ copy. copy ≡ value.now) }
{
    match value {
        Json::Null => Ok(Json::Null),
        Json::Bool(truth) => Ok(Json::Bool(*truth)),
        Json::Num(numeral) => Ok(Json::Num(Text::of(alloc, numeral.as_str())?)),
        Json::Str(text) => Ok(Json::Str(Text::of(alloc, text.as_str())?)),
        Json::List(list) => {
            let copies = copy_items(alloc, list.as_slice())?;
            Ok(Json::List(Fitted::of(alloc, copies)?))
        }
        Json::Map(members) => {
            let copies = copy_members(alloc, members.get())?;
            Ok(Json::Map(Owned::of(alloc, copies)?))
        }
    }
}

// Equal values, in a list with no room to spare.
#[cycle(copy)]
fn copy_items(alloc: Global, items: &[Json]) -> Result<Vec<Json>, AllocError>
    ensures { IfOk result (λ copies. copies.items ≡ items.now) }
{
    let mut copies = Vec::with_capacity(alloc, items.len())?;
    for item in items {
        copies.push(copy_json(alloc, item)?)?;
    }
    Ok(copies)
}

/// Equal members, in memory of their own. An error comes where memory runs out.
#[cycle(copy)]
pub fn copy_members(alloc: Global, members: &Members) -> Result<Members, AllocError>
    ensures { IfOk result (λ copy. copy ≡ members.now) }
{
    Ok(NamedValues::of(copy_pairs(alloc, members)?))
}

// Equal pairs, in a list with no room to spare.
#[cycle(copy)]
fn copy_pairs(alloc: Global, members: &Members) -> Result<Vec<(Text, Json)>, AllocError>
    ensures copied { IfOk result (λ copies. copies.items ≡ members.now) }
    ensures distinct { IfOk result (λ copies. AreDistinct (names_of copies.items)) }
{
    let pairs = members.as_slice();
    let mut copies = Vec::with_capacity(alloc, pairs.len())?;
    for pair in pairs {
        let name = Text::of(alloc, pair.0.as_str())?;
        copies.push((name, copy_json(alloc, &pair.1)?))?;
    }
    Ok(copies)
}
