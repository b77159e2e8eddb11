//! Media references.

ghost use Rattle.std.specs.Prelude.{◌≡◌, IfOk, map};
ghost use Rattle.sequences.specs.Pairs.{names_of, AreDistinct};
ghost use Rattle.schema_write.specs.Objects as objects;

use crate::times::span_json;
use crate::writing::{add, named, string, written};
use json_value::{Json, copy_json};
use otio_model::{External, Generator, Media, MediaMap, Missing, Sequence};
use owned::Owned;
use schema_rows::Schema;
use sequences::{NamedValues, Text};
use std::alloc::{AllocError, Global};

/// The media references of a clip, under their keys.
pub fn media_json(alloc: Global, media: &MediaMap) -> Result<Json, AllocError>
    ensures { IfOk result (λ json. json ≡ objects.media_json media.now) }
{
    let pairs = NamedValues::of(media_pairs(alloc, media)?);
    Ok(Json::Map(Owned::of(alloc, pairs)?))
}

/// The reference of a `Clip.1`: the first of the references, or null where there is none.
pub fn reference_json(alloc: Global, media: &MediaMap) -> Result<Json, AllocError>
    ensures { IfOk result (λ json. json ≡ objects.reference_json media.now) }
{
    match media.as_slice().first() {
        Some(pair) => medium_json(alloc, &pair.1),
        None => Ok(Json::Null),
    }
}

fn media_pairs(alloc: Global, media: &MediaMap) -> Result<Vec<(Text, Json)>, AllocError>
    ensures pairs { IfOk result (λ made. made.items ≡ map objects.medium_pair media.now) }
    ensures distinct { IfOk result (λ made. AreDistinct (names_of made.items)) }
{
    let pairs = media.as_slice();
    let mut made = Vec::with_capacity(alloc, pairs.len())?;
    'pairs: for pair in pairs {
        let key = Text::of(alloc, pair.0.as_str())?;
        made.push((key, medium_json(alloc, &pair.1)?))?;
    }
    Ok(made)
}

fn medium_json(alloc: Global, medium: &Media) -> Result<Json, AllocError>
    ensures { IfOk result (λ json. json ≡ objects.medium_json medium.now) }
{
    match medium {
        Media::External(medium) => external_json(alloc, medium),
        Media::Missing(medium) => missing_json(alloc, medium),
        Media::Generator(medium) => generator_json(alloc, medium),
        Media::Sequence(medium) => images_json(alloc, medium),
        Media::Kept(value) => copy_json(alloc, value),
    }
}

fn external_json(alloc: Global, medium: &External) -> Result<Json, AllocError>
    ensures { IfOk result (λ json. json ≡ objects.external_json medium.now) }
{
    let mut values = named(alloc, &medium.metadata, &medium.name, 4)?;
    add(&mut values, span_json(alloc, medium.available_range))?;
    add(&mut values, string(alloc, &medium.target_url))?;
    written(alloc, Schema::External, values, &medium.rest)
}

fn missing_json(alloc: Global, medium: &Missing) -> Result<Json, AllocError>
    ensures { IfOk result (λ json. json ≡ objects.missing_json medium.now) }
{
    let mut values = named(alloc, &medium.metadata, &medium.name, 3)?;
    add(&mut values, span_json(alloc, medium.available_range))?;
    written(alloc, Schema::Missing, values, &medium.rest)
}

fn generator_json(alloc: Global, medium: &Generator) -> Result<Json, AllocError>
    ensures { IfOk result (λ json. json ≡ objects.generator_json medium.now) }
{
    let mut values = named(alloc, &medium.metadata, &medium.name, 4)?;
    add(&mut values, span_json(alloc, medium.available_range))?;
    add(&mut values, string(alloc, &medium.generator_kind))?;
    written(alloc, Schema::Generator, values, &medium.rest)
}

fn images_json(alloc: Global, medium: &Sequence) -> Result<Json, AllocError>
    ensures { IfOk result (λ json. json ≡ objects.images_json medium.now) }
{
    let mut values = named(alloc, &medium.metadata, &medium.name, 6)?;
    add(&mut values, span_json(alloc, medium.available_range))?;
    add(&mut values, string(alloc, &medium.target_url_base))?;
    add(&mut values, string(alloc, &medium.name_prefix))?;
    add(&mut values, string(alloc, &medium.name_suffix))?;
    written(alloc, Schema::Images, values, &medium.rest)
}
