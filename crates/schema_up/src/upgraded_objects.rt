// Objects of an old name or version, rewritten where the values inside them already are.
ghost use Rattle.std.specs.Prelude.{◌≡◌, ◌++◌, IfOk};
ghost use Rattle.sequences.specs.Pairs.{names_of, value_of, AreDistinct, IsNew};
ghost use Rattle.sequences.specs.Places as places;
ghost use Rattle.schema_up.specs.Names.{schema_text as text_in};
ghost use Rattle.schema_up.specs.Upgrades as upgrades;

use crate::old_names::{Form, behind_point, schema_text};
use json_value::{Json, Members};
use owned::Owned;
use sequences::{NamedValues, Text};
use std::alloc::{AllocError, Global};

/// The members of an object of this schema, with an old name or version rewritten. An error comes
/// where memory runs out.
pub fn renew(alloc: Global, members: Members, schema: Form) -> Result<Members, AllocError>
    ensures { IfOk result (λ made. made ≡ upgrades.renewed schema members) }
{
    match schema {
        Form::OldCollection => with_name(alloc, members, "SerializableCollection"),
        Form::Sequence => with_name(alloc, members, "Track"),
        Form::Filler => with_name(alloc, members, "Gap"),
        Form::FirstClip => second_clip(alloc, members),
        Form::FirstMarker => second_marker(alloc, members),
        _ => Ok(members),
    }
}

// The members with that text as their schema.
fn with_schema(alloc: Global, members: Members, text: Text) -> Result<Members, AllocError>
    ensures { IfOk result (λ made. made ≡ upgrades.with_schema text members) }
{
    let mut made = members;
    made.put(Text::of(alloc, "OTIO_SCHEMA")?, Json::Str(text))?;
    Ok(made)
}

// The members with that name in their schema, and the version as it is written.
fn with_name(alloc: Global, members: Members, name: &str) -> Result<Members, AllocError>
    ensures { IfOk result (λ made. made ≡ upgrades.with_name name.now members) }
{
    let text = named_text(alloc, &members, name)?;
    with_schema(alloc, members, text)
}

// The text of the members' schema with that name in it.
fn named_text(alloc: Global, members: &Members, name: &str) -> Result<Text, AllocError>
    ensures { IfOk result (λ text. text ≡ name.now ++ upgrades.version_part (text_in members.now)) }
{
    let mut text = String::from_str(alloc, name)?;
    if let Some(old) = schema_text(members) {
        text.push_str(".")?;
        text.push_str(behind_point(old))?;
    }
    Text::from_string(alloc, text)
}

// The place of the member of that name, and the number of the members where there is none.
fn place_of(members: &Members, name: &str) -> usize
    ensures place { result ≡ places.place_of name.now (names_of members.now) }
    ensures distinct { AreDistinct (names_of members.now) }
{
    let pairs = members.as_slice();
    for (place, member) in pairs.iter().enumerate() {
        if name == member.0.as_str() {
            return place;
        }
    }
    pairs.len()
}

// Takes the value of that name out of the members.
fn take_named(members: &mut Members, name: &str) -> Option<Json>
    ensures value { result ≡ value_of name.now members.old }
    ensures rest { members.new ≡ upgrades.without name.now members.old }
    ensures gone { IsNew name.now (names_of members.new) }
{
    let place = place_of(&*members, name);
    match members.take(place) {
        Some((_, value)) => Some(value),
        None => None,
    }
}

// Drops the member of that name.
fn drop_named(members: &mut Members, name: &str)
    ensures rest { members.new ≡ upgrades.without name.now members.old }
    ensures gone { IsNew name.now (names_of members.new) }
{
    take_named(members, name);
}

// A medium that is missing.
fn missing(alloc: Global) -> Result<Json, AllocError>
    ensures { IfOk result (λ made. made ≡ upgrades.missing) }
{
    let mut members: Members = NamedValues::new(alloc);
    let schema = Json::Str(Text::of(alloc, "MissingReference.1")?);
    members.put(Text::of(alloc, "OTIO_SCHEMA")?, schema)?;
    Ok(Json::Map(Owned::of(alloc, members)?))
}

// The medium of a clip's one reference.
fn medium_of(alloc: Global, reference: Option<Json>) -> Result<Json, AllocError>
    ensures { IfOk result (λ made. made ≡ upgrades.medium_of reference) }
{
    match reference {
        None | Some(Json::Null) => missing(alloc),
        Some(medium) => Ok(medium),
    }
}

// The media of a clip with one medium.
fn media_of(alloc: Global, medium: Json) -> Result<Json, AllocError>
    ensures { IfOk result (λ made. made ≡ upgrades.media_of medium) }
{
    let mut media: Members = NamedValues::new(alloc);
    media.put(Text::of(alloc, "DEFAULT_MEDIA")?, medium)?;
    Ok(Json::Map(Owned::of(alloc, media)?))
}

// The members of a clip of the second version, of those of one of the first.
fn second_clip(alloc: Global, members: Members) -> Result<Members, AllocError>
    ensures { IfOk result (λ made. made ≡ upgrades.second_clip members) }
{
    let mut kept = members;
    let reference = take_named(&mut kept, "media_reference");
    drop_named(&mut kept, "media_references");
    drop_named(&mut kept, "active_media_reference_key");
    let mut made = with_schema(alloc, kept, Text::of(alloc, "Clip.2")?)?;
    let media = media_of(alloc, medium_of(alloc, reference)?)?;
    made.put(Text::of(alloc, "media_references")?, media)?;
    let key = Json::Str(Text::of(alloc, "DEFAULT_MEDIA")?);
    made.put(Text::of(alloc, "active_media_reference_key")?, key)?;
    Ok(made)
}

// The members of a marker of the second version, of those of one of the first.
fn second_marker(alloc: Global, members: Members) -> Result<Members, AllocError>
    ensures { IfOk result (λ made. made ≡ upgrades.second_marker members) }
{
    let mut kept = members;
    drop_named(&mut kept, "marked_range");
    let made = named_anew(kept, "range", Text::of(alloc, "marked_range")?);
    with_schema(alloc, made, Text::of(alloc, "Marker.2")?)
}

// The members, where the one of the old name has the new name.
fn named_anew(members: Members, old: &str, new: Text) -> Members
    requires { IsNew new (names_of members) }
    ensures { result ≡ upgrades.named_anew old.now new members }
{
    let place = place_of(&members, old);
    let mut pairs = members.into_vec();
    if place >= pairs.len() {
        return NamedValues::of(pairs);
    }
    let pair = &mut pairs[place];
    pair.0 = new;
    NamedValues::of(pairs)
}
