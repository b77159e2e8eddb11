//! Items, where their children are known in JSON.

ghost use Rattle.std.specs.Prelude.{◌≡◌, ◌∷◌, [], IfOk};
ghost use Rattle.json_value.specs.declared.Json.{Str, Map, Bool as JsonOfBool};
ghost use Rattle.schema_write.specs.Objects as objects;
ghost use Rattle.schema_write.specs.Styles.{style_of};

use crate::effects::effects_json;
use crate::families::Family;
use crate::markers::markers_json;
use crate::media::{media_json, reference_json};
use crate::times::{offset_json, span_json};
use crate::writing::{add, named, string, written, written_old};
use json_value::{Json, JsonList, Members};
use otio_model::{Clip, Effects, Gap, Markers, Stack, Track, Transition};
use schema_rows::Schema;
use sequences::Text;
use std::alloc::{AllocError, Global};
use tick_time::Span;

/// The members that clips, gaps and compositions have in common.
#[derive(Clone, Copy)]
struct Shared<'a> {
    metadata: &'a Members,
    name: &'a Text,
    source_range: Option<Span>,
    effects: &'a Effects,
    markers: &'a Markers,
    enabled: bool,
}

/// Those members of an item.
macro_rules! shared {
    ($item:ident) => {
        Shared {
            metadata: $item.metadata.get(),
            name: &$item.name,
            source_range: $item.source_range,
            effects: &$item.effects,
            markers: &$item.markers,
            enabled: $item.enabled,
        }
    };
}

// The values of these rows in a family, and room for two more.
fn shared_json(alloc: Global, members: &Shared<'_>, family: Family) -> Result<Vec<Json>, AllocError>
    ensures { let its = members.now in IfOk result (λ values.
        values.items ≡ Map its.metadata.now ∷ Str its.name.now
        ∷ objects.span_json its.source_range ∷ objects.effects_json its.effects.now
        ∷ objects.markers_by (style_of family).mark its.markers.now
        ∷ JsonOfBool its.enabled ∷ []) }
{
    let mut values = named(alloc, members.metadata, members.name, 8)?;
    add(&mut values, span_json(alloc, members.source_range))?;
    add(&mut values, effects_json(alloc, members.effects))?;
    add(&mut values, markers_json(alloc, members.markers, family))?;
    values.push(Json::Bool(members.enabled))?;
    Ok(values)
}

/// A clip of a family. An error comes where memory runs out.
pub fn clip_in(alloc: Global, clip: &Clip, family: Family) -> Result<Json, AllocError>
    ensures { IfOk result (λ json. json ≡ (style_of family).clip clip.now) }
{
    match family {
        Family::Old => old_clip_json(alloc, clip),
        Family::New => clip_json(alloc, clip),
    }
}

fn old_clip_json(alloc: Global, clip: &Clip) -> Result<Json, AllocError>
    ensures { IfOk result (λ json. json ≡ objects.old_clip_json clip.now) }
{
    let mut values = shared_json(alloc, &shared!(clip), Family::Old)?;
    add(&mut values, reference_json(alloc, &clip.media_references))?;
    written_old(alloc, Schema::FirstClip, values, &clip.rest)
}

fn clip_json(alloc: Global, clip: &Clip) -> Result<Json, AllocError>
    ensures { IfOk result (λ json. json ≡ objects.clip_json clip.now) }
{
    let mut values = shared_json(alloc, &shared!(clip), Family::New)?;
    add(&mut values, media_json(alloc, &clip.media_references))?;
    add(&mut values, string(alloc, &clip.active_media_reference_key))?;
    written(alloc, Schema::Clip, values, &clip.rest)
}

/// A gap of a family. An error comes where memory runs out.
pub fn gap_json(alloc: Global, gap: &Gap, family: Family) -> Result<Json, AllocError>
    ensures { IfOk result (λ json. json ≡ objects.gap_in (style_of family) gap.now) }
{
    let values = shared_json(alloc, &shared!(gap), family)?;
    written(alloc, Schema::Gap, values, &gap.rest)
}

/// A transition. An error comes where memory runs out.
pub fn transition_json(alloc: Global, transition: &Transition) -> Result<Json, AllocError>
    ensures { IfOk result (λ json. json ≡ objects.transition_json transition.now) }
{
    let mut values = named(alloc, transition.metadata.get(), &transition.name, 5)?;
    add(&mut values, string(alloc, &transition.transition_type))?;
    add(&mut values, offset_json(alloc, transition.in_offset))?;
    add(&mut values, offset_json(alloc, transition.out_offset))?;
    written(alloc, Schema::Transition, values, &transition.rest)
}

/// A stack whose children are these. An error comes where memory runs out.
pub fn stack_of(
    alloc: Global,
    stack: &Stack,
    children: JsonList,
    family: Family,
) -> Result<Json, AllocError>
    ensures { IfOk result (λ json.
        json ≡ objects.stack_by (style_of family) (λ _. children) stack.now) }
{
    let mut values = shared_json(alloc, &shared!(stack), family)?;
    values.push(Json::List(children))?;
    written(alloc, Schema::Stack, values, &stack.rest)
}

/// A track whose children are these. An error comes where memory runs out.
pub fn track_of(
    alloc: Global,
    track: &Track,
    children: JsonList,
    family: Family,
) -> Result<Json, AllocError>
    ensures { IfOk result (λ json.
        json ≡ objects.track_by (style_of family) (λ _. children) track.now) }
{
    let mut values = shared_json(alloc, &shared!(track), family)?;
    values.push(Json::List(children))?;
    add(&mut values, string(alloc, &track.kind))?;
    written(alloc, Schema::Track, values, &track.rest)
}
