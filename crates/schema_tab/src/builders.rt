//! Structs from the values of their schemas' rows.

ghost use Rattle.std.specs.Prelude.{◌≡◌, IfOk};
ghost use Rattle.schema_rows.specs.Readings as readings;
ghost use Rattle.schema_rows.specs.Rows as rows;
ghost use Rattle.schema_tab.specs.Shapes.{HaveKinds};

use crate::next_value::{
    next_effects, next_flag, next_items, next_markers, next_media, next_meta, next_metadata,
    next_number, next_objects, next_span, next_stack, next_text, next_time,
};
use otio_model::{
    Children, Clip, Collection, External, Freeze, Gap, Generator, Mark, Missing, Plain, Sequence,
    Stack, StackOf, Timeline, Track, TrackOf, Transition, Warp,
};
use schema_rows::Fields;
use std::alloc::{AllocError, Global};

/// The struct of these fields, from the values of the rows, in their order.
macro_rules! made {
    ($fields:ident => $name:ident { $($field:ident: $next:ident),* } $($more:ident),*) => {{
        let Fields { schema: _, values, rest } = $fields;
        let mut values = values.into_vec().into_iter();
        $(let $field = $next(&mut values);)*
        $name { $($field,)* $($more,)* rest }
    }};
}

/// An item of these fields after those that all items have.
macro_rules! made_item {
    ($fields:ident => $name:ident { $($field:ident: $next:ident),* }) => {
        made!($fields => $name {
            metadata: next_metadata, name: next_text, source_range: next_span,
            effects: next_effects, markers: next_markers, enabled: next_flag
            $(, $field: $next)*
        })
    };
}

/// An item with children, of these fields after them.
macro_rules! made_parent {
    ($alloc:ident, $fields:ident => $name:ident { $($field:ident: $next:ident),* }) => {{
        let Fields { schema: _, values, rest } = $fields;
        let mut values = values.into_vec().into_iter();
        let metadata = next_metadata(&mut values);
        let name = next_text(&mut values);
        let source_range = next_span(&mut values);
        let effects = next_effects(&mut values);
        let markers = next_markers(&mut values);
        let enabled = next_flag(&mut values);
        let items = next_items(&mut values);
        $(let $field = $next(&mut values);)*
        let children = Children::of($alloc, items)?;
        Ok($name {
            metadata, name, source_range, effects, markers, enabled, children, $($field,)* rest
        })
    }};
}

/// An effect of these fields after those that all effects have.
macro_rules! made_effect {
    ($fields:ident => $name:ident { $($field:ident: $next:ident),* } $($more:ident),*) => {
        made!($fields => $name {
            metadata: next_meta, name: next_text, effect_name: next_text $(, $field: $next)*
        } $($more),*)
    };
}

/// A media reference of these fields after those that all have.
macro_rules! made_media {
    ($fields:ident => $name:ident { $($field:ident: $next:ident),* }) => {
        made!($fields => $name {
            metadata: next_meta, name: next_text, available_range: next_span $(, $field: $next)*
        })
    };
}

#[tactic(auto, using(crate::proofs::FirstShapes::first_is, crate::proofs::FirstShapes::have_shapes))]
pub(crate) fn gap_of(fields: Fields) -> Gap
    requires { HaveKinds rows.gap_rows fields.values }
    ensures values { (readings.gap_fields result).values ≡ fields.values }
    ensures rest { (readings.gap_fields result).rest ≡ fields.rest }
{
    made_item!(fields => Gap {})
}

#[tactic(auto, using(crate::proofs::FirstShapes::first_is, crate::proofs::FirstShapes::have_shapes))]
pub(crate) fn clip_of(alloc: Global, fields: Fields) -> Result<Clip, AllocError>
    requires { HaveKinds rows.clip_rows fields.values }
    ensures values { IfOk result (λ made. (readings.clip_fields made).values ≡ fields.values) }
    ensures rest { IfOk result (λ made. (readings.clip_fields made).rest ≡ fields.rest) }
{
    let clip = made_item!(fields => Clip {
        media_references: next_media,
        active_media_reference_key: next_text
    });
    clip.with_places(alloc)
}

#[tactic(auto, using(crate::proofs::FirstShapes::first_is, crate::proofs::FirstShapes::have_shapes))]
pub(crate) fn transition_of(fields: Fields) -> Transition
    requires { HaveKinds rows.transition_rows fields.values }
    ensures values { (readings.transition_fields result).values ≡ fields.values }
    ensures rest { (readings.transition_fields result).rest ≡ fields.rest }
{
    made!(fields => Transition {
        metadata: next_metadata,
        name: next_text,
        transition_type: next_text,
        in_offset: next_time,
        out_offset: next_time
    })
}

#[tactic(auto, using(crate::proofs::FirstShapes::first_is, crate::proofs::FirstShapes::have_shapes))]
pub(crate) fn collection_of(fields: Fields) -> Collection
    requires { HaveKinds rows.collection_rows fields.values }
    ensures values { (readings.collection_fields result).values ≡ fields.values }
    ensures rest { (readings.collection_fields result).rest ≡ fields.rest }
{
    made!(fields => Collection {
        metadata: next_meta,
        name: next_text,
        children: next_objects
    })
}

#[tactic(auto, using(crate::proofs::FirstShapes::first_is, crate::proofs::FirstShapes::have_shapes))]
pub(crate) fn warp_of(fields: Fields) -> Warp
    requires { HaveKinds rows.warp_rows fields.values }
    ensures values { (readings.warp_fields result).values ≡ fields.values }
    ensures rest { (readings.warp_fields result).rest ≡ fields.rest }
{
    made_effect!(fields => Warp { time_scalar: next_number })
}

#[tactic(auto, using(crate::proofs::FirstShapes::first_is, crate::proofs::FirstShapes::have_shapes))]
pub(crate) fn freeze_of(fields: Fields) -> Freeze
    requires { HaveKinds rows.freeze_rows fields.values }
    ensures values { (readings.freeze_fields result).values ≡ fields.values }
    ensures rest { (readings.freeze_fields result).rest ≡ fields.rest }
{
    made_effect!(fields => Freeze { time_scalar: next_number })
}

#[tactic(auto, using(crate::proofs::FirstShapes::first_is, crate::proofs::FirstShapes::have_shapes))]
pub(crate) fn plain_of(fields: Fields, timed: bool) -> Plain
    requires { HaveKinds rows.effect_rows fields.values }
    ensures values { (readings.plain_fields result).values ≡ fields.values }
    ensures rest { (readings.plain_fields result).rest ≡ fields.rest }
    ensures timed { result.timed ≡ timed }
{
    made_effect!(fields => Plain {} timed)
}

#[tactic(auto, using(crate::proofs::FirstShapes::first_is, crate::proofs::FirstShapes::have_shapes))]
pub(crate) fn mark_of(fields: Fields) -> Mark
    requires { HaveKinds rows.marker_rows fields.values }
    ensures values { (readings.mark_fields result).values ≡ fields.values }
    ensures rest { (readings.mark_fields result).rest ≡ fields.rest }
{
    made!(fields => Mark {
        metadata: next_meta,
        name: next_text,
        marked_range: next_span
    })
}

#[tactic(auto, using(crate::proofs::FirstShapes::first_is, crate::proofs::FirstShapes::have_shapes))]
pub(crate) fn external_of(fields: Fields) -> External
    requires { HaveKinds rows.external_rows fields.values }
    ensures values { (readings.external_fields result).values ≡ fields.values }
    ensures rest { (readings.external_fields result).rest ≡ fields.rest }
{
    made_media!(fields => External { target_url: next_text })
}

#[tactic(auto, using(crate::proofs::FirstShapes::first_is, crate::proofs::FirstShapes::have_shapes))]
pub(crate) fn missing_of(fields: Fields) -> Missing
    requires { HaveKinds rows.missing_rows fields.values }
    ensures values { (readings.missing_fields result).values ≡ fields.values }
    ensures rest { (readings.missing_fields result).rest ≡ fields.rest }
{
    made_media!(fields => Missing {})
}

#[tactic(auto, using(crate::proofs::FirstShapes::first_is, crate::proofs::FirstShapes::have_shapes))]
pub(crate) fn generator_of(fields: Fields) -> Generator
    requires { HaveKinds rows.generator_rows fields.values }
    ensures values { (readings.generator_fields result).values ≡ fields.values }
    ensures rest { (readings.generator_fields result).rest ≡ fields.rest }
{
    made_media!(fields => Generator { generator_kind: next_text })
}

#[tactic(auto, using(crate::proofs::FirstShapes::first_is, crate::proofs::FirstShapes::have_shapes))]
pub(crate) fn images_of(fields: Fields) -> Sequence
    requires { HaveKinds rows.images_rows fields.values }
    ensures values { (readings.images_fields result).values ≡ fields.values }
    ensures rest { (readings.images_fields result).rest ≡ fields.rest }
{
    made_media!(fields => Sequence {
        target_url_base: next_text,
        name_prefix: next_text,
        name_suffix: next_text
    })
}

#[tactic(auto, using(crate::proofs::FirstShapes::first_is, crate::proofs::FirstShapes::have_shapes, otio_model::proofs::Views::shown))]
pub(crate) fn stack_of(alloc: Global, fields: Fields) -> Result<Stack, AllocError>
    requires { HaveKinds rows.stack_rows fields.values }
    ensures values { IfOk result (λ made. (readings.stack_fields made).values ≡ fields.values) }
    ensures rest { IfOk result (λ made. (readings.stack_fields made).rest ≡ fields.rest) }
{
    made_parent!(alloc, fields => StackOf {})
}

#[tactic(auto, using(crate::proofs::FirstShapes::first_is, crate::proofs::FirstShapes::have_shapes, otio_model::proofs::Views::shown))]
pub(crate) fn track_of(alloc: Global, fields: Fields) -> Result<Track, AllocError>
    requires { HaveKinds rows.track_rows fields.values }
    ensures values { IfOk result (λ made. (readings.track_fields made).values ≡ fields.values) }
    ensures rest { IfOk result (λ made. (readings.track_fields made).rest ≡ fields.rest) }
{
    made_parent!(alloc, fields => TrackOf { kind: next_text })
}

#[tactic(auto, using(crate::proofs::FirstShapes::first_is, crate::proofs::FirstShapes::have_shapes))]
pub(crate) fn timeline_of(alloc: Global, fields: Fields) -> Timeline
    requires { HaveKinds rows.timeline_rows fields.values }
    ensures values { (readings.timeline_fields result).values ≡ fields.values }
    ensures rest { (readings.timeline_fields result).rest ≡ fields.rest }
{
    let Fields {
        schema: _,
        values,
        rest,
    } = fields;
    let mut values = values.into_vec().into_iter();
    let metadata = next_meta(&mut values);
    let name = next_text(&mut values);
    let global_start_time = next_time(&mut values);
    let tracks = next_stack(&mut values);
    Timeline::of(alloc, metadata, name, global_start_time, tracks, rest)
}
