//! Markers.

ghost use Rattle.std.specs.Prelude.{◌≡◌, IfOk};
ghost use Rattle.schema_write.specs.Objects as objects;
ghost use Rattle.schema_write.specs.Styles.{style_of};

use crate::families::Family;
use crate::times::span_json;
use crate::writing::{add, named, written, written_old};
use json_value::{Json, JsonList, copy_json};
use otio_model::{Mark, Marker, Markers};
use schema_rows::Schema;
use std::alloc::{AllocError, Global};

/// The markers of an item in a family, in order.
pub fn markers_json(alloc: Global, markers: &Markers, family: Family) -> Result<Json, AllocError>
    ensures { IfOk result (λ json.
        json ≡ objects.markers_by (style_of family).mark markers.now) }
{
    let list = markers.as_slice();
    let mut values = Vec::with_capacity(alloc, list.len())?;
    'markers: for marker in list {
        values.push(marker_json(alloc, marker, family)?)?;
    }
    Ok(Json::List(JsonList::of(alloc, values)?))
}

fn marker_json(alloc: Global, marker: &Marker, family: Family) -> Result<Json, AllocError>
    ensures { IfOk result (λ json. json ≡ objects.marker_by (style_of family).mark marker.now) }
{
    match marker {
        Marker::Known(mark) => mark_in(alloc, mark.get(), family),
        Marker::Kept(value) => copy_json(alloc, value),
    }
}

fn mark_in(alloc: Global, mark: &Mark, family: Family) -> Result<Json, AllocError>
    ensures { IfOk result (λ json. json ≡ (style_of family).mark mark.now) }
{
    match family {
        Family::Old => old_mark_json(alloc, mark),
        Family::New => mark_json(alloc, mark),
    }
}

fn old_mark_json(alloc: Global, mark: &Mark) -> Result<Json, AllocError>
    ensures { IfOk result (λ json. json ≡ objects.old_mark_json mark.now) }
{
    let mut values = named(alloc, &mark.metadata, &mark.name, 3)?;
    add(&mut values, span_json(alloc, mark.marked_range))?;
    written_old(alloc, Schema::FirstMarker, values, &mark.rest)
}

fn mark_json(alloc: Global, mark: &Mark) -> Result<Json, AllocError>
    ensures { IfOk result (λ json. json ≡ objects.mark_json mark.now) }
{
    let mut values = named(alloc, &mark.metadata, &mark.name, 3)?;
    add(&mut values, span_json(alloc, mark.marked_range))?;
    written(alloc, Schema::Marker, values, &mark.rest)
}
