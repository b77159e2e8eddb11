//! Markers.

ghost use Rattle.std.specs.Prelude.{map, codes};
ghost use Rattle.dev_io.specs.Buffer.{HandsOver};
ghost use Rattle.json_text.specs.Levels.{deep};
ghost use Rattle.json_text.specs.Layout.{text_at, list_text, item_lines};
ghost use Rattle.schema_write.specs.Objects.{markers_by, marker_by, mark_json, old_mark_json};
ghost use Rattle.schema_write.specs.Styles.{style_of};
ghost use Rattle.schema_write.specs.Lines.{row_text};

use crate::families::Family;
use crate::rows::{
    put_end, put_head, put_object_row, put_old_others, put_others, put_row_name, put_text_row,
};
use crate::times_layout::put_span_row;
use dev_io::{Out, OutBuffer};
use json_text::{Level, inside, put_line, put_value};
use otio_model::{Mark, Marker, Markers};
use schema_rows::Schema;

/// Hands over the row of an item's markers.
pub fn put_markers_row<W: Out>(
    buffer: &mut OutBuffer,
    out: &mut W,
    markers: &Markers,
    family: Family,
    level: &Level<'_>,
)
    ensures { HandsOver W.known W.faults out.old out.new buffer.old buffer.new
        (row_text (codes "markers") (markers_by (style_of family).mark markers.now)
        (deep level.now)) }
{
    put_row_name(buffer, out, "markers", level);
    put_markers(buffer, out, markers.as_slice(), family, level);
}

fn put_markers<W: Out>(
    buffer: &mut OutBuffer,
    out: &mut W,
    markers: &[Marker],
    family: Family,
    level: &Level<'_>,
)
    ensures { HandsOver W.known W.faults out.old out.new buffer.old buffer.new
        (list_text (deep level.now) (map (marker_by (style_of family).mark) markers.now)) }
{
    if markers.is_empty() {
        buffer.put(out, b"[]");
        return;
    }
    put_marker_lines(buffer, out, markers, family, &inside(&*level));
    put_line(buffer, out, b"\n", level);
    buffer.put(out, b"]");
}

fn put_marker_lines<W: Out>(
    buffer: &mut OutBuffer,
    out: &mut W,
    list: &[Marker],
    family: Family,
    level: &Level<'_>,
)
    ensures { HandsOver W.known W.faults out.old out.new buffer.old buffer.new
        (item_lines 91 (deep level.now) (map (marker_by (style_of family).mark) list.now)) }
{
    let mut lead: &[u8] = b"[\n";
    for marker in list {
        put_line(buffer, out, lead, level);
        put_marker(buffer, out, marker, family, level);
        lead = b",\n";
    }
}

fn put_marker<W: Out>(
    buffer: &mut OutBuffer,
    out: &mut W,
    marker: &Marker,
    family: Family,
    level: &Level<'_>,
)
    ensures { HandsOver W.known W.faults out.old out.new buffer.old buffer.new
        (text_at (marker_by (style_of family).mark marker.now) (deep level.now)) }
{
    match marker {
        Marker::Known(mark) => put_mark_in(buffer, out, mark.get(), family, level),
        Marker::Kept(value) => put_value(buffer, out, value, level),
    }
}

fn put_mark_in<W: Out>(
    buffer: &mut OutBuffer,
    out: &mut W,
    mark: &Mark,
    family: Family,
    level: &Level<'_>,
)
    ensures { HandsOver W.known W.faults out.old out.new buffer.old buffer.new
        (text_at ((style_of family).mark mark.now) (deep level.now)) }
{
    match family {
        Family::Old => put_old_mark(buffer, out, mark, level),
        Family::New => put_mark(buffer, out, mark, level),
    }
}

fn put_old_mark<W: Out>(buffer: &mut OutBuffer, out: &mut W, mark: &Mark, level: &Level<'_>)
    ensures { HandsOver W.known W.faults out.old out.new buffer.old buffer.new
        (text_at (old_mark_json mark.now) (deep level.now)) }
{
    let inner = inside(&*level);
    put_head(buffer, out, Schema::FirstMarker, &inner);
    put_object_row(buffer, out, "metadata", &mark.metadata, &inner);
    put_text_row(buffer, out, "name", &mark.name, &inner);
    put_span_row(buffer, out, "range", mark.marked_range, &inner);
    put_old_others(buffer, out, Schema::FirstMarker, &mark.rest, &inner);
    put_end(buffer, out, level);
}

fn put_mark<W: Out>(buffer: &mut OutBuffer, out: &mut W, mark: &Mark, level: &Level<'_>)
    ensures { HandsOver W.known W.faults out.old out.new buffer.old buffer.new
        (text_at (mark_json mark.now) (deep level.now)) }
{
    let inner = inside(&*level);
    put_head(buffer, out, Schema::Marker, &inner);
    put_object_row(buffer, out, "metadata", &mark.metadata, &inner);
    put_text_row(buffer, out, "name", &mark.name, &inner);
    put_span_row(buffer, out, "marked_range", mark.marked_range, &inner);
    put_others(buffer, out, Schema::Marker, &mark.rest, &inner);
    put_end(buffer, out, level);
}
