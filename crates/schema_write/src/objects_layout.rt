//! What may stand at the root of a file.

ghost use Rattle.dev_io.specs.Calls.{Tells, SendsAll};
ghost use Rattle.dev_io.specs.Causes.{HasCause};
ghost use Rattle.dev_io.specs.Buffer.{HandsOver};
ghost use Rattle.json_text.specs.Levels.{deep};
ghost use Rattle.json_text.specs.Layout.{layout, text_at, list_text, item_lines};
ghost use Rattle.schema_write.specs.Objects.{json_of, old_json_of, object_in, collection_in, timeline_in, timeline_json};
ghost use Rattle.schema_write.specs.Styles.{style_of};
ghost use Rattle.std.specs.Prelude.{map};

use crate::families::Family;
use crate::items_layout::{put_item, put_stack};
use crate::rows::{put_end, put_head, put_object_row, put_others, put_row_name, put_text_row};
use crate::times_layout::put_offset_row;
use dev_io::{Out, OutBuffer, WriteFault};
use json_text::{Level, inside, put_line, top};
use otio_model::{Collection, Object, Timeline};
use schema_rows::Schema;

/// Sends the layout of the object in JSON, in the written order of its schemas' tables. It takes no
/// memory. `Sink` comes only where a write failed, and then a prefix of the text was sent, and the
/// count of faults rose, or stands at 2^64 - 1.
pub fn write_object<W: Out>(object: &Object, out: &mut W) -> Result<(), WriteFault>
    ensures told { Tells (SendsAll (layout (json_of object.now)) result) (W.known out.old)
        (W.known out.new) }
    ensures cause { HasCause (W.faults out.old) (W.faults out.new) result }
{
    let mut buffer = OutBuffer::new();
    put_root(&mut buffer, out, object, Family::New, &top());
    buffer.put(out, b"\n");
    buffer.flush(out)
}

/// Sends the layout of the object in JSON in the older family, as
/// [`json_of_old`](crate::json_of_old) has it where the object has a form there. Where it has none,
/// what `Clip.1` and `Marker.1` can't hold is left out: ask [`old_form`](crate::old_form) before.
/// It takes no memory. `Sink` comes only where a write failed, and then a prefix of the text was
/// sent, and the count of faults rose, or stands at 2^64 - 1.
pub fn write_old_object<W: Out>(object: &Object, out: &mut W) -> Result<(), WriteFault>
    ensures told { Tells (SendsAll (layout (old_json_of object.now)) result) (W.known out.old)
        (W.known out.new) }
    ensures cause { HasCause (W.faults out.old) (W.faults out.new) result }
{
    let mut buffer = OutBuffer::new();
    put_root(&mut buffer, out, object, Family::Old, &top());
    buffer.put(out, b"\n");
    buffer.flush(out)
}

/// Sends the layout of the timeline in JSON, in the written order of its schemas' tables. It takes
/// no memory. `Sink` comes only where a write failed, and then a prefix of the text was sent, and
/// the count of faults rose, or stands at 2^64 - 1.
pub fn write_timeline<W: Out>(timeline: &Timeline, out: &mut W) -> Result<(), WriteFault>
    ensures told { Tells (SendsAll (layout (timeline_json timeline.now)) result) (W.known out.old)
        (W.known out.new) }
    ensures cause { HasCause (W.faults out.old) (W.faults out.new) result }
{
    let mut buffer = OutBuffer::new();
    put_timeline(&mut buffer, out, timeline, Family::New, &top());
    buffer.put(out, b"\n");
    buffer.flush(out)
}

#[cycle(object)]
fn put_root<W: Out>(
    buffer: &mut OutBuffer,
    out: &mut W,
    object: &Object,
    family: Family,
    level: &Level<'_>,
)
    ensures { HandsOver W.known W.faults out.old out.new buffer.old buffer.new
        (text_at (object_in (style_of family) object.now) (deep level.now)) }
{
    match object {
        Object::Timeline(timeline) => put_timeline(buffer, out, timeline, family, level),
        Object::Collection(collection) => put_collection(buffer, out, collection, family, level),
        Object::Item(item) => put_item(buffer, out, item, family, level),
    }
}

#[cycle(object)]
fn put_collection<W: Out>(
    buffer: &mut OutBuffer,
    out: &mut W,
    collection: &Collection,
    family: Family,
    level: &Level<'_>,
)
    ensures { HandsOver W.known W.faults out.old out.new buffer.old buffer.new
        (text_at (collection_in (style_of family) collection.now) (deep level.now)) }
{
    let inner = inside(&*level);
    put_head(buffer, out, Schema::Collection, &inner);
    put_object_row(buffer, out, "metadata", &collection.metadata, &inner);
    put_text_row(buffer, out, "name", &collection.name, &inner);
    put_row_name(buffer, out, "children", &inner);
    put_objects(buffer, out, collection.children.as_slice(), family, &inner);
    put_others(buffer, out, Schema::Collection, &collection.rest, &inner);
    put_end(buffer, out, level);
}

#[cycle(object)]
fn put_objects<W: Out>(
    buffer: &mut OutBuffer,
    out: &mut W,
    objects: &[Object],
    family: Family,
    level: &Level<'_>,
)
    ensures { HandsOver W.known W.faults out.old out.new buffer.old buffer.new
        (list_text (deep level.now) (map (object_in (style_of family)) objects.now)) }
{
    if objects.is_empty() {
        buffer.put(out, b"[]");
        return;
    }
    put_object_lines(buffer, out, objects, family, &inside(&*level));
    put_line(buffer, out, b"\n", level);
    buffer.put(out, b"]");
}

#[cycle(object)]
fn put_object_lines<W: Out>(
    buffer: &mut OutBuffer,
    out: &mut W,
    list: &[Object],
    family: Family,
    level: &Level<'_>,
)
    ensures { HandsOver W.known W.faults out.old out.new buffer.old buffer.new
        (item_lines 91 (deep level.now) (map (object_in (style_of family)) list.now)) }
{
    let mut lead: &[u8] = b"[\n";
    for object in list {
        put_line(buffer, out, lead, level);
        put_root(buffer, out, object, family, level);
        lead = b",\n";
    }
}

fn put_timeline<W: Out>(
    buffer: &mut OutBuffer,
    out: &mut W,
    timeline: &Timeline,
    family: Family,
    level: &Level<'_>,
)
    ensures { HandsOver W.known W.faults out.old out.new buffer.old buffer.new
        (text_at (timeline_in (style_of family) timeline.now) (deep level.now)) }
{
    let inner = inside(&*level);
    put_head(buffer, out, Schema::Timeline, &inner);
    put_object_row(buffer, out, "metadata", &timeline.metadata, &inner);
    put_text_row(buffer, out, "name", &timeline.name, &inner);
    put_offset_row(
        buffer,
        out,
        "global_start_time",
        timeline.global_start_time,
        &inner,
    );
    put_row_name(buffer, out, "tracks", &inner);
    put_stack(buffer, out, &timeline.tracks, family, &inner);
    put_others(buffer, out, Schema::Timeline, &timeline.rest, &inner);
    put_end(buffer, out, level);
}
