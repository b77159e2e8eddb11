//! Items with children.

ghost use Rattle.dev_io.specs.Buffer.{HandsOver};
ghost use Rattle.json_text.specs.Levels.{deep};
ghost use Rattle.json_text.specs.Layout.{text_at, list_text, item_lines};
ghost use Rattle.schema_write.specs.Objects.{item_in, children_in, stack_by, track_by};
ghost use Rattle.schema_write.specs.Styles.{style_of};

use crate::effects_layout::put_effects_row;
use crate::families::Family;
use crate::markers_layout::put_markers_row;
use crate::rows::{
    put_end, put_flag_row, put_head, put_object_row, put_others, put_row_name, put_text_row,
};
use crate::scalars_layout::{put_clip_in, put_gap, put_transition};
use crate::times_layout::put_span_row;
use dev_io::{Out, OutBuffer};
use json_text::{Level, inside, put_line};
use otio_model::{Children, Item, ItemOf, Stack, Track};
use schema_rows::Schema;

/// Hands over an item of a family.
#[cycle(item)]
pub fn put_item<W: Out>(
    buffer: &mut OutBuffer,
    out: &mut W,
    item: &Item,
    family: Family,
    level: &Level<'_>,
)
    ensures { HandsOver W.known W.faults out.old out.new buffer.old buffer.new
        (text_at (item_in (style_of family) item.now) (deep level.now)) }
{
    match item {
        ItemOf::Clip(clip) => put_clip_in(buffer, out, clip, family, level),
        ItemOf::Gap(gap) => put_gap(buffer, out, gap, family, level),
        ItemOf::Transition(transition) => put_transition(buffer, out, transition, level),
        ItemOf::Stack(stack) => put_stack(buffer, out, stack, family, level),
        ItemOf::Track(track) => put_track(buffer, out, track, family, level),
    }
}

// Hands over the children of a composition.
#[cycle(item)]
fn put_children<W: Out>(
    buffer: &mut OutBuffer,
    out: &mut W,
    children: &Children,
    family: Family,
    level: &Level<'_>,
)
    ensures { HandsOver W.known W.faults out.old out.new buffer.old buffer.new
        (list_text (deep level.now) (children_in (style_of family) children.now)) }
{
    if children.len() == 0 {
        buffer.put(out, b"[]");
        return;
    }
    put_child_lines(buffer, out, children, family, &inside(&*level));
    put_line(buffer, out, b"\n", level);
    buffer.put(out, b"]");
}

#[cycle(item)]
fn put_child_lines<W: Out>(
    buffer: &mut OutBuffer,
    out: &mut W,
    list: &Children,
    family: Family,
    level: &Level<'_>,
)
    ensures { HandsOver W.known W.faults out.old out.new buffer.old buffer.new
        (item_lines 91 (deep level.now) (children_in (style_of family) list.now)) }
{
    let mut lead: &[u8] = b"[\n";
    'items: for index in 0..list.len() {
        put_line(buffer, out, lead, level);
        put_item(buffer, out, list.child(index), family, level);
        lead = b",\n";
    }
}

/// Hands over a stack, as a timeline's root.
#[cycle(item)]
pub fn put_stack<W: Out>(
    buffer: &mut OutBuffer,
    out: &mut W,
    stack: &Stack,
    family: Family,
    level: &Level<'_>,
)
    ensures { let style = style_of family in
        HandsOver W.known W.faults out.old out.new buffer.old buffer.new
        (text_at (stack_by style (children_in style) stack.now) (deep level.now)) }
{
    let inner = inside(&*level);
    put_head(buffer, out, Schema::Stack, &inner);
    put_object_row(buffer, out, "metadata", stack.metadata.get(), &inner);
    put_text_row(buffer, out, "name", &stack.name, &inner);
    put_span_row(buffer, out, "source_range", stack.source_range, &inner);
    put_effects_row(buffer, out, &stack.effects, &inner);
    put_markers_row(buffer, out, &stack.markers, family, &inner);
    put_flag_row(buffer, out, "enabled", stack.enabled, &inner);
    put_row_name(buffer, out, "children", &inner);
    put_children(buffer, out, &stack.children, family, &inner);
    put_others(buffer, out, Schema::Stack, &stack.rest, &inner);
    put_end(buffer, out, level);
}

#[cycle(item)]
fn put_track<W: Out>(
    buffer: &mut OutBuffer,
    out: &mut W,
    track: &Track,
    family: Family,
    level: &Level<'_>,
)
    ensures { let style = style_of family in
        HandsOver W.known W.faults out.old out.new buffer.old buffer.new
        (text_at (track_by style (children_in style) track.now) (deep level.now)) }
{
    let inner = inside(&*level);
    put_head(buffer, out, Schema::Track, &inner);
    put_object_row(buffer, out, "metadata", track.metadata.get(), &inner);
    put_text_row(buffer, out, "name", &track.name, &inner);
    put_span_row(buffer, out, "source_range", track.source_range, &inner);
    put_effects_row(buffer, out, &track.effects, &inner);
    put_markers_row(buffer, out, &track.markers, family, &inner);
    put_flag_row(buffer, out, "enabled", track.enabled, &inner);
    put_row_name(buffer, out, "children", &inner);
    put_children(buffer, out, &track.children, family, &inner);
    put_text_row(buffer, out, "kind", &track.kind, &inner);
    put_others(buffer, out, Schema::Track, &track.rest, &inner);
    put_end(buffer, out, level);
}
