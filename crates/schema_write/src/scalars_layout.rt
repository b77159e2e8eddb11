//! Items without children.

ghost use Rattle.dev_io.specs.Buffer.{HandsOver};
ghost use Rattle.json_text.specs.Levels.{deep};
ghost use Rattle.json_text.specs.Layout.{text_at};
ghost use Rattle.schema_write.specs.Objects.{clip_json, old_clip_json, gap_in, transition_json};
ghost use Rattle.schema_write.specs.Styles.{style_of};

use crate::effects_layout::put_effects_row;
use crate::families::Family;
use crate::markers_layout::put_markers_row;
use crate::media_layout::{put_media_row, put_reference_row};
use crate::rows::{
    put_end, put_flag_row, put_head, put_object_row, put_old_others, put_others, put_text_row,
};
use crate::times_layout::{put_offset_row, put_span_row};
use dev_io::{Out, OutBuffer};
use json_text::{Level, inside};
use otio_model::{Clip, Gap, Transition};
use schema_rows::Schema;

/// Hands over a clip of a family.
pub fn put_clip_in<W: Out>(
    buffer: &mut OutBuffer,
    out: &mut W,
    clip: &Clip,
    family: Family,
    level: &Level<'_>,
)
    ensures { HandsOver W.known W.faults out.old out.new buffer.old buffer.new
        (text_at ((style_of family).clip clip.now) (deep level.now)) }
{
    match family {
        Family::Old => put_old_clip(buffer, out, clip, level),
        Family::New => put_clip(buffer, out, clip, level),
    }
}

fn put_old_clip<W: Out>(buffer: &mut OutBuffer, out: &mut W, clip: &Clip, level: &Level<'_>)
    ensures { HandsOver W.known W.faults out.old out.new buffer.old buffer.new
        (text_at (old_clip_json clip.now) (deep level.now)) }
{
    let inner = inside(&*level);
    put_head(buffer, out, Schema::FirstClip, &inner);
    put_object_row(buffer, out, "metadata", clip.metadata.get(), &inner);
    put_text_row(buffer, out, "name", &clip.name, &inner);
    put_span_row(buffer, out, "source_range", clip.source_range, &inner);
    put_effects_row(buffer, out, &clip.effects, &inner);
    put_markers_row(buffer, out, &clip.markers, Family::Old, &inner);
    put_flag_row(buffer, out, "enabled", clip.enabled, &inner);
    put_reference_row(buffer, out, &clip.media_references, &inner);
    put_old_others(buffer, out, Schema::FirstClip, &clip.rest, &inner);
    put_end(buffer, out, level);
}

fn put_clip<W: Out>(buffer: &mut OutBuffer, out: &mut W, clip: &Clip, level: &Level<'_>)
    ensures { HandsOver W.known W.faults out.old out.new buffer.old buffer.new
        (text_at (clip_json clip.now) (deep level.now)) }
{
    let inner = inside(&*level);
    put_head(buffer, out, Schema::Clip, &inner);
    put_object_row(buffer, out, "metadata", clip.metadata.get(), &inner);
    put_text_row(buffer, out, "name", &clip.name, &inner);
    put_span_row(buffer, out, "source_range", clip.source_range, &inner);
    put_effects_row(buffer, out, &clip.effects, &inner);
    put_markers_row(buffer, out, &clip.markers, Family::New, &inner);
    put_flag_row(buffer, out, "enabled", clip.enabled, &inner);
    put_media_row(buffer, out, &clip.media_references, &inner);
    put_text_row(
        buffer,
        out,
        "active_media_reference_key",
        &clip.active_media_reference_key,
        &inner,
    );
    put_others(buffer, out, Schema::Clip, &clip.rest, &inner);
    put_end(buffer, out, level);
}

/// Hands over a gap of a family.
pub fn put_gap<W: Out>(
    buffer: &mut OutBuffer,
    out: &mut W,
    gap: &Gap,
    family: Family,
    level: &Level<'_>,
)
    ensures { HandsOver W.known W.faults out.old out.new buffer.old buffer.new
        (text_at (gap_in (style_of family) gap.now) (deep level.now)) }
{
    let inner = inside(&*level);
    put_head(buffer, out, Schema::Gap, &inner);
    put_object_row(buffer, out, "metadata", gap.metadata.get(), &inner);
    put_text_row(buffer, out, "name", &gap.name, &inner);
    put_span_row(buffer, out, "source_range", gap.source_range, &inner);
    put_effects_row(buffer, out, &gap.effects, &inner);
    put_markers_row(buffer, out, &gap.markers, family, &inner);
    put_flag_row(buffer, out, "enabled", gap.enabled, &inner);
    put_others(buffer, out, Schema::Gap, &gap.rest, &inner);
    put_end(buffer, out, level);
}

/// Hands over a transition.
pub fn put_transition<W: Out>(
    buffer: &mut OutBuffer,
    out: &mut W,
    transition: &Transition,
    level: &Level<'_>,
)
    ensures { HandsOver W.known W.faults out.old out.new buffer.old buffer.new
        (text_at (transition_json transition.now) (deep level.now)) }
{
    let inner = inside(&*level);
    put_head(buffer, out, Schema::Transition, &inner);
    put_object_row(buffer, out, "metadata", transition.metadata.get(), &inner);
    put_text_row(buffer, out, "name", &transition.name, &inner);
    put_text_row(
        buffer,
        out,
        "transition_type",
        &transition.transition_type,
        &inner,
    );
    put_offset_row(buffer, out, "in_offset", transition.in_offset, &inner);
    put_offset_row(buffer, out, "out_offset", transition.out_offset, &inner);
    put_others(buffer, out, Schema::Transition, &transition.rest, &inner);
    put_end(buffer, out, level);
}
