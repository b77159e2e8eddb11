//! Effects.

ghost use Rattle.std.specs.Prelude.{◌≡◌, map, codes};
ghost use Rattle.schema_rows.specs.Readings.{plain_schema};
ghost use Rattle.dev_io.specs.Buffer.{HandsOver};
ghost use Rattle.json_text.specs.Levels.{deep};
ghost use Rattle.json_text.specs.Layout.{text_at, list_text, item_lines};
ghost use Rattle.schema_write.specs.Objects.{effects_json, effect_json, warp_json, freeze_json, plain_json};
ghost use Rattle.schema_write.specs.Lines.{row_text};

use crate::numerals_layout::put_speed_row;
use crate::rows::{
    put_end, put_head, put_numeral_row, put_object_row, put_others, put_row_name, put_text_row,
};
use dev_io::{Out, OutBuffer};
use json_text::{Level, inside, put_line, put_value};
use otio_model::{Effect, Effects, Freeze, Plain, Warp};
use schema_rows::Schema;

/// Hands over the row of an item's effects.
pub fn put_effects_row<W: Out>(
    buffer: &mut OutBuffer,
    out: &mut W,
    effects: &Effects,
    level: &Level<'_>,
)
    ensures { HandsOver W.known W.faults out.old out.new buffer.old buffer.new
        (row_text (codes "effects") (effects_json effects.now) (deep level.now)) }
{
    put_row_name(buffer, out, "effects", level);
    put_effects(buffer, out, effects.as_slice(), level);
}

fn put_effects<W: Out>(buffer: &mut OutBuffer, out: &mut W, effects: &[Effect], level: &Level<'_>)
    ensures { HandsOver W.known W.faults out.old out.new buffer.old buffer.new
        (list_text (deep level.now) (map effect_json effects.now)) }
{
    if effects.is_empty() {
        buffer.put(out, b"[]");
        return;
    }
    put_effect_lines(buffer, out, effects, &inside(&*level));
    put_line(buffer, out, b"\n", level);
    buffer.put(out, b"]");
}

fn put_effect_lines<W: Out>(buffer: &mut OutBuffer, out: &mut W, list: &[Effect], level: &Level<'_>)
    ensures { HandsOver W.known W.faults out.old out.new buffer.old buffer.new
        (item_lines 91 (deep level.now) (map effect_json list.now)) }
{
    let mut lead: &[u8] = b"[\n";
    for effect in list {
        put_line(buffer, out, lead, level);
        put_effect(buffer, out, effect, level);
        lead = b",\n";
    }
}

fn put_effect<W: Out>(buffer: &mut OutBuffer, out: &mut W, effect: &Effect, level: &Level<'_>)
    ensures { HandsOver W.known W.faults out.old out.new buffer.old buffer.new
        (text_at (effect_json effect.now) (deep level.now)) }
{
    match effect {
        Effect::Warp(warp) => put_warp(buffer, out, warp.get(), level),
        Effect::Freeze(freeze) => put_freeze(buffer, out, freeze.get(), level),
        Effect::Plain(plain) => put_plain(buffer, out, plain.get(), level),
        Effect::Kept(value) => put_value(buffer, out, value, level),
    }
}

fn put_warp<W: Out>(buffer: &mut OutBuffer, out: &mut W, warp: &Warp, level: &Level<'_>)
    ensures { HandsOver W.known W.faults out.old out.new buffer.old buffer.new
        (text_at (warp_json warp.now) (deep level.now)) }
{
    let inner = inside(&*level);
    put_head(buffer, out, Schema::Warp, &inner);
    put_object_row(buffer, out, "metadata", &warp.metadata, &inner);
    put_text_row(buffer, out, "name", &warp.name, &inner);
    put_text_row(buffer, out, "effect_name", &warp.effect_name, &inner);
    put_speed_row(buffer, out, "time_scalar", warp.time_scalar, &inner);
    put_others(buffer, out, Schema::Warp, &warp.rest, &inner);
    put_end(buffer, out, level);
}

fn put_freeze<W: Out>(buffer: &mut OutBuffer, out: &mut W, freeze: &Freeze, level: &Level<'_>)
    ensures { HandsOver W.known W.faults out.old out.new buffer.old buffer.new
        (text_at (freeze_json freeze.now) (deep level.now)) }
{
    let inner = inside(&*level);
    put_head(buffer, out, Schema::Freeze, &inner);
    put_object_row(buffer, out, "metadata", &freeze.metadata, &inner);
    put_text_row(buffer, out, "name", &freeze.name, &inner);
    put_text_row(buffer, out, "effect_name", &freeze.effect_name, &inner);
    put_numeral_row(buffer, out, "time_scalar", "0.0", &inner);
    put_others(buffer, out, Schema::Freeze, &freeze.rest, &inner);
    put_end(buffer, out, level);
}

fn put_plain<W: Out>(buffer: &mut OutBuffer, out: &mut W, plain: &Plain, level: &Level<'_>)
    ensures { HandsOver W.known W.faults out.old out.new buffer.old buffer.new
        (text_at (plain_json plain.now) (deep level.now)) }
{
    put_plain_as(buffer, out, plain, schema_of(plain.timed), level);
}

fn schema_of(timed: bool) -> Schema
    ensures { result ≡ plain_schema timed }
{
    if timed {
        Schema::TimeEffect
    } else {
        Schema::Effect
    }
}

fn put_plain_as<W: Out>(
    buffer: &mut OutBuffer,
    out: &mut W,
    plain: &Plain,
    schema: Schema,
    level: &Level<'_>,
)
    requires { schema ≡ plain_schema plain.now.timed }
    ensures { HandsOver W.known W.faults out.old out.new buffer.old buffer.new
        (text_at (plain_json plain.now) (deep level.now)) }
{
    let inner = inside(&*level);
    put_head(buffer, out, schema, &inner);
    put_object_row(buffer, out, "metadata", &plain.metadata, &inner);
    put_text_row(buffer, out, "name", &plain.name, &inner);
    put_text_row(buffer, out, "effect_name", &plain.effect_name, &inner);
    put_others(buffer, out, schema, &plain.rest, &inner);
    put_end(buffer, out, level);
}
