//! Media references.

ghost use Rattle.std.specs.Prelude.{map, codes};
ghost use Rattle.dev_io.specs.Buffer.{HandsOver};
ghost use Rattle.json_text.specs.Levels.{deep};
ghost use Rattle.json_text.specs.Layout.{text_at, object_text, member_lines};
ghost use Rattle.schema_write.specs.Objects.{media_json, medium_pair, medium_json, reference_json};
ghost use Rattle.schema_write.specs.Objects.{external_json, missing_json};
ghost use Rattle.schema_write.specs.Objects.{generator_json, images_json};
ghost use Rattle.schema_write.specs.Lines.{row_text};

use crate::rows::{put_end, put_head, put_object_row, put_others, put_row_name, put_text_row};
use crate::times_layout::put_span_row;
use dev_io::{Out, OutBuffer};
use json_text::{Level, inside, put_line, put_name, put_value};
use otio_model::{External, Generator, Media, MediaMap, Missing, Sequence};
use schema_rows::Schema;

/// Hands over the row of a clip's media references, under their keys.
pub fn put_media_row<W: Out>(
    buffer: &mut OutBuffer,
    out: &mut W,
    media: &MediaMap,
    level: &Level<'_>,
)
    ensures { HandsOver W.known W.faults out.old out.new buffer.old buffer.new
        (row_text (codes "media_references") (media_json media.now) (deep level.now)) }
{
    put_row_name(buffer, out, "media_references", level);
    put_media(buffer, out, media, level);
}

/// Hands over the row of the reference of a `Clip.1`: the first of the references, or null where
/// there is none.
pub fn put_reference_row<W: Out>(
    buffer: &mut OutBuffer,
    out: &mut W,
    media: &MediaMap,
    level: &Level<'_>,
)
    ensures { HandsOver W.known W.faults out.old out.new buffer.old buffer.new
        (row_text (codes "media_reference") (reference_json media.now) (deep level.now)) }
{
    put_row_name(buffer, out, "media_reference", level);
    match media.as_slice().first() {
        Some(pair) => put_medium(buffer, out, &pair.1, level),
        None => buffer.put(out, b"null"),
    }
}

fn put_media<W: Out>(buffer: &mut OutBuffer, out: &mut W, media: &MediaMap, level: &Level<'_>)
    ensures { HandsOver W.known W.faults out.old out.new buffer.old buffer.new
        (object_text (deep level.now) (map medium_pair media.now)) }
{
    if media.as_slice().is_empty() {
        buffer.put(out, b"{}");
        return;
    }
    put_media_lines(buffer, out, media, &inside(&*level));
    put_line(buffer, out, b"\n", level);
    buffer.put(out, b"}");
}

fn put_media_lines<W: Out>(buffer: &mut OutBuffer, out: &mut W, pairs: &MediaMap, level: &Level<'_>)
    ensures { HandsOver W.known W.faults out.old out.new buffer.old buffer.new
        (member_lines 123 (deep level.now) (map medium_pair pairs.now)) }
{
    let mut lead: &[u8] = b"{\n";
    for pair in pairs.as_slice() {
        put_line(buffer, out, lead, level);
        put_name(buffer, out, pair.0.as_str().as_bytes());
        put_medium(buffer, out, &pair.1, level);
        lead = b",\n";
    }
}

fn put_medium<W: Out>(buffer: &mut OutBuffer, out: &mut W, medium: &Media, level: &Level<'_>)
    ensures { HandsOver W.known W.faults out.old out.new buffer.old buffer.new
        (text_at (medium_json medium.now) (deep level.now)) }
{
    match medium {
        Media::External(medium) => put_external(buffer, out, medium, level),
        Media::Missing(medium) => put_missing(buffer, out, medium, level),
        Media::Generator(medium) => put_generator(buffer, out, medium, level),
        Media::Sequence(medium) => put_images(buffer, out, medium, level),
        Media::Kept(value) => put_value(buffer, out, value, level),
    }
}

fn put_external<W: Out>(buffer: &mut OutBuffer, out: &mut W, external: &External, level: &Level<'_>)
    ensures { HandsOver W.known W.faults out.old out.new buffer.old buffer.new
        (text_at (external_json external.now) (deep level.now)) }
{
    let inner = inside(&*level);
    put_head(buffer, out, Schema::External, &inner);
    put_object_row(buffer, out, "metadata", &external.metadata, &inner);
    put_text_row(buffer, out, "name", &external.name, &inner);
    put_span_row(
        buffer,
        out,
        "available_range",
        external.available_range,
        &inner,
    );
    put_text_row(buffer, out, "target_url", &external.target_url, &inner);
    put_others(buffer, out, Schema::External, &external.rest, &inner);
    put_end(buffer, out, level);
}

fn put_missing<W: Out>(buffer: &mut OutBuffer, out: &mut W, missing: &Missing, level: &Level<'_>)
    ensures { HandsOver W.known W.faults out.old out.new buffer.old buffer.new
        (text_at (missing_json missing.now) (deep level.now)) }
{
    let inner = inside(&*level);
    put_head(buffer, out, Schema::Missing, &inner);
    put_object_row(buffer, out, "metadata", &missing.metadata, &inner);
    put_text_row(buffer, out, "name", &missing.name, &inner);
    put_span_row(
        buffer,
        out,
        "available_range",
        missing.available_range,
        &inner,
    );
    put_others(buffer, out, Schema::Missing, &missing.rest, &inner);
    put_end(buffer, out, level);
}

fn put_generator<W: Out>(
    buffer: &mut OutBuffer,
    out: &mut W,
    generator: &Generator,
    level: &Level<'_>,
)
    ensures { HandsOver W.known W.faults out.old out.new buffer.old buffer.new
        (text_at (generator_json generator.now) (deep level.now)) }
{
    let inner = inside(&*level);
    put_head(buffer, out, Schema::Generator, &inner);
    put_object_row(buffer, out, "metadata", &generator.metadata, &inner);
    put_text_row(buffer, out, "name", &generator.name, &inner);
    put_span_row(
        buffer,
        out,
        "available_range",
        generator.available_range,
        &inner,
    );
    put_text_row(
        buffer,
        out,
        "generator_kind",
        &generator.generator_kind,
        &inner,
    );
    put_others(buffer, out, Schema::Generator, &generator.rest, &inner);
    put_end(buffer, out, level);
}

fn put_images<W: Out>(buffer: &mut OutBuffer, out: &mut W, images: &Sequence, level: &Level<'_>)
    ensures { HandsOver W.known W.faults out.old out.new buffer.old buffer.new
        (text_at (images_json images.now) (deep level.now)) }
{
    let inner = inside(&*level);
    put_head(buffer, out, Schema::Images, &inner);
    put_object_row(buffer, out, "metadata", &images.metadata, &inner);
    put_text_row(buffer, out, "name", &images.name, &inner);
    put_span_row(
        buffer,
        out,
        "available_range",
        images.available_range,
        &inner,
    );
    put_text_row(
        buffer,
        out,
        "target_url_base",
        &images.target_url_base,
        &inner,
    );
    put_text_row(buffer, out, "name_prefix", &images.name_prefix, &inner);
    put_text_row(buffer, out, "name_suffix", &images.name_suffix, &inner);
    put_others(buffer, out, Schema::Images, &images.rest, &inner);
    put_end(buffer, out, level);
}
