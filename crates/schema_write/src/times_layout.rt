//! Times and ranges of time.

ghost use Rattle.dev_io.specs.Buffer.{HandsOver};
ghost use Rattle.json_text.specs.Levels.{deep};
ghost use Rattle.json_text.specs.Layout.{text_at};
ghost use Rattle.schema_write.specs.Objects.{time_json, offset_json, range_json, span_json};
ghost use Rattle.schema_write.specs.Lines.{row_text};

use crate::numerals_layout::{put_rate_row, put_value_row};
use crate::rows::{put_end, put_head, put_row_name};
use dev_io::{Out, OutBuffer};
use json_text::{Level, inside};
use schema_rows::Schema;
use tick_time::{Span, Time};

/// Hands over a time.
pub fn put_time<W: Out>(buffer: &mut OutBuffer, out: &mut W, time: Time, level: &Level<'_>)
    ensures { HandsOver W.known W.faults out.old out.new buffer.old buffer.new
        (text_at (time_json time) (deep level.now)) }
{
    let inner = inside(&*level);
    put_head(buffer, out, Schema::RationalTime, &inner);
    put_rate_row(buffer, out, "rate", time.rate, &inner);
    put_value_row(buffer, out, "value", time, &inner);
    put_end(buffer, out, level);
}

/// Hands over a row of a time, or of null.
pub fn put_offset_row<W: Out>(
    buffer: &mut OutBuffer,
    out: &mut W,
    name: &str,
    offset: Option<Time>,
    level: &Level<'_>,
)
    ensures { HandsOver W.known W.faults out.old out.new buffer.old buffer.new
        (row_text name.now (offset_json offset) (deep level.now)) }
{
    put_row_name(buffer, out, name, level);
    match offset {
        Some(time) => put_time(buffer, out, time, level),
        None => buffer.put(out, b"null"),
    }
}

/// Hands over a row of a range of time, or of null.
pub fn put_span_row<W: Out>(
    buffer: &mut OutBuffer,
    out: &mut W,
    name: &str,
    span: Option<Span>,
    level: &Level<'_>,
)
    ensures { HandsOver W.known W.faults out.old out.new buffer.old buffer.new
        (row_text name.now (span_json span) (deep level.now)) }
{
    put_row_name(buffer, out, name, level);
    match span {
        Some(span) => put_range(buffer, out, span, level),
        None => buffer.put(out, b"null"),
    }
}

fn put_range<W: Out>(buffer: &mut OutBuffer, out: &mut W, span: Span, level: &Level<'_>)
    ensures { HandsOver W.known W.faults out.old out.new buffer.old buffer.new
        (text_at (range_json span) (deep level.now)) }
{
    let inner = inside(&*level);
    put_head(buffer, out, Schema::TimeRange, &inner);
    put_row_name(buffer, out, "duration", &inner);
    put_time(buffer, out, span.len, &inner);
    put_row_name(buffer, out, "start_time", &inner);
    put_time(buffer, out, span.start, &inner);
    put_end(buffer, out, level);
}
