//! The lines of an object: its schema, a row, its other members, its end.

ghost use Rattle.std.specs.Prelude.{map};
ghost use Rattle.dev_io.specs.Buffer.{HandsOver};
ghost use Rattle.json_value.specs.declared.Json.{Str, Num, Map, Bool as JsonOfBool};
ghost use Rattle.json_text.specs.Layout.{bool_text};
ghost use Rattle.json_text.specs.Levels.{deep};
ghost use Rattle.schema_rows.specs.Rows.{row_of};
ghost use Rattle.schema_rows.specs.Schemas.{rows_of};
ghost use Rattle.schema_rows.specs.Families.{others};
ghost use Rattle.schema_write.specs.Written.{newer_of};
ghost use Rattle.schema_write.specs.Lines.{head_text, row_front, row_text, other_text, old_other_text};
ghost use Rattle.schema_write.specs.Lines.{member_rows, end_text};

use crate::families::newer;
use crate::writing::is_named;
use dev_io::{Out, OutBuffer};
use json_text::{Level, put_line, put_name, put_object, put_string, put_value};
use json_value::{Json, Members};
use schema_rows::{Field, Schema};
use sequences::Text;

/// Hands over the bracket of an object and, on a line of the level inside, its schema.
pub fn put_head<W: Out>(buffer: &mut OutBuffer, out: &mut W, schema: Schema, level: &Level<'_>)
    ensures { HandsOver W.known W.faults out.old out.new buffer.old buffer.new
        (head_text schema (deep level.now)) }
{
    put_line(buffer, out, b"{\n", level);
    buffer.put(out, b"\"OTIO_SCHEMA\": ");
    put_string(buffer, out, schema.text().as_bytes());
}

/// Hands over the name of a row on a line of its own, up to its value.
pub fn put_row_name<W: Out>(buffer: &mut OutBuffer, out: &mut W, name: &str, level: &Level<'_>)
    ensures { HandsOver W.known W.faults out.old out.new buffer.old buffer.new
        (row_front name.now (deep level.now)) }
{
    put_line(buffer, out, b",\n", level);
    put_name(buffer, out, name.as_bytes());
}

/// Hands over a row of a string.
pub fn put_text_row<W: Out>(
    buffer: &mut OutBuffer,
    out: &mut W,
    name: &str,
    text: &Text,
    level: &Level<'_>,
)
    ensures { HandsOver W.known W.faults out.old out.new buffer.old buffer.new
        (row_text name.now (Str text.now) (deep level.now)) }
{
    put_row_name(buffer, out, name, level);
    put_string(buffer, out, text.as_str().as_bytes());
}

/// Hands over a row of a numeral.
pub fn put_numeral_row<W: Out>(
    buffer: &mut OutBuffer,
    out: &mut W,
    name: &str,
    numeral: &str,
    level: &Level<'_>,
)
    ensures { HandsOver W.known W.faults out.old out.new buffer.old buffer.new
        (row_text name.now (Num numeral.now) (deep level.now)) }
{
    put_row_name(buffer, out, name, level);
    buffer.put(out, numeral.as_bytes());
}

/// Hands over a row of a truth value.
pub fn put_flag_row<W: Out>(
    buffer: &mut OutBuffer,
    out: &mut W,
    name: &str,
    truth: bool,
    level: &Level<'_>,
)
    ensures { HandsOver W.known W.faults out.old out.new buffer.old buffer.new
        (row_text name.now (JsonOfBool truth) (deep level.now)) }
{
    put_row_name(buffer, out, name, level);
    put_truth(buffer, out, truth);
}

fn put_truth<W: Out>(buffer: &mut OutBuffer, out: &mut W, truth: bool)
    ensures { HandsOver W.known W.faults out.old out.new buffer.old buffer.new
        (bool_text truth) }
{
    if truth {
        buffer.put(out, b"true");
    } else {
        buffer.put(out, b"false");
    }
}

/// Hands over a row of an object that is kept as it is.
pub fn put_object_row<W: Out>(
    buffer: &mut OutBuffer,
    out: &mut W,
    name: &str,
    members: &Members,
    level: &Level<'_>,
)
    ensures { HandsOver W.known W.faults out.old out.new buffer.old buffer.new
        (row_text name.now (Map members.now) (deep level.now)) }
{
    put_row_name(buffer, out, name, level);
    put_object(buffer, out, members, level);
}

/// Hands over the members that a schema's table has no row for.
pub fn put_others<W: Out>(
    buffer: &mut OutBuffer,
    out: &mut W,
    schema: Schema,
    rest: &Members,
    level: &Level<'_>,
)
    ensures { HandsOver W.known W.faults out.old out.new buffer.old buffer.new
        (member_rows (others (rows_of schema) rest.now) (deep level.now)) }
{
    let table = schema.table();
    for member in rest.as_slice() {
        put_other(buffer, out, table, member, level);
    }
}

/// Hands over the members that neither the table of an older schema nor that of the newer one has
/// a row for.
pub fn put_old_others<W: Out>(
    buffer: &mut OutBuffer,
    out: &mut W,
    schema: Schema,
    rest: &Members,
    level: &Level<'_>,
)
    ensures { HandsOver W.known W.faults out.old out.new buffer.old buffer.new
        (member_rows (others (rows_of schema) (others (rows_of (newer_of schema)) rest.now))
        (deep level.now)) }
{
    for member in rest.as_slice() {
        put_old_other(buffer, out, schema, member, level);
    }
}

// Hands over a member where neither of the two tables has a row for it.
fn put_old_other<W: Out>(
    buffer: &mut OutBuffer,
    out: &mut W,
    schema: Schema,
    member: &(Text, Json),
    level: &Level<'_>,
)
    ensures { HandsOver W.known W.faults out.old out.new buffer.old buffer.new
        (old_other_text (rows_of (newer_of schema)) (rows_of schema) member.now
        (deep level.now)) }
{
    if is_named(newer(schema).table(), member.0.as_str()) {
        return;
    }
    put_other(buffer, out, schema.table(), member, level);
}

// Hands over a member where the table has no row for it.
fn put_other<W: Out>(
    buffer: &mut OutBuffer,
    out: &mut W,
    table: &[Field],
    member: &(Text, Json),
    level: &Level<'_>,
)
    ensures { HandsOver W.known W.faults out.old out.new buffer.old buffer.new
        (other_text (map row_of table.now) member.now (deep level.now)) }
{
    let text = member.0.as_str();
    if is_named(table, text) {
        return;
    }
    put_row_name(buffer, out, text, level);
    put_value(buffer, out, &member.1, level);
}

/// Hands over the end of an object.
pub fn put_end<W: Out>(buffer: &mut OutBuffer, out: &mut W, level: &Level<'_>)
    ensures { HandsOver W.known W.faults out.old out.new buffer.old buffer.new
        (end_text (deep level.now)) }
{
    put_line(buffer, out, b"\n", level);
    buffer.put(out, b"}");
}
