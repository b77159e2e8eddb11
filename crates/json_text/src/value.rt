// The text of a value.
ghost use Rattle.dev_io.specs.Calls.{Tells, SendsAll};
ghost use Rattle.dev_io.specs.Causes.{HasCause};
ghost use Rattle.dev_io.specs.Buffer.{HandsOver};
ghost use Rattle.json_text.specs.Levels.{deep};
ghost use Rattle.json_text.specs.Layout.{layout, text_at, list_text, object_text, item_lines, member_lines};

use crate::level::{Level, inside, put_end, put_line, top};
use crate::quote::{put_name, put_string};
use dev_io::{Out, OutBuffer, WriteFault};
use json_value::{Json, Members};

/// Sends the layout of a value: four spaces a level, each member of a list or an object that isn't
/// empty on a line of its own, and one line feed at the end. The text is JSON (RFC 8259) where the
/// numerals are.
///
/// It answers `Sink` where a write failed, and then a prefix of the text was sent, and the count of
/// faults rose, or stands at 2^64 - 1. It takes no memory.
pub fn write_json<W: Out>(value: &Json, out: &mut W) -> Result<(), WriteFault>
    ensures told { Tells (SendsAll (layout value.now) result) (W.known out.old) (W.known out.new) }
    ensures cause { HasCause (W.faults out.old) (W.faults out.new) result }
{
    let mut buffer = OutBuffer::new();
    put_value(&mut buffer, out, value, &top());
    buffer.put(out, b"\n");
    buffer.flush(out)
}

/// Hands over the text of a value whose first line is begun at this level.
#[cycle(put)]
pub fn put_value<W: Out>(buffer: &mut OutBuffer, out: &mut W, value: &Json, level: &Level<'_>)
    ensures { HandsOver W.known W.faults out.old out.new buffer.old buffer.new
        (text_at value.now (deep level.now)) }
{
    match value {
        Json::Null => buffer.put(out, b"null"),
        Json::Bool(true) => buffer.put(out, b"true"),
        Json::Bool(false) => buffer.put(out, b"false"),
        Json::Num(numeral) => buffer.put(out, numeral.as_str().as_bytes()),
        Json::Str(text) => put_string(buffer, out, text.as_str().as_bytes()),
        Json::List(list) => put_list(buffer, out, list.as_slice(), level),
        Json::Map(members) => put_object(buffer, out, members.get(), level),
    }
}

#[cycle(put)]
fn put_list<W: Out>(buffer: &mut OutBuffer, out: &mut W, items: &[Json], level: &Level<'_>)
    ensures { HandsOver W.known W.faults out.old out.new buffer.old buffer.new
        (list_text (deep level.now) items.now) }
{
    if items.is_empty() {
        buffer.put(out, b"[]");
        return;
    }
    put_items(buffer, out, items, &inside(&*level));
    put_end(buffer, out, level, b"]");
}

#[cycle(put)]
fn put_items<W: Out>(buffer: &mut OutBuffer, out: &mut W, items: &[Json], level: &Level<'_>)
    ensures { HandsOver W.known W.faults out.old out.new buffer.old buffer.new
        (item_lines 91 (deep level.now) items.now) }
{
    let mut lead: &[u8] = b"[\n";
    for item in items {
        put_line(buffer, out, lead, level);
        put_value(buffer, out, item, level);
        lead = b",\n";
    }
}

/// Hands over the text of an object whose first line is begun at this level.
#[cycle(put)]
pub fn put_object<W: Out>(buffer: &mut OutBuffer, out: &mut W, members: &Members, level: &Level<'_>)
    ensures { HandsOver W.known W.faults out.old out.new buffer.old buffer.new
        (object_text (deep level.now) members.now) }
{
    if members.as_slice().is_empty() {
        buffer.put(out, b"{}");
        return;
    }
    put_members(buffer, out, members, &inside(&*level));
    put_end(buffer, out, level, b"}");
}

#[cycle(put)]
fn put_members<W: Out>(buffer: &mut OutBuffer, out: &mut W, members: &Members, level: &Level<'_>)
    ensures { HandsOver W.known W.faults out.old out.new buffer.old buffer.new
        (member_lines 123 (deep level.now) members.now) }
{
    let mut lead: &[u8] = b"{\n";
    for member in members.as_slice() {
        put_line(buffer, out, lead, level);
        put_name(buffer, out, member.0.as_str().as_bytes());
        put_value(buffer, out, &member.1, level);
        lead = b",\n";
    }
}
