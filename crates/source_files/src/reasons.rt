//! Reasons of refusals, and their texts.

ghost use Rattle.std.specs.Prelude.{◌≡◌};
ghost use Rattle.dev_io.specs.Buffer.{HandsOver};
ghost use Rattle.source_files.specs.Reasons.{detail_text, number_text, item_text, field_text, line_at_text, reason_text};

use crate::places::put_place;
use dev_io::{Out, OutBuffer, put_number};
use otio_model::Place;
use sequences::Text;

/// Where a fault lies.
#[derive(Drop)]
pub enum Detail {
    /// The message tells no more than the fault.
    Nothing,
    /// The whole object.
    Root,
    /// A line, counted from 1, or an offset in bytes, from 0.
    Number(u64),
    /// The item at the place.
    At(Place),
    /// That member of the item at the place.
    Member(Place, Text),
    /// A line, counted from 1, and the item at the place that it speaks of.
    LineAt(u32, Place),
}

/// What a message tells of a fault after the name of the file.
#[derive(Drop)]
pub struct Reason {
    /// The code of the fault: a letter and a number.
    pub code: &'static str,
    /// The fault in a word.
    pub word: &'static str,
    /// Where the fault lies.
    pub detail: Detail,
}

/// Hands over what a message tells after the name of the file, up to and with the end of the line.
/// It takes no memory.
pub fn put_reason<W: Out>(buffer: &mut OutBuffer, out: &mut W, reason: &Reason)
    ensures { HandsOver W.known W.faults out.old out.new buffer.old buffer.new
        (reason_text reason.now) }
{
    buffer.put(out, b": ");
    buffer.put(out, reason.code.as_bytes());
    buffer.put(out, b" ");
    buffer.put(out, reason.word.as_bytes());
    put_detail(buffer, out, &reason.detail);
    buffer.put(out, b"\n");
}

// Hands over where a fault lies.
fn put_detail<W: Out>(buffer: &mut OutBuffer, out: &mut W, detail: &Detail)
    ensures { HandsOver W.known W.faults out.old out.new buffer.old buffer.new
        (detail_text detail.now) }
{
    match detail {
        Detail::Nothing => buffer.put(out, b""),
        Detail::Root => buffer.put(out, b" at ."),
        Detail::Number(number) => put_at(buffer, out, *number),
        Detail::At(place) => put_item(buffer, out, place),
        Detail::Member(place, member) => put_member(buffer, out, place, member.as_str()),
        Detail::LineAt(line, place) => put_line_at(buffer, out, *line, place),
    }
}

// Hands over a line or an offset.
fn put_at<W: Out>(buffer: &mut OutBuffer, out: &mut W, number: u64)
    ensures { HandsOver W.known W.faults out.old out.new buffer.old buffer.new
        (number_text number) }
{
    buffer.put(out, b" at ");
    put_number(buffer, out, number);
}

// Hands over the place of an item.
fn put_item<W: Out>(buffer: &mut OutBuffer, out: &mut W, place: &Place)
    ensures { HandsOver W.known W.faults out.old out.new buffer.old buffer.new
        (item_text place.now) }
{
    buffer.put(out, b" at ");
    put_place(buffer, out, place);
}

// Hands over the place of an item and the name of a member.
fn put_member<W: Out>(buffer: &mut OutBuffer, out: &mut W, place: &Place, member: &str)
    ensures { HandsOver W.known W.faults out.old out.new buffer.old buffer.new
        (field_text place.now member.now) }
{
    buffer.put(out, b" at ");
    put_place(buffer, out, place);
    buffer.put(out, b" ");
    buffer.put(out, member.as_bytes());
}

// Hands over a line and the place of an item.
fn put_line_at<W: Out>(buffer: &mut OutBuffer, out: &mut W, line: u32, place: &Place)
    ensures { HandsOver W.known W.faults out.old out.new buffer.old buffer.new
        (line_at_text line place.now) }
{
    buffer.put(out, b" at ");
    put_number(buffer, out, u64::from(line));
    buffer.put(out, b" ");
    put_place(buffer, out, place);
}
