//! The lines of a media list, written.

ghost use Rattle.std.specs.Prelude.{◌≡◌};
ghost use Rattle.std.specs.Fmt.{signed_decimal};
ghost use Rattle.dev_io.specs.Buffer.{HandsOver};
ghost use Rattle.dev_io.specs.Calls.{Tells, SendsAll};
ghost use Rattle.dev_io.specs.Causes.{HasCause};
ghost use Rattle.schema_write.specs.Texts.{rate_text};
ghost use Rattle.media_text.specs.Texts.{media_text, row_line, row_text};

use dev_io::{Out, OutBuffer, WriteFault};
use itoa::Buffer;
use media_list::{MediaList, MediaRow};
use sequences::Text;
use tick_time::Rate;

// Hands over a whole number, with `-` where it is negative.
fn put_signed<W: Out>(buffer: &mut OutBuffer, out: &mut W, number: &i64)
    ensures { HandsOver W.known W.faults out.old out.new buffer.old buffer.new
        (signed_decimal number.now) }
{
    let mut digits = Buffer::new();
    buffer.put(out, digits.format(*number).as_bytes());
}

// Hands over the text of a rate.
fn put_rate<W: Out>(buffer: &mut OutBuffer, out: &mut W, rate: Rate)
    ensures { HandsOver W.known W.faults out.old out.new buffer.old buffer.new (rate_text rate) }
{
    buffer.put(out, rate.text().as_str().as_bytes());
}

// Hands over a text.
fn put_text<W: Out>(buffer: &mut OutBuffer, out: &mut W, text: &Text)
    ensures { HandsOver W.known W.faults out.old out.new buffer.old buffer.new text.now }
{
    buffer.put(out, text.as_str().as_bytes());
}

// Hands over the line of a row, with its end.
fn put_row<W: Out>(buffer: &mut OutBuffer, out: &mut W, row: &MediaRow)
    ensures { HandsOver W.known W.faults out.old out.new buffer.old buffer.new
        (row_text row.now) }
{
    put_line(buffer, out, row);
    buffer.put(out, b"\n");
}

// Hands over the line of a row without its end.
fn put_line<W: Out>(buffer: &mut OutBuffer, out: &mut W, row: &MediaRow)
    ensures { HandsOver W.known W.faults out.old out.new buffer.old buffer.new
        (row_line row.now) }
{
    put_text(buffer, out, &row.reel);
    buffer.put(out, b"\t");
    put_rate(buffer, out, row.rate);
    buffer.put(out, b"\t");
    put_signed(buffer, out, &row.start);
    buffer.put(out, b"\t");
    put_signed(buffer, out, &row.count);
    buffer.put(out, b"\t");
    put_text(buffer, out, &row.url);
}

// Hands over the lines of all rows.
fn put_rows<W: Out>(buffer: &mut OutBuffer, out: &mut W, rows: &[MediaRow])
    ensures { HandsOver W.known W.faults out.old out.new buffer.old buffer.new
        (media_text rows.now) }
{
    'rows: for row in rows {
        put_row(buffer, out, row);
    }
}

/// Sends a media list, a line for each row: reel, rate, start, length in frames and URL, with one
/// tab between. It takes no memory.
///
/// # Errors
/// `Sink` comes only where a write failed, and then a prefix of the text was sent, and the count of
/// faults rose, or stands at 2^64 - 1.
pub fn write_media<W: Out>(list: &MediaList, out: &mut W) -> Result<(), WriteFault>
    ensures told { Tells (SendsAll (media_text list.now) result) (W.known out.old)
        (W.known out.new) }
    ensures cause { HasCause (W.faults out.old) (W.faults out.new) result }
{
    let mut buffer = OutBuffer::new();
    put_rows(&mut buffer, out, list.rows());
    buffer.flush(out)
}
