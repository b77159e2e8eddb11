//! The texts of pictures.

ghost use Rattle.std.specs.Prelude.{◌≡◌, ◌++◌, codes, decimal, unsigned_abs};
ghost use Rattle.std.specs.Fmt.{signed_decimal};
ghost use Rattle.dev_io.specs.Buffer.{HandsOver};
ghost use Rattle.dev_io.specs.Calls.{Tells, SendsAll};
ghost use Rattle.dev_io.specs.Causes.{HasCause};
ghost use Rattle.json_text.specs.StringTexts.{quoted};
ghost use Rattle.coord.specs.Looks.{Sequence};
ghost use Rattle.show_prog.specs.Pictures.{image_of, key_of, kind_of};
ghost use Rattle.show_prog.specs.Texts.{image_text, key_text, kind_text, three};

use crate::picture::{KeyRef, MixKind, Picture};
use dev_io::{Out, OutBuffer, WriteFault, put_signed};
use json_text::{put_escaped, put_string};
use sequences::Text;

/// Sends the text of a picture: `-` where nothing is seen, a frame as `KEY@NUMBER`, and a mix as
/// `mix(KIND NUM/DEN FROM TO)`.
///
/// A KEY is `url:`, `seq:`, `gen:`, `reel:` or `name:` and a JSON string (RFC 8259, section 7),
/// with `#` for the number in the name of a sequence's images. A KIND is `dissolve`, `wipe` and
/// three digits, or the type of the transition as a JSON string. Numbers are decimal.
///
/// It answers `Sink` where a write failed, and then a prefix of the text was sent and the count of
/// faults rose, or stands at 2^64 - 1. It takes no memory.
pub fn print_show<W: Out>(value: &Picture<'_>, out: &mut W) -> Result<(), WriteFault>
    ensures told { Tells (SendsAll (image_text (image_of value.now)) result) (W.known out.old)
        (W.known out.new) }
    ensures cause { HasCause (W.faults out.old) (W.faults out.new) result }
{
    let mut buffer = OutBuffer::new();
    put_show(&mut buffer, out, value);
    buffer.flush(out)
}

/// Hands the text of a picture to the buffer of a stream; [`print_show`] says what the text is.
/// It takes no memory.
pub fn put_show<W: Out>(buffer: &mut OutBuffer, out: &mut W, value: &Picture<'_>)
    ensures { HandsOver W.known W.faults out.old out.new buffer.old buffer.new
        (image_text (image_of value.now)) }
{
    match value {
        Picture::Blank => buffer.put(out, b"-"),
        Picture::Frame { key, number } => put_frame(buffer, out, key, *number),
        Picture::Mix {
            kind,
            from,
            to,
            num,
            den,
        } => {
            buffer.put(out, b"mix(");
            put_kind(buffer, out, kind);
            buffer.put(out, b" ");
            put_weight(buffer, out, *num, *den);
            buffer.put(out, b" ");
            put_show(buffer, out, from);
            buffer.put(out, b" ");
            put_show(buffer, out, to);
            buffer.put(out, b")");
        }
    }
}

// Hands over a frame: its key and its number.
fn put_frame<W: Out>(buffer: &mut OutBuffer, out: &mut W, key: &KeyRef<'_>, number: i128)
    ensures { HandsOver W.known W.faults out.old out.new buffer.old buffer.new
        (key_text (key_of key.now) ++ (codes "@" ++ signed_decimal number)) }
{
    put_key(buffer, out, key);
    buffer.put(out, b"@");
    put_signed(buffer, out, number);
}

/// Hands over what a frame's clip is known by, as it stands before the number of a frame.
pub fn put_key<W: Out>(buffer: &mut OutBuffer, out: &mut W, key: &KeyRef<'_>)
    ensures { HandsOver W.known W.faults out.old out.new buffer.old buffer.new
        (key_text (key_of key.now)) }
{
    match key {
        KeyRef::Url(url) => put_headed(buffer, out, b"url:", url),
        KeyRef::Sequence(base, prefix, suffix) => put_sequence(buffer, out, base, prefix, suffix),
        KeyRef::Generator(generator) => put_headed(buffer, out, b"gen:", generator),
        KeyRef::Reel(reel) => put_headed(buffer, out, b"reel:", reel),
        KeyRef::Name(name) => put_headed(buffer, out, b"name:", name),
    }
}

// Hands over a head and a text as a JSON string.
fn put_headed<W: Out>(buffer: &mut OutBuffer, out: &mut W, head: &[u8], text: &Text)
    ensures { HandsOver W.known W.faults out.old out.new buffer.old buffer.new
        (head.now ++ quoted text.now) }
{
    buffer.put(out, head);
    put_string(buffer, out, text.as_str().as_bytes());
}

// Hands over the key of an image sequence: its three texts in one JSON string, with the number as
// `#` before the last.
fn put_sequence<W: Out>(
    buffer: &mut OutBuffer,
    out: &mut W,
    base: &Text,
    prefix: &Text,
    suffix: &Text,
)
    ensures { HandsOver W.known W.faults out.old out.new buffer.old buffer.new
        (key_text (Sequence base.now prefix.now suffix.now)) }
{
    buffer.put(out, b"seq:\"");
    put_escaped(buffer, out, base.as_str().as_bytes());
    put_escaped(buffer, out, prefix.as_str().as_bytes());
    buffer.put(out, b"#");
    put_escaped(buffer, out, suffix.as_str().as_bytes());
    buffer.put(out, b"\"");
}

// Hands over the kind of a mix.
fn put_kind<W: Out>(buffer: &mut OutBuffer, out: &mut W, kind: &MixKind<'_>)
    ensures { HandsOver W.known W.faults out.old out.new buffer.old buffer.new
        (kind_text (kind_of kind.now)) }
{
    match kind {
        MixKind::Dissolve => buffer.put(out, b"dissolve"),
        MixKind::Wipe(code) => put_wipe(buffer, out, *code),
        MixKind::Other(text) => put_string(buffer, out, text.as_str().as_bytes()),
    }
}

// Hands over a wipe of this code.
fn put_wipe<W: Out>(buffer: &mut OutBuffer, out: &mut W, code: u16)
    ensures { HandsOver W.known W.faults out.old out.new buffer.old buffer.new
        (codes "wipe " ++ three code) }
{
    let digits = last_three(code);
    buffer.put(out, b"wipe ");
    buffer.put(out, &digits);
}

// The last three digits of a number.
fn last_three(number: u16) -> [u8; 3]
    ensures { result ≡ three number }
{
    [
        b'0' + (number / 100 % 10) as u8,
        b'0' + (number / 10 % 10) as u8,
        b'0' + (number % 10) as u8,
    ]
}

// Hands over how much of a mix is its incoming side.
fn put_weight<W: Out>(buffer: &mut OutBuffer, out: &mut W, num: i128, den: i128)
    ensures { HandsOver W.known W.faults out.old out.new buffer.old buffer.new
        (signed_decimal num ++ (codes "/" ++ signed_decimal den)) }
{
    put_signed(buffer, out, num);
    buffer.put(out, b"/");
    put_signed(buffer, out, den);
}
