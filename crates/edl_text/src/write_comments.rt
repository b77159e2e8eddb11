// Titles and notes of names.
ghost use Rattle.std.specs.Prelude.{◌≡◌, ◌∷◌, [], position, map, reverse};
ghost use Rattle.text_lines.specs.First.{begins_with_blank as begins};
ghost use Rattle.text_lines.specs.Lines.{trimmed_front};
ghost use Rattle.dev_io.specs.Buffer.{HandsOver};
ghost use Rattle.edl_text.specs.Columns.{is_control as control, written_byte, cleaned};
ghost use Rattle.edl_text.specs.Rows.{headed, name_lines};
ghost use Rattle.edl_text.specs.Spelling.{text_of};

use dev_io::{Out, OutBuffer};
use sequences::Text;
use text_lines::{after, before};

/// Hands over the note of a name with its line feed, behind this head, where there is a name that
/// isn't empty as it is written.
pub fn put_name<W: Out>(buffer: &mut OutBuffer, out: &mut W, head: &[u8], name: &Option<Text>)
    ensures { HandsOver W.known W.faults out.old out.new buffer.old buffer.new
        (text_of (name_lines head.now name.now)) }
{
    match name {
        Some(name) => put_headed(buffer, out, head, name.as_str().as_bytes()),
        None => {}
    }
}

/// Hands over a line of this head and a text with its line feed, where the text isn't empty as it
/// is written: each control byte as a space, and none at the ends.
pub fn put_headed<W: Out>(buffer: &mut OutBuffer, out: &mut W, head: &[u8], text: &[u8])
    ensures { HandsOver W.known W.faults out.old out.new buffer.old buffer.new
        (text_of (headed head.now (cleaned text.now))) }
{
    let text = trim_written(text);
    if !text.is_empty() {
        buffer.put(out, head);
        put_written(buffer, out, text);
        buffer.put(out, b"\n");
    }
}

/// Hands over bytes of a name or title, with a space for each control byte. The bytes between them
/// go in one slice.
pub fn put_written<W: Out>(buffer: &mut OutBuffer, out: &mut W, bytes: &[u8])
    ensures { HandsOver W.known W.faults out.old out.new buffer.old buffer.new
        (map written_byte bytes.now) }
{
    let mut rest = bytes;
    'runs: while let Some(index) = first_control(rest) {
        buffer.put(out, before(rest, index));
        buffer.put(out, b" ");
        rest = after(rest, index + 1);
    }
    buffer.put(out, rest);
}

// The index of the first control byte.
fn first_control(bytes: &[u8]) -> Option<usize>
    ensures { result ≡ position control bytes.now }
{
    bytes.iter().position(|byte| *byte < b' ' || *byte == 0x7f)
}

// Whether a byte is written as a space.
#[tactic(auto, unfolding(text_lines::specs::First::is_blank))]
fn is_written_blank(byte: u8) -> bool
    ensures { result ≡ begins (written_byte byte ∷ []) }
{
    byte <= b' ' || byte == 0x7f
}

/// A name or title without the bytes at both ends that are written as spaces.
#[tactic(auto, unfolding(crate::specs::Columns::cleaned))]
pub fn trim_written(text: &[u8]) -> &[u8]
    ensures { map written_byte result.now ≡ cleaned text.now }
{
    trim_back(trim_front(text))
}

// Whether a byte that is written as a space stands at the front.
#[tactic(auto, using(crate::proofs::TrimmedTexts::front_byte, crate::proofs::TrimmedTexts::front_none))]
fn begins_blank(text: &[u8]) -> bool
    ensures { result ≡ begins (map written_byte text.now) }
{
    match text {
        [first, ..] => is_written_blank(*first),
        [] => false,
    }
}

// Whether a byte that is written as a space stands at the back.
#[tactic(auto, using(crate::proofs::TrimmedTexts::back_byte, crate::proofs::TrimmedTexts::back_none))]
fn ends_blank(text: &[u8]) -> bool
    ensures { result ≡ begins (reverse (map written_byte text.now)) }
{
    match text {
        [.., last] => is_written_blank(*last),
        [] => false,
    }
}

// The text without the bytes at its front that are written as spaces.
#[tactic(auto, using(crate::proofs::TrimmedTexts::front_less, text_lines::proofs::Trimming::front_stays))]
fn trim_front(text: &[u8]) -> &[u8]
    ensures { map written_byte result.now ≡ trimmed_front (map written_byte text.now) }
{
    let mut rest = text;
    'blanks: while begins_blank(rest) {
        rest = after(rest, 1);
    }
    rest
}

// The text without the bytes at its back that are written as spaces.
#[tactic(auto, using(crate::proofs::TrimmedTexts::back_less, text_lines::proofs::Trimming::back_stays))]
fn trim_back(text: &[u8]) -> &[u8]
    ensures { map written_byte result.now ≡ reverse
        (trimmed_front (reverse (map written_byte text.now))) }
{
    let mut rest = text;
    'blanks: while ends_blank(rest) {
        rest = before(rest, rest.len() - 1);
    }
    rest
}
