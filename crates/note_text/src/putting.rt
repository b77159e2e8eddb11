//! The text of a note.
ghost use Rattle.std.specs.Prelude.{◌≡◌, ◌∷◌, ◌++◌, ◌-◌, [], codes};
ghost use Rattle.edl_text.specs.Columns.{cleaned, spaces};
ghost use Rattle.dev_io.specs.Buffer.{HandsOver};
ghost use Rattle.note_text.specs.NotedSpelling.{color_and_name, color_width, note_line, triple_text};
ghost use Rattle.note_text.specs.Belonging.{IsSaidBelowDay};
ghost use Rattle.edl_text.specs.Spelling.{text_of};

use crate::notes::{Note, Said, Triple};
use dev_io::{Out, OutBuffer};
use edl_text::{label_of, put_written, trim_written};
use sequences::Text;
use text_lines::after;
use tick_time::Rate;

/// How wide the column of a color is.
const COLOR_WIDTH: usize = 7;

/// The spaces of that column.
const SPACES: &[u8; COLOR_WIDTH] = b"       ";

/// Hands over a note, with its line feed.
pub(crate) fn put_note<W: Out>(
    buffer: &mut OutBuffer,
    out: &mut W,
    note: &Note,
    rate: Rate,
    drop: bool,
)
    requires { IsSaidBelowDay rate drop note.now.said }
    ensures { HandsOver W.known W.faults out.old out.new buffer.old buffer.new
        (text_of (note_line rate drop note.now.said ∷ [])) }
{
    match &note.said {
        Said::Loc { at, color, name } => put_loc(
            buffer,
            out,
            &label_of(*at, rate, drop),
            color,
            name,
        ),
        Said::Sop {
            slope,
            offset,
            power,
        } => {
            buffer.put(out, b"* ASC_SOP: ");
            put_triple(buffer, out, slope.get());
            put_triple(buffer, out, offset.get());
            put_triple(buffer, out, power.get());
            buffer.put(out, b"\n");
        }
        Said::Sat(numeral) => {
            buffer.put(out, b"* ASC_SAT: ");
            buffer.put(out, numeral.as_str().as_bytes());
            buffer.put(out, b"\n");
        }
    }
}

// Hands over a locator: its label, its color, and its name where that isn't empty as it is
// written, the color then in a column.
fn put_loc<W: Out>(buffer: &mut OutBuffer, out: &mut W, label: &[u8; 11], color: &Text, name: &Text)
    ensures { HandsOver W.known W.faults out.old out.new buffer.old buffer.new
        (text_of ((codes "* LOC: " ++ (label.now ++ 32
        ∷ color_and_name color.now (cleaned name.now))) ∷ [])) }
{
    let color = color.as_str().as_bytes();
    let name = trim_written(name.as_str().as_bytes());
    buffer.put(out, b"* LOC: ");
    buffer.put(out, label);
    buffer.put(out, b" ");
    buffer.put(out, color);
    if !name.is_empty() {
        buffer.put(out, padding(color.len()));
        buffer.put(out, b" ");
        put_written(buffer, out, name);
    }
    buffer.put(out, b"\n");
}

// The spaces that a color of so many letters leaves in its column.
fn padding(letters: usize) -> &'static [u8]
    ensures { result.now ≡ spaces (color_width - letters) }
{
    if letters < COLOR_WIDTH {
        after(SPACES, letters)
    } else {
        b""
    }
}

// Hands over three numerals in parentheses.
fn put_triple<W: Out>(buffer: &mut OutBuffer, out: &mut W, triple: &Triple)
    ensures { HandsOver W.known W.faults out.old out.new buffer.old buffer.new
        (triple_text triple.now) }
{
    buffer.put(out, b"(");
    buffer.put(out, triple.r.as_str().as_bytes());
    buffer.put(out, b" ");
    buffer.put(out, triple.g.as_str().as_bytes());
    buffer.put(out, b" ");
    buffer.put(out, triple.b.as_str().as_bytes());
    buffer.put(out, b")");
}
