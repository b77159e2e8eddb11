// How deep a line stands, and the spaces before it.
ghost use Rattle.std.specs.Prelude.{◌≡◌, ◌+◌, ◌++◌};
ghost use Rattle.dev_io.specs.Buffer.{HandsOver};
ghost use Rattle.json_text.specs.Levels.{deep};
ghost use Rattle.json_text.specs.Layout.{indent, newline};

use crate::shallow::Shallow;
use dev_io::{Out, OutBuffer};

/// How many lists and objects stand around a value: a number while one slice holds the spaces of
/// them all, and after that one link a level.
#[derive(Drop)]
pub enum Level<'a> {
    /// So many that one slice holds their spaces.
    Few(Shallow),
    /// One more than the level around it.
    Inside(&'a Level<'a>),
}

/// The top level, with nothing around it.
pub fn top<'a>() -> Level<'a>
    ensures { deep result ≡ 0 }
{
    Level::Few(Shallow::top())
}

/// One level more than that of the list or object around it.
pub fn inside<'a>(outer: &'a Level<'a>) -> Level<'a>
    ensures { deep result ≡ deep outer.now + 1 }
{
    if let Level::Few(shallow) = outer {
        if let Some(inner) = shallow.inside() {
            return Level::Few(inner);
        }
    }
    Level::Inside(&*outer)
}

/// Hands over these bytes, and the spaces of a level after them: four a level.
#[inline(always)]
pub fn put_line<W: Out>(buffer: &mut OutBuffer, out: &mut W, lead: &[u8], level: &Level<'_>)
    ensures { HandsOver W.known W.faults out.old out.new buffer.old buffer.new
        (lead.now ++ indent (deep level.now)) }
{
    match level {
        Level::Few(shallow) => buffer.put_between(out, lead, shallow.indent(), b""),
        Level::Inside(_) => {
            buffer.put(out, lead);
            put_indent(buffer, out, level);
        }
    }
}

/// Hands over a line feed, the spaces of a level and these bytes after them.
#[inline(always)]
pub fn put_end<W: Out>(buffer: &mut OutBuffer, out: &mut W, level: &Level<'_>, end: &[u8])
    ensures { HandsOver W.known W.faults out.old out.new buffer.old buffer.new
        (newline (deep level.now) ++ end.now) }
{
    match level {
        Level::Few(shallow) => buffer.put_between(out, b"\n", shallow.indent(), end),
        Level::Inside(_) => {
            put_line(buffer, out, b"\n", level);
            buffer.put(out, end);
        }
    }
}

// Hands over the spaces of a level.
#[inline(never)]
fn put_indent<W: Out>(buffer: &mut OutBuffer, out: &mut W, level: &Level<'_>)
    ensures { HandsOver W.known W.faults out.old out.new buffer.old buffer.new
        (indent (deep level.now)) }
{
    match level {
        Level::Few(shallow) => buffer.put(out, shallow.indent()),
        Level::Inside(outer) => {
            put_indent(buffer, out, outer);
            buffer.put(out, b"    ");
        }
    }
}
