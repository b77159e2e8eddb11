//! The way to an item, one link for each level, and how places are written.

ghost use Rattle.std.specs.Prelude.{◌≡◌, ◌∷◌, ◌++◌, []};
ghost use Rattle.dev_io.specs.Buffer.{HandsOver};
ghost use Rattle.otio_model.specs.PlaceTexts.{place_text};
ghost use Rattle.show_prog.specs.Places.{lead_text, place_of};

use dev_io::{Out, OutBuffer, put_number};

/// The way from the root to an item. It takes no memory.
#[derive(Drop)]
pub(crate) enum Way<'a> {
    /// To the root itself.
    Root,
    /// To the child of an index, in the composition that another way leads to.
    Child(&'a Way<'a>, usize),
}

/// The way one level further down, to the child of an index.
pub(crate) fn child_way<'a>(outer: &'a Way<'a>, index: usize) -> Way<'a>
    ensures { place_of result ≡ place_of outer.now ++ index ∷ [] }
{
    Way::Child(&*outer, index)
}

/// Hands over the place that a way leads to.
pub(crate) fn put_place<W: Out>(buffer: &mut OutBuffer, out: &mut W, way: &Way<'_>)
    ensures { HandsOver W.known W.faults out.old out.new buffer.old buffer.new
        (place_text (place_of way.now)) }
{
    match way {
        Way::Root => buffer.put(out, b"."),
        Way::Child(outer, index) => {
            put_lead(buffer, out, outer);
            put_number(buffer, out, *index as u64);
        }
    }
}

// Hands over the indexes of a way, with `/` after each.
fn put_lead<W: Out>(buffer: &mut OutBuffer, out: &mut W, way: &Way<'_>)
    ensures { HandsOver W.known W.faults out.old out.new buffer.old buffer.new
        (lead_text (place_of way.now)) }
{
    match way {
        Way::Root => {}
        Way::Child(outer, index) => {
            put_lead(buffer, out, outer);
            put_number(buffer, out, *index as u64);
            buffer.put(out, b"/");
        }
    }
}
