//! The lines of tracks.

ghost use Rattle.std.specs.Prelude.{◌++◌, codes, decimal};
ghost use Rattle.dev_io.specs.Buffer.{HandsOver};
ghost use Rattle.json_text.specs.StringTexts.{quoted};
ghost use Rattle.otio_model.specs.Trees.{items_of};
ghost use Rattle.show_prog.specs.ListingTexts.{line, track_line, track_lines};

use dev_io::{Out, OutBuffer, put_number};
use json_text::put_string;
use otio_model::{Children, Item, ItemOf, Track};
use sequences::Text;

/// Hands over a line for each root child that is a track.
pub(crate) fn put_tracks<W: Out>(buffer: &mut OutBuffer, out: &mut W, children: &Children)
    ensures { HandsOver W.known W.faults out.old out.new buffer.old buffer.new
        (track_lines 0 (items_of children.now)) }
{
    'children: for index in 0..children.len() {
        put_child(buffer, out, index, children.child(index));
    }
}

// Hands over the line of a root child where it is a track.
fn put_child<W: Out>(buffer: &mut OutBuffer, out: &mut W, index: usize, item: &Item)
    ensures { HandsOver W.known W.faults out.old out.new buffer.old buffer.new
        (track_line index item.now) }
{
    match item {
        ItemOf::Track(track) => put_track(buffer, out, index, track),
        ItemOf::Clip(_) => {}
        ItemOf::Gap(_) => {}
        ItemOf::Transition(_) => {}
        ItemOf::Stack(_) => {}
    }
}

// Hands over the line of a track.
fn put_track<W: Out>(buffer: &mut OutBuffer, out: &mut W, index: usize, track: &Track)
    ensures { HandsOver W.known W.faults out.old out.new buffer.old buffer.new
        (line (codes "track") (decimal index)
        (quoted track.now.kind ++ (codes " " ++ quoted track.now.name))) }
{
    buffer.put(out, b"track ");
    put_number(buffer, out, index as u64);
    buffer.put(out, b" ");
    put_text(buffer, out, &track.kind);
    buffer.put(out, b" ");
    put_text(buffer, out, &track.name);
    buffer.put(out, b"\n");
}

// Hands over a text as a JSON string.
fn put_text<W: Out>(buffer: &mut OutBuffer, out: &mut W, text: &Text)
    ensures { HandsOver W.known W.faults out.old out.new buffer.old buffer.new (quoted text.now) }
{
    put_string(buffer, out, text.as_str().as_bytes());
}
