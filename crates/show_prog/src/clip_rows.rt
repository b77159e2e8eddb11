//! The lines of clips.

ghost use Rattle.std.specs.Prelude.{codes};
ghost use Rattle.dev_io.specs.Buffer.{HandsOver};
ghost use Rattle.json_text.specs.StringTexts.{quoted};
ghost use Rattle.coord.specs.Keys as keys;
ghost use Rattle.show_prog.specs.Texts.{key_text};
ghost use Rattle.otio_model.specs.PlaceTexts.{place_text};
ghost use Rattle.show_prog.specs.Places.{place_of};
ghost use Rattle.show_prog.specs.Spots.{spots, spots_of};
ghost use Rattle.show_prog.specs.ListingTexts.{line, spot_line, spot_lines};

use crate::clips::key_of;
use crate::picture_text::put_key;
use crate::places::{Way, child_way, put_place};
use dev_io::{Out, OutBuffer};
use json_text::put_string;
use otio_model::{Children, Clip, Item, ItemOf};

/// What is listed of a clip, after its place.
#[derive(Clone, Copy)]
pub(crate) enum Told {
    /// Its name.
    Name,
    /// What its frames are known by.
    Key,
}

/// Hands over the lines of the clips among children and below them, in document order. The way
/// leads to their composition.
#[cycle(clips)]
pub(crate) fn put_clips<W: Out>(
    buffer: &mut OutBuffer,
    out: &mut W,
    told: Told,
    way: &Way<'_>,
    children: &Children,
)
    ensures { HandsOver W.known W.faults out.old out.new buffer.old buffer.new
        (spot_lines told (place_of way.now) (spots children.now)) }
{
    'children: for index in 0..children.len() {
        put_item(
            buffer,
            out,
            told,
            &child_way(&*way, index),
            children.child(index),
        );
    }
}

// Hands over the lines of the clips of an item, itself or those below it. The way leads to it.
#[cycle(clips)]
fn put_item<W: Out>(buffer: &mut OutBuffer, out: &mut W, told: Told, way: &Way<'_>, item: &Item)
    ensures { HandsOver W.known W.faults out.old out.new buffer.old buffer.new
        (spot_lines told (place_of way.now) (spots_of item.now)) }
{
    match item {
        ItemOf::Clip(clip) => put_clip(buffer, out, told, way, clip),
        ItemOf::Gap(_) => {}
        ItemOf::Transition(_) => {}
        ItemOf::Stack(stack) => put_clips(buffer, out, told, way, &stack.children),
        ItemOf::Track(track) => put_clips(buffer, out, told, way, &track.children),
    }
}

// Hands over the line of a clip, to which the way leads.
fn put_clip<W: Out>(buffer: &mut OutBuffer, out: &mut W, told: Told, way: &Way<'_>, clip: &Clip)
    ensures { HandsOver W.known W.faults out.old out.new buffer.old buffer.new
        (spot_line told (record { place = place_of way.now; clip = clip.now })) }
{
    match told {
        Told::Name => put_name_line(buffer, out, way, clip),
        Told::Key => put_key_line(buffer, out, way, clip),
    }
}

// Hands over the line of a clip's name.
fn put_name_line<W: Out>(buffer: &mut OutBuffer, out: &mut W, way: &Way<'_>, clip: &Clip)
    ensures { HandsOver W.known W.faults out.old out.new buffer.old buffer.new
        (line (codes "clip") (place_text (place_of way.now)) (quoted clip.now.name)) }
{
    buffer.put(out, b"clip ");
    put_place(buffer, out, way);
    buffer.put(out, b" ");
    put_string(buffer, out, clip.name.as_str().as_bytes());
    buffer.put(out, b"\n");
}

// Hands over the line of the key of a clip's media.
fn put_key_line<W: Out>(buffer: &mut OutBuffer, out: &mut W, way: &Way<'_>, clip: &Clip)
    ensures { HandsOver W.known W.faults out.old out.new buffer.old buffer.new
        (line (codes "media") (place_text (place_of way.now)) (key_text (keys.key_of clip.now))) }
{
    buffer.put(out, b"media ");
    put_place(buffer, out, way);
    buffer.put(out, b" ");
    put_key(buffer, out, &key_of(clip));
    buffer.put(out, b"\n");
}
