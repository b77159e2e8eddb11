//! Places in messages.

ghost use Rattle.std.specs.Prelude.{◌≡◌, ◌<◌, Some, length, slice_get};
ghost use Rattle.dev_io.specs.Buffer.{HandsOver};
ghost use Rattle.source_files.specs.Places.{place_text};

use dev_io::{Out, OutBuffer, put_number};
use otio_model::Place;

/// Hands over a place: its indexes from the root on with `/` between them, and `.` for the root
/// itself.
pub fn put_place<W: Out>(buffer: &mut OutBuffer, out: &mut W, place: &Place)
    ensures { HandsOver W.known W.faults out.old out.new buffer.old buffer.new
        (place_text place.now) }
{
    let Some(first) = place.index(0) else {
        buffer.put(out, b".");
        return;
    };
    put_number(buffer, out, u64::from(first));
    for at in 1..place.len() {
        buffer.put(out, b"/");
        put_number(buffer, out, u64::from(index_at(place, at)));
    }
}

// The index at that depth.
fn index_at(place: &Place, at: usize) -> u32
    requires { at < length place.now }
    ensures { slice_get place.now at ≡ Some result }
{
    match place.index(at) {
        Some(index) => index,
        None => unreachable!(),
    }
}
