//! The lines of what is listed.

ghost use Rattle.std.specs.Prelude.{◌≡◌, ◌<◌, ◌≤◌, ◌^◌, ◌+ℤ◌, ◌-ℤ◌, ◌≤ℤ◌, pos, Err, OnErr, Some};
ghost use Rattle.std.specs.Prelude.{length, true};
ghost use Rattle.dev_io.specs.Buffer.{standing, HandsOver};
ghost use Rattle.dev_io.specs.Calls.{Tells, SendsAll};
ghost use Rattle.otio_model.specs.Counts.{count as count_all};
ghost use Rattle.otio_model.specs.Trees.{items_of};
ghost use Rattle.coord.specs.Images.{is_mix};
ghost use Rattle.coord.specs.Programs.{program};
ghost use Rattle.coord.specs.Soundness.{IsFaultless};
ghost use Rattle.dev_io.specs.OutputCauses.{HasOutputCause};
ghost use Rattle.show_prog.specs.Rows.{line, lines_at, rows, children_listed as listed};
ghost use Rattle.show_prog.specs.Rows.{ListsMix, RowsMix, ShowsMix, listing_text};
ghost use Rattle.show_prog.specs.Handing.{PutsAll, indexes, IsSelection};

use crate::frame_range::Listing;
use crate::picture_text::put_show;
use crate::shows::{Clock, clock_of, show_at};
use dev_io::{Out, OutBuffer, OutputFault, put_number, put_signed};
use otio_model::Timeline;
use std::alloc::{AllocError, Global};

/// How many frames are handed over before a flush shows whether the stream has failed.
const FRAMES_A_FLUSH: u32 = 256;

/// Root children that follow one another.
#[derive(Clone, Copy)]
pub(crate) struct Indexes {
    /// The index of the first.
    first: usize,
    /// The index after the last.
    past: usize,
}

/// What is listed of a timeline at each frame.
#[derive(Clone, Copy)]
pub(crate) struct Selection<'a> {
    /// The memory that mixes take.
    alloc: Global,
    /// The timeline.
    timeline: &'a Timeline,
    /// The timeline's own clock.
    clock: Clock,
    /// The root children that are listed.
    children: Indexes,
}

// The children that are listed, of so many.
fn children_listed(child: Option<u64>, count: usize) -> Indexes
    ensures listed { indexes result ≡ listed child count }
    ensures ordered { result.first ≤ result.past }
    ensures within { result.past ≤ count }
{
    match child {
        None => Indexes {
            first: 0,
            past: count,
        },
        Some(child) => one_listed(child as usize, count),
    }
}

// The child that is asked for, where it exists.
fn one_listed(child: usize, count: usize) -> Indexes
    ensures listed { indexes result ≡ listed (Some child) count }
    ensures ordered { result.first ≤ result.past }
    ensures within { result.past ≤ count }
{
    if child < count {
        return Indexes {
            first: child,
            past: child + 1,
        };
    }
    Indexes { first: 0, past: 0 }
}

// The frame that comes so many frames after another.
fn frame_after(from: i128, count: u32) -> i128
    requires low { (pos 0 -ℤ pos (2 ^ 64)) ≤ℤ from }
    requires high { from ≤ℤ pos (2 ^ 64) }
    ensures { result ≡ from +ℤ pos count }
{
    from + i128::from(count)
}

// Hands over the line of what a child shows at a frame.
fn put_line<W: Out>(
    buffer: &mut OutBuffer,
    out: &mut W,
    selection: Selection<'_>,
    frame: i128,
    child: usize,
) -> Result<(), AllocError>
    requires selection { IsSelection selection }
    requires there { child < length (items_of selection.timeline.now.tracks.children) }
    ensures put { PutsAll (standing W.known W.faults out.old buffer.old)
        (standing W.known W.faults out.new buffer.new)
        (line selection.entry.timeline.now frame child) result }
    ensures memory { OnErr result (is_mix (program selection.entry.timeline.now child frame)
        ≡ true) }
{
    let picture = show_at(
        selection.alloc,
        selection.timeline,
        selection.clock,
        child,
        frame,
    )?;
    put_signed(buffer, out, frame);
    buffer.put(out, b" ");
    put_number(buffer, out, child as u64);
    buffer.put(out, b" ");
    put_show(buffer, out, &picture);
    buffer.put(out, b"\n");
    Ok(())
}

// Hands over the lines of children at a frame.
fn put_lines<W: Out>(
    buffer: &mut OutBuffer,
    out: &mut W,
    selection: Selection<'_>,
    frame: i128,
) -> Result<(), AllocError>
    requires { IsSelection selection }
    ensures put { PutsAll (standing W.known W.faults out.old buffer.old)
        (standing W.known W.faults out.new buffer.new)
        (lines_at selection.entry.timeline.now (indexes selection.entry.children) frame) result }
    ensures memory { OnErr result
        (ShowsMix selection.entry.timeline.now (indexes selection.entry.children) frame) }
{
    'children: for child in selection.children.first..selection.children.past {
        put_line(buffer, out, selection, frame, child)?;
    }
    Ok(())
}

// Hands over the lines of children at so many frames.
fn put_rows<W: Out>(
    buffer: &mut OutBuffer,
    out: &mut W,
    selection: Selection<'_>,
    from: i128,
    count: u32,
) -> Result<(), AllocError>
    requires selection { IsSelection selection }
    requires low { (pos 0 -ℤ pos (2 ^ 64)) ≤ℤ from }
    requires high { from ≤ℤ pos (2 ^ 64) }
    ensures put { PutsAll (standing W.known W.faults out.old buffer.old)
        (standing W.known W.faults out.new buffer.new)
        (rows selection.entry.timeline.now (indexes selection.entry.children) from count) result }
    ensures memory { OnErr result
        (RowsMix selection.entry.timeline.now (indexes selection.entry.children) from count) }
{
    'frames: for index in 0..count {
        put_lines(buffer, out, selection, frame_after(from, index))?;
    }
    Ok(())
}

// Sends the lines of children at so many frames.
fn send_rows<W: Out>(
    selection: Selection<'_>,
    from: i128,
    count: u32,
    out: &mut W,
) -> Result<(), OutputFault>
    requires selection { IsSelection selection }
    requires low { (pos 0 -ℤ pos (2 ^ 64)) ≤ℤ from }
    requires high { from ≤ℤ pos (2 ^ 64) }
    ensures told { Tells (SendsAll
        (rows selection.entry.timeline.now (indexes selection.entry.children) from count) result)
        (W.known out.old) (W.known out.new) }
    ensures cause { HasOutputCause
        (RowsMix selection.entry.timeline.now (indexes selection.entry.children) from count)
        (W.faults out.old) (W.faults out.new) result }
{
    let mut buffer = OutBuffer::new();
    put_rows(&mut buffer, out, selection, from, count)?;
    buffer.flush(out)?;
    Ok(())
}

/// Sends the lines of what is listed, frame by frame and at each frame child by child: the record
/// frame, the child's index, what is seen there, and a line feed. A child that doesn't exist has no
/// lines.
///
/// # Errors
///
/// [`OutputFault::Sink`] comes where a write failed, and [`OutputFault::Memory`] where memory ran
/// out, which happens only where a listed row shows a mix. A prefix of the lines was sent then.
pub fn write_rows<W: Out>(
    alloc: Global,
    timeline: &Timeline,
    listing: &Listing,
    out: &mut W,
) -> Result<(), OutputFault>
    requires few { count_all timeline.now.tracks.children < 2 ^ 32 }
    requires sound { IsFaultless timeline.now }
    ensures told { Tells (SendsAll (listing_text timeline.now listing.now) result) (W.known out.old)
        (W.known out.new) }
    ensures cause { HasOutputCause (Unit {0}) (W.faults out.old) (W.faults out.new) result }
    ensures memory { result ≡ Err OutputFault.Memory → ListsMix timeline.now listing.now }
{
    let selection = Selection {
        alloc,
        timeline,
        clock: clock_of(timeline),
        children: children_listed(listing.child, timeline.tracks.children.len()),
    };
    let from = i128::from(listing.from);
    let mut sent: u32 = 0;
    'parts: while sent < listing.count {
        let count = FRAMES_A_FLUSH.min(listing.count - sent);
        match send_rows(selection, frame_after(from, sent), count, out) {
            Ok(()) => {}
            Err(fault) => return Err(fault),
        }
        sent += count;
    }
    Ok(())
}
