//! The numbers of a timeline.

ghost use Rattle.std.specs.Prelude.{◌<◌, ◌^◌, codes, decimal};
ghost use Rattle.std.specs.Fmt.{signed_decimal};
ghost use Rattle.dev_io.specs.Buffer.{HandsOver};
ghost use Rattle.otio_model.specs.Counts.{count};
ghost use Rattle.coord.specs.Keys.{frame_rate};
ghost use Rattle.show_prog.specs.Counted.{counts};
ghost use Rattle.show_prog.specs.ListingTexts.{counts_text, number_line, rate_text};
ghost use Rattle.show_prog.specs.ListingTexts.{stats_text};

use crate::counting::{Counts, count_children};
use crate::frame_range::whole_frames;
use coord::{record_rate, start_frame};
use dev_io::{Out, OutBuffer, put_large, put_number, put_signed};
use otio_model::Timeline;
use tick_time::Rate;

/// Hands over the numbers of a timeline, a line for each.
pub(crate) fn put_stats<W: Out>(buffer: &mut OutBuffer, out: &mut W, timeline: &Timeline)
    requires { count timeline.now.tracks.children < 2 ^ 32 }
    ensures { HandsOver W.known W.faults out.old out.new buffer.old buffer.new
        (stats_text timeline.now) }
{
    put_rate(buffer, out, record_rate(timeline));
    put_start(buffer, out, start_frame(timeline));
    put_length(buffer, out, whole_frames(timeline));
    put_counts(buffer, out, count_children(&timeline.tracks.children));
}

// Hands over the line of the record rate.
fn put_rate<W: Out>(buffer: &mut OutBuffer, out: &mut W, rate: Rate)
    ensures { HandsOver W.known W.faults out.old out.new buffer.old buffer.new
        (number_line (codes "rate") (rate_text (frame_rate rate))) }
{
    buffer.put(out, b"rate ");
    put_rate_text(buffer, out, rate);
    buffer.put(out, b"\n");
}

/// Hands over the text of a rate, as in JSON. It takes no memory.
pub fn put_rate_text<W: Out>(buffer: &mut OutBuffer, out: &mut W, rate: Rate)
    ensures { HandsOver W.known W.faults out.old out.new buffer.old buffer.new
        (rate_text (frame_rate rate)) }
{
    buffer.put(out, rate.text().as_str().as_bytes());
}

// Hands over the line of the first record frame.
fn put_start<W: Out>(buffer: &mut OutBuffer, out: &mut W, start: i128)
    ensures { HandsOver W.known W.faults out.old out.new buffer.old buffer.new
        (number_line (codes "start") (signed_decimal start)) }
{
    buffer.put(out, b"start ");
    put_signed(buffer, out, start);
    buffer.put(out, b"\n");
}

// Hands over the line of the length.
fn put_length<W: Out>(buffer: &mut OutBuffer, out: &mut W, frames: u128)
    ensures { HandsOver W.known W.faults out.old out.new buffer.old buffer.new
        (number_line (codes "length") (decimal frames)) }
{
    buffer.put(out, b"length ");
    put_large(buffer, out, frames);
    buffer.put(out, b"\n");
}

// Hands over a line for the number of items of each kind.
fn put_counts<W: Out>(buffer: &mut OutBuffer, out: &mut W, counts: Counts)
    ensures { HandsOver W.known W.faults out.old out.new buffer.old buffer.new
        (counts_text counts) }
{
    put_count(buffer, out, b"tracks", counts.tracks);
    put_count(buffer, out, b"stacks", counts.stacks);
    put_count(buffer, out, b"clips", counts.clips);
    put_count(buffer, out, b"gaps", counts.gaps);
    put_count(buffer, out, b"transitions", counts.transitions);
}

// Hands over a line of a word and a number.
fn put_count<W: Out>(buffer: &mut OutBuffer, out: &mut W, word: &[u8], number: usize)
    ensures { HandsOver W.known W.faults out.old out.new buffer.old buffer.new
        (number_line word.now (decimal number)) }
{
    buffer.put(out, word);
    buffer.put(out, b" ");
    put_number(buffer, out, number as u64);
    buffer.put(out, b"\n");
}
