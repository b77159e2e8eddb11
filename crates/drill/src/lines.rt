//! The lines of what a drill reports.

ghost use Rattle.std.specs.Prelude.{codes, decimal};
ghost use Rattle.std.specs.Fmt.{signed_decimal};
ghost use Rattle.dev_io.specs.Buffer.{HandsOver};
ghost use Rattle.dev_io.specs.Calls.{Tells, SendsAll};
ghost use Rattle.dev_io.specs.Causes.{HasCause};
ghost use Rattle.drill.specs.Lines.{carried_text, line, tally_text, why_text};

use crate::tally::{Carried, Tally};
use dev_io::{Out, OutBuffer, WriteFault, put_large, put_signed};
use edl_frames::Why;

// Hands over a line of a word and a count.
fn put_count<W: Out>(buffer: &mut OutBuffer, out: &mut W, word: &[u8], number: u128)
    ensures { HandsOver W.known W.faults out.old out.new buffer.old buffer.new
        (line word.now (decimal number)) }
{
    buffer.put(out, word);
    buffer.put(out, b" ");
    put_large(buffer, out, number);
    buffer.put(out, b"\n");
}

// Hands over a line of a word and a sum.
fn put_sum<W: Out>(buffer: &mut OutBuffer, out: &mut W, word: &[u8], number: i128)
    ensures { HandsOver W.known W.faults out.old out.new buffer.old buffer.new
        (line word.now (signed_decimal number)) }
{
    buffer.put(out, word);
    buffer.put(out, b" ");
    put_signed(buffer, out, number);
    buffer.put(out, b"\n");
}

// Hands over the lines of what became of the list.
fn put_carried<W: Out>(buffer: &mut OutBuffer, out: &mut W, carried: Carried)
    ensures { HandsOver W.known W.faults out.old out.new buffer.old buffer.new
        (carried_text carried) }
{
    match carried {
        Carried::List {
            events,
            frames,
            shown,
        } => {
            put_count(buffer, out, b"events", events as u128);
            put_count(buffer, out, b"frames", frames);
            put_sum(buffer, out, b"shown", shown);
        }
        Carried::No(why) => put_reason(buffer, out, why),
    }
}

// Hands over the code and the word of why a list doesn't carry a timeline.
fn put_why<W: Out>(buffer: &mut OutBuffer, out: &mut W, why: Why)
    ensures { HandsOver W.known W.faults out.old out.new buffer.old buffer.new (why_text why) }
{
    buffer.put(out, why.code().as_bytes());
    buffer.put(out, b" ");
    buffer.put(out, why.word().as_bytes());
}

// Hands over the line of why there is no list.
fn put_reason<W: Out>(buffer: &mut OutBuffer, out: &mut W, why: Why)
    ensures { HandsOver W.known W.faults out.old out.new buffer.old buffer.new
        (line (codes "list") (why_text why)) }
{
    buffer.put(out, b"list ");
    put_why(buffer, out, why);
    buffer.put(out, b"\n");
}

// Hands over all lines.
fn put_tally<W: Out>(buffer: &mut OutBuffer, out: &mut W, tally: Tally)
    ensures { HandsOver W.known W.faults out.old out.new buffer.old buffer.new
        (tally_text tally) }
{
    put_count(buffer, out, b"edits", tally.edits as u128);
    put_count(buffer, out, b"refused", tally.refused as u128);
    put_count(buffer, out, b"items", tally.items as u128);
    put_carried(buffer, out, tally.carried);
    put_sum(buffer, out, b"back", tally.back);
}

/// Sends what a drill reports, a line for each number: `edits`, `refused`, `items`, `events`,
/// `frames`, `shown` and `back`. Where there is no list, one line `list` with the code and the word
/// of the reason stands in place of `events`, `frames` and `shown`.
///
/// The error `Sink` comes where a write failed; then a prefix of the text was sent, and the count
/// of faults rose, or stands at 2^64 - 1. It takes no memory.
pub fn write_tally<W: Out>(tally: Tally, out: &mut W) -> Result<(), WriteFault>
    ensures told { Tells (SendsAll (tally_text tally) result) (W.known out.old) (W.known out.new) }
    ensures cause { HasCause (W.faults out.old) (W.faults out.new) result }
{
    let mut buffer = OutBuffer::new();
    put_tally(&mut buffer, out, tally);
    buffer.flush(out)
}
