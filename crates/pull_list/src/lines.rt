//! The lines of a pull list.

ghost use Rattle.dev_io.specs.Buffer.{HandsOver};
ghost use Rattle.dev_io.specs.Calls.{SendsAll, Tells};
ghost use Rattle.dev_io.specs.Causes.{HasCause};
ghost use Rattle.pull_list.specs.Lines.{stretch_line, stretches_text};
ghost use Rattle.pull_list.specs.Pulled.{stretch_of, stretches_of};

use crate::spans::PullSpan;
use dev_io::{Out, OutBuffer, WriteFault, put_signed};
use show_prog::{put_key, put_rate_text};

/// Sends a line for each span, `pull KEY RATE FIRST COUNT`: the key as listings have it, the rate
/// as in JSON, the number of the first frame and how many frames they are. It takes no memory.
///
/// It answers `Sink` where a write failed, and then a prefix of the lines was sent and the count
/// of faults rose, or stands at 2^64 - 1.
pub fn write_pull<W: Out>(spans: &[PullSpan<'_>], out: &mut W) -> Result<(), WriteFault>
    ensures told { Tells (SendsAll (stretches_text (stretches_of spans.now)) result)
        (W.known out.old) (W.known out.new) }
    ensures cause { HasCause (W.faults out.old) (W.faults out.new) result }
{
    let mut buffer = OutBuffer::new();
    put_spans(&mut buffer, out, spans);
    buffer.flush(out)
}

// Hands over the lines of spans.
fn put_spans<W: Out>(buffer: &mut OutBuffer, out: &mut W, spans: &[PullSpan<'_>])
    ensures { HandsOver W.known W.faults out.old out.new buffer.old buffer.new
        (stretches_text (stretches_of spans.now)) }
{
    'spans: for span in spans {
        put_span(buffer, out, span);
    }
}

// Hands over the line of a span.
fn put_span<W: Out>(buffer: &mut OutBuffer, out: &mut W, span: &PullSpan<'_>)
    ensures { HandsOver W.known W.faults out.old out.new buffer.old buffer.new
        (stretch_line (stretch_of span.now)) }
{
    buffer.put(out, b"pull ");
    put_key(buffer, out, &span.key);
    buffer.put(out, b" ");
    put_rate_text(buffer, out, span.rate);
    buffer.put(out, b" ");
    put_signed(buffer, out, span.first);
    buffer.put(out, b" ");
    put_signed(buffer, out, span.count);
    buffer.put(out, b"\n");
}
