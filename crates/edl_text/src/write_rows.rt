// The lines of events and of speeds.
ghost use Rattle.std.specs.Prelude.{◌∷◌, [], codes};
ghost use Rattle.std.specs.List.{concat};
ghost use Rattle.dev_io.specs.Buffer.{HandsOver};
ghost use Rattle.edl_list.specs.Formed.{IsFrame, IsSide, IsEvent};
ghost use Rattle.edl_list.specs.Layouts.{FitsReel, FitsEvent};
ghost use Rattle.edl_list.specs.Speeds.{day_of};
ghost use Rattle.edl_text.specs.Columns.{AreWidths, column, digits, reel_text};
ghost use Rattle.edl_text.specs.Rows.{event_line, first_line, main_line};
ghost use Rattle.edl_list.specs.Labelled.{IsLabelled, IsBelowDay};

use crate::columns::{
    CUT_COLUMN, NO_DURATION, channel_column, duration_column, kind_column, padding, reel_bytes,
    six_digits,
};
use crate::list_settings::{Numbering, Style};
use crate::written_labels::label_of;
use dev_io::{Out, OutBuffer};
use edl_list::{Channel, Event, Layout, Reel, Side};
use text_lines::after;

// What stands in an event line before the labels, the type and the duration as columns.
#[derive(Clone, Copy)]
struct Row<'a> {
    layout: Layout,
    number: u32,
    reel: &'a Reel,
    channel: Channel,
    kind: [u8; 4],
    duration: [u8; 3],
}

// The labels of an event line.
#[derive(Clone, Copy)]
struct EventLabels {
    source_in: [u8; 11],
    source_out: [u8; 11],
    record_in: [u8; 11],
    record_out: [u8; 11],
}

// Hands over the number of an event, in the digits of the layout.
fn put_number<W: Out>(buffer: &mut OutBuffer, out: &mut W, number: u32, layout: Layout)
    requires { AreWidths layout }
    ensures { HandsOver W.known W.faults out.old out.new buffer.old buffer.new
        (digits layout.number_width number) }
{
    let digits = six_digits(number);
    buffer.put(out, after(&digits, digits.len() - layout.number_width));
}

/// Hands over the column of a reel.
#[tactic(auto, using(crate::proofs::Widths::reel_short))]
pub fn put_reel<W: Out>(buffer: &mut OutBuffer, out: &mut W, reel: &Reel, layout: Layout)
    requires widths { AreWidths layout }
    requires fits { FitsReel layout reel.now }
    ensures { HandsOver W.known W.faults out.old out.new buffer.old buffer.new
        (column layout.reel_width (reel_text reel.now)) }
{
    let bytes = reel_bytes(reel);
    buffer.put(out, bytes);
    buffer.put(out, padding(layout.reel_width - bytes.len()));
}

// Hands over the labels of an event line, with spaces between.
fn put_labels<W: Out>(buffer: &mut OutBuffer, out: &mut W, labels: EventLabels)
    ensures { HandsOver W.known W.faults out.old out.new buffer.old buffer.new
        (concat (labels.source_in ∷ codes " " ∷ labels.source_out ∷ codes " "
        ∷ labels.record_in ∷ codes " " ∷ labels.record_out ∷ [])) }
{
    buffer.put(out, &labels.source_in);
    buffer.put(out, b" ");
    buffer.put(out, &labels.source_out);
    buffer.put(out, b" ");
    buffer.put(out, &labels.record_in);
    buffer.put(out, b" ");
    buffer.put(out, &labels.record_out);
}

// Hands over an event line, without its end.
fn put_row<W: Out>(buffer: &mut OutBuffer, out: &mut W, row: Row<'_>, labels: EventLabels)
    requires widths { AreWidths row.layout }
    requires reel { FitsReel row.layout row.reel.now }
    ensures { HandsOver W.known W.faults out.old out.new buffer.old buffer.new
        (event_line row.entry.layout row.entry.number (reel_text row.entry.reel.now)
        row.entry.channel row.entry.kind row.entry.duration labels.source_in
        labels.source_out labels.record_in labels.record_out) }
{
    put_number(buffer, out, row.number, row.layout);
    buffer.put(out, b"  ");
    put_reel(buffer, out, row.reel, row.layout);
    buffer.put(out, b" ");
    buffer.put(out, channel_column(row.channel));
    buffer.put(out, b" ");
    buffer.put(out, &row.kind);
    buffer.put(out, b" ");
    buffer.put(out, &row.duration);
    buffer.put(out, b" ");
    put_labels(buffer, out, labels);
}

/// Hands over the one line of a cut, or the second line of a pair, without its end.
#[tactic(auto, using(crate::proofs::Days::below_kept))]
pub fn put_main<W: Out>(buffer: &mut OutBuffer, out: &mut W, event: &Event, numbering: Numbering)
    requires event { IsEvent (day_of numbering.style.rate) event.now }
    requires fits { FitsEvent numbering.style.layout event.now }
    requires labels { IsLabelled numbering.style.rate numbering.style.drop event.now }
    ensures { HandsOver W.known W.faults out.old out.new buffer.old buffer.new
        (main_line numbering.style.rate numbering.style.drop numbering.style.layout
        numbering.number event.now) }
{
    let Numbering { number, style } = numbering;
    let Style { rate, drop, layout } = style;
    let row = Row {
        layout,
        number,
        reel: &event.to.reel,
        channel: event.channel,
        kind: kind_column(&event.cross),
        duration: duration_column(&event.cross),
    };
    let labels = EventLabels {
        source_in: label_of(event.to.src_in, rate, drop),
        source_out: label_of(event.to.src_out, rate, drop),
        record_in: label_of(event.rec_in, rate, drop),
        record_out: label_of(event.rec_out, rate, drop),
    };
    put_row(buffer, out, row, labels);
}

/// Hands over the first line of a pair with this outgoing side, without its end: a cut of no
/// length, with the source in of that side twice.
#[tactic(auto, using(crate::proofs::Days::below_kept))]
pub fn put_first<W: Out>(
    buffer: &mut OutBuffer,
    out: &mut W,
    from: &Side,
    event: &Event,
    numbering: Numbering,
)
    requires from { IsSide (day_of numbering.style.rate) from.now }
    requires fits { FitsReel numbering.style.layout from.now.reel }
    requires record { IsFrame (day_of numbering.style.rate) event.now.rec_in }
    requires source_in { IsBelowDay numbering.style.rate numbering.style.drop from.now.src_in }
    requires record_in { IsBelowDay numbering.style.rate numbering.style.drop event.now.rec_in }
    ensures { HandsOver W.known W.faults out.old out.new buffer.old buffer.new
        (first_line numbering.style.rate numbering.style.drop numbering.style.layout
        numbering.number event.now from.now) }
{
    let Numbering { number, style } = numbering;
    let Style { rate, drop, layout } = style;
    let row = Row {
        layout,
        number,
        reel: &from.reel,
        channel: event.channel,
        kind: *CUT_COLUMN,
        duration: *NO_DURATION,
    };
    let source = label_of(from.src_in, rate, drop);
    let record = label_of(event.rec_in, rate, drop);
    let labels = EventLabels {
        source_in: source,
        source_out: source,
        record_in: record,
        record_out: record,
    };
    put_row(buffer, out, row, labels);
}
