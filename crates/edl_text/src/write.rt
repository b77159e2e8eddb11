// The text of events and lists.
ghost use Rattle.std.specs.Prelude.{◌≡◌, ◌≤◌, ◌++◌, codes, length, Some, None, All};
ghost use Rattle.dev_io.specs.Buffer.{HandsOver};
ghost use Rattle.dev_io.specs.Calls.{Tells, SendsAll};
ghost use Rattle.dev_io.specs.Causes.{HasCause};
ghost use Rattle.edl_list.specs.Formed.{IsEvent, IsSide, IsWellFormed};
ghost use Rattle.edl_list.specs.Layouts.{wide_layout, layout_of, most_events, FitsReel, FitsEvent, FitsLayout};
ghost use Rattle.edl_list.specs.Speeds.{day_of};
ghost use Rattle.edl_text.specs.Rows.{event_lines, speed_lines};
ghost use Rattle.edl_list.specs.Labelled.{outgoing, IsLabelled, IsBelowDay};
ghost use Rattle.edl_text.specs.Spelling.{event_text, head_lines, lines_from, text_of, spelling, mode_line as mode_text};

use crate::list_settings::{Numbering, Style};
use crate::write_comments::{put_headed, put_name};
use crate::write_rows::{put_first, put_main};
use crate::write_speeds::{has_speed, needs_line, put_speed_if};
use dev_io::{Out, OutBuffer, WriteFault};
use edl_list::{Cross, Event, EventList, Layout, Side};
use tick_time::Rate;

// The head of the note of a cut's name, and of the name of an outgoing side.
const FROM_HEAD: &[u8] = b"* FROM CLIP NAME: ";

// The head of the note of the name of an incoming side.
const TO_HEAD: &[u8] = b"* TO CLIP NAME: ";

// Hands over the lines of a cut.
fn put_cut<W: Out>(buffer: &mut OutBuffer, out: &mut W, event: &Event, numbering: Numbering)
    requires cut { outgoing event.now.cross ≡ None }
    requires event { IsEvent (day_of numbering.style.rate) event.now }
    requires fits { FitsEvent numbering.style.layout event.now }
    requires labels { IsLabelled numbering.style.rate numbering.style.drop event.now }
    ensures { HandsOver W.known W.faults out.old out.new buffer.old buffer.new
        (text_of (event_lines numbering.style.rate numbering.style.drop numbering.style.layout
        numbering.number event.now)) }
{
    let Numbering { style, .. } = numbering;
    let has_line = has_speed(&event.to, style.rate);
    put_main(buffer, out, event, numbering);
    buffer.put(out, b"\n");
    put_speed_if(buffer, out, has_line, &event.to, style);
    put_name(buffer, out, FROM_HEAD, &event.to.name);
}

// Hands over the lines of a pair with this outgoing side.
#[tactic(auto, using(crate::proofs::Widths::outgoing_fits))]
fn put_pair<W: Out>(
    buffer: &mut OutBuffer,
    out: &mut W,
    event: &Event,
    from: &Side,
    numbering: Numbering,
)
    requires pair { outgoing event.now.cross ≡ Some from.now }
    requires event { IsEvent (day_of numbering.style.rate) event.now }
    requires fits { FitsEvent numbering.style.layout event.now }
    requires labels { IsLabelled numbering.style.rate numbering.style.drop event.now }
    ensures { HandsOver W.known W.faults out.old out.new buffer.old buffer.new
        (text_of (event_lines numbering.style.rate numbering.style.drop numbering.style.layout
        numbering.number event.now)) }
{
    put_first(buffer, out, from, event, numbering);
    buffer.put(out, b"\n");
    put_main(buffer, out, event, numbering);
    buffer.put(out, b"\n");
    put_speeds(buffer, out, from, &event.to, numbering.style);
    put_name(buffer, out, FROM_HEAD, &from.name);
    put_name(buffer, out, TO_HEAD, &event.to.name);
}

// Hands over the M2 lines of a pair.
fn put_speeds<W: Out>(buffer: &mut OutBuffer, out: &mut W, from: &Side, to: &Side, style: Style)
    requires from { IsSide (day_of style.rate) from.now }
    requires to { IsSide (day_of style.rate) to.now }
    requires from_fits { FitsReel style.layout from.now.reel }
    requires to_fits { FitsReel style.layout to.now.reel }
    requires from_in { IsBelowDay style.rate style.drop from.now.src_in }
    requires to_in { IsBelowDay style.rate style.drop to.now.src_in }
    ensures { HandsOver W.known W.faults out.old out.new buffer.old buffer.new
        (text_of (speed_lines style.rate style.drop style.layout to.now (Some from.now))) }
{
    put_speed_if(buffer, out, has_speed(from, style.rate), from, style);
    put_speed_if(buffer, out, needs_line(to, from, style.rate), to, style);
}

/// Hands over the lines of an event, each with its line feed.
pub fn put_event<W: Out>(buffer: &mut OutBuffer, out: &mut W, event: &Event, numbering: Numbering)
    requires event { IsEvent (day_of numbering.style.rate) event.now }
    requires fits { FitsEvent numbering.style.layout event.now }
    requires labels { IsLabelled numbering.style.rate numbering.style.drop event.now }
    ensures { HandsOver W.known W.faults out.old out.new buffer.old buffer.new
        (text_of (event_lines numbering.style.rate numbering.style.drop numbering.style.layout
        numbering.number event.now)) }
{
    match &event.cross {
        Cross::Cut => put_cut(buffer, out, event, numbering),
        Cross::Dissolve { from, .. } => put_pair(buffer, out, event, from.get(), numbering),
        Cross::Wipe { from, .. } => put_pair(buffer, out, event, from.get(), numbering),
    }
}

// Hands over the lines of the events, numbered from 1.
fn put_events<W: Out>(buffer: &mut OutBuffer, out: &mut W, events: &[Event], style: Style)
    requires few { length events.now ≤ most_events wide_layout }
    requires events { All (IsEvent (day_of style.rate)) events.now }
    requires fits { All (FitsEvent style.layout) events.now }
    requires labels { All (IsLabelled style.rate style.drop) events.now }
    ensures { HandsOver W.known W.faults out.old out.new buffer.old buffer.new
        (text_of (lines_from style.rate style.drop style.layout 1 events.now)) }
{
    let mut number = 1;
    for event in events {
        let numbering = Numbering { number, style };
        put_event(buffer, out, event, numbering);
        number += 1;
    }
}

// The line of the frame code mode.
fn mode_line(drop: bool) -> &'static [u8]
    ensures { result.now ≡ mode_text drop ++ codes "\n" }
{
    if drop {
        b"FCM: DROP FRAME\n"
    } else {
        b"FCM: NON-DROP FRAME\n"
    }
}

/// Sends the lines of one event under this number, in the wide layout or the narrow one of CMX
/// 3600: its event line, or the two of a pair, then the M2 lines of the sides whose speed isn't the
/// rate's own, and then the notes of their names.
///
/// It takes no memory. `Sink` comes only where a write failed, and then a prefix of the text was
/// sent and the count of faults rose, or stands at 2^64 - 1.
#[tactic(auto, using(crate::proofs::Widths::widths_of))]
pub fn write_event<W: Out>(
    event: &Event,
    number: u32,
    rate: Rate,
    drop: bool,
    wide: bool,
    out: &mut W,
) -> Result<(), WriteFault>
    requires number { number ≤ most_events (layout_of wide) }
    requires event { IsEvent (day_of rate) event.now }
    requires fits { FitsEvent (layout_of wide) event.now }
    requires labels { IsLabelled rate drop event.now }
    ensures told { Tells (SendsAll (event_text rate drop wide number event.now) result)
        (W.known out.old) (W.known out.new) }
    ensures cause { HasCause (W.faults out.old) (W.faults out.new) result }
{
    let mut buffer = OutBuffer::new();
    let layout = Layout::of(wide);
    let style = Style { rate, drop, layout };
    let numbering = Numbering { number, style };
    put_event(&mut buffer, out, event, numbering);
    buffer.flush(out)
}

/// Hands over the line of a list's title, where that isn't empty as it is written, and the line of
/// the frame code mode.
pub fn put_head<W: Out>(buffer: &mut OutBuffer, out: &mut W, list: &EventList, drop: bool)
    ensures { HandsOver W.known W.faults out.old out.new buffer.old buffer.new
        (text_of (head_lines list.now drop)) }
{
    put_headed(buffer, out, b"TITLE: ", list.title.as_str().as_bytes());
    buffer.put(out, mode_line(drop));
}

/// Sends the head of a list's text: the line of its title, where that isn't empty as it is written,
/// and the line of the frame code mode.
///
/// It takes no memory. `Sink` comes only where a write failed, and then a prefix of the text was
/// sent and the count of faults rose, or stands at 2^64 - 1.
pub fn write_head<W: Out>(list: &EventList, drop: bool, out: &mut W) -> Result<(), WriteFault>
    ensures told { Tells (SendsAll (text_of (head_lines list.now drop)) result) (W.known out.old)
        (W.known out.new) }
    ensures cause { HasCause (W.faults out.old) (W.faults out.new) result }
{
    let mut buffer = OutBuffer::new();
    put_head(&mut buffer, out, list, drop);
    buffer.flush(out)
}

/// Sends the one text of a list at its rate, with drop-frame or without, in the wide layout or the
/// narrow one: the line of its title where that isn't empty, the frame code mode, and its events
/// numbered from 1.
///
/// It takes no memory. `Sink` comes only where a write failed, and then a prefix of the text was
/// sent and the count of faults rose, or stands at 2^64 - 1.
#[tactic(auto, using(crate::proofs::Widths::widths_of, crate::proofs::Widths::few_events))]
pub fn write_list<W: Out>(
    list: &EventList,
    drop: bool,
    wide: bool,
    out: &mut W,
) -> Result<(), WriteFault>
    requires formed { IsWellFormed list.now }
    requires fits { FitsLayout (layout_of wide) list.now }
    requires labels { All (IsLabelled list.now.rate drop) list.now.events }
    ensures told { Tells (SendsAll (spelling list.now drop wide) result) (W.known out.old)
        (W.known out.new) }
    ensures cause { HasCause (W.faults out.old) (W.faults out.new) result }
{
    let mut buffer = OutBuffer::new();
    let layout = Layout::of(wide);
    let style = Style {
        rate: list.rate,
        drop,
        layout,
    };
    put_head(&mut buffer, out, list, drop);
    put_events(&mut buffer, out, list.events.as_slice(), style);
    buffer.flush(out)
}
