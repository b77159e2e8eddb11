//! Lists of a few lines, in pieces of several sizes.
ghost use Rattle.std.specs.Prelude.{◌<◌};

use edl_list::{Channel, Cross, Event, EventList, Reel, Side};
use edl_text::{EdlFault, EdlReader};
use smpte_tc::label;
use std::alloc::Global;
use std::process::Abort;
use tick_time::{Decimal, Rate, is_numeral};

/// The rate of a numeral.
pub fn rate_of(rt: &impl Abort, numeral: &str) -> Rate {
    assert!(rt; is_numeral(numeral.as_bytes()));
    let decimal = Decimal::read(numeral.as_bytes()).expect(rt, "a decimal");
    Rate::of(&decimal).expect(rt, "a rate")
}

// The reader fed a text in pieces of that size, and the piece of a fault twice.
fn feed_pieces(reader: &mut EdlReader, text: &str, size: usize) -> Result<(), EdlFault>
    requires { 0 < size }
{
    for piece in text.as_bytes().chunks(size) {
        match reader.feed(piece) {
            Ok(()) => {}
            Err(fault) => {
                let again = reader.feed(piece);
                return Err(again.err().unwrap_or(fault));
            }
        }
    }
    Ok(())
}

// The list of a text that comes in pieces of that size.
fn read(alloc: Global, rate: Rate, text: &str, size: usize) -> Result<EventList, EdlFault>
    requires { 0 < size }
{
    let mut reader = EdlReader::new(alloc, rate);
    feed_pieces(&mut reader, text, size)?;
    reader.finish()
}

// The list of a text that has one.
fn list_of(rt: &impl Abort, alloc: Global, rate: Rate, text: &str, size: usize) -> EventList
    requires { 0 < size }
{
    read(alloc, rate, text, size).expect(rt, "a list")
}

// The fault of a text, the same in pieces of each size.
fn fault_of(alloc: Global, rate: Rate, text: &str) -> Option<EdlFault> {
    let whole = read(alloc, rate, text, 4096).err();
    for size in [1usize, 2, 7] {
        if read(alloc, rate, text, size).err() != whole {
            return Some(EdlFault::Memory);
        }
    }
    whole
}

// Whether the event has this line, these frames and this reel.
fn is_event(event: &Event, line: u32, frames: [i64; 4], reel: &str) -> bool {
    let named = match &event.to.reel {
        Reel::Black => reel == "BL",
        Reel::Named(name) => name.as_str() == reel,
    };
    let [src_in, src_out, rec_in, rec_out] = frames;
    named
        && event.line == line
        && event.to.src_in == src_in
        && event.to.src_out == src_out
        && event.rec_in == rec_in
        && event.rec_out == rec_out
}

fn fault_is(rt: &impl Abort, alloc: Global, rate: Rate, text: &str, wanted: EdlFault) {
    assert!(rt; fault_of(alloc, rate, text) == Some(wanted), "{text}");
}

// Whether the side has this name, these frames and this speed.
fn is_side(side: &Side, name: &str, frames: [i64; 2], speed: u16) -> bool {
    let named = match &side.name {
        Some(found) => found.as_str() == name,
        None => false,
    };
    let [src_in, src_out] = frames;
    named && side.src_in == src_in && side.src_out == src_out && side.speed == Some(speed)
}

fn list_has(rt: &impl Abort, list: &EventList, title: &str, events: usize) {
    assert!(rt; list.title.as_str() == title);
    assert!(rt; list.events.len() == events);
}

/// The event of this index.
pub fn event_at<'a>(rt: &impl Abort, list: &'a EventList, index: usize) -> &'a Event {
    list.events.get(index).expect(rt, "an event")
}

fn event_is(rt: &impl Abort, event: &Event, line: u32, frames: [i64; 4], reel: &str) {
    assert!(rt; is_event(event, line, frames, reel), "line {line}");
}

fn channel_is(rt: &impl Abort, event: &Event, wanted: Channel) {
    assert!(rt; event.channel == wanted);
}

fn side_is(rt: &impl Abort, side: &Side, name: &str, frames: [i64; 2], speed: u16) {
    assert!(rt; is_side(side, name, frames, speed), "{name}");
}

/// The outgoing side of an event that begins with a dissolve over so many frames.
pub fn dissolved_side<'a>(rt: &impl Abort, event: &'a Event, wanted: u16) -> &'a Side {
    match &event.cross {
        Cross::Dissolve { frames, from } if *frames == wanted => from.get(),
        _ => panic!(rt; "no dissolve over {wanted} frames"),
    }
}

fn one_cut_is_read(rt: &impl Abort, list: &EventList) {
    list_has(rt, list, "ONE", 1);
    assert!(rt; !list.drop);
    let event = event_at(rt, list, 0);
    event_is(rt, event, 4, [86_400, 86_448, 240, 288], "TAPE1");
    channel_is(rt, event, Channel::V);
}

#[test]
fn one_cut(rt: HostRuntime) {
    let text =
        "TITLE: ONE\r\nFCM: NON-DROP FRAME\n\n7 TAPE1 V C 01:00:00:00 01:00:02:00 00:00:10:00 00:00:12:00";
    let rate = rate_of(&rt, "24");
    for size in [1usize, 2, 7, 4096] {
        let list = list_of(&rt, rt.alloc(), rate, text, size);
        one_cut_is_read(&rt, &list);
        drop(list);
    }
}

#[test]
fn no_event(rt: HostRuntime) {
    let rate = rate_of(&rt, "100");
    let list = list_of(&rt, rt.alloc(), rate, "TITLE: EMPTY", 7);
    list_has(&rt, &list, "EMPTY", 0);
    drop(list);
}

fn dissolve_is_read(rt: &impl Abort, list: &EventList) {
    list_has(rt, list, "", 2);
    event_is(rt, event_at(rt, list, 0), 1, [24, 48, 0, 24], "A1");
    let second = event_at(rt, list, 1);
    event_is(rt, second, 3, [120, 120, 24, 48], "A1");
    side_is(rt, &second.to, "two", [120, 120], 0);
    let from = dissolved_side(rt, second, 12);
    side_is(rt, from, "one", [48, 48], 240);
}

#[test]
fn a_dissolve_of_one_reel(rt: HostRuntime) {
    let text = "1 A1 V C 00:00:01:00 00:00:02:00 00:00:00:00 00:00:01:00
2 A1 V C 00:00:02:00 00:00:02:00 00:00:01:00 00:00:01:00
000002 A1 V D 012 00:00:05:00 00:00:05:00 00:00:01:00 00:00:02:00
M2 A1 024.0 00:00:02:00
M2 A1 000.0 00:00:05:00
* FROM CLIP NAME: one
* TO CLIP NAME: two
";
    let rate = rate_of(&rt, "24");
    for size in [1usize, 2, 7, 4096] {
        let list = list_of(&rt, rt.alloc(), rate, text, size);
        dissolve_is_read(&rt, &list);
        drop(list);
    }
}

#[test]
fn three_channels_and_an_earlier_line(rt: HostRuntime) {
    let text = "1 T1 AA/V C 00:00:00:00 00:00:01:00 00:00:01:00 00:00:02:00
999999 THIRTY-TWO-BYTES-ARE-ONE-REEL-01 A2 C 00:00:00:00 00:00:01:00 00:00:00:00 00:00:01:00";
    let rate = rate_of(&rt, "24");
    let list = list_of(&rt, rt.alloc(), rate, text, 7);
    list_has(&rt, &list, "", 4);
    let first = event_at(&rt, &list, 0);
    event_is(
        &rt,
        first,
        2,
        [0, 24, 0, 24],
        "THIRTY-TWO-BYTES-ARE-ONE-REEL-01",
    );
    let last = event_at(&rt, &list, 3);
    event_is(&rt, last, 1, [0, 24, 24, 48], "T1");
    channel_is(&rt, last, Channel::A2);
    drop(list);
}

#[test]
fn drop_frame(rt: HostRuntime) {
    let text = "FCM: DROP FRAME\n1 T1 V C 00:00:00:00 00:00:00:10 01:00:00:00 01:00:00:10\n";
    let rate = rate_of(&rt, "29.97");
    let list = list_of(&rt, rt.alloc(), rate, text, 2);
    assert!(rt; list.drop);
    let event = event_at(&rt, &list, 0);
    event_is(&rt, event, 2, [0, 10, 107_892, 107_902], "T1");
    drop(list);
    let rate = rate_of(&rt, "100");
    fault_is(&rt, rt.alloc(), rate, text, EdlFault::Timecode(2));
}

#[test]
fn faults(rt: HostRuntime) {
    let rate = rate_of(&rt, "24");
    let table = [
        (
            "1 T1 V C 00:00:00:00 00:00:01:00 00:00:00:00 00:00:02:00",
            EdlFault::Unequal(1),
        ),
        (
            "\n1 T1 V K 00:00:00:00 00:00:01:00 00:00:00:00 00:00:01:00\n+",
            EdlFault::Key(2),
        ),
        ("AUD 3\n+", EdlFault::Split(1)),
        ("* a note\n+\nAUD", EdlFault::Form(2)),
        ("* FROM CLIP NAME: x", EdlFault::Form(1)),
        (
            "1000000 T1 V C 00:00:00:00 00:00:01:00 00:00:00:00 00:00:01:00",
            EdlFault::Form(1),
        ),
        (
            "1 THIRTY-THREE-BYTES-ARE-NO-REEL-01 V C 00:00:00:00 00:00:01:00 00:00:00:00 00:00:01:00",
            EdlFault::Form(1),
        ),
        ("1 T1 V D 010 0 0 0 0", EdlFault::Form(1)),
        (
            "1 T1 V C 00:00:00:00 00:00:01:00 00:00:00:00 00:00:01:00\nM2 T2 -10.0 x",
            EdlFault::Form(2),
        ),
        (
            "1 T1 V C 00:00:00:00 00:00:01:00 00:00:00:00 00:00:01:00\nM2 T1 -10.0 x",
            EdlFault::Timecode(2),
        ),
        (
            "1 T1 V C 00:00:00:00 00:00:01:00 00:00:00:00 00:00:01:00\nM2 T1 -10.0 00:00:00:00",
            EdlFault::Reverse(2),
        ),
    ];
    for (text, fault) in table {
        fault_is(&rt, rt.alloc(), rate, text, fault);
    }
}

#[test]
fn faults_of_order(rt: HostRuntime) {
    let rate = rate_of(&rt, "24");
    let back = "1 T1 V C 00:00:01:00 00:00:00:00 00:00:00:00 00:00:01:00";
    fault_is(&rt, rt.alloc(), rate, back, EdlFault::Order(1));
    let apart =
        "1 T1 V C 00:00:00:00 00:00:01:00 00:00:00:00 00:00:01:00\n1 T1 V D 024 00:00:00:00 00:00:01:00 00:00:01:01 00:00:02:01";
    fault_is(&rt, rt.alloc(), rate, apart, EdlFault::Order(2));
    let over =
        "1 T1 V C 00:00:00:00 00:00:01:00 00:00:00:00 00:00:01:00\n2 T1 B C 00:00:00:00 00:00:01:00 00:00:00:23 00:00:01:23";
    fault_is(&rt, rt.alloc(), rate, over, EdlFault::Overlap(2));
}

// The reader fed the label of a frame and the bytes behind it.
fn feed_label(reader: &mut EdlReader, rate: Rate, n: u32, end: &[u8]) -> Result<(), EdlFault> {
    match label(i64::from(n), rate, false) {
        Ok(bytes) => reader.feed(bytes.as_slice())?,
        Err(_) => return Err(EdlFault::Large),
    }
    reader.feed(end)
}

// The reader fed so many cuts, each of one frame.
fn feed_cuts(reader: &mut EdlReader, rate: Rate, count: u32) -> Result<(), EdlFault> {
    for n in 0..count {
        reader.feed(b"001 TAPE1 V C 00:00:00:00 00:00:00:01 ")?;
        feed_label(reader, rate, n, b" ")?;
        feed_label(reader, rate, n + 1, b"\n")?;
    }
    Ok(())
}

// The list of so many cuts.
fn read_cuts(alloc: Global, rate: Rate, count: u32) -> Result<EventList, EdlFault> {
    let mut reader = EdlReader::new(alloc, rate);
    feed_cuts(&mut reader, rate, count)?;
    reader.finish()
}

fn cuts_are_read(rt: &impl Abort, alloc: Global, rate: Rate, count: u32, events: usize) {
    let list = read_cuts(alloc, rate, count).expect(rt, "a list");
    assert!(rt; list.events.len() == events);
    drop(list);
}

#[test]
fn many_events(rt: HostRuntime) {
    let rate = rate_of(&rt, "24");
    cuts_are_read(&rt, rt.alloc(), rate, 999, 999);
    cuts_are_read(&rt, rt.alloc(), rate, 1_000, 1_000);
    cuts_are_read(&rt, rt.alloc(), rate, 20_000, 20_000);
}
