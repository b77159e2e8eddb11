//! The text of lists with notes, and notes in the order of their events.
ghost use Rattle.std.specs.Prelude.{IfOk, All};
ghost use Rattle.edl_list.specs.Formed.{IsWellFormed};
ghost use Rattle.edl_text.specs.Lists.{IsList};
ghost use Rattle.note_text.specs.Noted.{IsNoteFor};

use crate::note_tests::listed;
use crate::reader_tests::rate_of;
use dev_io::MemOut;
use edl_list::{EventList, most_events};
use edl_text::{first_label_past_day, first_wide_reel, write_head};
use note_text::{Notes, Said, notes_below_day, notes_by_event, read_notes, write_noted};
use std::alloc::{AllocError, Global};
use std::mem;
use std::process::Abort;
use tick_time::{Rate, rate_24};

// The notes of a text for its list.
fn noted(alloc: Global, text: &[u8], list: &EventList) -> Result<Notes, AllocError>
    requires formed { IsWellFormed list.now }
    requires list { IsList list.now.rate text.now list.now }
    ensures { IfOk result (All (IsNoteFor list.now)) }
{
    read_notes(alloc, text, list)
}

// Sends a list with those of its notes that are below the day.
fn send(rt: &impl Abort, list: &EventList, notes: Notes, drop: bool, out: &mut MemOut)
    requires formed { IsWellFormed list.now }
    requires notes { All (IsNoteFor list.now) notes }
{
    let notes = notes_below_day(notes, list.rate, drop);
    assert!(rt; list.events.len() <= most_events(false));
    match first_wide_reel(list) {
        Some(_) => panic!(rt; "a wide reel"),
        None => {}
    }
    match first_label_past_day(list, drop) {
        Some(_) => panic!(rt; "a label past the day"),
        None => {}
    }
    write_noted(list, &notes, drop, false, out).expect(rt, "all sent");
    mem::drop(notes);
}

/// The text of a list and its notes, and the text that is written of them.
#[derive(Clone, Copy)]
struct Rewriting<'a> {
    text: &'a [u8],
    drop: bool,
    wanted: &'a [u8],
}

// A text and its notes are written so.
fn is_written(rt: &impl Abort, alloc: Global, rate: Rate, rewriting: Rewriting<'_>) {
    let Rewriting { text, drop, wanted } = rewriting;
    let list = listed(alloc, rate, text).expect(rt, "a list");
    let notes = noted(alloc, text, &list).expect(rt, "notes");
    let mut out = MemOut::new(alloc, 2000).expect(rt, "a device");
    send(rt, &list, notes, drop, &mut out);
    mem::drop(list);
    assert!(rt; out.sent() == wanted);
    mem::drop(out);
}

// The same text, whatever notes are written from it.
fn is_kept(rt: &impl Abort, alloc: Global, rate: Rate, text: &str) {
    is_written(
        rt,
        alloc,
        rate,
        Rewriting {
            text: text.as_bytes(),
            drop: false,
            wanted: text.as_bytes(),
        },
    );
}

#[test]
fn a_cut_with_notes(rt: HostRuntime) {
    let text = b"1 TAPE1 V C 01:00:00:00 01:00:02:00 00:00:10:00 00:00:12:00
*ASC_SAT 0.90
*\tLOC :00:00:11:00 RED fix \tsky
*ASC_SOP(1 1 1) ( -0.5e+2 0 0.0 )(1 1 1E-3)
* LOC: 00:00:11:23 MAGENTA \x01 a\x7fb\x02
* LOC: 00:00:10:00 BLUE \x01
* FROM CLIP NAME: x
* LOC: 00:00:12:00 RED outside
* FROM CLIP NAME: one";
    let wanted = b"FCM: NON-DROP FRAME
001  TAPE1    V     C        01:00:00:00 01:00:02:00 00:00:10:00 00:00:12:00
* FROM CLIP NAME: one
* ASC_SAT: 0.90
* LOC: 00:00:11:00 RED     fix  sky
* ASC_SOP: (1 1 1)(-0.5e+2 0 0.0)(1 1 1E-3)
* LOC: 00:00:11:23 MAGENTA a b
* LOC: 00:00:10:00 BLUE
";
    is_written(
        &rt,
        rt.alloc(),
        rate_24(),
        Rewriting {
            text,
            drop: false,
            wanted,
        },
    );
}

#[test]
fn events_in_another_order(rt: HostRuntime) {
    let text = b"1 T1 V C 00:00:00:00 00:00:01:00 00:00:01:00 00:00:02:00
* ASC_SAT: 1
* LOC: 00:00:01:00 RED one
2 T1 B C 00:00:00:00 00:00:01:00 00:00:00:00 00:00:01:00
* ASC_SAT: 2
* ASC_SAT: 3
";
    let wanted = b"FCM: NON-DROP FRAME
001  T1       V     C        00:00:00:00 00:00:01:00 00:00:00:00 00:00:01:00
* ASC_SAT: 2
* ASC_SAT: 3
002  T1       A     C        00:00:00:00 00:00:01:00 00:00:00:00 00:00:01:00
* ASC_SAT: 2
* ASC_SAT: 3
003  T1       V     C        00:00:00:00 00:00:01:00 00:00:01:00 00:00:02:00
* ASC_SAT: 1
* LOC: 00:00:01:00 RED     one
";
    is_written(
        &rt,
        rt.alloc(),
        rate_24(),
        Rewriting {
            text,
            drop: false,
            wanted,
        },
    );
}

#[test]
fn texts_that_are_kept(rt: HostRuntime) {
    let text = "TITLE: kept
FCM: NON-DROP FRAME
001  A1       V     C        00:00:01:00 00:00:01:00 00:00:00:00 00:00:01:00
M2   A1       000.0                00:00:01:00
* ASC_SOP: (1 1 1)(0 0 0)(1 1 1)
* LOC: 00:00:00:00 RED
* LOC: 00:00:00:23 YELLOW  last
002  A1       V     C        00:00:02:00 00:00:02:00 00:00:01:00 00:00:01:00
002  A2       V     D    012 00:00:05:00 00:00:06:00 00:00:01:00 00:00:02:00
* FROM CLIP NAME: one
* TO CLIP NAME: two
* ASC_SAT: 1e0
* LOC: 00:00:01:12 CYAN    \u{e9}\u{1f3ac}
";
    is_kept(&rt, rt.alloc(), rate_24(), text);
    is_kept(&rt, rt.alloc(), rate_24(), "FCM: NON-DROP FRAME\n");
}

#[test]
fn labels_of_either_mode(rt: HostRuntime) {
    let text = b"1 T1 V C 00:00:00:00 00:00:02:00 00:00:59:00 00:01:01:00
* LOC: 00:01:00:00 RED x
";
    let plain = b"FCM: NON-DROP FRAME
001  T1       V     C        00:00:00:00 00:00:02:00 00:00:59:00 00:01:01:00
* LOC: 00:01:00:00 RED     x
";
    let drop = b"FCM: DROP FRAME
001  T1       V     C        00:00:00;00 00:00:02;00 00:00:59;00 00:01:01;02
* LOC: 00:01:00;02 RED     x
";
    let rate = rate_of(&rt, "29.97");
    is_written(
        &rt,
        rt.alloc(),
        rate,
        Rewriting {
            text,
            drop: false,
            wanted: plain,
        },
    );
    is_written(
        &rt,
        rt.alloc(),
        rate,
        Rewriting {
            text,
            drop: true,
            wanted: drop,
        },
    );
}

// The events of notes of saturation, each with its numeral, are these.
fn are_in_turn(rt: &impl Abort, notes: &Notes, wanted: &[(usize, &str)]) {
    assert!(rt; notes.len() == wanted.len());
    for (note, (event, spelled)) in notes.as_slice().iter().zip(wanted) {
        assert!(rt; note.event == *event);
        assert!(rt;
            matches!(&note.said, Said::Sat(numeral) if numeral.as_str() == *spelled),
            "{spelled}"
        );
    }
}

#[test]
fn notes_in_the_order_of_events(rt: HostRuntime) {
    let text = b"1 T1 V C 00:00:00:00 00:00:01:00 00:00:01:00 00:00:02:00
* ASC_SAT: 1
* ASC_SAT: 0
2 T1 B C 00:00:00:00 00:00:01:00 00:00:00:00 00:00:01:00
* ASC_SAT: 3
* ASC_SAT: 2
";
    let alloc = rt.alloc();
    let list = listed(alloc, rate_24(), text).expect(&rt, "a list");
    let notes = noted(alloc, text, &list).expect(&rt, "notes");
    mem::drop(list);
    let of_lines = [(2, "1"), (2, "0"), (0, "3"), (1, "3"), (0, "2"), (1, "2")];
    are_in_turn(&rt, &notes, &of_lines);
    let notes = notes_by_event(notes).expect(&rt, "sorted notes");
    let of_events = [(0, "3"), (0, "2"), (1, "3"), (1, "2"), (2, "1"), (2, "0")];
    are_in_turn(&rt, &notes, &of_events);
    mem::drop(notes);
}

fn has_head(rt: &impl Abort, alloc: Global, text: &[u8], drop: bool, wanted: &[u8]) {
    let list = listed(alloc, rate_24(), text).expect(rt, "a list");
    let mut out = MemOut::new(alloc, 100).expect(rt, "a device");
    write_head(&list, drop, &mut out).expect(rt, "all sent");
    mem::drop(list);
    assert!(rt; out.sent() == wanted);
    mem::drop(out);
}

#[test]
fn heads(rt: HostRuntime) {
    let alloc = rt.alloc();
    let title = b"TITLE: \x01one\x7ftwo \n";
    has_head(
        &rt,
        alloc,
        title,
        true,
        b"TITLE: one two\nFCM: DROP FRAME\n",
    );
    has_head(&rt, alloc, b"", false, b"FCM: NON-DROP FRAME\n");
}
