//! The text of an empty list and of one event. Lists of all kinds are written where they are read,
//! in `edl_law`.
ghost use Rattle.std.specs.Prelude.{◌≡◌, pos, false};
ghost use Rattle.edl_list.specs.Formed.{IsEvent};
ghost use Rattle.edl_list.specs.Speeds.{day_of};
ghost use Rattle.edl_list.specs.Labelled.{IsLabelled};
ghost use Rattle.edl_list.specs.Layouts.{narrow, wide_layout, FitsEvent};

use crate::list_tests::text_of;
use dev_io::MemOut;
use edl_list::{Channel, Cross, Event, EventList, Reel, Side};
use edl_text::{first_label_past_day, first_wide_reel, write_event, write_list};
use sequences::{Sequence, Text};
use std::alloc::Global;
use std::process::Abort;
use tick_time::{Rate, rate_24};

// Two seconds of black at twice the speed.
fn black(name: Text, rate: Rate) -> Event
    requires num { rate.num ≡ pos 24 }
    requires den { rate.den ≡ pos 1 }
    ensures event { IsEvent (day_of rate) result }
    ensures labels { IsLabelled rate false result }
    ensures narrow { FitsEvent narrow result }
    ensures wide { FitsEvent wide_layout result }
{
    Event {
        line: 1,
        channel: Channel::A2,
        to: Side {
            reel: Reel::Black,
            name: Some(name),
            src_in: 24,
            src_out: 120,
            speed: Some(480),
        },
        cross: Cross::Cut,
        rec_in: 86_400,
        rec_out: 86_448,
    }
}

fn device(rt: &impl Abort, alloc: Global) -> MemOut {
    MemOut::new(alloc, 400).expect(rt, "a device")
}

fn has_sent(rt: &impl Abort, out: MemOut, wanted: &[u8]) {
    assert!(rt; out.sent() == wanted);
    drop(out);
}

#[test]
fn an_empty_list(rt: HostRuntime) {
    let alloc = rt.alloc();
    let list = EventList {
        title: text_of(&rt, alloc, "\tEMPTY "),
        rate: rate_24(),
        drop: false,
        events: Sequence::new(alloc),
    };
    let mut out = device(&rt, alloc);
    write_list(&list, false, false, &mut out).expect(&rt, "all sent");
    has_sent(&rt, out, b"TITLE: EMPTY\nFCM: NON-DROP FRAME\n");
    assert!(rt; first_label_past_day(&list, true) == None);
    assert!(rt; first_wide_reel(&list) == None);
    drop(list);
}

#[test]
fn an_event(rt: HostRuntime) {
    let alloc = rt.alloc();
    let rate = rate_24();
    let event = black(text_of(&rt, alloc, " a\tb\x7f"), rate);
    let mut out = device(&rt, alloc);
    write_event(&event, 12, rate, false, false, &mut out).expect(&rt, "all sent");
    drop(event);
    let want = b"012  BL       A2    C        00:00:01:00 00:00:05:00 01:00:00:00 01:00:02:00
M2   BL       048.0                00:00:01:00
* FROM CLIP NAME: a b
";
    has_sent(&rt, out, want);
}

#[test]
fn a_wide_event(rt: HostRuntime) {
    let alloc = rt.alloc();
    let rate = rate_24();
    let event = black(text_of(&rt, alloc, ""), rate);
    let mut out = device(&rt, alloc);
    write_event(&event, 1000, rate, false, true, &mut out).expect(&rt, "all sent");
    drop(event);
    let want =
        b"001000  BL                               A2    C        00:00:01:00 00:00:05:00 01:00:00:00 01:00:02:00
M2   BL                               048.0                00:00:01:00
";
    has_sent(&rt, out, want);
}
