//! One event of each kind.
ghost use Rattle.std.specs.Prelude.{◌≤ℤ◌, pos};

use crate::reader_tests::{dissolved_side, event_at};
use edl_list::{Channel, Cross, Event, EventList, Reel, Side};
use owned::Owned;
use sequences::{Sequence, Text};
use std::alloc::Global;
use std::process::Abort;
use tick_time::rate_24;

/// The text of a string, where there is memory.
pub fn text_of(rt: &impl Abort, alloc: Global, text: &str) -> Text {
    Text::of(alloc, text).expect(rt, "a text")
}

// Forty-eight frames of a reel, from a frame on.
fn side(rt: &impl Abort, alloc: Global, reel: &str, src_in: i64) -> Side
    requires { src_in ≤ℤ pos 1000000 }
{
    let name = text_of(rt, alloc, "a clip");
    Side {
        reel: Reel::Named(text_of(rt, alloc, reel)),
        name: Some(name),
        src_in,
        src_out: src_in + 48,
        speed: None,
    }
}

// Twenty-four frames of black, at twice the speed.
fn black() -> Side {
    Side {
        reel: Reel::Black,
        name: None,
        src_in: 0,
        src_out: 48,
        speed: Some(480),
    }
}

fn dissolve(rt: &impl Abort, alloc: Global) -> Cross {
    let from = side(rt, alloc, "TAPE2", 0);
    Cross::Dissolve {
        frames: 12,
        from: Owned::of(alloc, from).expect(rt, "a side"),
    }
}

fn wipe(rt: &impl Abort, alloc: Global) -> Cross {
    Cross::Wipe {
        code: 1,
        frames: 24,
        from: Owned::of(alloc, black()).expect(rt, "a side"),
    }
}

// An event of forty-eight frames that begins in this way.
fn event(rt: &impl Abort, alloc: Global, channel: Channel, cross: Cross) -> Event {
    Event {
        line: 3,
        channel,
        to: side(rt, alloc, "TAPE1", 86_400),
        cross,
        rec_in: 0,
        rec_out: 48,
    }
}

fn events(rt: &impl Abort, alloc: Global) -> Vec<Event> {
    let cut = event(rt, alloc, Channel::V, Cross::Cut);
    let dissolve = event(rt, alloc, Channel::A, dissolve(rt, alloc));
    let wipe = event(rt, alloc, Channel::A2, wipe(rt, alloc));
    vec![in alloc; cut, dissolve, wipe].expect(rt, "a list")
}

fn list_of_each_kind(rt: &impl Abort, alloc: Global) -> EventList {
    EventList {
        title: text_of(rt, alloc, "of each kind"),
        rate: rate_24(),
        drop: false,
        events: Sequence::of(events(rt, alloc)),
    }
}

#[test]
fn events_of_each_kind(rt: HostRuntime) {
    let list = list_of_each_kind(&rt, rt.alloc());
    assert!(rt; list.title.as_str() == "of each kind");
    assert!(rt; list.events.len() == 3);
    let from = dissolved_side(&rt, event_at(&rt, &list, 1), 12);
    assert!(rt;
        matches!(&from.reel, Reel::Named(name) if name.as_str() == "TAPE2"),
        "TAPE2"
    );
    assert!(rt;
        matches!(&event_at(&rt, &list, 2).cross, Cross::Wipe { .. }),
        "Wipe"
    );
    drop(list);
}
