// Small lists of events.
use edl_list::{Channel, Cross, Event, Reel, Side};
use edl_text::{first_overlap, in_record_order};
use std::alloc::Global;
use std::process::Abort;

// A cut from black on a line, a channel and a record span.
fn cut(line: u32, channel: Channel, rec_in: i64, rec_out: i64) -> Event {
    Event {
        line,
        channel,
        to: Side {
            reel: Reel::Black,
            name: None,
            src_in: 0,
            src_out: 48,
            speed: None,
        },
        cross: Cross::Cut,
        rec_in,
        rec_out,
    }
}

fn overlap_is(rt: &impl Abort, alloc: Global, events: [Event; 3], wanted: Option<u32>) {
    assert!(rt; first_overlap(alloc, &events) == Ok(wanted));
    drop(events);
}

#[test]
fn names_the_line_of_an_overlap(rt: HostRuntime) {
    let events = [
        cut(3, Channel::V, 24, 72),
        cut(4, Channel::A, 24, 72),
        cut(7, Channel::V, 0, 25),
    ];
    overlap_is(&rt, rt.alloc(), events, Some(7));
}

#[test]
fn spans_that_touch_have_no_overlap(rt: HostRuntime) {
    let events = [
        cut(3, Channel::V, 24, 72),
        cut(4, Channel::A2, 0, 25),
        cut(7, Channel::V, 0, 24),
    ];
    overlap_is(&rt, rt.alloc(), events, None);
}

// The lines of five events.
fn lines_of(events: &[Event]) -> Option<[u32; 5]> {
    match events {
        [a, b, c, d, e] => Some([a.line, b.line, c.line, d.line, e.line]),
        _ => None,
    }
}

#[test]
fn events_stand_in_record_order(rt: HostRuntime) {
    let events = vec![in rt.alloc();
        cut(9, Channel::A2, 24, 72),
        cut(3, Channel::A, 24, 72),
        cut(7, Channel::V, 24, 25),
        cut(8, Channel::A2, 0, 24),
        cut(2, Channel::A2, 24, 72),
    ]
    .expect(&rt, "a list");
    let ordered = in_record_order(events).expect(&rt, "a list");
    assert!(rt; lines_of(ordered.as_slice()) == Some([8, 7, 3, 2, 9]));
    drop(ordered);
}
