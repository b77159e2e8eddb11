//! The texts of messages.

use coord::CoordFault;
use dev_io::{MemOut, OutBuffer, WriteFault};
use edl_frames::{NotCarried, Why};
use edl_text::EdlFault;
use json_text::JsonFault;
use otio_model::Place;
use schema_rows::SchemaFault;
use sequences::Text;
use source_files::{
    Reason, coord_reason, day_reason, json_reason, list_reason, no_timecode_reason,
    not_carried_reason, put_reason, reel_reason, schema_reason,
};
use std::alloc::Global;
use std::process::Abort;

// Sends what is told of a fault.
fn send(out: &mut MemOut, reason: &Option<Reason>) -> Result<(), WriteFault> {
    let mut buffer = OutBuffer::new();
    if let Some(reason) = reason {
        put_reason(&mut buffer, out, reason);
    }
    buffer.flush(out)
}

fn tells(rt: &impl Abort, alloc: Global, reason: Option<Reason>, wanted: &str) {
    let mut out = MemOut::new(alloc, 100).expect(rt, "a device");
    send(&mut out, &reason).expect(rt, "all sent");
    drop(reason);
    assert!(rt; out.sent() == wanted.as_bytes());
    drop(out);
}

// The place of these indices.
fn place_of(rt: &impl Abort, alloc: Global, indices: &[u32]) -> Place {
    let mut place = Place::new(alloc);
    for index in indices {
        place.push(*index).expect(rt, "a place");
    }
    place
}

#[test]
fn numbers(rt: HostRuntime) {
    let alloc = rt.alloc();
    let syntax = json_reason(JsonFault::Syntax(33_554_431));
    tells(&rt, alloc, syntax, ": J1 Syntax at 33554431\n");
    tells(&rt, alloc, json_reason(JsonFault::Large), ": J4 Large\n");
    tells(&rt, alloc, json_reason(JsonFault::Memory), "");
    let split = list_reason(EdlFault::Split(10));
    tells(&rt, alloc, split, ": L6 Split at 10\n");
    let none = Some(no_timecode_reason());
    tells(&rt, alloc, none, ": N15 NoTimecode at .\n");
    tells(&rt, alloc, Some(reel_reason(8)), ": L11 Reel at 8\n");
    tells(&rt, alloc, Some(day_reason(7)), ": L10 Day at 7\n");
}

#[test]
fn places(rt: HostRuntime) {
    let alloc = rt.alloc();
    let newer = SchemaFault::Newer(Place::new(alloc));
    tells(&rt, alloc, schema_reason(newer), ": S3 Newer at .\n");
    let long = CoordFault::Long(place_of(&rt, alloc, &[0, 12]));
    tells(&rt, alloc, coord_reason(long), ": K4 Long at 0/12\n");
}

#[test]
fn children_that_are_not_carried(rt: HostRuntime) {
    let alloc = rt.alloc();
    let overlap = not_carried_reason(NotCarried::At {
        place: place_of(&rt, alloc, &[1, 0]),
        why: Why::Overlap,
    });
    tells(&rt, alloc, overlap, ": N10 Overlap at 1/0\n");
    let events = not_carried_reason(NotCarried::At {
        place: Place::new(alloc),
        why: Why::Events,
    });
    tells(&rt, alloc, events, ": N13 Events at .\n");
    tells(&rt, alloc, not_carried_reason(NotCarried::Memory), "");
}

#[test]
fn members(rt: HostRuntime) {
    let alloc = rt.alloc();
    let place = place_of(&rt, alloc, &[4_294_967_295]);
    let name = Text::of(alloc, "kind").expect(&rt, "a text");
    let field = schema_reason(SchemaFault::Field(place, name));
    tells(&rt, alloc, field, ": S4 Field at 4294967295 kind\n");
}
