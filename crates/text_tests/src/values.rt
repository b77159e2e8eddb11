//! Values of JSON, for tests.

use dev_io::MemOut;
use json_text::{JsonFault, JsonReader, write_json};
use json_value::{Json, JsonList};
use std::alloc::{AllocError, Global};
use std::process::Abort;

fn feed_pieces(reader: &mut JsonReader, text: &[u8], size: usize) -> Result<(), JsonFault> {
    let mut rest = text;
    for _ in 0..text.len() {
        if rest.len() <= size {
            break;
        }
        let (piece, after) = rest.split_at(size);
        reader.feed(piece)?;
        rest = after;
    }
    reader.feed(rest)
}

/// What is read of a text that comes in pieces of a size.
pub fn read(alloc: Global, text: &[u8], size: usize) -> Result<Json, JsonFault> {
    let mut reader = JsonReader::new(alloc);
    feed_pieces(&mut reader, text, size)?;
    reader.finish()
}

/// The value of a text that comes in pieces of a size.
pub fn value_in_pieces(rt: &impl Abort, alloc: Global, text: &[u8], size: usize) -> Json {
    match read(alloc, text, size) {
        Ok(value) => value,
        Err(fault) => panic!(rt; "{fault:?}"),
    }
}

/// The value of a text.
pub fn value_of(rt: &impl Abort, alloc: Global, text: &str) -> Json {
    value_in_pieces(rt, alloc, text.as_bytes(), text.len())
}

/// A list in a list, so many deep.
pub fn nested(alloc: Global, depth: u32) -> Result<Json, AllocError> {
    let mut value = Json::Null;
    for _ in 0..depth {
        let inside = Vec::from_array(alloc, [value])?;
        value = Json::List(JsonList::of(alloc, inside)?);
    }
    Ok(value)
}

// What is sent of a value.
fn written(rt: &impl Abort, alloc: Global, value: &Json) -> MemOut {
    let mut out = MemOut::new(alloc, 100_000).expect(rt, "memory");
    write_json(value, &mut out).expect(rt, "all sent");
    out
}

fn is_text(rt: &impl Abort, found: &[u8], text: &[u8]) {
    assert!(rt; found == text);
}

/// Holds that this text is sent of a value.
pub fn is_written(rt: &impl Abort, alloc: Global, value: &Json, text: &[u8]) {
    let found = written(rt, alloc, value);
    is_text(rt, found.sent(), text);
    drop(found);
}

/// Holds that the same text is sent of two values.
pub fn are_the_same(rt: &impl Abort, alloc: Global, value: &Json, other: &Json) {
    let wanted = written(rt, alloc, other);
    is_written(rt, alloc, value, wanted.sent());
    drop(wanted);
}
