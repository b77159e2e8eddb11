//! Texts and what is no text, in pieces of any size.

use crate::values::{read, value_in_pieces};
use json_text::{JsonFault, JsonReader};
use json_value::Json;
use std::alloc::{AllocError, Global};
use std::process::Abort;
use std::test::Fail;

/// The sizes of the pieces that each text is cut into.
const SIZES: [usize; 4] = [1, 2, 7, 100_000];

/// A text that is no value, and why.
type Refused = (&'static [u8], JsonFault);

fn fault_is(rt: &impl Abort, found: JsonFault, fault: JsonFault) {
    assert!(rt; found == fault, "{found:?} in place of {fault:?}");
}

fn refuses_pieces(rt: &impl Abort, alloc: Global, text: &[u8], size: usize, fault: JsonFault) {
    match read(alloc, text, size) {
        Ok(value) => {
            drop(value);
            panic!(rt; "taken");
        }
        Err(found) => fault_is(rt, found, fault),
    }
}

fn refuses(rt: &impl Abort, alloc: Global, text: &[u8], fault: JsonFault) {
    for &size in SIZES.iter() {
        refuses_pieces(rt, alloc, text, size, fault);
    }
}

fn refuses_each(rt: &impl Abort, alloc: Global, rows: &[Refused]) {
    for &(text, fault) in rows {
        refuses(rt, alloc, text, fault);
    }
}

fn has_characters(rt: &impl Abort, value: &Json, characters: &str) {
    match value {
        Json::Str(found) => assert!(rt; found.as_str() == characters, "other characters"),
        _ => assert!(rt; false, "no string"),
    }
}

fn is_string(rt: &impl Abort, alloc: Global, text: &[u8], characters: &str) {
    for &size in SIZES.iter() {
        let value = value_in_pieces(rt, alloc, text, size);
        has_characters(rt, &value, characters);
        drop(value);
    }
}

fn has_spelling(rt: &impl Abort, value: &Json, spelling: &str) {
    match value {
        Json::Num(found) => assert!(rt; found.as_str() == spelling, "other spelling"),
        _ => assert!(rt; false, "no numeral"),
    }
}

fn is_numeral(rt: &impl Abort, alloc: Global, text: &[u8], spelling: &str) {
    for &size in SIZES.iter() {
        let value = value_in_pieces(rt, alloc, text, size);
        has_spelling(rt, &value, spelling);
        drop(value);
    }
}

fn takes(rt: &impl Abort, alloc: Global, text: &[u8]) {
    for &size in SIZES.iter() {
        drop(value_in_pieces(rt, alloc, text, size));
    }
}

fn is_member(rt: &impl Abort, value: Option<&Json>, spelling: &str) {
    match value {
        Some(found) => has_spelling(rt, found, spelling),
        None => assert!(rt; false, "no member"),
    }
}

fn are_members(rt: &impl Abort, value: &Json) {
    match value {
        Json::Map(object) => {
            let members = object.get();
            assert!(rt; members.len() == 2, "other members");
            is_member(rt, members.value(0), "3");
            is_member(rt, members.value(1), "2");
            is_member(rt, members.get("a"), "3");
        }
        _ => assert!(rt; false, "no object"),
    }
}

/// Texts of values.
static TEXTS: [&[u8]; 9] = [
    b"null",
    b" true ",
    b"false\n",
    b"[]",
    b" [ ] ",
    b"{}",
    b"\t{ }\r",
    b"[1,[2,{\"a\":[]},\"\"],null]",
    b" { \"a\" : [ 1 , 2 ] , \"b\" : { } } ",
];

#[test]
fn values(rt: HostRuntime) {
    for &text in TEXTS.iter() {
        takes(&rt, rt.alloc(), text);
    }
}

#[test]
fn later_member_replaces(rt: HostRuntime) {
    let alloc = rt.alloc();
    for &size in SIZES.iter() {
        let value = value_in_pieces(&rt, alloc, b"{\"a\":1,\"b\":2,\"a\":3}", size);
        are_members(&rt, &value);
        drop(value);
    }
}

/// Texts that break the grammar, and where.
static NO_TEXTS: [Refused; 21] = [
    (b"", JsonFault::Syntax(0)),
    (b"  ", JsonFault::Syntax(2)),
    (b"[1,]", JsonFault::Syntax(3)),
    (b"[,1]", JsonFault::Syntax(1)),
    (b"[1 2]", JsonFault::Syntax(3)),
    (b"[1}", JsonFault::Syntax(2)),
    (b"[1]]", JsonFault::Syntax(3)),
    (b"[1] x", JsonFault::Syntax(4)),
    (b"[1", JsonFault::Syntax(2)),
    (b"{\"a\":1,}", JsonFault::Syntax(7)),
    (b"{,}", JsonFault::Syntax(1)),
    (b"{1:2}", JsonFault::Syntax(1)),
    (b"{\"a\" 1}", JsonFault::Syntax(5)),
    (b"{\"a\":}", JsonFault::Syntax(5)),
    (b"{\"a\"}", JsonFault::Syntax(4)),
    (b"nul ", JsonFault::Syntax(3)),
    (b"nulls", JsonFault::Syntax(4)),
    (b"tru", JsonFault::Syntax(3)),
    (b"falze", JsonFault::Syntax(3)),
    (b"\xEF\xBB\xBF1", JsonFault::Syntax(0)),
    (b"[\xFF]", JsonFault::Syntax(1)),
];

#[test]
fn grammar(rt: HostRuntime) {
    refuses_each(&rt, rt.alloc(), &NO_TEXTS);
}

/// The same of numerals.
static NO_NUMERALS: [Refused; 11] = [
    (b"01", JsonFault::Syntax(1)),
    (b"-", JsonFault::Syntax(1)),
    (b"-a", JsonFault::Syntax(1)),
    (b"+1", JsonFault::Syntax(0)),
    (b"1.", JsonFault::Syntax(2)),
    (b"1.]", JsonFault::Syntax(2)),
    (b".5", JsonFault::Syntax(0)),
    (b"1e", JsonFault::Syntax(2)),
    (b"1e+", JsonFault::Syntax(3)),
    (b"1.5.", JsonFault::Syntax(3)),
    (b"0x1", JsonFault::Syntax(1)),
];

/// Numerals and their spelling.
static NUMERALS: [(&[u8], &str); 6] = [
    (b"0", "0"),
    (b"-0", "-0"),
    (b" 10 ", "10"),
    (b"1E+2", "1E+2"),
    (b"-1.50e-07", "-1.50e-07"),
    (b"0.0", "0.0"),
];

#[test]
fn numerals(rt: HostRuntime) {
    let alloc = rt.alloc();
    refuses_each(&rt, alloc, &NO_NUMERALS);
    for &(text, spelling) in NUMERALS.iter() {
        is_numeral(&rt, alloc, text, spelling);
    }
}

/// Strings and their characters.
static STRINGS: [(&[u8], &str); 8] = [
    (b"\"\"", ""),
    (b"\"a b\"", "a b"),
    (b"\"\\\"\\\\\\/\\b\\f\\n\\r\\t\"", "\"\\/\u{8}\u{c}\n\r\t"),
    (
        b"\"\\u0041\\u00e9\\u20AC\\uFFFF\"",
        "A\u{e9}\u{20ac}\u{ffff}",
    ),
    (b"\"\\ud83d\\uDE00!\"", "\u{1f600}!"),
    (b"\"\\u0000\\uD7FF\\uE000\"", "\u{0}\u{d7ff}\u{e000}"),
    (
        b"\"\xC3\xA9\xE2\x82\xAC\xF0\x9F\x98\x80\x7F\"",
        "\u{e9}\u{20ac}\u{1f600}\u{7f}",
    ),
    (
        b"\"\xED\x9F\xBF\xEE\x80\x80\xF4\x8F\xBF\xBF\"",
        "\u{d7ff}\u{e000}\u{10ffff}",
    ),
];

#[test]
fn strings(rt: HostRuntime) {
    for &(text, characters) in STRINGS.iter() {
        is_string(&rt, rt.alloc(), text, characters);
    }
}

/// The same of strings.
static NO_STRINGS: [Refused; 11] = [
    (b"\"\\u12", JsonFault::Syntax(5)),
    (b"\"a\nb\"", JsonFault::Syntax(2)),
    (b"\"\x1F\"", JsonFault::Syntax(1)),
    (b"\"\\x\"", JsonFault::Syntax(2)),
    (b"\"\\u12g4\"", JsonFault::Syntax(5)),
    (b"[\"\\ud800\"]", JsonFault::Syntax(8)),
    (b"\"\\ud800\\n\"", JsonFault::Syntax(8)),
    (b"\"\\ud800\\u0041\"", JsonFault::Syntax(9)),
    (b"\"\\ud800\\ud800\"", JsonFault::Syntax(10)),
    (b"\"\\udc00\"", JsonFault::Syntax(4)),
    (b"\"\\\xC3\xA9\"", JsonFault::Syntax(2)),
];

#[test]
fn broken_strings(rt: HostRuntime) {
    refuses_each(&rt, rt.alloc(), &NO_STRINGS);
}

/// The same of what is no UTF-8.
static NO_UTF8: [Refused; 13] = [
    (b"\"\x80\"", JsonFault::Utf8(1)),
    (b"\"\xC1\x81\"", JsonFault::Utf8(1)),
    (b"\"\xF5\"", JsonFault::Utf8(1)),
    (b"\"\xC3\"", JsonFault::Utf8(2)),
    (b"\"\xC3\n\"", JsonFault::Utf8(2)),
    (b"\"\xE0\x9F\xBF\"", JsonFault::Utf8(2)),
    (b"\"\xED\xA0\x80\"", JsonFault::Utf8(2)),
    (b"\"\xF0\x8F\xBF\xBF\"", JsonFault::Utf8(2)),
    (b"\"\xF4\x90\x80\x80\"", JsonFault::Utf8(2)),
    (b"\"\xE2\x82\x28\"", JsonFault::Utf8(3)),
    (b"\"\\\xFF\"", JsonFault::Utf8(2)),
    (b"\"\\u\x80\"", JsonFault::Utf8(3)),
    (b"\"\xC3", JsonFault::Syntax(2)),
];

#[test]
fn utf8(rt: HostRuntime) {
    refuses_each(&rt, rt.alloc(), &NO_UTF8);
}

fn add_maps(text: &mut Vec<u8>, levels: usize) -> Result<(), AllocError> {
    for _ in 0..levels {
        text.extend_from_slice(b"{\"\":")?;
    }
    Ok(())
}

#[test]
fn levels(rt: HostRuntime) -> Result<(), Fail> {
    let alloc = rt.alloc();
    let mut deep = [b'['; 254];
    for byte in &mut deep[127..] {
        *byte = b']';
    }
    takes(&rt, alloc, &deep);
    refuses(&rt, alloc, &[b'['; 128], JsonFault::Depth(127));
    let mut maps = Vec::new(alloc);
    add_maps(&mut maps, 200)?;
    refuses(&rt, alloc, &maps, JsonFault::Depth(508));
    drop(maps);
    Ok(())
}

fn feeds(rt: &impl Abort, reader: &mut JsonReader, piece: &[u8], outcome: Result<(), JsonFault>) {
    assert!(rt; reader.feed(piece) == outcome);
}

fn finishes(rt: &impl Abort, reader: JsonReader, fault: JsonFault) {
    match reader.finish() {
        Ok(value) => {
            drop(value);
            panic!(rt; "a value");
        }
        Err(found) => assert!(rt; found == fault, "forgotten"),
    }
}

#[test]
fn same_fault_again(rt: HostRuntime) {
    let mut reader = JsonReader::new(rt.alloc());
    feeds(&rt, &mut reader, b"[1,", Ok(()));
    feeds(&rt, &mut reader, b" ]", Err(JsonFault::Syntax(4)));
    feeds(&rt, &mut reader, b"2]", Err(JsonFault::Syntax(4)));
    feeds(&rt, &mut reader, b"", Err(JsonFault::Syntax(4)));
    finishes(&rt, reader, JsonFault::Syntax(4));
}

#[test]
fn limit(rt: HostRuntime) -> Result<(), Fail> {
    let blanks = vec![in rt.alloc(); b' '; 1_048_576]?;
    let mut reader = JsonReader::new(rt.alloc());
    for _ in 0..32 {
        feeds(&rt, &mut reader, &blanks, Ok(()));
    }
    drop(blanks);
    feeds(&rt, &mut reader, b"", Ok(()));
    feeds(&rt, &mut reader, b"x", Err(JsonFault::Large));
    feeds(&rt, &mut reader, b"0", Err(JsonFault::Large));
    drop(reader);
    Ok(())
}
