//! The texts of some values.

use crate::values::{is_written, nested, value_of};
use dev_io::{MemOut, OutBuffer, WriteFault};
use json_text::{put_string, write_json};
use std::alloc::{AllocError, Global};
use std::process::Abort;
use std::test::Fail;

/// Values as they are spelled, and what is sent of them.
const LAYOUTS: [(&str, &str); 11] = [
    ("null", "null\n"),
    ("true", "true\n"),
    ("false", "false\n"),
    ("-0.50E+2", "-0.50E+2\n"),
    ("\"\"", "\"\"\n"),
    ("[]", "[]\n"),
    ("{}", "{}\n"),
    (
        "\"a\\u0022b\\\\c\\/d\\u0008\\u000C\\u000a\\r\\te\"",
        "\"a\\\"b\\\\c/d\\b\\f\\n\\r\\te\"\n",
    ),
    (
        "\"\\u0000\\u0001\\u000B\\u000E\\u001A\\u001F \\u007F\"",
        "\"\\u0000\\u0001\\u000b\\u000e\\u001a\\u001f \u{7f}\"\n",
    ),
    (
        "\"\\u00e9\\u2028\\u6F22\\uD83D\\uDE00\"",
        "\"é\u{2028}漢😀\"\n",
    ),
    (
        "{\"a\\n\":[1,[],[null]],\"\":{},\"b\":{\"c\":\"d\"}}",
        "{
    \"a\\n\": [
        1,
        [],
        [
            null
        ]
    ],
    \"\": {},
    \"b\": {
        \"c\": \"d\"
    }
}
",
    ),
];

fn is_laid_out(rt: &impl Abort, alloc: Global, text: &str, layout: &str) {
    let value = value_of(rt, alloc, text);
    is_written(rt, alloc, &value, layout.as_bytes());
    drop(value);
}

#[test]
fn layouts(rt: HostRuntime) {
    for &(text, layout) in LAYOUTS.iter() {
        is_laid_out(&rt, rt.alloc(), text, layout);
    }
}

fn add_line(lines: &mut String, depth: usize, line: &str) -> Result<(), AllocError> {
    for _ in 0..depth {
        lines.push_str("    ")?;
    }
    lines.push_str(line)
}

fn add_lines(lines: &mut String, depth: usize) -> Result<(), AllocError> {
    for outer in 0..depth {
        add_line(lines, outer, "[\n")?;
    }
    add_line(lines, depth, "null\n")?;
    for outer in (0..depth).rev() {
        add_line(lines, outer, "]\n")?;
    }
    Ok(())
}

// More levels than one run of spaces has room for: each line but the innermost stands twice.
#[test]
fn deep_values(rt: HostRuntime) -> Result<(), Fail> {
    let alloc = rt.alloc();
    let mut lines = String::new(alloc);
    add_lines(&mut lines, 140)?;
    let value = nested(alloc, 140)?;
    is_written(&rt, alloc, &value, lines.as_str().as_bytes());
    drop(value);
    drop(lines);
    Ok(())
}

#[test]
fn a_sink_that_fails(rt: HostRuntime) -> Result<(), Fail> {
    let mut out = MemOut::new(rt.alloc(), 100)?;
    out.piece(4);
    out.fail_on(3)?;
    let value = value_of(&rt, rt.alloc(), "[\"some text\",null]");
    assert!(rt; write_json(&value, &mut out) == Err(WriteFault::Sink));
    assert!(rt; out.sent() == b"[\n    \"s".as_slice());
    drop(value);
    drop(out);
    Ok(())
}

#[test]
fn a_string_in_a_buffer(rt: HostRuntime) -> Result<(), Fail> {
    let mut out = MemOut::new(rt.alloc(), 100)?;
    let mut buffer = OutBuffer::new();
    put_string(&mut buffer, &mut out, "ä \"\u{1f}".as_bytes());
    buffer.flush(&mut out)?;
    assert!(rt; out.sent() == "\"ä \\\"\\u001f\"".as_bytes());
    drop(out);
    Ok(())
}
