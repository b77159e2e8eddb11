// Short texts.
use std::process::Abort;
use text_lines::{
    after, before, first_blank, first_byte, is_blank, is_text, reel_name, split_field, split_line,
    strip_back, strip_front, strip_return, trim_blanks, trim_front,
};

fn is_same(found: Option<&[u8]>, wanted: Option<&str>) -> bool {
    match (found, wanted) {
        (Some(found), Some(wanted)) => found == wanted.as_bytes(),
        (None, None) => true,
        _ => false,
    }
}

#[test]
fn cuts_at_an_index(rt: HostRuntime) {
    assert!(rt; before(b"abc", 1) == b"a".as_slice());
    assert!(rt; after(b"abc", 1) == b"bc".as_slice());
    assert!(rt; before(b"abc", 0).is_empty());
    assert!(rt; after(b"abc", 3).is_empty());
}

#[test]
fn finds_the_first_byte(rt: HostRuntime) {
    assert!(rt; first_byte(b"a:b:c", b':') == Some(1));
    assert!(rt; first_byte(b":", b':') == Some(0));
    assert!(rt; first_byte(b"abc", b':').is_none());
    assert!(rt; first_byte(b"", b':').is_none());
}

#[test]
fn tells_a_text(rt: HostRuntime) {
    assert!(rt; is_text(b"TITLE:", b"TITLE:"));
    assert!(rt; is_text(b"", b""));
    assert!(rt; !is_text(b"TITLE", b"TITLE:"));
    assert!(rt; !is_text(b"title:", b"TITLE:"));
}

fn after_front_is(rt: &impl Abort, bytes: &str, front: &str, rest: Option<&str>) {
    let found = strip_front(bytes.as_bytes(), front.as_bytes());
    assert!(rt; is_same(found, rest), "{bytes}");
}

#[test]
fn strips_a_front(rt: HostRuntime) {
    after_front_is(&rt, "* FROM CLIP NAME: A", "* FROM", Some(" CLIP NAME: A"));
    after_front_is(&rt, "FCM:", "FCM:", Some(""));
    after_front_is(&rt, "FCM", "FCM:", None);
    after_front_is(&rt, "XFCM:", "FCM:", None);
    after_front_is(&rt, "any", "", Some("any"));
    after_front_is(&rt, "", "any", None);
}

fn before_back_is(rt: &impl Abort, bytes: &str, back: &str, rest: Option<&str>) {
    let found = strip_back(bytes.as_bytes(), back.as_bytes());
    assert!(rt; is_same(found, rest), "{bytes}");
}

#[test]
fn strips_a_back(rt: HostRuntime) {
    before_back_is(&rt, "AUDIO\r", "\r", Some("AUDIO"));
    before_back_is(&rt, "FCM:", "FCM:", Some(""));
    before_back_is(&rt, "CM:", "FCM:", None);
    before_back_is(&rt, "FCM: ", "FCM:", None);
    before_back_is(&rt, "any", "", Some("any"));
    before_back_is(&rt, "", "any", None);
}

#[test]
fn finds_the_first_blank(rt: HostRuntime) {
    assert!(rt; first_blank(b"001 AX") == Some(3));
    assert!(rt; first_blank(b"\tAX C") == Some(0));
    assert!(rt; first_blank(b"AX\r").is_none());
    assert!(rt; is_blank(b' ') && is_blank(b'\t'));
    assert!(rt; !is_blank(b'\r') && !is_blank(b'\n') && !is_blank(b'a'));
}

fn line_is(rt: &impl Abort, text: &str, line: &str, rest: Option<&str>) {
    let split = split_line(text.as_bytes());
    assert!(rt;
        split.0 == line.as_bytes() && is_same(split.1, rest),
        "{text}"
    );
}

#[test]
fn splits_lines(rt: HostRuntime) {
    line_is(&rt, "", "", None);
    line_is(&rt, "one", "one", None);
    line_is(&rt, "one\n", "one", Some(""));
    line_is(&rt, "\n", "", Some(""));
    line_is(&rt, "\n\ntwo", "", Some("\ntwo"));
    line_is(&rt, "one\r\ntwo\nthree", "one", Some("two\nthree"));
    line_is(&rt, "\r\n", "", Some(""));
    line_is(&rt, "one\r\r\n", "one\r", Some(""));
    line_is(&rt, "one\rtwo\n", "one\rtwo", Some(""));
    line_is(&rt, "one\r", "one\r", None);
}

#[test]
fn strips_a_return(rt: HostRuntime) {
    assert!(rt; strip_return(b"one\r") == b"one".as_slice());
    assert!(rt; strip_return(b"one\r\r") == b"one\r".as_slice());
    assert!(rt; strip_return(b"\rone") == b"\rone".as_slice());
    assert!(rt; strip_return(b"").is_empty());
}

fn field_is(rt: &impl Abort, line: &str, field: &str, rest: &str) {
    let split = split_field(line.as_bytes());
    assert!(rt;
        split == Some((field.as_bytes(), rest.as_bytes())),
        "{line}"
    );
}

#[test]
fn splits_fields(rt: HostRuntime) {
    field_is(&rt, "001 AX  V", "001", "AX  V");
    field_is(&rt, "   AX  V", "AX", " V");
    field_is(&rt, "V", "V", "");
    field_is(&rt, "  V  ", "V", " ");
    field_is(&rt, "a\tb c", "a", "b c");
    field_is(&rt, " \t a \tb", "a", "\tb");
    field_is(&rt, "a\r b", "a\r", "b");
    assert!(rt; split_field(b"").is_none());
    assert!(rt; split_field(b" \t ").is_none());
}

fn trimmed_is(rt: &impl Abort, text: &str, front: &str, trimmed: &str) {
    assert!(rt; trim_front(text.as_bytes()) == front.as_bytes(), "{text}");
    assert!(rt;
        trim_blanks(text.as_bytes()) == trimmed.as_bytes(),
        "{text}"
    );
}

#[test]
fn trims_blanks(rt: HostRuntime) {
    trimmed_is(&rt, "", "", "");
    trimmed_is(&rt, " \t ", "", "");
    trimmed_is(&rt, "a", "a", "a");
    trimmed_is(&rt, "  a \t b ", "a \t b ", "a \t b");
    trimmed_is(&rt, "\ta\t", "a\t", "a");
    trimmed_is(&rt, "a \r", "a \r", "a \r");
}

// Texts and whether they are names of reels.
const REELS: [(&str, bool); 13] = [
    ("A", true),
    ("TAPE0001", true),
    ("!~", true),
    ("bl", true),
    ("BLX", true),
    ("BL", false),
    ("", false),
    ("TAPE00001", true),
    ("A001C003_240101_R1AB_ProRes4444X", true),
    ("A001C003_240101_R1AB_ProRes4444XQ", false),
    ("A B", false),
    ("A\u{7f}", false),
    ("\u{e9}", false),
];

fn is_reel(rt: &impl Abort, bytes: &str, is_name: bool) {
    assert!(rt; reel_name(bytes.as_bytes()).is_some() == is_name, "{bytes}");
}

#[test]
fn names_of_reels(rt: HostRuntime) {
    for &(bytes, is_name) in REELS.iter() {
        is_reel(&rt, bytes, is_name);
    }
}
