//! Media lists of a few lines, one of two thousand rows, and one in pieces.

ghost use Rattle.std.specs.Prelude.{◌<◌};

use media_list::{MediaFault, MediaList, MediaReader, MediaRow};
use sequences::Text;
use std::alloc::{AllocError, Global};
use std::process::Abort;

/// Texts whose first line has the wrong form.
const FORMS: [&str; 12] = [
    "A1\t24\t0\t1",
    "A1\t24\t0\t1\ta\tb",
    "BL\t24\t0\t1\ta",
    "\t24\t0\t1\ta",
    "A 1\t24\t0\t1\ta",
    "THIRTY-THREE-BYTES-ARE-NO-REEL-01\t24\t0\t1\ta",
    "A1\t024\t0\t1\ta",
    "A1\t24\t-1\t1\ta",
    "A1\t24\t\t1\ta",
    "A1\t24\t0\t0000000000000000001\ta",
    "A1\t24\t00:00:00.00\t1\ta",
    " # no comment",
];

/// Texts of one line, whose media is out of range.
const RANGES: [&str; 5] = [
    "A1\t24\t24:00:00:00\t1\ta",
    "A1\t24\t00:00:00;00\t1\ta",
    "A1\t29.97\t00:01:00;00\t1\ta",
    "A1\t24\t0\t0\ta",
    "A1\t24\t1\t24000000\ta",
];

/// Texts of one row: its rate, its start and its count.
const ROWS: [(&str, &str, i64, i64); 7] = [
    ("A1\t24\t0\t24000000\ta", "24.0", 0, 24_000_000),
    ("A1\t24\t007\t010\t", "24.0", 7, 10),
    (
        "THIRTY-TWO-BYTES-ARE-ONE-REEL-01\t24.00\t01:00:00:00\t1\tZ\u{fc}rich ",
        "24.0",
        86_400,
        1,
    ),
    (
        "!~\t29.97\t00:01:00;02\t1\ta",
        "29.97002997002997",
        1_800,
        1,
    ),
    (
        "A1\t29.97\t00:01:00:00\t1\ta",
        "29.97002997002997",
        1_800,
        1,
    ),
    ("#A\t1\n\nA1\t25\t1\t2\ta\r\n#\n", "25.0", 1, 2),
    ("A1\t2.5e1\t1\t2\ta\r", "25.0", 1, 2),
];

// The fault of bytes.
fn fault_of(alloc: Global, bytes: &[u8]) -> Option<MediaFault> {
    MediaList::read(alloc, bytes).err()
}

fn fault_is(rt: &impl Abort, alloc: Global, bytes: &[u8], wanted: MediaFault) {
    assert!(rt; fault_of(alloc, bytes) == Some(wanted), "{bytes:?}");
}

// Whether the row of the reel `A1`, or the only row, has this rate, start and count.
fn is_row(rows: &[MediaRow], rate: &str, start: i64, count: i64) -> bool {
    match rows {
        [row] => row.rate.text().as_str() == rate && row.start == start && row.count == count,
        _ => false,
    }
}

/// The rate, the start and the count of a row.
#[derive(Clone, Copy)]
struct Wanted<'a> {
    rate: &'a str,
    start: i64,
    count: i64,
}

// Checks that a text is a list of one such row.
fn row_is(rt: &impl Abort, alloc: Global, text: &str, wanted: Wanted<'_>) {
    let list = MediaList::read(alloc, text.as_bytes()).expect(rt, "a list");
    assert!(rt;
        is_row(list.rows(), wanted.rate, wanted.start, wanted.count),
        "{text}"
    );
    drop(list);
}

// The text of a list of so many rows, of which each starts at its index.
fn text_of(alloc: Global, count: u32) -> Result<String, AllocError> {
    let mut text = String::new(alloc);
    for index in 0..count {
        text.push_str(format!(in alloc; "R{index}\t24\t{index}\t1\tr{index}.mov\n")?.as_str())?;
    }
    Ok(text)
}

#[test]
fn refuses_what_is_no_list(rt: HostRuntime) {
    let alloc = rt.alloc();
    for text in FORMS {
        fault_is(&rt, alloc, text.as_bytes(), MediaFault::Line(1));
    }
    for text in RANGES {
        fault_is(&rt, alloc, text.as_bytes(), MediaFault::Range(1));
    }
    fault_is(&rt, alloc, b"\n\r", MediaFault::Line(2));
    let low = b"A1\t0.5\t99:00:00:00\t0\ta";
    fault_is(&rt, alloc, low, MediaFault::Rate(1));
    let high = b"A1\t1e9999\t0\t1\ta";
    fault_is(&rt, alloc, high, MediaFault::Rate(1));
    let reels = b"A1\t24\t0\t1\ta\nA1\t24\t0\t1\ta";
    fault_is(&rt, alloc, reels, MediaFault::ReelTwice(2));
    let urls = b"A1\t24\t0\t1\ta\r\n\n#\nA2\t24\t0\t1\ta\n";
    fault_is(&rt, alloc, urls, MediaFault::UrlTwice(4));
    let range = b"A1\t24\t0\t1\ta\nA1\t24\t0\t0\ta";
    fault_is(&rt, alloc, range, MediaFault::Range(2));
    let form = b"A1\t24\t0\t1\ta\nA1\t24\t0\t1\ta\nB";
    fault_is(&rt, alloc, form, MediaFault::ReelTwice(2));
}

#[test]
fn refuses_bytes_that_are_no_text(rt: HostRuntime) {
    fault_is(&rt, rt.alloc(), b"#\xff", MediaFault::Line(1));
    fault_is(
        &rt,
        rt.alloc(),
        b"\nA1\t24\t0\t1\t\xff",
        MediaFault::Line(2),
    );
}

#[test]
fn reads_one_row(rt: HostRuntime) {
    for (text, rate, start, count) in ROWS {
        row_is(&rt, rt.alloc(), text, Wanted { rate, start, count });
    }
}

fn list_of(rt: &impl Abort, alloc: Global, count: u32) -> MediaList {
    let text = text_of(alloc, count).expect(rt, "a text");
    let list = MediaList::read(alloc, text.as_str().as_bytes());
    drop(text);
    list.expect(rt, "a list")
}

// Checks the number that the row of a key starts at.
fn row_starts_at(rt: &impl Abort, key: &str, row: Option<&MediaRow>, start: Option<i64>) {
    assert!(rt; row.map(|row| row.start) == start, "{key}");
}

fn reel_starts_at(
    rt: &impl Abort,
    alloc: Global,
    list: &MediaList,
    reel: &str,
    start: Option<i64>,
) {
    let key = Text::of(alloc, reel).expect(rt, "a reel");
    row_starts_at(rt, reel, list.by_reel(&key), start);
    drop(key);
}

fn url_starts_at(rt: &impl Abort, alloc: Global, list: &MediaList, url: &str, start: Option<i64>) {
    let key = Text::of(alloc, url).expect(rt, "a URL");
    row_starts_at(rt, url, list.by_url(&key), start);
    drop(key);
}

#[test]
fn looks_up_among_many(rt: HostRuntime) {
    let alloc = rt.alloc();
    let list = list_of(&rt, alloc, 2000);
    assert!(rt; list.rows().len() == 2000);
    reel_starts_at(&rt, alloc, &list, "R0", Some(0));
    reel_starts_at(&rt, alloc, &list, "R1999", Some(1999));
    reel_starts_at(&rt, alloc, &list, "R2000", None);
    url_starts_at(&rt, alloc, &list, "r1234.mov", Some(1234));
    url_starts_at(&rt, alloc, &list, "r1234.mo", None);
    url_starts_at(&rt, alloc, &list, "R1", None);
    drop(list);
}

// The list or the fault of a text that is fed in pieces of so many bytes.
fn read_in_pieces(alloc: Global, text: &[u8], size: usize) -> Result<MediaList, MediaFault>
    requires { 0 < size }
{
    let mut reader = MediaReader::new(alloc);
    for piece in text.chunks(size) {
        reader.feed(piece)?;
    }
    reader.finish()
}

// The fault of a text in pieces.
fn fault_in_pieces(alloc: Global, text: &[u8], size: usize) -> Option<MediaFault>
    requires { 0 < size }
{
    read_in_pieces(alloc, text, size).err()
}

// Checks how many rows a text in pieces says.
fn count_in_pieces_is(rt: &impl Abort, alloc: Global, text: &[u8], size: usize, count: usize)
    requires { 0 < size }
{
    let list = read_in_pieces(alloc, text, size).expect(rt, "a list");
    assert!(rt; list.rows().len() == count);
    drop(list);
}

#[test]
fn reads_pieces(rt: HostRuntime) {
    let text = b"A1\t24\t0\t1\ta\r\n#\nA2\t24\t0\t1\tb\r\n";
    count_in_pieces_is(&rt, rt.alloc(), text, 1, 2);
    count_in_pieces_is(&rt, rt.alloc(), text, 7, 2);
    assert!(rt;
        fault_in_pieces(rt.alloc(), b"#\nA1\t24\t0\t0\ta\nB", 3) == Some(MediaFault::Range(2))
    );
}
