//! Files that are read in pieces: lists, logs and JSON have one answer, whatever the pieces.

ghost use Rattle.std.specs.Prelude.{◌<◌};

use crate::runs::{Case, Manner, Named, answer_to, check_cases, check_pieces, ended, files_of};
use crate::texts::{
    BLANKS, FILM, FILM_WRITTEN, GAP, GAP_INDENTED, GAP_WRITTEN, LOG, LOG_CRLF, LOG_MEDIA, NOTED,
    NOTED_CRLF, NOTED_SPELLED, ONE, ONE_CONFORMED, ONE_SPELLED, ROWS, TWO_REELS,
};
use dev_io::MemFiles;
use otio_tools::Status;
use std::alloc::{AllocError, Global};
use std::process::Abort;
use std::slice::from_ref;
use std::test::Fail;

// Holds some cases over files of which a read gives at most so many bytes.
fn check_at_most(
    rt: &impl Abort,
    alloc: Global,
    files: &mut MemFiles,
    most: usize,
    cases: &[Case<'_>],
) -> Result<(), Fail>
    requires { 0 < most }
{
    files.piece(most);
    check_cases(rt, alloc, files, cases)
}

// Holds some cases over files that are read whole, and in pieces of 1, 2 and 7 bytes.
fn check_any_pieces(
    rt: &impl Abort,
    alloc: Global,
    files: &mut MemFiles,
    cases: &[Case<'_>],
) -> Result<(), Fail> {
    check_at_most(rt, alloc, files, 4096, cases)?;
    check_at_most(rt, alloc, files, 1, cases)?;
    check_at_most(rt, alloc, files, 2, cases)?;
    check_at_most(rt, alloc, files, 7, cases)
}

// These parts, one after another.
fn joined(alloc: Global, parts: &[&[u8]]) -> Result<Vec<u8>, AllocError> {
    let mut whole = Vec::new(alloc);
    for part in parts {
        whole.extend_from_slice(part)?;
    }
    Ok(whole)
}

// Holds that a command line sends these parts, one after another, whatever the pieces.
fn check_parts(
    rt: &impl Abort,
    alloc: Global,
    files: &mut MemFiles,
    line: &str,
    parts: &[&[u8]],
) -> Result<(), Fail> {
    let whole = joined(alloc, parts)?;
    let case: Case<'_> = (line, Status::Done, whole.as_slice(), b"");
    let held = check_any_pieces(rt, alloc, files, from_ref(&case));
    drop(whole);
    held
}

static LIST_FILES: [Named; 9] = [
    ("a.edl", ONE),
    ("noted.edl", NOTED),
    ("crlf.edl", NOTED_CRLF),
    ("two.edl", TWO_REELS),
    (
        "wide.edl",
        b"1000 A001C003_240101 V C 01:00:00:00 01:00:01:00 00:00:00:00 00:00:01:00\n",
    ),
    ("form.edl", b"TITLE: E\n1 T1 V C 00:00:00:00\n* after\n"),
    ("m.txt", b"TAPE1\t24\t0\t200000\ta.mov\n"),
    ("twice.txt", b"A\t24\t0\t1\tu\nB\t24\t0\t1\tu\n"),
    (
        "undone.txt",
        b"overwrite 0 0 clip w TAPE1 0 10\nslice 0 5\nundo\nundo\n",
    ),
];

// Lists, also with their notes and with media lists.
static LIST_CASES: [Case; 8] = [
    ("convert --to edl a.edl", Status::Done, ONE_SPELLED, b""),
    ("convert --to edl two.edl", Status::Done, TWO_REELS, b""),
    (
        "convert --to edl --wide wide.edl",
        Status::Done,
        b"FCM: NON-DROP FRAME
000001  A001C003_240101                  V     C        01:00:00:00 01:00:01:00 00:00:00:00 00:00:01:00
",
        b"",
    ),
    (
        "convert --notes --to edl noted.edl",
        Status::Done,
        NOTED_SPELLED,
        b"",
    ),
    (
        "convert --notes --to edl crlf.edl",
        Status::Done,
        NOTED_SPELLED,
        b"",
    ),
    (
        "frames --media m.txt --count 2 a.edl",
        Status::Done,
        b"240 0 url:\"a.mov\"@86400\n241 0 url:\"a.mov\"@86401\n",
        b"",
    ),
    (
        "convert --to edl form.edl",
        Status::Refused,
        b"",
        b"otio: form.edl: L1 Form at 2\n",
    ),
    (
        "convert --media twice.txt a.edl",
        Status::Refused,
        b"",
        b"otio: twice.txt: M3 UrlTwice at 2\n",
    ),
];

// Also a list that becomes a timeline, and a script of its edits that undoes them.
fn check_lists(rt: &impl Abort, alloc: Global, files: &mut MemFiles) -> Result<(), Fail> {
    check_any_pieces(rt, alloc, files, &LIST_CASES)?;
    let converted = "convert --media m.txt a.edl";
    check_parts(rt, alloc, files, converted, &ONE_CONFORMED)?;
    let undone = "edit --media m.txt --script undone.txt a.edl";
    check_parts(rt, alloc, files, undone, &ONE_CONFORMED)
}

#[test]
fn lists_have_one_answer_in_pieces_of_any_size(rt: HostRuntime) -> Result<(), Fail> {
    let mut files = files_of(rt.alloc(), &LIST_FILES)?;
    let held = check_lists(&rt, rt.alloc(), &mut files);
    drop(files);
    held
}

static LOG_FILES: [Named; 8] = [
    ("two.ale", LOG),
    ("crlf.ale", LOG_CRLF),
    ("blanks.ale", BLANKS),
    ("rows.ale", ROWS),
    (
        "comma.ale",
        b"Heading\nFPS\t24\nColumn\nTape,Start,End\nData\n",
    ),
    ("rate.ale", b"Heading\nFPS\t24\r\rColumn\n"),
    (
        "label.ale",
        b"Heading\nFPS\t29.97\nColumn\nTape\tStart\tEnd\nData\nA\t00:00:59;29\t00:01:00;00\n",
    ),
    ("two.edl", TWO_REELS),
];

// Logs, as media lists and in place of one.
static LOG_CASES: [Case; 8] = [
    ("media two.ale", Status::Done, LOG_MEDIA, b""),
    ("media crlf.ale", Status::Done, LOG_MEDIA, b""),
    (
        "media blanks.ale",
        Status::Done,
        b"A1\t24.0\t24\t24\ttape:A1\n",
        b"",
    ),
    (
        "media rows.ale",
        Status::Done,
        b"A\t24.0\t24\t192\ttape:A\nB\t24.0\t48\t24\ttape:B\n",
        b"",
    ),
    (
        "media comma.ale",
        Status::Refused,
        b"",
        b"otio: comma.ale: A1 Form at 4\n",
    ),
    (
        "media rate.ale",
        Status::Refused,
        b"",
        b"otio: rate.ale: A2 Rate at 2\n",
    ),
    (
        "media label.ale",
        Status::Refused,
        b"",
        b"otio: label.ale: A3 Label at 6\n",
    ),
    (
        "frames --media two.ale --start 86443 --count 1 two.edl",
        Status::Done,
        b"86443 0 mix(dissolve 5/24 url:\"tape:A1\"@143 url:\"tape:B1\"@195)\n",
        b"",
    ),
];

#[test]
fn logs_have_one_answer_in_pieces_of_any_size(rt: HostRuntime) -> Result<(), Fail> {
    let mut files = files_of(rt.alloc(), &LOG_FILES)?;
    let held = check_any_pieces(&rt, rt.alloc(), &mut files, &LOG_CASES);
    drop(files);
    held
}

static JSON_FILES: [Named; 6] = [
    ("gap.otio", GAP),
    ("comma.json", b"[1,]"),
    ("pair.json", b"[1,2]"),
    ("utf8.json", b"[\"\xc3\xff\"]"),
    ("newer.otio", b"{\"OTIO_SCHEMA\":\"Clip.3\"}"),
    ("m.txt", b"A1\t24\t0\t1000\ta.mov\nB1\t24\t0\t1000\tb.mov\n"),
];

// A timeline as a list, a gap as an object and as JSON, and JSON that is refused.
static JSON_CASES: [Case; 6] = [
    (
        "convert --to edl --media m.txt t.otio",
        Status::Done,
        TWO_REELS,
        b"",
    ),
    ("convert gap.otio", Status::Done, GAP_WRITTEN, b""),
    (
        "convert --to json gap.otio",
        Status::Done,
        GAP_INDENTED,
        b"",
    ),
    (
        "convert --to json comma.json",
        Status::Refused,
        b"",
        b"otio: comma.json: J1 Syntax at 3\n",
    ),
    (
        "convert --to json utf8.json",
        Status::Refused,
        b"",
        b"otio: utf8.json: J2 Utf8 at 3\n",
    ),
    (
        "convert newer.otio",
        Status::Refused,
        b"",
        b"otio: newer.otio: S3 Newer at .\n",
    ),
];

// Adds a file of these parts.
fn put_joined(
    alloc: Global,
    files: &mut MemFiles,
    name: &str,
    parts: &[&[u8]],
) -> Result<(), AllocError> {
    let whole = joined(alloc, parts)?;
    let put = files.put(name, &whole);
    drop(whole);
    put
}

// Also the timeline as an object.
fn check_timelines(rt: &impl Abort, alloc: Global, files: &mut MemFiles) -> Result<(), Fail> {
    put_joined(alloc, files, "t.otio", &FILM)?;
    check_any_pieces(rt, alloc, files, &JSON_CASES)?;
    check_parts(rt, alloc, files, "convert t.otio", &FILM_WRITTEN)
}

#[test]
fn timelines_have_one_answer_in_pieces_of_any_size(rt: HostRuntime) -> Result<(), Fail> {
    let mut files = files_of(rt.alloc(), &JSON_FILES)?;
    let held = check_timelines(&rt, rt.alloc(), &mut files);
    drop(files);
    held
}

#[test]
fn nothing_is_read_behind_a_fault(rt: HostRuntime) -> Result<(), Fail> {
    let alloc = rt.alloc();
    let comma: Case = (
        "convert --to json comma.json",
        Status::Refused,
        b"",
        b"otio: comma.json: J1 Syntax at 3\n",
    );
    let pair: Case = (
        "convert --to json pair.json",
        Status::Input,
        b"",
        b"otio: pair.json: read failed\n",
    );
    let manner = Manner {
        most: 4,
        failing: 3,
    };
    check_pieces(&rt, alloc, &JSON_FILES, manner, &comma)?;
    check_pieces(&rt, alloc, &JSON_FILES, manner, &pair)
}

// A text of 10 000 bytes.
fn long_text(alloc: Global) -> Result<Vec<u8>, AllocError> {
    let mut text = Vec::new(alloc);
    text.push(b'"')?;
    for _ in 0..9998 {
        text.push(b'a')?;
    }
    text.push(b'"')?;
    Ok(text)
}

// Adds this text, and lets that call on the files fail.
fn put_failing(alloc: Global, files: &mut MemFiles, call: u64) -> Result<(), AllocError> {
    let text = long_text(alloc)?;
    let put = files.put("f.json", &text);
    drop(text);
    put?;
    files.fail_on(call)
}

// Holds how `convert --to json` over a long text of which that call fails ends, and how many bytes
// are sent.
fn check_call(
    rt: &impl Abort,
    alloc: Global,
    call: u64,
    status: Status,
    sent: usize,
) -> Result<(), Fail> {
    let mut files = MemFiles::new(alloc);
    put_failing(alloc, &mut files, call)?;
    let line = "convert --to json f.json";
    let answered = answer_to(alloc, &mut files, line);
    drop(files);
    let answer = answered?;
    ended(rt, line, &answer, status);
    assert!(rt; answer.out.sent().len() == sent);
    drop(answer);
    Ok(())
}

// A file of 10 000 bytes is opened and read in pieces of 4 096, 4 096 and 1 808 bytes, and then at
// its end.
#[test]
fn a_file_is_read_in_pieces_of_4096_bytes(rt: HostRuntime) -> Result<(), Fail> {
    check_call(&rt, rt.alloc(), 4, Status::Input, 0)?;
    check_call(&rt, rt.alloc(), 5, Status::Input, 0)?;
    check_call(&rt, rt.alloc(), 6, Status::Done, 10001)
}
