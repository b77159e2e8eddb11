//! What lines say as notes, in pieces of several sizes.
ghost use Rattle.std.specs.Prelude.{◌<◌, IfOk};
ghost use Rattle.edl_list.specs.Formed.{IsWellFormed};
ghost use Rattle.edl_text.specs.Lists.{IsList};

use edl_list::EventList;
use edl_text::{EdlFault, EdlReader};
use note_text::{Note, NoteReader, Notes, Said, Triple};
use sequences::Text;
use std::alloc::{AllocError, Global};
use std::process::Abort;
use tick_time::{Rate, rate_24};

/// The numerals of red, green and blue.
#[derive(Clone, Copy)]
pub struct Three<'a> {
    r: &'a str,
    g: &'a str,
    b: &'a str,
}

/// What a note is to say: a frame, a color and a name; slope, offset and power; one numeral.
#[derive(Clone, Copy)]
pub enum Wanted<'a> {
    Loc(i64, &'a str, &'a str),
    Sop(Three<'a>, Three<'a>, Three<'a>),
    Sat(&'a str),
}

/// The numerals of red, green and blue.
pub fn numerals<'a>(r: &'a str, g: &'a str, b: &'a str) -> Three<'a> {
    Three { r, g, b }
}

/// Two seconds of a reel from the tenth second on, on the picture's channel.
const CUT: &str = "001 T1 V C 01:00:00:00 01:00:02:00 00:00:10:00 00:00:12:00\n";

fn is_triple(triple: &Triple, wanted: Three<'_>) -> bool {
    triple.r.as_str() == wanted.r && triple.g.as_str() == wanted.g && triple.b.as_str() == wanted.b
}

// Whether a locator of this frame, color and name is wanted.
fn is_locator(at: i64, color: &Text, name: &Text, wanted: Wanted<'_>) -> bool {
    match wanted {
        Wanted::Loc(frame, shade, title) => {
            at == frame && color.as_str() == shade && name.as_str() == title
        }
        Wanted::Sop(..) => false,
        Wanted::Sat(_) => false,
    }
}

// Whether this slope, offset and power are wanted.
fn is_correction(slope: &Triple, offset: &Triple, power: &Triple, wanted: Wanted<'_>) -> bool {
    match wanted {
        Wanted::Loc(..) => false,
        Wanted::Sop(a, b, c) => {
            is_triple(slope, a) && is_triple(offset, b) && is_triple(power, c)
        }
        Wanted::Sat(_) => false,
    }
}

// Whether a saturation of this numeral is wanted.
fn is_saturation(numeral: &Text, wanted: Wanted<'_>) -> bool {
    match wanted {
        Wanted::Loc(..) => false,
        Wanted::Sop(..) => false,
        Wanted::Sat(spelled) => numeral.as_str() == spelled,
    }
}

// Whether a note says what is wanted.
fn is_said(said: &Said, wanted: Wanted<'_>) -> bool {
    match said {
        Said::Loc { at, color, name } => is_locator(*at, color, name, wanted),
        Said::Sop {
            slope,
            offset,
            power,
        } => is_correction(slope.get(), offset.get(), power.get(), wanted),
        Said::Sat(numeral) => is_saturation(numeral, wanted),
    }
}

/// The list of a text.
pub fn listed(alloc: Global, rate: Rate, text: &[u8]) -> Result<EventList, EdlFault>
    ensures formed { IfOk result IsWellFormed }
    ensures list { IfOk result (λ list. IsList list.rate text.now list) }
{
    let mut reader = EdlReader::new(alloc, rate);
    reader.feed(text)?;
    reader.finish()
}

// The notes of a text, which comes in pieces of that size, for its list.
fn heard(
    alloc: Global,
    list: &EventList,
    rate: Rate,
    text: &[u8],
    size: usize,
) -> Result<Notes, AllocError>
    requires size { 0 < size }
    requires formed { IsWellFormed list.now }
{
    let mut reader = NoteReader::new(alloc, rate);
    for piece in text.chunks(size) {
        reader.feed(piece)?;
    }
    reader.finish(list)
}

fn are_said(rt: &impl Abort, text: &[u8], notes: &[Note], wanted: &[(usize, Wanted<'_>)]) {
    assert!(rt; notes.len() == wanted.len(), "{text:?}");
    for (note, (event, said)) in notes.iter().zip(wanted) {
        assert!(rt; note.event == *event, "{text:?}");
        assert!(rt; is_said(&note.said, *said), "{text:?}");
    }
}

/// The notes of a list, each with the place of its event, are these, in pieces of each size.
pub fn has_notes(
    rt: &impl Abort,
    alloc: Global,
    rate: Rate,
    text: &[u8],
    wanted: &[(usize, Wanted<'_>)],
) {
    let list = listed(alloc, rate, text).expect(rt, "a list");
    for size in [1usize, 2, 7, 4096] {
        let notes = heard(alloc, &list, rate, text, size).expect(rt, "notes");
        are_said(rt, text, notes.as_slice(), wanted);
        drop(notes);
    }
    drop(list);
}

// The cut, and this line after it.
fn after_cut(rt: &impl Abort, alloc: Global, line: &[u8]) -> Vec<u8> {
    let mut text = Vec::new(alloc);
    text.extend_from_slice(CUT.as_bytes()).expect(rt, "a line");
    text.extend_from_slice(line).expect(rt, "two lines");
    text
}

fn says(rt: &impl Abort, alloc: Global, line: &[u8], wanted: Wanted<'_>) {
    let text = after_cut(rt, alloc, line);
    has_notes(rt, alloc, rate_24(), text.as_slice(), &[(0, wanted)]);
}

fn says_nothing(rt: &impl Abort, alloc: Global, line: &[u8]) {
    let text = after_cut(rt, alloc, line);
    has_notes(rt, alloc, rate_24(), text.as_slice(), &[]);
}

#[test]
fn locators(rt: HostRuntime) {
    let table = [
        ("* LOC: 00:00:11:00 RED fix sky", "RED", "fix sky"),
        ("*LOC:00:00:11:00 RED fix sky\r\n", "RED", "fix sky"),
        (
            "*\tLOC \t: \t00:00:11:00\t RED \tfix \tsky",
            "RED",
            "fix \tsky",
        ),
        (" \t* LOC: 00:00:11:00 RED fix sky \t\n", "RED", "fix sky"),
        ("* LOC: 00:00:11:00 RED", "RED", ""),
        ("* LOC: 00:00:11:00 R \t\n", "R", ""),
        ("* LOC: 00:00:11:00 MAGENTA x", "MAGENTA", "x"),
        ("* LOC: 00:00:11:00 RED BLUE", "RED", "BLUE"),
        ("* LOC: 00:00:11:00 RED : (1 1 1)", "RED", ": (1 1 1)"),
        ("* LOC: 00:00:11:00 RED * LOC: x", "RED", "* LOC: x"),
        (
            "* LOC: 00:00:11:00 RED \u{e9}\u{20ac}\u{1f3ac}",
            "RED",
            "\u{e9}\u{20ac}\u{1f3ac}",
        ),
        ("* LOC: 00:00:11:00 RED \u{a0}\u{85}", "RED", "\u{a0}\u{85}"),
        (
            "* LOC: 00:00:11:00 RED a\u{1}b\u{7f}\r",
            "RED",
            "a\u{1}b\u{7f}\r",
        ),
        ("* LOC: 00:00:11:00 RED \u{0}", "RED", "\u{0}"),
    ];
    for (line, color, name) in table {
        says(
            &rt,
            rt.alloc(),
            line.as_bytes(),
            Wanted::Loc(264, color, name),
        );
    }
}

#[test]
fn no_locators(rt: HostRuntime) {
    let table: [&[u8]; 19] = [
        b"* LOC 00:00:11:00 RED x",
        b"* LOC:: 00:00:11:00 RED x",
        b"* LOC:",
        b"* LOC: 00:00:11:00",
        b"* LOC: RED x",
        b"* LOC: 00:00:11:00RED x",
        b"* LOC: 00:00:11:00 REDX1 x",
        b"* LOC: 00:00:11:00 Red x",
        b"* LOC: 00:00:11:00 MAGENTAS x",
        b"* LOC: 00:00:11:00 R\xc3\xa9 x",
        b"* LOC: 0:00:11:00 RED x",
        b"* LOC: 00:00:11:24 RED x",
        b"* LOC: 00:00:11;00 RED x",
        b"* LOC: 24:00:00:00 RED x",
        b"* LOCATOR: 00:00:11:00 RED x",
        b"* loc: 00:00:11:00 RED x",
        b"** LOC: 00:00:11:00 RED x",
        b"> LOC: 00:00:11:00 RED x",
        b"* LOC: 00:00:11:00 RED \xff",
    ];
    for line in table {
        says_nothing(&rt, rt.alloc(), line);
    }
}

#[test]
fn corrections(rt: HostRuntime) {
    let one = numerals("1", "1", "1");
    let ones = Wanted::Sop(one, numerals("0", "0", "0"), one);
    for line in [
        "* ASC_SOP: (1 1 1)(0 0 0)(1 1 1)",
        "*ASC_SOP(1 1 1)(0 0 0)(1 1 1)\r\n",
        "*ASC_SOP (1 1 1)(0 0 0)(1 1 1)",
        "*\tASC_SOP\t:\t( 1\t1  1 ) \t(\t0 0 0\t)(1 1 1) \t",
    ] {
        says(&rt, rt.alloc(), line.as_bytes(), ones);
    }
    let spelled = Wanted::Sop(
        numerals("1.10", "-0", "0.0"),
        numerals("1e2", "1E+02", "-1.5e-3"),
        numerals("0e0", "10", "12345678901234567890"),
    );
    let line = b"* ASC_SOP: (1.10 -0 0.0)(1e2 1E+02 -1.5e-3)(0e0 10 12345678901234567890)";
    says(&rt, rt.alloc(), line, spelled);
}

#[test]
fn no_corrections(rt: HostRuntime) {
    let table = [
        "* ASC_SOP",
        "* ASC_SOP: (1 1 1)(0 0 0)",
        "* ASC_SOP: (1 1 1)(0 0 0)(1 1 1)(1 1 1)",
        "* ASC_SOP: (1 1 1)(0 0 0)(1 1 1) x",
        "* ASC_SOP: (1 1)(0 0 0)(1 1 1)",
        "* ASC_SOP: (1 1 1 1)(0 0 0)(1 1 1)",
        "* ASC_SOP: (1 1 01)(0 0 0)(1 1 1)",
        "* ASC_SOP: (1 1 +1)(0 0 0)(1 1 1)",
        "* ASC_SOP: (1 1 1.)(0 0 0)(1 1 1)",
        "* ASC_SOP: (1,1,1)(0 0 0)(1 1 1)",
        "* ASC_SOP: (1 1 1)(0 0 0)(1 1 1",
        "* ASC_SOP: ((1 1 1)(0 0 0)(1 1 1)",
        "* ASC_SOP:: (1 1 1)(0 0 0)(1 1 1)",
        "* ASC_SOPS: (1 1 1)(0 0 0)(1 1 1)",
        "* ASC SOP: (1 1 1)(0 0 0)(1 1 1)",
    ];
    for line in table {
        says_nothing(&rt, rt.alloc(), line.as_bytes());
    }
}

#[test]
fn saturations(rt: HostRuntime) {
    let table = [
        ("* ASC_SAT: 0.9", "0.9"),
        ("*ASC_SAT 0.9\r\n", "0.9"),
        ("*ASC_SAT:0.90", "0.90"),
        ("*\tASC_SAT\t:\t1E-0 \t", "1E-0"),
        ("*ASC_SAT\t-0", "-0"),
    ];
    for (line, numeral) in table {
        says(&rt, rt.alloc(), line.as_bytes(), Wanted::Sat(numeral));
    }
}

#[test]
fn no_saturations(rt: HostRuntime) {
    let table = [
        "* ASC_SAT",
        "* ASC_SAT:",
        "* ASC_SAT0.9",
        "* ASC_SAT: .9",
        "* ASC_SAT: +1",
        "* ASC_SAT: 01",
        "* ASC_SAT: 1.",
        "* ASC_SAT: 1 2",
        "* ASC_SAT: (1)",
        "* ASC_SAT :: 1",
        "* ASC_SAT: NaN",
        "* asc_sat: 1",
    ];
    for line in table {
        says_nothing(&rt, rt.alloc(), line.as_bytes());
    }
}
