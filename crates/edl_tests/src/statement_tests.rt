// Lines as lists have them.
use edl_text::{Channels, EventLine, Kind, LineFault, ReelName, Statement, statement_of};
use std::process::Abort;
use text_lines::is_text;

fn is_reel(reel: ReelName<'_>, name: &str) -> bool {
    match reel {
        ReelName::Black => name == "BL",
        ReelName::Named(found) => found == name,
    }
}

fn says_nothing(rt: &impl Abort, line: &str) {
    assert!(rt;
        matches!(statement_of(line.as_bytes()), Ok(Statement::Nothing)),
        "{line}"
    );
}

fn title_is(rt: &impl Abort, line: &[u8], wanted: &[u8]) {
    assert!(rt;
        matches!(statement_of(line), Ok(Statement::Title(title)) if title == wanted),
        "{line:?}"
    );
}

fn mode_is(rt: &impl Abort, line: &str, drop: bool) {
    assert!(rt;
        matches!(statement_of(line.as_bytes()), Ok(Statement::Mode(mode)) if mode == drop),
        "{line}"
    );
}

#[test]
fn ignores_remarks(rt: HostRuntime) {
    let table = [
        "",
        " \t ",
        "* a remark",
        "*FROM CLIP NAME: x",
        "* from clip name: x",
        "* FROM CLIP NAME x",
        "* FROM CLIPNAME: x",
        "> any",
        "AUD: x",
        "aud 3",
        "SPLIT:x",
        "FCM:DROP FRAME",
        "FCM: DROP FRAME X",
        "FCM: drop frame",
        "m2 AX 024.0 00:00:00:00",
        "TITLE : x",
        "REEL AX",
    ];
    for line in table {
        says_nothing(&rt, line);
    }
}

#[test]
fn reads_titles(rt: HostRuntime) {
    title_is(&rt, b"TITLE: One Two ", b"One Two");
    title_is(&rt, b"\tTITLE:One\tTwo", b"One\tTwo");
    title_is(&rt, b"TITLE:", b"");
    title_is(&rt, b"TITLE: \xff", b"\xff");
    title_is(&rt, b"TITLE:AUD", b"AUD");
}

#[test]
fn reads_modes(rt: HostRuntime) {
    mode_is(&rt, "FCM: DROP FRAME", true);
    mode_is(&rt, " FCM:\tDROP  FRAME ", true);
    mode_is(&rt, "FCM: NON-DROP FRAME", false);
    mode_is(&rt, "FCM: NON DROP FRAME", false);
}

// Whether the line is an event of this reel and type, with the labels `a`, `b`, `c` and `d`.
fn has_event(line: &[u8], reel: &str, kind: Kind) -> bool {
    match statement_of(line) {
        Ok(Statement::Event(event)) => {
            is_reel(event.reel, reel) && event.kind == kind && has_labels(event)
        }
        _ => false,
    }
}

fn has_labels(event: EventLine<'_>) -> bool {
    is_text(event.labels.source_in, b"a")
        && is_text(event.labels.source_out, b"b")
        && is_text(event.labels.record_in, b"c")
        && is_text(event.labels.record_out, b"d")
}

fn has_channels(line: &[u8], wanted: Channels) -> bool {
    match statement_of(line) {
        Ok(Statement::Event(event)) => event.number == 12 && event.channels == wanted,
        _ => false,
    }
}

fn has_speed(line: &[u8], reel: &str, reverse: bool, tenths: u16) -> bool {
    match statement_of(line) {
        Ok(Statement::Speed(speed)) => {
            is_reel(speed.reel, reel)
                && speed.reverse == reverse
                && speed.tenths == tenths
                && is_text(speed.label, b"a")
        }
        _ => false,
    }
}

fn event_is(rt: &impl Abort, line: &[u8], reel: &str, kind: Kind) {
    assert!(rt; has_event(line, reel, kind), "{line:?}");
}

fn channels_are(rt: &impl Abort, line: &[u8], wanted: Channels) {
    assert!(rt; has_channels(line, wanted), "{line:?}");
}

fn speed_is(rt: &impl Abort, line: &[u8], reel: &str, reverse: bool, tenths: u16) {
    assert!(rt; has_speed(line, reel, reverse, tenths), "{line:?}");
}

#[test]
fn reads_events(rt: HostRuntime) {
    event_is(
        &rt,
        b"001  AX       V     C        a b c d",
        "AX",
        Kind::Cut,
    );
    event_is(&rt, b"\t999 BL B C a b\tc d \t", "BL", Kind::Cut);
    let long = "THIRTY-TWO-BYTES-ARE-ONE-REEL-01";
    let cut = b"999999 THIRTY-TWO-BYTES-ARE-ONE-REEL-01 V C a b c d";
    event_is(&rt, cut, long, Kind::Cut);
    let dissolve = Kind::Dissolve(24);
    event_is(&rt, b"002 REEL-001 V D 024 a b c d", "REEL-001", dissolve);
    let wipe = Kind::Wipe {
        code: 12,
        frames: 5,
    };
    event_is(&rt, b"2 AX A W012 5 a b c d", "AX", wipe);
}

#[test]
fn reads_channels(rt: HostRuntime) {
    let table: [(&[u8], bool, bool, bool); 8] = [
        (b"12 AX V C a b c d", true, false, false),
        (b"000012 AX A C a b c d", false, true, false),
        (b"12 AX A2 C a b c d", false, false, true),
        (b"12 AX AA C a b c d", false, true, true),
        (b"12 AX B C a b c d", true, true, false),
        (b"12 AX A/V C a b c d", true, true, false),
        (b"12 AX A2/V C a b c d", true, false, true),
        (b"12 AX AA/V C a b c d", true, true, true),
    ];
    for (line, picture, first_sound, second_sound) in table {
        let wanted = Channels {
            picture,
            first_sound,
            second_sound,
        };
        channels_are(&rt, line, wanted);
    }
}

#[test]
fn reads_speeds(rt: HostRuntime) {
    speed_is(&rt, b"M2 AX 024.0 a", "AX", false, 240);
    speed_is(
        &rt,
        b"M2   AX       999.9                a",
        "AX",
        false,
        9999,
    );
    speed_is(&rt, b"M2 BL 0.5 a", "BL", false, 5);
    speed_is(&rt, b"M2 AX -012.5 a", "AX", true, 125);
    speed_is(&rt, b"M2 AX -0.0 a", "AX", true, 0);
}

fn name_is(rt: &impl Abort, line: &str, from: bool, wanted: &str) {
    let found = match statement_of(line.as_bytes()) {
        Ok(Statement::FromName(name)) => from && name == wanted,
        Ok(Statement::ToName(name)) => !from && name == wanted,
        _ => false,
    };
    assert!(rt; found, "{line}");
}

#[test]
fn reads_names(rt: HostRuntime) {
    name_is(&rt, "* FROM CLIP NAME: shot\t 1 ", true, "shot\t 1");
    name_is(&rt, "*\tFROM  CLIP \t NAME:shot", true, "shot");
    name_is(&rt, "* FROM CLIP NAME:", true, "");
    name_is(&rt, "* TO CLIP NAME: \u{e9}", false, "\u{e9}");
}

fn fault_is(rt: &impl Abort, line: &[u8], wanted: LineFault) {
    assert!(rt;
        matches!(statement_of(line), Err(fault) if fault == wanted),
        "{line:?}"
    );
}

#[test]
fn refuses_lines(rt: HostRuntime) {
    fault_is(&rt, b"001 AX V K B 010 a b c d", LineFault::Key);
    fault_is(&rt, b"1x 2 3 K", LineFault::Key);
    fault_is(&rt, b"AUD 3", LineFault::Split);
    fault_is(&rt, b"SPLIT", LineFault::Split);
    fault_is(&rt, b" SPLIT: x", LineFault::Split);
    let forms: [&[u8]; 19] = [
        b"1000000 AX V C a b c d",
        b"1x AX V C a b c d",
        b"1 THIRTY-THREE-BYTES-ARE-NO-REEL-01 V C a b c d",
        b"001 A\x7f V C a b c d",
        b"001 AX v C a b c d",
        b"001 AX V C a b c",
        b"001 AX V C a b c d e",
        b"001 AX V D a b c d",
        b"001 AX V D 0024 a b c d",
        b"001 AX V W12 024 a b c d",
        b"001 AX V W1234 024 a b c d",
        b"M2",
        b"M2 AX 24 a",
        b"M2 AX 24.00 a",
        b"M2 AX --24.0 a",
        b"M2 AX 24.0 a b",
        b"* TO CLIP NAME: \xff",
        b"\xc3\xa9",
        b"- x",
    ];
    for line in forms {
        fault_is(&rt, line, LineFault::Form);
    }
}
