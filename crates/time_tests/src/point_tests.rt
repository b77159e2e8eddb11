//! Words and the points that they name.

use smpte_tc::{RecordPoint, frame_at, point_of, whole_number};
use std::process::Abort;
use std::test::Fail;
use tick_time::{Decimal, Rate, is_numeral};

// The rate that a text is.
fn rate_of(text: &[u8]) -> Option<Rate> {
    if !is_numeral(text) {
        return None;
    }
    Rate::of(&Decimal::read(text).ok()?).ok()
}

/// Words and the whole numbers that they are.
const WHOLE_NUMBERS: [(&str, Option<u64>); 14] = [
    ("0", Some(0)),
    ("7", Some(7)),
    ("10", Some(10)),
    ("999999999999999999", Some(999_999_999_999_999_999)),
    ("1000000000000000000", None),
    ("", None),
    ("00", None),
    ("07", None),
    ("+7", None),
    ("-7", None),
    ("7 ", None),
    ("7.0", None),
    ("7a", None),
    ("/7", None),
];

// That a word is this number, or none.
fn number_is(rt: &impl Abort, word: &str, number: Option<u64>) {
    assert!(rt; whole_number(word) == number, "{word}");
}

#[test]
fn whole_numbers(rt: HostRuntime) -> Result<(), Fail> {
    for &(word, number) in WHOLE_NUMBERS.iter() {
        number_is(&rt, word, number);
    }
    Ok(())
}

/// Words that name no point.
const NO_POINTS: [&str; 7] = [
    "086442",
    "1:00:00:00",
    "01:00:00:000",
    "01:00:00.00",
    "01;00;00;00",
    "01:00:00:0a",
    "dd:dd:dd:dd",
];

// That a word names this point, or none.
fn point_is(rt: &impl Abort, word: &str, point: Option<RecordPoint>) {
    assert!(rt; point_of(word) == point, "{word}");
}

#[test]
fn points(rt: HostRuntime) -> Result<(), Fail> {
    point_is(&rt, "86442", Some(RecordPoint::Frame(86_442)));
    point_is(
        &rt,
        "01:00:00:00",
        Some(RecordPoint::Label(*b"01:00:00:00")),
    );
    point_is(
        &rt,
        "99:99:99;99",
        Some(RecordPoint::Label(*b"99:99:99;99")),
    );
    for word in NO_POINTS.iter() {
        point_is(&rt, word, None);
    }
    Ok(())
}

// The record frame that a word names at a rate.
fn frame_of(word: &str, rate: Rate) -> Option<i64> {
    frame_at(point_of(word)?, rate)
}

// That a word names a frame at a rate, or none.
fn frame_is(rt: &impl Abort, word: &str, rate: &str, frame: Option<i64>) {
    match rate_of(rate.as_bytes()) {
        Some(rate) => assert!(rt; frame_of(word, rate) == frame, "{word}"),
        None => assert!(rt; false, "{word}"),
    }
}

/// Words, rates and the frames that the words name at them.
const FRAMES: [(&str, &str, Option<i64>); 11] = [
    ("86442", "24", Some(86_442)),
    ("999999999999999999", "12.5", Some(999_999_999_999_999_999)),
    ("01:00:00:00", "24", Some(86_400)),
    ("23:59:59:24", "25", Some(2_159_999)),
    ("00:01:00:00", "29.97", Some(1_800)),
    ("00:01:00;02", "29.97", Some(1_800)),
    ("00:01:00;00", "29.97", None),
    ("00:01:00;02", "30", None),
    ("00:00:00:24", "24", None),
    ("24:00:00:00", "24", None),
    ("00:00:00:00", "12.5", None),
];

#[test]
fn frames(rt: HostRuntime) -> Result<(), Fail> {
    for &(word, rate, frame) in FRAMES.iter() {
        frame_is(&rt, word, rate, frame);
    }
    Ok(())
}
