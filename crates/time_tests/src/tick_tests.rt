//! Worked examples, edges and outside vectors.

use std::cmp::Ordering;
use std::process::Abort;
use std::rt::HostRuntime;
use tick_time::laws::{rate_read_again, speed_read_again, time_read_again};
use tick_time::{Decimal, Rate, Scalar, Span, Time, TimeFault, is_numeral};

// What a text is read as, which is a numeral.
fn decimal_of(rt: &impl Abort, text: &str) -> Result<Decimal, TimeFault> {
    let bytes = text.as_bytes();
    assert!(rt; is_numeral(bytes), "{text}");
    Decimal::read(bytes)
}

// What a numeral is read as: a minus or none, its digits and its exponent.
fn parts(rt: &impl Abort, text: &str) -> Result<(bool, u128, i128), TimeFault> {
    let decimal = decimal_of(rt, text)?;
    Ok((decimal.neg, decimal.digits, decimal.exp))
}

fn rate_of(rt: &impl Abort, text: &str) -> Result<Rate, TimeFault> {
    Rate::of(&decimal_of(rt, text)?)
}

fn fraction_of(rt: &impl Abort, text: &str) -> Result<(i64, i64), TimeFault> {
    let rate = rate_of(rt, text)?;
    Ok((rate.num, rate.den))
}

fn time_of(rt: &impl Abort, text: &str, rate: Rate) -> Result<Time, TimeFault> {
    Time::of(&decimal_of(rt, text)?, rate)
}

fn ticks_of(rt: &impl Abort, text: &str, rate: Rate) -> Result<i128, TimeFault> {
    Ok(time_of(rt, text, rate)?.ticks)
}

fn speed_of(rt: &impl Abort, text: &str) -> Result<Scalar, TimeFault> {
    Scalar::of(&decimal_of(rt, text)?)
}

fn known_rate(rt: &impl Abort, text: &str) -> Rate {
    rate_of(rt, text).expect(rt, "a rate")
}

fn parts_are(rt: &impl Abort, text: &str, wanted: Result<(bool, u128, i128), TimeFault>) {
    assert!(rt; parts(rt, text) == wanted, "{text}");
}

fn fraction_is(rt: &impl Abort, text: &str, wanted: Result<(i64, i64), TimeFault>) {
    assert!(rt; fraction_of(rt, text) == wanted, "{text}");
}

fn ticks_are(rt: &impl Abort, text: &str, rate: Rate, wanted: Result<i128, TimeFault>) {
    assert!(rt; ticks_of(rt, text, rate) == wanted, "{text}");
}

// The ticks of a rate's unit and of its frame, and its count of timecode.
fn counts_are(rt: &impl Abort, text: &str, wanted: (i128, i128, Option<i64>)) {
    let rate = known_rate(rt, text);
    assert!(rt;
        (rate.unit(), rate.frame_ticks(), rate.nominal()) == wanted,
        "{text}"
    );
}

// That a time is written so, and read again.
fn time_is_written(rt: &impl Abort, time: &Time, written: &str) {
    assert!(rt; time.value_text().as_str() == written, "{written}");
    let again = time_read_again(time).expect(rt, "a time");
    assert!(rt; again.ticks == time.ticks, "{written}");
}

fn value_is(rt: &impl Abort, text: &str, rate: Rate, written: &str) {
    let time = time_of(rt, text, rate).expect(rt, "a time");
    time_is_written(rt, &time, written);
}

fn is_rate(rt: &impl Abort, rate: &Rate, num: i64, den: i64) {
    assert!(rt; rate.num == num && rate.den == den);
}

fn rate_is(rt: &impl Abort, text: &str, written: &str) {
    let rate = known_rate(rt, text);
    assert!(rt; rate.text().as_str() == written, "{text}");
    let again = rate_read_again(&rate).expect(rt, "a rate");
    is_rate(rt, &again, rate.num, rate.den);
}

// That a speed is written so, and read again.
fn speed_is_written(rt: &impl Abort, speed: &Scalar, written: &str) {
    assert!(rt; speed.text().as_str() == written, "{written}");
    let again = speed_read_again(speed).expect(rt, "a speed");
    assert!(rt; again.0 == speed.0, "{written}");
}

fn speed_is(rt: &impl Abort, text: &str, written: &str) {
    let decimal = decimal_of(rt, text).expect(rt, "a numeral");
    let speed = Scalar::of(&decimal).expect(rt, "a speed");
    speed_is_written(rt, &speed, written);
}

// That a numeral is no speed.
fn is_no_speed(rt: &impl Abort, text: &str) {
    assert!(rt; speed_of(rt, text) == Err(TimeFault::Scalar), "{text}");
}

/// Numerals and what they are read as.
const NUMERALS: [(&str, Result<(bool, u128, i128), TimeFault>); 10] = [
    ("0", Ok((false, 0, 0))),
    ("-0.000e5", Ok((false, 0, 0))),
    ("24.0", Ok((false, 24, 0))),
    ("2400", Ok((false, 24, 2))),
    ("-0.5", Ok((true, 5, -1))),
    ("1E+2", Ok((false, 1, 2))),
    ("12e-3", Ok((false, 12, -3))),
    ("10.010", Ok((false, 1001, -2))),
    ("1e999", Ok((false, 1, 999))),
    ("1e-999", Ok((false, 1, -999))),
];

#[test]
fn numerals(rt: HostRuntime) {
    for &(text, wanted) in NUMERALS.iter() {
        parts_are(&rt, text, wanted);
    }
}

/// Texts and whether they are numerals.
const FORMS: [(&str, bool); 22] = [
    ("0", true),
    ("-0", true),
    ("24", true),
    ("24.0", true),
    ("1e+5", true),
    ("1E-007", true),
    ("-10.010e99", true),
    ("", false),
    ("-", false),
    ("--1", false),
    ("+1", false),
    ("01", false),
    ("-00", false),
    ("1.", false),
    (".5", false),
    ("1.e5", false),
    ("1e", false),
    ("1e+", false),
    ("1e+-5", false),
    ("1e5.0", false),
    ("1 ", false),
    ("0x1", false),
];

#[test]
fn forms_of_numerals(rt: HostRuntime) {
    for &(text, is) in FORMS.iter() {
        assert!(rt; is_numeral(text.as_bytes()) == is);
    }
}

/// The same of long numerals.
const LONG_NUMERALS: [(&str, Result<(bool, u128, i128), TimeFault>); 9] = [
    (
        "99999999999999999999999999999999999999",
        Ok((false, 99999999999999999999999999999999999999, 0)),
    ),
    (
        "999999999999999999999999999999999999999",
        Err(TimeFault::TooLong),
    ),
    (
        "100000000000000000000000000000000000001",
        Err(TimeFault::TooLong),
    ),
    (
        "1000000000000000000000000000000000000000000000000000000000000",
        Ok((false, 1, 60)),
    ),
    (
        "0.0000000000000000000000000000000000000000000000000000000000001",
        Ok((false, 1, -61)),
    ),
    (
        "0.0111111111111111111111111111111111111110",
        Ok((false, 11111111111111111111111111111111111111, -39)),
    ),
    ("1e0999", Err(TimeFault::TooLong)),
    ("0e0000", Err(TimeFault::TooLong)),
    ("1e-0001", Err(TimeFault::TooLong)),
];

#[test]
fn long_numerals(rt: HostRuntime) {
    for &(text, wanted) in LONG_NUMERALS.iter() {
        parts_are(&rt, text, wanted);
    }
}

/// Rates and their fractions.
const RATES: [(&str, Result<(i64, i64), TimeFault>); 14] = [
    ("29.97", Ok((30_000, 1001))),
    ("23.976", Ok((24_000, 1001))),
    ("23.98", Ok((24_000, 1001))),
    ("59.94", Ok((60_000, 1001))),
    ("14.985", Ok((15_000, 1001))),
    ("47.952", Ok((48_000, 1001))),
    ("119.88", Ok((120_000, 1001))),
    ("24", Ok((24, 1))),
    ("24.0000000", Ok((24, 1))),
    ("12.5", Ok((25, 2))),
    ("1", Ok((1, 1))),
    ("705600000000", Ok((705_600_000_000, 1))),
    ("1.000001e6", Err(TimeFault::Rate)),
    ("29.5", Err(TimeFault::Rate)),
];

#[test]
fn rates(rt: HostRuntime) {
    for &(text, wanted) in RATES.iter() {
        fraction_is(&rt, text, wanted);
    }
}

/// The same at the edges of rates.
const RATE_EDGES: [(&str, Result<(i64, i64), TimeFault>); 12] = [
    ("29.98002997", Ok((30_000, 1001))),
    (
        "29.980029970029970029970029970029970029",
        Ok((30_000, 1001)),
    ),
    (
        "29.98002997002997002997002997002997003",
        Err(TimeFault::Rate),
    ),
    (
        "29.960029970029970029970029970029970029",
        Err(TimeFault::Rate),
    ),
    ("29.96002997002997002997002997002997003", Ok((30_000, 1001))),
    ("0.999999", Err(TimeFault::Rate)),
    ("24.0000001", Err(TimeFault::Rate)),
    ("-24", Err(TimeFault::Rate)),
    ("705600000001", Err(TimeFault::Rate)),
    ("0", Err(TimeFault::Rate)),
    ("1e30", Err(TimeFault::Rate)),
    ("1e-50", Err(TimeFault::Rate)),
];

#[test]
fn rate_edges(rt: HostRuntime) {
    for &(text, wanted) in RATE_EDGES.iter() {
        fraction_is(&rt, text, wanted);
    }
}

/// Rates and how they are written.
const RATE_TEXTS: [(&str, &str); 11] = [
    ("29.97", "29.97002997002997"),
    ("23.976", "23.976023976023978"),
    ("14.985", "14.985014985014985"),
    ("47.952", "47.952047952047955"),
    ("59.94", "59.94005994005994"),
    ("119.88", "119.88011988011988"),
    ("12.5", "12.5"),
    ("24", "24.0"),
    ("705600000000.0", "705600000000.0"),
    ("1.000000", "1.0"),
    ("15.625", "15.625"),
];

#[test]
fn rate_texts(rt: HostRuntime) {
    for &(text, written) in RATE_TEXTS.iter() {
        rate_is(&rt, text, written);
    }
}

/// Rates, the ticks of their unit and of their frame, and their counts of timecode.
const COUNTS: [(&str, (i128, i128, Option<i64>)); 6] = [
    ("24", (29_400_000_000, 29_400_000_000_000_000, Some(24))),
    ("29.97", (23_543_520_000, 23_543_520_000_000_000, Some(30))),
    ("59.94", (11_771_760_000, 11_771_760_000_000_000, Some(60))),
    ("119.88", (5_885_880_000, 5_885_880_000_000_000, None)),
    ("64", (11_025_000_000, 11_025_000_000_000_000, None)),
    ("12.5", (56_448_000_000, 56_448_000_000_000_000, None)),
];

#[test]
fn units_and_counts(rt: HostRuntime) {
    for &(text, wanted) in COUNTS.iter() {
        counts_are(&rt, text, wanted);
    }
}

/// Times at 24 frames a second and how they are written.
const VALUES: [(&str, &str); 10] = [
    ("33.333333333333336", "33.333333"),
    ("0.0000005", "0.0"),
    ("0.0000015", "0.000002"),
    ("0.0000025", "0.000002"),
    ("-0.0000015", "-0.000002"),
    ("-0.0000005", "0.0"),
    ("100.10", "100.1"),
    ("-24000000", "-24000000.0"),
    ("1e-999", "0.0"),
    ("0.00000050000000000000000000000000000001", "0.000001"),
];

#[test]
fn values(rt: HostRuntime) {
    let rate = known_rate(&rt, "24");
    for &(text, written) in VALUES.iter() {
        value_is(&rt, text, rate, written);
    }
}

/// Times at 24 frames a second and their ticks.
const FAR_VALUES: [(&str, Result<i128, TimeFault>); 8] = [
    ("33.333333333333336", Ok(979_999_990_200_000_000)),
    ("24000000", Ok(705_600_000_000_000_000_000_000)),
    ("24000000.000001", Err(TimeFault::Range)),
    ("-24000000.000001", Err(TimeFault::Range)),
    ("24000000.0000005", Ok(705_600_000_000_000_000_000_000)),
    ("1e999", Err(TimeFault::Range)),
    (
        "99999999999999999999999999999999999999",
        Err(TimeFault::Range),
    ),
    ("-1e20", Err(TimeFault::Range)),
];

#[test]
fn far_values(rt: HostRuntime) {
    let rate = known_rate(&rt, "24");
    for &(text, ticks) in FAR_VALUES.iter() {
        ticks_are(&rt, text, rate, ticks);
    }
}

#[test]
fn more_than_a_binary_float_holds(rt: HostRuntime) {
    let rate = known_rate(&rt, "705600000000.0");
    value_is(&rt, "9007199254740993.0", rate, "9007199254740993.0");
    ticks_are(
        &rt,
        "9007199254740993.0",
        rate,
        Ok(9_007_199_254_740_993_000_000),
    );
}

// The ticks of a time, and the numerator of its rate.
fn time_is(rt: &impl Abort, time: Time, ticks: i128, num: i64) {
    assert!(rt; (time.ticks, time.rate.num) == (ticks, num));
}

// The texts of a time and of its rate, and that it is read again.
fn is_written(rt: &impl Abort, time: Time, value: &str, rate: &str) {
    time_is_written(rt, &time, value);
    assert!(rt; time.rate.text().as_str() == rate);
}

fn is_out_of_range(rt: &impl Abort, time: Result<Time, TimeFault>) {
    assert!(rt; time.map(|time| time.ticks) == Err(TimeFault::Range));
}

// So many frames.
fn frames(rt: &impl Abort, count: i64, rate: Rate) -> Time {
    Time::frames(count, rate).expect(rt, "a time")
}

fn sum_of(rt: &impl Abort, time: Time, other: Time) -> Time {
    time.add(other).expect(rt, "a time")
}

fn difference_of(rt: &impl Abort, time: Time, other: Time) -> Time {
    time.sub(other).expect(rt, "a time")
}

fn order_is(rt: &impl Abort, time: &Time, other: &Time, order: Ordering) {
    assert!(rt; time.compare(other) == order);
}

#[test]
fn sums(rt: HostRuntime) {
    let film = frames(&rt, 1, known_rate(&rt, "24"));
    let video = frames(&rt, 1, known_rate(&rt, "25"));
    let sum = sum_of(&rt, film, video);
    time_is(&rt, sum, 57_624_000_000_000_000, 705_600_000_000);
    is_written(&rt, sum, "57624000000.0", "705600000000.0");
    let twice = sum_of(&rt, frames(&rt, 48, film.rate), frames(&rt, 50, video.rate));
    assert!(rt; twice.rate.num == 25);
    time_is(&rt, difference_of(&rt, film, film), 0, 24);
    let less = difference_of(&rt, video, film);
    time_is(&rt, less, -1_176_000_000_000_000, 705_600_000_000);
    order_is(&rt, &film, &video, Ordering::Greater);
    order_is(&rt, &video, &film, Ordering::Less);
}

#[test]
fn edges_of_sums(rt: HostRuntime) {
    let film = frames(&rt, 1, known_rate(&rt, "24"));
    let most = frames(&rt, 24_000_000, film.rate);
    is_out_of_range(&rt, most.add(film));
    is_out_of_range(&rt, Time::frames(-24_000_001, film.rate));
    let near = Time::near(1, film.rate).expect(&rt, "a time");
    time_is(&rt, near, 1, 705_600_000_000);
}

// The frame of a rate that holds a time, and whether it is a whole number of frames.
fn holder_is(rt: &impl Abort, time: Time, rate: Rate, frame: i128, whole: bool) {
    assert!(rt; time.floor_frame(rate) == frame);
    assert!(rt; time.on_frame(rate) == whole);
}

#[test]
fn frames_of_a_time(rt: HostRuntime) {
    let film = known_rate(&rt, "24");
    let near = Time::near(-1, film).expect(&rt, "a time");
    holder_is(&rt, near, film, -1, false);
    holder_is(&rt, frames(&rt, -3, film), film, -3, true);
    let between = time_of(&rt, "7.5", film).expect(&rt, "a time");
    holder_is(&rt, between, film, 7, false);
}

// One frame, from a frame on.
fn span_from(rt: &impl Abort, start: i64, rate: Rate) -> Span {
    let start = frames(rt, start, rate);
    let len = frames(rt, 1, rate);
    assert!(rt; 0 <= len.ticks);
    Span { start, len }
}

fn holds(rt: &impl Abort, span: &Span, ticks: i128, held: bool) {
    assert!(rt; span.holds(ticks) == held);
}

fn meets(rt: &impl Abort, span: &Span, other: &Span, met: bool) {
    assert!(rt; span.meets(other) == met);
}

#[test]
fn spans(rt: HostRuntime) {
    let film = known_rate(&rt, "24");
    let span = span_from(&rt, 2, film);
    let end = span.end_ticks();
    assert!(rt; end == 88_200_000_000_000_000);
    holds(&rt, &span, span.start.ticks, true);
    holds(&rt, &span, end, false);
    holds(&rt, &span, end - 1, true);
    meets(&rt, &span, &span, true);
    meets(&rt, &span, &span_from(&rt, 3, film), false);
}

/// Speeds and how they are written.
const SPEEDS: [(&str, &str); 7] = [
    ("2.0", "2.0"),
    ("-0.5", "-0.5"),
    ("0.4166666", "0.416667"),
    ("1000", "1000.0"),
    ("1000.0000005", "1000.0"),
    ("-1000", "-1000.0"),
    ("1.5", "1.5"),
];

#[test]
fn speeds(rt: HostRuntime) {
    for &(text, written) in SPEEDS.iter() {
        speed_is(&rt, text, written);
    }
    is_no_speed(&rt, "1000.000001");
    is_no_speed(&rt, "-1000.000001");
    is_no_speed(&rt, "1e999");
}
