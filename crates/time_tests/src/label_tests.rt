// Labels against outside vectors.
ghost use Rattle.std.specs.Prelude.{◌≡◌, ◌<◌, ◌≤◌, ◌*◌, ◌%◌, ◌≤ℤ◌, pos, unsigned_abs, IsTrue};
ghost use Rattle.tick_time.specs.Rates.{is_rate, per_millionth};

use smpte_tc::{TcFault, label, label_frame, read};
use std::process::Abort;
use tick_time::Rate;

/// Labels at 24 frames a second and their numbers.
const KNOWN: [(&[u8; 11], i64); 8] = [
    (b"00:00:00:00", 0),
    (b"00:00:00:23", 23),
    (b"00:00:01:00", 24),
    (b"00:01:00:00", 1_440),
    (b"01:00:00:00", 86_400),
    (b"01:01:01:01", 87_865),
    (b"10:00:00:00", 864_000),
    (b"23:59:59:23", 2_073_599),
];

/// Bytes that are no label of a day at 24 frames a second.
const NONE: [(&str, TcFault); 15] = [
    ("", TcFault::Form),
    ("24:00:00:00", TcFault::Field),
    ("00:60:00:00", TcFault::Field),
    ("00:00:60:00", TcFault::Field),
    ("00:00:00:24", TcFault::Field),
    ("99:99:99:99", TcFault::Field),
    ("00:00:00;00", TcFault::NoTimecode),
    ("00;00:00:00", TcFault::Form),
    ("00:00.00:00", TcFault::Form),
    ("00:00:00:0", TcFault::Form),
    ("00:00:00:000", TcFault::Form),
    ("0a:00:00:00", TcFault::Form),
    ("00:00:00:0:", TcFault::Form),
    ("00:00:00: 0", TcFault::Form),
    ("-1:00:00:00", TcFault::Form),
];

// That bytes read as a number, or as this fault.
fn reads_as(
    rt: &impl Abort,
    text: &[u8],
    rate: Rate,
    drop_frame: bool,
    answer: Result<i64, TcFault>,
) {
    assert!(rt; read(text, rate, drop_frame) == answer);
}

// That a number has this label, or this fault.
fn label_is(
    rt: &impl Abort,
    number: i64,
    rate: Rate,
    drop_frame: bool,
    answer: Result<[u8; 11], TcFault>,
) {
    assert!(rt; label(number, rate, drop_frame) == answer);
}

// That a drop-frame label reads as it should, and that one that does is the number's label.
fn drop_label_is(rt: &impl Abort, rate: Rate, text: &[u8; 11], answer: Result<i64, TcFault>) {
    reads_as(rt, text.as_slice(), rate, true, answer);
    if let Ok(number) = answer {
        label_is(rt, number, rate, true, Ok(*text));
    }
}

#[test]
#[tactic(auto, unfolding(tick_time::specs::Rates::is_rate))]
fn known_labels(rt: HostRuntime) {
    let film = whole_rate(24);
    for (text, number) in KNOWN.iter() {
        reads_as(&rt, text.as_slice(), film, false, Ok(*number));
        label_is(&rt, *number, film, false, Ok(**text));
    }
}

#[test]
#[tactic(auto, unfolding(tick_time::specs::Rates::is_rate))]
fn no_labels(rt: HostRuntime) {
    let film = whole_rate(24);
    for (text, fault) in NONE.iter() {
        reads_as(&rt, text.as_bytes(), film, false, Err(*fault));
    }
}

// Each second of a day, at a frame that moves on with it.
#[test]
#[tactic(auto, unfolding(tick_time::specs::Rates::is_rate))]
fn each_second_of_a_day(rt: HostRuntime) {
    let film = whole_rate(24);
    for second in 0..86_400u32 {
        let number = i64::from(second * 24 + second % 24);
        match label(number, film, false) {
            Ok(text) => assert!(rt; read(text.as_slice(), film, false) == Ok(number)),
            Err(_) => assert!(rt; false, "no label"),
        }
    }
}

// The rate of 30000/1001 frames a second.
fn rate_30_drop() -> Rate {
    Rate {
        num: 30_000,
        den: 1001,
    }
}

// The rate of 60000/1001 frames a second.
fn rate_60_drop() -> Rate {
    Rate {
        num: 60_000,
        den: 1001,
    }
}

// The rate of 24000/1001 frames a second.
fn rate_24_slow() -> Rate {
    Rate {
        num: 24_000,
        den: 1001,
    }
}

// A whole rate.
fn whole_rate(count: i64) -> Rate
    requires low { pos 1 ≤ℤ count }
    requires high { count ≤ℤ pos 120 }
    requires divides { per_millionth * 1 % unsigned_abs count ≡ 0 }
    requires given { IsTrue (is_rate (unsigned_abs count) 1) }
{
    Rate { num: count, den: 1 }
}

/// Labels at 30000/1001 with drop-frame.
const DROP_30: [(&[u8; 11], Result<i64, TcFault>); 12] = [
    (b"00:00:00;00", Ok(0)),
    (b"00:00:59;29", Ok(1_799)),
    (b"00:01:00;00", Err(TcFault::Dropped)),
    (b"00:01:00;01", Err(TcFault::Dropped)),
    (b"00:01:00;02", Ok(1_800)),
    (b"00:09:59;29", Ok(17_981)),
    (b"00:10:00;00", Ok(17_982)),
    (b"01:00:00;00", Ok(107_892)),
    (b"23:59:59;29", Ok(2_589_407)),
    (b"24:00:00;00", Err(TcFault::Field)),
    (b"00:00:00;30", Err(TcFault::Field)),
    (b"00:00:00.00", Err(TcFault::Form)),
];

/// Labels that read as one number, 1 800, and whether drop-frame is asked for.
const ALIKE_30: [(&[u8; 11], bool); 3] = [
    (b"00:01:00;02", false),
    (b"00:01:00:02", true),
    (b"00:01:00:00", false),
];

// That bytes are the label of this frame, or of none.
fn frame_is(rt: &impl Abort, text: &[u8], rate: Rate, frame: Option<u32>) {
    assert!(rt; label_frame(text, rate, false) == frame);
}

// Numbers and their labels, with and without drop-frame.
fn numbers_at_30(rt: &impl Abort, rate: Rate) {
    label_is(rt, 1_800, rate, false, Ok(*b"00:01:00:00"));
    label_is(rt, 2_589_408, rate, true, Err(TcFault::Day));
    label_is(rt, -1, rate, true, Err(TcFault::Day));
    label_is(rt, 2_589_408, rate, false, Ok(*b"23:58:33:18"));
}

#[test]
fn drop_frame_at_30(rt: HostRuntime) {
    let rate = rate_30_drop();
    for (text, answer) in DROP_30.iter() {
        drop_label_is(&rt, rate, text, *answer);
    }
    for &(text, drop_frame) in ALIKE_30.iter() {
        reads_as(&rt, text.as_slice(), rate, drop_frame, Ok(1_800));
    }
    frame_is(&rt, b"00:01:00;02", rate, Some(1_800));
    frame_is(&rt, b"00:01:00;00", rate, None);
    numbers_at_30(&rt, rate);
}

/// Labels at 60000/1001 with drop-frame.
const DROP_60: [(&[u8; 11], Result<i64, TcFault>); 7] = [
    (b"00:00:59;59", Ok(3_599)),
    (b"00:01:00;00", Err(TcFault::Dropped)),
    (b"00:01:00;03", Err(TcFault::Dropped)),
    (b"00:01:00;04", Ok(3_600)),
    (b"00:10:00;00", Ok(35_964)),
    (b"23:59:59;59", Ok(5_178_815)),
    (b"23:60:00;00", Err(TcFault::Field)),
];

#[test]
fn drop_frame_at_60(rt: HostRuntime) {
    let rate = rate_60_drop();
    for (text, answer) in DROP_60.iter() {
        drop_label_is(&rt, rate, text, *answer);
    }
    label_is(&rt, 5_178_816, rate, true, Err(TcFault::Day));
}

// The first number of a minute, with drop-frame at 30000/1001 or twice that: 17 982 or 35 964
// numbers in ten minutes, 1 800 or 3 600 in the first.
fn first_number(tens: u32, minute: u32, twice: u32) -> u32
    requires tens { tens < 144 }
    requires minute { minute < 10 }
    requires twice { twice ≤ 2 }
{
    let before = if minute == 0 {
        0
    } else {
        1_800 + (minute - 1) * 1_798
    };
    twice * (tens * 17_982 + before)
}

// That the first label of a minute has its last digit, and reads as the number again.
fn begins_minute(rt: &impl Abort, number: i64, rate: Rate, digit: u8, left_out: u8) {
    match label(number, rate, true) {
        Ok(text) => {
            assert!(rt;
                [text[4], text[6], text[7], text[8], text[9], text[10]]
                    == [digit, b'0', b'0', b';', b'0', left_out]
            );
            reads_as(rt, text.as_slice(), rate, false, Ok(number));
        }
        Err(_) => assert!(rt; false, "no label"),
    }
}

#[test]
fn each_minute_of_a_day(rt: HostRuntime) {
    for tens in 0..144u32 {
        for minute in 0..10u32 {
            let digit = b'0' + minute as u8;
            let slow = i64::from(first_number(tens, minute, 1));
            let left_out = if minute == 0 { b'0' } else { b'2' };
            begins_minute(&rt, slow, rate_30_drop(), digit, left_out);
            let fast = i64::from(first_number(tens, minute, 2));
            let left_out = if minute == 0 { b'0' } else { b'4' };
            begins_minute(&rt, fast, rate_60_drop(), digit, left_out);
        }
    }
}

// The last label of a day and the count of the day, at a rate without drop-frame.
fn first_and_last(rt: &impl Abort, rate: Rate, last: &[u8; 11], count: i64)
    requires low { pos 1 ≤ℤ count }
    requires high { count ≤ℤ pos 10000000 }
{
    label_is(rt, 0, rate, false, Ok(*b"00:00:00:00"));
    reads_as(rt, b"00:00:00:00", rate, false, Ok(0));
    label_is(rt, count - 1, rate, false, Ok(*last));
    reads_as(rt, last.as_slice(), rate, false, Ok(count - 1));
    label_is(rt, count, rate, false, Err(TcFault::Day));
}

#[test]
#[tactic(auto, unfolding(tick_time::specs::Rates::is_rate))]
fn first_and_last_of_a_day(rt: HostRuntime) {
    first_and_last(&rt, whole_rate(24), b"23:59:59:23", 2_073_600);
    first_and_last(&rt, whole_rate(25), b"23:59:59:24", 2_160_000);
    first_and_last(&rt, whole_rate(30), b"23:59:59:29", 2_592_000);
    first_and_last(&rt, whole_rate(60), b"23:59:59:59", 5_184_000);
    first_and_last(&rt, whole_rate(15), b"23:59:59:14", 1_296_000);
    first_and_last(&rt, whole_rate(48), b"23:59:59:47", 4_147_200);
    first_and_last(&rt, rate_24_slow(), b"23:59:59:23", 2_073_600);
}

#[test]
#[tactic(auto, unfolding(tick_time::specs::Rates::is_rate))]
fn no_timecode_comes_first(rt: HostRuntime) {
    reads_as(
        &rt,
        b"nothing",
        whole_rate(120),
        false,
        Err(TcFault::NoTimecode),
    );
    reads_as(
        &rt,
        b"00:00:00;00",
        whole_rate(30),
        false,
        Err(TcFault::NoTimecode),
    );
    reads_as(
        &rt,
        b"        ;",
        rate_24_slow(),
        false,
        Err(TcFault::NoTimecode),
    );
    reads_as(
        &rt,
        b"nothing",
        whole_rate(24),
        true,
        Err(TcFault::NoTimecode),
    );
    reads_as(&rt, b"nothing", whole_rate(24), false, Err(TcFault::Form));
    label_is(&rt, -1, whole_rate(24), true, Err(TcFault::NoTimecode));
    label_is(&rt, -1, whole_rate(120), false, Err(TcFault::NoTimecode));
}
