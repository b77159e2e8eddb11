//! To which events the notes of a list belong, in pieces of several sizes.
use crate::note_tests::{Wanted, has_notes, numerals};
use crate::reader_tests::rate_of;
use tick_time::rate_24;

#[test]
fn notes_of_one_cut(rt: HostRuntime) {
    let text = "TITLE: x
* LOC: 00:00:10:00 RED before all events
001 T1 V C 01:00:00:00 01:00:02:00 00:00:10:00 00:00:12:00
* LOC: 00:00:09:23 RED before it
* ASC_SOP: (1 1 1)(0 0 0)(1 1 1)
* LOC: 00:00:10:00 RED first
* a remark
* FROM CLIP NAME: LOC
* ASC_SOP (2 2 2)(0 0 0)(1 1 1)
* ASC_SAT: 0.5
* LOC: 00:00:11:23 BLUE last
* LOC: 00:00:12:00 RED after it
* ASC_SAT 1e0";
    let one = numerals("1", "1", "1");
    let two = numerals("2", "2", "2");
    let none = numerals("0", "0", "0");
    let wanted = [
        (0, Wanted::Sop(one, none, one)),
        (0, Wanted::Loc(240, "RED", "first")),
        (0, Wanted::Sop(two, none, one)),
        (0, Wanted::Sat("0.5")),
        (0, Wanted::Loc(287, "BLUE", "last")),
        (0, Wanted::Sat("1e0")),
    ];
    has_notes(&rt, rt.alloc(), rate_24(), text.as_bytes(), &wanted);
}

#[test]
fn notes_of_several_channels(rt: HostRuntime) {
    let text = "1 T1 AA/V C 00:00:00:00 00:00:01:00 00:00:01:00 00:00:02:00
* LOC: 00:00:01:12 RED all
2 T1 B C 00:00:00:00 00:00:01:00 00:00:00:00 00:00:01:00
* ASC_SAT: 1
";
    let wanted = [
        (2, Wanted::Loc(36, "RED", "all")),
        (3, Wanted::Loc(36, "RED", "all")),
        (4, Wanted::Loc(36, "RED", "all")),
        (0, Wanted::Sat("1")),
        (1, Wanted::Sat("1")),
    ];
    has_notes(&rt, rt.alloc(), rate_24(), text.as_bytes(), &wanted);
}

#[test]
fn notes_of_pairs_and_black(rt: HostRuntime) {
    let text = "1 A1 V C 00:00:01:00 00:00:02:00 00:00:00:00 00:00:01:00
2 A1 V C 00:00:02:00 00:00:03:00 00:00:01:00 00:00:02:00
* ASC_SAT: 1
* LOC: 00:00:02:00 RED of the cut alone
2 A2 V D 012 00:00:05:00 00:00:06:00 00:00:02:00 00:00:03:00
* LOC: 00:00:02:00 RED of the pair
3 A2 V C 00:00:06:00 00:00:06:00 00:00:03:00 00:00:03:00
* ASC_SAT: 3
3 BL V D 012 00:00:00:00 00:00:00:12 00:00:03:00 00:00:03:12
* ASC_SAT: 4
* LOC: 00:00:03:00 RED black
";
    let wanted = [
        (1, Wanted::Sat("1")),
        (2, Wanted::Loc(48, "RED", "of the pair")),
    ];
    has_notes(&rt, rt.alloc(), rate_24(), text.as_bytes(), &wanted);
}

#[test]
fn notes_of_sped_events(rt: HostRuntime) {
    let text = "1 A1 V C 00:00:01:00 00:00:01:00 00:00:00:00 00:00:01:00
M2 A1 000.0 00:00:01:00
* LOC: 00:00:00:23 RED still
* LOC: 00:00:01:00 RED after it
2 A1 V C 00:00:01:00 00:00:01:00 01:00:00:00 09:00:00:00
M2 A1 999.9 00:00:01:00
* LOC: 07:40:02:09 RED within a million seconds
* LOC: 07:40:02:10 RED past them
* LOC: 08:59:59:23 RED past them
";
    let wanted = [
        (0, Wanted::Loc(23, "RED", "still")),
        (1, Wanted::Loc(662_457, "RED", "within a million seconds")),
    ];
    has_notes(&rt, rt.alloc(), rate_24(), text.as_bytes(), &wanted);
}

#[test]
fn labels_in_the_mode_in_force(rt: HostRuntime) {
    let rate = rate_of(&rt, "29.97");
    let text = "1 T1 V C 00:00:00:00 00:00:02:00 00:00:59:00 00:01:01:00
* LOC: 00:01:00:00 RED plain
* LOC: 00:01:00;02 RED drop-frame by its mark
FCM: DROP FRAME
* LOC: 00:01:00:00 RED no label
* LOC: 00:01:00:02 RED drop-frame
FCM: NON-DROP FRAME
* LOC: 00:01:00:02 RED plain
";
    let wanted = [
        (0, Wanted::Loc(1_800, "RED", "plain")),
        (0, Wanted::Loc(1_800, "RED", "drop-frame by its mark")),
        (0, Wanted::Loc(1_800, "RED", "drop-frame")),
        (0, Wanted::Loc(1_802, "RED", "plain")),
    ];
    has_notes(&rt, rt.alloc(), rate, text.as_bytes(), &wanted);
}

#[test]
fn no_events(rt: HostRuntime) {
    let text = b"* ASC_SAT: 1\n* LOC: 00:00:00:00 RED x";
    has_notes(&rt, rt.alloc(), rate_24(), text, &[]);
    has_notes(&rt, rt.alloc(), rate_24(), b"", &[]);
    let rate = rate_of(&rt, "100");
    has_notes(&rt, rt.alloc(), rate, text, &[]);
}
