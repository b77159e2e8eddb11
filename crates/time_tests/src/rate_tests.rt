//! Words and the rates that they are.

use tick_time::{Rate, rate_of};

// The fraction of a rate.
fn fraction_of(rate: Rate) -> (i64, i64) {
    (rate.num, rate.den)
}

/// Words and the fractions of the rates that they are.
const RATES: [(&str, Option<(i64, i64)>); 12] = [
    ("24", Some((24, 1))),
    ("24.0", Some((24, 1))),
    ("2.5e1", Some((25, 1))),
    ("29.97", Some((30_000, 1_001))),
    ("12.5", Some((25, 2))),
    ("024", None),
    ("+24", None),
    ("24 ", None),
    ("0.5", None),
    ("-24", None),
    ("1e9999", None),
    ("", None),
];

#[test]
fn rates(rt: HostRuntime) {
    for &(word, fraction) in RATES.iter() {
        assert!(rt; rate_of(word.as_bytes()).map(fraction_of) == fraction);
    }
}
