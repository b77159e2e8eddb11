//! The parts of a JSON number in its text.

ghost use Rattle.std.specs.Prelude.{◌≡◌, ◌≢◌, ℕ, ◌<◌, ◌++◌, List, Bool, slice_index, length};
ghost use Rattle.std.specs.Str.Parse.{AllDigits};
ghost use Rattle.tick_time.specs.Numerals.{minus, frac, IsExp, StopsDigits, Spells, IsNumeral, IsInt, Numeral};

use crate::digits::split_digits;

/// The parts of a number of RFC 8259, section 6.
#[derive(Clone, Copy)]
pub(crate) struct Parts<'a> {
    pub(crate) neg: bool,
    pub(crate) whole: &'a [u8],
    pub(crate) decimals: &'a [u8],
    pub(crate) down: bool,
    pub(crate) power: &'a [u8],
}

/// A number's parts.
pub(crate) fn split_numeral(text: &[u8]) -> Parts<'_>
    ensures neg { (number : Numeral) → Spells text.now number → result.neg ≡ number.neg }
    ensures whole { (number : Numeral) → Spells text.now number → result.whole.now ≡ number.whole }
    ensures decimals { (number : Numeral) → Spells text.now number →
        result.decimals.now ≡ number.decimals }
    ensures down { (number : Numeral) → Spells text.now number → result.down ≡ number.down }
    ensures power { (number : Numeral) → Spells text.now number → result.power.now ≡ number.power }
{
    let (neg, after_sign) = split_minus(text);
    let (whole, after_whole) = split_digits(after_sign);
    let (decimals, after_decimals) = split_decimals(after_whole);
    let (down, power) = split_mark(after_decimals);
    Parts {
        neg,
        whole,
        decimals,
        down,
        power,
    }
}

/// Whether a minus stands first, and what follows it.
pub(crate) fn split_minus(text: &[u8]) -> (bool, &[u8])
    ensures joined { text.now ≡ minus result.0 ++ result.1.now }
    ensures parts { (neg : Bool) (rest : List ℕ) → text.now ≡ minus neg ++ rest →
        slice_index rest 0 ≢ 45 →
        (result.0 ≡ neg) × (result.1.now ≡ rest) }
{
    match text {
        [b'-', rest @ ..] => (true, rest),
        _ => (false, text),
    }
}

// The digits behind a point, if one stands first, and what follows them.
fn split_decimals(text: &[u8]) -> (&[u8], &[u8])
    ensures { (digits rest : List ℕ) → text.now ≡ frac digits ++ rest → AllDigits 10 digits →
        StopsDigits rest → slice_index rest 0 ≢ 46 →
        (result.0.now ≡ digits) × (result.1.now ≡ rest) }
{
    match text {
        [b'.', rest @ ..] => split_digits(rest),
        _ => text.split_at(0),
    }
}

// Whether an exponent divides, and its digits.
fn split_mark(text: &[u8]) -> (bool, &[u8])
    ensures { (mark power : List ℕ) (down : Bool) → text.now ≡ mark ++ power →
        IsExp mark down power →
        (result.0 ≡ down) × (result.1.now ≡ power) }
{
    match text {
        [b'e' | b'E', b'-', power @ ..] => (true, power),
        [b'e' | b'E', b'+', power @ ..] => (false, power),
        [b'e' | b'E', power @ ..] => (false, power),
        _ => (false, text),
    }
}
