//! Whether a text is a JSON number.

ghost use Rattle.std.specs.Prelude.{◌↔◌, IsTrue};
ghost use Rattle.std.specs.Str.Parse.{AllDigits};
ghost use Rattle.tick_time.specs.Numerals.{IsNumeral, IsInt, AreDigits, IsSigned, IsExponent, IsTail};

use crate::digits::split_digits;
use crate::numerals::split_minus;

/// Whether a text is a number of JSON (RFC 8259, section 6), so that [`crate::Decimal::read`] takes
/// it.
pub fn is_numeral(text: &[u8]) -> bool
    ensures { IsTrue result ↔ IsNumeral text.now }
{
    let (_, after_sign) = split_minus(text);
    let (whole, tail) = split_digits(after_sign);
    is_int(whole) && is_tail(tail)
}

// Whether digits are one, or several of which the first is not `0`.
fn is_int(digits: &[u8]) -> bool
    requires { AllDigits 10 digits.now }
    ensures { IsTrue result ↔ IsInt digits.now }
{
    match digits {
        [] => false,
        [b'0'] => true,
        [b'0', ..] => false,
        _ => true,
    }
}

// Whether a text is what may follow the digits before the point: a point and digits or neither,
// then an exponent or none.
fn is_tail(text: &[u8]) -> bool
    ensures { IsTrue result ↔ IsTail text.now }
{
    match text {
        [b'.', rest @ ..] => {
            let (decimals, exponent) = split_digits(rest);
            !decimals.is_empty() && is_exponent(exponent)
        }
        _ => is_exponent(text),
    }
}

// Whether a text is an exponent, or nothing.
fn is_exponent(text: &[u8]) -> bool
    ensures { IsTrue result ↔ IsExponent text.now }
{
    match text {
        [] => true,
        [b'e' | b'E', power @ ..] => is_signed(power),
        _ => false,
    }
}

// Whether a text is digits, perhaps behind a sign.
fn is_signed(text: &[u8]) -> bool
    ensures { IsTrue result ↔ IsSigned text.now }
{
    match text {
        [b'+' | b'-', digits @ ..] => are_some_digits(digits),
        _ => are_some_digits(text),
    }
}

// Whether a text is one digit or more.
fn are_some_digits(text: &[u8]) -> bool
    ensures { IsTrue result ↔ AreDigits text.now }
{
    let (digits, rest) = split_digits(text);
    !digits.is_empty() && rest.is_empty()
}
