//! Single bytes of JSON text, and what they stand for.

ghost use Rattle.std.specs.Prelude.{◌≡◌, ◌≤◌, ◌<◌, ◌++◌, ◌∷◌, [], List, Ok, true, false, OnOk, IfOk, IfSome, MatchOption, IsTrue, length, take, drop, replicate};
ghost use Rattle.std.specs.Char as chars;
ghost use Rattle.std.specs.Str.{is_utf8, IsAscii};
ghost use Rattle.json_text.specs.Grammar as grammar;
ghost use Rattle.json_text.specs.State.Machine as spec;
ghost use Rattle.json_text.specs.State.Runs.{is_open, AreOpen};
ghost use Rattle.json_text.specs.State.Opened.{Unclosed};
ghost use Rattle.json_text.specs.State.Stands.{ranges_of, ranges_after};

use crate::state::{Place, Tail};
use sequences::Text;
use std::alloc::{AllocError, Global};

/// Whether the byte is white space.
pub(crate) fn is_whitespace(byte: u8) -> bool
    ensures { result ≡ grammar.is_whitespace byte }
{
    byte == b' ' || byte == b'\n' || byte == b'\r' || byte == b'\t'
}

/// Whether the byte stands for itself in a string, alone or in a character of several bytes.
pub(crate) fn is_open(byte: u8) -> bool
    ensures { result ≡ is_open byte }
{
    32 <= byte && byte != b'"' && byte != b'\\'
}

/// Whether the byte is a character of ASCII that stands for itself in a string.
pub(crate) fn is_plain(byte: u8) -> bool
    ensures opens { IsTrue result → is_open byte ≡ true }
    ensures ascii { IsTrue result → byte < 128 }
{
    32 <= byte && byte < 128 && byte != b'"' && byte != b'\\'
}

/// Whether all bytes stand for themselves in a string. Each is looked at, which is quick.
pub(crate) fn are_open(bytes: &[u8]) -> bool
    ensures { IsTrue result → AreOpen bytes.now }
{
    let mut closing = 0;
    for byte in bytes {
        closing = larger(closing, closes(*byte));
    }
    closing == 0
}

// 0 where the byte stands for itself in a string, and 1 where it doesn't.
fn closes(byte: u8) -> u8
    ensures { result ≡ 0 → is_open byte ≡ true }
{
    if is_open(byte) { 0 } else { 1 }
}

/// The first bytes, up to so many.
pub(crate) fn before(bytes: &[u8], count: usize) -> &[u8]
    ensures { result.now ≡ take count bytes.now }
{
    if count < bytes.len() {
        &bytes[..count]
    } else {
        bytes
    }
}

/// The bytes after so many.
pub(crate) fn after(bytes: &[u8], count: usize) -> &[u8]
    requires { count ≤ length bytes.now }
    ensures { result.now ≡ drop count bytes.now }
{
    &bytes[count..]
}

/// The character that a backslash and this byte stand for.
pub(crate) fn escaped(byte: u8) -> Option<u8>
    ensures value { result ≡ grammar.escaped byte }
    ensures ascii { IfSome result (λ character. character < 128) }
{
    match byte {
        b'"' | b'\\' | b'/' => Some(byte),
        b'b' => Some(8),
        b'f' => Some(12),
        b'n' => Some(10),
        b'r' => Some(13),
        b't' => Some(9),
        _ => None,
    }
}

/// The value of a digit or a letter as a digit, from 10 for `a` and `A`; 36 for any other byte.
pub(crate) fn digit_value(byte: u8) -> u8
    ensures value { result ≡ chars.digit_value byte }
    ensures small { result ≤ 36 }
{
    match byte {
        b'0'..=b'9' => byte - b'0',
        b'A'..=b'Z' => byte - b'A' + 10,
        b'a'..=b'z' => byte - b'a' + 10,
        _ => 36,
    }
}

/// What four digits of base 16 stand for.
pub(crate) fn of_digits16(a: u8, b: u8, c: u8, d: u8) -> u32
    ensures value { result ≡ grammar.of_digits16 a b c d }
    ensures small { result ≤ 160000 }
{
    let high = u32::from(digit_value(a)) * 16 + u32::from(digit_value(b));
    (high * 16 + u32::from(digit_value(c))) * 16 + u32::from(digit_value(d))
}

/// What follows the first byte of a character; `None` where no character of several bytes begins
/// so.
pub(crate) fn tails(byte: u8) -> Option<Tail>
    ensures { ranges_after result ≡ spec.tails byte }
{
    match byte {
        0xC2..=0xDF => Some(tail(0x80, 0xBF, 0)),
        0xE0 => Some(tail(0xA0, 0xBF, 1)),
        0xED => Some(tail(0x80, 0x9F, 1)),
        0xE1..=0xEF => Some(tail(0x80, 0xBF, 1)),
        0xF0 => Some(tail(0x90, 0xBF, 2)),
        0xF1..=0xF3 => Some(tail(0x80, 0xBF, 2)),
        0xF4 => Some(tail(0x80, 0x8F, 2)),
        _ => None,
    }
}

// A byte within these bounds, and so many further ones after it.
fn tail(least: u8, most: u8, further: u8) -> Tail
    ensures { ranges_of result ≡ (least, most) ∷ replicate further (128, 191) }
{
    Tail {
        least,
        most,
        further,
    }
}

impl Tail {
    /// What follows the byte that was taken; `None` where the character is whole.
    pub(crate) fn next(self) -> Option<Tail>
        ensures { ranges_after result ≡ replicate self.further (128, 191) }
    {
        if self.further == 0 {
            None
        } else {
            Some(tail(0x80, 0xBF, self.further - 1))
        }
    }
}

/// The place after a further byte of a numeral; `None` where the numeral doesn't go on so.
pub(crate) fn next_place(place: Place, byte: u8) -> Option<Place>
    ensures { result ≡ spec.next_place place byte }
{
    let is_digit = byte.is_ascii_digit();
    match place {
        Place::Minus if byte == b'0' => Some(Place::Nought),
        Place::Minus | Place::Whole if is_digit => Some(Place::Whole),
        Place::Point | Place::Fraction if is_digit => Some(Place::Fraction),
        Place::Exponent | Place::Sign | Place::Power if is_digit => Some(Place::Power),
        Place::Nought | Place::Whole if byte == b'.' => Some(Place::Point),
        Place::Nought | Place::Whole | Place::Fraction if byte == b'e' || byte == b'E' => Some(
            Place::Exponent,
        ),
        Place::Exponent if byte == b'+' || byte == b'-' => Some(Place::Sign),
        _ => None,
    }
}

/// Whether a numeral may end there.
pub(crate) fn ends(place: Place) -> bool
    ensures { result ≡ spec.ends place }
{
    match place {
        Place::Nought | Place::Whole | Place::Fraction | Place::Power => true,
        Place::Minus | Place::Point | Place::Exponent | Place::Sign => false,
    }
}

/// Whether the bytes are ASCII characters, by the largest of them.
pub(crate) fn is_ascii(bytes: &[u8]) -> bool
    ensures { IsTrue result → IsAscii bytes.now }
{
    let mut largest = 0;
    for byte in bytes {
        largest = larger(largest, *byte);
    }
    largest < 128
}

/// The larger of two bytes.
pub(crate) fn larger(one: u8, other: u8) -> u8
    ensures one { one ≤ result }
    ensures other { other ≤ result }
{
    if one < other { other } else { one }
}

/// The bytes as a text, where they are UTF-8. An error comes where memory runs out.
pub(crate) fn text_from(alloc: Global, bytes: &[u8]) -> Result<Option<Text>, AllocError>
    ensures { IfOk result (λ made. MatchOption made (is_utf8 bytes.now ≡ false)
        (λ text. (text ≡ bytes.now) × (is_utf8 bytes.now ≡ true))) }
{
    if is_ascii(bytes) {
        let text = unsafe { std::str::from_utf8_unchecked(bytes) };
        return Ok(Some(Text::of(alloc, text)?));
    }
    match std::str::from_utf8(bytes) {
        Ok(text) => Ok(Some(Text::of(alloc, text)?)),
        Err(_) => Ok(None),
    }
}

/// The place after the first byte of a numeral; `None` where none begins so.
pub(crate) fn first_place(byte: u8) -> Option<Place>
    ensures ascii { IfSome result (λ place. byte < 128) }
    ensures begins { IfSome result (λ place. (levels : List Unclosed) →
        spec.begin 127 levels spec.value byte
        ≡ Ok (spec.state levels (spec.number (byte ∷ []) place))) }
{
    match byte {
        b'-' => Some(Place::Minus),
        b'0' => Some(Place::Nought),
        b'1'..=b'9' => Some(Place::Whole),
        _ => None,
    }
}

/// Adds the character in UTF-8. An error comes where memory runs out.
pub(crate) fn push_char(text: &mut Vec<u8>, character: char) -> Result<(), AllocError>
    ensures { OnOk result (text.new.items ≡ text.old.items ++ chars.encode_utf8 character) }
{
    let mut buffer = [0; 4];
    text.extend_from_slice(character.encode_utf8(&mut buffer).as_bytes())
}
