//! Characters of a string that are gathered before they are put after a text: a call for each of
//! them would cost more than the characters.

ghost use Rattle.std.specs.Prelude.{◌≡◌, ◌≤◌, ◌++◌, ◌+◌, length, take, get_or, IfSome};
ghost use Rattle.std.specs.Char as chars;
ghost use Rattle.std.specs.Char.{IsScalar};
ghost use Rattle.arrayvec.specs.ArrayVec.{array_vec_len};
ghost use Rattle.json_text.specs.Grammar as grammar;
ghost use Rattle.json_text.specs.State.Runs.{StandsFor, IsEscape, IsCode, IsFirstHalf, IsNumber, IsSecondHalf};

use crate::bytes::{after, digit_value, escaped, is_open, of_digits16};
use crate::strings::joined;
use arrayvec::ArrayVec;

/// How many bytes are gathered at most.
const ROOM: usize = 64;

/// So many bytes leave room for one more character.
const MOST: usize = 60;

/// What the first bytes of a string stand for, and how many they are: characters of ASCII, and
/// whole escapes of one character.
pub(crate) fn gathered(bytes: &[u8]) -> (usize, ArrayVec<u8, ROOM>)
    ensures within { result.0 ≤ length bytes.now }
    ensures meant { StandsFor (take result.0 bytes.now) result.1.items }
{
    let mut made = ArrayVec::new();
    let mut at = 0;
    'bytes: while at < bytes.len() && made.len() < MOST {
        let byte = bytes[at];
        if is_open(byte) && byte < 128 {
            made.push(byte);
            at += 1;
        } else {
            match escape(after(bytes, at)) {
                Some((count, character)) => {
                    put_char(&mut made, character);
                    at += count;
                }
                None => return (at, made),
            }
        }
    }
    (at, made)
}

// The character of an escape that the bytes begin with, and how many bytes it has.
fn escape(bytes: &[u8]) -> Option<(usize, char)>
    ensures { IfSome result (λ found. IsEscape found.0 found.1 bytes.now) }
{
    if bytes.len() < 2 {
        return None;
    }
    if bytes[0] != b'\\' {
        return None;
    }
    match escaped(bytes[1]) {
        Some(byte) => Some((2, char::from(byte))),
        None => coded(bytes),
    }
}

// The character of an escape of four digits that the bytes begin with, after its backslash.
fn coded(bytes: &[u8]) -> Option<(usize, char)>
    requires { get_or bytes.now 0 0 ≡ 92 }
    ensures { IfSome result (λ found. IsEscape found.0 found.1 bytes.now) }
{
    if bytes.len() < 6 {
        return None;
    }
    if bytes[1] != b'u' {
        return None;
    }
    match code(bytes[2], bytes[3], bytes[4], bytes[5]) {
        Some(character) => Some((6, character)),
        None => pair(bytes),
    }
}

// The character of two escapes of four digits that the bytes begin with, each for a half of it,
// after the first two bytes.
fn pair(bytes: &[u8]) -> Option<(usize, char)>
    requires slash { get_or bytes.now 0 0 ≡ 92 }
    requires letter { get_or bytes.now 1 0 ≡ 117 }
    ensures { IfSome result (λ found. IsEscape found.0 found.1 bytes.now) }
{
    if bytes.len() < 12 {
        return None;
    }
    if bytes[6] != b'\\' {
        return None;
    }
    if bytes[7] != b'u' {
        return None;
    }
    match first_half(bytes[2], bytes[3], bytes[4], bytes[5]) {
        Some(high) => match second_half(bytes[8], bytes[9], bytes[10], bytes[11]) {
            Some(low) => whole(high, low),
            None => None,
        },
        None => None,
    }
}

// The character of two halves, with the bytes of their escapes.
fn whole(high: u16, low: u32) -> Option<(usize, char)>
    requires { low ≤ 160000 }
    ensures count { IfSome result (λ found. found.0 ≡ 12) }
    ensures character { IfSome result (λ found. found.1 ≡ grammar.joined high low) }
    ensures scalar { IfSome result (λ found. IsScalar found.1) }
{
    match char::from_u32(joined(high, low)) {
        Some(character) => Some((12, character)),
        None => None,
    }
}

// The first half of a character, of that code.
fn first_half(a: u8, b: u8, c: u8, d: u8) -> Option<u16>
    ensures { IfSome result (IsFirstHalf a b c d) }
{
    if digit_value(a) != 13 {
        return None;
    }
    if digit_value(b) < 8 {
        return None;
    }
    if digit_value(b) >= 12 {
        return None;
    }
    match number(a, b, c, d) {
        Some(half) => Some(half as u16),
        None => None,
    }
}

// The second half of a character, of that code.
fn second_half(a: u8, b: u8, c: u8, d: u8) -> Option<u32>
    ensures { IfSome result (IsSecondHalf a b c d) }
{
    if digit_value(a) != 13 {
        return None;
    }
    if digit_value(b) < 12 {
        return None;
    }
    number(a, b, c, d)
}

// The character of that code.
fn code(a: u8, b: u8, c: u8, d: u8) -> Option<char>
    ensures { IfSome result (IsCode a b c d) }
{
    match number(a, b, c, d) {
        Some(code) => char::from_u32(code),
        None => None,
    }
}

// The number of four digits of base 16.
fn number(a: u8, b: u8, c: u8, d: u8) -> Option<u32>
    ensures { IfSome result (IsNumber a b c d) }
{
    if digit_value(a) >= 16 {
        return None;
    }
    if digit_value(b) >= 16 {
        return None;
    }
    if digit_value(c) >= 16 {
        return None;
    }
    if digit_value(d) >= 16 {
        return None;
    }
    Some(of_digits16(a, b, c, d))
}

// Adds the character in UTF-8.
fn put_char(made: &mut ArrayVec<u8, ROOM>, character: char)
    requires { array_vec_len made.old ≤ 60 }
    ensures { made.new.items ≡ made.old.items ++ chars.encode_utf8 character }
{
    let number = character as u32;
    if number < 128 {
        made.push(number as u8);
        return;
    }
    let mut buffer = [0; 4];
    made.try_extend_from_slice(character.encode_utf8(&mut buffer).as_bytes())
        .unwrap();
}
