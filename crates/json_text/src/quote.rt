// JSON strings as they are written.
ghost use Rattle.std.specs.Prelude.{◌≡◌, ◌<◌, ◌≤◌, ◌+◌, ◌∷◌, ◌++◌, [], false, true, IsTrue, MatchOption, Some, drop, length, position, take};
ghost use Rattle.arrayvec.specs.ArrayVec.{array_vec_len};
ghost use Rattle.std.specs.Char.{digit_char};
ghost use Rattle.dev_io.specs.Buffer.{HandsOver};
ghost use Rattle.json_text.specs.StringTexts.{IsPlain, code_escape, escape, escaped, quoted, needs_escape};

use crate::bytes::larger;
use arrayvec::ArrayVec;
use dev_io::{Out, OutBuffer};

// The bytes of a block, which are looked at together.
const BLOCK: usize = 64;

// How many bytes are gathered at most.
const ROOM: usize = 64;

// So many bytes leave room for one more escape.
const MOST: usize = 58;

// As many bytes between two escapes are too many to be gathered with them.
const NEAR: usize = 8;

/// Hands these bytes over as a JSON string (RFC 8259, section 7): between `"`, with `"` and `\`
/// after a `\`, the control characters below U+0020 as `\b`, `\f`, `\n`, `\r`, `\t` or `\u00xx`,
/// and every other byte as it stands.
pub fn put_string<W: Out>(buffer: &mut OutBuffer, out: &mut W, bytes: &[u8])
    ensures { HandsOver W.known W.faults out.old out.new buffer.old buffer.new (quoted bytes.now) }
{
    put_quoted(buffer, out, bytes, b"\"");
}

/// Hands these bytes over as the name of a member: as a JSON string, with a colon and a space
/// after it.
pub fn put_name<W: Out>(buffer: &mut OutBuffer, out: &mut W, bytes: &[u8])
    ensures { HandsOver W.known W.faults out.old out.new buffer.old buffer.new
        (quoted bytes.now ++ 58 ∷ 32 ∷ []) }
{
    put_quoted(buffer, out, bytes, b"\": ");
}

// Hands over a quote, what stands for these bytes in a JSON string, and what ends it.
#[inline(always)]
fn put_quoted<W: Out>(buffer: &mut OutBuffer, out: &mut W, bytes: &[u8], end: &[u8])
    ensures { HandsOver W.known W.faults out.old out.new buffer.old buffer.new
        (34 ∷ (escaped bytes.now ++ end.now)) }
{
    match first_escaped(bytes) {
        None => buffer.put_between(out, b"\"", bytes, end),
        Some(index) => put_from(buffer, out, bytes, index, end),
    }
}

// The same for bytes of which this is the first that needs an escape.
#[inline(never)]
fn put_from<W: Out>(buffer: &mut OutBuffer, out: &mut W, bytes: &[u8], index: usize, end: &[u8])
    requires { Some index ≡ position needs_escape bytes.now }
    ensures { HandsOver W.known W.faults out.old out.new buffer.old buffer.new
        (34 ∷ (escaped bytes.now ++ end.now)) }
{
    let (plain, behind) = bytes.split_at(index);
    buffer.put(out, b"\"");
    buffer.put(out, plain);
    put_escaped(buffer, out, behind);
    buffer.put(out, end);
}

/// Hands these bytes over as they stand between the quotes of a JSON string (RFC 8259, section 7),
/// so that a string can be put together from parts. Bytes that need no escape go in one slice.
pub fn put_escaped<W: Out>(buffer: &mut OutBuffer, out: &mut W, bytes: &[u8])
    ensures { HandsOver W.known W.faults out.old out.new buffer.old buffer.new (escaped bytes.now) }
{
    let mut rest = bytes;
    'runs: while let Some(index) = first_escaped(rest) {
        let (plain, behind) = rest.split_at(index);
        buffer.put(out, plain);
        let (count, made) = gathered(behind);
        buffer.put(out, made.as_slice());
        rest = behind.split_at(count).1;
    }
    buffer.put(out, rest);
}

// The index of the first byte that needs an escape.
fn first_escaped(bytes: &[u8]) -> Option<usize>
    ensures { result ≡ position needs_escape bytes.now }
{
    let plain = plain_count(bytes);
    match escaped_in(bytes.split_at(plain).1) {
        Some(index) => Some(plain + index),
        None => None,
    }
}

// How many of the first bytes need no escape, by whole blocks of them.
fn plain_count(bytes: &[u8]) -> usize
    ensures within { result ≤ length bytes.now }
    ensures plain { IsPlain result bytes.now }
{
    let mut at = 0;
    'pieces: while bytes.len() - at >= BLOCK && are_plain(block_at(bytes, at)) {
        at += BLOCK;
    }
    at
}

// A block of the bytes.
fn block_at(bytes: &[u8], at: usize) -> &[u8]
    requires { at + 64 ≤ length bytes.now }
    ensures { result.now ≡ take 64 (drop at bytes.now) }
{
    bytes.split_at(at).1.split_at(BLOCK).0
}

// Whether no byte needs an escape. Each is looked at, which is quick.
fn are_plain(bytes: &[u8]) -> bool
    ensures { IsTrue result → IsPlain (length bytes.now) bytes.now }
{
    let mut needing = 0;
    for byte in bytes {
        needing = larger(needing, needs(*byte));
    }
    needing == 0
}

// 1 where the byte needs an escape, and 0 where it doesn't.
fn needs(byte: u8) -> u8
    ensures { result ≡ 0 → needs_escape byte ≡ false }
{
    if is_escaped(byte) { 1 } else { 0 }
}

// Whether the byte needs an escape.
fn is_escaped(byte: u8) -> bool
    ensures { result ≡ needs_escape byte }
{
    byte < b' ' || byte == b'"' || byte == b'\\'
}

// The index of the first byte that needs an escape, looked for one by one.
fn escaped_in(bytes: &[u8]) -> Option<usize>
    ensures { result ≡ position needs_escape bytes.now }
{
    bytes
        .iter()
        .position(|byte| *byte < b' ' || *byte == b'"' || *byte == b'\\')
}

// What stands for the first bytes in a JSON string, and how many they are: escapes that stand close
// to one another, and what is between them.
fn gathered(bytes: &[u8]) -> (usize, ArrayVec<u8, ROOM>)
    requires { 0 < length bytes.now }
    ensures some { 0 < result.0 }
    ensures within { result.0 ≤ length bytes.now }
    ensures made { result.1.items ≡ escaped (take result.0 bytes.now) }
{
    let mut made = ArrayVec::new();
    add_escape(&mut made, bytes[0]);
    let mut at = 1;
    let mut plain: usize = 0;
    'bytes: while at < bytes.len() && made.len() < MOST && plain < NEAR {
        add_escape(&mut made, bytes[at]);
        plain = if is_escaped(bytes[at]) { 0 } else { plain + 1 };
        at += 1;
    }
    (at, made)
}

// Adds what stands for this byte in a JSON string.
fn add_escape(made: &mut ArrayVec<u8, ROOM>, byte: u8)
    requires { array_vec_len made.old < 58 }
    ensures { made.new.items ≡ made.old.items ++ escape byte }
{
    if !is_escaped(byte) {
        made.push(byte);
        return;
    }
    match letter(byte) {
        Some(letter) => made.try_extend_from_slice(&[b'\\', letter]).unwrap(),
        None => add_code(made, byte),
    }
}

// What stands after the backslash of a byte's escape of two characters, if it has one.
fn letter(byte: u8) -> Option<u8>
    requires { needs_escape byte ≡ true }
    ensures { MatchOption result (escape byte ≡ code_escape byte)
        (λ letter. escape byte ≡ 92 ∷ letter ∷ []) }
{
    match byte {
        0x08 => Some(b'b'),
        b'\t' => Some(b't'),
        b'\n' => Some(b'n'),
        0x0c => Some(b'f'),
        b'\r' => Some(b'r'),
        0..=31 => None,
        _ => Some(byte),
    }
}

// Adds the escape of a byte by its code.
fn add_code(made: &mut ArrayVec<u8, ROOM>, byte: u8)
    requires { array_vec_len made.old < 58 }
    ensures { made.new.items ≡ made.old.items ++ code_escape byte }
{
    made.try_extend_from_slice(&[
        b'\\',
        b'u',
        b'0',
        b'0',
        hex_digit(byte / 16),
        hex_digit(byte % 16),
    ])
    .unwrap();
}

// The lower case hexadecimal digit of a number below 16.
fn hex_digit(number: u8) -> u8
    requires { number < 16 }
    ensures { result ≡ digit_char number }
{
    if number < 10 {
        b'0' + number
    } else {
        b'a' + (number - 10)
    }
}
