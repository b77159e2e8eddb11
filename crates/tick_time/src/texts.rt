//! Decimals as texts.

ghost use Rattle.std.specs.Prelude.{◌≡◌, ℕ, ◌+◌, ◌<◌, ◌≤◌, ◌^◌, ◌∷◌, [], ◌++◌, length, unsigned_abs, decimal};
ghost use Rattle.arrayvec.specs.ArrayString.{array_string_len};
ghost use Rattle.tick_time.specs.Numerals.{minus};
ghost use Rattle.tick_time.specs.Texts.{IsDecimalText, decimals_of, is_minus};

use arrayvec::ArrayString;

/// The text of so many millionths: their decimal, with no final zeros and at least one digit behind
/// the point.
pub(crate) fn millionths_text(millionths: i128) -> ArrayString<32>
    requires { unsigned_abs millionths ≤ 1000000000000000000000000 }
    ensures { IsDecimalText result.bytes millionths }
{
    let size = millionths.unsigned_abs();
    let mut text = sign_text(millionths);
    push_number(&mut text, (size / 1_000_000) as u64);
    push_ascii(&mut text, b'.');
    push_decimals(&mut text, size % 1_000_000);
    text
}

/// A text of at most 32 bytes.
pub(crate) fn text_of(text: &str) -> ArrayString<32>
    requires { length text.now ≤ 32 }
    ensures { result.bytes ≡ text.now }
{
    let mut copy = ArrayString::new();
    copy.push_str(text);
    copy
}

// A minus for a number below 0, else nothing.
fn sign_text(millionths: i128) -> ArrayString<32>
    ensures bytes { result.bytes ≡ minus (is_minus millionths) }
    ensures room { length result.bytes ≤ 1 }
{
    let mut text = ArrayString::new();
    if millionths < 0 {
        push_ascii(&mut text, b'-');
    }
    text
}

// Adds the digits of a number.
fn push_number(text: &mut ArrayString<32>, number: u64)
    requires room { length text.old.bytes ≤ 1 }
    requires small { number ≤ 1000000000000000000 }
    ensures bytes { text.new.bytes ≡ text.old.bytes ++ decimal number }
    ensures room { length text.new.bytes ≤ 20 }
{
    let mut digits = itoa::Buffer::new();
    text.push_str(digits.format(number));
}

// Adds the digits of so many millionths, as far as the last that is not 0.
fn push_decimals(text: &mut ArrayString<32>, millionths: u128)
    requires room { length text.old.bytes ≤ 26 }
    requires small { millionths < 1000000 }
    ensures { text.new.bytes ≡ text.old.bytes ++ decimals_of 6 millionths }
{
    let mut rest = millionths;
    'decimals: for _ in 0..6_usize {
        push_ascii(text, b'0' + (rest / 100_000) as u8);
        rest = rest % 100_000 * 10;
        if rest == 0 {
            return;
        }
    }
}

// Adds one ASCII character.
fn push_ascii(text: &mut ArrayString<32>, byte: u8)
    requires room { length text.old.bytes < 32 }
    requires ascii { byte < 128 }
    ensures { text.new.bytes ≡ text.old.bytes ++ byte ∷ [] }
{
    text.push(char::from(byte));
}
