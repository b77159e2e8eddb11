// Whole numbers among the words.
ghost use Rattle.std.specs.Prelude.{◌↔◌, ℕ, IsTrue, MatchOption};
ghost use Rattle.smpte_tc.specs.Words.{IsWholeNumber};
ghost use Rattle.smpte_tc.specs.Digits.{IsPlain, IsWhole};

use tick_time::are_digits;

/// How many digits a whole number has at most.
const MOST_DIGITS: usize = 18;

/// The whole number that a word is: decimal digits without a sign or a leading zero, at most 18 of
/// them. `0` itself is one. None for every other word.
pub fn whole_number(word: &str) -> Option<u64>
    ensures { MatchOption result ((n : ℕ) → IsWholeNumber word.now n → ⊥) (IsWholeNumber word.now) }
{
    if !is_whole(word.as_bytes()) {
        return None;
    }
    match word.parse() {
        Ok(number) => Some(number),
        Err(_) => None,
    }
}

// Whether bytes are decimal digits without a leading zero, at least one and at most 18.
fn is_whole(bytes: &[u8]) -> bool
    ensures { IsTrue result ↔ IsWhole bytes.now }
{
    bytes.len() <= MOST_DIGITS && is_plain(bytes) && are_digits(bytes)
}

// Whether there is a byte, and a `0` at the front stands alone.
fn is_plain(bytes: &[u8]) -> bool
    ensures { IsTrue result ↔ IsPlain bytes.now }
{
    match bytes {
        [] => false,
        [b'0', _, ..] => false,
        _ => true,
    }
}
