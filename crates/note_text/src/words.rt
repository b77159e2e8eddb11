//! The words of a note.
ghost use Rattle.std.specs.Prelude.{◌≡◌, ◌↔◌, List, ℕ, IsTrue, IsUtf8, MatchOption};
ghost use Rattle.tick_time.specs.Numerals.{IsNumeral};
ghost use Rattle.note_text.specs.Forms.{IsAfter, IsColor, IsFirstWord};

use text_lines::{after, are_within, before, first_blank, strip_front, trim_front};
use tick_time::is_numeral;

/// How many letters a color has at most.
const MOST_LETTERS: usize = 7;

/// What stands after a word at the front and any blanks that follow it; none without the word.
#[tactic(auto, using(crate::proofs::WordLemmas::after_is, crate::proofs::WordLemmas::after_not))]
pub(crate) fn behind<'a>(line: &'a [u8], word: &[u8]) -> Option<&'a [u8]>
    ensures { MatchOption result
        ((rest : List ℕ) → IsAfter word.now line.now rest → ⊥)
        (λ rest. IsAfter word.now line.now rest.now) }
{
    Some(trim_front(strip_front(line, word)?))
}

/// The first word of a line that begins with no blank, and what stands after the blanks that follow
/// it.
#[tactic(auto, using(crate::proofs::WordLemmas::first_word))]
pub(crate) fn split_word(line: &[u8]) -> (&[u8], &[u8])
    ensures { IsFirstWord line.now result.0.now result.1.now }
{
    match first_blank(line) {
        Some(end) => (before(line, end), trim_front(after(line, end + 1))),
        None => (line, after(line, line.len())),
    }
}

/// Whether a word is a color: one to seven letters from A to Z.
pub fn is_color(word: &[u8]) -> bool
    ensures { IsTrue result ↔ IsColor word.now }
{
    !word.is_empty() && word.len() <= MOST_LETTERS && are_within(word, b'A', b'Z')
}

/// The word as a color; none where it is none.
#[tactic(auto, using(crate::proofs::WordLemmas::color_is_text))]
pub(crate) fn color_of(word: &[u8]) -> Option<&str>
    ensures { MatchOption result (IsColor word.now → ⊥)
        (λ color. IsColor word.now × (color.now ≡ word.now)) }
{
    if !is_color(word) {
        return None;
    }
    match std::str::from_utf8(word) {
        Ok(color) => Some(color),
        Err(_) => None,
    }
}

/// The word as a numeral of JSON; none where it is none.
#[tactic(auto, using(crate::proofs::WordLemmas::numeral_is_text))]
pub(crate) fn numeral_of(word: &[u8]) -> Option<&str>
    ensures { MatchOption result (IsNumeral word.now → ⊥)
        (λ numeral. IsNumeral word.now × (numeral.now ≡ word.now)) }
{
    if !is_numeral(word) {
        return None;
    }
    match std::str::from_utf8(word) {
        Ok(numeral) => Some(numeral),
        Err(_) => None,
    }
}

/// The bytes as a text; none where they aren't UTF-8.
pub(crate) fn text_of(bytes: &[u8]) -> Option<&str>
    ensures { MatchOption result (IsUtf8 bytes.now → ⊥)
        (λ text. IsUtf8 text.now × (text.now ≡ bytes.now)) }
{
    match std::str::from_utf8(bytes) {
        Ok(text) => Some(text),
        Err(_) => None,
    }
}
