//! The words of a line.

ghost use Rattle.std.specs.Prelude.{◌≡◌, ◌↔◌, ◌∷◌, [], ℕ, List, Some, None, false, MatchOption, length, ◌<◌};
ghost use Rattle.text_lines.specs.First.{begins_with_blank};
ghost use Rattle.edit_script.specs.Words.{words_of, scan, Quoted, Closed, begins_with_quote, with_word, is_end, AreWords};

use text_lines::{after, before, first_blank, first_byte, is_blank, trim_front};

/// The first word of a line and what follows the blank behind it; none where the line has no word,
/// or its first word is quoted and has no end that a blank or the line's end follows.
#[tactic(auto, using(crate::proofs::WordLemmas::first_words, text_lines::proofs::Trimming::front_tight))]
pub fn next_word(line: &[u8]) -> Option<(&[u8], &[u8])>
    ensures { MatchOption result
        ((word : List ℕ) (words : List (List ℕ)) → words_of line.now ≡ Some (word ∷ words) → ⊥)
        (λ split. words_of line.now ≡ with_word split.0.now (words_of split.1.now)) }
{
    let rest = trim_front(line);
    if rest.is_empty() {
        return None;
    }
    if is_quoted(rest) {
        return quoted_word(after(rest, 1));
    }
    Some(plain_word(rest))
}

// Whether a quote stands at the front.
fn is_quoted(line: &[u8]) -> bool
    ensures { result ≡ begins_with_quote line.now }
{
    match line {
        [first, ..] => *first == b'"',
        [] => false,
    }
}

/// Whether a line has no word.
#[tactic(auto, using(crate::proofs::WordLemmas::ended_front))]
pub fn has_ended(line: &[u8]) -> bool
    ensures { result ≡ is_end (words_of line.now) }
{
    trim_front(line).is_empty()
}

// The plain word that a line begins with, and what follows the blank behind it.
#[tactic(auto, using(crate::proofs::WordLemmas::plain_words))]
fn plain_word(line: &[u8]) -> (&[u8], &[u8])
    requires some { 0 < length line.now }
    requires tight { begins_with_blank line.now ≡ false }
    requires plain { begins_with_quote line.now ≡ false }
    ensures { words_of line.now ≡ with_word result.0.now (words_of result.1.now) }
{
    match first_blank(line) {
        Some(end) => (before(line, end), after(line, end + 1)),
        None => (line, after(line, line.len())),
    }
}

// The word up to the next quote, and what follows the blank behind it; none where no quote
// follows, or another byte stands behind it.
#[tactic(auto, using(crate::proofs::WordLemmas::quoted_words))]
fn quoted_word(inner: &[u8]) -> Option<(&[u8], &[u8])>
    ensures { MatchOption result
        ((word : List ℕ) (words : List (List ℕ)) → scan Quoted inner.now ≡ Some (word ∷ words) → ⊥)
        (λ split. scan Quoted inner.now ≡ with_word split.0.now (words_of split.1.now)) }
{
    match first_byte(inner, b'"') {
        Some(end) => match behind_quote(after(inner, end + 1)) {
            Some(rest) => Some((before(inner, end), rest)),
            None => None,
        },
        None => None,
    }
}

// What follows the blank behind a quote; none where another byte stands there.
fn behind_quote(rest: &[u8]) -> Option<&[u8]>
    ensures { MatchOption result (scan Closed rest.now ≡ None)
        (λ more. scan Closed rest.now ≡ words_of more.now) }
{
    match rest {
        [] => Some(rest),
        [first, more @ ..] => { if is_blank(*first) { Some(more) } else { None } }
    }
}

/// Law: the words that are found in a line byte by byte are those of which the grammar says that
/// the line is these words. It does nothing.
pub fn words_by_grammar()
    ensures { (line : List ℕ) (words : List (List ℕ)) →
        AreWords line words ↔ (words_of line ≡ Some words) }
{}
