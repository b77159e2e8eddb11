//! Spaces at the ends of a text, and lines that are a word.

ghost use Rattle.std.specs.Prelude.{◌≡◌, ◌↔◌, IsTrue, reverse};
ghost use Rattle.text_lines.specs.Lines.{trimmed};
ghost use Rattle.ale_text.specs.Words.{IsSection, IsBlankLine, begins_with_space as begins, spaceless, spaceless_front};

use text_lines::{after, before, is_text, trim_blanks};

/// The text without the spaces at both ends. Tabs stay.
pub(crate) fn trim_spaces(text: &[u8]) -> &[u8]
    ensures { result.now ≡ spaceless text.now }
{
    trim_back(trim_front(text))
}

/// Whether a line is the line of a section: this word, but for spaces and tabs at both ends.
pub(crate) fn is_section(line: &[u8], word: &[u8]) -> bool
    ensures { IsTrue result ↔ IsSection word.now line.now }
{
    is_text(trim_blanks(line), word)
}

/// Whether nothing stands on a line but spaces and tabs.
pub(crate) fn is_blank_line(line: &[u8]) -> bool
    ensures { IsTrue result ↔ IsBlankLine line.now }
{
    is_text(trim_blanks(line), b"")
}

// Whether a space stands at the front.
fn begins_with_space(text: &[u8]) -> bool
    ensures { result ≡ begins text.now }
{
    match text {
        [first, ..] => *first == b' ',
        [] => false,
    }
}

// Whether a space stands at the back.
#[tactic(auto, using(crate::proofs::SpaceLemmas::last_byte, crate::proofs::SpaceLemmas::last_none))]
fn ends_with_space(text: &[u8]) -> bool
    ensures { result ≡ begins (reverse text.now) }
{
    match text {
        [.., last] => *last == b' ',
        [] => false,
    }
}

// The text without the spaces at its front.
#[tactic(auto, using(crate::proofs::SpaceLemmas::front_skips, crate::proofs::SpaceLemmas::front_stays))]
fn trim_front(text: &[u8]) -> &[u8]
    ensures { result.now ≡ spaceless_front text.now }
{
    let mut rest = text;
    'spaces: while begins_with_space(rest) {
        rest = after(rest, 1);
    }
    rest
}

// The text without the spaces at its back.
#[tactic(auto, using(crate::proofs::SpaceLemmas::back_skips, crate::proofs::SpaceLemmas::back_stays))]
fn trim_back(text: &[u8]) -> &[u8]
    ensures { result.now ≡ reverse (spaceless_front (reverse text.now)) }
{
    let mut rest = text;
    'spaces: while ends_with_space(rest) {
        rest = before(rest, rest.len() - 1);
    }
    rest
}
