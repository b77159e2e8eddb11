// The blanks at the ends of a text.
ghost use Rattle.std.specs.Prelude.{◌≡◌, reverse};
ghost use Rattle.text_lines.specs.First.{begins_with_blank as begins};
ghost use Rattle.text_lines.specs.Lines.{trimmed_front, trimmed};

use crate::part::{after, before, is_blank};

/// The text without the spaces and tabs at both ends.
pub fn trim_blanks(text: &[u8]) -> &[u8]
    ensures { result.now ≡ trimmed text.now }
{
    trim_back(trim_front(text))
}

// Whether a blank stands at the front.
fn begins_with_blank(text: &[u8]) -> bool
    ensures { result ≡ begins text.now }
{
    match text {
        [first, ..] => is_blank(*first),
        [] => false,
    }
}

// Whether a blank stands at the back.
#[tactic(auto, using(crate::proofs::Trimming::last_byte, crate::proofs::Trimming::last_none))]
fn ends_with_blank(text: &[u8]) -> bool
    ensures { result ≡ begins (reverse text.now) }
{
    match text {
        [.., last] => is_blank(*last),
        [] => false,
    }
}

/// The text without the spaces and tabs at its front.
#[tactic(auto, using(crate::proofs::Trimming::front_skips, crate::proofs::Trimming::front_stays))]
pub fn trim_front(text: &[u8]) -> &[u8]
    ensures { result.now ≡ trimmed_front text.now }
{
    let mut rest = text;
    'blanks: while begins_with_blank(rest) {
        rest = after(rest, 1);
    }
    rest
}

// The text without the spaces and tabs at its back.
#[tactic(auto, using(crate::proofs::Trimming::back_skips, crate::proofs::Trimming::back_stays))]
fn trim_back(text: &[u8]) -> &[u8]
    ensures { result.now ≡ reverse (trimmed_front (reverse text.now)) }
{
    let mut rest = text;
    'blanks: while ends_with_blank(rest) {
        rest = before(rest, rest.len() - 1);
    }
    rest
}
