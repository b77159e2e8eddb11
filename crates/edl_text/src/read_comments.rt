// The notes that name clips.
ghost use Rattle.std.specs.Prelude.{◌≡◌, ℕ, List, MatchOption, IsUtf8};
ghost use Rattle.text_lines.specs.Lines.{trimmed};
ghost use Rattle.edl_text.specs.Notes.{IsBehind, IsNote};

use text_lines::{strip_front, trim_blanks, trim_front};

/// The text of a note for this side, `FROM` or `TO`.
pub(crate) fn note_of<'a>(line: &'a [u8], side: &[u8]) -> Option<&'a [u8]>
    ensures { MatchOption result
        ((text : List ℕ) → IsNote side.now line.now text → ⊥)
        (λ text. IsNote side.now line.now text.now) }
{
    let rest = behind_word(line, b"*")?;
    let rest = behind_word(rest, side)?;
    let rest = behind_word(rest, b"CLIP")?;
    strip_front(rest, b"NAME:")
}

// What stands behind a word at the front and the blanks behind it.
#[tactic(auto, using(crate::proofs::NoteTexts::behind_is, crate::proofs::NoteTexts::behind_not, crate::proofs::NoteTexts::behind_none))]
fn behind_word<'a>(line: &'a [u8], word: &[u8]) -> Option<&'a [u8]>
    ensures { MatchOption result
        ((rest : List ℕ) → IsBehind word.now line.now rest → ⊥)
        (λ rest. IsBehind word.now line.now rest.now) }
{
    let behind = strip_front(line, word)?;
    let rest = trim_front(behind);
    if rest.len() < behind.len() {
        Some(rest)
    } else {
        None
    }
}

/// The name that a text gives.
pub(crate) fn name_of(text: &[u8]) -> Option<&str>
    ensures { MatchOption result
        (IsUtf8 (trimmed text.now) → ⊥)
        (λ name. IsUtf8 name.now × (name.now ≡ trimmed text.now)) }
{
    match std::str::from_utf8(trim_blanks(text)) {
        Ok(name) => Some(name),
        Err(_) => None,
    }
}
