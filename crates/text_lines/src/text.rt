// Tests on a text: what it is, what it begins with, what it ends with.
ghost use Rattle.std.specs.Prelude.{◌≡◌, ◌↔◌, ◌++◌, List, ℕ, IsTrue, MatchOption};
ghost use Rattle.std.specs.Str.{bytes_eq};

/// Whether the bytes are this text, byte by byte: letters in another case are other bytes.
pub fn is_text(bytes: &[u8], text: &[u8]) -> bool
    ensures { IsTrue result ↔ (bytes.now ≡ text.now) }
{
    bytes == text
}

/// Whether a word is this one, byte by byte, as a table of key words asks.
pub fn is_word(word: &[u8], text: &[u8]) -> bool
    ensures { result ≡ bytes_eq word.now text.now }
{
    word == text
}

/// What follows a text that the bytes begin with; none where they don't begin with it.
#[tactic(auto, using(crate::proofs::Stripping::behind_front))]
pub fn strip_front<'a>(bytes: &'a [u8], front: &[u8]) -> Option<&'a [u8]>
    ensures { MatchOption result ((rest : List ℕ) → bytes.now ≡ front.now ++ rest → ⊥)
        (λ rest. bytes.now ≡ front.now ++ rest.now) }
{
    bytes.strip_prefix(front)
}

/// What precedes a text that the bytes end with; none where they don't end with it.
#[tactic(auto, using(crate::proofs::Stripping::before_back))]
pub fn strip_back<'a>(bytes: &'a [u8], back: &[u8]) -> Option<&'a [u8]>
    ensures { MatchOption result ((rest : List ℕ) → bytes.now ≡ rest ++ back.now → ⊥)
        (λ rest. bytes.now ≡ rest.now ++ back.now) }
{
    bytes.strip_suffix(back)
}
