// The names of reels.
ghost use Rattle.std.specs.Prelude.{◌≡◌, ◌≤◌, ◌↔◌, All, IsTrue, MatchOption};
ghost use Rattle.text_lines.specs.ReelNames.{IsReelName};

use crate::text::is_text;

/// How many bytes the name of a reel has at most.
pub const MOST_REEL_BYTES: usize = 32;

/// The bytes as the name of a reel: from one to 32 bytes, each from `!` to `~` (0x21 to 0x7E), and
/// not `BL`, which is black; none where they are no such name.
#[tactic(auto, using(crate::proofs::ReelLemmas::reel_is_text))]
pub fn reel_name(bytes: &[u8]) -> Option<&str>
    ensures { MatchOption result (IsReelName bytes.now → ⊥)
        (λ name. IsReelName bytes.now × (name.now ≡ bytes.now)) }
{
    if !is_reel_name(bytes) {
        return None;
    }
    match std::str::from_utf8(bytes) {
        Ok(name) => Some(name),
        Err(_) => None,
    }
}

// Whether the bytes are the name of a reel.
fn is_reel_name(bytes: &[u8]) -> bool
    ensures { IsTrue result ↔ IsReelName bytes.now }
{
    !bytes.is_empty()
        && bytes.len() <= MOST_REEL_BYTES
        && are_within(bytes, b'!', b'~')
        && !is_text(bytes, b"BL")
}

/// Whether each byte lies between these two, or is one of them.
pub fn are_within(bytes: &[u8], low: u8, high: u8) -> bool
    ensures { IsTrue result ↔ All (λ b. (low ≤ b) × (b ≤ high)) bytes.now }
{
    bytes.iter().all(|b| low <= *b && *b <= high)
}
