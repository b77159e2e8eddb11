// What a command line of `drill` asks for.
ghost use Rattle.std.specs.Prelude.{◌≡◌, ◌↔◌, ◌∷◌, [], ℕ, List, Option, map, IsTrue, MatchOption};
ghost use Rattle.std.specs.Option.{option_map};
ghost use Rattle.command_words.specs.Drills.{IsDrill, IsEditCount, IsSeed, IsUnsigned};
ghost use Rattle.command_words.specs.Given.{given_by};

use crate::lines::Line;
use smpte_tc::whole_number;

/// How many edits a drill tries at most.
const MOST_EDITS: u64 = 10_000;

/// A drill that is asked for.
#[derive(Clone, Copy, PartialEq, Eq)]
pub struct DrillAsked<'a> {
    /// The number that the drill's generator starts at.
    pub seed: u64,
    /// How many edits are tried, from 0 to 10 000.
    pub count: u32,
    /// The name of the output file; none for the standard output.
    pub target: Option<&'a str>,
}

/// What the option and the words of `drill` ask for; none where the words are anything but a seed
/// and a count.
pub fn drill_of<'a>(line: &Line<'a>) -> Option<DrillAsked<'a>>
    ensures { let given = given_by line.now in MatchOption result
        ((seed count : ℕ) (target : Option (List ℕ)) → IsDrill seed count target given → ⊥)
        (λ drill. IsDrill drill.seed drill.count (option_map (λ s. s.now) drill.target) given) }
{
    let Some(first) = line.file else {
        return None;
    };
    let Some(second) = only_word(line.more.as_slice()) else {
        return None;
    };
    let Some(seed) = seed_of(first) else {
        return None;
    };
    match edit_count_of(second) {
        Some(count) => Some(DrillAsked {
            seed,
            count,
            target: line.target,
        }),
        None => None,
    }
}

// The one word among some.
fn only_word<'a>(words: &[&'a str]) -> Option<&'a str>
    ensures { MatchOption result
        ((word : List ℕ) → map (λ w. w.now) words.now ≡ word ∷ [] → ⊥)
        (λ word. map (λ w. w.now) words.now ≡ word.now ∷ []) }
{
    match words {
        [word] => Some(word),
        _ => None,
    }
}

// The seed that a word is: decimal digits without a sign or a leading zero, below 2 ^ 64.
fn seed_of(word: &str) -> Option<u64>
    ensures { MatchOption result ((seed : ℕ) → IsSeed word.now seed → ⊥) (IsSeed word.now) }
{
    if !is_unsigned(word.as_bytes()) {
        return None;
    }
    match word.parse() {
        Ok(seed) => Some(seed),
        Err(_) => None,
    }
}

// Whether there is a byte, no plus at the front, and a `0` there stands alone.
fn is_unsigned(bytes: &[u8]) -> bool
    ensures { IsTrue result ↔ IsUnsigned bytes.now }
{
    match bytes {
        [] => false,
        [b'+', ..] => false,
        [b'0', _, ..] => false,
        _ => true,
    }
}

// How many edits a word asks for.
fn edit_count_of(word: &str) -> Option<u32>
    ensures { MatchOption result ((count : ℕ) → IsEditCount word.now count → ⊥)
        (IsEditCount word.now) }
{
    let Some(count) = whole_number(word) else {
        return None;
    };
    if count > MOST_EDITS {
        return None;
    }
    Some(count as u32)
}
