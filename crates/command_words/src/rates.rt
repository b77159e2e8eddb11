// The rate that a command line asks for.
ghost use Rattle.std.specs.Prelude.{MatchOption};
ghost use Rattle.std.specs.Option.{option_map};
ghost use Rattle.command_words.specs.Asked.{IsRate};

use tick_time::{Rate, rate_24, rate_of};

/// The rate of lists: the one that is asked for, else 24 frames a second.
pub fn rate_asked(word: Option<&str>) -> Option<Rate>
    ensures { let asked = option_map (λ s. s.now) word.entry in MatchOption result ((rate : Rate) →
        IsRate asked rate → ⊥) (λ rate. IsRate asked rate) }
{
    match word {
        Some(word) => rate_of(word.as_bytes()),
        None => Some(rate_24()),
    }
}
