//! The rate that a word is.

ghost use Rattle.std.specs.Prelude.{MatchOption};
ghost use Rattle.tick_time.specs.RateWords.{IsRateWord};

use crate::decimals::Decimal;
use crate::forms::is_numeral;
use crate::rates::Rate;

/// The rate that a word is: a number of JSON (RFC 8259, section 6), as `24` or `29.97`, that isn't
/// too long and stands for a rate; none where the word is no such number.
pub fn rate_of(word: &[u8]) -> Option<Rate>
    ensures { MatchOption result ((rate : Rate) → IsRateWord word.now rate → ⊥)
        (IsRateWord word.now) }
{
    if !is_numeral(word) {
        return None;
    }
    let Ok(decimal) = Decimal::read(word) else {
        return None;
    };
    match Rate::of(&decimal) {
        Ok(rate) => Some(rate),
        Err(_) => None,
    }
}
