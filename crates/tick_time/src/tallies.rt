//! Digits gathered one by one, with the zeros behind them set aside.

ghost use Rattle.std.specs.Prelude.{◌≡◌, ℕ, ◌+◌, ◌-◌, ◌*◌, ◌%◌, ◌^◌, ◌<◌, ◌≤◌, [], ◌∷◌, ◌++◌, List, length, MatchOption, IfSome};
ghost use Rattle.std.specs.Str.Parse.{AllDigits, digits_value};
ghost use Rattle.tick_time.specs.Numerals.{significant};
ghost use Rattle.tick_time.specs.Tallies.{Tallies};

/// The greatest number of digits from the first to the last that is not 0.
const MOST_DIGITS: u128 = 38;

/// The digits read so far: their number up to the last that is not 0, how many those are, and the
/// zeros behind it.
#[derive(Clone, Copy)]
pub(crate) struct Tally {
    pub(crate) digits: u128,
    pub(crate) count: u128,
    pub(crate) zeros: u128,
    ghost few: { count ≤ 38 },
    ghost below: { digits < 10 ^ count },
    ghost last: { digits % 10 ≡ 0 → count ≡ 0 },
    ghost bare: { count ≡ 0 → zeros ≡ 0 },
}

impl Tally {
    /// No digits.
    pub(crate) fn new() -> Tally
        ensures { Tallies result.digits result.count result.zeros [] }
    {
        Tally {
            digits: 0,
            count: 0,
            zeros: 0,
        }
    }

    // One more digit; `None` where more than 38 would be significant.
    fn push(self, digit: u8) -> Option<Tally>
        requires low { 48 ≤ digit }
        requires high { digit ≤ 57 }
        requires few { self.zeros < 2 ^ 100 }
        ensures digit { (read : List ℕ) → Tallies self.digits self.count self.zeros read →
            MatchOption result (38 < significant (read ++ digit ∷ []))
            (λ tally. Tallies tally.digits tally.count tally.zeros (read ++ digit ∷ [])) }
        ensures behind { IfSome result (λ tally. tally.zeros ≤ self.zeros + 1) }
    {
        let more = self.zeros + 1;
        if digit == b'0' {
            let zeros = if self.count == 0 { 0 } else { more };
            Some(Tally {
                digits: self.digits,
                count: self.count,
                zeros,
            })
        } else if self.count + more > MOST_DIGITS {
            None
        } else {
            Some(Tally {
                digits: joined(self.digits, self.count, more, digit),
                count: self.count + more,
                zeros: 0,
            })
        }
    }

    // More digits; `None` where more than 38 would be significant.
    fn push_all(self, digits: &[u8]) -> Option<Tally>
        requires digits { AllDigits 10 digits.now }
        requires few { self.zeros < 2 ^ 90 }
        ensures all { (read : List ℕ) → Tallies self.digits self.count self.zeros read →
            MatchOption result (38 < significant (read ++ digits.now))
            (λ tally. Tallies tally.digits tally.count tally.zeros (read ++ digits.now)) }
        ensures behind { IfSome result (λ tally. tally.zeros ≤ self.zeros + length digits.now) }
    {
        let mut tally = self;
        for digit in digits {
            match tally.push(*digit) {
                Some(next) => tally = next,
                None => return None,
            }
        }
        Some(tally)
    }

    /// The digits before and behind a point; `None` where more than 38 are significant.
    pub(crate) fn read(whole: &[u8], decimals: &[u8]) -> Option<Tally>
        requires whole { AllDigits 10 whole.now }
        requires decimals { AllDigits 10 decimals.now }
        ensures all { MatchOption result (38 < significant (whole.now ++ decimals.now))
            (λ tally. Tallies tally.digits tally.count tally.zeros (whole.now ++ decimals.now)) }
        ensures behind { IfSome result (λ tally. tally.zeros < 2 ^ 66) }
    {
        match Tally::new().push_all(whole) {
            Some(tally) => tally.push_all(decimals),
            None => None,
        }
    }
}

// The number of some digits, so many zeros but one, and one more digit.
#[tactic(auto, using(crate::proofs::Pushes::joins))]
fn joined(digits: u128, count: u128, more: u128, digit: u8) -> u128
    requires below { digits < 10 ^ count }
    requires few { count + more ≤ 38 }
    requires some { 1 ≤ more }
    requires low { 48 ≤ digit }
    requires high { digit ≤ 57 }
    ensures value { result ≡ digits * 10 ^ more + (digit - 48) }
    ensures below { result < 10 ^ (count + more) }
    ensures last { result % 10 ≡ digit - 48 }
{
    digits * power_of_ten(more) + u128::from(digit - b'0')
}

/// A power of ten up to that of 38.
pub(crate) fn power_of_ten(exponent: u128) -> u128
    requires { exponent ≤ 38 }
    ensures value { result ≡ 10 ^ exponent }
    ensures positive { 1 ≤ result }
    ensures bound { result ≤ 10 ^ 38 }
{
    10_u128.pow(exponent as u32)
}
