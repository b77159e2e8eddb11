//! Digits in a text.

ghost use Rattle.std.specs.Prelude.{◌≡◌, ◌≢◌, ◌↔◌, ℕ, ◌+◌, ◌*◌, ◌<◌, ◌≤◌, ◌^◌, ◌++◌, List, length, pos, ◌≤ℤ◌, All, IsTrue};
ghost use Rattle.std.specs.List.{prefix_len};
ghost use Rattle.std.specs.Char.{is_ascii_digit};
ghost use Rattle.std.specs.Str.Parse.{AllDigits, digits_value};
ghost use Rattle.tick_time.specs.Numerals.{StopsDigits};

/// Whether each byte is a decimal digit, from `0` to `9`; so it is where there is no byte.
#[tactic(auto, using(crate::proofs::DigitBytes::digits_of, crate::proofs::DigitBytes::of_digits))]
pub fn are_digits(bytes: &[u8]) -> bool
    ensures { IsTrue result ↔ AllDigits 10 bytes.now }
{
    are_within(bytes, b'0', b'9')
}

// Whether each byte lies between these two, or is one of them.
fn are_within(bytes: &[u8], low: u8, high: u8) -> bool
    ensures { IsTrue result ↔ All (λ b. (low ≤ b) × (b ≤ high)) bytes.now }
{
    bytes.iter().all(|b| low <= *b && *b <= high)
}

/// The digits at a text's front, and what follows them.
pub(crate) fn split_digits(text: &[u8]) -> (&[u8], &[u8])
    ensures joined { text.now ≡ result.0.now ++ result.1.now }
    ensures digits { AllDigits 10 result.0.now }
    ensures parts { (digits rest : List ℕ) → text.now ≡ digits ++ rest → AllDigits 10 digits →
        StopsDigits rest →
        (result.0.now ≡ digits) × (result.1.now ≡ rest) }
{
    text.split_at(count_digits(text))
}

// How many digits a text begins with.
fn count_digits(text: &[u8]) -> usize
    ensures value { result ≡ prefix_len is_ascii_digit text.now }
    ensures bound { result ≤ length text.now }
{
    text.iter().take_while(|byte| byte.is_ascii_digit()).count()
}

/// The number that at most eighteen digits write, 0 where there is none.
pub fn number_of(digits: &[u8]) -> u64
    requires digits { AllDigits 10 digits.now }
    requires few { length digits.now ≤ 18 }
    ensures value { result ≡ digits_value 10 digits.now }
    ensures bound { result < 10 ^ 18 }
{
    let mut number: u64 = 0;
    'digits: for digit in digits {
        number = number * 10 + u64::from(*digit - b'0');
    }
    number
}
