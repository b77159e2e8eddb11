// Numbers and reels, each of one field.
ghost use Rattle.std.specs.Prelude.{◌≤◌, ◌<◌, ◌^◌, ◌↔◌, ℕ, IsTrue, IfSome, MatchOption};
ghost use Rattle.std.specs.Str.Parse.{IsNumeral};
ghost use Rattle.edl_text.specs.Numbers.{IsNumber, IsReel};
ghost use Rattle.edl_text.specs.Statements.{Reel};
ghost use Rattle.edl_text.specs.Views.{reel_said};

use crate::statement_types::ReelName;
use text_lines::{is_text, reel_name};
use tick_time::are_digits;

/// How many digits the number of an event has at most.
pub(crate) const EVENT_DIGITS: usize = 6;

/// How many digits the duration of a dissolve or wipe has at most.
pub(crate) const DURATION_DIGITS: usize = 3;

/// How many digits the code of a wipe has.
pub(crate) const CODE_DIGITS: usize = 3;

/// How many digits stand at most before the point of a speed.
pub(crate) const SPEED_DIGITS: usize = 3;

/// The number that a field of digits writes, at most so many.
#[tactic(auto, using(crate::proofs::Figures::is_number, crate::proofs::Figures::below))]
pub(crate) fn number_of(field: &[u8], most: usize) -> Option<u32>
    requires { most ≤ 6 }
    ensures number { MatchOption result
        ((number : ℕ) → IsNumber most field.now number → ⊥)
        (IsNumber most field.now) }
    ensures bound { IfSome result (λ number. number < 10 ^ most) }
{
    if field.len() <= most && is_numeral(field) {
        Some(tick_time::number_of(field) as u32)
    } else {
        None
    }
}

/// The number that a field of digits writes, at most so many, in sixteen bits.
#[tactic(auto, using(crate::proofs::Figures::fits_short))]
pub(crate) fn short_number_of(field: &[u8], most: usize) -> Option<u16>
    requires { most ≤ 4 }
    ensures number { MatchOption result
        ((number : ℕ) → IsNumber most field.now number → ⊥)
        (IsNumber most field.now) }
    ensures bound { IfSome result (λ number. number < 10 ^ most) }
{
    match number_of(field, most) {
        Some(number) => Some(number as u16),
        None => None,
    }
}

// Whether the field is one digit or more.
fn is_numeral(field: &[u8]) -> bool
    ensures { IsTrue result ↔ IsNumeral 10 field.now }
{
    !field.is_empty() && are_digits(field)
}

/// The reel of a field.
pub(crate) fn reel_of(field: &[u8]) -> Option<ReelName<'_>>
    ensures { MatchOption result
        ((reel : Reel) → IsReel field.now reel → ⊥)
        (λ reel. IsReel field.now (reel_said reel)) }
{
    if is_text(field, b"BL") {
        return Some(ReelName::Black);
    }
    match reel_name(field) {
        Some(name) => Some(ReelName::Named(name)),
        None => None,
    }
}
