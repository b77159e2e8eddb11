// The speed of a line whose first field is `M2`.
ghost use Rattle.std.specs.Prelude.{ℕ, Bool, MatchOption};
ghost use Rattle.text_lines.specs.Lines.{fields_of};
ghost use Rattle.edl_text.specs.Statements.{SpeedLine as Speed};
ghost use Rattle.edl_text.specs.Speeds.{IsSpeed, IsSpeedText, IsTenths};
ghost use Rattle.edl_text.specs.Views.{speed_said};
ghost use Rattle.edl_text.specs.StateLines.{speed_fields_in};

use crate::fields::SpeedFields;
use crate::read_numbers::{SPEED_DIGITS, reel_of, short_number_of};
use crate::statement_types::SpeedLine;
use text_lines::{after, before, first_byte, is_text, strip_front};

/// The speed of a line.
#[tactic(auto, using(crate::proofs::SpeedParts::no_four))]
pub(crate) fn speed_of(line: &[u8]) -> Option<SpeedLine<'_>>
    ensures { MatchOption result
        ((speed : Speed) → IsSpeed (fields_of line.now) speed → ⊥)
        (λ speed. IsSpeed (fields_of line.now) (speed_said speed)) }
{
    match SpeedFields::of(line) {
        Some(fields) => speed_from(fields),
        None => None,
    }
}

// The speed of the fields of a line.
#[tactic(auto, using(crate::proofs::SpeedParts::not_m2, crate::proofs::SpeedParts::no_speed_reel, crate::proofs::SpeedParts::no_speed_text))]
fn speed_from(fields: SpeedFields<'_>) -> Option<SpeedLine<'_>>
    ensures { MatchOption result
        ((speed : Speed) → IsSpeed (speed_fields_in fields.entry) speed → ⊥)
        (λ speed. IsSpeed (speed_fields_in fields.entry) (speed_said speed)) }
{
    if !is_text(fields.first, b"M2") {
        return None;
    }
    let reel = reel_of(fields.reel)?;
    let (reverse, tenths) = signed_tenths(fields.speed)?;
    Some(SpeedLine {
        reel,
        reverse,
        tenths,
        label: fields.label,
    })
}

// Whether a minus stands at the front, and the tenths behind it.
#[tactic(auto, using(crate::proofs::SpeedParts::minus_none, crate::proofs::SpeedParts::plain_none, crate::proofs::SpeedParts::minus_is, crate::proofs::SpeedParts::plain_is))]
fn signed_tenths(field: &[u8]) -> Option<(bool, u16)>
    ensures { MatchOption result
        ((reverse : Bool) (tenths : ℕ) → IsSpeedText field.now reverse tenths → ⊥)
        (λ speed. IsSpeedText field.now speed.0 speed.1) }
{
    match strip_front(field, b"-") {
        Some(text) => Some((true, tenths_of(text)?)),
        None => Some((false, tenths_of(field)?)),
    }
}

// The number of tenths: digits, a point and one digit.
#[tactic(auto, using(crate::proofs::SpeedParts::no_point_none, crate::proofs::SpeedParts::no_whole, crate::proofs::SpeedParts::no_tenth, crate::proofs::SpeedParts::tenths_is))]
fn tenths_of(text: &[u8]) -> Option<u16>
    ensures { MatchOption result ((tenths : ℕ) → IsTenths text.now tenths → ⊥) (IsTenths text.now) }
{
    let point = first_byte(text, b'.')?;
    let whole = short_number_of(before(text, point), SPEED_DIGITS)?;
    let tenth = short_number_of(after(text, point + 1), 1)?;
    Some(whole * 10 + tenth)
}
