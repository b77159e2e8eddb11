// The event of a line that begins with a digit.
ghost use Rattle.std.specs.Prelude.{◌≡◌, ◌∷◌, [], ℕ, None, Some, MatchOption};
ghost use Rattle.text_lines.specs.KeyWords.{meaning};
ghost use Rattle.text_lines.specs.Lines.{fields_of};
ghost use Rattle.edl_text.specs.Statements.{EventLine as Event};
ghost use Rattle.edl_text.specs.EventForms.{IsEvent, IsKind, IsWipeCode, channel_words};
ghost use Rattle.edl_text.specs.Views.{event_said};
ghost use Rattle.edl_text.specs.StateLines.{fields_in, duration_in};
ghost use Rattle.edl_text.specs.declared.statement_types.Kind.{Kind as KindSaid};

use crate::fields::EventFields;
use crate::read_numbers::{
    CODE_DIGITS, DURATION_DIGITS, EVENT_DIGITS, number_of, reel_of, short_number_of,
};
use crate::statement_types::{Channels, EventLine, Kind};
use text_lines::{is_text, strip_front};

/// The event of a line.
#[tactic(auto, using(crate::proofs::EventParts::no_length))]
pub(crate) fn event_of(line: &[u8]) -> Option<EventLine<'_>>
    ensures { MatchOption result
        ((event : Event) → IsEvent (fields_of line.now) event → ⊥)
        (λ event. IsEvent (fields_of line.now) (event_said event)) }
{
    match EventFields::of(line) {
        Some(fields) => event_from(fields),
        None => None,
    }
}

// The event of the fields of a line.
#[tactic(auto, using(crate::proofs::EventParts::no_number, crate::proofs::EventParts::no_reel, crate::proofs::EventParts::no_channels, crate::proofs::EventParts::no_kind))]
fn event_from(fields: EventFields<'_>) -> Option<EventLine<'_>>
    ensures { MatchOption result
        ((event : Event) → IsEvent (fields_in fields.entry) event → ⊥)
        (λ event. IsEvent (fields_in fields.entry) (event_said event)) }
{
    let number = number_of(fields.number, EVENT_DIGITS)?;
    let reel = reel_of(fields.reel)?;
    let channels = channels_of(fields.channels)?;
    let kind = kind_of(fields.kind, fields.duration)?;
    Some(EventLine {
        number,
        reel,
        channels,
        kind,
        labels: fields.labels,
    })
}

// The channels that a word means.
fn channels_of(word: &[u8]) -> Option<Channels>
    ensures { result ≡ meaning word.now channel_words }
{
    let (picture, first_sound, second_sound) = match word {
        b"V" => (true, false, false),
        b"A" => (false, true, false),
        b"A2" => (false, false, true),
        b"AA" => (false, true, true),
        b"B" | b"A/V" => (true, true, false),
        b"A2/V" => (true, false, true),
        b"AA/V" => (true, true, true),
        _ => return None,
    };
    Some(Channels {
        picture,
        first_sound,
        second_sound,
    })
}

// The type of an event, and its duration where it has one.
fn kind_of(kind: &[u8], duration: Option<&[u8]>) -> Option<Kind>
    ensures { MatchOption result
        ((said : KindSaid) → IsKind (kind.now ∷ duration_in duration.entry) said → ⊥)
        (IsKind (kind.now ∷ duration_in duration.entry)) }
{
    match duration {
        None => cut_of(kind),
        Some(duration) => lasting_of(kind, duration),
    }
}

// A cut, which has no duration.
fn cut_of(kind: &[u8]) -> Option<Kind>
    ensures { MatchOption result
        ((said : KindSaid) → IsKind (kind.now ∷ []) said → ⊥)
        (IsKind (kind.now ∷ [])) }
{
    if is_text(kind, b"C") {
        Some(Kind::Cut)
    } else {
        None
    }
}

// A dissolve or a wipe.
#[tactic(auto, using(crate::proofs::EventParts::no_duration, crate::proofs::EventParts::no_code, crate::proofs::EventParts::dissolve_is, crate::proofs::EventParts::wipe_is))]
fn lasting_of(kind: &[u8], duration: &[u8]) -> Option<Kind>
    ensures { MatchOption result
        ((said : KindSaid) → IsKind (kind.now ∷ duration.now ∷ []) said → ⊥)
        (IsKind (kind.now ∷ duration.now ∷ [])) }
{
    let frames = short_number_of(duration, DURATION_DIGITS)?;
    if is_text(kind, b"D") {
        return Some(Kind::Dissolve(frames));
    }
    let code = wipe_code(kind)?;
    Some(Kind::Wipe { code, frames })
}

// The code of a wipe: the three digits after `W`.
#[tactic(auto, using(crate::proofs::EventParts::no_w, crate::proofs::EventParts::no_digits, crate::proofs::EventParts::no_code_number, crate::proofs::EventParts::code_is))]
fn wipe_code(kind: &[u8]) -> Option<u16>
    ensures { MatchOption result ((code : ℕ) → IsWipeCode kind.now code → ⊥) (IsWipeCode kind.now) }
{
    let digits = strip_front(kind, b"W")?;
    if digits.len() == CODE_DIGITS {
        short_number_of(digits, CODE_DIGITS)
    } else {
        None
    }
}
