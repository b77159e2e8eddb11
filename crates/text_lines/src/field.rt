// The fields of a line.
ghost use Rattle.std.specs.Prelude.{◌≡◌, ◌∷◌, [], false, MatchOption};
ghost use Rattle.text_lines.specs.First.{HasNoBlank, begins_with_blank as begins};
ghost use Rattle.text_lines.specs.Lines.{fields_of};

use crate::part::{after, before, first_blank};
use crate::trim::trim_front;

/// The first field of a line and what follows the blank behind it; none where the line has no
/// field, so that it is empty or only blanks. A space and a tab are blanks, and one or more of them
/// part two fields.
#[tactic(auto, using(crate::proofs::Splitting::fields_first))]
pub fn split_field(line: &[u8]) -> Option<(&[u8], &[u8])>
    ensures { MatchOption result (fields_of line.now ≡ [])
        (λ split. fields_of line.now ≡ split.0.now ∷ fields_of split.1.now) }
{
    let rest = skip_blanks(line);
    match first_blank(rest) {
        Some(end) => Some((before(rest, end), after(rest, end + 1))),
        None => last_field(rest),
    }
}

// The line without the blanks before its first field.
#[tactic(auto, using(crate::proofs::Splitting::fields_trimmed, crate::proofs::Trimming::front_tight))]
fn skip_blanks(line: &[u8]) -> &[u8]
    ensures same { fields_of result.now ≡ fields_of line.now }
    ensures tight { begins result.now ≡ false }
{
    trim_front(line)
}

// The field that a line without a blank is; none where the line is empty.
#[tactic(auto, using(crate::proofs::Splitting::fields_last, crate::proofs::Splitting::fields_none))]
fn last_field(line: &[u8]) -> Option<(&[u8], &[u8])>
    requires { HasNoBlank line.now }
    ensures { MatchOption result (fields_of line.now ≡ [])
        (λ split. fields_of line.now ≡ split.0.now ∷ fields_of split.1.now) }
{
    if line.is_empty() {
        None
    } else {
        Some((line, after(line, line.len())))
    }
}
