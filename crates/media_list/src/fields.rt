//! The five fields of a line.

ghost use Rattle.std.specs.Prelude.{◌≡◌, ◌≢◌, ◌<◌, ◌∷◌, [], false, IsUtf8, MatchOption, length};
ghost use Rattle.media_list.specs.Lines.{Fields, IsForm, tab_fields, field_list};
ghost use Rattle.text_lines.specs.Lines.{is_comment as is_comment_line};
ghost use Rattle.media_list.specs.Views.{fields_in};

use crate::words::{is_number, is_reel, is_start_form};
use text_lines::{after, before, first_byte};
use tick_time::is_numeral;

/// The fields of a line.
#[derive(Clone, Copy)]
pub(crate) struct LineFields<'a> {
    pub(crate) reel: &'a [u8],
    pub(crate) rate: &'a [u8],
    pub(crate) start: &'a [u8],
    pub(crate) count: &'a [u8],
    pub(crate) url: &'a [u8],
}

// The first field of a line and what follows its tab; none where the line has no tab.
#[tactic(auto, using(crate::proofs::TabLemmas::fields_first, crate::proofs::TabLemmas::fields_last, crate::proofs::TabLemmas::some_field))]
fn next_field(line: &[u8]) -> Option<(&[u8], &[u8])>
    ensures { MatchOption result (tab_fields line.now ≡ line.now ∷ [])
        (λ split. (tab_fields line.now ≡ split.0.now ∷ tab_fields split.1.now)
        × (0 < length (tab_fields split.1.now))) }
{
    match first_byte(line, b'\t') {
        Some(end) => Some((before(line, end), after(line, end + 1))),
        None => None,
    }
}

// The five fields of a line; none where it has another number of fields.
fn split_fields(line: &[u8]) -> Option<LineFields<'_>>
    ensures { MatchOption result (length (tab_fields line.now) ≢ 5)
        (λ f. tab_fields line.now ≡ field_list (fields_in f)) }
{
    let (reel, rest) = next_field(line)?;
    let (rate, rest) = next_field(rest)?;
    let (start, rest) = next_field(rest)?;
    let (count, url) = next_field(rest)?;
    match next_field(url) {
        Some(_) => None,
        None => Some(LineFields {
            reel,
            rate,
            start,
            count,
            url,
        }),
    }
}

/// The fields of a text that is no comment; none where its form is wrong.
pub(crate) fn form_of(line: &[u8]) -> Option<LineFields<'_>>
    requires text { IsUtf8 line.now }
    requires other { is_comment_line line.now ≡ false }
    ensures { MatchOption result ((f : Fields) → IsForm line.now f → ⊥)
        (λ f. IsForm line.now (fields_in f)) }
{
    let fields = split_fields(line)?;
    if is_reel(fields.reel)
        && is_numeral(fields.rate)
        && is_start_form(fields.start)
        && is_number(fields.count)
    {
        Some(fields)
    } else {
        None
    }
}
