// The fields of a line, one by one and compared.
ghost use Rattle.std.specs.Prelude.{◌≡◌, ◌≢◌, ◌↔◌, ◌++◌, IsTrue, MatchOption, drop, length, map};
ghost use Rattle.text_lines.specs.Lines.{fields_of};
ghost use Rattle.edl_text.specs.Saying.{first_of, fourth_of};
ghost use Rattle.edl_text.specs.StateLines.{duration_in, labels_in};

use crate::statement_types::Labels;
use text_lines::{is_text, split_field};

/// The first field of a line; empty where it has none.
pub(crate) fn first_field(line: &[u8]) -> &[u8]
    ensures { result.now ≡ first_of (fields_of line.now) }
{
    match split_field(line) {
        Some((field, _)) => field,
        None => b"",
    }
}

/// The fourth field of a line; empty where it has fewer.
pub(crate) fn fourth_field(line: &[u8]) -> &[u8]
    ensures { result.now ≡ fourth_of (fields_of line.now) }
{
    first_field(behind_field(behind_field(behind_field(line))))
}

// The line behind its first field; empty where it has none.
#[tactic(auto, using(crate::proofs::Lists::none_behind))]
fn behind_field(line: &[u8]) -> &[u8]
    ensures { fields_of result.now ≡ drop 1 (fields_of line.now) }
{
    match split_field(line) {
        Some((_, rest)) => rest,
        None => b"",
    }
}

/// Whether the line has these fields and no other.
pub(crate) fn has_fields(line: &[u8], fields: &[&[u8]]) -> bool
    ensures { IsTrue result ↔ (fields_of line.now ≡ map (λ field. field.now) fields.now) }
{
    match fields {
        [] => split_field(line).is_none(),
        [wanted, others @ ..] => match split_field(line) {
            Some((field, rest)) => is_text(field, wanted) && has_fields(rest, others),
            None => false,
        },
    }
}

// The fields of an event line; no duration stands in a line of eight fields.
#[derive(Clone, Copy)]
pub(crate) struct EventFields<'a> {
    pub(crate) number: &'a [u8],
    pub(crate) reel: &'a [u8],
    pub(crate) channels: &'a [u8],
    pub(crate) kind: &'a [u8],
    pub(crate) duration: Option<&'a [u8]>,
    pub(crate) labels: Labels<'a>,
}

impl<'a> EventFields<'a> {
    ghost use Rattle.edl_text.specs.StateLines.{fields_in};

    /// The fields of a line that has eight or nine.
    pub(crate) fn of(line: &'a [u8]) -> Option<EventFields<'a>>
        ensures { MatchOption result
            ((length (fields_of line.now) ≢ 8) × (length (fields_of line.now) ≢ 9))
            (λ fields. fields_of line.now ≡ fields_in fields) }
    {
        let (number, rest) = split_field(line)?;
        let (reel, rest) = split_field(rest)?;
        let (channels, rest) = split_field(rest)?;
        let (kind, rest) = split_field(rest)?;
        let (duration, labels) = labels_behind(rest)?;
        Some(EventFields {
            number,
            reel,
            channels,
            kind,
            duration,
            labels,
        })
    }
}

// The four labels of a line, and what stands before them where it has five fields.
fn labels_behind(line: &[u8]) -> Option<(Option<&[u8]>, Labels<'_>)>
    ensures { MatchOption result
        ((length (fields_of line.now) ≢ 4) × (length (fields_of line.now) ≢ 5))
        (λ found. fields_of line.now ≡ duration_in found.0 ++ labels_in found.1) }
{
    match four_labels(line) {
        Some(labels) => Some((None, labels)),
        None => {
            let (duration, rest) = split_field(line)?;
            let labels = four_labels(rest)?;
            Some((Some(duration), labels))
        }
    }
}

// The labels of a line that has four fields.
fn four_labels(line: &[u8]) -> Option<Labels<'_>>
    ensures { MatchOption result
        (length (fields_of line.now) ≢ 4)
        (λ labels. fields_of line.now ≡ labels_in labels) }
{
    let (source_in, rest) = split_field(line)?;
    let (source_out, rest) = split_field(rest)?;
    let (record_in, rest) = split_field(rest)?;
    let (record_out, rest) = split_field(rest)?;
    match split_field(rest) {
        None => Some(Labels {
            source_in,
            source_out,
            record_in,
            record_out,
        }),
        Some(_) => None,
    }
}

// The four fields of a speed line.
#[derive(Clone, Copy)]
pub(crate) struct SpeedFields<'a> {
    pub(crate) first: &'a [u8],
    pub(crate) reel: &'a [u8],
    pub(crate) speed: &'a [u8],
    pub(crate) label: &'a [u8],
}

impl<'a> SpeedFields<'a> {
    ghost use Rattle.edl_text.specs.StateLines.{speed_fields_in};

    /// The fields of a line that has four.
    pub(crate) fn of(line: &'a [u8]) -> Option<SpeedFields<'a>>
        ensures { MatchOption result
            (length (fields_of line.now) ≢ 4)
            (λ fields. fields_of line.now ≡ speed_fields_in fields) }
    {
        let (first, rest) = split_field(line)?;
        let (reel, rest) = split_field(rest)?;
        let (speed, rest) = split_field(rest)?;
        let (label, rest) = split_field(rest)?;
        match split_field(rest) {
            None => Some(SpeedFields {
                first,
                reel,
                speed,
                label,
            }),
            Some(_) => None,
        }
    }
}
