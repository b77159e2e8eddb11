//! Color corrections that notes say, as a member of metadata.

ghost use Rattle.std.specs.Prelude.{◌≡◌, ◌++◌, ◌∷◌, [], None, IfOk, codes, option_map};
ghost use Rattle.json_value.specs.declared.Json.{Num};
ghost use Rattle.note_text.specs.Noted as noted;
ghost use Rattle.note_text.specs.Noted.{last_sat, last_sop, member_if, triple_json, with_colors};
ghost use Rattle.note_text.specs.Views.{triple};
ghost use Rattle.edl_notes.specs.Steps.{correction, said_by};

use json_value::{Json, JsonList, Members};
use note_text::{Note, Said, Triple, Words};
use otio_model::Metadata;
use owned::Owned;
use sequences::{NamedValues, Text};
use std::alloc::{AllocError, Global};

/// Slope, offset and power.
#[derive(Clone, Copy)]
pub(crate) struct Correction<'a> {
    pub(crate) slope: Words<'a>,
    pub(crate) offset: Words<'a>,
    pub(crate) power: Words<'a>,
}

/// Puts the last color corrections among the notes into a member `cdl` at the end of the others,
/// where there are any.
pub(crate) fn put_colors(
    alloc: Global,
    metadata: &mut Metadata,
    notes: &[&Note],
) -> Result<(), AllocError>
    ensures { IfOk result (λ _. metadata.new
        ≡ with_colors (noted.colors_of (said_by notes.now)) metadata.old) }
{
    let colors = colors_of(alloc, last_correction(notes), last_saturation(notes))?;
    put_cdl(alloc, metadata, colors)
}

// Puts a member `cdl` with these members, where there are any.
fn put_cdl(alloc: Global, metadata: &mut Metadata, colors: Members) -> Result<(), AllocError>
    ensures { IfOk result (λ _. metadata.new ≡ with_colors colors metadata.old) }
{
    if colors.len() == 0 {
        return Ok(());
    }
    let name = Text::of(alloc, "cdl")?;
    metadata.put(alloc, name, Json::Map(Owned::of(alloc, colors)?))
}

// The last slope, offset and power among the notes.
fn last_correction<'a>(notes: &[&'a Note]) -> Option<Correction<'a>>
    ensures { option_map correction result ≡ last_sop None (said_by notes.now) }
{
    let mut last = None;
    'notes: for note in notes {
        last = later_correction(last, &note.said);
    }
    last
}

// Slope, offset and power that a note says, else these.
fn later_correction<'a>(last: Option<Correction<'a>>, said: &'a Said) -> Option<Correction<'a>>
    ensures { option_map correction result
        ≡ last_sop (option_map correction last.entry) (said.now ∷ []) }
{
    match said {
        Said::Sop {
            slope,
            offset,
            power,
        } => Some(Correction {
            slope: words_of(slope.get()),
            offset: words_of(offset.get()),
            power: words_of(power.get()),
        }),
        Said::Loc { .. } => last,
        Said::Sat(_) => last,
    }
}

fn words_of(numerals: &Triple) -> Words<'_>
    ensures { triple result ≡ numerals.now }
{
    Words {
        r: numerals.r.as_str(),
        g: numerals.g.as_str(),
        b: numerals.b.as_str(),
    }
}

// The last saturation among the notes.
fn last_saturation<'a>(notes: &[&'a Note]) -> Option<&'a str>
    ensures { option_map (λ s. Num s.now) result ≡ last_sat None (said_by notes.now) }
{
    let mut last = None;
    'notes: for note in notes {
        last = later_saturation(last, &note.said);
    }
    last
}

// The saturation that a note says, else this.
fn later_saturation<'a>(last: Option<&'a str>, said: &'a Said) -> Option<&'a str>
    ensures { option_map (λ s. Num s.now) result
        ≡ last_sat (option_map (λ s. Num s.now) last.entry) (said.now ∷ []) }
{
    match said {
        Said::Sat(numeral) => Some(numeral.as_str()),
        Said::Loc { .. } => last,
        Said::Sop { .. } => last,
    }
}

// The members for color corrections.
fn colors_of(
    alloc: Global,
    sop: Option<Correction<'_>>,
    sat: Option<&str>,
) -> Result<Members, AllocError>
    ensures { IfOk result (λ made. made
        ≡ member_if (codes "asc_sop") (option_map correction sop.entry)
        ++ member_if (codes "asc_sat") (option_map (λ s. Num s.now) sat.entry)) }
{
    let mut colors = correction_member(alloc, sop)?;
    match sat {
        Some(numeral) => {
            let value = Json::Num(Text::of(alloc, numeral)?);
            colors.put(Text::of(alloc, "asc_sat")?, value)?;
            Ok(colors)
        }
        None => Ok(colors),
    }
}

// The member for slope, offset and power, where there are any.
fn correction_member(alloc: Global, sop: Option<Correction<'_>>) -> Result<Members, AllocError>
    ensures { IfOk result (λ made. made
        ≡ member_if (codes "asc_sop") (option_map correction sop.entry)) }
{
    match sop {
        Some(correction) => {
            let value = correction_json(alloc, correction)?;
            NamedValues::one(alloc, "asc_sop", value)
        }
        None => Ok(Members::new(alloc)),
    }
}

// The lists `slope`, `offset` and `power`.
fn correction_json(alloc: Global, sop: Correction<'_>) -> Result<Json, AllocError>
    ensures { IfOk result (λ made. made ≡ correction sop.entry) }
{
    let mut lists = NamedValues::one(alloc, "slope", list_json(alloc, sop.slope)?)?;
    lists.put(Text::of(alloc, "offset")?, list_json(alloc, sop.offset)?)?;
    lists.put(Text::of(alloc, "power")?, list_json(alloc, sop.power)?)?;
    Ok(Json::Map(Owned::of(alloc, lists)?))
}

// Three numerals as a list.
fn list_json(alloc: Global, words: Words<'_>) -> Result<Json, AllocError>
    ensures { IfOk result (λ made. made ≡ triple_json (triple words.entry)) }
{
    let mut list = Vec::with_capacity(alloc, 3)?;
    list.push(Json::Num(Text::of(alloc, words.r)?))?;
    list.push(Json::Num(Text::of(alloc, words.g)?))?;
    list.push(Json::Num(Text::of(alloc, words.b)?))?;
    Ok(Json::List(JsonList::of(alloc, list)?))
}
