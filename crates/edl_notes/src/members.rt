//! Color corrections that metadata have.

ghost use Rattle.std.specs.Prelude.{◌≡◌, List, ℕ, MatchOption, Some};
ghost use Rattle.std.specs.Option.{option_copied};
ghost use Rattle.json_value.specs.declared.Json.{out-Json};
ghost use Rattle.coord.specs.Keys as keys;
ghost use Rattle.note_text.specs.declared.notes.Triple.{Triple as AnyTriple};
ghost use Rattle.note_text.specs.Found.{AreNumeralsOf, HasSat, HasSop, IsNumeralOf, IsTripleOf, color_member as color_in};
ghost use Rattle.note_text.specs.Views.{triple};

use crate::colors::Correction;
use json_value::{Json, Members};
use note_text::Words;
use tick_time::is_numeral;

/// Slope, offset and power in metadata, where they have them in that form.
pub(crate) fn correction_in(metadata: &Members) -> Option<Correction<'_>>
    ensures { MatchOption result
        ((slope offset power : AnyTriple) → HasSop metadata.now slope offset power → ⊥)
        (λ found. HasSop metadata.now (triple found.slope) (triple found.offset)
        (triple found.power)) }
{
    let Some(sop) = color_member(metadata, "asc_sop") else {
        return None;
    };
    let Some(slope) = triple_in(sop, "slope") else {
        return None;
    };
    let Some(offset) = triple_in(sop, "offset") else {
        return None;
    };
    let Some(power) = triple_in(sop, "power") else {
        return None;
    };
    Some(Correction {
        slope,
        offset,
        power,
    })
}

/// The saturation in metadata, where they have one.
pub(crate) fn saturation_in(metadata: &Members) -> Option<&str>
    ensures { MatchOption result ((numeral : List ℕ) → HasSat metadata.now numeral → ⊥)
        (λ numeral. HasSat metadata.now numeral.now) }
{
    let Some(value) = color_member(metadata, "asc_sat") else {
        return None;
    };
    numeral_in(value)
}

// The value of that name in the member `cdl` of metadata.
fn color_member<'a>(metadata: &'a Members, name: &str) -> Option<&'a Json>
    ensures { option_copied result ≡ color_in name.now metadata.now }
{
    member_in(metadata.get("cdl")?, name)
}

// The value of that name, where the other value is an object.
fn member_in<'a>(value: &'a Json, name: &str) -> Option<&'a Json>
    ensures { option_copied result ≡ keys.member_in name.now (out-Json value.now) }
{
    match value {
        Json::Map(members) => members.get().get(name),
        _ => None,
    }
}

// Three numerals that the member of that name is.
fn triple_in<'a>(sop: &'a Json, name: &str) -> Option<Words<'a>>
    ensures { MatchOption result ((t : AnyTriple) → IsTripleOf name.now sop.now t → ⊥)
        (λ found. IsTripleOf name.now sop.now (triple found)) }
{
    let Some(value) = member_in(sop, name) else {
        return None;
    };
    numerals_in(value)
}

// The three numerals that a list is.
fn numerals_in(value: &Json) -> Option<Words<'_>>
    ensures { MatchOption result ((t : AnyTriple) → AreNumeralsOf value.now t → ⊥)
        (λ found. AreNumeralsOf value.now (triple found)) }
{
    let Json::List(list) = value else {
        return None;
    };
    let [r, g, b] = list.as_slice() else {
        return None;
    };
    let Some(r) = numeral_in(r) else {
        return None;
    };
    let Some(g) = numeral_in(g) else {
        return None;
    };
    let Some(b) = numeral_in(b) else {
        return None;
    };
    Some(Words { r, g, b })
}

// The numeral that a value is.
fn numeral_in(value: &Json) -> Option<&str>
    ensures { MatchOption result ((spelled : List ℕ) → IsNumeralOf (Some value.now) spelled → ⊥)
        (λ spelled. IsNumeralOf (Some value.now) spelled.now) }
{
    match value {
        Json::Num(numeral) => {
            let spelled = numeral.as_str();
            if is_numeral(spelled.as_bytes()) {
                Some(spelled)
            } else {
                None
            }
        }
        _ => None,
    }
}
