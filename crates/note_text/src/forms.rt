//! What a line says as a note.
ghost use Rattle.std.specs.Prelude.{◌≡◌, List, ℕ, ℤ, Bool, false, MatchOption};
ghost use Rattle.text_lines.specs.First.{begins_with_blank};
ghost use Rattle.note_text.specs.declared.notes.Said.{Said as AnySaid};
ghost use Rattle.note_text.specs.declared.notes.Triple.{Triple as AnyTriple};
ghost use Rattle.note_text.specs.Forms.{AreNumerals, IsLocator, IsNote, IsNoteBehind, IsSaturation, IsCorrection, IsTriple};
ghost use Rattle.note_text.specs.Views.{spoken, triple};
ghost use Rattle.note_text.specs.StateForms.{HasColon};

pub use crate::words::is_color;
use crate::words::{behind, color_of, numeral_of, split_word, text_of};
use smpte_tc::label_frame;
use text_lines::{after, before, first_byte, split_field, strip_front, trim_front};
use tick_time::Rate;

/// Three numerals of JSON in a line, for red, green and blue, each as it is spelled.
#[derive(Clone, Copy)]
pub struct Words<'a> {
    /// That of red.
    pub r: &'a str,
    /// That of green.
    pub g: &'a str,
    /// That of blue.
    pub b: &'a str,
}

/// What a line says as a note, in its own bytes.
#[derive(Clone, Copy)]
pub enum Spoken<'a> {
    /// A locator.
    Loc {
        /// The record frame, as a frame number of the day.
        at: u32,
        /// The color: one to seven letters from A to Z.
        color: &'a str,
        /// The name, which may be empty.
        name: &'a str,
    },
    /// A color correction by slope, offset and power (ASC CDL).
    Sop {
        /// The slope.
        slope: Words<'a>,
        /// The offset.
        offset: Words<'a>,
        /// The power.
        power: Words<'a>,
    },
    /// A color correction by saturation: a numeral of JSON, as it is spelled (ASC CDL).
    Sat(&'a str),
}

/// What a line says as a note, at a rate, with drop-frame in force or not; none where it is no
/// note. The line has no space or tab at its ends.
#[tactic(auto, using(crate::proofs::FormLemmas::a_note))]
pub fn spoken_in(line: &[u8], rate: Rate, drop: bool) -> Option<Spoken<'_>>
    requires { begins_with_blank line.now ≡ false }
    ensures { MatchOption result
        ((said : AnySaid) → IsNote rate drop line.now said → ⊥)
        (λ found. IsNote rate drop line.now (spoken found)) }
{
    let Some(rest) = behind(line, b"*") else {
        return None;
    };
    match locator_of(rest, rate, drop) {
        Some(found) => return Some(found),
        None => {}
    }
    match correction_of(rest) {
        Some(found) => return Some(found),
        None => {}
    }
    match saturation_of(rest) {
        Some(numeral) => Some(Spoken::Sat(numeral)),
        None => None,
    }
}

// The locator that stands after the star of a line.
#[tactic(auto, using(crate::proofs::FormLemmas::no_word, crate::proofs::FormLemmas::no_colon, crate::proofs::FormLemmas::no_label, crate::proofs::FormLemmas::no_color, crate::proofs::FormLemmas::no_text, crate::proofs::FormLemmas::locates))]
fn locator_of(line: &[u8], rate: Rate, drop: bool) -> Option<Spoken<'_>>
    ensures { MatchOption result
        ((at : ℤ) (color name : List ℕ) → IsLocator rate drop line.now at color name → ⊥)
        (λ found. IsNoteBehind rate drop line.now (spoken found)) }
{
    let Some(rest) = behind(line, b"LOC") else {
        return None;
    };
    let Some(rest) = behind(rest, b":") else {
        return None;
    };
    let (label, rest) = split_word(rest);
    let Some(at) = label_frame(label, rate, drop) else {
        return None;
    };
    let (color, rest) = split_word(rest);
    let Some(color) = color_of(color) else {
        return None;
    };
    let Some(name) = text_of(rest) else {
        return None;
    };
    Some(Spoken::Loc { at, color, name })
}

// Slope, offset and power that stand after the star of a line.
#[tactic(auto, using(crate::proofs::FormLemmas::no_sop, crate::proofs::FormLemmas::no_slope, crate::proofs::FormLemmas::no_offset, crate::proofs::FormLemmas::no_power, crate::proofs::FormLemmas::no_end, crate::proofs::FormLemmas::corrects))]
fn correction_of(line: &[u8]) -> Option<Spoken<'_>>
    ensures { MatchOption result
        ((slope offset power : AnyTriple) → IsCorrection line.now slope offset power → ⊥)
        (λ found. (rate : Rate) (drop : Bool) → IsNoteBehind rate drop line.now (spoken found)) }
{
    let Some(rest) = behind(line, b"ASC_SOP") else {
        return None;
    };
    let Some((slope, rest)) = triple_of(behind_colon(rest)) else {
        return None;
    };
    let Some((offset, rest)) = triple_of(rest) else {
        return None;
    };
    let Some((power, rest)) = triple_of(rest) else {
        return None;
    };
    if !rest.is_empty() {
        return None;
    }
    Some(Spoken::Sop {
        slope,
        offset,
        power,
    })
}

// The line after a colon at its front and the blanks that follow; the line where there is none.
fn behind_colon(line: &[u8]) -> &[u8]
    ensures { HasColon line.now result.now }
{
    match behind(line, b":") {
        Some(rest) => rest,
        None => line,
    }
}

// Three numerals in parentheses, and what stands after the blanks that follow them.
#[tactic(auto, using(crate::proofs::FormLemmas::no_open, crate::proofs::FormLemmas::no_close, crate::proofs::FormLemmas::no_numerals, crate::proofs::FormLemmas::three))]
fn triple_of(text: &[u8]) -> Option<(Words<'_>, &[u8])>
    ensures { MatchOption result
        ((numerals : AnyTriple) (rest : List ℕ) → IsTriple text.now numerals rest → ⊥)
        (λ found. IsTriple text.now (triple found.0) found.1.now) }
{
    let Some(inside) = strip_front(text, b"(") else {
        return None;
    };
    let Some(end) = first_byte(inside, b')') else {
        return None;
    };
    match numerals_in(before(inside, end)) {
        Some(numerals) => Some((numerals, trim_front(after(inside, end + 1)))),
        None => None,
    }
}

// Three numerals with blanks between.
fn numerals_in(text: &[u8]) -> Option<Words<'_>>
    ensures { MatchOption result
        ((numerals : AnyTriple) → AreNumerals text.now numerals → ⊥)
        (λ found. AreNumerals text.now (triple found)) }
{
    let (r, rest) = split_field(text)?;
    let (g, rest) = split_field(rest)?;
    let (b, rest) = split_field(rest)?;
    match split_field(rest) {
        Some(_) => return None,
        None => {}
    }
    let r = numeral_of(r)?;
    let g = numeral_of(g)?;
    let b = numeral_of(b)?;
    Some(Words { r, g, b })
}

// The saturation that stands after the star of a line.
#[tactic(auto, using(crate::proofs::FormLemmas::no_sat_word, crate::proofs::FormLemmas::sat_colon, crate::proofs::FormLemmas::no_sat_colon, crate::proofs::FormLemmas::sat_bare, crate::proofs::FormLemmas::no_sat_bare, crate::proofs::FormLemmas::no_sat_long))]
fn saturation_of(line: &[u8]) -> Option<&str>
    ensures { MatchOption result
        ((numeral : List ℕ) → IsSaturation line.now numeral → ⊥)
        (λ numeral. IsSaturation line.now numeral.now) }
{
    let Some(text) = strip_front(line, b"ASC_SAT") else {
        return None;
    };
    let rest = trim_front(text);
    if let Some(behind_colon) = behind(rest, b":") {
        return match numeral_of(behind_colon) {
            Some(numeral) => Some(numeral),
            None => None,
        };
    }
    if rest.len() >= text.len() {
        return None;
    }
    match numeral_of(rest) {
        Some(numeral) => Some(numeral),
        None => None,
    }
}
