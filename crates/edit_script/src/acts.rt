//! What the words of a line say.

ghost use Rattle.std.specs.Prelude.{◌≡◌, ◌∷◌, ℕ, List, Option, Some, None, IfOk, MatchOption, option_map, option_and_then, []};
ghost use Rattle.text_lines.specs.KeyWords.{meaning};
ghost use Rattle.edit_script.specs.Words.{words_of};
ghost use Rattle.edit_script.specs.Acts as acts;

use crate::commands::{Act, Put};
use crate::numbers::{count, place_of, whole};
use crate::verbs::{Verb, fill_of, remove_of, verb_of};
use crate::words::{has_ended, next_word};
use otio_model::{FillMode, Place, RemoveMode};
use sequences::Text;
use std::alloc::{AllocError, Global};
use text_lines::is_word;

// What the words of a line say; none where they say nothing.
type Said = Result<Option<Act>, AllocError>;

// The word that is a line's only one.
#[tactic(auto, using(crate::proofs::ActLemmas::only_words))]
fn only_word(line: &[u8]) -> Option<&[u8]>
    ensures { MatchOption result
        ((word : List ℕ) → words_of line.now ≡ Some (word ∷ []) → ⊥)
        (λ word. words_of line.now ≡ Some (word.now ∷ [])) }
{
    let (word, rest) = next_word(line)?;
    if has_ended(rest) { Some(word) } else { None }
}

// The bytes as a text, where they are UTF-8.
fn text_of(alloc: Global, bytes: &[u8]) -> Result<Option<Text>, AllocError>
    ensures { IfOk result (λ text. text ≡ acts.text bytes.now) }
{
    match std::str::from_utf8(bytes) {
        Ok(text) => Ok(Some(Text::of(alloc, text)?)),
        Err(_) => Ok(None),
    }
}

// The last two words of a line as whole numbers.
#[tactic(auto, using(crate::proofs::ActLemmas::edges))]
fn edges_of(line: &[u8]) -> Option<(i64, i64)>
    ensures { result ≡ option_and_then acts.edges_of (words_of line.now) }
{
    let (head, rest) = next_word(line)?;
    let tail = only_word(rest)?;
    Some((whole(head)?, whole(tail)?))
}

// The only word of a line as a whole number.
#[tactic(auto, using(crate::proofs::ActLemmas::by_none))]
fn by_of(line: &[u8]) -> Option<i64>
    ensures { result ≡ option_and_then acts.by_of (words_of line.now) }
{
    whole(only_word(line)?)
}

// The only word of a line as what comes in place of an item.
#[tactic(auto, using(crate::proofs::ActLemmas::mode_none))]
fn mode_of(line: &[u8]) -> Option<RemoveMode>
    ensures { result ≡ option_and_then acts.mode_of (words_of line.now) }
{
    remove_of(only_word(line)?)
}

// The clip that the words of a line behind `clip` say.
#[tactic(auto, using(crate::proofs::ActLemmas::clips))]
fn clip_of(alloc: Global, line: &[u8]) -> Result<Option<Put>, AllocError>
    ensures { IfOk result (λ put. put ≡ option_and_then acts.clip_words (words_of line.now)) }
{
    let Some((name, rest)) = next_word(line) else {
        return Ok(None);
    };
    let Some((reel, rest)) = next_word(rest) else {
        return Ok(None);
    };
    let Some((first, rest)) = next_word(rest) else {
        return Ok(None);
    };
    let Some(last) = only_word(rest) else {
        return Ok(None);
    };
    let Some(start) = count(first) else {
        return Ok(None);
    };
    let Some(length) = count(last) else {
        return Ok(None);
    };
    let Some(name) = text_of(alloc, name)? else {
        return Ok(None);
    };
    let Some(reel) = text_of(alloc, reel)? else {
        return Ok(None);
    };
    Ok(Some(Put::Clip {
        name,
        reel,
        start,
        length,
    }))
}

// The gap that the words of a line behind `gap` say.
#[tactic(auto, using(crate::proofs::ActLemmas::gaps))]
fn gap_of(line: &[u8]) -> Option<Put>
    ensures { result ≡ option_map Put.Gap (option_and_then acts.gap_words (words_of line.now)) }
{
    let Some(word) = only_word(line) else {
        return None;
    };
    match count(word) {
        Some(length) => Some(Put::Gap(length)),
        None => None,
    }
}

// What the words of a line put in.
#[tactic(auto, using(crate::proofs::ActLemmas::puts))]
fn put_of(alloc: Global, line: &[u8]) -> Result<Option<Put>, AllocError>
    ensures { IfOk result (λ put. put ≡ option_and_then acts.put_of (words_of line.now)) }
{
    let Some((word, rest)) = next_word(line) else {
        return Ok(None);
    };
    if is_word(word, b"gap") {
        return Ok(gap_of(rest));
    }
    if is_word(word, b"clip") {
        return clip_of(alloc, rest);
    }
    Ok(None)
}

// The fill and the item that the words of a line say.
#[tactic(auto, using(crate::proofs::ActLemmas::fillings))]
fn filling_of(alloc: Global, line: &[u8]) -> Result<Option<(FillMode, Put)>, AllocError>
    ensures { IfOk result
        (λ filling. filling ≡ option_and_then acts.filling_of (words_of line.now)) }
{
    let Some((word, rest)) = next_word(line) else {
        return Ok(None);
    };
    let Some(mode) = fill_of(word) else {
        return Ok(None);
    };
    match put_of(alloc, rest)? {
        Some(put) => Ok(Some((mode, put))),
        None => Ok(None),
    }
}

// The words of a line behind `overwrite PLACE AT`.
fn overwrite_of(alloc: Global, place: Place, at: i64, line: &[u8]) -> Said
    ensures { IfOk result
        (λ act. act ≡ option_and_then (acts.edit_of Verb.Overwrite place at) (words_of line.now)) }
{
    match put_of(alloc, line)? {
        Some(put) => Ok(Some(Act::Overwrite { place, at, put })),
        None => Ok(None),
    }
}

// The words of a line behind `insert PLACE AT`.
fn insert_of(alloc: Global, place: Place, at: i64, line: &[u8]) -> Said
    ensures { IfOk result
        (λ act. act ≡ option_and_then (acts.edit_of Verb.Insert place at) (words_of line.now)) }
{
    match put_of(alloc, line)? {
        Some(put) => Ok(Some(Act::Insert { place, at, put })),
        None => Ok(None),
    }
}

// The words of a line behind `slice PLACE AT`.
fn slice_of(place: Place, at: i64, line: &[u8]) -> Option<Act>
    ensures { result ≡ option_and_then (acts.edit_of Verb.Slice place at) (words_of line.now) }
{
    if has_ended(line) {
        Some(Act::Slice { place, at })
    } else {
        None
    }
}

// The words of a line behind `fill PLACE AT`.
fn fill_edit_of(alloc: Global, place: Place, at: i64, line: &[u8]) -> Said
    ensures { IfOk result
        (λ act. act ≡ option_and_then (acts.edit_of Verb.Fill place at) (words_of line.now)) }
{
    match filling_of(alloc, line)? {
        Some((mode, put)) => Ok(Some(Act::Fill {
            place,
            at,
            mode,
            put,
        })),
        None => Ok(None),
    }
}

// The words of a line behind `remove PLACE AT`.
fn removal_of(place: Place, at: i64, line: &[u8]) -> Option<Act>
    ensures { result ≡ option_and_then (acts.edit_of Verb.Remove place at) (words_of line.now) }
{
    match mode_of(line) {
        Some(mode) => Some(Act::Remove { place, at, mode }),
        None => None,
    }
}

// The words of a line behind `trim PLACE AT`.
fn trim_of(place: Place, at: i64, line: &[u8]) -> Option<Act>
    ensures { result ≡ option_and_then (acts.edit_of Verb.Trim place at) (words_of line.now) }
{
    match edges_of(line) {
        Some((head, tail)) => Some(Act::Trim {
            place,
            at,
            head,
            tail,
        }),
        None => None,
    }
}

// The words of a line behind `ripple PLACE AT`.
fn ripple_of(place: Place, at: i64, line: &[u8]) -> Option<Act>
    ensures { result ≡ option_and_then (acts.edit_of Verb.Ripple place at) (words_of line.now) }
{
    match edges_of(line) {
        Some((head, tail)) => Some(Act::Ripple {
            place,
            at,
            head,
            tail,
        }),
        None => None,
    }
}

// The words of a line behind `roll PLACE AT`.
fn roll_of(place: Place, at: i64, line: &[u8]) -> Option<Act>
    ensures { result ≡ option_and_then (acts.edit_of Verb.Roll place at) (words_of line.now) }
{
    match edges_of(line) {
        Some((head, tail)) => Some(Act::Roll {
            place,
            at,
            head,
            tail,
        }),
        None => None,
    }
}

// The words of a line behind `slip PLACE AT`.
fn slip_of(place: Place, at: i64, line: &[u8]) -> Option<Act>
    ensures { result ≡ option_and_then (acts.edit_of Verb.Slip place at) (words_of line.now) }
{
    match by_of(line) {
        Some(by) => Some(Act::Slip { place, at, by }),
        None => None,
    }
}

// The words of a line behind `slide PLACE AT`.
fn slide_of(place: Place, at: i64, line: &[u8]) -> Option<Act>
    ensures { result ≡ option_and_then (acts.edit_of Verb.Slide place at) (words_of line.now) }
{
    match by_of(line) {
        Some(by) => Some(Act::Slide { place, at, by }),
        None => None,
    }
}

// The edit of a word at a place, by the words of a line that follow.
fn edit_of(alloc: Global, verb: Verb, place: Place, at: i64, line: &[u8]) -> Said
    ensures { IfOk result
        (λ act. act ≡ option_and_then (acts.edit_of verb place at) (words_of line.now)) }
{
    match verb {
        Verb::Overwrite => overwrite_of(alloc, place, at, line),
        Verb::Insert => insert_of(alloc, place, at, line),
        Verb::Slice => Ok(slice_of(place, at, line)),
        Verb::Fill => fill_edit_of(alloc, place, at, line),
        Verb::Remove => Ok(removal_of(place, at, line)),
        Verb::Trim => Ok(trim_of(place, at, line)),
        Verb::Slip => Ok(slip_of(place, at, line)),
        Verb::Slide => Ok(slide_of(place, at, line)),
        Verb::Ripple => Ok(ripple_of(place, at, line)),
        Verb::Roll => Ok(roll_of(place, at, line)),
    }
}

// The edit of a word, by the words of a line that follow it.
#[tactic(auto, using(crate::proofs::ActLemmas::placings))]
fn placed_of(alloc: Global, verb: Verb, line: &[u8]) -> Said
    ensures { IfOk result
        (λ act. act ≡ option_and_then (acts.placed_of verb) (words_of line.now)) }
{
    let Some((first, rest)) = next_word(line) else {
        return Ok(None);
    };
    let Some((second, rest)) = next_word(rest) else {
        return Ok(None);
    };
    let Some(at) = whole(second) else {
        return Ok(None);
    };
    match place_of(alloc, first)? {
        Some(place) => edit_of(alloc, verb, place, at, rest),
        None => Ok(None),
    }
}

// The step of that word.
fn step_word(word: &[u8]) -> Option<Act>
    ensures { result ≡ meaning word.now acts.step_words }
{
    if is_word(word, b"undo") {
        return Some(Act::Undo);
    }
    if is_word(word, b"redo") {
        return Some(Act::Redo);
    }
    None
}

// The step of a word that is a line's only one.
fn step_of(word: &[u8], line: &[u8]) -> Option<Act>
    ensures { result ≡ option_and_then (acts.step_of word.now) (words_of line.now) }
{
    if has_ended(line) {
        step_word(word)
    } else {
        None
    }
}

/// What a line says.
#[tactic(auto, using(crate::proofs::ActLemmas::sayings))]
pub(crate) fn said_by(alloc: Global, line: &[u8]) -> Said
    ensures { IfOk result (λ act. act ≡ acts.said_by line.now) }
{
    let Some((word, rest)) = next_word(line) else {
        return Ok(None);
    };
    match verb_of(word) {
        Some(verb) => placed_of(alloc, verb, rest),
        None => Ok(step_of(word, rest)),
    }
}
