//! Numbers and places, each of one word.

ghost use Rattle.std.specs.Prelude.{◌≡◌, ◌<◌, pos, IfSome, IfOk, option_map};
ghost use Rattle.edit_script.specs.Numbers as numbers;

use otio_model::Place;
use std::alloc::{AllocError, Global};
use text_lines::{after, are_within, before, first_byte};
use tick_time::number_of;

/// How many digits a number has at most.
const NUMBER_DIGITS: usize = 15;

// Whether each byte is a digit.
#[tactic(auto, using(crate::proofs::Figures::all_digits))]
fn are_digits(bytes: &[u8]) -> bool
    ensures { result ≡ numbers.are_digits bytes.now }
{
    are_within(bytes, b'0', b'9')
}

// Whether the first of several bytes isn't `0`, and there is one.
fn is_unpadded(bytes: &[u8]) -> bool
    ensures { result ≡ numbers.is_unpadded bytes.now }
{
    match bytes {
        [] => false,
        [_] => true,
        [first, ..] => *first != b'0',
    }
}

// Whether a word is a number without a sign.
fn is_natural(word: &[u8]) -> bool
    ensures { result ≡ numbers.is_natural word.now }
{
    word.len() <= NUMBER_DIGITS && are_digits(word) && is_unpadded(word)
}

/// The number that a word is: `0`, or one to fifteen digits of which the first isn't `0`; none
/// where the word is something else.
#[tactic(auto, using(crate::proofs::Figures::naturals))]
pub fn natural(word: &[u8]) -> Option<u64>
    ensures value { result ≡ numbers.natural word.now }
    ensures small { IfSome result (λ n. n < 1000000000000000) }
{
    if is_natural(word) {
        Some(number_of(word))
    } else {
        None
    }
}

/// The number that a word is, as [`natural`] reads it, as a signed one that isn't negative; none
/// where the word is something else.
pub fn count(word: &[u8]) -> Option<i64>
    ensures { result ≡ option_map pos (numbers.natural word.now) }
{
    match natural(word) {
        Some(number) => Some(number as i64),
        None => None,
    }
}

/// The whole number that a word is: a number, or `-` and a number that isn't 0; none where the word
/// is something else.
pub fn whole(word: &[u8]) -> Option<i64>
    ensures { result ≡ numbers.whole word.now }
{
    match word {
        [] => None,
        [b'-', digits @ ..] => negative(digits),
        _ => count(word),
    }
}

// The number behind `-`.
fn negative(digits: &[u8]) -> Option<i64>
    ensures { result ≡ numbers.negative (numbers.natural digits.now) }
{
    match natural(digits) {
        Some(0) => None,
        Some(number) => Some(-(number as i64)),
        None => None,
    }
}

// The index that a word is: a number below 2^32; none where the word is something else.
fn index(word: &[u8]) -> Option<u32>
    ensures { result ≡ numbers.index word.now }
{
    match natural(word) {
        Some(number) => {
            if number < 4_294_967_296 {
                Some(number as u32)
            } else {
                None
            }
        }
        None => None,
    }
}

/// The place that a word is: one index or more, with `/` between; none where the word is something
/// else. The error comes where memory runs out.
#[tactic(auto, using(crate::proofs::PlaceLemmas::parts))]
pub fn place_of(alloc: Global, word: &[u8]) -> Result<Option<Place>, AllocError>
    ensures { IfOk result (λ place. place ≡ numbers.place word.now) }
{
    let mut place = Place::new(alloc);
    let mut rest = word;
    'parts: while let Some(end) = first_byte(rest, b'/') {
        let Some(index) = index(before(rest, end)) else {
            return Ok(None);
        };
        place.push(index)?;
        rest = after(rest, end + 1);
    }
    let Some(index) = index(rest) else {
        return Ok(None);
    };
    place.push(index)?;
    Ok(Some(place))
}
