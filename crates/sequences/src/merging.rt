//! Pairs of a name and a value, merged by their names.

ghost use Rattle.std.specs.Prelude.{◌≡◌, ◌<◌, ℕ, List, [], length, IfOk, IsOk, IsTrue, OnErr, OnOk};
ghost use Rattle.sequences.specs.Pairs.{merged, names_of, put};
ghost use Rattle.sequences.specs.Known.{Knows};
ghost use Rattle.sequences.specs.Places as at;
ghost use Rattle.sequences.specs.Hashes.{hash_of};
ghost use Rattle.std.specs.List.Sorted.{IsStrictlyIncreasing};

use crate::texts::Text;
use std::alloc::{AllocError, Global};
use std::collections::BTreeMap;

/// As many pairs are compared each with each; more are looked up in a map.
const FEW: usize = 16;

/// Where the first pair of that name stands, and the number of the pairs where none has the name.
pub(crate) fn place_of<T>(pairs: &[(Text, T)], name: &str) -> usize
    ensures { result ≡ at.place_of name.now (names_of pairs.now) }
{
    for (index, pair) in pairs.iter().enumerate() {
        if name == pair.0.as_str() {
            return index;
        }
    }
    pairs.len()
}

/// The pairs with distinct names: the value of a later pair of a name replaces that of the first
/// pair, in its place.
pub(crate) fn merge<T: Drop>(
    alloc: Global,
    pairs: Vec<(Text, T)>,
) -> Result<Vec<(Text, T)>, AllocError>
    ensures { IfOk result (λ made. made.items ≡ merged pairs.items) }
{
    if pairs.len() <= FEW && are_distinct(pairs.as_slice()) {
        return Ok(pairs);
    }
    if pairs.len() > FEW && have_distinct_hashes(alloc, pairs.as_slice())? {
        return Ok(pairs);
    }
    let (places, count) = places_of(alloc, pairs.as_slice())?;
    if count == pairs.len() {
        return Ok(pairs);
    }
    placed(alloc, pairs, places.as_slice(), count)
}

// Whether no name stands twice, by comparing each with those before it.
fn are_distinct<T>(pairs: &[(Text, T)]) -> bool
    ensures { IsTrue result → merged pairs.now ≡ pairs.now }
{
    for (index, pair) in pairs.iter().enumerate() {
        if place_of(&pairs[..index], pair.0.as_str()) < index {
            return false;
        }
    }
    true
}

// Whether the hashes of the names are distinct, and so the names too.
fn have_distinct_hashes<T>(alloc: Global, pairs: &[(Text, T)]) -> Result<bool, AllocError>
    ensures { IfOk result (λ distinct. IsTrue distinct → merged pairs.now ≡ pairs.now) }
{
    let mut hashes = Vec::with_capacity(alloc, pairs.len())?;
    for pair in pairs {
        hashes.push(hash_of(pair.0.as_str().as_bytes()))?;
    }
    hashes.sort_unstable();
    Ok(is_rising(hashes.as_slice()))
}

// A hash of the bytes.
fn hash_of(bytes: &[u8]) -> u64
    ensures { result ≡ hash_of bytes.now }
{
    let mut hash: u64 = 0xCBF2_9CE4_8422_2325;
    for byte in bytes {
        hash ^= u64::from(*byte);
        hash = hash.wrapping_mul(0x0000_0100_0000_01B3);
    }
    hash
}

// Whether each number is above the one before it.
fn is_rising(numbers: &[u64]) -> bool
    ensures { IsTrue result → IsStrictlyIncreasing numbers.now }
{
    let mut at = 1;
    while at < numbers.len() {
        if numbers[at] <= numbers[at - 1] {
            return false;
        }
        at += 1;
    }
    true
}

// The place of each name among the distinct names, and how many of these there are.
fn places_of<T>(alloc: Global, pairs: &[(Text, T)]) -> Result<(Vec<usize>, usize), AllocError>
    ensures places { IfOk result (λ made. made.0.items ≡ at.places_in [] (names_of pairs.now)) }
    ensures count { IfOk result (λ made. made.1 ≡ length (at.add_names [] (names_of pairs.now))) }
{
    let mut known: BTreeMap<&str, usize> = BTreeMap::new(alloc);
    let mut found = Vec::with_capacity(alloc, pairs.len())?;
    for pair in pairs {
        let place = place_in(&mut known, pair.0.as_str())?;
        found.push(place)?;
    }
    Ok((found, known.len()))
}

// The place of a name among those that are known by then, where a new one is added.
fn place_in<'a>(known: &mut BTreeMap<&'a str, usize>, name: &'a str) -> Result<usize, AllocError>
    ensures { IfOk result (λ place. (names : List (List ℕ)) → Knows known.old names
        → (place ≡ at.place_of name.now names) × Knows known.new (at.add_name name.now names)) }
{
    let place = known.len();
    match known.insert(name, place)? {
        None => Ok(place),
        Some(first) => {
            known.insert(name, first)?;
            Ok(first)
        }
    }
}

/// Puts a value at a name whose place is known: in the place of the value that is there, and else
/// at the end.
pub(crate) fn put_at<T: Drop>(
    pairs: &mut Vec<(Text, T)>,
    place: usize,
    name: Text,
    value: T,
) -> Result<(), AllocError>
    requires { place ≡ at.place_of name (names_of pairs.old.items) }
    ensures put { OnOk result (pairs.new.items ≡ put name value pairs.old.items) }
    ensures replaces { place < length pairs.old.items → IsOk result }
    ensures unchanged { OnErr result (pairs.new.items ≡ pairs.old.items) }
{
    if place < pairs.len() {
        let pair = &mut pairs[place];
        pair.1 = value;
    } else {
        pairs.push((name, value))?;
    }
    Ok(())
}

// The pairs, each put in its place.
fn placed<T: Drop>(
    alloc: Global,
    pairs: Vec<(Text, T)>,
    places: &[usize],
    count: usize,
) -> Result<Vec<(Text, T)>, AllocError>
    requires { places.now ≡ at.places_in [] (names_of pairs.items) }
    ensures { IfOk result (λ made. made.items ≡ merged pairs.items) }
{
    let mut kept: Vec<(Text, T)> = Vec::with_capacity(alloc, count)?;
    for (index, (name, value)) in pairs.into_iter().enumerate() {
        put_at(&mut kept, places[index], name, value)?;
    }
    Ok(kept)
}
