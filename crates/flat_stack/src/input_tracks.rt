//! The tracks of all inputs, each once.

ghost use Rattle.std.specs.Prelude.{◌≡◌, ◌+◌, ◌<◌, ◌++◌, [], filter, IfOk, length, List, nat_le};
ghost use Rattle.std.specs.Prelude.{OnOk, slice_get, Some, take};
ghost use Rattle.coord.specs.Programs as programs;
ghost use Rattle.flat.specs.Joined as joined;
ghost use Rattle.flat_stack.specs.declared.inputs.Part.{Part as AnyPart};
ghost use Rattle.flat_stack.specs.Inputs.{AreParts, HasMost, lists_of, most_at, slots_of};

use crate::inputs::{Part, Seat};
use std::alloc::{AllocError, Global};
use std::collections::BTreeMap;

/// The greatest number of tracks of each kind that one of some inputs has.
type Most<'a> = BTreeMap<&'a str, usize>;

/// The input of an index that isn't past the end.
#[tactic(auto, using(crate::proofs::RunLemmas::at_index))]
pub(crate) fn part_at<'b, 'a>(parts: &'b [Part<'a>], index: usize) -> &'b Part<'a>
    requires { index < length parts.now }
    ensures { slice_get parts.now index ≡ Some result.now }
{
    &parts[index]
}

/// The seat of an index that isn't past the end.
#[tactic(auto, using(crate::proofs::RunLemmas::at_index))]
pub(crate) fn seat_at<'a>(seats: &[Seat<'a>], index: usize) -> Seat<'a>
    requires { index < length seats.now }
    ensures { slice_get seats.now index ≡ Some result }
{
    seats[index]
}

// The greatest number of tracks of a kind; 0 where none is known.
fn most_of<'a>(most: &Most<'a>, kind: &str) -> usize
    ensures { result ≡ most_at kind.now most.now }
{
    match most.get(kind) {
        Some(count) => *count,
        None => 0,
    }
}

// Whether no input so far has a track of a seat's kind and index.
fn is_new<'a>(most: &Most<'a>, seat: Seat<'a>) -> bool
    ensures { result ≡
        nat_le (most_at (programs.kind_of seat.entry.first.now) most.now) seat.entry.index }
{
    most_of(most, seat.first.root_kind()) <= seat.index
}

// Adds the tracks of an input that none before it has, and counts them. A new one is one more of
// its kind than any input before it has.
fn add_new<'a>(
    parts: &[Part<'a>],
    at: usize,
    most: &mut Most<'a>,
    all: &mut Vec<Seat<'a>>,
) -> Result<(), AllocError>
    requires parts { AreParts parts.now }
    requires there { at < length parts.now }
    requires most { HasMost most.old (take at (lists_of parts.now)) }
    ensures added { OnOk result ((part : AnyPart) → slice_get parts.now at ≡ Some part →
        slots_of all.new.items ≡ slots_of all.old.items ++
        filter (joined.is_new (take at (lists_of parts.now))) (slots_of part.seats.items)) }
    ensures most { OnOk result (HasMost most.new (take (at + 1) (lists_of parts.now))) }
{
    let seats = part_at(parts, at).seats.as_slice();
    'seats: for index in 0..seats.len() {
        let seat = seat_at(seats, index);
        if is_new(most, seat) {
            most.insert(seat.first.root_kind(), seat.index + 1)?;
            all.push(seat)?;
        }
    }
    Ok(())
}

/// The tracks of all inputs, in the order of their first input and place.
pub(crate) fn all_seats<'a>(alloc: Global, parts: &[Part<'a>]) -> Result<Vec<Seat<'a>>, AllocError>
    requires parts { AreParts parts.now }
    ensures { IfOk result (λ all. slots_of all.items ≡ joined.slots [] (lists_of parts.now)) }
{
    let mut most: Most<'a> = BTreeMap::new(alloc);
    let mut all: Vec<Seat<'a>> = Vec::new(alloc);
    'parts: for index in 0..parts.len() {
        add_new(parts, index, &mut most, &mut all)?;
    }
    Ok(all)
}
