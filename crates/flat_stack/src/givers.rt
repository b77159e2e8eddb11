//! Which inputs give something to a joined track.

ghost use Rattle.std.specs.Prelude.{◌≡◌, ◌≤◌, drop, IfOk, length};
ghost use Rattle.std.specs.List.Sorted.{IsNonDecreasing};
ghost use Rattle.flat_stack.specs.Inputs.{AreParts, children_from, slot_of};
ghost use Rattle.flat_stack.specs.Givers as givers;
ghost use Rattle.flat_stack.specs.Givers.{AreGivers, first_from, places};

use crate::input_tracks::part_at;
use crate::inputs::{Part, Seat, number_at};
use crate::owners::{Owners, owners_of, owning};
use std::alloc::{AllocError, Global};

/// The inputs, and what tells which of them give something to a joined track.
#[derive(Drop)]
pub(crate) struct Givers<'b, 'a> {
    pub(crate) parts: &'b [Part<'a>],
    /// Those that have a track.
    owners: Owners<'a>,
    /// Those with a length, after which a gap may stand.
    longs: Vec<usize>,
}

// Whether an input has a length.
fn is_long<'a>(part: &Part<'a>) -> bool
    ensures { result ≡ givers.is_long part.now }
{
    part.stretch > 0
}

// The inputs that have a length.
fn long_inputs<'a>(alloc: Global, parts: &[Part<'a>]) -> Result<Vec<usize>, AllocError>
    ensures { IfOk result (λ longs. longs.items ≡ places givers.is_long 0 parts.now) }
{
    let mut longs: Vec<usize> = Vec::new(alloc);
    'parts: for index in 0..parts.len() {
        if is_long(part_at(parts, index)) {
            longs.push(index)?;
        }
    }
    Ok(longs)
}

/// The inputs, and what tells which of them give something to a joined track.
pub(crate) fn givers_of<'b, 'a>(
    alloc: Global,
    parts: &'b [Part<'a>],
) -> Result<Givers<'b, 'a>, AllocError>
    requires { AreParts parts.now }
    ensures givers { IfOk result AreGivers }
    ensures parts { IfOk result (λ found. found.parts.now ≡ parts.now) }
{
    let owners = owners_of(alloc, parts)?;
    let longs = long_inputs(alloc, parts)?;
    Ok(Givers {
        parts,
        owners,
        longs,
    })
}

// The first of some rising numbers that isn't before one; where there is none, another.
fn place_from(numbers: &[usize], at: usize, all: usize) -> usize
    requires { IsNonDecreasing numbers.now }
    ensures { result ≡ first_from at all numbers.now }
{
    let from = numbers.partition_point(|number| *number < at);
    if from < numbers.len() {
        return number_at(numbers, from);
    }
    all
}

/// The first input from one on that may give something to the track of a seat, or a gap after it;
/// where there is none, the number of all.
pub(crate) fn next_giver<'b, 'a>(givers: &Givers<'b, 'a>, seat: Seat<'a>, at: usize) -> usize
    requires givers { AreGivers givers.now }
    requires there { at ≤ length givers.now.parts.now }
    ensures low { at ≤ result }
    ensures same { children_from (slot_of seat.entry) (drop at givers.now.parts.now) ≡
        children_from (slot_of seat.entry) (drop result givers.now.parts.now) }
{
    let all = givers.parts.len();
    let own = place_from(owning(&givers.owners, seat), at, all);
    let long = place_from(givers.longs.as_slice(), at, all);
    own.min(long)
}
