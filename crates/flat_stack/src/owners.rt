//! Which inputs have a track.

ghost use Rattle.std.specs.Prelude.{◌≡◌, ◌<◌, ◌+◌, ◌++◌, ◌==◌, ◌&&◌, ◌∷◌, [], cond, IfOk, length};
ghost use Rattle.std.specs.Prelude.{List, None, OnOk, Some, take, ℕ};
ghost use Rattle.std.specs.Str.{bytes_eq};
ghost use Rattle.coord.specs.Programs as programs;
ghost use Rattle.flat_stack.specs.Inputs.{AreParts};
ghost use Rattle.flat_stack.specs.Givers.{HasOwners, Replaces, row, rows_at, rows_of};

use crate::input_tracks::{part_at, seat_at};
use crate::inputs::{Part, Seat};
use std::alloc::{AllocError, Global};
use std::collections::BTreeMap;

/// The inputs that have a track of a kind, by how many of the kind stand before it.
type Rows = Vec<Vec<usize>>;

/// The inputs that have a track, by its kind.
pub(crate) type Owners<'a> = BTreeMap<&'a str, Rows>;

// Takes the rows of a kind out.
fn rows_taken<'a>(alloc: Global, owners: &mut Owners<'a>, kind: &str) -> Rows
    ensures value { rows_of (Some result) ≡ rows_at kind.now owners.old }
    ensures gone { Replaces kind.now None owners.old owners.new }
{
    match owners.remove(kind) {
        Some(rows) => rows,
        None => Vec::new(alloc),
    }
}

// Adds empty rows up to an index.
fn add_rows(alloc: Global, rows: &mut Rows, index: usize) -> Result<(), AllocError>
    ensures same { OnOk result ((n : ℕ) → row rows.new.items n ≡ row rows.old.items n) }
    ensures there { OnOk result (index < length rows.new.items) }
{
    'rows: while rows.len() <= index {
        rows.push(Vec::new(alloc))?;
    }
    Ok(())
}

// Adds an input to the row of an index.
fn add_to_row(alloc: Global, rows: &mut Rows, index: usize, input: usize) -> Result<(), AllocError>
    ensures { OnOk result ((n : ℕ) → row rows.new.items n ≡
        row rows.old.items n ++ cond (n == index) (input ∷ []) []) }
{
    add_rows(alloc, rows, index)?;
    rows[index].push(input)?;
    Ok(())
}

// Adds an input to those that have a track.
fn add_owner<'a>(
    alloc: Global,
    owners: &mut Owners<'a>,
    seat: Seat<'a>,
    input: usize,
) -> Result<(), AllocError>
    ensures { OnOk result ((kind : List ℕ) (n : ℕ) → row (rows_at kind owners.new) n ≡
        row (rows_at kind owners.old) n ++ cond
        (bytes_eq (programs.kind_of seat.entry.first.now) kind && (n == seat.entry.index))
        (input ∷ []) []) }
{
    let kind = seat.first.root_kind();
    let mut rows = rows_taken(alloc, owners, kind);
    add_to_row(alloc, &mut rows, seat.index, input)?;
    owners.insert(kind, rows)?;
    Ok(())
}

// Adds the input of an index to those that have its tracks.
fn add_input<'a>(
    alloc: Global,
    parts: &[Part<'a>],
    at: usize,
    owners: &mut Owners<'a>,
) -> Result<(), AllocError>
    requires parts { AreParts parts.now }
    requires there { at < length parts.now }
    requires owners { HasOwners owners.old (take at parts.now) }
    ensures { OnOk result (HasOwners owners.new (take (at + 1) parts.now)) }
{
    let seats = part_at(parts, at).seats.as_slice();
    'seats: for index in 0..seats.len() {
        add_owner(alloc, owners, seat_at(seats, index), at)?;
    }
    Ok(())
}

/// The inputs that have each track, in their order.
pub(crate) fn owners_of<'a>(alloc: Global, parts: &[Part<'a>]) -> Result<Owners<'a>, AllocError>
    requires { AreParts parts.now }
    ensures { IfOk result (λ owners. HasOwners owners parts.now) }
{
    let mut owners: Owners<'a> = BTreeMap::new(alloc);
    'parts: for index in 0..parts.len() {
        add_input(alloc, parts, index, &mut owners)?;
    }
    Ok(owners)
}

// The numbers in the row of an index; none where it isn't there.
fn row_of(rows: &Rows, index: usize) -> &[usize]
    ensures { result.now ≡ row rows.now.items index }
{
    if index < rows.len() {
        return rows[index].as_slice();
    }
    &[]
}

/// The inputs that have the track of a seat.
pub(crate) fn owning<'b, 'a>(owners: &'b Owners<'a>, seat: Seat<'a>) -> &'b [usize]
    ensures { result.now ≡
        row (rows_at (programs.kind_of seat.entry.first.now) owners.now) seat.entry.index }
{
    match owners.get(seat.first.root_kind()) {
        Some(rows) => row_of(rows, seat.index),
        None => &[],
    }
}
