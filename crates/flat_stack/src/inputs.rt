//! Inputs with their tracks by kind.

ghost use Rattle.std.specs.Prelude.{◌≡◌, ◌<◌, ◌^◌, ◌++◌, ◌∷◌, [], filter, IfOk, length, List, None};
ghost use Rattle.std.specs.Prelude.{slice_get, Some, true};
ghost use Rattle.tick_time.specs.Rates.{frame};
ghost use Rattle.otio_model.specs.declared.compositions.ItemOf.{ItemOf as AnyItemOf};
ghost use Rattle.otio_model.specs.declared.compositions.Listed.{Listed};
ghost use Rattle.otio_model.specs.Counts.{count};
ghost use Rattle.otio_model.specs.Trees.{items_of};
ghost use Rattle.coord.specs.Programs as programs;
ghost use Rattle.coord.specs.Soundness.{AreFaultless};
ghost use Rattle.flat.specs.Joined as joined;
ghost use Rattle.flat.specs.Roots as roots;
ghost use Rattle.flat.specs.Roots.{ArePlainTracks};
ghost use Rattle.flat_stack.specs.Inputs.{IsPreparedInput, Knows, Updates, held, numbers_at};
ghost use Rattle.flat_stack.specs.Inputs.{positions};

use crate::lengths::stretch_of;
use otio_model::{Children, Item, Timeline};
use std::alloc::{AllocError, Global};
use std::collections::BTreeMap;
use tick_time::Rate;

/// The numbers of an input's tracks among its root children, by their kind and in their order.
pub(crate) type Tracks<'a> = BTreeMap<&'a str, Vec<usize>>;

/// A track of an input, and how many of its kind stand before it there.
#[derive(Clone, Copy)]
pub(crate) struct Seat<'a> {
    pub(crate) first: &'a Item,
    pub(crate) index: usize,
}

/// An input, and what is kept of it.
#[derive(Drop)]
pub(crate) struct Part<'a> {
    pub(crate) input: &'a Timeline,
    pub(crate) tracks: Tracks<'a>,
    /// Its tracks in their order.
    pub(crate) seats: Vec<Seat<'a>>,
    /// How long it is when others follow, in ticks.
    pub(crate) stretch: i128,
}

/// The number of an index that isn't past the end.
#[tactic(auto, using(crate::proofs::RunLemmas::at_index))]
pub(crate) fn number_at(numbers: &[usize], index: usize) -> usize
    requires { index < length numbers.now }
    ensures { slice_get numbers.now index ≡ Some result }
{
    numbers[index]
}

/// The number of the track of a kind that has so many of its kind before it.
pub(crate) fn track_at<'a>(tracks: &Tracks<'a>, kind: &str, index: usize) -> Option<usize>
    ensures { (l : List (AnyItemOf Listed)) → Knows tracks.now l →
        result ≡ slice_get (positions kind.now 0 l) index }
{
    match tracks.get(kind) {
        Some(of_kind) => {
            if index < of_kind.len() {
                return Some(number_at(of_kind.as_slice(), index));
            }
            None
        }
        None => None,
    }
}

// Takes the numbers of a kind out.
fn taken<'a>(alloc: Global, tracks: &mut Tracks<'a>, kind: &str) -> Vec<usize>
    ensures value { held (Some result) ≡ numbers_at kind.now tracks.old }
    ensures gone { Updates kind.now None tracks.old tracks.new }
{
    match tracks.remove(kind) {
        Some(of_kind) => of_kind,
        None => Vec::new(alloc),
    }
}

// Adds a track of a number after those of its kind, and says how many these are.
fn add_track<'a>(
    alloc: Global,
    tracks: &mut Tracks<'a>,
    item: &'a Item,
    number: usize,
) -> Result<usize, AllocError>
    requires { roots.is_track item.now ≡ true }
    ensures { IfOk result (λ index. (l : List (AnyItemOf Listed)) → Knows tracks.old l →
        number ≡ length l → (index ≡ length (filter (roots.is_of (programs.kind_of item.now)) l)) ×
        Knows tracks.new (l ++ item.now ∷ [])) }
{
    let kind = item.root_kind();
    let mut of_kind = taken(alloc, tracks, kind);
    let index = of_kind.len();
    of_kind.push(number)?;
    tracks.insert(kind, of_kind)?;
    Ok(index)
}

/// An input of plain tracks, with its tracks by kind.
pub(crate) fn part_of<'a>(
    alloc: Global,
    input: &'a Timeline,
    rate: Rate,
) -> Result<Part<'a>, AllocError>
    requires plain { ArePlainTracks (roots.roots input.now) }
    requires few { count input.now.tracks.children < 2 ^ 32 }
    requires faultless { AreFaultless input.now.tracks.children }
    ensures part { IfOk result IsPreparedInput }
    ensures input { IfOk result (λ part. part.input.now ≡ input.now) }
    ensures stretch { IfOk result (λ part. part.stretch ≡
        joined.stretch (frame rate.num rate.den) (roots.roots input.now)) }
{
    let children = &input.tracks.children;
    let mut tracks: Tracks<'a> = BTreeMap::new(alloc);
    let mut seats: Vec<Seat<'a>> = Vec::new(alloc);
    'children: for number in 0..children.len() {
        let first = children.child(number);
        let index = add_track(alloc, &mut tracks, first, number)?;
        seats.push(Seat { first, index })?;
    }
    Ok(Part {
        input,
        tracks,
        seats,
        stretch: stretch_of(children, rate),
    })
}
