//! Timelines.

ghost use Rattle.std.specs.Prelude.{◌≡◌, ◌↔◌, ◌+◌, ◌≤◌, IsTrue, OnOk};
ghost use Rattle.std.specs.Option.{option_copied};
ghost use Rattle.otio_model.specs.Trees as trees;
ghost use Rattle.otio_model.specs.Patches.{IsFit, IsRoomFor, Takes, applied, goes, undoing};
ghost use Rattle.otio_model.specs.Timelines.{bare};

use crate::compositions::ItemOf;
use crate::lists::{Item, Stack};
use crate::patches::{Patch, Put};
use crate::place_walk::{children_at, replace_at};
use crate::places::Place;
use crate::reserve::Spare;
use json_value::Members;
use sequences::Text;
use std::alloc::{AllocError, Global};
use tick_time::Time;

/// A timeline (`Timeline.1`).
///
/// Besides the fields of its schema it keeps memory to spare. Contracts see that as the room that
/// it has, and compare two timelines by the word `bare`, which sets it aside.
pub struct Timeline {
    /// Metadata, kept as it is.
    pub metadata: Members,
    /// The timeline's name.
    pub name: Text,
    /// The time of the first frame; `None` for 0.
    pub global_start_time: Option<Time>,
    /// The root stack, whose children are the tracks, the last one topmost.
    pub tracks: Stack,
    /// All other members, in the order in which they were read.
    pub rest: Members,
    spare: Spare,
}

impl Timeline {
    /// The timeline of these fields. It takes no memory.
    pub fn of(
        alloc: Global,
        metadata: Members,
        name: Text,
        global_start_time: Option<Time>,
        tracks: Stack,
        rest: Members,
    ) -> Timeline
        ensures metadata { result.metadata ≡ metadata }
        ensures name { result.name ≡ name }
        ensures global_start_time { result.global_start_time ≡ global_start_time }
        ensures tracks { result.tracks ≡ tracks }
        ensures rest { result.rest ≡ rest }
    {
        Timeline {
            metadata,
            name,
            global_start_time,
            tracks,
            rest,
            spare: Spare::new(alloc),
        }
    }

    /// The item at a place. `None` exactly where the place is empty, an index is past the end or
    /// the way leads through an item without children.
    pub fn at(&self, place: &Place) -> Option<&Item>
        ensures { option_copied result ≡ trees.item_at place.now self.now.tracks.children }
    {
        match place.as_slice().split_first() {
            Some((first, rest)) => {
                let item = self.tracks.children.item(*first as usize)?;
                below(item, rest)
            }
            None => None,
        }
    }

    /// Whether a patch fits: its place leads to a track, and it takes out no more children than
    /// there are.
    #[tactic(auto, using(crate::proofs::Leads::fits_both, crate::proofs::Leads::fits_none))]
    pub fn fits(&self, patch: &Patch) -> bool
        ensures { IsTrue result ↔ IsFit patch.now self.now }
    {
        match self.at(&patch.place) {
            Some(item) => takes(item, patch),
            None => false,
        }
    }

    /// Makes the spare that the patch needs, and changes nothing else. An error comes where memory
    /// runs out.
    pub fn room(&mut self, patch: &Patch) -> Result<(), AllocError>
        requires fits { IsFit patch.now self.old }
        ensures room { OnOk result (IsRoomFor patch.now self.new) }
        ensures fits { IsFit patch.now self.new }
        ensures same { bare self.new ≡ bare self.old }
    {
        let Some(children) = children_at(&self.tracks.children, patch.place.as_slice()) else {
            unreachable!()
        };
        let long = children.len();
        match &patch.put {
            Put::Items { count, items } => self.spare.make(*count, long, items.len()),
            Put::Ranges(_) => Ok(()),
        }
    }

    /// Replaces children of the track that the patch leads to, and hands back the patch that undoes
    /// it. It takes no memory: what it needs is the spare that [`Timeline::room`] makes.
    pub fn apply(&mut self, patch: Patch) -> Patch
        requires fits { IsFit patch self.old }
        requires spare { IsRoomFor patch self.old }
        ensures undo { result ≡ undoing patch self.old }
        ensures new { bare self.new ≡ applied patch (bare self.old) }
    {
        let Patch { place, at, put } = patch;
        let put = replace_at(
            &mut self.tracks.children,
            place.as_slice(),
            at,
            put,
            &mut self.spare,
        );
        Patch { place, at, put }
    }
}

// How many children a patch takes out, or gives a source range.
fn taken(put: &Put) -> usize
    ensures { result ≡ goes put.now }
{
    match put {
        Put::Items { count, items: _ } => *count,
        Put::Ranges(ranges) => ranges.as_slice().len(),
    }
}

// Whether the patch takes out no more than so many children.
fn is_within(patch: &Patch, children: usize) -> bool
    ensures { IsTrue result ↔ (patch.now.at + goes patch.now.put ≤ children) }
{
    match patch.at.checked_add(taken(&patch.put)) {
        Some(end) => end <= children,
        None => false,
    }
}

// Whether an item is a track that has the children that the patch takes out.
#[tactic(auto, using(crate::proofs::Leads::takes_none))]
fn takes(item: &Item, patch: &Patch) -> bool
    ensures { IsTrue result ↔ Takes patch.now item.now }
{
    match item {
        ItemOf::Track(track) => is_within(patch, track.children.len()),
        _ => false,
    }
}

// What indexes lead to from an item, one level down for each.
fn below<'a>(item: &'a Item, place: &[u32]) -> Option<&'a Item>
    ensures { option_copied result ≡ trees.below place.now item.now }
{
    let Some((first, rest)) = place.split_first() else {
        return Some(item);
    };
    let child = item.children()?.item(*first as usize)?;
    below(child, rest)
}

// Drops are written out: a derived one is proved anew in each crate that drops such a value.

impl Drop for Timeline {
    fn drop(self) {
        let Timeline {
            metadata: _,
            name: _,
            global_start_time: _,
            tracks: _,
            rest: _,
            spare: _,
        } = self;
    }
}
