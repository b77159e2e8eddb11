//! Children of a track as they stand, with what stands beside them.

ghost use Rattle.std.specs.Prelude.{◌≡◌, ◌<◌, ◌≤◌, ◌^◌, ℤ, pos, length, IfSome};
ghost use Rattle.limits.specs.Limits.{most_ticks};
ghost use Rattle.otio_model.specs.Counts.{count};
ghost use Rattle.otio_model.specs.Lengths.{added, lengths, start_of};
ghost use Rattle.otio_model.specs.Trees.{items_of};
ghost use Rattle.coord.specs.Sights as sights;
ghost use Rattle.coord.specs.Soundness.{AreFaultless};
ghost use Rattle.edl_frames.specs.Seats as seats;
ghost use Rattle.edl_conform.specs.Stated.{stated_past};
ghost use Rattle.edl_conform.specs.Seated.{IsCarried, IsOpenPast, IsPast, IsSeatAt, IsSeated, IsShort, IsShortSeat};

use crate::list_settings::Job;
use crate::overlaps::{end_or, lap_at, overlap_of};
use otio_model::{Children, Item};
use sequences::Text;

/// An overlap that isn't empty, in ticks of the track.
#[derive(Clone, Copy)]
pub(crate) struct Lap<'a> {
    /// The type of its transition.
    pub(crate) kind: &'a Text,
    pub(crate) begin: i128,
    pub(crate) end: i128,
}

/// An item, and where it starts, in ticks of the track.
#[derive(Clone, Copy)]
pub(crate) struct ItemAt<'a> {
    pub(crate) item: &'a Item,
    pub(crate) start: i128,
}

/// What stands before a child of a track: the nearest item, the overlap between it and the child,
/// and where an overlap may begin at the earliest.
#[derive(Clone, Copy)]
pub struct Past<'a> {
    pub(crate) item: Option<ItemAt<'a>>,
    pub(crate) lap: Option<Lap<'a>>,
    pub(crate) low: i128,
}

/// A child of a track as it stands.
#[derive(Clone, Copy)]
pub struct ChildContext<'a> {
    /// The child.
    pub item: &'a Item,
    /// Where it starts, in ticks of the track.
    pub start: i128,
    /// Where it ends, in ticks of the track.
    pub end: i128,
    /// What stands before it.
    pub past: Past<'a>,
    /// The next child.
    pub next: Option<&'a Item>,
}

impl<'a> Past<'a> {
    /// Nothing stands before the first child, and no overlap begins before it.
    pub fn head() -> Past<'a>
        ensures past { stated_past result ≡ seats.head }
        ensures range { (ticks : ℤ) → IsPast ticks result }
    {
        Past {
            item: None,
            lap: None,
            low: 0,
        }
    }
}

impl<'a> ChildContext<'a> {
    /// The child at an index, where the children before it end at `start` and this stands before
    /// it.
    pub fn at(children: &'a Children, index: usize, start: i128, past: Past<'a>) -> ChildContext<'a>
        requires few { count children.now < 2 ^ 32 }
        requires sound { AreFaultless children.now }
        requires fits { added (lengths children.now) ≤ most_ticks }
        requires there { index < length (items_of children.now) }
        requires start { start ≡ pos (start_of children.now index) }
        ensures seat { IsSeatAt children.now index past.entry result }
        ensures seated { IsSeated result }
    {
        let item = children.child(index);
        ChildContext {
            item,
            start,
            end: start + item.length_or_zero(),
            past,
            next: children.item(index + 1),
        }
    }

    /// What stands before the next child, where this one is carried.
    pub fn past_after(&self, job: &Job<'_>) -> Past<'a>
        requires seated { IsSeated self.now }
        requires past { IsPast job.now.ticks self.now.past }
        requires carried { IsCarried job.now self.now }
        ensures past { stated_past result ≡ seats.past_by (sights.overlap_of self.now.item.now)
            self.now.item.now self.now.start (stated_past self.now.past) }
        ensures range { IsPast job.now.ticks result }
    {
        self.past_behind()
    }

    /// What stands before the next child, also where this one isn't carried.
    pub(crate) fn past_behind(&self) -> Past<'a>
        requires seated { IsSeated self.now }
        requires past { IsOpenPast self.now.past }
        ensures past { stated_past result ≡ seats.past_by (sights.overlap_of self.now.item.now)
            self.now.item.now self.now.start (stated_past self.now.past) }
        ensures range { IsOpenPast result }
        ensures short { (ticks : ℤ) → IsShortSeat ticks self.now
            → IfSome result.lap (IsShort ticks) }
    {
        match overlap_of(self.item) {
            Some(overlap) => Past {
                item: self.past.item,
                lap: lap_at(self.start, overlap),
                low: self.past.low,
            },
            None => Past {
                item: Some(ItemAt {
                    item: self.item,
                    start: self.start,
                }),
                lap: None,
                low: end_or(self.past.lap, self.start),
            },
        }
    }
}
