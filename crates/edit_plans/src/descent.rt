//! The way down from a root child to a place.

ghost use Rattle.std.specs.Prelude.{◌≡◌, ◌+◌, ◌<◌, ◌≤◌, ◌^◌, drop, length};
ghost use Rattle.otio_model.specs.Counts.{count, count_of};
ghost use Rattle.coord.specs.Sights.{exact};
ghost use Rattle.coord.specs.Soundness.{IsFaultless, IsFaultlessItem};
ghost use Rattle.edits_law.specs.Down as depths;
ghost use Rattle.edit_plans.specs.Way.{IsNear};

use crate::child_at::{is_within, ticks_of};
use crate::items::{child_of, in_child, inner, is_open};
use otio_model::{Item, Place, Timeline};

// The instant that an item's instant reaches in the composition at what is left of a place from a
// level on.
fn down_from(item: &Item, kind: &str, place: &Place, level: usize, ticks: i128) -> Option<i128>
    requires few { count_of item.now < 2 ^ 32 }
    requires deep { level + count_of item.now ≤ 2 ^ 32 }
    requires sound { IsFaultlessItem item.now }
    requires near { IsNear ticks }
    requires left { level ≤ length place.now }
    ensures { result ≡ depths.down_from (exact kind.now) (drop level place.now) item.now ticks }
{
    if !is_open(item, kind) {
        return None;
    }
    let at = inner(item, ticks);
    match place.index(level) {
        None => Some(at),
        Some(index) => match child_of(item, index as usize) {
            None => None,
            Some(child) => match in_child(item, index as usize, at) {
                None => None,
                Some(ticks) => down_from(child, kind, place, level + 1, ticks),
            },
        },
    }
}

// The same from a root child; `None` also where the instant lies outside it.
fn down_in(item: &Item, place: &Place, ticks: i128) -> Option<i128>
    requires few { count_of item.now < 2 ^ 32 }
    requires sound { IsFaultlessItem item.now }
    requires left { 1 ≤ length place.now }
    ensures { result ≡ depths.down_in (drop 1 place.now) ticks item.now }
{
    if is_within(ticks, ticks_of(item)) {
        return down_from(item, item.root_kind(), place, 1, ticks);
    }
    None
}

/// The instant, in ticks, that an instant of a root child reaches in the composition at a place:
/// the child is the one that the place's first index names. `None` exactly where the instant lies
/// outside that child, something on the way is disabled or of another kind of track, or doesn't
/// ask the item below it there, or no composition stands at the place. It takes no memory.
pub fn down(timeline: &Timeline, place: &Place, ticks: i128) -> Option<i128>
    requires few { count timeline.now.tracks.children < 2 ^ 32 }
    requires sound { IsFaultless timeline.now }
    ensures { result ≡ depths.down timeline.now place.now ticks }
{
    match place.index(0) {
        None => None,
        Some(first) => match timeline.tracks.children.item(first as usize) {
            None => None,
            Some(item) => down_in(item, place, ticks),
        },
    }
}
