//! The track of an edit, and the rate at which it counts.

ghost use Rattle.std.specs.Prelude.{◌≡◌, ◌<◌, ◌^◌, ◌≤ℤ◌, None, Some, length, pos};
ghost use Rattle.std.specs.Prelude.{option_and_then, option_copied};
ghost use Rattle.otio_model.specs.declared.edit_types.Edit.{Edit as AnyEdit};
ghost use Rattle.otio_model.specs.declared.timelines.Timeline.{Timeline as AnyTimeline};
ghost use Rattle.otio_model.specs.Edits.{list_at};
ghost use Rattle.otio_model.specs.Trees.{children_of, item_at, items_of};
ghost use Rattle.otio_model.specs.Counts.{count};
ghost use Rattle.coord.specs.Soundness.{IsSound};
ghost use Rattle.edits.specs.After.{frame_of, list_of, place_of, rate_of};
ghost use Rattle.edits.specs.Refusals.{place_fault};
ghost use Rattle.pieces.specs.Short.{AreCuttable};

use otio_model::{Children, Place, Timeline};
use tick_time::Rate;

/// The record rate of a timeline, at which its edits count. It may walk to the first clip.
#[tactic(auto, using(edits::proofs::RecordRates::record_rate_is_one))]
pub fn edit_rate(timeline: &Timeline) -> Rate
    ensures { result ≡ rate_of timeline.now }
{
    coord::record_rate(timeline)
}

/// A record frame in ticks, where that is the record rate. Each rate is that of some timeline:
/// [`rates_are_record_rates`](crate::rates_are_record_rates).
#[tactic(auto, using(crate::proofs::Rates::frame_is_of))]
pub fn frame_at(rate: Rate) -> i128
    ensures value { (t : AnyTimeline) → rate ≡ rate_of t → result ≡ frame_of t }
    ensures least { pos 1000000 ≤ℤ result }
    ensures most { result ≤ℤ pos 705600000000000000 }
{
    rate.frame_ticks()
}

// The children of the item that a place leads to.
fn children_at<'a>(timeline: &'a Timeline, place: &Place) -> Option<&'a Children>
    ensures { option_copied result
        ≡ option_and_then children_of (item_at place.now timeline.now.tracks.children) }
{
    match timeline.at(place) {
        Some(item) => item.children(),
        None => None,
    }
}

/// The children of the track that a place leads to.
#[tactic(auto, using(crate::proofs::TrackLemmas::some_children, crate::proofs::TrackLemmas::children_are, crate::proofs::TrackLemmas::list_is, crate::proofs::TrackLemmas::list_few, crate::proofs::TrackLemmas::list_sound, crate::proofs::TrackLemmas::list_short))]
pub fn track_of<'a>(timeline: &'a Timeline, place: &Place) -> &'a Children
    requires there { place_fault place.now timeline.now ≡ None }
    requires sound { IsSound timeline.now }
    requires few { count timeline.now.tracks.children < 2 ^ 32 }
    ensures at { list_at place.now timeline.now.tracks.children ≡ Some result.now }
    ensures list { (e : AnyEdit) → place_of e ≡ place.now
        → items_of result.now ≡ list_of timeline.now e }
    ensures few { count result.now < 2 ^ 32 }
    ensures length { length (items_of result.now) < 2 ^ 32 }
    ensures faultless { AreCuttable (items_of result.now) }
{
    match children_at(timeline, place) {
        Some(children) => children,
        None => unreachable!(),
    }
}
