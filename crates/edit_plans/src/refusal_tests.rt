//! Tests of edits.

ghost use Rattle.std.specs.Prelude.{◌≡◌};
ghost use Rattle.edits.specs.Children as children;
ghost use Rattle.edits.specs.Edges as edges;
ghost use Rattle.edits.specs.Refusals as refusals;
ghost use Rattle.pieces.specs.Short.{IsShort};

use otio_model::{EditFault, Item, ItemOf, Place, Timeline};
use pieces::ticks_of;

/// Whether an item is a gap.
pub fn is_gap(item: &Item) -> bool
    ensures { result ≡ edges.is_gap item.now }
{
    match item {
        ItemOf::Gap(_) => true,
        _ => false,
    }
}

/// The fault of the place of an edit: [`EditFault::Place`] where it leads to nothing, and
/// [`EditFault::NotTrack`] where it leads to something else than a track; the empty place leads to
/// the root stack. `None` where the place leads to a track.
#[tactic(auto, using(crate::proofs::Places::places))]
pub fn place_fault(timeline: &Timeline, place: &Place) -> Option<EditFault>
    ensures { result ≡ refusals.place_fault place.now timeline.now }
{
    if place.len() == 0 {
        return Some(EditFault::NotTrack);
    }
    match timeline.at(place) {
        Some(item) => {
            if item.is_track() {
                None
            } else {
                Some(EditFault::NotTrack)
            }
        }
        None => Some(EditFault::Place),
    }
}

/// Whether an item has no length.
pub fn is_nothing(item: &Item) -> bool
    requires { IsShort item.now }
    ensures { result ≡ edges.is_zero (children.ticks item.now) }
{
    let ticks = ticks_of(item);
    ticks <= 0 && 0 <= ticks
}
