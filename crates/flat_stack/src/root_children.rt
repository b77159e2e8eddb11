//! Root children and the rate at which they are counted.

ghost use Rattle.std.specs.Prelude.{◌≡◌, [], IfNone, IfSome, Some};
ghost use Rattle.otio_model.specs.Trees.{children_of, items_of};
ghost use Rattle.edits.specs.After.{rate_of};
ghost use Rattle.flat.specs.Joined as joined;
ghost use Rattle.flat.specs.Roots as roots;

use coord::record_rate;
use otio_model::{Children, Item, ItemOf, Timeline};
use tick_time::Rate;

/// Whether an item is a track without a source_range and without effects.
pub fn is_plain(item: &Item) -> bool
    ensures { result ≡ roots.is_plain item.now }
{
    match item {
        ItemOf::Track(track) => {
            track.source_range.is_none() && track.effects.as_slice().is_empty()
        }
        _ => false,
    }
}

/// The children of a track; `None` where it is disabled or no track.
pub(crate) fn enabled_children(item: &Item) -> Option<&Children>
    ensures there { IfSome result (λ c. children_of item.now ≡ Some c.now) }
    ensures some { IfSome result (λ c. items_of c.now ≡ joined.own_items (Some item.now)) }
    ensures none { IfNone result (joined.own_items (Some item.now) ≡ []) }
{
    match item {
        ItemOf::Track(track) => {
            if track.enabled {
                return Some(&track.children);
            }
            None
        }
        _ => None,
    }
}

/// The record rate of a timeline. It may walk to the first clip.
#[tactic(auto, using(crate::proofs::RateLemmas::flat_rate_is))]
pub fn flat_rate(timeline: &Timeline) -> Rate
    ensures { result ≡ rate_of timeline.now }
{
    record_rate(timeline)
}
