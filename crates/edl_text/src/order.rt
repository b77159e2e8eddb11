// Events in the order of the record.
ghost use Rattle.std.specs.Prelude.{◌≡◌, AllPairs, IfOk, IsPermutation};
ghost use Rattle.edl_text.specs.Order.{KeepsPlaces, StandsBefore, StandsNoLater};
ghost use Rattle.edl_text.specs.Overlaps.{WasReadBefore};
ghost use Rattle.edl_list.specs.Formed.{rank as rank_of};

use edl_list::{Channel, Event, EventSeq};
use std::alloc::AllocError;

/// The same events in order of record in, then of V, A and A2, then of their lines; those that have
/// one place in that order stand as they did. Where no two of them have one line and one channel,
/// no two have one place. An error comes where memory runs out.
pub fn in_record_order(events: Vec<Event>) -> Result<EventSeq, AllocError>
    ensures same { IfOk result (IsPermutation events.items) }
    ensures order { IfOk result (AllPairs StandsNoLater) }
    ensures stable { IfOk result (KeepsPlaces events.items) }
    ensures strict { AllPairs WasReadBefore events.items → IfOk result (AllPairs StandsBefore) }
{
    let mut events = events;
    events.sort_by_cached_key(|event| (event.rec_in, rank(event.channel), event.line))?;
    Ok(EventSeq::of(events))
}

// The place of a channel among the three.
fn rank(channel: Channel) -> u8
    ensures { result ≡ rank_of channel }
{
    match channel {
        Channel::V => 0,
        Channel::A => 1,
        Channel::A2 => 2,
    }
}
