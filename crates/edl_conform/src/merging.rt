//! The events of all channels in one order, with their lines.

ghost use Rattle.std.specs.Prelude.{◌≡◌, ◌+◌, ◌<◌, ◌^◌, ℕ, AllPairs, IfOk, Some, map, slice_get, length};
ghost use Rattle.edl_list.specs.declared.list.Channel.{Channel};
ghost use Rattle.edl_list.specs.declared.list.Event.{Event};
ghost use Rattle.edl_list.specs.Formed.{AreInOrder};
ghost use Rattle.edl_frames.specs.Shown.{on_channel};
ghost use Rattle.edl_frames.specs.ChildEvents.{unnumbered};
ghost use Rattle.edl_conform.specs.Walk.{AreListed, AreRising};

use edl_list::{Event, EventSeq};
use std::alloc::AllocError;

// The same events in order of record in, then of V, A and A2. On a channel whose events stand in
// order of record in already they keep their order. An error comes where memory runs out.
fn in_order(events: Vec<Event>) -> Result<Vec<Event>, AllocError>
    ensures order { IfOk result (λ sorted. AllPairs AreInOrder sorted.items) }
    ensures len { IfOk result (λ sorted. length sorted.items ≡ length events.items) }
    ensures channels { (c : Channel) → AreRising (on_channel c events.items)
        → IfOk result (λ sorted. on_channel c sorted.items ≡ on_channel c events.items) }
{
    let mut events = events;
    events.sort_by_cached_key(|event| (event.rec_in, event.channel as u8))?;
    Ok(events)
}

// Gives each event its place, counted from 1, as its line.
fn number(events: &mut [Event])
    requires few { length events.old < 2 ^ 32 }
    ensures same { map unnumbered events.new ≡ map unnumbered events.old }
    ensures lines { (i : ℕ) (e : Event) → slice_get events.new i ≡ Some e → e.line ≡ i + 1 }
{
    'events: for index in 0..events.len() {
        events[index].line = index as u32 + 1;
    }
}

/// The events that were gathered, as those of a list: in order, with their places as lines. An
/// error comes where memory runs out.
pub(crate) fn listed(gathered: Vec<Event>) -> Result<EventSeq, AllocError>
    requires few { length gathered.items < 2 ^ 32 }
    ensures { IfOk result (AreListed gathered.items) }
{
    let mut events = in_order(gathered)?;
    number(&mut events);
    Ok(EventSeq::of(events))
}
