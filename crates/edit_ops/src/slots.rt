//! The zone of a track that an edit replaces.

ghost use Rattle.std.specs.Prelude.{◌≡◌, ◌+ℤ◌, ◌≤ℤ◌, pos};
ghost use Rattle.limits.specs.Limits.{most_ticks};

use otio_model::{Item, Place};
use tick_time::Rate;

/// A zone of a track and how long what comes in its place is, in ticks from the track's start.
#[derive(Clone, Copy)]
pub(crate) struct Slot {
    /// Where it begins.
    pub(crate) from: i128,
    /// Where it ends.
    pub(crate) to: i128,
    /// How long what comes in its place is.
    pub(crate) ticks: i128,
    /// The record rate.
    pub(crate) rate: Rate,
    pub(crate) ghost from_low: { pos 0 ≤ℤ from },
    pub(crate) ghost from_high: { from ≤ℤ pos 10000000000000000000000000000000000000 },
    pub(crate) ghost forward: { from ≤ℤ to },
    pub(crate) ghost to_high: { to ≤ℤ pos 20000000000000000000000000000000000000 },
    pub(crate) ghost low: { pos 0 ≤ℤ ticks },
    pub(crate) ghost high: { ticks ≤ℤ pos most_ticks },
}

/// What an edit puts into a track.
#[derive(Drop)]
pub(crate) struct Put {
    /// The place of the track.
    pub(crate) place: Place,
    /// The zone that it replaces.
    pub(crate) slot: Slot,
    /// The items that come in its place.
    pub(crate) new: Vec<Item>,
}

/// The zone of so many ticks from an instant on, at the record rate, for what is `ticks` long.
pub(crate) fn slot_from(rate: Rate, from: i128, length: i128, ticks: i128) -> Slot
    requires from_low { pos 0 ≤ℤ from }
    requires from_high { from ≤ℤ pos 10000000000000000000000000000000000000 }
    requires length_low { pos 0 ≤ℤ length }
    requires length_high { length ≤ℤ pos most_ticks }
    requires low { pos 0 ≤ℤ ticks }
    requires high { ticks ≤ℤ pos most_ticks }
    ensures rate { result.rate ≡ rate }
    ensures from { result.from ≡ from }
    ensures to { result.to ≡ from +ℤ length }
    ensures ticks { result.ticks ≡ ticks }
{
    Slot {
        from,
        to: from + length,
        ticks,
        rate,
    }
}
