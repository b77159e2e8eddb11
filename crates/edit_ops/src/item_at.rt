//! The item that holds the instant of an edit.

ghost use Rattle.std.specs.Prelude.{◌≡◌, ◌<◌, ◌^◌, ◌≤ℤ◌, ◌<ℤ◌, pos, true, IfErr, IfOk, Some};
ghost use Rattle.limits.specs.Limits.{most_ticks};
ghost use Rattle.otio_model.specs.declared.edit_types.Edit.{Edit as AnyEdit};
ghost use Rattle.otio_model.specs.Counts.{count};
ghost use Rattle.coord.specs.Soundness.{IsSound};
ghost use Rattle.edits.specs.After.{at_of, place_of};
ghost use Rattle.edits.specs.Refusals.{asks_item, early_fault};
ghost use Rattle.edit_ops.specs.Begun.{IsTaken};

use crate::edit_start::begin;
use edit_plans::{child, held, is_gap, track_of};
use otio_model::{EditFault, Place, Timeline};
use pieces::sound_ticks;
use tick_time::Rate;

/// An item that holds the instant of an edit.
#[derive(Clone, Copy)]
pub(crate) struct Hold {
    /// The record rate.
    pub(crate) rate: Rate,
    /// The instant, in ticks from the track's start.
    pub(crate) instant: i128,
    /// Where the item starts, in ticks from the track's start.
    pub(crate) from: i128,
    /// How long it is, in ticks.
    pub(crate) ticks: i128,
    /// Whether it is a gap.
    pub(crate) is_gap: bool,
    pub(crate) ghost low: { pos 0 ≤ℤ from },
    pub(crate) ghost late: { from ≤ℤ instant },
    pub(crate) ghost high: { instant ≤ℤ pos 10000000000000000000000000000000000000 },
    pub(crate) ghost some: { pos 0 <ℤ ticks },
    pub(crate) ghost short: { ticks ≤ℤ pos most_ticks },
}

/// The item that holds the instant of an edit at a place and a record frame. The fault is that of
/// the place, else [`EditFault::Negative`] where the frame is negative, else [`EditFault::NoItem`].
pub(crate) fn item_held(timeline: &Timeline, place: &Place, at: i64) -> Result<Hold, EditFault>
    requires sound { IsSound timeline.now }
    requires few { count timeline.now.tracks.children < 2 ^ 32 }
    ensures held { IfOk result (λ h.
        IsTaken timeline.now place.now at h.rate h.instant h.from h.ticks h.is_gap) }
    ensures fault { IfErr result (λ fault. (e : AnyEdit) → place_of e ≡ place.now →
        at_of e ≡ at → asks_item e ≡ true → early_fault timeline.now e ≡ Some fault) }
{
    let moment = match begin(timeline, place, at) {
        Ok(moment) => moment,
        Err(fault) => return Err(fault),
    };
    let children = track_of(timeline, place);
    match held(children, moment.instant) {
        Some(seat) => {
            let item = child(children, seat.index);
            Ok(Hold {
                rate: moment.rate,
                instant: moment.instant,
                from: seat.start,
                ticks: sound_ticks(item),
                is_gap: is_gap(item),
            })
        }
        None => Err(EditFault::NoItem),
    }
}
