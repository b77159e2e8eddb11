//! Where and when an edit is made.

ghost use Rattle.std.specs.Prelude.{◌≡◌, ◌*ℤ◌, ◌≤ℤ◌, pos, IfErr, IfOk, None, Some};
ghost use Rattle.otio_model.specs.declared.edit_types.Edit.{Edit as AnyEdit};
ghost use Rattle.edits.specs.After.{at_of, place_of};
ghost use Rattle.edits.specs.Refusals.{early_fault};
ghost use Rattle.edit_ops.specs.Begun.{IsBegun};

use edit_plans::{edit_rate, frame_at, place_fault};
use otio_model::{EditFault, Place, Timeline};
use tick_time::Rate;

/// When an edit is made.
#[derive(Clone, Copy)]
pub(crate) struct Moment {
    /// The record rate.
    pub(crate) rate: Rate,
    /// The instant, in ticks from the track's start.
    pub(crate) instant: i128,
    pub(crate) ghost low: { pos 0 ≤ℤ instant },
    pub(crate) ghost high: { instant ≤ℤ pos 10000000000000000000000000000000000000 },
}

// So many frames, in ticks.
fn frames(at: i64, frame: i128) -> i128
    requires late { pos 0 ≤ℤ at }
    requires least { pos 1000000 ≤ℤ frame }
    requires most { frame ≤ℤ pos 705600000000000000 }
    ensures value { result ≡ at *ℤ frame }
    ensures low { pos 0 ≤ℤ result }
    ensures high { result ≤ℤ pos 10000000000000000000000000000000000000 }
{
    i128::from(at) * frame
}

/// When an edit at a place is made, in record frames from the track's start. The fault is that of
/// the place, else [`EditFault::Negative`] where the frame is negative.
pub(crate) fn begin(timeline: &Timeline, place: &Place, at: i64) -> Result<Moment, EditFault>
    ensures begun { IfOk result
        (λ m. IsBegun timeline.now place.now at m.rate m.instant) }
    ensures fault { IfErr result (λ fault. (e : AnyEdit) → place_of e ≡ place.now →
        at_of e ≡ at → early_fault timeline.now e ≡ Some fault) }
{
    match place_fault(timeline, place) {
        Some(fault) => return Err(fault),
        None => {}
    }
    if at < 0 {
        return Err(EditFault::Negative);
    }
    let rate = edit_rate(timeline);
    let instant = frames(at, frame_at(rate));
    Ok(Moment { rate, instant })
}
