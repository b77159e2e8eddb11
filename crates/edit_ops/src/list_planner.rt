//! Plans of the five edits of lists.

ghost use Rattle.std.specs.Prelude.{◌≡◌, ◌≢◌, ◌<◌, ◌^◌, IfErr, IfOk, true};
ghost use Rattle.otio_model.specs.Counts.{count};
ghost use Rattle.otio_model.specs.Patches.{applied};
ghost use Rattle.coord.specs.Soundness.{IsSound};
ghost use Rattle.edits_law.specs.Editable.{HasEditItem};
ghost use Rattle.edits.specs.Refusals.{IsRefused};
ghost use Rattle.edit_plans.specs.Planned.{is_list_edit, IsPlan, ShowsThrough};

use crate::list_edits::{plan_fill, plan_put, plan_remove, plan_slice};
use crate::new_items::{Filling, Placing};
use otio_model::{Edit, EditFault, Patch, Timeline};
use std::alloc::Global;

/// The patch that does one of the five edits of lists, or the first fault of the edit, in the order
/// of [`EditFault`]'s variants. [`EditFault::Memory`] may come at any point.
pub fn plan_list(alloc: Global, timeline: &Timeline, edit: Edit) -> Result<Patch, EditFault>
    requires sound { IsSound timeline.now }
    requires few { count timeline.now.tracks.children < 2 ^ 32 }
    requires group { is_list_edit edit ≡ true }
    requires item { HasEditItem edit }
    ensures plan { IfOk result (IsPlan timeline.now edit) }
    ensures law { IfOk result (λ p. ShowsThrough timeline.now edit (applied p timeline.now)) }
    ensures fault { IfErr result
        (λ fault. fault ≢ EditFault.Memory → IsRefused timeline.now edit fault) }
{
    match edit {
        Edit::Overwrite { place, at, item } => {
            plan_put(alloc, timeline, place, at, Placing { item, over: true })
        }
        Edit::Insert { place, at, item } => {
            plan_put(alloc, timeline, place, at, Placing { item, over: false })
        }
        Edit::Slice { place, at } => plan_slice(alloc, timeline, place, at),
        Edit::Fill {
            place,
            at,
            mode,
            item,
        } => plan_fill(alloc, timeline, place, at, Filling { item, mode }),
        Edit::Remove { place, at, mode } => plan_remove(alloc, timeline, place, at, mode),
        _ => unreachable!(),
    }
}
