//! How a plan ends: whether the result is too long or has too many items, and the patch.

ghost use Rattle.std.specs.Prelude.{◌≡◌, ◌+◌, ◌-◌, ◌<◌, ◌≤◌, ◌^◌, ◌||◌, IfErr, IfOk, None};
ghost use Rattle.std.specs.Prelude.{Some, length};
ghost use Rattle.otio_model.specs.declared.compositions.Listed.{Listed};
ghost use Rattle.otio_model.specs.declared.edit_types.Edit.{Edit as AnyEdit};
ghost use Rattle.otio_model.specs.Counts.{count};
ghost use Rattle.otio_model.specs.Edits.{list_at, replaced, with_at};
ghost use Rattle.otio_model.specs.Kept.{capped_count};
ghost use Rattle.otio_model.specs.Sums.{capped};
ghost use Rattle.otio_model.specs.Trees.{items_of, listed};
ghost use Rattle.coord.specs.Soundness.{AreFaultless, IsSound};
ghost use Rattle.edits.specs.Refusals.{IsRefused, place_fault};
ghost use Rattle.edit_plans.specs.Amounts.{AreFew, ticks_in};
ghost use Rattle.edit_plans.specs.Planned.{IsMiddle, IsPlan};
ghost use Rattle.edit_plans.specs.Ways as ways;

use crate::enclosing_items::{has_long, is_way_long};
use crate::replaced_children::Middle;
use crate::totals::{Amount, amount_of, stretch_amount};
use crate::tracks::track_of;
use limits::MOST_ITEMS;
use otio_model::{EditFault, Patch, Place, Put, PutItems, Timeline};

/// So many ticks without those that go and with those that come, up to the greatest number.
pub(crate) fn exchanged_ticks(all: u128, gone: u128, come: u128) -> u128
    requires { gone ≤ all }
    ensures { result ≡ capped ((all - gone) + come) }
{
    (all - gone).saturating_add(come)
}

// So many items without those that go and with those that come, up to the greatest number.
fn exchanged_items(all: usize, gone: usize, come: usize) -> usize
    requires { gone ≤ all }
    ensures { result ≡ capped_count ((all - gone) + come) }
{
    (all - gone).saturating_add(come)
}

// What a middle makes of a track: how long its children are then together, and how many items the
// timeline has then.
fn result_of(timeline: &Timeline, place: &Place, middle: &Middle) -> Amount
    requires there { place_fault place.now timeline.now ≡ None }
    requires sound { IsSound timeline.now }
    requires few { count timeline.now.tracks.children < 2 ^ 32 }
    requires within { (l : Listed) → list_at place.now timeline.now.tracks.children ≡ Some l →
        middle.now.at + middle.now.count ≤ length (items_of l) }
    requires put { AreFew middle.now.put.items }
    ensures ticks { (l : Listed) → list_at place.now timeline.now.tracks.children ≡ Some l →
        result.ticks ≡ capped (ticks_in
        (replaced middle.now.at middle.now.count middle.now.put.items (items_of l))) }
    ensures items { (l : Listed) → list_at place.now timeline.now.tracks.children ≡ Some l →
        result.items ≡ capped_count (count (with_at place.now (listed
        (replaced middle.now.at middle.now.count middle.now.put.items (items_of l)))
        timeline.now.tracks.children)) }
{
    let children = track_of(timeline, place);
    let gone = stretch_amount(children, middle.at, middle.count);
    let come = amount_of(middle.put.as_slice());
    let all = timeline.tracks.children.items_below();
    Amount {
        ticks: exchanged_ticks(children.added_ticks(), gone.ticks, come.ticks),
        items: exchanged_items(all, gone.items, come.items),
    }
}

// Whether an item that comes is too long, or one on the way to the track, whose children are then
// so long together.
fn is_too_long(timeline: &Timeline, place: &Place, middle: &Middle, sum: u128) -> bool
    requires sound { AreFaultless timeline.now.tracks.children }
    requires few { count timeline.now.tracks.children < 2 ^ 32 }
    requires put { AreFew middle.now.put.items }
    ensures { result ≡ (ways.has_long middle.now.put.items
        || ways.is_way_long place.now sum timeline.now) }
{
    has_long(middle.put.as_slice()) || is_way_long(timeline, place, sum)
}

/// The patch that puts the middle in place of the children that go, where the result has no time
/// beyond a million seconds and at most 100 000 items. [`EditFault::TooLong`] comes exactly where
/// it has such a time, else [`EditFault::Items`] exactly where it has too many. It takes no memory.
/// The edit is one that no earlier test refuses, and the middle is what it makes of those children.
pub fn finish(timeline: &Timeline, place: Place, middle: Middle) -> Result<Patch, EditFault>
    requires sound { IsSound timeline.now }
    requires few { count timeline.now.tracks.children < 2 ^ 32 }
    requires edit { (e : AnyEdit)
        × IsMiddle timeline.now e place middle.at middle.count middle.put.items }
    ensures plan { IfOk result (λ patch. (e : AnyEdit) →
        IsMiddle timeline.now e place middle.at middle.count middle.put.items →
        IsPlan timeline.now e patch) }
    ensures fault { IfErr result (λ fault. (e : AnyEdit) →
        IsMiddle timeline.now e place middle.at middle.count middle.put.items →
        IsRefused timeline.now e fault) }
{
    let made = result_of(timeline, &place, &middle);
    if is_too_long(timeline, &place, &middle, made.ticks) {
        return Err(EditFault::TooLong);
    }
    if MOST_ITEMS < made.items {
        return Err(EditFault::Items);
    }
    Ok(Patch {
        place,
        at: middle.at,
        put: Put::Items {
            count: middle.count,
            items: PutItems::of(middle.put),
        },
    })
}
