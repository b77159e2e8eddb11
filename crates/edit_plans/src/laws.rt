//! The laws of plans. Their functions do nothing.

ghost use Rattle.std.specs.Prelude.{◌≡◌, IfSome, Option};
ghost use Rattle.tick_time.specs.declared.rates.Rate.{Rate};
ghost use Rattle.otio_model.specs.declared.compositions.ItemOf.{ItemOf};
ghost use Rattle.otio_model.specs.declared.compositions.Listed.{Listed};
ghost use Rattle.otio_model.specs.declared.edit_types.Edit.{Edit};
ghost use Rattle.otio_model.specs.declared.timelines.Timeline.{Timeline};
ghost use Rattle.coord.specs.Soundness.{IsSound};
ghost use Rattle.edits_law.specs.Editable.{HasEditItem};
ghost use Rattle.edits.specs.After.{rate_of};
ghost use Rattle.edits.specs.Edges.{Held};
ghost use Rattle.edits.specs.Refusals.{IsAfter};
ghost use Rattle.edit_plans.specs.Neighbours.{IsBetween, IsNotTransition};
ghost use Rattle.edit_plans.specs.Planned.{ShowsThrough};

/// Law: after an accepted edit of a sound timeline, each root child shows what the edit's law says.
pub fn edits_are_shown()
    ensures { (t : Timeline) (e : Edit) (new : Timeline) → IsSound t → HasEditItem e →
        IsAfter t e new → ShowsThrough t e new }
{}

/// Law: each rate is the record rate of some timeline. So [`frame_at`](crate::frame_at) says how
/// long a frame is at any rate.
pub fn rates_are_record_rates()
    ensures { (rate : Rate) → (t : Timeline) × (rate ≡ rate_of t) }
{}

/// Law: an item can be held between any neighbours that aren't transitions. So
/// [`slip_by`](crate::slip_by), [`trim_by`](crate::trim_by) and [`roll_by`](crate::roll_by) say how
/// far edges move for any such items.
pub fn items_are_held()
    ensures { (before : Option (ItemOf Listed)) (item : ItemOf Listed)
        (behind : Option (ItemOf Listed)) → IfSome before IsNotTransition →
        IfSome behind IsNotTransition → (h : Held) × IsBetween before item behind h }
{}
