//! Laws of edits and sound timelines. Their functions do nothing.

ghost use Rattle.std.specs.Prelude.{◌≡◌, ◌++◌, ◌∷◌, ℕ, List, None, Some, slice_get};
ghost use Rattle.otio_model.specs.declared.compositions.ItemOf.{ItemOf};
ghost use Rattle.otio_model.specs.declared.compositions.Listed.{Listed};
ghost use Rattle.otio_model.specs.declared.edit_types.Edit.{Edit};
ghost use Rattle.otio_model.specs.declared.timelines.Timeline.{Timeline};
ghost use Rattle.coord.specs.Soundness.{IsSound, fault_of};
ghost use Rattle.coord.specs.declared.faults.ItemFault.{ItemFault};
ghost use Rattle.coord.specs.declared.faults.ItemFault.TheVariants.{Long};
ghost use Rattle.edits.specs.Children.{all_made};
ghost use Rattle.edits_law.specs.Editable.{HasEditItem};
ghost use Rattle.edits.specs.After.{frame_of, list_of, rate_of};
ghost use Rattle.edits.specs.Edits.{edited};
ghost use Rattle.edits.specs.Refusals.{IsAfter, early_fault};

/// Law: the timeline after an accepted edit of a sound one is sound.
pub fn edits_stay_sound()
    ensures { (t : Timeline) (e : Edit) (new : Timeline) →
        IsSound t → HasEditItem e → IsAfter t e new → IsSound new }
{}

/// Law: the items of an edited list of a sound timeline have no fault, but that they may be too
/// long. The edit is one that no test up to that of pinned lengths refuses.
pub fn made_items_are_short()
    ensures { (t : Timeline) (e : Edit) (m : List (ItemOf Listed)) (i : ℕ) (x : ItemOf Listed)
        (fault : ItemFault) → IsSound t → HasEditItem e → early_fault t e ≡ None →
        all_made (rate_of t) (edited (frame_of t) e (list_of t e)) ≡ Some m →
        slice_get m i ≡ Some x → fault_of x ≡ Some fault → fault ≡ Long }
{}
