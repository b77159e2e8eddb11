//! The law of all ten edits. Its functions do nothing.

ghost use Rattle.std.specs.Prelude.{◌≡◌, ℤ, List, None, Some};
ghost use Rattle.otio_model.specs.declared.compositions.ItemOf.{ItemOf};
ghost use Rattle.otio_model.specs.declared.compositions.Listed.{Listed};
ghost use Rattle.otio_model.specs.declared.edit_types.Edit.{Edit};
ghost use Rattle.otio_model.specs.declared.timelines.Timeline.{Timeline};
ghost use Rattle.coord.specs.Looks.{list_shows};
ghost use Rattle.coord.specs.Sights.{View, looks};
ghost use Rattle.coord.specs.Soundness.{fault_of};
ghost use Rattle.edits.specs.Children.{all_made};
ghost use Rattle.edits.specs.After.{frame_of, list_of, rate_of};
ghost use Rattle.edits.specs.Edits.{edited};
ghost use Rattle.edits.specs.Good.{AreFair, Suits};
ghost use Rattle.edits.specs.Laws.{law};
ghost use Rattle.edits.specs.Refusals.{early_fault};
ghost use Rattle.edits.specs.Steady.{AreRangedBefore, AreReady, HasReadyItem, IsReady, Sees};

/// Law: the list that an edit makes shows what the edit's law says at each instant, for a viewer to
/// whom all media rates are one, and for each viewer where the edit is steady. The edit is one that
/// no test up to that of pinned lengths refuses.
pub fn accepted_edits_show()
    ensures { (v : View) (t : Timeline) (e : Edit) (m : List (ItemOf Listed)) (w : ℤ) →
        early_fault t e ≡ None → AreFair (list_of t e) → Suits e →
        all_made (rate_of t) (edited (frame_of t) e (list_of t e)) ≡ Some m →
        AreRangedBefore (edited (frame_of t) e (list_of t e)) →
        Sees v (edited (frame_of t) e (list_of t e)) →
        list_shows (looks v m) w ≡ law v (frame_of t) e (list_of t e) w }
{}

/// Law: each item that an edit gives another range can get one; items without a fault can.
pub fn edits_are_ready()
    ensures sound { (x : ItemOf Listed) → fault_of x ≡ None → IsReady x }
    ensures edited { (f : ℤ) (e : Edit) (l : List (ItemOf Listed)) → AreReady l →
        HasReadyItem e → Suits e → AreRangedBefore (edited f e l) }
{}
