//! What cuts and edits show: laws, whose functions do nothing.
//!
//! Their premises are items without a fault, sound timelines and accepted edits alone. Where a new
//! start isn't a whole number of units of a clip's rate, its times are counted at the finest rate;
//! so what is shown is the same up to the rates of media ([`Agree`](coord::specs::Agreement)), and
//! equal where the edit is steady: where no such start comes.
#![tactic(auto)]

ghost use Rattle.std.specs.Prelude.{◌≡◌, ℕ, ℤ, List, None, Some, true, ◌+ℤ◌};
ghost use Rattle.tick_time.specs.declared.rates.Rate.{Rate};
ghost use Rattle.otio_model.specs.declared.compositions.ItemOf.{ItemOf};
ghost use Rattle.otio_model.specs.declared.compositions.Listed.{Listed};
ghost use Rattle.otio_model.specs.declared.timelines.Timeline.{Timeline};
ghost use Rattle.otio_model.specs.declared.edit_types.Edit.{Edit};
ghost use Rattle.coord.specs.Agreement.{Agree};
ghost use Rattle.coord.specs.Looks.{list_shows};
ghost use Rattle.coord.specs.Sights.{View, exact, looks, overlap_of, sight};
ghost use Rattle.coord.specs.Soundness.{IsSound, fault_of};
ghost use Rattle.edits.specs.Children.{made};
ghost use Rattle.edits.specs.Cuts.{is_whole_at, left_piece, right_piece};
ghost use Rattle.edits.specs.After.{frame_of, list_of};
ghost use Rattle.edits.specs.Edits.{edited};
ghost use Rattle.edits.specs.Laws.{law};
ghost use Rattle.edits.specs.Refusals.{IsAfter};
ghost use Rattle.edits.specs.Steady.{Sees, are_steady, is_steady};
ghost use Rattle.edits_law.specs.Editable.{HasEditItem};

/// Law: the two items that a cut makes of an item without a fault show at each instant, counted in
/// ticks from their starts, what the item showed there, up to the rates of media. Where the right
/// piece is steady, or the left one, this holds with the rates.
pub fn cut_items_show()
    ensures left { (rate : Rate) (x piece : ItemOf Listed) (t u : ℤ) (kind : List ℕ) →
        fault_of x ≡ None → overlap_of x ≡ None → made rate (left_piece x t) ≡ Some piece →
        Agree ((sight piece).shows (exact kind) u) ((sight x).shows (exact kind) u) }
    ensures right { (rate : Rate) (x piece : ItemOf Listed) (t u : ℤ) (kind : List ℕ) →
        fault_of x ≡ None → overlap_of x ≡ None → is_whole_at x t ≡ true →
        made rate (right_piece x t) ≡ Some piece →
        Agree ((sight piece).shows (exact kind) u) ((sight x).shows (exact kind) (u +ℤ t)) }
    ensures steady_left { (rate : Rate) (x piece : ItemOf Listed) (t u : ℤ) (kind : List ℕ) →
        fault_of x ≡ None → overlap_of x ≡ None → is_steady (left_piece x t) ≡ true →
        made rate (left_piece x t) ≡ Some piece →
        (sight piece).shows (exact kind) u ≡ (sight x).shows (exact kind) u }
    ensures steady_right { (rate : Rate) (x piece : ItemOf Listed) (t u : ℤ) (kind : List ℕ) →
        fault_of x ≡ None → overlap_of x ≡ None → is_whole_at x t ≡ true →
        is_steady (right_piece x t) ≡ true → made rate (right_piece x t) ≡ Some piece →
        (sight piece).shows (exact kind) u ≡ (sight x).shows (exact kind) (u +ℤ t) }
{}

/// Law: after an accepted edit of a sound timeline the list of its track shows at each instant, in
/// ticks from its start, what the edit's law says: up to the rates of media, and with them where
/// the edit is steady. `viewed` says both at once, for any viewer.
pub fn edited_lists_show()
    ensures agrees { (t new : Timeline) (e : Edit) (w : ℤ) (kind : List ℕ) → IsSound t →
        HasEditItem e → IsAfter t e new →
        Agree (list_shows (looks (exact kind) (list_of new e)) w)
        (law (exact kind) (frame_of t) e (list_of t e) w) }
    ensures steady { (t new : Timeline) (e : Edit) (w : ℤ) (kind : List ℕ) → IsSound t →
        HasEditItem e → IsAfter t e new →
        are_steady (edited (frame_of t) e (list_of t e)) ≡ true →
        list_shows (looks (exact kind) (list_of new e)) w
        ≡ law (exact kind) (frame_of t) e (list_of t e) w }
    ensures viewed { (v : View) (t new : Timeline) (e : Edit) (w : ℤ) → IsSound t →
        HasEditItem e → IsAfter t e new → Sees v (edited (frame_of t) e (list_of t e)) →
        list_shows (looks v (list_of new e)) w ≡ law v (frame_of t) e (list_of t e) w }
{}
