//! Laws of edits at any depth. Their functions do nothing.

ghost use Rattle.std.specs.Prelude.{◌≡◌, ◌≢◌, ℕ, ℤ, Some, None, true, slice_get};
ghost use Rattle.otio_model.specs.declared.edit_types.Edit.{Edit};
ghost use Rattle.otio_model.specs.declared.timelines.Timeline.{Timeline};
ghost use Rattle.coord.specs.Agreement.{Agree};
ghost use Rattle.coord.specs.Looks.{FrameRate};
ghost use Rattle.coord.specs.Programs.{at, at_by};
ghost use Rattle.coord.specs.Soundness.{IsSound};
ghost use Rattle.edits.specs.After.{frame_of, list_of, place_of};
ghost use Rattle.edits.specs.Edits.{edited};
ghost use Rattle.edits.specs.Refusals.{IsAfter};
ghost use Rattle.edits.specs.Steady.{are_steady};
ghost use Rattle.edits_law.specs.Down.{down};
ghost use Rattle.edits_law.specs.Editable.{HasEditItem};
ghost use Rattle.edits_law.specs.Kept.{KeepsLength};
ghost use Rattle.edits_law.specs.Through.{through};
ghost use Rattle.edits_law.specs.Worked.{ArePinned, AreReached};

/// Law: after an accepted edit at any place, each root child shows at each instant what agrees with
/// the edit's law, reckoned through the old timeline, and equals it where the edit is steady.
pub fn edits_show_through()
    ensures agree { (t : Timeline) (e : Edit) (new : Timeline) (k : ℕ) (u : ℤ) →
        IsSound t → HasEditItem e → IsAfter t e new → Agree (at new k u) (through t e k u) }
    ensures equal { (t : Timeline) (e : Edit) (new : Timeline) (k : ℕ) (u : ℤ) →
        IsSound t → HasEditItem e → IsAfter t e new →
        are_steady (edited (frame_of t) e (list_of t e)) ≡ true → at new k u ≡ through t e k u }
{}

/// Law: where an accepted edit keeps the length of its track, the root child that holds the track
/// shows what it did at each instant that doesn't reach the track. Each other root child always
/// shows what it did. `rate_kept` is how the rates of media are seen.
pub fn unreached_stays()
    ensures unreached { (rate_kept : FrameRate → FrameRate) (t : Timeline) (e : Edit)
        (new : Timeline) (k : ℕ) (u : ℤ) → IsAfter t e new → KeepsLength t e new →
        slice_get (place_of e) 0 ≡ Some k → down t (place_of e) u ≡ None →
        at_by rate_kept new k u ≡ at_by rate_kept t k u }
    ensures others { (rate_kept : FrameRate → FrameRate) (t : Timeline) (e : Edit)
        (new : Timeline) (k : ℕ) (u : ℤ) → IsAfter t e new →
        slice_get (place_of e) 0 ≢ Some k → at_by rate_kept new k u ≡ at_by rate_kept t k u }
{}

/// Law: the instants that reach a nested track, and what pins one, are as worked out by hand.
pub fn nests_are_worked()
    ensures instants { AreReached }
    ensures pins { ArePinned }
{}
