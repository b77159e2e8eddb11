//! What a drill comes to, by its seed and the number of its edits. The functions do nothing.

ghost use Rattle.std.specs.Prelude.{◌≡◌, ℕ};
ghost use Rattle.otio_model.specs.declared.timelines.Timeline.{Timeline};
ghost use Rattle.otio_model.specs.Timelines.{bare};
ghost use Rattle.coord.specs.Soundness.{IsSound};
ghost use Rattle.undo_log.specs.States.{State};
ghost use Rattle.coord.specs.Programs.{start_frame};
ghost use Rattle.edl_frames.specs.Channels.{on};
ghost use Rattle.edl_list.specs.declared.list.Channel.TheVariants.{V};
ghost use Rattle.drill.specs.Lists.{IsListed};
ghost use Rattle.drill.specs.Media.{rows};
ghost use Rattle.drill.specs.Starting.{IsStart};
ghost use Rattle.drill.specs.Sums.{frames_of, LeavesRange};
ghost use Rattle.drill.specs.declared.list_outcome.Listed.TheVariants as listed;
ghost use Rattle.drill.specs.declared.tally.Tally.{Tally};
ghost use Rattle.drill.specs.declared.tally.Carried.{Carried};
ghost use Rattle.drill.specs.Told.{DrillsTo, IsToldOf};

/// Law: a seed and a number of edits have one drill at most: one tally, and one state.
pub fn one_outcome()
    ensures tally { (seed count : ℕ) (a b : Tally) (s r : State) → DrillsTo seed count a s
        → DrillsTo seed count b r → a ≡ b }
    ensures state { (seed count : ℕ) (a b : Tally) (s r : State) → DrillsTo seed count a s
        → DrillsTo seed count b r → s ≡ r }
{}

/// Law: of the list of each sound timeline, as that of a drill, something is reported: a list
/// carries the timeline and conforms to another one, or there is a first reason why none does.
pub fn lists_are_told()
    ensures { (t : Timeline) → IsSound t → (carried : Carried) × IsToldOf t carried }
{}

/// Law: what the timeline shows that a valid timeline's list conforms to, at the record frames of
/// that timeline's first root child, has numbers and sums of at most 128 bits. So where a drill
/// adds them up ([`crate::channel_sum`]) an error comes only where a mix is shown.
pub fn shown_sums_fit()
    ensures { (t again : Timeline) (events : ℕ) → IsSound t →
        IsListed t rows (listed.List events again) →
        LeavesRange (on again V) (start_frame t) (frames_of t) → ⊥ }
{}

/// Law: undoing all edits gives the timeline before the first one. So what it shows, added up, is
/// the same whatever the number of edits.
pub fn undone_is_start()
    ensures start { (seed count : ℕ) (a : Tally) (s : State) (t : Timeline) →
        DrillsTo seed count a s → IsStart seed t → s.now ≡ bare t }
    ensures back { (seed m n : ℕ) (a b : Tally) (s r : State) → DrillsTo seed m a s
        → DrillsTo seed n b r → a.back ≡ b.back }
{}
