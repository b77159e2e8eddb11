//! Laws of flat timelines that are written. Their functions do nothing.

ghost use Rattle.std.specs.Prelude.{◌≡◌, ℕ, ℤ, Bool, true, List, filter};
ghost use Rattle.otio_model.specs.declared.compositions.ItemOf.{ItemOf};
ghost use Rattle.otio_model.specs.declared.compositions.Listed.{Listed};
ghost use Rattle.otio_model.specs.declared.timelines.Timeline.{Timeline};
ghost use Rattle.otio_model.specs.declared.objects.Object.{Timeline as ObjectOfTimeline};
ghost use Rattle.otio_model.specs.Timelines.{bare};
ghost use Rattle.coord.specs.Soundness.{IsCalm, IsSound};
ghost use Rattle.schema_rows.specs.Stands.{Stands};
ghost use Rattle.schema_write.specs.Objects.{json_of};
ghost use Rattle.object_law.specs.Writable.{IsTimeline};
ghost use Rattle.flat.specs.Answers.{AreSound, Joins};
ghost use Rattle.flat.specs.Blocked.{Blocks, IsFree};
ghost use Rattle.flat.specs.Flattened.{IsFlattened};
ghost use Rattle.flat.specs.Piled.{IsPiled};
ghost use Rattle.flat.specs.Roots.{roots, with_roots};
ghost use Rattle.flat.specs.Straight.{IsStraight};
ghost use Rattle.flat.specs.Windowed.{IsWindowed, WindowBlocks, from_start, is_window};
ghost use Rattle.flat_law.specs.Inputs.{AreTimelines};

/// Law: a writable timeline is writable once it is flattened, whatever the kind, so what is written
/// of it stands for it; and it is sound where it was and nothing refuses it.
pub fn flattened_timelines_are_writable()
    ensures writable { (t r : Timeline) (kind : List ℕ) (keep : Bool) → IsTimeline t →
        IsFlattened t kind keep r → IsTimeline r }
    ensures sound { (t r : Timeline) (kind : List ℕ) (keep : Bool) → IsSound t → IsTimeline t →
        IsFree (Blocks kind (roots t)) → IsFlattened t kind keep r → IsSound r }
    ensures again { (t r : Timeline) (kind : List ℕ) (keep : Bool) → IsTimeline t →
        IsFlattened t kind keep r → Stands (json_of (ObjectOfTimeline r)) (ObjectOfTimeline r) }
{}

/// Law: the part of a writable timeline between two record frames is writable, so what is written
/// of it stands for it; and it is sound where the timeline was and nothing refuses it.
pub fn windowed_timelines_are_writable()
    ensures writable { (t r : Timeline) (a b : ℤ) → IsTimeline t → IsWindowed t a b r →
        IsTimeline r }
    ensures sound { (t r : Timeline) (a b : ℤ) → IsSound t → IsTimeline t →
        is_window t a b ≡ true →
        IsFree (WindowBlocks (roots t) (from_start t a) (from_start t b)) → IsWindowed t a b r →
        IsSound r }
    ensures again { (t r : Timeline) (a b : ℤ) → IsTimeline t → IsWindowed t a b r →
        Stands (json_of (ObjectOfTimeline r)) (ObjectOfTimeline r) }
{}

/// Law: writable timelines that nothing refuses are writable once they are joined, so what is
/// written of the joined timeline stands for it; and its transitions stand where they may. It may
/// be longer than a sound one.
pub fn joined_timelines_are_writable()
    ensures writable { (inputs : List Timeline) (r : Timeline) → AreTimelines inputs →
        Joins inputs r → IsTimeline r }
    ensures calm { (inputs : List Timeline) (r : Timeline) → AreTimelines inputs →
        Joins inputs r → IsCalm r }
    ensures again { (inputs : List Timeline) (r : Timeline) → AreTimelines inputs →
        Joins inputs r → Stands (json_of (ObjectOfTimeline r)) (ObjectOfTimeline r) }
{}

/// Law: writable timelines are writable once they are piled, so what is written of the piled
/// timeline stands for it; and it is sound where they were.
pub fn piled_timelines_are_writable()
    ensures writable { (t r : Timeline) (more : List Timeline) → IsTimeline t →
        AreTimelines more → IsPiled t more r → IsTimeline r }
    ensures sound { (t r : Timeline) (more : List Timeline) → IsSound t → AreSound more →
        IsTimeline t → AreTimelines more → IsPiled t more r → IsSound r }
    ensures again { (t r : Timeline) (more : List Timeline) → IsTimeline t →
        AreTimelines more → IsPiled t more r →
        Stands (json_of (ObjectOfTimeline r)) (ObjectOfTimeline r) }
{}

/// Law: a writable timeline is writable without its transitions, so what is written of it stands
/// for it; and it is sound where it was.
pub fn straight_timelines_are_writable()
    ensures writable { (t r : Timeline) → IsTimeline t → IsStraight t r → IsTimeline r }
    ensures sound { (t r : Timeline) → IsSound t → IsTimeline t → IsStraight t r → IsSound r }
    ensures again { (t r : Timeline) → IsTimeline t → IsStraight t r →
        Stands (json_of (ObjectOfTimeline r)) (ObjectOfTimeline r) }
{}

/// Law: a writable timeline is writable with some of its root children alone, so what is written
/// of it stands for it; and it is sound where it was.
pub fn kept_timelines_are_writable()
    ensures writable { (t r : Timeline) (keeps : ItemOf Listed → Bool) → IsTimeline t →
        bare r ≡ bare (with_roots (filter keeps (roots t)) t) → IsTimeline r }
    ensures sound { (t r : Timeline) (keeps : ItemOf Listed → Bool) → IsSound t →
        IsTimeline t → bare r ≡ bare (with_roots (filter keeps (roots t)) t) → IsSound r }
    ensures again { (t r : Timeline) (keeps : ItemOf Listed → Bool) → IsTimeline t →
        bare r ≡ bare (with_roots (filter keeps (roots t)) t) →
        Stands (json_of (ObjectOfTimeline r)) (ObjectOfTimeline r) }
{}
