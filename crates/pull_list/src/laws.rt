//! Laws of pull lists, whatever code makes them. Their functions do nothing.

ghost use Rattle.std.specs.Prelude.{◌≡◌, List, ℕ};
ghost use Rattle.otio_model.specs.Timelines.{bare};
ghost use Rattle.otio_model.specs.declared.timelines.Timeline.{Timeline as AnyTimeline};
ghost use Rattle.pull_list.specs.Pulled.{IsPullList, Stretch};
ghost use Rattle.pull_list.specs.Record.{HasTooMany};
ghost use Rattle.pull_list.specs.Worked.{ArePullsWorked};

/// Law: a timeline has one pull list for handles of so many frames, and that list, and whether
/// there are too many record frames for one, don't depend on the memory that the timeline keeps to
/// spare. It does nothing.
pub fn pull_lists_are_one()
    ensures list { (t u : AnyTimeline) (handles : ℕ) (a b : List Stretch) → bare t ≡ bare u →
        IsPullList t handles a → IsPullList u handles b → a ≡ b }
    ensures spare { (t u : AnyTimeline) (handles : ℕ) (a : List Stretch) → bare t ≡ bare u →
        IsPullList t handles a → IsPullList u handles a }
    ensures many { (t u : AnyTimeline) → bare t ≡ bare u → HasTooMany t → HasTooMany u }
{}

/// Law: the lines of some spans, and a count of record frames, are what is worked out by hand. It
/// does nothing.
pub fn pull_lists_are_worked()
    ensures { ArePullsWorked }
{}
