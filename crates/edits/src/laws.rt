//! Edits, worked out by hand, and the rate at which they count. The functions do nothing.

ghost use Rattle.std.specs.Prelude.{◌≡◌, pos};
ghost use Rattle.otio_model.specs.declared.timelines.Timeline.{Timeline};
ghost use Rattle.coord.specs.Keys.{frame_rate};
ghost use Rattle.coord.specs.Programs.{frame_ticks, record_rate};
ghost use Rattle.edits.specs.After.{frame_of, rate_of};
ghost use Rattle.edits.specs.Worked.{AreEdited, AreRefused, AreShown, AreTouched};

/// Law: edits give the lists that are worked out by hand, are refused where that is worked out,
/// show what it says, and touch so many children.
pub fn edits_are_worked()
    ensures lists { AreEdited }
    ensures refusals { AreRefused }
    ensures shows { AreShown }
    ensures zones { AreTouched }
{}

/// Law: the record rate of edits is that of what timelines show, and so are a frame's ticks.
pub fn record_rates_are_one()
    ensures rate { (t : Timeline) → frame_rate (rate_of t) ≡ record_rate t }
    ensures frame { (t : Timeline) → frame_of t ≡ pos (frame_ticks (record_rate t)) }
{}
