//! Laws of edited timelines that are written. Their functions do nothing.

ghost use Rattle.std.specs.Prelude.{ℕ, List};
ghost use Rattle.otio_model.specs.declared.edit_types.Edit.{Edit};
ghost use Rattle.otio_model.specs.declared.timelines.Timeline.{Timeline};
ghost use Rattle.otio_model.specs.declared.objects.Object.{Timeline as ObjectOfTimeline};
ghost use Rattle.coord.specs.Soundness.{IsSound};
ghost use Rattle.edits_law.specs.Editable.{HasEditItem};
ghost use Rattle.edits.specs.Refusals.{IsAfter};
ghost use Rattle.undo_log.specs.States.{State};
ghost use Rattle.edit_script.specs.declared.commands.ScriptCommand.{ScriptCommand};
ghost use Rattle.media_rows.specs.Rows.{MediaRows};
ghost use Rattle.edit_script.specs.Runs.{Runs};
ghost use Rattle.script_law.specs.Shown.{opened};
ghost use Rattle.schema_rows.specs.Stands.{Stands};
ghost use Rattle.schema_write.specs.Objects.{json_of};
ghost use Rattle.object_law.specs.Writable.{IsTimeline};
ghost use Rattle.script_law.specs.Items.{HasWritableItem};

/// Law: a sound timeline that is writable is so after an accepted edit whose item is, so what is
/// written of the edited timeline stands for it.
pub fn edited_timelines_are_writable()
    ensures writable { (t : Timeline) (e : Edit) (new : Timeline) → IsSound t → IsTimeline t →
        HasEditItem e → HasWritableItem e → IsAfter t e new → IsTimeline new }
    ensures again { (t : Timeline) (e : Edit) (new : Timeline) → IsSound t → IsTimeline t →
        HasEditItem e → HasWritableItem e → IsAfter t e new →
        Stands (json_of (ObjectOfTimeline new)) (ObjectOfTimeline new) }
{}

/// Law: whatever commands are run on a sound and writable timeline, the one that they lead to is
/// writable, so what is written of it stands for it.
pub fn scripts_keep_timelines_writable()
    ensures writable { (media : MediaRows) (script : List ScriptCommand) (n : ℕ) (t : Timeline)
        (s : State) → IsSound t → IsTimeline t → Runs media script n (opened t) s →
        IsTimeline s.now }
    ensures again { (media : MediaRows) (script : List ScriptCommand) (n : ℕ) (t : Timeline)
        (s : State) → IsSound t → IsTimeline t → Runs media script n (opened t) s →
        Stands (json_of (ObjectOfTimeline s.now)) (ObjectOfTimeline s.now) }
{}
