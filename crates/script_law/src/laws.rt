//! The law of scripts. Its function does nothing.

ghost use Rattle.std.specs.Prelude.{ℕ, List};
ghost use Rattle.otio_model.specs.declared.timelines.Timeline.{Timeline};
ghost use Rattle.coord.specs.Soundness.{IsSound};
ghost use Rattle.undo_log.specs.States.{State};
ghost use Rattle.edit_script.specs.declared.commands.ScriptCommand.{ScriptCommand};
ghost use Rattle.media_rows.specs.Rows.{MediaRows};
ghost use Rattle.edit_script.specs.Runs.{Runs};
ghost use Rattle.script_law.specs.Shown.{IsEditedFrom, opened};

/// Law: whatever commands are run on a sound timeline, each timeline of the state that they lead to
/// stands for an edit of the one before it, after which every frame shows what the edit's law says;
/// and undoing all edits gives the first timeline.
pub fn commands_show()
    ensures { (media : MediaRows) (script : List ScriptCommand) (n : ℕ) (t : Timeline) (s : State) →
        IsSound t → Runs media script n (opened t) s → IsEditedFrom t s }
{}
