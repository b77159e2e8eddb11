//! Commands one after another.

ghost use Rattle.std.specs.Prelude.{◌≡◌, ◌≢◌, ◌<◌, ℕ, List, IfErr, OnErr, OnOk, length};
ghost use Rattle.std.specs.Option.{option_copied};
ghost use Rattle.undo_log.specs.States.{IsKept, State, state_of};
ghost use Rattle.edit_script.specs.declared.commands.ScriptCommand.{ScriptCommand as AnyCommand};
ghost use Rattle.edit_script.specs.declared.faults.CommandFault.{CommandFault as AnyFault};
ghost use Rattle.media_rows.specs.Rows.{MediaRows};
ghost use Rattle.edit_script.specs.Runs.{Halts, Runs};
ghost use Rattle.edit_script.specs.Keeping.{HoldsEdits, IsEditableState};
ghost use Rattle.edit_script.specs.EditHistories.{RunsEach};

use crate::commands::ScriptCommand;
use crate::faults::CommandFault;
use crate::steps::apply_command;
use media_list::MediaList;
use otio_model::{EditFault, Timeline};
use std::alloc::Global;
use undo_log::Log;

/// Runs the commands of a script on a timeline and its log, each on what those before it gave. It
/// stops at the first command that is refused; what those before it did stands.
///
/// Frames count at the record rate that the timeline has then, those of a clip's start at the rate
/// that is listed of its reel.
///
/// # Errors
/// At the line of the first refused command: [`CommandFault::NoReel`] where it puts in a clip of a
/// reel that isn't listed, or no media list is given; else [`CommandFault::Line`] where one of its
/// times is out of range; else [`CommandFault::Edit`] with the fault of its edit, or
/// [`CommandFault::Undo`] where nothing is to be undone or redone. [`CommandFault::Memory`] comes
/// where memory runs out; timeline and log stand then as the commands before one of the script left
/// them.
pub fn apply_script(
    alloc: Global,
    timeline: &mut Timeline,
    log: &mut Log,
    script: &[ScriptCommand],
    media: Option<&MediaList>,
) -> Result<(), CommandFault>
    requires kept { IsKept log.old timeline.old }
    requires editable { IsEditableState (state_of log.old timeline.old) }
    ensures all { OnOk result (Runs (option_copied media.entry) script.now (length script.now)
        (state_of log.old timeline.old) (state_of log.new timeline.new)) }
    ensures halts { IfErr result (λ fault. fault ≢ CommandFault.Memory
        → Halts (option_copied media.entry) script.now
        (state_of log.old timeline.old) (state_of log.new timeline.new) fault) }
    ensures some { OnErr result ((n : ℕ) × (n < length script.now)
        × Runs (option_copied media.entry) script.now n
        (state_of log.old timeline.old) (state_of log.new timeline.new)) }
    ensures narrow { OnOk result (RunsEach (option_copied media.entry) script.now
        (length script.now) log.old timeline.old log.new timeline.new) }
    ensures narrow_some { OnErr result ((n : ℕ) × (n < length script.now)
        × RunsEach (option_copied media.entry) script.now n
        log.old timeline.old log.new timeline.new) }
    ensures inner { IfErr result
        (λ fault. (line : ℕ) → fault ≢ CommandFault.Edit line EditFault.Memory) }
    ensures kept { IsKept log.new timeline.new }
    ensures editable { IsEditableState (state_of log.new timeline.new) }
    ensures edits { HoldsEdits log.old timeline.old → HoldsEdits log.new timeline.new }
{
    'commands: for command in script {
        match apply_command(alloc, timeline, log, media, command) {
            Ok(_) => {}
            Err(fault) => return Err(fault),
        }
    }
    Ok(())
}

/// Law: a script takes a state to one other at most, or stops at one place at most, for one fault,
/// and never both. It does nothing.
pub fn one_run()
    ensures result { (media : MediaRows) (script : List AnyCommand) (s q r : State)
        → Runs media script (length script) s q → Runs media script (length script) s r → q ≡ r }
    ensures place { (media : MediaRows) (script : List AnyCommand) (s q r : State)
        (f g : AnyFault) → Halts media script s q f → Halts media script s r g → q ≡ r }
    ensures fault { (media : MediaRows) (script : List AnyCommand) (s q r : State)
        (f g : AnyFault) → Halts media script s q f → Halts media script s r g → f ≡ g }
    ensures either { (media : MediaRows) (script : List AnyCommand) (s q r : State)
        (f : AnyFault) → Runs media script (length script) s q → Halts media script s r f → ⊥ }
{}
