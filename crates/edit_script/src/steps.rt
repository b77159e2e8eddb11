//! One command.

ghost use Rattle.std.specs.Prelude.{◌≡◌, ◌≢◌, ◌<◌, ◌^◌, false, ℕ, IfErr, IfOk, OnErr, OnOk, None};
ghost use Rattle.std.specs.Option.{option_copied};
ghost use Rattle.otio_model.specs.Counts.{count};
ghost use Rattle.coord.specs.Soundness.{IsSound};
ghost use Rattle.otio_model.specs.Patches.{IsFit};
ghost use Rattle.otio_model.specs.Timelines.{bare};
ghost use Rattle.edits.specs.After.{rate_of};
ghost use Rattle.edit_script.specs.declared.commands.Act.{Act as AnyAct};
ghost use Rattle.undo_log.specs.declared.faults.UndoFault.TheVariants.{NothingDone, NothingUndone};
ghost use Rattle.undo_log.specs.States.{State, back, forth, state_of};
ghost use Rattle.media_rows.specs.Rows.{MediaRows};
ghost use Rattle.edit_script.specs.RunActs as acts;
ghost use Rattle.edit_script.specs.Groups.{group, Back, Forth};
ghost use Rattle.edit_script.specs.Plans.{IsPlanOf, IsRefusalOf};
ghost use Rattle.edit_script.specs.Runs.{IsHalted};
ghost use Rattle.edit_script.specs.Steps.{IsDone, IsReady, IsSame};

use crate::commands::{Act, ScriptCommand};
use crate::faults::CommandFault;
use crate::run_acts::{edge_edit_of, is_beyond, is_unlisted, list_edit_of};
use edit_ops::plan_list;
use edit_plans::edit_rate;
use edit_trim::plan_trim;
use media_list::MediaList;
use otio_model::{EditFault, Patch, Timeline};
use std::alloc::Global;
use undo_log::Log;

// The patch of the edit that an act asks for.
fn plan(
    alloc: Global,
    timeline: &Timeline,
    media: Option<&MediaList>,
    act: &Act,
) -> Result<Patch, EditFault>
    requires sound { IsSound timeline.now }
    requires few { count timeline.now.tracks.children < 2 ^ 32 }
    requires back { group act.now ≢ Back }
    requires forth { group act.now ≢ Forth }
    requires listed { acts.is_unlisted (option_copied media) act.now ≡ false }
    requires near { acts.is_beyond (rate_of timeline.now) (option_copied media) act.now ≡ false }
    ensures plan { IfOk result (IsPlanOf (option_copied media.entry) act.now timeline.now) }
    ensures fault { IfErr result (λ fault. fault ≢ EditFault.Memory
        → IsRefusalOf (option_copied media.entry) act.now timeline.now fault) }
{
    match list_edit_of(alloc, edit_rate(timeline), media, act) {
        Ok(Some(edit)) => plan_list(alloc, timeline, edit),
        Ok(None) => match edge_edit_of(alloc, act) {
            Ok(Some(edit)) => plan_trim(alloc, timeline, edit),
            Ok(None) => unreachable!(),
            Err(_) => Err(EditFault::Memory),
        },
        Err(_) => Err(EditFault::Memory),
    }
}

// The fault of an edit as that of the command on a line.
fn at_line(line: u32, fault: EditFault) -> CommandFault
    ensures memory { fault ≡ EditFault.Memory → result ≡ CommandFault.Memory }
    ensures other { fault ≢ EditFault.Memory → result ≡ CommandFault.Edit line fault }
{
    match fault {
        EditFault::Memory => CommandFault::Memory,
        fault => CommandFault::Edit { line, fault },
    }
}

// The patch of the edit that a command asks for, else why the command is refused.
fn patch_of(
    alloc: Global,
    timeline: &Timeline,
    media: Option<&MediaList>,
    command: &ScriptCommand,
) -> Result<Patch, CommandFault>
    requires sound { IsSound timeline.now }
    requires few { count timeline.now.tracks.children < 2 ^ 32 }
    requires back { group command.now.act ≢ Back }
    requires forth { group command.now.act ≢ Forth }
    ensures plan { IfOk result
        (IsPlanOf (option_copied media.entry) command.now.act timeline.now) }
    ensures fault { IfErr result (λ fault. fault ≢ CommandFault.Memory
        → (s : State) → s.now ≡ bare timeline.now
        → IsHalted (option_copied media.entry) command.now s fault) }
    ensures inner { IfErr result
        (λ fault. (line : ℕ) → fault ≢ CommandFault.Edit line EditFault.Memory) }
{
    let line = command.line;
    if is_unlisted(media, &command.act) {
        return Err(CommandFault::NoReel(line));
    }
    if is_beyond(edit_rate(timeline), media, &command.act) {
        return Err(CommandFault::Line(line));
    }
    match plan(alloc, timeline, media, &command.act) {
        Ok(patch) => Ok(patch),
        Err(fault) => Err(at_line(line, fault)),
    }
}

// Makes a change that is planned, and keeps it in the log.
fn commit(timeline: &mut Timeline, log: &mut Log, patch: Patch) -> Result<(), CommandFault>
    requires ready { IsReady log.old timeline.old }
    requires fits { IsFit patch timeline.old }
    ensures done { OnOk result ((media : MediaRows) (act : AnyAct)
        → IsPlanOf media act timeline.old patch
        → IsDone media act log.old timeline.old log.new timeline.new) }
    ensures same { OnErr result (IsSame log.old timeline.old log.new timeline.new) }
    ensures fault { IfErr result (λ fault. fault ≡ CommandFault.Memory) }
{
    match log.room_commit(timeline, &patch) {
        Ok(()) => {
            log.commit(timeline, patch);
            Ok(())
        }
        Err(_) => {
            drop(patch);
            Err(CommandFault::Memory)
        }
    }
}

// Takes the last edit back.
fn undo(timeline: &mut Timeline, log: &mut Log, line: u32) -> Result<(), CommandFault>
    requires ready { IsReady log.old timeline.old }
    ensures done { OnOk result ((media : MediaRows)
        → IsDone media Act.Undo log.old timeline.old log.new timeline.new) }
    ensures same { OnErr result (IsSame log.old timeline.old log.new timeline.new) }
    ensures fault { IfErr result (λ fault. fault ≢ CommandFault.Memory
        → (back (state_of log.old timeline.old) ≡ None)
        × (fault ≡ CommandFault.Undo line NothingDone)) }
{
    match log.room_undo(timeline) {
        Ok(()) => {}
        Err(_) => return Err(CommandFault::Memory),
    }
    match log.undo(timeline) {
        Ok(()) => Ok(()),
        Err(fault) => Err(CommandFault::Undo { line, fault }),
    }
}

// Brings the edit back that was taken back last.
fn redo(timeline: &mut Timeline, log: &mut Log, line: u32) -> Result<(), CommandFault>
    requires ready { IsReady log.old timeline.old }
    ensures done { OnOk result ((media : MediaRows)
        → IsDone media Act.Redo log.old timeline.old log.new timeline.new) }
    ensures same { OnErr result (IsSame log.old timeline.old log.new timeline.new) }
    ensures fault { IfErr result (λ fault. fault ≢ CommandFault.Memory
        → (forth (state_of log.old timeline.old) ≡ None)
        × (fault ≡ CommandFault.Undo line NothingUndone)) }
{
    match log.room_redo(timeline) {
        Ok(()) => {}
        Err(_) => return Err(CommandFault::Memory),
    }
    match log.redo(timeline) {
        Ok(()) => Ok(()),
        Err(fault) => Err(CommandFault::Undo { line, fault }),
    }
}

/// Carries a command out, or says why it is refused; timeline and log are then as they were.
#[tactic(auto, using(crate::proofs::CommandLemmas::done_by_undo, crate::proofs::CommandLemmas::done_by_redo))]
pub(crate) fn apply_command(
    alloc: Global,
    timeline: &mut Timeline,
    log: &mut Log,
    media: Option<&MediaList>,
    command: &ScriptCommand,
) -> Result<(), CommandFault>
    requires ready { IsReady log.old timeline.old }
    ensures done { OnOk result (IsDone (option_copied media.entry) command.now.act
        log.old timeline.old log.new timeline.new) }
    ensures same { OnErr result (IsSame log.old timeline.old log.new timeline.new) }
    ensures fault { IfErr result (λ fault. fault ≢ CommandFault.Memory
        → IsHalted (option_copied media.entry) command.now (state_of log.old timeline.old) fault) }
    ensures inner { IfErr result
        (λ fault. (line : ℕ) → fault ≢ CommandFault.Edit line EditFault.Memory) }
{
    match &command.act {
        Act::Undo => undo(timeline, log, command.line),
        Act::Redo => redo(timeline, log, command.line),
        _ => match patch_of(alloc, timeline, media, command) {
            Ok(patch) => commit(timeline, log, patch),
            Err(fault) => Err(fault),
        },
    }
}
