// Timelines that are worked on, and scripts that are run on them.
ghost use Rattle.std.specs.Prelude.{◌≡◌, ◌≢◌, ◌<◌, ◌^◌, ℕ, IfErr, IfOk, MatchOption};
ghost use Rattle.std.specs.Option.{option_copied};
ghost use Rattle.otio_model.specs.Counts.{count as count_below};
ghost use Rattle.coord.specs.Soundness.{IsSound, IsCalm};
ghost use Rattle.edl_list.specs.Formed.{IsWellFormed};
ghost use Rattle.source_files.specs.Reasons.{reason_text};
ghost use Rattle.source_files.specs.Inputs.{input_content};
ghost use Rattle.source_files.specs.Reading.{IsRefused};
ghost use Rattle.object_law.specs.Writable.{IsTimeline as IsWritable};
ghost use Rattle.otio_tools.specs.Edited.{IsWorkOn, command_fault_text};
ghost use Rattle.otio_tools.specs.Opened.{IsConformedTo, IsOpened, IsUnconformed, IsUnmade, IsUnopened, IsUnsound};
ghost use Rattle.otio_tools.specs.Plan.{IsEditable, IsHaltOf};

use crate::Desk;
use crate::frames_command::unsound;
use crate::list_to_timeline::not_conformed;
use coord::sound;
use edit_script::{CommandFault, ScriptCommand, apply_script};
use edl_conform::conform;
use edl_list::EventList;
use media_list::MediaList;
use otio_model::{EditFault, Timeline};
use source_files::{
    Input, Reason, Refusal, edit_reason, far_command_reason, undo_reason, unlisted_reason,
};
use std::alloc::Global;
use std::mem;
use undo_log::Log;

/// The sound timeline that is worked on: the one that a file holds, or the one that its list
/// conforms to with this media list. An error tells why the list isn't conformed, or else the first
/// fault of a timeline that isn't sound; or memory ran out.
#[tactic(auto, using(crate::proofs::CalmTimelines::tables_are_calm, crate::proofs::CalmTimelines::tables_are_writable, crate::proofs::Editing::unsound_list))]
pub fn opened_timeline(
    alloc: Global,
    input: Input,
    media: Option<&MediaList>,
) -> Result<Timeline, Refusal>
    requires { IsEditable (input_content input) }
    ensures opened { IfOk result (IsOpened (input_content input) (option_copied media.entry)) }
    ensures sound { IfOk result IsSound }
    ensures written { IfOk result IsWritable }
    ensures few { IfOk result (λ timeline. count_below timeline.tracks.children < 2 ^ 32) }
    ensures refused { IfErr result
        (IsRefused (IsUnopened (input_content input) (option_copied media.entry))) }
{
    match input {
        Input::Timeline(timeline) => sound_timeline(alloc, timeline),
        Input::List(list) => match timeline_of_list(alloc, list, media) {
            Ok(timeline) => sound_timeline(alloc, timeline),
            Err(refusal) => Err(refusal),
        },
    }
}

/// The timeline that a file holds, or the one that its list conforms to with this media list. An
/// error tells why the list isn't conformed; or memory ran out. The media list isn't freed.
#[tactic(auto, using(crate::proofs::CalmTimelines::tables_are_calm))]
pub fn input_timeline(
    alloc: Global,
    input: Input,
    media: Option<MediaList>,
) -> Result<Timeline, Refusal>
    requires { IsEditable (input_content input) }
    ensures opened { IfOk result (IsOpened (input_content input) media) }
    ensures few { IfOk result (λ timeline. count_below timeline.tracks.children < 2 ^ 32) }
    ensures refused { IfErr result (IsRefused (IsUnmade (input_content input) media)) }
{
    match input {
        Input::Timeline(timeline) => {
            mem::forget(media);
            Ok(timeline)
        }
        Input::List(list) => {
            let made = timeline_of_list(alloc, list, media.as_ref());
            mem::forget(media);
            made
        }
    }
}

// The timeline, where it is sound.
fn sound_timeline(alloc: Global, timeline: Timeline) -> Result<Timeline, Refusal>
    requires calm { IsCalm timeline }
    requires few { count_below timeline.tracks.children < 2 ^ 32 }
    ensures same { IfOk result (λ found. found ≡ timeline) }
    ensures sound { IfOk result IsSound }
    ensures refused { IfErr result (IsRefused (IsUnsound timeline)) }
{
    match sound(alloc, &timeline) {
        Ok(()) => Ok(timeline),
        Err(fault) => {
            mem::forget(timeline);
            Err(unsound(fault))
        }
    }
}

// The timeline that a list conforms to. The list isn't freed: what is left of a run is to edit the
// timeline and to send it.
fn timeline_of_list(
    alloc: Global,
    list: EventList,
    media: Option<&MediaList>,
) -> Result<Timeline, Refusal>
    requires { IsWellFormed list }
    ensures timeline { IfOk result (IsConformedTo list (option_copied media.entry)) }
    ensures calm { IfOk result IsCalm }
    ensures written { IfOk result IsWritable }
    ensures few { IfOk result (λ timeline. count_below timeline.tracks.children < 2 ^ 32) }
    ensures refused { IfErr result
        (IsRefused (IsUnconformed list (option_copied media.entry))) }
{
    let timeline = conform(alloc, &list, media);
    mem::forget(list);
    match timeline {
        Ok(timeline) => Ok(timeline),
        Err(fault) => Err(not_conformed(fault)),
    }
}

/// Runs the script on a sound timeline, and gives the timeline that its commands lead to with the
/// log of what they did. An error tells the first command that is refused; or memory ran out.
/// The script isn't freed, nor is a timeline whose script is refused: what is left of a run is to
/// send an answer.
#[tactic(auto, using(crate::proofs::Starting::halted_as))]
pub fn run_script(
    alloc: Global,
    timeline: Timeline,
    script: Vec<ScriptCommand>,
    media: Option<&MediaList>,
) -> Result<Desk, Refusal>
    requires sound { IsSound timeline }
    requires few { count_below timeline.tracks.children < 2 ^ 32 }
    ensures work { IfOk result
        (IsWorkOn timeline script.items (option_copied media.entry)) }
    ensures refused { IfErr result
        (IsRefused (IsHaltOf timeline script.items (option_copied media.entry))) }
{
    let mut timeline = timeline;
    let mut log = Log::new(alloc);
    let ended = apply_script(alloc, &mut timeline, &mut log, script.as_slice(), media);
    mem::forget(script);
    match ended {
        Ok(()) => Ok(Desk { timeline, log }),
        Err(fault) => {
            mem::forget(timeline);
            mem::forget(log);
            Err(halted(fault))
        }
    }
}

// How a script is refused at a command.
fn halted(fault: CommandFault) -> Refusal
    requires { (line : ℕ) → fault ≢ CommandFault.Edit line EditFault.Memory }
    ensures { IsRefused (λ why. (fault ≢ CommandFault.Memory)
        × (why ≡ command_fault_text fault)) result }
{
    match command_reason(fault) {
        Some(reason) => Refusal::Broken(reason),
        None => Refusal::Memory,
    }
}

// What is told of a command that is refused, with its line; `None` exactly where memory ran out.
fn command_reason(fault: CommandFault) -> Option<Reason>
    requires { (line : ℕ) → fault ≢ CommandFault.Edit line EditFault.Memory }
    ensures { MatchOption result (fault ≡ CommandFault.Memory)
        (λ reason. (fault ≢ CommandFault.Memory)
        × (reason_text reason ≡ command_fault_text fault)) }
{
    match fault {
        CommandFault::NoReel(line) => Some(unlisted_reason(line)),
        CommandFault::Line(line) => Some(far_command_reason(line)),
        CommandFault::Edit { line, fault } => edit_reason(line, fault),
        CommandFault::Undo { line, fault } => Some(undo_reason(line, fault)),
        CommandFault::Memory => None,
    }
}
