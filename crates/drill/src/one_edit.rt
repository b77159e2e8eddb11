//! One edit of a drill, and one step back.

ghost use Rattle.std.specs.Prelude.{◌≡◌, ◌≢◌, true, false, Some, None, IfOk};
ghost use Rattle.undo_log.specs.States.{back, state_of};
ghost use Rattle.edit_script.specs.Keeping.{HoldsEdits};
ghost use Rattle.edit_script.specs.Steps.{IsReady};
ghost use Rattle.drill.specs.Turns.{WasTried, WentBack};

use edit_script::{Act, CommandFault, ScriptCommand, apply_script};
use media_list::MediaList;
use otio_model::Timeline;
use std::alloc::{AllocError, Global};
use undo_log::Log;

// That a command wasn't carried out, unless memory ran out.
fn refused(fault: CommandFault) -> Result<bool, AllocError>
    ensures no { IfOk result (λ done. done ≡ false) }
    ensures fault { IfOk result (λ done. fault ≢ CommandFault.Memory) }
{
    match fault {
        CommandFault::Memory => Err(AllocError),
        CommandFault::NoReel(_) => Ok(false),
        CommandFault::Line(_) => Ok(false),
        CommandFault::Edit { .. } => Ok(false),
        CommandFault::Undo { .. } => Ok(false),
    }
}

/// Tries an act, and says whether it was carried out. Where it is refused timeline and log stay.
pub(crate) fn try_act(
    alloc: Global,
    timeline: &mut Timeline,
    log: &mut Log,
    media: &MediaList,
    act: Act,
) -> Result<bool, AllocError>
    requires ready { IsReady log.old timeline.old }
    ensures tried { IfOk result (WasTried (Some media.now) act log.old timeline.old
        log.new timeline.new) }
    ensures ready { IsReady log.new timeline.new }
    ensures holds { HoldsEdits log.old timeline.old → HoldsEdits log.new timeline.new }
{
    let script = [ScriptCommand { line: 0, act }];
    match apply_script(alloc, timeline, log, &script, Some(media)) {
        Ok(()) => Ok(true),
        Err(fault) => refused(fault),
    }
}

/// Takes the last edit back, and says whether there was one. Without one timeline and log stay.
pub(crate) fn step_back(
    alloc: Global,
    timeline: &mut Timeline,
    log: &mut Log,
) -> Result<bool, AllocError>
    requires ready { IsReady log.old timeline.old }
    ensures back { IfOk result (WentBack (state_of log.old timeline.old)
        (state_of log.new timeline.new)) }
    ensures ready { IsReady log.new timeline.new }
    ensures holds { HoldsEdits log.old timeline.old → HoldsEdits log.new timeline.new }
{
    let script = [ScriptCommand {
        line: 0,
        act: Act::Undo,
    }];
    match apply_script(alloc, timeline, log, &script, None) {
        Ok(()) => Ok(true),
        Err(fault) => refused(fault),
    }
}
