// Drills.
ghost use Rattle.std.specs.Prelude.{◌≡◌, None};
ghost use Rattle.dev_io.specs.Calls.{Tells, SendsAll, IsFresh};
ghost use Rattle.drill.specs.Lines.{tally_text};
ghost use Rattle.otio_tools.specs.Drilled.{EndsDrill, SendsTally};
ghost use Rattle.dev_io.specs.OutputCauses.{HasOutputCause};
ghost use Rattle.otio_tools.specs.Plan.{WritesTo};
ghost use Rattle.otio_tools.specs.Run.{streams};
ghost use Rattle.otio_tools.specs.Texts.{text_at};

use crate::command::{complain_of_memory, complain_of_output};
use crate::{Desk, Status};
use command_words::DrillAsked;
use dev_io::{Out, OutputFault};
use drill::{Drilled, Tally, drill, write_tally};
use std::alloc::Global;
use std::mem;

/// Does a drill, and sends what it tells. Its timeline and log, all edits undone, are left on the
/// desk.
pub fn serve_drill<W: Out, E: Out>(
    alloc: Global,
    asked: DrillAsked<'_>,
    out: &mut W,
    err: &mut E,
    desk: &mut Option<Desk>,
) -> Status
    requires fresh { IsFresh (W.known out.old) }
    requires empty { desk.old ≡ None }
    ensures { EndsDrill asked.entry.seed asked.entry.count (text_at asked.entry.target)
        (streams W.faults W.known E.faults E.known out.old out.new err.old err.new) result
        desk.new }
{
    match drill(alloc, asked.seed, asked.count) {
        Ok(drilled) => {
            let Drilled {
                tally,
                timeline,
                log,
            } = drilled;
            let status = send_tally(asked.target, tally, out, err);
            mem::forget(mem::replace(desk, Some(Desk { timeline, log })));
            status
        }
        Err(_) => complain_of_memory(err),
    }
}

// Sends what a drill tells.
fn send_tally<W: Out, E: Out>(
    target: Option<&str>,
    tally: Tally,
    out: &mut W,
    err: &mut E,
) -> Status
    requires fresh { IsFresh (W.known out.old) }
    ensures { SendsTally (text_at target.entry) tally
        (streams W.faults W.known E.faults E.known out.old out.new err.old err.new) result }
{
    match write_tally_to(target, tally, out) {
        Ok(()) => Status::Done,
        Err(fault) => complain_of_output(fault, err),
    }
}

// Sends what a drill tells to the target.
fn write_tally_to<W: Out>(
    target: Option<&str>,
    tally: Tally,
    out: &mut W,
) -> Result<(), OutputFault>
    requires fresh { IsFresh (W.known out.old) }
    ensures told { Tells (WritesTo (text_at target.entry) (tally_text tally) result)
        (W.known out.old) (W.known out.new) }
    ensures cause { HasOutputCause ⊥ (W.faults out.old) (W.faults out.new) result }
{
    match target {
        None => write_told(tally, out),
        Some(name) => match out.aim(name) {
            Ok(()) => write_told(tally, out),
            Err(_) => Err(OutputFault::Sink),
        },
    }
}

// Sends what a drill tells where the stream writes.
fn write_told<W: Out>(tally: Tally, out: &mut W) -> Result<(), OutputFault>
    ensures told { Tells (SendsAll (tally_text tally) result) (W.known out.old) (W.known out.new) }
    ensures cause { HasOutputCause ⊥ (W.faults out.old) (W.faults out.new) result }
{
    match write_tally(tally, out) {
        Ok(()) => Ok(()),
        Err(_) => Err(OutputFault::Sink),
    }
}
