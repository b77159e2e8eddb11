//! The edits of a drill, one after another, and back.

ghost use Rattle.std.specs.Prelude.{◌≡◌, ◌≤◌, ◌<◌, ◌^◌, ◌+◌, ◌-◌, ℕ, Some, IfOk, OnOk};
ghost use Rattle.undo_log.specs.States.{state_of};
ghost use Rattle.edit_script.specs.Keeping.{HoldsEdits};
ghost use Rattle.edit_script.specs.Steps.{IsReady};
ghost use Rattle.drill.specs.Rewinding.{rewound};
ghost use Rattle.drill.specs.Rounds.{Drills, Goes};
ghost use Rattle.drill.specs.Turns as turns;
ghost use Rattle.drill.specs.Turns.{round_of};

use crate::frames::track_frames;
use crate::generator::Random;
use crate::one_edit::{step_back, try_act};
use media_list::MediaList;
use otio_model::Timeline;
use std::alloc::{AllocError, Global};
use undo_log::Log;

/// A timeline that is edited, and the log of its edits.
#[derive(Drop)]
pub struct Edited {
    /// The timeline as it is now.
    pub timeline: Timeline,
    /// The edits that were accepted, and those that were undone.
    pub log: Log,
}

// Draws an edit and tries it, and says whether it was accepted.
fn run_edit(
    alloc: Global,
    edited: &mut Edited,
    media: &MediaList,
    random: &mut Random,
) -> Result<bool, AllocError>
    requires ready { IsReady edited.old.log edited.old.timeline }
    ensures goes { IfOk result (λ done. (n : ℕ) → Goes (Some media.now)
        (round_of random.old.state edited.old.log edited.old.timeline n)
        (round_of random.new.state edited.new.log edited.new.timeline (turns.counted n done))) }
    ensures ready { IsReady edited.new.log edited.new.timeline }
    ensures holds { HoldsEdits edited.old.log edited.old.timeline
        → HoldsEdits edited.new.log edited.new.timeline }
{
    let frames = track_frames(&edited.timeline);
    match random.act(alloc, frames) {
        Ok(act) => try_act(alloc, &mut edited.timeline, &mut edited.log, media, act),
        Err(error) => Err(error),
    }
}

// One more where an edit was accepted.
fn counted(accepted: u32, done: bool) -> u32
    requires { accepted < 2 ^ 32 - 1 }
    ensures value { result ≡ turns.counted accepted done }
    ensures small { result ≤ accepted + 1 }
{
    if done { accepted + 1 } else { accepted }
}

/// Draws so many edits, tries each on what those before it gave, and counts the accepted ones. A
/// refused edit is passed over. An error comes where memory runs out; some of the edits were made
/// then.
pub fn run_edits(
    alloc: Global,
    edited: &mut Edited,
    media: &MediaList,
    random: &mut Random,
    count: u32,
) -> Result<u32, AllocError>
    requires ready { IsReady edited.old.log edited.old.timeline }
    ensures drills { IfOk result (λ accepted. Drills (Some media.now) count
        (round_of random.old.state edited.old.log edited.old.timeline 0)
        (round_of random.new.state edited.new.log edited.new.timeline accepted)) }
    ensures few { IfOk result (λ accepted. accepted ≤ count) }
    ensures ready { IsReady edited.new.log edited.new.timeline }
    ensures edits { HoldsEdits edited.old.log edited.old.timeline
        → HoldsEdits edited.new.log edited.new.timeline }
{
    let mut accepted: u32 = 0;
    'edits: for index in 0..count {
        match run_edit(alloc, edited, media, random) {
            Ok(done) => accepted = counted(accepted, done),
            Err(error) => return Err(error),
        }
    }
    Ok(accepted)
}

/// Undoes all edits, the last first. An error comes where memory runs out; some of the edits are
/// undone then.
pub fn undo_all(alloc: Global, timeline: &mut Timeline, log: &mut Log) -> Result<(), AllocError>
    requires ready { IsReady log.old timeline.old }
    ensures state { OnOk result
        (state_of log.new timeline.new ≡ rewound (state_of log.old timeline.old)) }
    ensures ready { IsReady log.new timeline.new }
    ensures edits { HoldsEdits log.old timeline.old → HoldsEdits log.new timeline.new }
{
    'steps: loop {
        match step_back(alloc, timeline, log) {
            Ok(true) => {}
            Ok(false) => return Ok(()),
            Err(error) => return Err(error),
        }
    }
}
