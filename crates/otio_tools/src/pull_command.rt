// The pull list of a timeline.
ghost use Rattle.std.specs.Prelude.{◌<◌, ◌≤◌, ◌^◌, ℕ, List, IfOk};
ghost use Rattle.otio_model.specs.Counts.{count as count_below};
ghost use Rattle.coord.specs.Soundness.{IsFaultless};
ghost use Rattle.source_files.specs.Inputs.{input_content};
ghost use Rattle.otio_tools.specs.Opened.{AnswersInput};
ghost use Rattle.otio_tools.specs.Pulled.{AnswersPull};
ghost use Rattle.otio_tools.specs.Plan.{AreRows, Fits, IsDesk, IsEditable, Suffices};

use crate::edit_command::input_timeline;
use crate::frames_command::unsound;
use crate::planning::Planned;
use coord::sound;
use media_list::MediaList;
use otio_model::Timeline;
use pull_list::{PullFault, pull, pull_text};
use source_files::{Input, Refusal, pull_frames_reason};
use std::alloc::Global;
use std::mem;

/// What is to be sent where the pull list of an input is asked for, with so many frames on both
/// sides of each that is used: that of its timeline, which a list conforms to with this media list.
pub fn pull_of(
    alloc: Global,
    input: Input,
    media: Option<MediaList>,
    handles: u32,
) -> Result<Planned, Refusal>
    requires input { IsEditable (input_content input) }
    requires handles { handles ≤ 10000 }
    ensures owed { (name : List ℕ) → Suffices (λ target answer. AnswersInput name
        (input_content input) media (AnswersPull handles name target) answer) name result }
    ensures fits { IfOk result (λ planned. Fits planned) }
    ensures kind { IfOk result (λ planned. AreRows planned → ⊥) }
    ensures desk { IfOk result (λ planned. IsDesk planned → ⊥) }
{
    match input_timeline(alloc, input, media) {
        Ok(timeline) => pull_to_write(alloc, timeline, handles),
        Err(refusal) => Err(refusal),
    }
}

// What is to be sent of a timeline whose pull list is asked for, with so many frames on both
// sides of each that is used: its lines. An error tells the first fault of a timeline that isn't
// sound, or else that it has too many record frames; or memory ran out.
fn pull_to_write(alloc: Global, timeline: Timeline, handles: u32) -> Result<Planned, Refusal>
    requires few { count_below timeline.tracks.children < 2 ^ 32 }
    requires handles { handles ≤ 10000 }
    ensures owed { (name : List ℕ) → Suffices (λ target answer.
        AnswersPull handles name target timeline answer) name result }
    ensures fits { IfOk result (λ planned. Fits planned) }
    ensures kind { IfOk result (λ planned. AreRows planned → ⊥) }
    ensures desk { IfOk result (λ planned. IsDesk planned → ⊥) }
{
    match sound(alloc, &timeline) {
        Ok(()) => {
            let planned = pulled(alloc, &timeline, handles);
            mem::forget(timeline);
            planned
        }
        Err(fault) => {
            mem::forget(timeline);
            Err(unsound(fault))
        }
    }
}

// What is to be sent of a sound timeline.
fn pulled(alloc: Global, timeline: &Timeline, handles: u32) -> Result<Planned, Refusal>
    requires few { count_below timeline.now.tracks.children < 2 ^ 32 }
    requires handles { handles ≤ 10000 }
    requires sound { IsFaultless timeline.now }
    ensures owed { (name : List ℕ) → Suffices (λ target answer.
        AnswersPull handles name target timeline.now answer) name result }
    ensures fits { IfOk result (λ planned. Fits planned) }
    ensures kind { IfOk result (λ planned. AreRows planned → ⊥) }
    ensures desk { IfOk result (λ planned. IsDesk planned → ⊥) }
{
    match pull(alloc, timeline, handles) {
        Ok(spans) => match pull_text(alloc, spans.as_slice()) {
            Ok(text) => Ok(Planned::Text(text)),
            Err(_) => Err(Refusal::Memory),
        },
        Err(PullFault::Frames) => Err(Refusal::Broken(pull_frames_reason())),
        Err(PullFault::Memory) => Err(Refusal::Memory),
    }
}
