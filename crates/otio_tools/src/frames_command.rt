// The frames of a timeline.
ghost use Rattle.std.specs.Prelude.{◌≡◌, ◌≢◌, ◌<◌, ◌^◌, ℕ, List, IfOk};
ghost use Rattle.otio_model.specs.Counts.{count as count_below};
ghost use Rattle.coord.specs.Soundness.{IsFaultless};
ghost use Rattle.source_files.specs.Faults.{coord_fault_text};
ghost use Rattle.source_files.specs.Reading.{IsRefused};
ghost use Rattle.otio_tools.specs.Frames.{AnswersTimeline};
ghost use Rattle.source_files.specs.Inputs.{input_content};
ghost use Rattle.otio_tools.specs.Opened.{AnswersInput};
ghost use Rattle.otio_tools.specs.Plan.{Fits, IsDesk, IsEditable, Suffices};

use crate::edit_command::input_timeline;
use crate::planning::Planned;
use command_words::FramesAsked;
use coord::{CoordFault, sound};
use media_list::MediaList;
use otio_model::Timeline;
use show_prog::listing_of;
use source_files::{Input, Refusal, coord_reason, range_reason};
use std::alloc::Global;
use std::mem;

/// What is to be sent where the frames of an input are asked for: those of its timeline, which a
/// list conforms to with this media list.
pub fn frames_of(
    alloc: Global,
    input: Input,
    media: Option<MediaList>,
    asked: FramesAsked,
) -> Result<Planned, Refusal>
    requires { IsEditable (input_content input) }
    ensures owed { (name : List ℕ) → Suffices (λ target answer. AnswersInput name
        (input_content input) media (AnswersTimeline asked name target) answer) name result }
    ensures fits { IfOk result (λ planned. Fits planned) }
    ensures desk { IfOk result (λ planned. IsDesk planned → ⊥) }
{
    match input_timeline(alloc, input, media) {
        Ok(timeline) => frames_to_write(alloc, timeline, asked),
        Err(refusal) => Err(refusal),
    }
}

// What is to be sent of a timeline whose frames are asked for: the rows of one child of its root
// or of all, from a record point or its first frame on, so many or up to its end. An error tells
// the first fault of a timeline that isn't sound, or else a start that is no label at the record
// rate; or memory ran out.
fn frames_to_write(
    alloc: Global,
    timeline: Timeline,
    asked: FramesAsked,
) -> Result<Planned, Refusal>
    requires few { count_below timeline.tracks.children < 2 ^ 32 }
    ensures owed { (name : List ℕ) →
        Suffices (λ target answer. AnswersTimeline asked name target timeline answer) name result }
    ensures fits { IfOk result (λ planned. Fits planned) }
    ensures desk { IfOk result (λ planned. IsDesk planned → ⊥) }
{
    match sound(alloc, &timeline) {
        Ok(()) => rows_of(timeline, asked),
        Err(fault) => {
            mem::forget(timeline);
            Err(unsound(fault))
        }
    }
}

// What is to be sent of a sound timeline.
fn rows_of(timeline: Timeline, asked: FramesAsked) -> Result<Planned, Refusal>
    requires few { count_below timeline.tracks.children < 2 ^ 32 }
    requires sound { IsFaultless timeline }
    ensures owed { (name : List ℕ) →
        Suffices (λ target answer. AnswersTimeline asked name target timeline answer) name result }
    ensures fits { IfOk result (λ planned. Fits planned) }
    ensures desk { IfOk result (λ planned. IsDesk planned → ⊥) }
{
    match listing_of(&timeline, asked.child, asked.start, asked.count) {
        Some(listing) => Ok(Planned::Rows(timeline, listing)),
        None => {
            mem::forget(timeline);
            Err(Refusal::Broken(range_reason()))
        }
    }
}

/// How the first fault of a timeline is refused.
pub fn unsound(fault: CoordFault) -> Refusal
    ensures { IsRefused (λ why. (fault ≢ CoordFault.Memory)
        × (why ≡ coord_fault_text fault)) result }
{
    match coord_reason(fault) {
        Some(reason) => Refusal::Broken(reason),
        None => Refusal::Memory,
    }
}
