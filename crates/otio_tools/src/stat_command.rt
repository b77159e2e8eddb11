// The counts of a timeline's items.
ghost use Rattle.std.specs.Prelude.{◌<◌, ◌^◌, ℕ, List, IfOk};
ghost use Rattle.otio_model.specs.Counts.{count as count_below};
ghost use Rattle.source_files.specs.Inputs.{input_content};
ghost use Rattle.otio_tools.specs.Opened.{AnswersInput};
ghost use Rattle.otio_tools.specs.Tools.{AnswersCounted};
ghost use Rattle.otio_tools.specs.Plan.{AreRows, Fits, IsDesk, IsEditable, Suffices};

use crate::edit_command::input_timeline;
use crate::frames_command::unsound;
use crate::planning::Planned;
use coord::sound;
use media_list::MediaList;
use otio_model::Timeline;
use show_prog::Listings;
use source_files::{Input, Refusal};
use std::alloc::Global;
use std::mem;

const COUNTS: Listings = Listings {
    tracks: false,
    clips: false,
    media: false,
    stats: true,
};

/// What is to be sent of an input that is counted: of its timeline, which a list conforms to with
/// this media list.
pub fn counts_of(alloc: Global, input: Input, media: Option<MediaList>) -> Result<Planned, Refusal>
    requires { IsEditable (input_content input) }
    ensures owed { (name : List ℕ) → Suffices (λ target answer. AnswersInput name
        (input_content input) media (AnswersCounted name target) answer) name result }
    ensures fits { IfOk result (λ planned. Fits planned) }
    ensures kind { IfOk result (λ planned. AreRows planned → ⊥) }
    ensures desk { IfOk result (λ planned. IsDesk planned → ⊥) }
{
    match input_timeline(alloc, input, media) {
        Ok(timeline) => counts_to_write(alloc, timeline),
        Err(refusal) => Err(refusal),
    }
}

// What is to be sent of a timeline that is counted: its rate, its start, its length and the counts
// of its items. An error tells the first fault of a timeline that isn't sound; or memory
// ran out.
fn counts_to_write(alloc: Global, timeline: Timeline) -> Result<Planned, Refusal>
    requires few { count_below timeline.tracks.children < 2 ^ 32 }
    ensures owed { (name : List ℕ) →
        Suffices (λ target answer. AnswersCounted name target timeline answer) name result }
    ensures fits { IfOk result (λ planned. Fits planned) }
    ensures kind { IfOk result (λ planned. AreRows planned → ⊥) }
    ensures desk { IfOk result (λ planned. IsDesk planned → ⊥) }
{
    match sound(alloc, &timeline) {
        Ok(()) => Ok(Planned::Listed(timeline, COUNTS)),
        Err(fault) => {
            mem::forget(timeline);
            Err(unsound(fault))
        }
    }
}
