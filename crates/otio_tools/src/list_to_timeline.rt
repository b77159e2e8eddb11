// Lists that are conformed.
ghost use Rattle.std.specs.Prelude.{◌≡◌, ◌≢◌, ◌<◌, ◌^◌, ℕ, List, IfOk, IfErr};
ghost use Rattle.otio_model.specs.Counts.{count as count_below};
ghost use Rattle.edl_list.specs.Formed.{IsWellFormed};
ghost use Rattle.source_files.specs.Faults.{conform_fault_text};
ghost use Rattle.source_files.specs.Reading.{IsRefused};
ghost use Rattle.edl_frames.specs.Faults.{IsConformFault};
ghost use Rattle.otio_tools.specs.Conformed.{AnswersConformed};
ghost use Rattle.otio_tools.specs.Objects.{AnswersObject};
ghost use Rattle.otio_model.specs.declared.objects.Object.{Timeline as ObjectOfTimeline};
ghost use Rattle.otio_tools.specs.Opened.{IsConformedTo};
ghost use Rattle.otio_tools.specs.Plan.{AreRows, Fits, IsDesk, Suffices};

use crate::planning::Planned;
use crate::written_objects::object_to_write;
use edl_conform::conform;
use edl_frames::ConformFault;
use edl_list::EventList;
use media_list::MediaList;
use otio_model::{Object, Timeline};
use source_files::{Refusal, conform_reason};
use std::alloc::Global;
use std::mem;

/// What is to be sent of a list that is conformed with this media list and written, in the older
/// family or the newer one: its timeline, or the first fault of an event, or that there are too
/// many items.
pub fn conformed_to_write(
    alloc: Global,
    list: EventList,
    media: Option<MediaList>,
    older: bool,
) -> Result<Planned, Refusal>
    requires { IsWellFormed list }
    ensures owed { (name : List ℕ) → Suffices (λ target answer.
        AnswersConformed name list media
        (λ t. AnswersObject older name target (ObjectOfTimeline t)) answer) name result }
    ensures fits { IfOk result (λ planned. Fits planned) }
    ensures kind { IfOk result (λ planned. AreRows planned → ⊥) }
    ensures desk { IfOk result (λ planned. IsDesk planned → ⊥) }
{
    match conformed(alloc, list, media) {
        Ok(timeline) => object_to_write(alloc, Object::Timeline(timeline), older),
        Err(fault) => Err(not_conformed(fault)),
    }
}

/// The timeline that a list conforms to, or why it isn't conformed. The list and the media list
/// aren't freed: what is left of a run is to send the timeline.
pub fn conformed(
    alloc: Global,
    list: EventList,
    media: Option<MediaList>,
) -> Result<Timeline, ConformFault>
    requires { IsWellFormed list }
    ensures timeline { IfOk result (IsConformedTo list media) }
    ensures few { IfOk result (λ timeline. count_below timeline.tracks.children < 2 ^ 32) }
    ensures fault { IfErr result (IsConformFault list media) }
{
    let timeline = conformed_with(alloc, &list, media);
    mem::forget(list);
    timeline
}

/// The same of a list that is used again. The media list isn't freed.
pub fn conformed_with(
    alloc: Global,
    list: &EventList,
    media: Option<MediaList>,
) -> Result<Timeline, ConformFault>
    requires { IsWellFormed list.now }
    ensures timeline { IfOk result (IsConformedTo list.now media) }
    ensures few { IfOk result (λ timeline. count_below timeline.tracks.children < 2 ^ 32) }
    ensures fault { IfErr result (IsConformFault list.now media) }
{
    let timeline = conform(alloc, list, media.as_ref());
    mem::forget(media);
    timeline
}

/// How a list that isn't conformed is refused.
pub fn not_conformed(fault: ConformFault) -> Refusal
    ensures { IsRefused (λ why. (fault ≢ ConformFault.Memory)
        × (why ≡ conform_fault_text fault)) result }
{
    match conform_reason(fault) {
        Some(reason) => Refusal::Broken(reason),
        None => Refusal::Memory,
    }
}
