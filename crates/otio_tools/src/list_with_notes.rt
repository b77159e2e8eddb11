// Lists that are conformed with their notes.
ghost use Rattle.std.specs.Prelude.{ℕ, List, IfOk};
ghost use Rattle.otio_model.specs.declared.objects.Object.{Timeline as ObjectOfTimeline};
ghost use Rattle.source_files.specs.Formats.{SuitsNotes};
ghost use Rattle.otio_tools.specs.Conformed.{AnswersConformed};
ghost use Rattle.otio_tools.specs.Objects.{AnswersObject};
ghost use Rattle.otio_tools.specs.Plan.{AreRows, Fits, IsDesk, Suffices};
ghost use Rattle.otio_tools.specs.Written.{AnswersNoted};

use crate::list_to_timeline::{conformed_with, not_conformed};
use crate::planning::Planned;
use crate::written_objects::object_to_write;
use edl_list::EventList;
use edl_notes::add_notes;
use media_list::MediaList;
use note_text::Notes;
use otio_model::Object;
use source_files::Refusal;
use std::alloc::Global;
use std::mem;

/// What is to be sent of a list that is conformed with this media list and written with its notes,
/// in the older family or the newer one: its timeline with them, or the first fault of an event, or
/// that there are too many items.
pub fn noted_to_write(
    alloc: Global,
    list: EventList,
    notes: Notes,
    media: Option<MediaList>,
    older: bool,
) -> Result<Planned, Refusal>
    requires { SuitsNotes list notes }
    ensures owed { (name : List ℕ) → Suffices (λ target answer.
        AnswersConformed name list media (AnswersNoted list notes
        (λ t. AnswersObject older name target (ObjectOfTimeline t))) answer) name result }
    ensures fits { IfOk result (λ planned. Fits planned) }
    ensures kind { IfOk result (λ planned. AreRows planned → ⊥) }
    ensures desk { IfOk result (λ planned. IsDesk planned → ⊥) }
{
    match conformed_with(alloc, &list, media) {
        Ok(timeline) => {
            let noted = add_notes(alloc, timeline, &list, &notes);
            mem::forget(list);
            mem::forget(notes);
            match noted {
                Ok(timeline) => object_to_write(alloc, Object::Timeline(timeline), older),
                Err(_) => Err(Refusal::Memory),
            }
        }
        Err(fault) => {
            mem::forget(list);
            mem::forget(notes);
            Err(not_conformed(fault))
        }
    }
}
