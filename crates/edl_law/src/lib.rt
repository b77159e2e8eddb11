//! The text that is written of a list is read as the same list; what lists show, the timelines that
//! they stand for, and what these show; what is written of a timeline that a list conforms to
//! stands for it; and a list that is written of a timeline, read again and conformed, shows what
//! the timeline shows: laws of the definitions that `edl_list`, `edl_text` and `edl_frames` have.
//! Their functions do nothing.
#![tactic(auto)]

ghost use Rattle.std.specs.Prelude.{ℕ, ◌≤◌};
ghost use Rattle.tick_time.specs.Decimals.{IsNearestEven};
ghost use Rattle.edl_list.specs.Speeds.{half_even};
ghost use Rattle.edl_law.specs.Law.{SpellingIsRead};
ghost use Rattle.edl_list.specs.declared.list.EventList.{EventList};
ghost use Rattle.edl_list.specs.Formed.{IsWellFormed};
ghost use Rattle.media_rows.specs.Rows.{MediaRows};
ghost use Rattle.edl_frames.specs.Conformed.{IsTimelineOf};
ghost use Rattle.otio_model.specs.declared.timelines.Timeline.{Timeline};
ghost use Rattle.otio_model.specs.declared.objects.Object.{Timeline as ObjectOfTimeline};
ghost use Rattle.schema_rows.specs.Stands.{Stands};
ghost use Rattle.schema_write.specs.Objects.{json_of};
ghost use Rattle.object_law.specs.Writable.{IsObject};

mod frame_laws;
mod written_laws;

pub use frame_laws::{
    conform_faults_are_one, conformed_timelines_are_calm, conformed_timelines_are_one,
    conformed_timelines_are_there, conformed_timelines_show_lists, frames_are_kept, lists_are_fine,
    lists_are_there, lists_are_worked, lists_of_timelines_are_one, lists_show_timelines,
    narrow_lists_have_few_items, reasons_are_one, timelines_have_counts, tracks_are_worked,
};
pub use written_laws::written_lists_keep_frames;

/// Law: the text of a list that [`edl_text::write_list`] sends is read, at the rate of the list,
/// as a list that is the same, and as no other. It holds of each well formed and even list that
/// fits the layout that is asked for, whose labels are below the day and whose text is no larger
/// than a reader takes. It does nothing.
pub fn edl_round_trip()
    ensures { SpellingIsRead }
{}

/// Law: the word by which lists round speeds gives the nearest whole number, and the even one of
/// two. It does nothing.
pub fn speeds_are_nearest()
    ensures { (a b : ℕ) → 1 ≤ b → IsNearestEven a b (half_even a b) }
{}

/// Law: the timeline of a well formed list is writable, so what is written of it stands for it. It
/// does nothing.
pub fn conformed_timelines_are_writable()
    ensures writable { (list : EventList) (media : MediaRows) (t : Timeline) →
        IsWellFormed list → IsTimelineOf list media t → IsObject (ObjectOfTimeline t) }
    ensures again { (list : EventList) (media : MediaRows) (t : Timeline) →
        IsWellFormed list → IsTimelineOf list media t →
        Stands (json_of (ObjectOfTimeline t)) (ObjectOfTimeline t) }
{}
