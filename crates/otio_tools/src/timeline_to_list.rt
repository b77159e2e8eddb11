// Timelines that are written as lists.
ghost use Rattle.std.specs.Prelude.{◌≡◌, ◌≢◌, ◌<◌, ◌^◌, ℕ, List, true, false, IfOk, IfErr};
ghost use Rattle.std.specs.Option.{option_copied};
ghost use Rattle.otio_model.specs.Counts.{count as count_below};
ghost use Rattle.coord.specs.Soundness.{IsFaultless};
ghost use Rattle.edl_frames.specs.Carried.{IsNotCarried};
ghost use Rattle.edl_law.specs.Premises.{AreListed};
ghost use Rattle.source_files.specs.Faults.{not_carried_text};
ghost use Rattle.source_files.specs.Formats.{IsOfTables};
ghost use Rattle.source_files.specs.Reading.{IsRefused};
ghost use Rattle.otio_tools.specs.Carried.{AnswersCarried};
ghost use Rattle.otio_tools.specs.Plan.{AreRows, Fits, IsCarriedBy, IsDesk, Suffices};

use crate::frames_command::unsound;
use crate::name_checks::{check_notes, check_texts};
use crate::planning::Planned;
use coord::sound;
use edl_conform::events;
use edl_frames::NotCarried;
use edl_list::EventList;
use edl_notes::notes_of;
use media_list::MediaList;
use otio_model::Timeline;
use source_files::{Refusal, not_carried_reason};
use std::alloc::Global;
use std::mem;

/// How a timeline is written as a list.
#[derive(Clone, Copy)]
pub struct ListWays {
    /// Whether the list has drop-frame timecode.
    pub drop: bool,
    /// Whether it is in the wide layout.
    pub wide: bool,
    /// Whether it has the notes of the timeline's clips.
    pub notes: bool,
}

/// What is to be sent of a timeline that is written as the list of its events, with the media of
/// this media list, with drop-frame timecode or without, in the wide layout or the narrow one, with
/// the notes of its clips or without: the list's spelling. An error tells the first fault of a
/// timeline that isn't sound, or else the first child that a list doesn't carry; or memory ran out.
pub fn timeline_to_list(
    alloc: Global,
    timeline: Timeline,
    media: Option<MediaList>,
    ways: ListWays,
) -> Result<Planned, Refusal>
    requires { IsOfTables timeline }
    ensures owed { (name : List ℕ) → Suffices (λ target answer.
        AnswersCarried ways.notes ways.drop ways.wide name media target timeline answer)
        name result }
    ensures fits { IfOk result (λ planned. Fits planned) }
    ensures kind { IfOk result (λ planned. AreRows planned → ⊥) }
    ensures desk { IfOk result (λ planned. IsDesk planned → ⊥) }
{
    let ListWays { drop, wide, notes } = ways;
    match sound(alloc, &timeline) {
        Ok(()) => {
            if notes {
                noted_to_list(alloc, timeline, media, drop, wide)
            } else {
                sound_to_list(alloc, timeline, media, drop, wide)
            }
        }
        Err(fault) => {
            mem::forget(timeline);
            mem::forget(media);
            Err(unsound(fault))
        }
    }
}

// What is to be sent of a sound timeline, without notes. The timeline isn't freed: what is left of
// a run is to send the list.
fn sound_to_list(
    alloc: Global,
    timeline: Timeline,
    media: Option<MediaList>,
    drop: bool,
    wide: bool,
) -> Result<Planned, Refusal>
    requires tables { IsOfTables timeline }
    requires sound { IsFaultless timeline }
    ensures owed { (name : List ℕ) → Suffices (λ target answer.
        AnswersCarried false drop wide name media target timeline answer) name result }
    ensures fits { IfOk result (λ planned. Fits planned) }
    ensures kind { IfOk result (λ planned. AreRows planned → ⊥) }
    ensures desk { IfOk result (λ planned. IsDesk planned → ⊥) }
{
    let list = list_of(alloc, &timeline, media, drop, wide);
    mem::forget(timeline);
    match list {
        Ok(list) => {
            check_texts(&list);
            Ok(Planned::Events { list, drop, wide })
        }
        Err(fault) => Err(uncarried(fault)),
    }
}

// What is to be sent of a sound timeline with the notes of its clips. The timeline isn't freed:
// what is left of a run is to send the list.
fn noted_to_list(
    alloc: Global,
    timeline: Timeline,
    media: Option<MediaList>,
    drop: bool,
    wide: bool,
) -> Result<Planned, Refusal>
    requires tables { IsOfTables timeline }
    requires sound { IsFaultless timeline }
    ensures owed { (name : List ℕ) → Suffices (λ target answer.
        AnswersCarried true drop wide name media target timeline answer) name result }
    ensures fits { IfOk result (λ planned. Fits planned) }
    ensures kind { IfOk result (λ planned. AreRows planned → ⊥) }
    ensures desk { IfOk result (λ planned. IsDesk planned → ⊥) }
{
    match list_of(alloc, &timeline, media, drop, wide) {
        Ok(list) => {
            let notes = notes_of(alloc, &timeline, &list);
            mem::forget(timeline);
            match notes {
                Ok(notes) => {
                    check_texts(&list);
                    check_notes(&notes);
                    Ok(Planned::Noted {
                        list,
                        notes,
                        drop,
                        wide,
                    })
                }
                Err(_) => {
                    mem::forget(list);
                    Err(Refusal::Memory)
                }
            }
        }
        Err(fault) => {
            mem::forget(timeline);
            Err(uncarried(fault))
        }
    }
}

// The list of a timeline's events. The media list isn't freed: what is left of a run is to send the
// list.
fn list_of(
    alloc: Global,
    timeline: &Timeline,
    media: Option<MediaList>,
    drop: bool,
    wide: bool,
) -> Result<EventList, NotCarried>
    requires sound { IsFaultless timeline.now }
    requires few { count_below timeline.now.tracks.children < 2 ^ 32 }
    ensures list { IfOk result (IsCarriedBy timeline.now media drop wide) }
    ensures fault { IfErr result (IsNotCarried timeline.now media drop wide) }
{
    let rows = media.as_ref();
    let list = events(alloc, timeline, rows, drop, wide);
    note_rows(rows);
    mem::forget(media);
    list
}

// Shows that the rows of a media list are distinct.
fn note_rows(media: Option<&MediaList>)
    ensures { AreListed (option_copied media.entry) }
{
    match media {
        Some(list) => {
            let _ = list.rows();
        }
        None => {}
    }
}

// How a timeline that a list doesn't carry is refused.
fn uncarried(fault: NotCarried) -> Refusal
    ensures { IsRefused (λ why. (fault ≢ NotCarried.Memory)
        × (why ≡ not_carried_text fault)) result }
{
    match not_carried_reason(fault) {
        Some(reason) => Refusal::Broken(reason),
        None => Refusal::Memory,
    }
}
