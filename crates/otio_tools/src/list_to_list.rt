// Lists that are written as lists.
ghost use Rattle.std.specs.Prelude.{◌≡◌, ◌↔◌, ◌||◌, ℕ, List, Option, Some, IsTrue, IsSome, IfOk, IfErr, OnOk, MatchOption, All, false};
ghost use Rattle.smpte_tc.specs.Modes.{mode_of};
ghost use Rattle.edl_list.specs.Formed.{IsWellFormed};
ghost use Rattle.edl_list.specs.Layouts.{layout_of, FitsEvent};
ghost use Rattle.edl_text.specs.Spelling.{spelling};
ghost use Rattle.edl_text.specs.Wide.{IsFirstWide};
ghost use Rattle.note_text.specs.Belonging.{below_day};
ghost use Rattle.note_text.specs.NotedSpelling.{noted_spelling};
ghost use Rattle.source_files.specs.Formats.{SuitsNotes};
ghost use Rattle.source_files.specs.Reasons.{reason_text};
ghost use Rattle.otio_tools.specs.Events.{AnswersEvents, CanBeWritten};
ghost use Rattle.otio_tools.specs.Forms.{refused};
ghost use Rattle.otio_tools.specs.Plan.{AreRows, Fits, IsDesk, IsWritableIn, Suffices};

use crate::planning::Planned;
use edl_list::{EventList, most_events};
use edl_text::{first_label_past_day, first_wide_reel};
use note_text::{Notes, notes_below_day, notes_by_event};
use smpte_tc::{TcFault, label};
use source_files::{Reason, Refusal, day_reason, events_reason, no_timecode_reason, reel_reason};
use std::mem;
use tick_time::Rate;

// Whether a rate has timecode, with drop-frame or without.
fn has_timecode(rate: Rate, drop: bool) -> bool
    ensures { IsTrue result ↔ IsSome (mode_of rate drop) }
{
    match label(0, rate, drop) {
        Err(TcFault::NoTimecode) => false,
        _ => true,
    }
}

// Whether a list is written with drop-frame timecode: where that is asked for, or the list has it.
fn is_drop(asked: bool, list: &EventList) -> bool
    ensures { result ≡ (asked || list.now.drop) }
{
    asked || list.drop
}

// The line of the first event with a reel that the layout has no room for.
fn first_reel_outside(list: &EventList, wide: bool) -> Option<u32>
    requires { IsWellFormed list.now }
    ensures { MatchOption result (All (FitsEvent (layout_of wide)) list.now.events)
        (λ line. (wide ≡ false) × IsFirstWide list.now.events (Some line)) }
{
    if wide {
        return None;
    }
    first_wide_reel(list)
}

// Whether a list can be written in this mode and layout, or the first reason why it can't.
fn check_list(list: &EventList, drop: bool, wide: bool) -> Result<(), Reason>
    requires { IsWellFormed list.now }
    ensures fits { OnOk result (IsWritableIn list.now drop wide) }
    ensures refused { IfErr result (λ reason. (text name : List ℕ) (target : Option (List ℕ)) →
        AnswersEvents name target list.now drop wide text (refused name (reason_text reason))) }
{
    if !has_timecode(list.rate, drop) {
        return Err(no_timecode_reason());
    }
    if list.events.len() > most_events(wide) {
        return Err(events_reason());
    }
    match first_reel_outside(list, wide) {
        Some(line) => Err(reel_reason(line)),
        None => check_labels(list, drop, wide),
    }
}

// The same of a list whose events and reels stand in the columns of the layout.
fn check_labels(list: &EventList, drop: bool, wide: bool) -> Result<(), Reason>
    requires formed { IsWellFormed list.now }
    requires can { CanBeWritten list.now drop wide }
    ensures fits { OnOk result (IsWritableIn list.now drop wide) }
    ensures refused { IfErr result (λ reason. (text name : List ℕ) (target : Option (List ℕ)) →
        AnswersEvents name target list.now drop wide text (refused name (reason_text reason))) }
{
    match first_label_past_day(list, drop) {
        Some(line) => Err(day_reason(line)),
        None => Ok(()),
    }
}

/// What is to be sent of a list, with drop-frame timecode where that is asked for or the list has
/// it, in the wide layout or the narrow one: its spelling, or the first reason why it can't be
/// written.
pub fn list_to_write(list: EventList, asked: bool, wide: bool) -> Result<Planned, Refusal>
    requires { IsWellFormed list }
    ensures owed { (name : List ℕ) → Suffices (λ target answer. AnswersEvents name target list
        (asked || list.drop) wide (spelling list (asked || list.drop) wide) answer) name result }
    ensures fits { IfOk result (λ planned. Fits planned) }
    ensures kind { IfOk result (λ planned. AreRows planned → ⊥) }
    ensures desk { IfOk result (λ planned. IsDesk planned → ⊥) }
{
    let drop = is_drop(asked, &list);
    match check_list(&list, drop, wide) {
        Ok(()) => Ok(Planned::Events { list, drop, wide }),
        Err(reason) => {
            mem::forget(list);
            Err(Refusal::Broken(reason))
        }
    }
}

/// What is to be sent of a list and its notes, with drop-frame timecode where that is asked for or
/// the list has it, in the wide layout or the narrow one: its spelling with the notes that are
/// below the day in that mode, or the first reason why it can't be written; or memory ran out.
pub fn noted_list_to_write(
    list: EventList,
    notes: Notes,
    asked: bool,
    wide: bool,
) -> Result<Planned, Refusal>
    requires { SuitsNotes list notes }
    ensures owed { (name : List ℕ) → Suffices (λ target answer. AnswersEvents name target list
        (asked || list.drop) wide (noted_spelling list
        (below_day list.rate (asked || list.drop) notes) (asked || list.drop) wide) answer)
        name result }
    ensures fits { IfOk result (λ planned. Fits planned) }
    ensures kind { IfOk result (λ planned. AreRows planned → ⊥) }
    ensures desk { IfOk result (λ planned. IsDesk planned → ⊥) }
{
    let drop = is_drop(asked, &list);
    match check_list(&list, drop, wide) {
        Ok(()) => match notes_by_event(notes_below_day(notes, list.rate, drop)) {
            Ok(notes) => Ok(Planned::Noted {
                list,
                notes,
                drop,
                wide,
            }),
            Err(_) => {
                mem::forget(list);
                Err(Refusal::Memory)
            }
        },
        Err(reason) => {
            mem::forget(list);
            mem::forget(notes);
            Err(Refusal::Broken(reason))
        }
    }
}
