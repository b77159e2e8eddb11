// What is to be sent for a command, or why there is nothing.
ghost use Rattle.std.specs.Prelude.{◌≡◌, ◌∷◌, ℕ, List, Option, Some, IfOk, IfErr, false, length, suc};
ghost use Rattle.std.specs.Option.{option_copied};
ghost use Rattle.command_words.specs.Asked.{other_names};
ghost use Rattle.command_words.specs.declared.requests.Command.{Command as AnyCommand};
ghost use Rattle.command_words.specs.declared.requests.Command.TheVariants.{ListToList as ListAgain, ListToObjects as ListAsObjects};
ghost use Rattle.tick_time.specs.declared.rates.Rate.{Rate as AnyRate};
ghost use Rattle.source_files.specs.Following.{Follows};
ghost use Rattle.source_files.specs.HandedFiles.{HandsOver};
ghost use Rattle.source_files.specs.Order.{IsAmong};
ghost use Rattle.source_files.specs.Reading.{RaisedAt, names_of, Source};
ghost use Rattle.source_files.specs.Contents.{Content as AnyContent};
ghost use Rattle.source_files.specs.Inputs.{input_content, input_kind};
ghost use Rattle.otio_tools.specs.Asked.{EditsTimeline, IsScripted, asked_alone, asked_edit, asked_for, asked_work, edit_files, files_alone, files_of, kind_of, one_file};
ghost use Rattle.otio_tools.specs.Asked as asking;
ghost use Rattle.otio_tools.specs.Several.{HasJoining};
ghost use Rattle.otio_tools.specs.Pulled.{HasFewHandles};
ghost use Rattle.otio_tools.specs.Answer.{AnswersHeld};
ghost use Rattle.otio_tools.specs.Plan.{PlansHeld, Suffices, AreEditParts, AreRows, Fits, IsDesk, IsDeskFor, IsEditable, IsFor, LeavesWork, media_content};
ghost use Rattle.otio_tools.specs.Works.{IsEditOf, IsFitList, IsFitWork, IsFramesWork, IsWorkOf, content_of, is_noted, list_content};
ghost use Rattle.otio_tools.specs.Reported.{IsToldOf};
ghost use Rattle.otio_tools.specs.Served.{PlansGiven};
ghost use Rattle.otio_tools.specs.Texts.{text_at};

use crate::Desk;
use crate::cat_and_tool::plan_several;
use crate::edit_command::{opened_timeline, run_script};
use crate::frames_command::frames_of;
use crate::list_to_list::{list_to_write, noted_list_to_write};
use crate::list_to_timeline::conformed_to_write;
use crate::list_with_notes::noted_to_write;
use crate::pull_command::pull_of;
use crate::stat_command::counts_of;
use crate::timeline_to_list::timeline_to_list;
use crate::work_files::{HeldList, Work, media_after, work_file};
use crate::written_objects::object_to_write;
use command_words::{Command, Others};
use dev_io::Files;
use edit_script::ScriptCommand;
use edl_list::EventList;
use json_value::Json;
use media_list::MediaList;
use note_text::Notes;
use otio_model::{Object, Timeline};
use show_prog::{Listing, Listings};
use source_files::{
    Input, InputFile, InputKind, ReadFault, Refusal, SourceFault, input_file, script_file,
};
use std::alloc::Global;
use std::mem;

/// What is to be sent.
#[derive(Drop)]
pub enum Planned {
    /// A list, in its one spelling.
    Events {
        /// The list.
        list: EventList,
        /// Whether it is written with drop-frame timecode.
        drop: bool,
        /// Whether it is written in the wide layout.
        wide: bool,
    },
    /// A list with notes, in its one spelling.
    Noted {
        /// The list.
        list: EventList,
        /// The notes, in the order of their events.
        notes: Notes,
        /// Whether it is written with drop-frame timecode.
        drop: bool,
        /// Whether it is written in the wide layout.
        wide: bool,
    },
    /// A value, in its layout.
    Value(Json),
    /// An object, in the layout of its JSON.
    Root(Object),
    /// An object that has a form in the older family, in the layout of its JSON there.
    OldRoot(Object),
    /// Rows of a timeline's frames, one after another.
    Rows(Timeline, Listing),
    /// The timeline of a desk, in the layout of its JSON.
    Edited(Desk),
    /// Listings of a timeline.
    Listed(Timeline, Listings),
    /// A text as it is.
    Text(Vec<u8>),
    /// A media list, a line for each row.
    Media(MediaList),
}

/// What the command is to send for the file of that name, with the others after it: the files are
/// read, and then the command is judged over what they hold.
pub fn plan<'a, F: Files>(
    alloc: Global,
    command: Command,
    name: &'a str,
    others: Others<'a>,
    files: &mut F,
) -> Result<Planned, SourceFault<'a>>
    requires scripted { IsScripted command (text_at others.script) }
    requires joining { HasJoining command (suc (length (other_names others).more)) }
    requires handles { HasFewHandles command }
    ensures fits { IfOk result (λ planned. Fits planned) }
    ensures kind { IfOk result (λ planned. IsFor command planned) }
    ensures desk { IfOk result (λ planned. IsDeskFor command planned) }
    ensures named { IfErr result (λ stop.
        IsAmong (names_of (files_of command name.now (other_names others.entry))) stop.name.now) }
    ensures given { (target : Option (List ℕ)) → HandsOver
        (PlansGiven (asked_for command name.now (other_names others.entry) target) result)
        (F.handed files.old) (F.handed files.new) }
    ensures followed { Follows (F.known files.old) (F.known files.new) (F.handed files.old)
        (F.handed files.new) }
    ensures cause { RaisedAt result (F.faults files.old) (F.faults files.new) }
{
    if takes_several(command) {
        plan_several(alloc, command, name, others, files)
    } else {
        plan_alone(alloc, command, name, others, files)
    }
}

// Whether a command takes several files.
fn takes_several(command: Command) -> bool
    ensures { result ≡ asking.takes_several command }
{
    match command {
        Command::Cat | Command::ListCat { .. } => true,
        Command::Tool(_) | Command::ListTool { .. } => true,
        _ => false,
    }
}

// What a command on one file is to send for the file of that name, with the others after it.
fn plan_alone<'a, F: Files>(
    alloc: Global,
    command: Command,
    name: &'a str,
    others: Others<'a>,
    files: &mut F,
) -> Result<Planned, SourceFault<'a>>
    requires scripted { IsScripted command (text_at others.script) }
    requires alone { asking.takes_several command ≡ false }
    requires handles { HasFewHandles command }
    ensures fits { IfOk result (λ planned. Fits planned) }
    ensures kind { IfOk result (λ planned. IsFor command planned) }
    ensures desk { IfOk result (λ planned. IsDeskFor command planned) }
    ensures named { let rest = other_names others.entry in IfErr result (λ stop.
        IsAmong (names_of (files_alone command name.now rest.script rest.media)) stop.name.now) }
    ensures given { (target : Option (List ℕ)) → HandsOver
        (PlansGiven (asked_alone command name.now (other_names others.entry) target) result)
        (F.handed files.old) (F.handed files.new) }
    ensures followed { Follows (F.known files.old) (F.known files.new) (F.handed files.old)
        (F.handed files.new) }
    ensures cause { RaisedAt result (F.faults files.old) (F.faults files.new) }
{
    let Others { script, media, .. } = others;
    match script {
        Some(script) => plan_edit(alloc, edited_file(command, name), script, media, files),
        None => plan_work(alloc, command, name, media, files),
    }
}

// The file of that name, whose timeline is edited.
fn edited_file(command: Command, name: &str) -> InputFile<'_>
    requires { EditsTimeline command }
    ensures name { result.name.now ≡ name.now }
    ensures edit { IsEditOf command result }
{
    let kind = edited_kind(command);
    InputFile { name, kind }
}

// What it is read as.
fn edited_kind(command: Command) -> InputKind
    requires { EditsTimeline command }
    ensures { input_kind result ≡ kind_of command }
{
    match command {
        Command::ListEdit { rate } => InputKind::List(rate),
        _ => InputKind::Timeline,
    }
}

// What a command that reads no script is to send for the file of that name and the media list.
fn plan_work<'a, F: Files>(
    alloc: Global,
    command: Command,
    name: &'a str,
    media: Option<&'a str>,
    files: &mut F,
) -> Result<Planned, SourceFault<'a>>
    requires other { EditsTimeline command → ⊥ }
    requires alone { asking.takes_several command ≡ false }
    requires handles { HasFewHandles command }
    ensures fits { IfOk result (λ planned. Fits planned) }
    ensures kind { IfOk result (λ planned. IsFor command planned) }
    ensures desk { IfOk result (λ planned. IsDesk planned → ⊥) }
    ensures named { IfErr result (λ stop.
        IsAmong (names_of (one_file command name.now (text_at media.entry))) stop.name.now) }
    ensures given { (target : Option (List ℕ)) → HandsOver
        (PlansGiven (asked_work command name.now (text_at media.entry) target) result)
        (F.handed files.old) (F.handed files.new) }
    ensures followed { Follows (F.known files.old) (F.known files.new) (F.handed files.old)
        (F.handed files.new) }
    ensures cause { RaisedAt result (F.faults files.old) (F.faults files.new) }
{
    match work_file(alloc, command, name, files) {
        Ok(work) => match media_after(alloc, media, files) {
            Ok(rows) => judged(alloc, name, work, rows),
            Err(stop) => {
                mem::forget(work);
                Err(stop)
            }
        },
        Err(fault) => Err(SourceFault { name, fault }),
    }
}

// What is to be sent for what the file of that name and the media list hold.
fn judged<'a>(
    alloc: Global,
    name: &'a str,
    work: Work,
    media: Option<MediaList>,
) -> Result<Planned, SourceFault<'a>>
    requires fit { IsFitWork work }
    ensures told { (command : AnyCommand) (named : Option (List ℕ)) → IsWorkOf command work →
        PlansHeld command (one_file command name.now named)
        (content_of work ∷ media_content media) result }
    ensures fits { IfOk result (λ planned. Fits planned) }
    ensures kind { IfOk result (λ planned. AreRows planned → IsFramesWork work) }
    ensures desk { IfOk result (λ planned. IsDesk planned → ⊥) }
    ensures named { IfErr result (λ stop. stop.name.now ≡ name.now) }
    ensures calm { (n : ℕ) → RaisedAt result n n }
{
    match judge(alloc, work, media) {
        Ok(planned) => Ok(planned),
        Err(refusal) => Err(SourceFault {
            name,
            fault: ReadFault::Refused(refusal),
        }),
    }
}

// What an edit is to send for the timeline or list in that file, the script and the media list.
fn plan_edit<'a, F: Files>(
    alloc: Global,
    file: InputFile<'a>,
    script: &'a str,
    media: Option<&'a str>,
    files: &mut F,
) -> Result<Planned, SourceFault<'a>>
    ensures fits { IfOk result (λ planned. Fits planned) }
    ensures kind { IfOk result (λ planned. AreRows planned → ⊥) }
    ensures named { (command : AnyCommand) → IfErr result (λ stop. IsAmong (names_of
        (edit_files command file.entry.name.now script.now (text_at media.entry)))
        stop.name.now) }
    ensures given { (command : AnyCommand) (target : Option (List ℕ)) →
        IsEditOf command file.entry → HandsOver
        (PlansGiven (asked_edit command file.entry.name.now script.now (text_at media.entry) target)
        result) (F.handed files.old) (F.handed files.new) }
    ensures followed { Follows (F.known files.old) (F.known files.new) (F.handed files.old)
        (F.handed files.new) }
    ensures cause { RaisedAt result (F.faults files.old) (F.faults files.new) }
{
    let name = file.name;
    match input_file(alloc, &file, files) {
        Ok(input) => match script_file(alloc, script, files) {
            Ok(commands) => match media_after(alloc, media, files) {
                Ok(rows) => {
                    let ended = edited(alloc, name, script, input, commands, rows.as_ref());
                    mem::forget(rows);
                    ended
                }
                Err(stop) => {
                    mem::forget(input);
                    mem::forget(commands);
                    Err(stop)
                }
            },
            Err(fault) => {
                mem::forget(input);
                let name = script;
                Err(SourceFault { name, fault })
            }
        },
        Err(fault) => Err(SourceFault { name, fault }),
    }
}

// What an edit is to send for what is edited, these commands and this media list.
#[tactic(auto, using(crate::proofs::Editing::edit_done, crate::proofs::Editing::edit_halted, crate::proofs::Editing::edit_unopened, crate::proofs::Editing::edit_work))]
fn edited<'a>(
    alloc: Global,
    name: &'a str,
    script: &'a str,
    input: Input,
    commands: Vec<ScriptCommand>,
    media: Option<&MediaList>,
) -> Result<Planned, SourceFault<'a>>
    requires { IsEditable (input_content input) }
    ensures told { (command : AnyCommand) (named : Option (List ℕ)) (contents : List AnyContent) →
        AreEditParts command (input_content input) commands (option_copied media.entry) contents →
        PlansHeld command (edit_files command name.now script.now named) contents result }
    ensures work { (command : AnyCommand) (contents : List AnyContent) →
        AreEditParts command (input_content input) commands (option_copied media.entry) contents →
        IfOk result (LeavesWork command contents) }
    ensures fits { IfOk result (λ planned. Fits planned) }
    ensures kind { IfOk result (λ planned. AreRows planned → ⊥) }
    ensures named { IfErr result (λ stop.
        IsToldOf name.now (Some script.now) stop.name.now) }
    ensures calm { (n : ℕ) → RaisedAt result n n }
{
    match opened_timeline(alloc, input, media) {
        Ok(timeline) => match run_script(alloc, timeline, commands, media) {
            Ok(desk) => Ok(Planned::Edited(desk)),
            Err(refusal) => Err(SourceFault {
                name: script,
                fault: ReadFault::Refused(refusal),
            }),
        },
        Err(refusal) => Err(SourceFault {
            name,
            fault: ReadFault::Refused(refusal),
        }),
    }
}

// What is to be sent for what a file and the media list hold.
fn judge(alloc: Global, work: Work, media: Option<MediaList>) -> Result<Planned, Refusal>
    requires fit { IsFitWork work }
    ensures owed { (command : AnyCommand) (file : Source) (more : List Source) →
        IsWorkOf command work → Suffices (λ target answer. AnswersHeld command (file ∷ more) target
        (content_of work ∷ media_content media) answer) file.name result }
    ensures fits { IfOk result (λ planned. Fits planned) }
    ensures kind { IfOk result (λ planned. AreRows planned → IsFramesWork work) }
    ensures desk { IfOk result (λ planned. IsDesk planned → ⊥) }
{
    match work {
        Work::Json(value) => {
            mem::forget(media);
            Ok(Planned::Value(value))
        }
        Work::Root { object, older } => {
            mem::forget(media);
            object_to_write(alloc, object, older)
        }
        Work::Log(rows) => {
            mem::forget(media);
            Ok(Planned::Media(rows))
        }
        Work::List { list, drop, wide } => {
            mem::forget(media);
            list_again(list, drop, wide)
        }
        Work::Conform { list, older } => list_to_objects(alloc, list, media, older),
        Work::Events { timeline, ways } => timeline_to_list(alloc, timeline, media, ways),
        Work::Frames(input, asked) => frames_of(alloc, input, media, asked),
        Work::Stat(input) => counts_of(alloc, input, media),
        Work::Pull(input, handles) => pull_of(alloc, input, media, handles),
    }
}

// What is to be sent of a list that is written again.
fn list_again(list: HeldList, drop: bool, wide: bool) -> Result<Planned, Refusal>
    requires { IsFitList list }
    ensures owed { (rate : AnyRate) (file : Source) (files : List Source) (more : List AnyContent) →
        Suffices (λ target answer. AnswersHeld (ListAgain rate drop wide (is_noted list))
        (file ∷ files) target (list_content list ∷ more) answer) file.name result }
    ensures fits { IfOk result (λ planned. Fits planned) }
    ensures kind { IfOk result (λ planned. AreRows planned → ⊥) }
    ensures desk { IfOk result (λ planned. IsDesk planned → ⊥) }
{
    match list {
        HeldList::Plain(list) => list_to_write(list, drop, wide),
        HeldList::Noted(list, notes) => noted_list_to_write(list, notes, drop, wide),
    }
}

// What is to be sent of a list that is conformed and written.
fn list_to_objects(
    alloc: Global,
    list: HeldList,
    media: Option<MediaList>,
    older: bool,
) -> Result<Planned, Refusal>
    requires { IsFitList list }
    ensures owed { (rate : AnyRate) (file : Source) (files : List Source) →
        Suffices (λ target answer. AnswersHeld (ListAsObjects rate older (is_noted list))
        (file ∷ files) target (list_content list ∷ media_content media) answer) file.name result }
    ensures fits { IfOk result (λ planned. Fits planned) }
    ensures kind { IfOk result (λ planned. AreRows planned → ⊥) }
    ensures desk { IfOk result (λ planned. IsDesk planned → ⊥) }
{
    match list {
        HeldList::Plain(list) => conformed_to_write(alloc, list, media, older),
        HeldList::Noted(list, notes) => noted_to_write(alloc, list, notes, media, older),
    }
}
