// Reading files: each is opened, read to its end and judged as what it is read as.
ghost use Rattle.std.specs.Prelude.{◌≡◌, ◌≤◌, IfOk, IfErr, map};
ghost use Rattle.limits.specs.Limits.{most_items};
ghost use Rattle.edl_list.specs.Formed.{IsWellFormed};
ghost use Rattle.schema_rows.specs.Counts.{count_of};
ghost use Rattle.source_files.specs.Order.{EachIs, IsAmong};
ghost use Rattle.source_files.specs.Kinds as kinds;
ghost use Rattle.source_files.specs.Contents.{Value, Root, Film, Events, Noted, Rows, Commands};
ghost use Rattle.source_files.specs.Formats.{IsOfTables, Suits, SuitsNotes};
ghost use Rattle.source_files.specs.Following.{Follows};
ghost use Rattle.source_files.specs.Reading.{Raised, RaisedAt, held_as, names_of, read_as};
ghost use Rattle.source_files.specs.Inputs.{input_content, input_source};
ghost use Rattle.source_files.specs.HandedFiles.{HandsOver, GivesFile, GivesFiles, GivesOpened};

use crate::inputs::{Input, InputFile, InputKind};
use crate::json::read_json;
use crate::lists::{read_list, read_noted_list};
use crate::logs::read_log;
use crate::media::read_media;
use crate::objects::{read_object, read_timeline};
use crate::read_faults::{ReadFault, Refusal, SourceFault};
use crate::scripts::read_commands;
use dev_io::{Files, Opened};
use edit_script::ScriptCommand;
use edl_list::EventList;
use json_value::Json;
use media_list::MediaList;
use note_text::Notes;
use otio_model::{Object, Timeline};
use std::alloc::Global;
use std::mem;
use tick_time::Rate;

// Takes the file of that name in hand; or why it isn't.
fn find_file<F: Files>(name: &str, files: &mut F) -> Result<(), ReadFault>
    ensures given { HandsOver (GivesOpened name.now result) (F.handed files.old)
        (F.handed files.new) }
    ensures followed { Follows (F.known files.old) (F.known files.new) (F.handed files.old)
        (F.handed files.new) }
    ensures cause { Raised result (F.faults files.old) (F.faults files.new) }
{
    match files.open_file(name) {
        Opened::Absent => Err(ReadFault::Absent),
        Opened::Failed => Err(ReadFault::Failed),
        Opened::Found => Ok(()),
    }
}

/// The value of the JSON text in the file of that name.
///
/// An error says why the file isn't read: there is none of that name, a call of `files` failed, its
/// first fault, or out of memory; so it does for each reader below.
pub fn json_file<F: Files>(alloc: Global, name: &str, files: &mut F) -> Result<Json, ReadFault>
    ensures given { HandsOver (GivesFile (read_as name.now kinds.Json) (held_as Value result))
        (F.handed files.old) (F.handed files.new) }
    ensures followed { Follows (F.known files.old) (F.known files.new) (F.handed files.old)
        (F.handed files.new) }
    ensures cause { Raised result (F.faults files.old) (F.faults files.new) }
{
    match find_file(name, files) {
        Ok(()) => read_json(alloc, files),
        Err(fault) => Err(fault),
    }
}

/// The object in the file of that name, old names and versions included, of at most 100 000 items.
pub fn object_file<F: Files>(alloc: Global, name: &str, files: &mut F) -> Result<Object, ReadFault>
    ensures few { IfOk result (λ object. count_of object ≤ most_items) }
    ensures given { HandsOver (GivesFile (read_as name.now kinds.Object) (held_as Root result))
        (F.handed files.old) (F.handed files.new) }
    ensures followed { Follows (F.known files.old) (F.known files.new) (F.handed files.old)
        (F.handed files.new) }
    ensures cause { Raised result (F.faults files.old) (F.faults files.new) }
{
    match find_file(name, files) {
        Ok(()) => read_object(alloc, files, false),
        Err(fault) => Err(fault),
    }
}

/// The timeline in the file of that name, of at most 100 000 items.
pub fn timeline_file<F: Files>(
    alloc: Global,
    name: &str,
    files: &mut F,
) -> Result<Timeline, ReadFault>
    ensures tables { IfOk result IsOfTables }
    ensures given { HandsOver (GivesFile (read_as name.now kinds.Timeline) (held_as Film result))
        (F.handed files.old) (F.handed files.new) }
    ensures followed { Follows (F.known files.old) (F.known files.new) (F.handed files.old)
        (F.handed files.new) }
    ensures cause { Raised result (F.faults files.old) (F.faults files.new) }
{
    match find_file(name, files) {
        Ok(()) => read_timeline(alloc, files, false),
        Err(fault) => Err(fault),
    }
}

/// The CMX 3600 list in the file of that name, at a rate in frames a second.
pub fn list_file<F: Files>(
    alloc: Global,
    rate: Rate,
    name: &str,
    files: &mut F,
) -> Result<EventList, ReadFault>
    ensures formed { IfOk result (λ list. IsWellFormed list) }
    ensures given { HandsOver (GivesFile (read_as name.now (kinds.List rate))
        (held_as Events result))
        (F.handed files.old) (F.handed files.new) }
    ensures followed { Follows (F.known files.old) (F.known files.new) (F.handed files.old)
        (F.handed files.new) }
    ensures cause { Raised result (F.faults files.old) (F.faults files.new) }
{
    match find_file(name, files) {
        Ok(()) => read_list(alloc, rate, files),
        Err(fault) => Err(fault),
    }
}

/// The same with the notes of the list, in the order of their lines.
pub fn noted_list_file<F: Files>(
    alloc: Global,
    rate: Rate,
    name: &str,
    files: &mut F,
) -> Result<(EventList, Notes), ReadFault>
    ensures suits { IfOk result (λ read. SuitsNotes read.0 read.1) }
    ensures given { HandsOver (GivesFile (read_as name.now (kinds.NotedList rate))
        (held_as (λ read. Noted read.0 read.1) result))
        (F.handed files.old) (F.handed files.new) }
    ensures followed { Follows (F.known files.old) (F.known files.new) (F.handed files.old)
        (F.handed files.new) }
    ensures cause { Raised result (F.faults files.old) (F.faults files.new) }
{
    match find_file(name, files) {
        Ok(()) => read_noted_list(alloc, rate, files),
        Err(fault) => Err(fault),
    }
}

/// The media list in the file of that name.
pub fn media_file<F: Files>(
    alloc: Global,
    name: &str,
    files: &mut F,
) -> Result<MediaList, ReadFault>
    ensures given { HandsOver (GivesFile (read_as name.now kinds.Media) (held_as Rows result))
        (F.handed files.old) (F.handed files.new) }
    ensures followed { Follows (F.known files.old) (F.known files.new) (F.handed files.old)
        (F.handed files.new) }
    ensures cause { Raised result (F.faults files.old) (F.faults files.new) }
{
    match find_file(name, files) {
        Ok(()) => read_media(alloc, files),
        Err(fault) => Err(fault),
    }
}

/// The media list that the log of the Avid Log Exchange in the file of that name is read as.
pub fn log_file<F: Files>(alloc: Global, name: &str, files: &mut F) -> Result<MediaList, ReadFault>
    ensures given { HandsOver (GivesFile (read_as name.now kinds.Log) (held_as Rows result))
        (F.handed files.old) (F.handed files.new) }
    ensures followed { Follows (F.known files.old) (F.known files.new) (F.handed files.old)
        (F.handed files.new) }
    ensures cause { Raised result (F.faults files.old) (F.faults files.new) }
{
    match find_file(name, files) {
        Ok(()) => read_log(alloc, files),
        Err(fault) => Err(fault),
    }
}

/// The commands of the edit script in the file of that name, at most 10 000.
pub fn script_file<F: Files>(
    alloc: Global,
    name: &str,
    files: &mut F,
) -> Result<Vec<ScriptCommand>, ReadFault>
    ensures given { HandsOver (GivesFile (read_as name.now kinds.Script) (held_as Commands result))
        (F.handed files.old) (F.handed files.new) }
    ensures followed { Follows (F.known files.old) (F.known files.new) (F.handed files.old)
        (F.handed files.new) }
    ensures cause { Raised result (F.faults files.old) (F.faults files.new) }
{
    match find_file(name, files) {
        Ok(()) => read_commands(alloc, files),
        Err(fault) => Err(fault),
    }
}

// What the file holds whose timeline is worked on. The memory of a timeline's JSON value is given
// back where `frees` says so.
fn input_by_kind<F: Files>(
    alloc: Global,
    file: &InputFile<'_>,
    files: &mut F,
    frees: bool,
) -> Result<Input, ReadFault>
    ensures suits { IfOk result
        (λ input. Suits (input_source file.now).kind (input_content input)) }
    ensures given { HandsOver (GivesFile (input_source file.now) (held_as input_content result))
        (F.handed files.old) (F.handed files.new) }
    ensures followed { Follows (F.known files.old) (F.known files.new) (F.handed files.old)
        (F.handed files.new) }
    ensures cause { Raised result (F.faults files.old) (F.faults files.new) }
{
    match file.kind {
        InputKind::Timeline => match find_file(file.name, files) {
            Ok(()) => match read_timeline(alloc, files, frees) {
                Ok(timeline) => Ok(Input::Timeline(timeline)),
                Err(fault) => Err(fault),
            },
            Err(fault) => Err(fault),
        },
        InputKind::List(rate) => match list_file(alloc, rate, file.name, files) {
            Ok(list) => Ok(Input::List(list)),
            Err(fault) => Err(fault),
        },
    }
}

/// What the file holds whose timeline is worked on.
pub fn input_file<F: Files>(
    alloc: Global,
    file: &InputFile<'_>,
    files: &mut F,
) -> Result<Input, ReadFault>
    ensures suits { IfOk result
        (λ input. Suits (input_source file.now).kind (input_content input)) }
    ensures given { HandsOver (GivesFile (input_source file.now) (held_as input_content result))
        (F.handed files.old) (F.handed files.new) }
    ensures followed { Follows (F.known files.old) (F.known files.new) (F.handed files.old)
        (F.handed files.new) }
    ensures cause { Raised result (F.faults files.old) (F.faults files.new) }
{
    input_by_kind(alloc, file, files, false)
}

/// What the files hold whose timelines are worked on, one after another. Each is opened, read to
/// its end and judged before the next is opened; the first that isn't there, can't be read or isn't
/// what it is read as ends the reading, and nothing after its fault is read.
///
/// An error says the name of that file and why. Out of memory may come at any file. What was read
/// of a file that is refused isn't freed.
pub fn input_files<'a, F: Files>(
    alloc: Global,
    sources: &[InputFile<'a>],
    files: &mut F,
) -> Result<Vec<Input>, SourceFault<'a>>
    ensures suits { IfOk result (λ inputs.
        EachIs (λ source content. Suits source.kind content)
        (map input_source sources.now) (map input_content inputs.items)) }
    ensures named { IfErr result (λ stop.
        IsAmong (names_of (map input_source sources.now)) stop.name.now) }
    ensures given { HandsOver (GivesFiles (map input_source sources.now)
        (λ inputs. map input_content inputs.items) result)
        (F.handed files.old) (F.handed files.new) }
    ensures followed { Follows (F.known files.old) (F.known files.new) (F.handed files.old)
        (F.handed files.new) }
    ensures cause { RaisedAt result (F.faults files.old) (F.faults files.new) }
{
    let frees = sources.len() > 1;
    let mut inputs = Vec::new(alloc);
    'sources: for source in sources {
        match input_by_kind(alloc, source, files, frees) {
            Ok(input) => match inputs.push(input) {
                Ok(()) => {}
                Err(refused) => {
                    mem::forget(refused);
                    return Err(stop_at(source.name, ReadFault::Refused(Refusal::Memory)));
                }
            },
            Err(fault) => return Err(stop_at(source.name, fault)),
        }
    }
    Ok(inputs)
}

// Why a file isn't read, under its name.
fn stop_at(name: &str, fault: ReadFault) -> SourceFault<'_>
    ensures name { result.name.now ≡ name.now }
    ensures fault { result.fault ≡ fault }
{
    SourceFault { name, fault }
}
