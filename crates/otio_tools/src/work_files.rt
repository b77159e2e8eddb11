// Reading what a command works on, and the media list after it.
ghost use Rattle.std.specs.Prelude.{◌≡◌, ◌++◌, List, Option, IfErr, IfOk, false, true};
ghost use Rattle.dev_io.specs.Handed.{Handed};
ghost use Rattle.source_files.specs.Contents.{Content as AnyContent, Rows};
ghost use Rattle.source_files.specs.Following.{Follows};
ghost use Rattle.source_files.specs.HandedFiles.{HandsOver, GivesAll, GivesFile, GivesFiles};
ghost use Rattle.source_files.specs.Order.{IsAmong};
ghost use Rattle.source_files.specs.Reading.{Raised, RaisedAt, Source, held_as, names_of, read_as};
ghost use Rattle.otio_tools.specs.Asked.{EditsTimeline, kind_of, list_kind, media_kind, media_source};
ghost use Rattle.otio_tools.specs.Asked as asking;
ghost use Rattle.otio_tools.specs.Plan.{media_content};
ghost use Rattle.otio_tools.specs.Pulled.{HasFewHandles};
ghost use Rattle.otio_tools.specs.Texts.{text_at};
ghost use Rattle.otio_tools.specs.Works.{IsFitList, IsFitWork, IsWorkOf, content_of, is_noted, list_content, works_on_input};

use crate::timeline_to_list::ListWays;
use command_words::{Command, FramesAsked, is_log_name};
use dev_io::Files;
use edl_list::EventList;
use json_value::Json;
use media_list::MediaList;
use note_text::Notes;
use otio_model::{Object, Timeline};
use source_files::{
    Input, ReadFault, SourceFault, json_file, list_file, log_file, media_file, noted_list_file,
    object_file, timeline_file,
};
use std::alloc::Global;
use tick_time::Rate;

/// A list that a file holds.
#[derive(Drop)]
pub enum HeldList {
    /// Without its notes.
    Plain(EventList),
    /// With its notes, in the order of their lines.
    Noted(EventList, Notes),
}

/// What a command on one file works on, and how.
#[derive(Drop)]
pub enum Work {
    /// A JSON text that is written.
    Json(Json),
    /// An object that is written.
    Root {
        /// The object.
        object: Object,
        /// Whether it is written in the older family.
        older: bool,
    },
    /// The media list of a log.
    Log(MediaList),
    /// A list that is written again.
    List {
        /// The list.
        list: HeldList,
        /// Whether drop-frame timecode is asked for.
        drop: bool,
        /// Whether it is written in the wide layout.
        wide: bool,
    },
    /// A list that is conformed and written.
    Conform {
        /// The list.
        list: HeldList,
        /// Whether its timeline is written in the older family.
        older: bool,
    },
    /// A timeline that is written as the list of its events.
    Events {
        /// The timeline.
        timeline: Timeline,
        /// How the list is written.
        ways: ListWays,
    },
    /// A timeline whose frames are asked for.
    Frames(Input, FramesAsked),
    /// A timeline whose items are counted.
    Stat(Input),
    /// A timeline whose pull list is asked for, with so many frames on both sides.
    Pull(Input, u32),
}

/// What the file of that name holds, and what the command does with it.
pub fn work_file<F: Files>(
    alloc: Global,
    command: Command,
    name: &str,
    files: &mut F,
) -> Result<Work, ReadFault>
    requires other { EditsTimeline command → ⊥ }
    requires alone { asking.takes_several command ≡ false }
    requires handles { HasFewHandles command }
    ensures of { IfOk result (IsWorkOf command) }
    ensures fit { IfOk result IsFitWork }
    ensures given { HandsOver (GivesFile (read_as name.now (kind_of command))
        (held_as content_of result)) (F.handed files.old) (F.handed files.new) }
    ensures followed { Follows (F.known files.old) (F.known files.new) (F.handed files.old)
        (F.handed files.new) }
    ensures cause { Raised result (F.faults files.old) (F.faults files.new) }
{
    match command {
        Command::ToJson => match json_file(alloc, name, files) {
            Ok(value) => Ok(Work::Json(value)),
            Err(fault) => Err(fault),
        },
        Command::ToObjects { older } => match object_file(alloc, name, files) {
            Ok(object) => Ok(Work::Root { object, older }),
            Err(fault) => Err(fault),
        },
        Command::LogToMedia => match log_file(alloc, name, files) {
            Ok(rows) => Ok(Work::Log(rows)),
            Err(fault) => Err(fault),
        },
        Command::ListToList {
            rate,
            drop,
            wide,
            notes,
        } => match list_held(alloc, rate, notes, name, files) {
            Ok(list) => Ok(Work::List { list, drop, wide }),
            Err(fault) => Err(fault),
        },
        Command::ListToObjects { rate, older, notes } => {
            match list_held(alloc, rate, notes, name, files) {
                Ok(list) => Ok(Work::Conform { list, older }),
                Err(fault) => Err(fault),
            }
        }
        Command::TimelineToList { drop, wide, notes } => match timeline_file(alloc, name, files) {
            Ok(timeline) => {
                let ways = ListWays { drop, wide, notes };
                Ok(Work::Events { timeline, ways })
            }
            Err(fault) => Err(fault),
        },
        _ => input_work(alloc, command, name, files),
    }
}

// The list in the file of that name, with its notes where they are asked for.
fn list_held<F: Files>(
    alloc: Global,
    rate: Rate,
    notes: bool,
    name: &str,
    files: &mut F,
) -> Result<HeldList, ReadFault>
    ensures noted { IfOk result (λ list. is_noted list ≡ notes) }
    ensures fit { IfOk result IsFitList }
    ensures given { HandsOver (GivesFile (read_as name.now (list_kind rate notes))
        (held_as list_content result)) (F.handed files.old) (F.handed files.new) }
    ensures followed { Follows (F.known files.old) (F.known files.new) (F.handed files.old)
        (F.handed files.new) }
    ensures cause { Raised result (F.faults files.old) (F.faults files.new) }
{
    if notes {
        match noted_list_file(alloc, rate, name, files) {
            Ok((list, notes)) => Ok(HeldList::Noted(list, notes)),
            Err(fault) => Err(fault),
        }
    } else {
        match list_file(alloc, rate, name, files) {
            Ok(list) => Ok(HeldList::Plain(list)),
            Err(fault) => Err(fault),
        }
    }
}

// What a command on a timeline works on: the one in the file of that name, or its list.
fn input_work<F: Files>(
    alloc: Global,
    command: Command,
    name: &str,
    files: &mut F,
) -> Result<Work, ReadFault>
    requires input { works_on_input command ≡ true }
    requires handles { HasFewHandles command }
    ensures of { IfOk result (IsWorkOf command) }
    ensures fit { IfOk result IsFitWork }
    ensures given { HandsOver (GivesFile (read_as name.now (kind_of command))
        (held_as content_of result)) (F.handed files.old) (F.handed files.new) }
    ensures followed { Follows (F.known files.old) (F.known files.new) (F.handed files.old)
        (F.handed files.new) }
    ensures cause { Raised result (F.faults files.old) (F.faults files.new) }
{
    match command {
        Command::Frames(frames) => match timeline_file(alloc, name, files) {
            Ok(timeline) => Ok(Work::Frames(Input::Timeline(timeline), frames)),
            Err(fault) => Err(fault),
        },
        Command::ListFrames { rate, frames } => match list_file(alloc, rate, name, files) {
            Ok(list) => Ok(Work::Frames(Input::List(list), frames)),
            Err(fault) => Err(fault),
        },
        Command::Stat => match timeline_file(alloc, name, files) {
            Ok(timeline) => Ok(Work::Stat(Input::Timeline(timeline))),
            Err(fault) => Err(fault),
        },
        Command::ListStat { rate } => match list_file(alloc, rate, name, files) {
            Ok(list) => Ok(Work::Stat(Input::List(list))),
            Err(fault) => Err(fault),
        },
        Command::Pull { handles } => match timeline_file(alloc, name, files) {
            Ok(timeline) => Ok(Work::Pull(Input::Timeline(timeline), handles)),
            Err(fault) => Err(fault),
        },
        Command::ListPull { rate, handles } => match list_file(alloc, rate, name, files) {
            Ok(list) => Ok(Work::Pull(Input::List(list), handles)),
            Err(fault) => Err(fault),
        },
        _ => unreachable!(),
    }
}

/// The media list of that name, where one is named, after the files that were read before.
pub fn media_after<'a, F: Files>(
    alloc: Global,
    media: Option<&'a str>,
    files: &mut F,
) -> Result<Option<MediaList>, SourceFault<'a>>
    ensures given { (front : List Source) (held : List AnyContent) (start : List Handed) →
        HandsOver (GivesAll front held) start (F.handed files.old) →
        HandsOver (GivesFiles (front ++ media_source (text_at media.entry))
        (λ rows. held ++ media_content rows) result) start (F.handed files.new) }
    ensures named { IfErr result (λ stop.
        IsAmong (names_of (media_source (text_at media.entry))) stop.name.now) }
    ensures followed { Follows (F.known files.old) (F.known files.new) (F.handed files.old)
        (F.handed files.new) }
    ensures cause { RaisedAt result (F.faults files.old) (F.faults files.new) }
{
    match media {
        Some(name) => match rows_file(alloc, name, files) {
            Ok(rows) => Ok(Some(rows)),
            Err(fault) => Err(SourceFault { name, fault }),
        },
        None => Ok(None),
    }
}

// The media list in the file of that name: that of a log where the name is that of one.
fn rows_file<F: Files>(alloc: Global, name: &str, files: &mut F) -> Result<MediaList, ReadFault>
    ensures given { HandsOver (GivesFile (read_as name.now (media_kind name.now))
        (held_as Rows result)) (F.handed files.old) (F.handed files.new) }
    ensures followed { Follows (F.known files.old) (F.known files.new) (F.handed files.old)
        (F.handed files.new) }
    ensures cause { Raised result (F.faults files.old) (F.faults files.new) }
{
    if is_log(name) {
        log_file(alloc, name, files)
    } else {
        media_file(alloc, name, files)
    }
}

// Whether a name is that of a log.
fn is_log(name: &str) -> bool
    ensures { result ≡ asking.is_log name.now }
{
    is_log_name(name)
}
