// What a command line asks for.
ghost use Rattle.std.specs.Prelude.{◌≡◌, ◌↔◌, ◌≤◌, ℕ, List, Option, count_by, map, string_bytes, IsTrue, MatchOption, MatchResult};
ghost use Rattle.std.specs.Option.{option_map};
ghost use Rattle.command_words.specs.Asked.{Ask, IsAskedBy, IsMedia, IsRequest, IsScript, NoRequest, OtherNames, ReadsOnce, other_names, as_list, is_standard as is_standard_name};
ghost use Rattle.command_words.specs.Drills.{AsksDrill};
ghost use Rattle.command_words.specs.Tasks.{HasNoTask, IsTask, IsTaskOf};
ghost use Rattle.command_words.specs.Given.{given_by};

use crate::conversions::conversion_of;
use crate::drills::{DrillAsked, drill_of};
use crate::edits::edit_of;
use crate::faults::WordsFault;
use crate::frame_lists::frame_list_of;
use crate::lines::{Line, line_of};
use crate::logs::log_of;
use crate::names::{Verb, first_word, verb_of};
use crate::pulls::pull_of;
use crate::several::{cat_of, stat_of, tool_of};
use crate::tools::ToolAsked;
use smpte_tc::RecordPoint;
use std::alloc::Global;
use tick_time::Rate;

/// What is to be done with a file.
#[derive(Clone, Copy, PartialEq, Eq)]
pub enum Command {
    /// A list is written as a list, in its one spelling.
    ListToList {
        /// The rate of the list, in frames a second.
        rate: Rate,
        /// Whether the list is written with drop-frame timecode whatever it says itself.
        drop: bool,
        /// Whether the list is written in the wide layout.
        wide: bool,
        /// Whether its notes are written with it.
        notes: bool,
    },
    /// A list is conformed, and its timeline written in the current schemas and the written order.
    ListToObjects {
        /// The rate of the list, in frames a second.
        rate: Rate,
        /// Whether the timeline is written in the older family of schemas.
        older: bool,
        /// Whether its notes are put on the items.
        notes: bool,
    },
    /// A timeline is written as the list of its events, in its one spelling.
    TimelineToList {
        /// Whether the list is written with drop-frame timecode.
        drop: bool,
        /// Whether the list is written in the wide layout.
        wide: bool,
        /// Whether the notes of its clips are written with it.
        notes: bool,
    },
    /// An object is written in the current schemas and the written order.
    ToObjects {
        /// Whether it is written in the older family of schemas: clips as `Clip.1`, markers as
        /// `Marker.1`.
        older: bool,
    },
    /// A JSON text is written in its layout.
    ToJson,
    /// Timelines are joined one after another, and the outcome is written as by `ToObjects`.
    Cat,
    /// The same where lists are among the files, which are conformed first.
    ListCat {
        /// The rate of the lists, in frames a second.
        rate: Rate,
    },
    /// The items of a timeline are counted.
    Stat,
    /// The same of the timeline that a list conforms to.
    ListStat {
        /// The rate of the list, in frames a second.
        rate: Rate,
    },
    /// Timelines are joined, changed and listed.
    Tool(ToolAsked),
    /// The same where lists are among the files, which are conformed first.
    ListTool {
        /// The rate of the lists, in frames a second.
        rate: Rate,
        /// What is done and listed.
        tool: ToolAsked,
    },
    /// What a timeline shows is listed, a row for each record frame.
    Frames(FramesAsked),
    /// What the timeline shows that a list conforms to is listed.
    ListFrames {
        /// The rate of the list, in frames a second.
        rate: Rate,
        /// Which record frames are listed.
        frames: FramesAsked,
    },
    /// A script's commands are run on a timeline, which is then written as it is by `ToObjects`.
    Edit,
    /// The same of the timeline that a list conforms to.
    ListEdit {
        /// The rate of the list, in frames a second.
        rate: Rate,
    },
    /// The frames of media that a timeline uses are listed.
    Pull {
        /// How many frames are asked for on both sides of each, from 0 to 10 000.
        handles: u32,
    },
    /// The same of the timeline that a list conforms to.
    ListPull {
        /// The rate of the list, in frames a second.
        rate: Rate,
        /// How many frames are asked for on both sides of each, from 0 to 10 000.
        handles: u32,
    },
    /// A log is written as a media list.
    LogToMedia,
}

/// Which record frames of a timeline are listed.
#[derive(Clone, Copy, PartialEq, Eq)]
pub struct FramesAsked {
    /// The root child that is listed, counted from 0; none for each of them.
    pub child: Option<u64>,
    /// The record point of the first frame; none for the timeline's first.
    pub start: Option<RecordPoint>,
    /// How many frames, from 1 to 1 000 000; none for all up to the end, within the limit of a
    /// listing.
    pub count: Option<u32>,
}

/// The names of the files that are read after the first. `-` is the standard input.
#[derive(Drop)]
pub struct Others<'a> {
    /// The names of the other files of a command that takes several; empty for other commands.
    pub more: Vec<&'a str>,
    /// The name of the script of an edit; none for other commands.
    pub script: Option<&'a str>,
    /// The name of the media list that lists are conformed with, that a script's clips are taken
    /// from, or that the media of a timeline are looked up in where that is written as a list; none
    /// where none is read.
    pub media: Option<&'a str>,
}

/// What a command line asks for on files. The standard input is read at most once.
#[derive(Drop)]
pub struct Request<'a> {
    /// What is to be done.
    pub command: Command,
    /// The name of the file, or of the first of several; `-` is the standard input.
    pub name: &'a str,
    /// The names of the files that are read after it.
    pub others: Others<'a>,
    /// The name of the output file; none for the standard output.
    pub target: Option<&'a str>,
}

/// What a command line asks for.
#[derive(Drop)]
pub enum Task<'a> {
    /// A command on files.
    OnFiles(Request<'a>),
    /// A drill, which reads no file.
    Drill(DrillAsked<'a>),
}

/// What the words after the program's name ask for. Words that ask for nothing, no command on
/// files and no drill, get `Usage`, and no others do; out of memory may come at any words.
pub fn request_of(alloc: Global, words: &[String]) -> Result<Task<'_>, WordsFault>
    ensures { let said = map (λ w. string_bytes w) words.now in MatchResult result
        (λ task. IsTask said task) (NoRequest said) }
{
    let Some((word, behind)) = first_word(words) else {
        return Err(WordsFault::Usage);
    };
    let Some(verb) = verb_of(word) else {
        return Err(WordsFault::Usage);
    };
    match line_of(alloc, verb, behind) {
        Ok(line) => match task_in(verb, line) {
            Some(task) => Ok(task),
            None => Err(WordsFault::Usage),
        },
        Err(fault) => Err(fault),
    }
}

// What is asked for by what a line gives.
fn task_in<'a>(verb: Verb, line: Line<'a>) -> Option<Task<'a>>
    ensures { let given = given_by line.entry in
        MatchOption result (HasNoTask verb given) (λ task. IsTaskOf verb given task) }
{
    match verb {
        Verb::Drill => match drill_of(&line) {
            Some(drill) => Some(Task::Drill(drill)),
            None => None,
        },
        _ => match request_in(verb, line) {
            Some(request) => Some(Task::OnFiles(request)),
            None => None,
        },
    }
}

// The command on files that is asked for by what a line gives.
fn request_in<'a>(verb: Verb, line: Line<'a>) -> Option<Request<'a>>
    ensures { let given = given_by line.entry in MatchOption result
        ((command : Command) (name : List ℕ) (others : OtherNames) (target : Option (List ℕ)) →
        IsRequest verb command name others target given → ⊥)
        (λ request. IsRequest verb request.command request.name.now (other_names request.others)
        (option_map (λ s. s.now) request.target) given) }
{
    let Some((command, name)) = command_in(verb, &line) else {
        return None;
    };
    let Some(media) = media_of(command, line.media) else {
        return None;
    };
    let script = script_of(command, line.script);
    let target = line.target;
    let others = Others {
        more: line.more,
        script,
        media,
    };
    if !is_read_once(name, &others) {
        return None;
    }
    Some(Request {
        command,
        name,
        others,
        target,
    })
}

// The command that the options and the files of a line ask for, and the first file's name.
fn command_in<'a>(verb: Verb, line: &Line<'a>) -> Option<(Command, &'a str)>
    ensures { let given = given_by line.now in MatchOption result
        ((command : Command) (name : List ℕ) → IsAskedBy verb command name given → ⊥)
        (λ asked. IsAskedBy verb asked.0 asked.1.now given) }
{
    match verb {
        Verb::Convert => conversion_of(line),
        Verb::Cat => cat_of(line),
        Verb::Stat => stat_of(line),
        Verb::Tool => tool_of(line),
        Verb::Frames => frame_list_of(line),
        Verb::Edit => edit_of(line),
        Verb::Media => log_of(line),
        Verb::Drill => None,
        Verb::Pull => pull_of(line),
    }
}

// The media list that a command reads, where this one is named; none where it can't have one.
fn media_of<'a>(command: Command, named: Option<&'a str>) -> Option<Option<&'a str>>
    ensures { let given = option_map (λ s. s.now) named.entry in MatchOption result
        ((media : Option (List ℕ)) → IsMedia command given media → ⊥)
        (λ media. IsMedia command given (option_map (λ s. s.now) media)) }
{
    match command {
        Command::ListToList { .. } => match named {
            Some(_) => None,
            None => Some(None),
        },
        Command::ListToObjects { .. } | Command::ListFrames { .. } => Some(named),
        Command::TimelineToList { .. } => Some(named),
        Command::Edit | Command::ListEdit { .. } => Some(named),
        Command::ListCat { .. } | Command::ListStat { .. } => Some(named),
        Command::ListTool { .. } | Command::ListPull { .. } => Some(named),
        Command::ToObjects { .. } | Command::ToJson | Command::Frames(_) => Some(None),
        Command::Cat | Command::Stat | Command::Tool(_) => Some(None),
        Command::Pull { .. } => Some(None),
        Command::LogToMedia => Some(None),
    }
}

// The script that a command reads, where this one is named.
fn script_of<'a>(command: Command, named: Option<&'a str>) -> Option<&'a str>
    ensures { IsScript command (option_map (λ s. s.now) named.entry)
        (option_map (λ s. s.now) result) }
{
    match command {
        Command::Edit | Command::ListEdit { .. } => named,
        Command::ListToList { .. } | Command::ListToObjects { .. } => None,
        Command::TimelineToList { .. } | Command::ToObjects { .. } | Command::ToJson => None,
        Command::Frames(_) | Command::ListFrames { .. } => None,
        Command::Cat | Command::Stat | Command::Tool(_) => None,
        Command::ListCat { .. } | Command::ListStat { .. } => None,
        Command::ListTool { .. } | Command::LogToMedia => None,
        Command::Pull { .. } | Command::ListPull { .. } => None,
    }
}

// Whether the standard input is read at most once.
fn is_read_once(name: &str, others: &Others<'_>) -> bool
    ensures { IsTrue result ↔ ReadsOnce name.now (other_names others.now) }
{
    let behind = standard_count(others.more.as_slice()).min(2);
    let single = one_standard(Some(name))
        + one_standard(others.script)
        + one_standard(others.media);
    behind + single <= 1
}

// How many of some files are the standard input.
fn standard_count(names: &[&str]) -> usize
    ensures { result ≡ count_by (λ n. is_standard_name n.now) names.now }
{
    names.iter().filter(|&&name| is_standard(name)).count()
}

// How many of one file that may be read are the standard input.
fn one_standard(name: Option<&str>) -> usize
    ensures count { let named = option_map (λ s. s.now) name.entry in
        result ≡ count_by is_standard_name (as_list named) }
    ensures most { result ≤ 1 }
{
    match name {
        Some(name) => { if is_standard(name) { 1 } else { 0 } }
        None => 0,
    }
}

// Whether a name is that of the standard input.
fn is_standard(name: &str) -> bool
    ensures { result ≡ is_standard_name name.now }
{
    name == "-"
}

/// Law: words ask for at most one command on at most one file, with at most one script, one media
/// list and one output. It does nothing.
pub fn one_request()
    ensures { (words : List (List ℕ)) (one other : Command) (a b : List ℕ) (m n : OtherNames)
        (p q : Option (List ℕ)) → Ask words one a m p → Ask words other b n q
        → (one ≡ other) × (a ≡ b) × (m ≡ n) × (p ≡ q) }
{}

/// Law: words ask for at most one drill, with at most one output. It does nothing.
pub fn one_drill()
    ensures { (words : List (List ℕ)) (seed other count tries : ℕ) (p q : Option (List ℕ)) →
        AsksDrill words seed count p → AsksDrill words other tries q
        → (seed ≡ other) × (count ≡ tries) × (p ≡ q) }
{}

/// Law: words that ask for a drill ask for no command on files. It does nothing.
pub fn drill_is_no_request()
    ensures { (words : List (List ℕ)) (command : Command) (name : List ℕ) (others : OtherNames)
        (seed count : ℕ) (p q : Option (List ℕ)) → Ask words command name others p
        → AsksDrill words seed count q → ⊥ }
{}
