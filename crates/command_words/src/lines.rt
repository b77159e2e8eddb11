// What the words after a command's own word give.
ghost use Rattle.std.specs.Prelude.{◌≡◌, codes, drop, map, string_bytes, IfOk, MatchResult};
ghost use Rattle.std.specs.Option.{option_map};
ghost use Rattle.clap.specs.Words.{all_of, first_of, found_of, rows_of};
ghost use Rattle.command_words.specs.Given.{Gives, GivesNothing, given_by, given_in, is_there, names_behind, tool_by, tool_in};

use crate::faults::{WordsFault, fault_of};
use crate::names::Verb;
use crate::options::reader_of;
use clap::ArgMatches;
use std::alloc::{AllocError, Global};

/// The values of the options, whether each flag is there, and the files.
#[derive(Drop)]
pub struct Line<'a> {
    pub from: Option<&'a str>,
    pub to: Option<&'a str>,
    pub family: Option<&'a str>,
    pub rate: Option<&'a str>,
    pub target: Option<&'a str>,
    pub child: Option<&'a str>,
    pub start: Option<&'a str>,
    pub count: Option<&'a str>,
    pub media: Option<&'a str>,
    pub script: Option<&'a str>,
    pub handles: Option<&'a str>,
    pub drop: bool,
    pub wide: bool,
    pub notes: bool,
    pub tool: ToolLine<'a>,
    pub file: Option<&'a str>,
    pub more: Vec<&'a str>,
}

/// The values of the options of `tool` alone, and whether each of its flags is there.
#[derive(Clone, Copy)]
pub struct ToolLine<'a> {
    pub trim: Option<&'a str>,
    pub flatten: Option<&'a str>,
    pub list_tracks: bool,
    pub list_clips: bool,
    pub list_media: bool,
    pub stats: bool,
    pub video_only: bool,
    pub audio_only: bool,
    pub keep_flattened: bool,
    pub remove_transitions: bool,
    pub concat: bool,
    pub stack: bool,
}

/// What the words after a command's own word give.
pub fn line_of<'a>(alloc: Global, verb: Verb, words: &'a [String]) -> Result<Line<'a>, WordsFault>
    ensures { let said = map (λ w. string_bytes w) words.entry.now in MatchResult result
        (λ line. Gives verb said (given_by line)) (GivesNothing verb said) }
{
    let Ok(reader) = reader_of(alloc, verb) else {
        return Err(WordsFault::Memory);
    };
    match reader.try_get_matches_from(words) {
        Ok(matches) => match line_in(alloc, &matches) {
            Ok(line) => Ok(line),
            Err(_) => Err(WordsFault::Memory),
        },
        Err(error) => Err(fault_of(&error)),
    }
}

// What the matches give.
fn line_in<'a>(alloc: Global, matches: &ArgMatches<'a>) -> Result<Line<'a>, AllocError>
    ensures { IfOk result (λ line. given_by line ≡ given_in (rows_of (found_of matches.now))) }
{
    let more = files_behind(alloc, matches)?;
    Ok(Line {
        from: value_of(matches, "from"),
        to: value_of(matches, "to"),
        family: value_of(matches, "family"),
        rate: value_of(matches, "rate"),
        target: value_of(matches, "output"),
        child: value_of(matches, "child"),
        start: value_of(matches, "start"),
        count: value_of(matches, "count"),
        media: value_of(matches, "media"),
        script: value_of(matches, "script"),
        handles: value_of(matches, "handles"),
        drop: has_flag(matches, "drop"),
        wide: has_flag(matches, "wide"),
        notes: has_flag(matches, "notes"),
        tool: tool_line_in(matches),
        file: value_of(matches, "file"),
        more,
    })
}

// What the matches of `tool` give.
fn tool_line_in<'a>(matches: &ArgMatches<'a>) -> ToolLine<'a>
    ensures { tool_by result ≡ tool_in (rows_of (found_of matches.now)) }
{
    ToolLine {
        trim: value_of(matches, "trim"),
        flatten: value_of(matches, "flatten"),
        list_tracks: has_flag(matches, "list-tracks"),
        list_clips: has_flag(matches, "list-clips"),
        list_media: has_flag(matches, "list-media"),
        stats: has_flag(matches, "stats"),
        video_only: has_flag(matches, "video-only"),
        audio_only: has_flag(matches, "audio-only"),
        keep_flattened: has_flag(matches, "keep-flattened-tracks"),
        remove_transitions: has_flag(matches, "remove-transitions"),
        concat: has_flag(matches, "concat"),
        stack: has_flag(matches, "stack"),
    }
}

// The files after the first.
fn files_behind<'a>(alloc: Global, matches: &ArgMatches<'a>) -> Result<Vec<&'a str>, AllocError>
    ensures { IfOk result (λ more. map (λ s. s.now) more.items
        ≡ names_behind (all_of (codes "file") (rows_of (found_of matches.now)))) }
{
    match matches.get_strs("file") {
        Some(names) => without_first(alloc, names),
        None => Ok(Vec::new(alloc)),
    }
}

// Some names without the first.
fn without_first<'a>(alloc: Global, names: &[&'a str]) -> Result<Vec<&'a str>, AllocError>
    ensures { IfOk result (λ more. more.items ≡ drop 1 names.now) }
{
    match names.split_first() {
        Some((_, more)) => Vec::from_slice(alloc, more),
        None => Ok(Vec::new(alloc)),
    }
}

// The value of an option, or the first file.
fn value_of<'a>(matches: &ArgMatches<'a>, name: &str) -> Option<&'a str>
    ensures { option_map (λ s. s.now) result ≡ first_of name.now (rows_of (found_of matches.now)) }
{
    matches.get_str(name)
}

// Whether a flag is there.
fn has_flag(matches: &ArgMatches<'_>, name: &str) -> bool
    ensures { result ≡ is_there (first_of name.now (rows_of (found_of matches.now))) }
{
    match value_of(matches, name) {
        Some(value) => value == "true",
        None => false,
    }
}
