// The options and the positional words of each command, as one simple command of `clap`.
ghost use Rattle.std.specs.Prelude.{◌≡◌, false, map, IfOk};
ghost use Rattle.clap.specs.Words.{app_of, rule_of};
ghost use Rattle.command_words.specs.Options.{valued as valued_rule, needed as needed_rule, flag as flag_rule, file as file_rule, files as files_rule, output as output_rule, reader_of as reader, with_rules};
ghost use Rattle.command_words.specs.Taken.{taken_rule, list_reader_of};
ghost use Rattle.command_words.specs.Names.{word_of};

use crate::names::Verb;
use clap::{Arg, ArgAction, Command};
use std::alloc::{AllocError, Global};

// What a command takes: an option of that name with a value, one that has to be given, a flag,
// the output, one file, or one file and more.
#[derive(Clone, Copy)]
enum Taken<'a> {
    Valued(&'a str),
    Needed(&'a str),
    Flag(&'a str),
    Output,
    File,
    Files,
}

/// The command of `clap` that reads the words after a command's own word.
pub fn reader_of<'a>(alloc: Global, verb: Verb) -> Result<Command<'a>, AllocError>
    ensures { IfOk result (λ command. app_of command ≡ reader verb) }
{
    match verb {
        Verb::Convert => convert_reader(alloc),
        Verb::Cat => cat_reader(alloc),
        Verb::Stat => stat_reader(alloc),
        Verb::Tool => tool_reader(alloc),
        Verb::Frames => frames_reader(alloc),
        Verb::Edit => edit_reader(alloc),
        Verb::Drill => drill_reader(alloc),
        Verb::Pull => pull_reader(alloc),
        Verb::Media => media_reader(alloc),
    }
}

// The command that reads the words of `convert`.
fn convert_reader<'a>(alloc: Global) -> Result<Command<'a>, AllocError>
    ensures { IfOk result (λ command. app_of command ≡ reader Verb.Convert) }
{
    let own = &[
        Taken::Valued("from"),
        Taken::Valued("to"),
        Taken::Valued("family"),
        Taken::Flag("drop"),
        Taken::Flag("wide"),
        Taken::Flag("notes"),
    ];
    list_reader(alloc, "convert", own, Taken::File)
}

// The command that reads the words of `cat`.
fn cat_reader<'a>(alloc: Global) -> Result<Command<'a>, AllocError>
    ensures { IfOk result (λ command. app_of command ≡ reader Verb.Cat) }
{
    list_reader(alloc, "cat", &[], Taken::Files)
}

// The command that reads the words of `stat`.
fn stat_reader<'a>(alloc: Global) -> Result<Command<'a>, AllocError>
    ensures { IfOk result (λ command. app_of command ≡ reader Verb.Stat) }
{
    list_reader(alloc, "stat", &[], Taken::File)
}

// The command that reads the words of `tool`.
fn tool_reader<'a>(alloc: Global) -> Result<Command<'a>, AllocError>
    ensures { IfOk result (λ command. app_of command ≡ reader Verb.Tool) }
{
    let own = &[
        Taken::Valued("trim"),
        Taken::Valued("flatten"),
        Taken::Flag("list-tracks"),
        Taken::Flag("list-clips"),
        Taken::Flag("list-media"),
        Taken::Flag("stats"),
        Taken::Flag("video-only"),
        Taken::Flag("audio-only"),
        Taken::Flag("keep-flattened-tracks"),
        Taken::Flag("remove-transitions"),
        Taken::Flag("concat"),
        Taken::Flag("stack"),
    ];
    list_reader(alloc, "tool", own, Taken::Files)
}

// The command that reads the words of `frames`.
fn frames_reader<'a>(alloc: Global) -> Result<Command<'a>, AllocError>
    ensures { IfOk result (λ command. app_of command ≡ reader Verb.Frames) }
{
    let own = &[
        Taken::Valued("child"),
        Taken::Valued("start"),
        Taken::Valued("count"),
    ];
    list_reader(alloc, "frames", own, Taken::File)
}

// The command that reads the words of `edit`.
fn edit_reader<'a>(alloc: Global) -> Result<Command<'a>, AllocError>
    ensures { IfOk result (λ command. app_of command ≡ reader Verb.Edit) }
{
    list_reader(alloc, "edit", &[Taken::Needed("script")], Taken::File)
}

// The command that reads the words of `drill`.
fn drill_reader<'a>(alloc: Global) -> Result<Command<'a>, AllocError>
    ensures { IfOk result (λ command. app_of command ≡ reader Verb.Drill) }
{
    let command = Command::new(alloc, "drill").no_binary_name(true);
    with_all(alloc, command, &[Taken::Output, Taken::Files])
}

// The command that reads the words of `pull`.
fn pull_reader<'a>(alloc: Global) -> Result<Command<'a>, AllocError>
    ensures { IfOk result (λ command. app_of command ≡ reader Verb.Pull) }
{
    list_reader(alloc, "pull", &[Taken::Valued("handles")], Taken::File)
}

// The command that reads the words of `media`.
fn media_reader<'a>(alloc: Global) -> Result<Command<'a>, AllocError>
    ensures { IfOk result (λ command. app_of command ≡ reader Verb.Media) }
{
    let command = Command::new(alloc, "media").no_binary_name(true);
    with_all(alloc, command, &[Taken::Output, Taken::File])
}

// The command of that name with its own options, those of each command that takes lists, and
// its files.
fn list_reader<'a>(
    alloc: Global,
    name: &'a str,
    own: &[Taken<'a>],
    files: Taken<'a>,
) -> Result<Command<'a>, AllocError>
    ensures { IfOk result (λ command. app_of command
        ≡ list_reader_of name.entry.now own.now files.entry) }
{
    let command = Command::new(alloc, name).no_binary_name(true);
    let more = with_all(alloc, command, own)?;
    let shared = &[
        Taken::Valued("rate"),
        Taken::Valued("media"),
        Taken::Output,
        files,
    ];
    with_all(alloc, more, shared)
}

// A command with all of these, each in its turn.
fn with_all<'a>(
    alloc: Global,
    mut command: Command<'a>,
    all: &[Taken<'a>],
) -> Result<Command<'a>, AllocError>
    ensures { IfOk result (λ more. app_of more
        ≡ with_rules (app_of command.entry) (map taken_rule all.now)) }
{
    for &taken in all {
        command = command.arg(arg_of(alloc, taken))?;
    }
    Ok(command)
}

// What a command takes, as an argument of `clap`.
fn arg_of<'a>(alloc: Global, taken: Taken<'a>) -> Arg<'a>
    ensures rule { rule_of result ≡ taken_rule taken.entry }
    ensures local { result.global ≡ false }
{
    match taken {
        Taken::Valued(name) => valued(alloc, name),
        Taken::Needed(name) => needed(alloc, name),
        Taken::Flag(name) => flag(alloc, name),
        Taken::Output => output(alloc),
        Taken::File => file(alloc),
        Taken::Files => files(alloc),
    }
}

// The name of the output: `--output` or `-o`.
fn output<'a>(alloc: Global) -> Arg<'a>
    ensures rule { rule_of result ≡ output_rule }
    ensures local { result.global ≡ false }
{
    valued(alloc, "output").short('o')
}

// The option `--NAME`, which takes a value.
fn valued<'a>(alloc: Global, name: &'a str) -> Arg<'a>
    ensures rule { rule_of result ≡ valued_rule name.entry.now }
    ensures local { result.global ≡ false }
{
    Arg::new(alloc, name).long(name).action(ArgAction::Set)
}

// The option `--NAME`, which takes a value and has to be given.
fn needed<'a>(alloc: Global, name: &'a str) -> Arg<'a>
    ensures rule { rule_of result ≡ needed_rule (valued_rule name.entry.now) }
    ensures local { result.global ≡ false }
{
    valued(alloc, name).required(true)
}

// The flag `--NAME`, which takes none.
fn flag<'a>(alloc: Global, name: &'a str) -> Arg<'a>
    ensures rule { rule_of result ≡ flag_rule name.entry.now }
    ensures local { result.global ≡ false }
{
    Arg::new(alloc, name).long(name).action(ArgAction::SetTrue)
}

// The one file, which has to be named.
fn file<'a>(alloc: Global) -> Arg<'a>
    ensures rule { rule_of result ≡ file_rule }
    ensures local { result.global ≡ false }
{
    Arg::new(alloc, "file")
        .required(true)
        .action(ArgAction::Set)
}

// One file or more; of a drill, its seed and its count.
fn files<'a>(alloc: Global) -> Arg<'a>
    ensures rule { rule_of result ≡ files_rule }
    ensures local { result.global ≡ false }
{
    Arg::new(alloc, "file")
        .required(true)
        .action(ArgAction::Append)
        .num_args(1..)
}
