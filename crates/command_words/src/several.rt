// What command lines of `cat`, `stat` and `tool` ask for.
ghost use Rattle.std.specs.Prelude.{◌≡◌, ◌↔◌, ◌∷◌, [], ℕ, List, Some, map, IsTrue, MatchOption};
ghost use Rattle.command_words.specs.Asked.{AreFew, IsByNames, IsCat, IsStat, IsTool};
ghost use Rattle.command_words.specs.Given.{given_by};
ghost use Rattle.command_words.specs.Names.{HasList};
ghost use Rattle.command_words.specs.declared.requests.Command.TheVariants.{Tool as ToolCommand, ListTool as ListToolCommand, ListCat as ListCatCommand, ListStat as ListStatCommand};

use crate::lines::Line;
use crate::names::{has_list, is_list_name};
use crate::rates::rate_asked;
use crate::requests::Command;
use crate::tools::{ToolAsked, tool_asked};
use tick_time::Rate;

/// How many files a command line may name at most.
const MOST_FILES: usize = 10_000;

/// What the options and the files of `cat` ask for: the command and the first file's name.
pub fn cat_of<'a>(line: &Line<'a>) -> Option<(Command, &'a str)>
    ensures { let given = given_by line.now in MatchOption result
        ((command : Command) (name : List ℕ) → IsCat command name given → ⊥)
        (λ asked. IsCat asked.0 asked.1.now given) }
{
    let Some(name) = first_of_few(line) else {
        return None;
    };
    match rate_asked(line.rate) {
        Some(rate) => Some((cat_command(name, line, rate), name)),
        None => None,
    }
}

// The command `cat` on files of these names.
fn cat_command(name: &str, line: &Line<'_>, rate: Rate) -> Command
    ensures { IsByNames Command.Cat ListCatCommand result
        (name.now ∷ (given_by line.now).more) rate }
{
    if names_list(name, line) {
        Command::ListCat { rate }
    } else {
        Command::Cat
    }
}

/// What the options and the file of `stat` ask for: the command and the file's name.
pub fn stat_of<'a>(line: &Line<'a>) -> Option<(Command, &'a str)>
    ensures { let given = given_by line.now in MatchOption result
        ((command : Command) (name : List ℕ) → IsStat command name given → ⊥)
        (λ asked. IsStat asked.0 asked.1.now given) }
{
    let Some(name) = line.file else {
        return None;
    };
    match rate_asked(line.rate) {
        Some(rate) => Some((stat_command(name, rate), name)),
        None => None,
    }
}

// The command `stat` on a file of this name.
fn stat_command(name: &str, rate: Rate) -> Command
    ensures { IsByNames Command.Stat ListStatCommand result (name.now ∷ []) rate }
{
    if is_list_name(name) {
        Command::ListStat { rate }
    } else {
        Command::Stat
    }
}

/// What the options and the files of `tool` ask for: the command and the first file's name.
pub fn tool_of<'a>(line: &Line<'a>) -> Option<(Command, &'a str)>
    ensures { let given = given_by line.now in MatchOption result
        ((command : Command) (name : List ℕ) → IsTool command name given → ⊥)
        (λ asked. IsTool asked.0 asked.1.now given) }
{
    let Some(name) = first_of_few(line) else {
        return None;
    };
    let Some(tool) = tool_asked(line) else {
        return None;
    };
    match rate_asked(line.rate) {
        Some(rate) => Some((tool_command(name, line, rate, tool), name)),
        None => None,
    }
}

// The command `tool` on files of these names.
fn tool_command(name: &str, line: &Line<'_>, rate: Rate, tool: ToolAsked) -> Command
    ensures { IsByNames (ToolCommand tool) (λ r. ListToolCommand r tool) result
        (name.now ∷ (given_by line.now).more) rate }
{
    if names_list(name, line) {
        Command::ListTool { rate, tool }
    } else {
        Command::Tool(tool)
    }
}

// Whether a command line may name one file and these.
fn are_few(more: &[&str]) -> bool
    ensures { IsTrue result ↔ AreFew (map (λ n. n.now) more.now) }
{
    more.len() < MOST_FILES
}

// The first file of a command line that names no more files than it may.
fn first_of_few<'a>(line: &Line<'a>) -> Option<&'a str>
    ensures { let given = given_by line.now in MatchOption result
        ((name : List ℕ) → given.file ≡ Some name → AreFew given.more → ⊥)
        (λ name. (given.file ≡ Some name.now) × AreFew given.more) }
{
    let Some(name) = line.file else {
        return None;
    };
    if are_few(line.more.as_slice()) {
        Some(name)
    } else {
        None
    }
}

// Whether this file or one of those after it is a list, by its name.
fn names_list(name: &str, line: &Line<'_>) -> bool
    ensures { IsTrue result ↔ HasList (name.now ∷ (given_by line.now).more) }
{
    is_list_name(name) || has_list(line.more.as_slice())
}
