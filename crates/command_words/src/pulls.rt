// What a command line of `pull` asks for.
ghost use Rattle.std.specs.Prelude.{◌≡◌, ◌∷◌, [], ℕ, List, MatchOption};
ghost use Rattle.std.specs.Option.{option_map};
ghost use Rattle.command_words.specs.Asked.{AreHandles, IsByNames, IsHandles, IsPull};
ghost use Rattle.command_words.specs.Given.{given_by};
ghost use Rattle.command_words.specs.declared.requests.Command.TheVariants.{Pull as PullCommand, ListPull as ListPullCommand};

use crate::lines::Line;
use crate::names::is_list_name;
use crate::rates::rate_asked;
use crate::requests::Command;
use smpte_tc::whole_number;
use tick_time::Rate;

/// How many frames a command line may ask for at most on both sides of each.
const MOST_HANDLES: u64 = 10_000;

/// What the options and the file of `pull` ask for: the command and the file's name.
pub fn pull_of<'a>(line: &Line<'a>) -> Option<(Command, &'a str)>
    ensures { let given = given_by line.now in MatchOption result
        ((command : Command) (name : List ℕ) → IsPull command name given → ⊥)
        (λ asked. IsPull asked.0 asked.1.now given) }
{
    let Some(name) = line.file else {
        return None;
    };
    let Some(handles) = handles_asked(line.handles) else {
        return None;
    };
    match rate_asked(line.rate) {
        Some(rate) => Some((pull_command(name, rate, handles), name)),
        None => None,
    }
}

// The command `pull` on a file of this name.
fn pull_command(name: &str, rate: Rate, handles: u32) -> Command
    ensures { IsByNames (PullCommand handles) (λ r. ListPullCommand r handles) result
        (name.now ∷ []) rate }
{
    if is_list_name(name) {
        Command::ListPull { rate, handles }
    } else {
        Command::Pull { handles }
    }
}

// How many frames an option asks for on both sides of each: none where it isn't given.
fn handles_asked(word: Option<&str>) -> Option<u32>
    ensures { let given = option_map (λ s. s.now) word.entry in MatchOption result
        ((handles : ℕ) → AreHandles given handles → ⊥) (AreHandles given) }
{
    match word {
        Some(word) => handles_of(word),
        None => Some(0),
    }
}

// How many frames a word asks for, from 0 to 10 000.
fn handles_of(word: &str) -> Option<u32>
    ensures { MatchOption result ((handles : ℕ) → IsHandles word.now handles → ⊥)
        (IsHandles word.now) }
{
    let Some(count) = whole_number(word) else {
        return None;
    };
    if count > MOST_HANDLES {
        return None;
    }
    Some(count as u32)
}
