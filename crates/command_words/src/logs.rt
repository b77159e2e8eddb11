// What a command line of `media` asks for.
ghost use Rattle.std.specs.Prelude.{◌≡◌, ℕ, List, MatchOption};
ghost use Rattle.command_words.specs.Asked.{IsLogList};
ghost use Rattle.command_words.specs.Given.{given_by};

use crate::lines::Line;
use crate::requests::Command;

/// What the file of `media` asks for: the command and the file's name.
pub fn log_of<'a>(line: &Line<'a>) -> Option<(Command, &'a str)>
    ensures { let given = given_by line.now in MatchOption result
        ((command : Command) (name : List ℕ) → IsLogList command name given → ⊥)
        (λ asked. IsLogList asked.0 asked.1.now given) }
{
    match line.file {
        Some(name) => Some((Command::LogToMedia, name)),
        None => None,
    }
}
