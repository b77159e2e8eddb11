// What a command line of `edit` asks for.
ghost use Rattle.std.specs.Prelude.{◌≡◌, ℕ, List, MatchOption};
ghost use Rattle.command_words.specs.Asked.{IsEdit, IsEditing};
ghost use Rattle.command_words.specs.Given.{given_by};

use crate::lines::Line;
use crate::names::is_list_name;
use crate::rates::rate_asked;
use crate::requests::Command;
use tick_time::Rate;

/// What the options and the file of `edit` ask for: the command and the file's name; none without a
/// script.
pub fn edit_of<'a>(line: &Line<'a>) -> Option<(Command, &'a str)>
    ensures { let given = given_by line.now in MatchOption result
        ((command : Command) (name : List ℕ) → IsEdit command name given → ⊥)
        (λ asked. IsEdit asked.0 asked.1.now given) }
{
    let Some(name) = line.file else {
        return None;
    };
    let Some(_) = line.script else {
        return None;
    };
    match rate_asked(line.rate) {
        Some(rate) => Some((editing_of(name, rate), name)),
        None => None,
    }
}

// The edit of a file of that name.
fn editing_of(name: &str, rate: Rate) -> Command
    ensures { IsEditing result name.now rate }
{
    if is_list_name(name) {
        Command::ListEdit { rate }
    } else {
        Command::Edit
    }
}
