// What a command line of `convert` asks for.
ghost use Rattle.std.specs.Prelude.{◌≡◌, ℕ, Bool, List, Option, Some, None, MatchOption};
ghost use Rattle.std.specs.Option.{option_map};
ghost use Rattle.command_words.specs.Asked.{IsConversion, IsAskedOf, IsFamily, IsInput, IsOutput};
ghost use Rattle.command_words.specs.Ways.{ways_of};
ghost use Rattle.command_words.specs.Given.{given_by};

use crate::lines::Line;
use crate::names::is_list_name;
use crate::rates::rate_asked;
use crate::requests::Command;
use text_lines::is_text;
use tick_time::Rate;

/// What a file is read as, or what is written.
#[derive(Clone, Copy, PartialEq, Eq)]
pub enum Form {
    /// An object of OpenTimelineIO.
    Objects,
    /// A CMX 3600 list.
    List,
    /// A JSON text.
    Json,
}

/// What the options and the file of `convert` ask for: the command and the file's name.
pub fn conversion_of<'a>(line: &Line<'a>) -> Option<(Command, &'a str)>
    ensures { let given = given_by line.now in MatchOption result
        ((command : Command) (name : List ℕ) → IsConversion command name given → ⊥)
        (λ asked. IsConversion asked.0 asked.1.now given) }
{
    let Some(name) = line.file else {
        return None;
    };
    let Some(input) = input_of(line.from, name) else {
        return None;
    };
    let Some(output) = output_of(line.to, line.target) else {
        return None;
    };
    let Some(rate) = rate_asked(line.rate) else {
        return None;
    };
    let Some(older) = older_asked(line.family) else {
        return None;
    };
    let ways = Ways {
        drop: line.drop,
        wide: line.wide,
        older,
        notes: line.notes,
    };
    match command_in(input, output, rate, ways) {
        Some(command) => Some((command, name)),
        None => None,
    }
}

// Whether the older family of schemas is asked for.
fn older_asked(family: Option<&str>) -> Option<bool>
    ensures { let asked = option_map (λ s. s.now) family.entry in MatchOption result
        ((older : Bool) → IsFamily asked older → ⊥)
        (λ older. IsFamily asked older) }
{
    match family {
        Some(word) => older_of_word(word),
        None => Some(false),
    }
}

// Whether a word names the older family.
fn older_of_word(word: &str) -> Option<bool>
    ensures { MatchOption result
        ((older : Bool) → IsFamily (Some word.now) older → ⊥)
        (λ older. IsFamily (Some word.now) older) }
{
    let word = word.as_bytes();
    if is_text(word, b"1") {
        return Some(true);
    }
    if is_text(word, b"2") {
        return Some(false);
    }
    None
}

// What the file is read as.
fn input_of(from: Option<&str>, name: &str) -> Option<Form>
    ensures { let asked = option_map (λ s. s.now) from.entry in MatchOption result
        ((form : Form) → IsInput asked name.now form → ⊥)
        (λ form. IsInput asked name.now form) }
{
    match from {
        Some(word) => input_of_word(word),
        None => Some(form_of_name(name)),
    }
}

// What a word says that the file is.
fn input_of_word(word: &str) -> Option<Form>
    ensures { (name : List ℕ) → MatchOption result
        ((form : Form) → IsInput (Some word.now) name form → ⊥)
        (λ form. IsInput (Some word.now) name form) }
{
    let word = word.as_bytes();
    if is_text(word, b"otio") {
        return Some(Form::Objects);
    }
    if is_text(word, b"edl") {
        return Some(Form::List);
    }
    None
}

// What a file of that name is where nothing else says so.
fn form_of_name(name: &str) -> Form
    ensures { IsInput None name.now result }
{
    if is_list_name(name) {
        Form::List
    } else {
        Form::Objects
    }
}

// What is written.
fn output_of(to: Option<&str>, target: Option<&str>) -> Option<Form>
    ensures { let asked = option_map (λ s. s.now) to.entry in let named = option_map
        (λ s. s.now) target.entry in MatchOption result
        ((form : Form) → IsOutput asked named form → ⊥)
        (λ form. IsOutput asked named form) }
{
    match to {
        Some(word) => form_of_word(word),
        None => Some(default_output(target)),
    }
}

// What a word asks to be written.
fn form_of_word(word: &str) -> Option<Form>
    ensures { (target : Option (List ℕ)) → MatchOption result
        ((form : Form) → IsOutput (Some word.now) target form → ⊥)
        (λ form. IsOutput (Some word.now) target form) }
{
    let word = word.as_bytes();
    if is_text(word, b"otio") {
        return Some(Form::Objects);
    }
    if is_text(word, b"edl") {
        return Some(Form::List);
    }
    if is_text(word, b"json") {
        return Some(Form::Json);
    }
    None
}

// What is written into a file of that name, or to the standard output, where no option says so.
fn default_output(target: Option<&str>) -> Form
    ensures { IsOutput None (option_map (λ s. s.now) target.entry) result }
{
    match target {
        Some(name) => form_of_name(name),
        None => Form::Objects,
    }
}

// How what is written is asked for.
#[derive(Clone, Copy)]
struct Ways {
    // Whether lists have drop-frame timecode.
    drop: bool,
    // Whether lists are in the wide layout.
    wide: bool,
    // Whether objects are in the older family.
    older: bool,
    // Whether lists are written with notes, and timelines given those of their lists.
    notes: bool,
}

// The command by what is read and what is written.
fn command_in(input: Form, output: Form, rate: Rate, ways: Ways) -> Option<Command>
    ensures { MatchOption result
        ((command : Command) → IsAskedOf command input output rate (ways_of ways) → ⊥)
        (λ command. IsAskedOf command input output rate (ways_of ways)) }
{
    match input {
        Form::Objects => object_command(output, ways),
        Form::List => list_command(output, rate, ways),
        Form::Json => None,
    }
}

// The command for a list.
fn list_command(output: Form, rate: Rate, ways: Ways) -> Option<Command>
    ensures { MatchOption result
        ((command : Command) → IsAskedOf command Form.List output rate (ways_of ways) → ⊥)
        (λ command. IsAskedOf command Form.List output rate (ways_of ways)) }
{
    let Ways {
        drop,
        wide,
        older,
        notes,
    } = ways;
    match output {
        Form::Objects => Some(Command::ListToObjects { rate, older, notes }),
        Form::List => Some(Command::ListToList {
            rate,
            drop,
            wide,
            notes,
        }),
        Form::Json => None,
    }
}

// The command for objects.
fn object_command(output: Form, ways: Ways) -> Option<Command>
    ensures { (rate : Rate) → MatchOption result
        ((command : Command) → IsAskedOf command Form.Objects output rate (ways_of ways) → ⊥)
        (λ command. IsAskedOf command Form.Objects output rate (ways_of ways)) }
{
    let Ways {
        drop,
        wide,
        older,
        notes,
    } = ways;
    match output {
        Form::Objects => Some(Command::ToObjects { older }),
        Form::Json => Some(Command::ToJson),
        Form::List => Some(Command::TimelineToList { drop, wide, notes }),
    }
}
