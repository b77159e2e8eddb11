// What a command line of `frames` asks for.
ghost use Rattle.std.specs.Prelude.{◌≡◌, ℕ, List, Option, MatchOption};
ghost use Rattle.std.specs.Option.{option_map};
ghost use Rattle.smpte_tc.specs.Words.{IsWholeNumber, IsPoint};
ghost use Rattle.command_words.specs.Asked.{AreFrames, IsCount, IsFrameList, IsListing};
ghost use Rattle.command_words.specs.Given.{IsValue, given_by};

use crate::lines::Line;
use crate::names::is_list_name;
use crate::rates::rate_asked;
use crate::requests::{Command, FramesAsked};
use smpte_tc::{RecordPoint, point_of, whole_number};
use tick_time::Rate;

/// How many record frames a command line may ask for at least.
const LEAST_FRAMES: u64 = 1;

/// How many record frames a command line may ask for at most.
const MOST_FRAMES: u64 = 1_000_000;

/// What the options and the file of `frames` ask for: the command and the file's name.
pub fn frame_list_of<'a>(line: &Line<'a>) -> Option<(Command, &'a str)>
    ensures { let given = given_by line.now in MatchOption result
        ((command : Command) (name : List ℕ) → IsFrameList command name given → ⊥)
        (λ asked. IsFrameList asked.0 asked.1.now given) }
{
    let Some(name) = line.file else {
        return None;
    };
    let Some(frames) = frames_asked(line) else {
        return None;
    };
    match rate_asked(line.rate) {
        Some(rate) => Some((listing_of(name, rate, frames), name)),
        None => None,
    }
}

// The listing of a file of that name.
fn listing_of(name: &str, rate: Rate, frames: FramesAsked) -> Command
    ensures { IsListing result name.now rate frames }
{
    if is_list_name(name) {
        Command::ListFrames { rate, frames }
    } else {
        Command::Frames(frames)
    }
}

// Which frames the options ask for.
fn frames_asked(line: &Line<'_>) -> Option<FramesAsked>
    ensures { MatchOption result ((asked : FramesAsked) → AreFrames (given_by line.now) asked →
        ⊥) (AreFrames (given_by line.now)) }
{
    let Some(child) = child_asked(line.child) else {
        return None;
    };
    let Some(start) = start_asked(line.start) else {
        return None;
    };
    match count_asked(line.count) {
        Some(count) => Some(FramesAsked {
            child,
            start,
            count,
        }),
        None => None,
    }
}

// The child that an option asks for.
fn child_asked(word: Option<&str>) -> Option<Option<u64>>
    ensures { let given = option_map (λ s. s.now) word.entry in MatchOption result
        ((child : Option ℕ) → IsValue IsWholeNumber given child →
        ⊥) (λ child. IsValue IsWholeNumber given child) }
{
    match word {
        Some(word) => match whole_number(word) {
            Some(child) => Some(Some(child)),
            None => None,
        },
        None => Some(None),
    }
}

// The record point that an option asks for.
fn start_asked(word: Option<&str>) -> Option<Option<RecordPoint>>
    ensures { let given = option_map (λ s. s.now) word.entry in MatchOption result
        ((start : Option RecordPoint) → IsValue IsPoint given start →
        ⊥) (λ start. IsValue IsPoint given start) }
{
    match word {
        Some(word) => match point_of(word) {
            Some(start) => Some(Some(start)),
            None => None,
        },
        None => Some(None),
    }
}

// The count that an option asks for.
fn count_asked(word: Option<&str>) -> Option<Option<u32>>
    ensures { let given = option_map (λ s. s.now) word.entry in MatchOption result
        ((count : Option ℕ) → IsValue IsCount given count →
        ⊥) (λ count. IsValue IsCount given count) }
{
    match word {
        Some(word) => match count_of(word) {
            Some(count) => Some(Some(count)),
            None => None,
        },
        None => Some(None),
    }
}

// The count of record frames that a word is, from 1 to a million.
fn count_of(word: &str) -> Option<u32>
    ensures { MatchOption result ((count : ℕ) → IsCount word.now count → ⊥) (IsCount word.now) }
{
    let Some(count) = whole_number(word) else {
        return None;
    };
    if count < LEAST_FRAMES {
        return None;
    }
    if count > MOST_FRAMES {
        return None;
    }
    Some(count as u32)
}
