//! The lines of the heading.

ghost use Rattle.std.specs.Prelude.{◌≡◌, ◌↔◌, [], IsTrue, IfErr, IfOk, List, IsSome, None, Option, MatchOption, codes, ℕ};
ghost use Rattle.tick_time.specs.Rates.{nominal};
ghost use Rattle.tick_time.specs.declared.rates.Rate.{Rate as AnyRate};
ghost use Rattle.ale_text.specs.Words.{IsLogRate};
ghost use Rattle.ale_text.specs.Lines.{Follows, GivesRate, IsEntry, IsTabbed, IsWrong};

use crate::faults::AleFault;
use crate::sections::Due;
use crate::spaces::{is_section, trim_spaces};
use text_lines::{after, before, first_byte, is_text};
use tick_time::{Rate, rate_of};

/// A line of the heading: a name, a tab and a value.
#[derive(Clone, Copy)]
struct Entry<'a> {
    name: &'a [u8],
    value: &'a [u8],
}

// What a line of the heading says; none where it has no tab.
fn entry_of(line: &[u8]) -> Option<Entry<'_>>
    ensures { MatchOption result ((name value : List ℕ) → IsEntry line.now name value → ⊥)
        (λ entry. IsEntry line.now entry.name.now entry.value.now) }
{
    match first_byte(line, b'\t') {
        Some(end) => Some(Entry {
            name: before(line, end),
            value: trim_spaces(after(line, end + 1)),
        }),
        None => None,
    }
}

// The rate that a word spells, where that has timecode.
fn log_rate(word: &[u8]) -> Option<Rate>
    ensures { MatchOption result ((rate : AnyRate) → IsLogRate word.now rate → ⊥)
        (IsLogRate word.now) }
{
    match rate_of(word) {
        Some(rate) => with_timecode(rate),
        None => None,
    }
}

// A rate that has timecode; none where it has none.
fn with_timecode(rate: Rate) -> Option<Rate>
    ensures { MatchOption result (IsSome (nominal rate.num rate.den) → ⊥)
        (λ same. (same ≡ rate) × IsSome (nominal rate.num rate.den)) }
{
    if rate.nominal().is_some() {
        Some(rate)
    } else {
        None
    }
}

// Whether a line of the heading isn't `FIELD_DELIM`, or is and names tabs, which are what stands
// between fields.
fn is_tabbed(said: &Entry<'_>) -> bool
    ensures { IsTrue result ↔ IsTabbed said.now.name.now said.now.value.now }
{
    !is_text(said.name, b"FIELD_DELIM") || is_text(said.value, b"TABS")
}

/// What is due after a line of the heading, or after the line `Column`, where this rate was given
/// before. An error is the fault of the line, which has this number.
pub(crate) fn due_after_entry(line: &[u8], rate: Option<Rate>, number: u32) -> Result<Due, AleFault>
    ensures due { IfOk result (Follows (Due.Entry rate) line.now []) }
    ensures fault { IfErr result (IsWrong (Due.Entry rate) number line.now) }
{
    if is_section(line, b"Column") {
        return match rate {
            Some(rate) => Ok(Due::Names(rate)),
            None => Err(AleFault::Form(number)),
        };
    }
    match entry_of(line) {
        Some(entry) => {
            if is_tabbed(&entry) {
                due_after_value(&entry, rate, number)
            } else {
                Err(AleFault::Form(number))
            }
        }
        None => Err(AleFault::Form(number)),
    }
}

// What is due after a line of the heading that says this.
fn due_after_value(said: &Entry<'_>, rate: Option<Rate>, number: u32) -> Result<Due, AleFault>
    ensures due { IfOk result (λ due. (behind : Option AnyRate) × (due ≡ Due.Entry behind)
        × GivesRate rate said.now.name.now said.now.value.now behind) }
    ensures fault { IfErr result (λ fault. (fault ≡ AleFault.Rate number) × (rate ≡ None)
        × (said.now.name.now ≡ codes "FPS")
        × ((some : AnyRate) → IsLogRate said.now.value.now some → ⊥)) }
{
    if rate.is_some() || !is_text(said.name, b"FPS") {
        return Ok(Due::Entry(rate));
    }
    match log_rate(said.value) {
        Some(rate) => Ok(Due::Entry(Some(rate))),
        None => Err(AleFault::Rate(number)),
    }
}
