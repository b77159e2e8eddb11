//! Notes whose labels are below the day.
ghost use Rattle.std.specs.Prelude.{◌≡◌};
ghost use Rattle.note_text.specs.Belonging.{below_day, is_said_below_day};

use crate::notes::{Notes, Said};
use smpte_tc::label;
use tick_time::Rate;

// Whether what a note says can be written at the rate, with drop-frame or without: a locator's
// frame is one of the day.
fn is_below_day(said: &Said, rate: Rate, drop: bool) -> bool
    ensures { result ≡ is_said_below_day rate drop said.now }
{
    match said {
        Said::Loc { at, .. } => label(*at, rate, drop).is_ok(),
        Said::Sop { .. } => true,
        Said::Sat(_) => true,
    }
}

/// The notes without each locator whose frame isn't below the day at the rate, with drop-frame or
/// without. It takes no memory.
pub fn notes_below_day(notes: Notes, rate: Rate, drop: bool) -> Notes
    ensures { result ≡ below_day rate drop notes }
{
    let mut notes = notes.into_vec();
    notes.retain(|note| is_below_day(&note.said, rate, drop));
    Notes::of(notes)
}
