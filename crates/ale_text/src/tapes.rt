//! The tapes of a log.

ghost use Rattle.std.specs.Prelude.{◌≡◌, ◌++◌, ◌<◌, ◌^◌, ℕ, pos, [], ◌∷◌, None, All, IfOk, OnOk, codes, max, min};
ghost use Rattle.media_rows.specs.Rows.{AreRows, IsRowInRange, by_reel as row_of_reel};
ghost use Rattle.ale_text.specs.Lines.{Taking};
ghost use Rattle.ale_text.specs.Tables.{IsKept, IsSmallRow, IsSmallTake, first_row, widened, with_taking};
ghost use Rattle.ale_text.specs.Views.{IsTake};

use crate::rows::Take;
use indexmap::IndexSet;
use media_list::{MediaList, MediaRow};
use sequences::Text;
use std::alloc::{AllocError, Global};
use tick_time::Rate;

/// The rows of tapes in the order in which the tapes came, each at the index of its tape's name.
pub struct Tapes {
    pub(crate) rows: Vec<MediaRow>,
    pub(crate) names: IndexSet<String>,
}

impl Tapes {
    /// No tapes. It takes no memory.
    pub(crate) fn new(alloc: Global) -> Tapes
        ensures rows { result.rows.items ≡ [] }
        ensures kept { IsKept result }
    {
        Tapes {
            rows: Vec::new(alloc),
            names: IndexSet::new(alloc),
        }
    }

    /// Adds frames of a tape, at this rate: the row of the tape is widened to them, and a tape that
    /// has none gets a row after the others.
    pub(crate) fn add(
        &mut self,
        alloc: Global,
        take: Take<'_>,
        rate: Rate,
    ) -> Result<(), AllocError>
        requires kept { IsKept self.old }
        requires small { IsSmallTake take }
        ensures rows { (taking : Taking) → IsTake take.entry taking →
            OnOk result (self.new.rows.items ≡ with_taking rate taking self.old.rows.items) }
        ensures kept { OnOk result (IsKept self.new) }
    {
        match self.names.get_index_of(take.tape) {
            Some(index) => {
                widen(&mut self.rows[index], take.start, take.end);
                Ok(())
            }
            None => self.push(alloc, take, rate),
        }
    }

    // Puts the row of a new tape last.
    fn push(&mut self, alloc: Global, take: Take<'_>, rate: Rate) -> Result<(), AllocError>
        requires kept { IsKept self.old }
        requires small { IsSmallTake take }
        requires fresh { row_of_reel take.tape.now self.old.rows.items ≡ None }
        ensures rows { (taking : Taking) → IsTake take.entry taking → OnOk result
            (self.new.rows.items ≡ self.old.rows.items ++ first_row rate taking ∷ []) }
        ensures kept { OnOk result (IsKept self.new) }
    {
        let row = row_of(alloc, take, rate)?;
        let name = String::from_str(alloc, take.tape)?;
        self.names.insert(name)?;
        self.rows.push(row)?;
        Ok(())
    }

    /// The media list of the rows.
    pub(crate) fn into_list(self, alloc: Global) -> Result<MediaList, AllocError>
        requires apart { AreRows self.rows.items }
        requires ranges { All IsRowInRange self.rows.items }
        ensures { IfOk result (λ list. list ≡ self.rows.items) }
    {
        let Tapes { rows, names: _ } = self;
        MediaList::of_rows(alloc, rows)
    }
}

// The row of a tape that has these frames alone.
fn row_of(alloc: Global, take: Take<'_>, rate: Rate) -> Result<MediaRow, AllocError>
    requires small { IsSmallTake take }
    ensures { (taking : Taking) → IsTake take.entry taking →
        IfOk result (λ row. row ≡ first_row rate taking) }
{
    let reel = Text::of(alloc, take.tape)?;
    let url = url_of(alloc, take.tape)?;
    Ok(MediaRow {
        reel,
        url,
        rate,
        start: take.start,
        count: take.end - take.start,
    })
}

// The URL of a tape: `tape:` and its name.
fn url_of(alloc: Global, tape: &str) -> Result<Text, AllocError>
    ensures { IfOk result (λ url. url ≡ codes "tape:" ++ tape.now) }
{
    let mut url = String::from_str(alloc, "tape:")?;
    url.push_str(tape)?;
    Text::of(alloc, url.as_str())
}

// Widens the row of a tape to the frames from this first one up to, not including, this end.
fn widen(row: &mut MediaRow, first: i64, end: i64)
    requires row { IsSmallRow row.old }
    requires frames { (taking : Taking) × (first ≡ pos taking.start) × (end ≡ pos taking.end)
        × (taking.start < taking.end) × (taking.end < 10 ^ 18) }
    ensures { (taking : Taking) → first ≡ pos taking.start → end ≡ pos taking.end →
        row.new ≡ widened taking row.old }
{
    let last = greater(row.start + row.count, end);
    row.start = lesser(row.start, first);
    row.count = last - row.start;
}

// The lesser of two numbers.
fn lesser(a: i64, b: i64) -> i64
    ensures { (n k : ℕ) → a ≡ pos n → b ≡ pos k → result ≡ pos (min n k) }
{
    if a <= b { a } else { b }
}

// The greater of two numbers.
fn greater(a: i64, b: i64) -> i64
    ensures { (n k : ℕ) → a ≡ pos n → b ≡ pos k → result ≡ pos (max n k) }
{
    if a <= b { b } else { a }
}

// Drops are written out: a derived one is proved anew in each crate that drops such a value.

impl Drop for Tapes {
    fn drop(self) {
        let Tapes { rows: _, names: _ } = self;
    }
}
