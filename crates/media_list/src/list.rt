//! Media lists.

ghost use Rattle.std.specs.Prelude.{◌≡◌, ◌⊎◌, ◌++◌, ◌∷◌, [], ◌≤◌, ◌+◌, List, ℕ, length, All, IfOk, IfErr, IfSome, OnOk};
ghost use Rattle.std.specs.Option.{option_copied};
ghost use Rattle.limits.specs.Limits.{most_bytes};
ghost use Rattle.media_rows.specs.Rows.{by_reel as row_of_reel, by_url as row_of_url, AreRows, IsRowInRange};
ghost use Rattle.media_list.specs.Lines.{IsLineFault};
ghost use Rattle.media_list.specs.Lists.{IsMediaList, IsFault};
ghost use Rattle.media_list.specs.Tables.{IsIndexed, HasTaken};

use crate::faults::MediaFault;
use crate::rows::row_of;
use crate::table::Table;
use limits::MOST_BYTES;
use media_rows::MediaRow;
use sequences::Text;
use std::alloc::{AllocError, Global};
use std::marker::Model;
use text_lines::{after, before, first_byte, strip_return};

/// How many bytes a media list has at most.
pub(crate) const LIMIT: usize = MOST_BYTES as usize;

/// The sources that a conform knows, which contracts see as the list of the rows, in the order of
/// their lines. No two rows have one reel or one URL.
pub struct MediaList {
    table: Table,
}

impl Model for MediaList {
    ghost use Rattle.std.specs.Prelude.{List};
    ghost use Rattle.media_list.specs.Tables.{IsIndexed};
    ghost use Rattle.media_rows.specs.declared.row.MediaRow.{MediaRow as Row};

    ghost Value = { List Row };

    ghost view = { λ it. it.table.rows.items };

    ghost invariant = { λ it. IsIndexed it.table };
}

impl MediaList {
    /// The media list that bytes are.
    ///
    /// # Errors
    /// [`MediaFault::Large`] before all; else that of the first line that has one, in the order
    /// `Line`, `Rate`, `Range`, `ReelTwice`, `UrlTwice`. [`MediaFault::Memory`] comes where memory
    /// runs out.
    pub fn read(alloc: Global, bytes: &[u8]) -> Result<MediaList, MediaFault>
        ensures list { IfOk result (λ list. IsMediaList bytes.now list) }
        ensures fault { IfErr result (λ fault. (fault ≡ MediaFault.Memory)
            ⊎ IsFault bytes.now fault) }
    {
        if bytes.len() > LIMIT {
            return Err(MediaFault::Large);
        }
        let table = table_of(alloc, bytes)?;
        Ok(MediaList { table })
    }

    /// The row of a reel; none where no row has it. It takes no memory.
    pub fn by_reel(&self, reel: &Text) -> Option<&MediaRow>
        ensures row { option_copied result ≡ row_of_reel reel.now self.now }
        ensures range { IfSome result (λ row. IsRowInRange row.now) }
        ensures apart { AreRows self.now }
    {
        self.table.by_reel(reel)
    }

    /// The row of a URL; none where no row has it. It takes no memory.
    pub fn by_url(&self, url: &Text) -> Option<&MediaRow>
        ensures row { option_copied result ≡ row_of_url url.now self.now }
        ensures range { IfSome result (λ row. IsRowInRange row.now) }
        ensures apart { AreRows self.now }
    {
        self.table.by_url(url)
    }

    /// The media list of these rows, in their order. No two of them may have one reel or one URL,
    /// and their media must lie in range.
    ///
    /// # Errors
    /// An error comes only where memory runs out.
    pub fn of_rows(alloc: Global, rows: Vec<MediaRow>) -> Result<MediaList, AllocError>
        requires apart { AreRows rows.items }
        requires ranges { All IsRowInRange rows.items }
        ensures { IfOk result (λ list. list ≡ rows.items) }
    {
        let table = Table::of(alloc, rows)?;
        Ok(MediaList { table })
    }

    /// The rows in the order of their lines. It takes no memory.
    pub fn rows(&self) -> &[MediaRow]
        ensures rows { result.now ≡ self.now }
        ensures apart { AreRows self.now }
        ensures ranges { All IsRowInRange self.now }
    {
        self.table.rows.as_slice()
    }
}

// The table of the rows that all lines say.
fn table_of(alloc: Global, bytes: &[u8]) -> Result<Table, MediaFault>
    requires { length bytes.now ≤ most_bytes }
    ensures list { IfOk result (λ table. IsMediaList bytes.now table.rows.items) }
    ensures indexed { IfOk result IsIndexed }
    ensures fault { IfErr result (λ fault. (fault ≡ MediaFault.Memory)
        ⊎ IsFault bytes.now fault) }
{
    let mut table = Table::new(alloc);
    let mut rest = bytes;
    let mut number: u32 = 1;
    'lines: while let Some(end) = first_byte(rest, b'\n') {
        match take_line(&mut table, alloc, strip_return(before(rest, end)), number) {
            Ok(()) => {}
            Err(fault) => return Err(fault),
        }
        rest = after(rest, end + 1);
        number += 1;
    }
    match take_line(&mut table, alloc, rest, number) {
        Ok(()) => Ok(table),
        Err(fault) => Err(fault),
    }
}

// Takes a line of that number; the table has the rows of the lines before it.
fn take_line(table: &mut Table, alloc: Global, line: &[u8], number: u32) -> Result<(), MediaFault>
    requires { IsIndexed table.old }
    ensures taken { OnOk result (HasTaken line.now table.old.rows.items table.new.rows.items) }
    ensures indexed { OnOk result (IsIndexed table.new) }
    ensures fault { IfErr result (λ fault. (fault ≡ MediaFault.Memory)
        ⊎ IsLineFault table.old.rows.items number line.now fault) }
{
    match row_of(alloc, line, number) {
        Ok(Some(row)) => table.add(alloc, row, number),
        Ok(None) => Ok(()),
        Err(fault) => Err(fault),
    }
}

// Drops are written out: a derived one is proved anew in each crate that drops such a value.

impl Drop for MediaList {
    fn drop(self) {
        let MediaList { table: _ } = self;
    }
}
