//! Rows with the places of their reels and URLs.

ghost use Rattle.std.specs.Prelude.{◌≡◌, ◌⊎◌, ◌++◌, ◌∷◌, [], None, All, IsSome, IfErr, IfOk, IfSome, OnOk, slice_get};
ghost use Rattle.std.specs.Option.{option_copied};
ghost use Rattle.media_rows.specs.Rows.{by_reel as row_of_reel, by_url as row_of_url, AreRows, IsRowInRange};
ghost use Rattle.media_list.specs.Lines.{IsNew, IsTwice};
ghost use Rattle.media_list.specs.Tables.{IsIndexed, PutsName};

use crate::faults::MediaFault;
use indexmap::IndexSet;
use media_rows::MediaRow;
use sequences::Text;
use std::alloc::{AllocError, Global};

/// Rows in order, each at the index of its reel and of its URL.
pub struct Table {
    pub(crate) rows: Vec<MediaRow>,
    pub(crate) reels: IndexSet<String>,
    pub(crate) urls: IndexSet<String>,
}

impl Table {
    /// A table of no rows. It takes no memory.
    pub(crate) fn new(alloc: Global) -> Table
        ensures rows { result.rows.items ≡ [] }
        ensures indexed { IsIndexed result }
    {
        Table {
            rows: Vec::new(alloc),
            reels: IndexSet::new(alloc),
            urls: IndexSet::new(alloc),
        }
    }

    /// The table of these rows, in their order. An error comes where memory runs out.
    pub(crate) fn of(alloc: Global, rows: Vec<MediaRow>) -> Result<Table, AllocError>
        requires apart { AreRows rows.items }
        requires ranges { All IsRowInRange rows.items }
        ensures rows { IfOk result (λ table. table.rows.items ≡ rows.items) }
        ensures indexed { IfOk result IsIndexed }
    {
        let mut reels = IndexSet::new(alloc);
        let mut urls = IndexSet::new(alloc);
        'rows: for row in rows.as_slice() {
            put_name(&mut reels, alloc, &row.reel)?;
            put_name(&mut urls, alloc, &row.url)?;
        }
        Ok(Table { rows, reels, urls })
    }

    /// The row of a reel.
    pub(crate) fn by_reel(&self, reel: &Text) -> Option<&MediaRow>
        requires { IsIndexed self.now }
        ensures row { option_copied result ≡ row_of_reel reel.now self.now.rows.items }
        ensures range { IfSome result (λ row. IsRowInRange row.now) }
    {
        match self.reels.get_index_of(reel.as_str()) {
            Some(index) => self.row_at(index),
            None => None,
        }
    }

    /// The row of a URL.
    pub(crate) fn by_url(&self, url: &Text) -> Option<&MediaRow>
        requires { IsIndexed self.now }
        ensures row { option_copied result ≡ row_of_url url.now self.now.rows.items }
        ensures range { IfSome result (λ row. IsRowInRange row.now) }
    {
        match self.urls.get_index_of(url.as_str()) {
            Some(place) => self.row_at(place),
            None => None,
        }
    }

    // The row at an index.
    fn row_at(&self, index: usize) -> Option<&MediaRow>
        ensures { option_copied result ≡ slice_get self.now.rows.items index }
    {
        self.rows.get(index)
    }

    /// Puts the row of a line of that number last.
    pub(crate) fn add(
        &mut self,
        alloc: Global,
        row: MediaRow,
        number: u32,
    ) -> Result<(), MediaFault>
        requires indexed { IsIndexed self.old }
        requires range { IsRowInRange row }
        ensures rows { OnOk result (self.new.rows.items ≡ self.old.rows.items ++ row ∷ []) }
        ensures indexed { OnOk result (IsIndexed self.new) }
        ensures fault { IfErr result (λ fault. (fault ≡ MediaFault.Memory)
            ⊎ IsTwice self.old.rows.items number row fault) }
    {
        if self.by_reel(&row.reel).is_some() {
            return Err(MediaFault::ReelTwice(number));
        }
        if self.by_url(&row.url).is_some() {
            return Err(MediaFault::UrlTwice(number));
        }
        self.push(alloc, row)
    }

    // Puts a row with a new reel and a new URL last.
    fn push(&mut self, alloc: Global, row: MediaRow) -> Result<(), MediaFault>
        requires indexed { IsIndexed self.old }
        requires range { IsRowInRange row }
        requires fresh { IsNew self.old.rows.items row }
        ensures rows { OnOk result (self.new.rows.items ≡ self.old.rows.items ++ row ∷ []) }
        ensures indexed { OnOk result (IsIndexed self.new) }
        ensures fault { IfErr result (λ fault. fault ≡ MediaFault.Memory) }
    {
        let reel = String::from_str(alloc, row.reel.as_str())?;
        let url = String::from_str(alloc, row.url.as_str())?;
        self.reels.insert(reel)?;
        self.urls.insert(url)?;
        self.rows.push(row)?;
        Ok(())
    }
}

// Puts a name after the others where it isn't among them. An error comes where memory runs out.
fn put_name(names: &mut IndexSet<String>, alloc: Global, name: &Text) -> Result<(), AllocError>
    ensures { OnOk result (PutsName name.now names.old.keys names.new.keys) }
{
    let key = String::from_str(alloc, name.as_str())?;
    names.insert(key)?;
    Ok(())
}

// Drops are written out: a derived one is proved anew in each crate that drops such a value.

impl Drop for Table {
    fn drop(self) {
        let Table {
            rows: _,
            reels: _,
            urls: _,
        } = self;
    }
}
