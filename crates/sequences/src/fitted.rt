//! A list in memory that fits it, which contracts see as the list of its members.

ghost use Rattle.std.specs.Prelude.{◌≡◌, [], length, IfOk, OnOk, slice_get};
ghost use Rattle.std.specs.Mem.{FitsInMemory};
ghost use Rattle.std.specs.Option.{option_copied};

use crate::rows::Row;
use std::alloc::{AllocError, Global};
use std::marker::Model;

/// A list of values in order. The list itself takes 16 bytes, and no other memory where it is
/// empty.
pub struct Fitted<T> {
    row: Row<T>,
}

impl<T> Model for Fitted<T> {
    ghost use Rattle.std.specs.Prelude.{List};
    ghost use Rattle.std.specs.Coded.{coded_list};
    ghost use Rattle.sequences.specs.Rows.{members};

    ghost Value = { List T };

    ghost coded = { coded_list T.code };

    ghost view = { λ fitted. members fitted.row };
}

impl<T> Fitted<T> {
    /// The empty list. It takes no memory.
    pub fn new() -> Fitted<T>
        ensures { result ≡ [] }
    {
        Fitted { row: Row::Nothing }
    }

    /// The members, in order. A value of their type fits in memory, as one of each type does that
    /// is no parameter.
    #[inline(always)]
    pub fn as_slice(&self) -> &[T]
        requires { FitsInMemory T.row }
        ensures { result.now ≡ self.now }
    {
        self.row.as_slice()
    }

    /// How many members there are.
    #[inline(always)]
    pub fn len(&self) -> usize
        ensures { result ≡ length self.now }
    {
        self.row.len()
    }

    /// The member at `index`, counted from 0; `None` exactly where that is past the end.
    #[inline(always)]
    pub fn get(&self, index: usize) -> Option<&T>
        ensures { option_copied result ≡ slice_get self.now index }
    {
        self.row.get(index)
    }
}

impl<T: Drop> Fitted<T> {
    /// The members of `list`, in the same memory. An error comes where memory runs out.
    pub fn of(alloc: Global, list: Vec<T>) -> Result<Fitted<T>, AllocError>
        ensures { IfOk result (λ made. made ≡ list.items) }
    {
        Ok(Fitted {
            row: Row::of(alloc, list)?,
        })
    }

    /// The members of `list`, taken out. Few come in memory that just fits them, and `list` keeps
    /// its own for others; many come in the list's own memory. An error comes where memory runs
    /// out.
    #[inline(always)]
    pub fn take(alloc: Global, list: &mut Vec<T>) -> Result<Fitted<T>, AllocError>
        ensures taken { IfOk result (λ made. made ≡ list.old.items) }
        ensures empty { OnOk result (list.new.items ≡ []) }
    {
        Ok(Fitted {
            row: Row::take(alloc, list)?,
        })
    }

    /// The members, in order. An error comes where memory runs out.
    pub fn into_vec(self, alloc: Global) -> Result<Vec<T>, AllocError>
        ensures { IfOk result (λ list. list.items ≡ self) }
    {
        let Fitted { row } = self;
        row.into_vec(alloc)
    }
}

// Drops are written out: a derived one is proved anew in each crate that drops such a value.

impl<T: Drop> Drop for Fitted<T> {
    fn drop(self) {
        let Fitted { row: _ } = self;
    }
}
