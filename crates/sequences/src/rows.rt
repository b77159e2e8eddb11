//! Rows of values: none, one, or several.

ghost use Rattle.std.specs.Prelude.{◌≡◌, [], ◌∷◌, length, IfOk, OnOk, slice_get};
ghost use Rattle.std.specs.Mem.{FitsInMemory};
ghost use Rattle.std.specs.Option.{option_copied};
ghost use Rattle.sequences.specs.Rows.{members};

use std::alloc::{AllocError, Global};
use std::{mem, slice};

/// As many values at most are moved into memory that fits them.
const FEW: usize = 64;

/// None, one, or several values in order. A row itself takes 16 bytes.
pub(crate) enum Row<T> {
    /// No value.
    Nothing,
    /// One value, in memory for no more.
    One(Box<T>),
    /// Values in a list of their own.
    Many(Box<Vec<T>>),
}

impl<T> Row<T> {
    /// The values in order. A value of the type fits in memory, as one of each type does that is
    /// no parameter.
    #[inline(always)]
    pub(crate) fn as_slice(&self) -> &[T]
        requires { FitsInMemory T.row }
        ensures { result.now ≡ members self.now }
    {
        match self {
            Row::Nothing => &[],
            Row::One(one) => slice::from_ref(&**one),
            Row::Many(many) => many.as_slice(),
        }
    }

    /// How many values there are.
    #[inline(always)]
    pub(crate) fn len(&self) -> usize
        ensures { result ≡ length (members self.now) }
    {
        match self {
            Row::Nothing => 0,
            Row::One(_) => 1,
            Row::Many(many) => many.len(),
        }
    }

    /// The value at `index`, counted from 0; `None` exactly where that is past the end.
    #[inline(always)]
    pub(crate) fn get(&self, index: usize) -> Option<&T>
        ensures { option_copied result ≡ slice_get (members self.now) index }
    {
        match self {
            Row::Nothing => None,
            Row::One(one) => first(one, index),
            Row::Many(many) => many.get(index),
        }
    }
}

impl<T: Drop> Row<T> {
    /// The values of `list`, in its memory. An error comes where memory runs out.
    pub(crate) fn of(alloc: Global, list: Vec<T>) -> Result<Row<T>, AllocError>
        ensures { IfOk result (λ made. members made ≡ list.items) }
    {
        if list.is_empty() {
            return Ok(Row::Nothing);
        }
        Ok(Row::Many(Box::new(alloc, list)?))
    }

    /// The values of `list`, taken out. Few come in memory that just fits them, and `list` keeps
    /// its own for others; many come in the list's own memory. An error comes where memory runs
    /// out.
    #[inline(always)]
    pub(crate) fn take(alloc: Global, list: &mut Vec<T>) -> Result<Row<T>, AllocError>
        ensures taken { IfOk result (λ made. members made ≡ list.old.items) }
        ensures empty { OnOk result (list.new.items ≡ []) }
    {
        if list.len() > 1 {
            return Row::take_several(alloc, list);
        }
        match list.pop() {
            Some(item) => Row::one(alloc, item),
            None => Ok(Row::Nothing),
        }
    }

    // One value. An error comes where memory runs out.
    #[inline(always)]
    fn one(alloc: Global, item: T) -> Result<Row<T>, AllocError>
        ensures { IfOk result (λ made. members made ≡ item ∷ []) }
    {
        Ok(Row::One(Box::new(alloc, item)?))
    }

    // The values of `list`, taken out, in a list of their own.
    fn take_several(alloc: Global, list: &mut Vec<T>) -> Result<Row<T>, AllocError>
        ensures taken { IfOk result (λ made. members made ≡ list.old.items) }
        ensures empty { OnOk result (list.new.items ≡ []) }
    {
        if list.len() > FEW {
            let all = mem::replace(list, Vec::new(alloc));
            return Ok(Row::Many(Box::new(alloc, all)?));
        }
        let mut taken = Vec::with_capacity(alloc, list.len())?;
        taken.append(list)?;
        Ok(Row::Many(Box::new(alloc, taken)?))
    }

    /// The values in order. An error comes where memory runs out.
    pub(crate) fn into_vec(self, alloc: Global) -> Result<Vec<T>, AllocError>
        ensures { IfOk result (λ list. list.items ≡ members self) }
    {
        match self {
            Row::Nothing => Ok(Vec::new(alloc)),
            Row::One(one) => {
                let mut list = Vec::with_capacity(alloc, 1)?;
                list.push(Box::into_inner(one))?;
                Ok(list)
            }
            Row::Many(many) => Ok(Box::into_inner(many)),
        }
    }
}

// The value, where the index is 0.
#[inline(always)]
fn first<T>(value: &T, index: usize) -> Option<&T>
    ensures { option_copied result ≡ slice_get (value.now ∷ []) index }
{
    if index == 0 { Some(value) } else { None }
}

// Drops are written out: a derived one is proved anew in each crate that drops such a value.

impl<T: Drop> Drop for Row<T> {
    fn drop(self) {
        match self {
            Row::Nothing => {}
            Row::One(one) => drop(one),
            Row::Many(many) => drop(many),
        }
    }
}
