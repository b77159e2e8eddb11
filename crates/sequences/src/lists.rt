//! A list that contracts see as the list of its members.

ghost use Rattle.std.specs.Prelude.{◌≡◌, ◌<◌, [], ◌∷◌, ◌++◌, length, IfOk, OnOk, OnErr, Some, slice_get, slice_set};
ghost use Rattle.std.specs.Borrow.{Lends, sem};
ghost use Rattle.std.specs.Option.{option_copied};
ghost use Rattle.sequences.specs.contracts.lists.Sequence.{the_row};

use std::alloc::{AllocError, Global};
use std::marker::Model;
use std::mem;

/// As many members at most are moved into memory that fits them.
const FEW: usize = 64;

/// A list of values in order.
pub struct Sequence<T> {
    items: Vec<T>,
}

impl<T> Model for Sequence<T> {
    ghost use Rattle.std.specs.Prelude.{List};
    ghost use Rattle.std.specs.Coded.{coded_list};

    ghost Value = { List T };

    ghost coded = { coded_list T.code };

    ghost view = { λ sequence. sequence.items.items };
}

impl<T> Sequence<T> {
    /// The empty list. It takes no memory.
    pub fn new(alloc: Global) -> Sequence<T>
        ensures { result ≡ [] }
    {
        Sequence {
            items: Vec::new(alloc),
        }
    }

    /// The members of `list`, in the same memory.
    pub fn of(list: Vec<T>) -> Sequence<T>
        ensures { result ≡ list.items }
    {
        Sequence { items: list }
    }

    /// The members, in the same memory.
    pub fn into_vec(self) -> Vec<T>
        ensures { result.items ≡ self }
    {
        let Sequence { items } = self;
        items
    }

    /// The members, in order.
    pub fn as_slice(&self) -> &[T]
        ensures { result.now ≡ self.now }
    {
        self.items.as_slice()
    }

    /// How many members there are.
    pub fn len(&self) -> usize
        ensures { result ≡ length self.now }
    {
        self.items.len()
    }

    /// The member at `index`, counted from 0; `None` exactly where that is past the end.
    pub fn get(&self, index: usize) -> Option<&T>
        ensures { option_copied result ≡ slice_get self.now index }
    {
        self.items.get(index)
    }

    /// The member at `index`, to be changed there.
    pub fn at_mut(&mut self, index: usize) -> &mut T
        requires { index < length self.old }
        ensures* writes_back { sem 𝓛 (Lends (the_row T.row) T.row self.entry result
            (λ w. slice_set self.old index w)) }
        ensures value { slice_get self.old index ≡ Some result.now }
    {
        &mut self.items[index]
    }
}

impl<T: Drop> Sequence<T> {
    /// Adds `item` at the end. An error comes where memory runs out, and the list is then as it
    /// was.
    pub fn push(&mut self, item: T) -> Result<(), AllocError>
        ensures added { OnOk result (self.new ≡ self.old ++ item ∷ []) }
        ensures unchanged { OnErr result (self.new ≡ self.old) }
    {
        self.items.push(item)?;
        Ok(())
    }

    /// The same list without its members.
    pub fn emptied(self) -> Sequence<T>
        ensures { result ≡ [] }
    {
        let Sequence { mut items } = self;
        items.clear();
        Sequence { items }
    }

    /// Takes the members out. Few come in memory that just fits them, and the list keeps its own
    /// for others; many come in the list's own memory. An error comes where memory runs out, and
    /// the list is then as it was.
    pub fn take_fitted(&mut self, alloc: Global) -> Result<Vec<T>, AllocError>
        ensures taken { IfOk result (λ taken. taken.items ≡ self.old) }
        ensures empty { OnOk result (self.new ≡ []) }
        ensures unchanged { OnErr result (self.new ≡ self.old) }
    {
        if self.items.len() > FEW {
            return Ok(mem::replace(&mut self.items, Vec::new(alloc)));
        }
        let mut taken = Vec::with_capacity(alloc, self.items.len())?;
        taken.append(&mut self.items)?;
        Ok(taken)
    }
}

// Drops are written out: a derived one is proved anew in each crate that drops such a value.

impl<T: Drop> Drop for Sequence<T> {
    fn drop(self) {
        let Sequence { items: _ } = self;
    }
}
