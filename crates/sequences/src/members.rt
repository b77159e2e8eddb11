//! Values under distinct names, in order.

ghost use Rattle.std.specs.Prelude.{◌≡◌, ◌∷◌, ℕ, List, [], length, reverse, IfOk, OnOk, OnErr, OnSome, IsOk, IsSome, slice_get, remove, option_map};
ghost use Rattle.std.specs.Option.{option_copied};
ghost use Rattle.sequences.specs.Pairs as pairs_of;

use crate::merging::{merge, place_of, put_at};
use crate::texts::Text;
use std::alloc::{AllocError, Global};
use std::marker::Model;

/// Values under distinct names, which contracts see as the list of the pairs of a name and a value,
/// in order.
pub struct NamedValues<T> {
    pairs: Vec<(Text, T)>,
}

impl<T> Model for NamedValues<T> {
    ghost use Rattle.std.specs.Prelude.{List, ℕ};
    ghost use Rattle.std.specs.Coded.{coded_list, coded×, coded_ℕ};
    ghost use Rattle.sequences.specs.Pairs.{names_of, AreDistinct};

    ghost Value = { List (List ℕ × T) };

    ghost coded = { coded_list (coded× (coded_list coded_ℕ) T.code) };

    ghost view = { λ it. it.pairs.items };

    ghost invariant = { λ it. AreDistinct (names_of it.pairs.items) };
}

impl<T> NamedValues<T> {
    /// No pairs. It takes no memory.
    pub fn new(alloc: Global) -> NamedValues<T>
        ensures { result ≡ [] }
    {
        NamedValues {
            pairs: Vec::new(alloc),
        }
    }

    /// The pairs of `pairs`, whose names are distinct, in the same memory.
    pub fn of(pairs: Vec<(Text, T)>) -> NamedValues<T>
        requires { pairs_of.AreDistinct (pairs_of.names_of pairs.items) }
        ensures { result ≡ pairs.items }
    {
        NamedValues { pairs }
    }

    /// The pairs in order, in the same memory.
    pub fn into_vec(self) -> Vec<(Text, T)>
        ensures pairs { result.items ≡ self }
        ensures distinct { pairs_of.AreDistinct (pairs_of.names_of self) }
    {
        let NamedValues { pairs } = self;
        pairs
    }

    /// The pairs in order.
    pub fn as_slice(&self) -> &[(Text, T)]
        ensures pairs { result.now ≡ self.now }
        ensures distinct { pairs_of.AreDistinct (pairs_of.names_of self.now) }
    {
        self.pairs.as_slice()
    }

    /// How many pairs there are.
    pub fn len(&self) -> usize
        ensures { result ≡ length self.now }
    {
        self.pairs.len()
    }

    /// The name of the pair at `index`, counted from 0; `None` exactly where that is past the end.
    pub fn name(&self, index: usize) -> Option<&Text>
        ensures { option_copied result ≡ option_map (λ pair. pair.0) (slice_get self.now index) }
    {
        Some(&self.pairs.get(index)?.0)
    }

    /// The value of the pair at `index`, counted from 0; `None` exactly where that is past the end.
    pub fn value(&self, index: usize) -> Option<&T>
        ensures { option_copied result ≡ option_map (λ pair. pair.1) (slice_get self.now index) }
    {
        Some(&self.pairs.get(index)?.1)
    }

    /// The value of that name; `None` exactly where no pair has the name.
    pub fn get(&self, name: &str) -> Option<&T>
        ensures { option_copied result ≡ pairs_of.value_of name.now self.now }
    {
        self.value(place_of(self.pairs.as_slice(), name))
    }
}

impl<T: Drop> NamedValues<T> {
    /// One value under a name, in memory for no more. An error comes where memory runs out.
    pub fn one(alloc: Global, name: &str, value: T) -> Result<NamedValues<T>, AllocError>
        ensures { IfOk result (λ made. made ≡ (name.now, value) ∷ []) }
    {
        let mut pairs = Vec::with_capacity(alloc, 1)?;
        pairs.push((Text::of(alloc, name)?, value))?;
        Ok(NamedValues::of(pairs))
    }

    /// The pairs of `pairs` under distinct names: the value of a later pair of a name replaces that
    /// of the first pair, in the first one's place, and all other pairs stay in order. An error
    /// comes where memory runs out.
    pub fn of_pairs(alloc: Global, pairs: Vec<(Text, T)>) -> Result<NamedValues<T>, AllocError>
        ensures { IfOk result (λ made. made ≡ pairs_of.merged pairs.items) }
    {
        let mut pairs = merge(alloc, pairs)?;
        pairs.shrink_to_fit();
        Ok(NamedValues { pairs })
    }

    /// A law of the word `merged`: the value of a name among merged pairs is that of the last pair
    /// of the name.
    pub fn latest_value_stands()
        ensures { (pairs : List (List ℕ × T)) (name : List ℕ) →
            pairs_of.value_of name (pairs_of.merged pairs)
            ≡ pairs_of.value_of name (reverse pairs) }
    {}

    /// Puts `value` at `name`: in the place of the value that is there, which always succeeds, and
    /// else at the end. An error comes where memory runs out, and the pairs are then as they were.
    pub fn put(&mut self, name: Text, value: T) -> Result<(), AllocError>
        ensures put { OnOk result (self.new ≡ pairs_of.put name value self.old) }
        ensures replaces { IsSome (pairs_of.value_of name self.old) → IsOk result }
        ensures unchanged { OnErr result (self.new ≡ self.old) }
    {
        let place = place_of(self.pairs.as_slice(), name.as_str());
        put_at(&mut self.pairs, place, name, value)
    }

    /// Takes the pair at `index`, counted from 0, out and closes up; `None` exactly where that is
    /// past the end.
    pub fn take(&mut self, index: usize) -> Option<(Text, T)>
        ensures taken { slice_get self.old index ≡ result }
        ensures rest { self.new ≡ remove self.old index }
    {
        if index < self.pairs.len() {
            Some(self.pairs.remove(index))
        } else {
            None
        }
    }
}

// Drops are written out: a derived one is proved anew in each crate that drops such a value.

impl<T: Drop> Drop for NamedValues<T> {
    fn drop(self) {
        let NamedValues { pairs: _ } = self;
    }
}
