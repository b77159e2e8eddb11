//! Values in memory of their own, or that several owners share, which contracts see as the values
//! themselves.
//!
//! A large variant of an enum goes behind an [`Owned`], so that the enum's other values stay small.
//! What copies have in common goes into a [`Shared`], so that a copy of a copy takes no memory.
#![tactic(auto)]

ghost use Rattle.std.specs.Prelude.{◌≡◌, IfOk};

use std::alloc::{AllocError, Global};
use std::marker::Model;

mod shared;

pub use shared::Shared;

/// A value in memory of its own, which contracts see as the value.
pub struct Owned<T> {
    held: Box<T>,
}

impl<T> Model for Owned<T> {
    ghost Value = { T };

    ghost coded = { T.code };

    ghost view = { λ owned. owned.held.value };
}

impl<T: Drop> Owned<T> {
    /// The value, moved to memory of its own. An error comes where memory runs out.
    pub fn of(alloc: Global, value: T) -> Result<Owned<T>, AllocError>
        ensures { IfOk result (λ owned. owned ≡ value) }
    {
        Ok(Owned {
            held: Box::new(alloc, value)?,
        })
    }
}

impl<T> Owned<T> {
    /// The value.
    pub fn get(&self) -> &T
        ensures { result.now ≡ self.now }
    {
        &self.held
    }

    /// The value, moved out.
    pub fn into_inner(self) -> T
        ensures { result ≡ self }
    {
        let Owned { held } = self;
        Box::into_inner(held)
    }
}

// Drops are written out: a derived one is proved anew in each crate that drops such a value.

impl<T: Drop> Drop for Owned<T> {
    fn drop(self) {
        let Owned { held: _ } = self;
    }
}
