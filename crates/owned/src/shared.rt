//! A value that has one owner, or that several owners share, which contracts see as the value.
//!
//! What is shared can't be changed.

ghost use Rattle.std.specs.Prelude.{◌≡◌, IfErr, IfOk, IfSome};

use std::alloc::{AllocError, Global};
use std::marker::Model;
use std::rc::Rc;

/// A value of one owner, or of several owners that share it.
pub struct Shared<T> {
    held: Held<T>,
}

/// Where the value lies: with its owner, or in memory that its owners share.
#[derive(Drop)]
pub(crate) enum Held<T> {
    Own(T),
    Common(Rc<T>),
}

impl<T> Model for Shared<T> {
    ghost use Rattle.owned.specs.Held.{value_of};

    ghost Value = { T };

    ghost coded = { T.code };

    ghost view = { λ shared. value_of shared.held };
}

impl<T: Drop> Shared<T> {
    /// The value, moved to memory that owners can share. An error comes where memory runs out.
    pub fn of(alloc: Global, value: T) -> Result<Shared<T>, AllocError>
        ensures { IfOk result (λ shared. shared ≡ value) }
    {
        Ok(Shared {
            held: Held::Common(Rc::new(alloc, value)?),
        })
    }

    /// One more owner of the same value, which takes no memory; `None` where the value has one
    /// owner. An error comes where there are as many owners as can be counted.
    pub fn share(&self) -> Result<Option<Shared<T>>, AllocError>
        ensures { IfOk result (λ made. IfSome made (λ shared. shared ≡ self.now)) }
    {
        match &self.held {
            Held::Own(_) => Ok(None),
            Held::Common(value) => {
                let value = value.clone()?;
                Ok(Some(Shared {
                    held: Held::Common(value),
                }))
            }
        }
    }
}

impl<T> Shared<T> {
    /// The value, with one owner. It takes no memory.
    pub fn own(value: T) -> Shared<T>
        ensures { result ≡ value }
    {
        Shared {
            held: Held::Own(value),
        }
    }

    /// The value, moved out, where it has one owner; else the same shared value.
    pub fn into_own(self) -> Result<T, Shared<T>>
        ensures own { IfOk result (λ value. value ≡ self) }
        ensures common { IfErr result (λ shared. shared ≡ self) }
    {
        let Shared { held } = self;
        match held {
            Held::Own(value) => Ok(value),
            Held::Common(value) => Err(Shared {
                held: Held::Common(value),
            }),
        }
    }

    /// The value.
    pub fn get(&self) -> &T
        ensures { result.now ≡ self.now }
    {
        match &self.held {
            Held::Own(value) => value,
            Held::Common(value) => value,
        }
    }
}

// Drops are written out: a derived one is proved anew in each crate that drops such a value.

impl<T: Drop> Drop for Shared<T> {
    fn drop(self) {
        let Shared { held: _ } = self;
    }
}
