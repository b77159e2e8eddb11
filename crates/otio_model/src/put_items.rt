//! The items that a patch puts in.

ghost use Rattle.std.specs.Prelude.{◌≡◌, length};
ghost use Rattle.otio_model.specs.PutItems.{IsHeld, items_held};

use crate::lists::{Item, Piece};
use std::marker::Model;

/// Items one by one, or in pieces that were all of some children.
#[derive(Drop)]
pub(crate) enum Held {
    /// One by one.
    Loose(Vec<Item>),
    /// In pieces, and how many they are.
    Cut { pieces: Vec<Piece>, len: usize },
}

/// The items that a patch puts in, which contracts see as a list. All children that a patch takes
/// out stay in their pieces, so that they go and come back without being moved one by one.
pub struct PutItems {
    held: Held,
}

impl Model for PutItems {
    ghost use Rattle.std.specs.Prelude.{List};
    ghost use Rattle.otio_model.specs.declared.compositions.ItemOf.{ItemOf};
    ghost use Rattle.otio_model.specs.declared.compositions.Listed.{Listed};

    ghost Value = { List (ItemOf Listed) };

    ghost use Rattle.std.specs.Coded.{code_by};
    ghost use Rattle.otio_model.specs.Trees.{items_of, listed};
    ghost use Rattle.otio_model.specs.contracts.compositions.Listed as listed_row;
    ghost use Rattle.otio_model.specs.PutItems.{list_kept};

    ghost coded = { code_by Listed listed_row.the_row.coded listed items_of list_kept };

    ghost use Rattle.otio_model.specs.PutItems.{IsHeld, items_held};

    ghost view = { λ put. items_held put.held };

    ghost invariant = { λ put. IsHeld put.held };
}

impl Held {
    /// How many items there are.
    pub(crate) fn len(&self) -> usize
        requires { IsHeld self.now }
        ensures { result ≡ length (items_held self.now) }
    {
        match self {
            Held::Loose(list) => list.len(),
            Held::Cut { pieces: _, len } => *len,
        }
    }
}

impl PutItems {
    /// The items of `list`, in the same memory.
    pub fn of(list: Vec<Item>) -> PutItems
        ensures { result ≡ list.items }
    {
        PutItems {
            held: Held::Loose(list),
        }
    }

    /// How many items there are.
    pub fn len(&self) -> usize
        ensures { result ≡ length self.now }
    {
        self.held.len()
    }

    /// What holds the items.
    pub(crate) fn into_held(self) -> Held
        ensures items { items_held result ≡ self }
        ensures held { IsHeld result }
    {
        let PutItems { held } = self;
        held
    }

    /// The items that are held.
    pub(crate) fn of_held(held: Held) -> PutItems
        requires { IsHeld held }
        ensures { result ≡ items_held held }
    {
        PutItems { held }
    }
}

// Drops are written out: a derived one is proved anew in each crate that drops such a value.

impl Drop for PutItems {
    fn drop(self) {
        let PutItems { held: _ } = self;
    }
}
