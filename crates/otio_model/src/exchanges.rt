//! Items in place of others in pieces: all of them, without a move of each, or some.

ghost use Rattle.std.specs.Prelude.{◌≡◌, ◌+◌, ◌≤◌, drop, length, take};
ghost use Rattle.otio_model.specs.Edits.{replaced};
ghost use Rattle.otio_model.specs.Pieces.{all_items, AreMade, ArePieces};
ghost use Rattle.otio_model.specs.PutItems.{IsHeld, items_held};
ghost use Rattle.otio_model.specs.Rooms.{Holds};

use crate::lists::{Item, Piece};
use crate::piece_splits::{cut, pour_all, replace_pieces};
use crate::place_walk::Stretch;
use crate::put_items::Held;
use crate::reserve::Spare;
use std::mem;

// The items one by one. Those in pieces move to memory of the spare.
fn loosened(held: Held, spare: &mut Spare) -> Vec<Item>
    requires { length (items_held held) ≤ spare.old.loose }
    ensures items { result.items ≡ items_held held }
    ensures room { spare.new.room ≡ spare.old.room }
    ensures taken { spare.new.taken ≡ spare.old.taken }
{
    match held {
        Held::Loose(list) => list,
        Held::Cut { pieces, len: _ } => {
            let alloc = *spare.loose.allocator();
            let mut list = mem::replace(&mut spare.loose, Vec::new(alloc));
            pour_all(pieces, &mut list);
            list
        }
    }
}

// The items in pieces. Loose ones are cut into pieces of the spare.
fn in_pieces(held: Held, spare: &mut Spare) -> Vec<Piece>
    requires held { IsHeld held }
    requires room { length (items_held held) + 1 ≤ spare.old.room }
    ensures { AreMade (items_held held) result.items }
{
    match held {
        Held::Cut { pieces, len: _ } => pieces,
        Held::Loose(list) => {
            let mut list = list;
            cut(&mut list, &mut spare.made, &mut spare.fresh);
            let alloc = *spare.outer.allocator();
            let mut made = mem::replace(&mut spare.outer, Vec::new(alloc));
            made.append(&mut spare.made).unwrap();
            made
        }
    }
}

// Puts what is held in place of all items of pieces, which are then held.
fn exchange_all(pieces: &mut Vec<Piece>, len: usize, held: Held, spare: &mut Spare) -> Held
    requires len { len ≡ length (all_items pieces.old.items) }
    requires pieces { ArePieces pieces.old.items }
    requires held { IsHeld held }
    requires room { length (items_held held) + 1 ≤ spare.old.room }
    ensures items { all_items pieces.new.items ≡ items_held held }
    ensures pieces { ArePieces pieces.new.items }
    ensures taken { items_held result ≡ all_items pieces.old.items }
    ensures held { IsHeld result }
{
    let put = in_pieces(held, spare);
    Held::Cut {
        pieces: mem::replace(pieces, put),
        len,
    }
}

// Puts what is held in place of some items of pieces, which are then held one by one.
fn exchange_some(pieces: &mut Vec<Piece>, stretch: Stretch, held: Held, spare: &mut Spare) -> Held
    requires there { stretch.at + stretch.count ≤ length (all_items pieces.old.items) }
    requires pieces { ArePieces pieces.old.items }
    requires room { Holds stretch.count (length (all_items pieces.old.items))
        (length (items_held held)) spare.old }
    ensures items { all_items pieces.new.items
        ≡ replaced stretch.at stretch.count (items_held held) (all_items pieces.old.items) }
    ensures pieces { ArePieces pieces.new.items }
    ensures taken { items_held result
        ≡ take stretch.count (drop stretch.at (all_items pieces.old.items)) }
    ensures held { IsHeld result }
{
    let mut list = loosened(held, spare);
    replace_pieces(pieces, stretch, &mut list, spare);
    Held::Loose(list)
}

/// Puts what is held in place of items of pieces, of which there are so many, and hands back what
/// stood there. All of them go and come as whole pieces.
pub(crate) fn exchange(
    pieces: &mut Vec<Piece>,
    len: usize,
    stretch: Stretch,
    held: Held,
    spare: &mut Spare,
) -> Held
    requires len { len ≡ length (all_items pieces.old.items) }
    requires there { stretch.at + stretch.count ≤ length (all_items pieces.old.items) }
    requires pieces { ArePieces pieces.old.items }
    requires held { IsHeld held }
    requires room { Holds stretch.count (length (all_items pieces.old.items))
        (length (items_held held)) spare.old }
    ensures items { all_items pieces.new.items
        ≡ replaced stretch.at stretch.count (items_held held) (all_items pieces.old.items) }
    ensures pieces { ArePieces pieces.new.items }
    ensures taken { items_held result
        ≡ take stretch.count (drop stretch.at (all_items pieces.old.items)) }
    ensures held { IsHeld result }
{
    if stretch.count == len {
        return exchange_all(pieces, len, held, spare);
    }
    exchange_some(pieces, stretch, held, spare)
}
