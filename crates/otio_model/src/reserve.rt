//! What a timeline keeps so that a change of its children needs no memory.

ghost use Rattle.std.specs.Prelude.{◌≡◌, ◌+◌, ◌*◌, ◌/◌, ◌<◌, ◌^◌, IfSome, OnOk};
ghost use Rattle.otio_model.specs.Rooms.{Holds};

use crate::lists::{Item, Piece};
use crate::piece_numbers::AT_FRONT;
use crate::piece_summary::NO_ITEMS;
use crate::vec_moves::reserve_empty;
use std::alloc::{AllocError, Global};
use std::marker::Model;

/// Empty vectors and pieces with room, which contracts see as the room that they have.
pub(crate) struct Spare {
    /// Takes in what goes, and is handed out with it.
    pub(crate) taken: Vec<Item>,
    /// Takes in what comes in pieces and stays in none of them.
    pub(crate) loose: Vec<Item>,
    /// Takes in the items of the pieces that a change touches.
    pub(crate) mid: Vec<Item>,
    /// Takes in all pieces.
    pub(crate) outer: Vec<Piece>,
    /// Takes in the pieces that are made.
    pub(crate) made: Vec<Piece>,
    /// Empty pieces.
    pub(crate) fresh: Vec<Piece>,
}

impl Model for Spare {
    ghost use Rattle.otio_model.specs.Rooms.{Room, room_code};
    ghost use Rattle.otio_model.specs.Spares.{room_of, IsSpare};

    ghost Value = { Room };

    ghost coded = { room_code };

    ghost view = { room_of };

    ghost invariant = { IsSpare };
}

// How many items a replacement may have on the way.
fn work_of(count: usize, long: usize, put: usize) -> Option<usize>
    ensures fits { IfSome result (λ work. long + put < 2 ^ 64) }
    ensures value { IfSome result (λ work. work ≡ 2 * count + 384 + put + (long / 32 + 1)) }
{
    let _ = long.checked_add(put)?;
    count
        .checked_mul(2)?
        .checked_add(384)?
        .checked_add(put)?
        .checked_add(long / 32 + 1)
}

impl Spare {
    /// Nothing to spare. It takes no memory.
    pub(crate) fn new(alloc: Global) -> Spare {
        Spare {
            taken: Vec::new(alloc),
            loose: Vec::new(alloc),
            mid: Vec::new(alloc),
            outer: Vec::new(alloc),
            made: Vec::new(alloc),
            fresh: Vec::new(alloc),
        }
    }

    /// Makes the room that a replacement needs.
    pub(crate) fn make(&mut self, count: usize, long: usize, put: usize) -> Result<(), AllocError>
        ensures { OnOk result (Holds count long put self.new) }
    {
        let alloc = *self.taken.allocator();
        let Some(work) = work_of(count, long, put) else {
            return Err(AllocError);
        };
        let wanted = work / 32 + 1;
        self.taken.reserve(count)?;
        self.loose.reserve(put)?;
        self.mid.reserve(work)?;
        self.made.reserve(wanted)?;
        'fresh: while self.fresh.len() < wanted {
            let items = Vec::with_capacity(alloc, 64)?;
            self.fresh.push(Piece {
                items,
                kept: NO_ITEMS,
                start: AT_FRONT,
            })?;
        }
        let Some(all) = self.fresh.len().checked_add(work) else {
            return Err(AllocError);
        };
        reserve_empty(&mut self.outer, all)
    }
}

// Drops are written out: a derived one is proved anew in each crate that drops such a value.

impl Drop for Spare {
    fn drop(self) {
        let Spare {
            taken: _,
            loose: _,
            mid: _,
            outer: _,
            made: _,
            fresh: _,
        } = self;
    }
}
