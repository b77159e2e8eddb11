//! Backs of lists.

ghost use Rattle.std.specs.Prelude.{◌≡◌, ◌<◌, ◌≤◌, IfOk, Some};
ghost use Rattle.std.specs.Prelude.{length, pos, ◌≤ℤ◌};
ghost use Rattle.edits.specs.Children as children;
ghost use Rattle.edits.specs.Cuts as cuts;
ghost use Rattle.pieces.specs.Short.{AreCuttable};

use crate::cutting::right_piece;
use crate::item_lengths::{member, sound_ticks};
use crate::list_fronts::add_copy;
use otio_model::Item;
use std::alloc::{AllocError, Global};
use tick_time::Rate;

/// The right piece of what `ticks` cuts of a list, then what starts there or later. It doesn't ask
/// whether the cut falls on a whole tick. An error comes where memory runs out.
pub fn back_items(
    alloc: Global,
    list: &[Item],
    ticks: i128,
    rate: Rate,
) -> Result<Vec<Item>, AllocError>
    requires low { pos 0 ≤ℤ ticks }
    requires faultless { AreCuttable list.now }
    ensures { IfOk result
        (λ back. children.all_made rate (cuts.back list.now ticks) ≡ Some back.items) }
{
    let mut done = Vec::new(alloc);
    let mut left = ticks;
    'items: for index in 0..list.len() {
        let item = member(list, index);
        if left <= 0 {
            add_copy(alloc, &mut done, item)?;
        } else {
            let length = sound_ticks(item);
            if left < length {
                let piece = right_piece(alloc, item, left, rate)?;
                done.push(piece)?;
                left = 0;
            } else {
                left -= length;
            }
        }
    }
    Ok(done)
}
