//! Cuts of items.

ghost use Rattle.limits.specs.Limits.{most_ticks};
ghost use Rattle.std.specs.Prelude.{◌≡◌, ◌≢◌, ◌<◌, ◌≤◌, ◌%◌, ◌==◌, IfErr, IfOk, Some};
ghost use Rattle.std.specs.Prelude.{true, false, pos, unsigned_abs, ◌≤ℤ◌, ◌<ℤ◌, ◌-ℤ◌, ◌*ℤ◌};
ghost use Rattle.tick_time.specs.Times.{IsSpeed};
ghost use Rattle.coord.specs.Speeds as speeds;
ghost use Rattle.edits.specs.Children as children;
ghost use Rattle.edits.specs.Cuts as cuts;
ghost use Rattle.pieces.specs.Short.{IsCuttable, IsRightStart};

use crate::item_lengths::{start_ticks, ticks_of};
use crate::new_ranges::ranged_within;
use coord::{media_offset, media_ticks, speed};
use otio_model::Item;
use std::alloc::{AllocError, Global};
use tick_time::Rate;

/// Why an item, or a list, isn't cut.
#[derive(Clone, Copy, PartialEq, Eq)]
pub enum CutFault {
    /// The cut doesn't fall on a whole tick of the media.
    Phase,
    /// Memory ran out.
    Memory,
}

/// Whether so many ticks, at a speed in millionths, play whole ticks of the media.
pub fn is_whole(ticks: i128, speed: i64) -> bool
    requires low { pos 0 ≤ℤ ticks }
    requires high { ticks ≤ℤ pos most_ticks }
    requires speed_low { (pos 0 -ℤ pos 1000000000) ≤ℤ speed }
    requires speed_high { speed ≤ℤ pos 1000000000 }
    ensures { result ≡ (unsigned_abs (ticks *ℤ speed) % 1000000 == 0) }
{
    media_ticks(ticks, speed).unsigned_abs() % 1_000_000 == 0
}

/// Whether an item can be cut at so many ticks from its start: what they play is whole ticks of its
/// media.
pub fn is_whole_at(item: &Item, ticks: i128) -> bool
    requires faultless { IsCuttable item.now }
    requires low { pos 0 ≤ℤ ticks }
    requires high { ticks ≤ℤ pos most_ticks }
    ensures { result ≡ cuts.is_whole_at item.now ticks }
{
    is_whole(ticks, speed(item))
}

// The instant of the media that is reached in so many ticks from a start.
fn media_at(start: i128, speed: i64, ticks: i128) -> i128
    requires start_low { (pos 0 -ℤ pos most_ticks) ≤ℤ start }
    requires start_high { start ≤ℤ pos most_ticks }
    requires low { pos 0 ≤ℤ ticks }
    requires high { ticks ≤ℤ pos most_ticks }
    requires speed { IsSpeed speed }
    ensures { result ≡ speeds.media_at start speed ticks }
{
    start + media_offset(ticks, speed)
}

/// What stands of an item before a cut at so many ticks from its start. An error comes where memory
/// runs out.
pub(crate) fn left_piece(
    alloc: Global,
    item: &Item,
    ticks: i128,
    rate: Rate,
) -> Result<Item, AllocError>
    requires low { pos 0 ≤ℤ ticks }
    requires high { ticks ≤ℤ pos most_ticks }
    ensures { IfOk result
        (λ piece. children.made rate (cuts.left_piece item.now ticks) ≡ Some piece) }
{
    ranged_within(alloc, item, start_ticks(item), ticks, rate)
}

// Where in the media of an item its right piece starts, after a cut at so many ticks.
fn right_start(item: &Item, ticks: i128) -> i128
    requires faultless { IsCuttable item.now }
    requires low { pos 0 ≤ℤ ticks }
    requires high { ticks ≤ℤ children.ticks item.now }
    ensures { IsRightStart item.now ticks result }
{
    media_at(start_ticks(item), speed(item), ticks)
}

/// What stands of an item after a cut at so many ticks from its start. An error comes where memory
/// runs out.
pub(crate) fn right_piece(
    alloc: Global,
    item: &Item,
    ticks: i128,
    rate: Rate,
) -> Result<Item, AllocError>
    requires faultless { IsCuttable item.now }
    requires low { pos 0 ≤ℤ ticks }
    requires high { ticks ≤ℤ children.ticks item.now }
    ensures { IfOk result
        (λ piece. children.made rate (cuts.right_piece item.now ticks) ≡ Some piece) }
{
    let length = ticks_of(item);
    ranged_within(alloc, item, right_start(item, ticks), length - ticks, rate)
}

/// The two pieces of an item that is cut at so many ticks from its start: copies with a range of
/// their own. `rate` is the record rate, at which an item without a range is counted.
/// [`CutFault::Phase`] comes exactly where what is before the cut isn't whole ticks of the media,
/// and [`CutFault::Memory`] where memory runs out.
pub fn cut(alloc: Global, item: &Item, ticks: i128, rate: Rate) -> Result<(Item, Item), CutFault>
    requires faultless { IsCuttable item.now }
    requires low { pos 0 <ℤ ticks }
    requires high { ticks <ℤ children.ticks item.now }
    ensures left { IfOk result
        (λ pieces. children.made rate (cuts.left_piece item.now ticks) ≡ Some pieces.0) }
    ensures right { IfOk result
        (λ pieces. children.made rate (cuts.right_piece item.now ticks) ≡ Some pieces.1) }
    ensures whole { IfOk result (λ _. cuts.is_whole_at item.now ticks ≡ true) }
    ensures fault { IfErr result
        (λ fault. fault ≢ CutFault.Memory → (fault ≡ CutFault.Phase) ×
        (cuts.is_whole_at item.now ticks ≡ false)) }
{
    if !is_whole_at(item, ticks) {
        return Err(CutFault::Phase);
    }
    let left = match left_piece(alloc, item, ticks, rate) {
        Ok(left) => left,
        Err(_) => return Err(CutFault::Memory),
    };
    match right_piece(alloc, item, ticks, rate) {
        Ok(right) => Ok((left, right)),
        Err(_) => {
            drop(left);
            Err(CutFault::Memory)
        }
    }
}
