//! The way down a place to the children there.

ghost use Rattle.std.specs.Prelude.{◌≡◌, ◌+◌, ◌≤◌, [], IfSome, IsSomeAnd, drop, length, take};
ghost use Rattle.std.specs.Option.{option_copied};
ghost use Rattle.otio_model.specs.Trees.{listed, items_of};
ghost use Rattle.otio_model.specs.Edits.{list_at, replaced, with_at};
ghost use Rattle.otio_model.specs.Patches.{goes, put_at, put_back, Suffices};
ghost use Rattle.otio_model.specs.PutItems.{IsHeld, items_held};
ghost use Rattle.otio_model.specs.Rooms.{Holds};

use crate::exchanges::exchange;
use crate::lists::{Children, kept_pieces};
use crate::patches::Put;
use crate::piece_numbers::{self, locate, number};
use crate::put_items::{Held, PutItems};
use crate::reserve::Spare;
use crate::retimes::retime;

/// So many children, from one on.
#[derive(Clone, Copy)]
pub(crate) struct Stretch {
    /// The index of the first one.
    pub(crate) at: usize,
    /// How many there are.
    pub(crate) count: usize,
}

/// The children that the place leads to.
pub(crate) fn children_at<'a>(children: &'a Children, place: &[u32]) -> Option<&'a Children>
    ensures { option_copied result ≡ list_at place.now children.now }
{
    let Some((first, rest)) = place.split_first() else {
        return Some(children);
    };
    let below = children.item(*first as usize)?.children()?;
    children_at(below, rest)
}

// Puts what is held in place of some children, which are then held.
#[tactic(auto, using(crate::proofs::Views::shown))]
fn replace_some(children: &mut Children, stretch: Stretch, held: Held, spare: &mut Spare) -> Held
    requires there { stretch.at + stretch.count ≤ length (items_of children.old) }
    requires held { IsHeld held }
    requires room { Holds stretch.count (length (items_of children.old)) (length (items_held held))
        spare.old }
    ensures items { children.new ≡ listed (replaced stretch.at stretch.count (items_held held)
        (items_of children.old)) }
    ensures taken { items_held result
        ≡ take stretch.count (drop stretch.at (items_of children.old)) }
    ensures held { IsHeld result }
{
    let put = held.len();
    let taken = exchange(&mut children.pieces, children.len, stretch, held, spare);
    number(&mut children.pieces);
    children.len = children.len - stretch.count + put;
    *children.kept = kept_pieces(children.pieces.as_slice());
    taken
}

// Changes children, and hands back what brings back the old ones.
fn replace(children: &mut Children, at: usize, put: Put, spare: &mut Spare) -> Put
    requires there { at + goes put ≤ length (items_of children.old) }
    requires room { Suffices put (length (items_of children.old)) spare.old }
    ensures items { children.new ≡ listed (put_at at put (items_of children.old)) }
    ensures back { result ≡ put_back at put (items_of children.old) }
{
    match put {
        Put::Items { count, items } => {
            let added = items.len();
            let stretch = Stretch { at, count };
            let taken = replace_some(children, stretch, items.into_held(), spare);
            Put::Items {
                count: added,
                items: PutItems::of_held(taken),
            }
        }
        Put::Ranges(ranges) => Put::Ranges(retime(children, at, ranges)),
    }
}

/// Changes some of the children that the place leads to, hands back what brings back the old ones,
/// and mends what is kept on the way.
pub(crate) fn replace_at(
    children: &mut Children,
    place: &[u32],
    at: usize,
    put: Put,
    spare: &mut Spare,
) -> Put
    requires there { IsSomeAnd (list_at place.now children.old)
        (λ l. (at + goes put ≤ length (items_of l))
        × Suffices put (length (items_of l)) spare.old) }
    ensures items { IfSome (list_at place.now children.old) (λ l. children.new
        ≡ with_at place.now (listed (put_at at put (items_of l))) children.old) }
    ensures back { IfSome (list_at place.now children.old)
        (λ l. result ≡ put_back at put (items_of l)) }
{
    let Some((first, rest)) = place.split_first() else {
        return replace(children, at, put, spare);
    };
    let (number, offset) = locate(children.pieces.as_slice(), *first as usize);
    let piece = &mut children.pieces[number];
    let item = &mut piece.items[offset];
    let old = replace_at(item.children_mut(), rest, at, put, spare);
    piece.mend();
    piece_numbers::number(&mut children.pieces);
    *children.kept = kept_pieces(children.pieces.as_slice());
    old
}
