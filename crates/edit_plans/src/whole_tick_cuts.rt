//! Whether children can be cut at an instant.

ghost use Rattle.std.specs.Prelude.{◌≡◌, ◌<◌, ◌^◌, pos, ◌≤ℤ◌};
ghost use Rattle.otio_model.specs.Counts.{count};
ghost use Rattle.otio_model.specs.Trees.{items_of};
ghost use Rattle.edits.specs.Cuts as cuts;
ghost use Rattle.pieces.specs.Short.{AreCuttable};

use crate::touched_children::held;
use otio_model::Children;
use pieces::is_whole_at;

/// Whether children can be cut so many ticks from their start: no child lies there, or one whose
/// part before the cut is whole ticks of its media.
pub fn can_be_cut(children: &Children, ticks: i128) -> bool
    requires few { count children.now < 2 ^ 32 }
    requires low { pos 0 ≤ℤ ticks }
    requires faultless { AreCuttable (items_of children.now) }
    ensures { result ≡ cuts.cuts_whole (items_of children.now) ticks }
{
    match held(children, ticks) {
        Some(seat) => is_whole_at(children.child(seat.index), ticks - seat.start),
        None => true,
    }
}
