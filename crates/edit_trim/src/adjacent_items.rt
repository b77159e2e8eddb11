//! The items next to a child of a track.

ghost use Rattle.std.specs.Prelude.{◌≡◌, ◌+◌, ◌<◌, IfSome, length, option_copied};
ghost use Rattle.std.specs.Prelude.{drop, take};
ghost use Rattle.otio_model.specs.Trees.{items_of};
ghost use Rattle.edits.specs.Edges as edges;
ghost use Rattle.edits.specs.Edges.{first_item, last_item};
ghost use Rattle.pieces.specs.Short.{AreCuttable, IsCuttable};

use edit_plans::{after_item, before_item, child, is_gap};
use otio_model::{Children, Item};

/// The nearest item before a child, past transitions.
pub(crate) fn item_before(children: &Children, index: usize) -> Option<&Item>
    requires there { index < length (items_of children.now) }
    requires faultless { AreCuttable (items_of children.now) }
    ensures item { option_copied result ≡ last_item (take index (items_of children.now)) }
    ensures faultless { IfSome (option_copied result) IsCuttable }
{
    match before_item(children, index) {
        Some(at) => Some(child(children, at)),
        None => None,
    }
}

/// The nearest item after a child, past transitions.
pub(crate) fn item_after(children: &Children, index: usize) -> Option<&Item>
    requires there { index < length (items_of children.now) }
    requires faultless { AreCuttable (items_of children.now) }
    ensures item { option_copied result ≡ first_item (drop (index + 1) (items_of children.now)) }
    ensures faultless { IfSome (option_copied result) IsCuttable }
{
    match after_item(children, index) {
        Some(at) => Some(child(children, at)),
        None => None,
    }
}

/// Whether a neighbour is a gap.
pub(crate) fn is_gap_at(neighbour: Option<&Item>) -> bool
    ensures { result ≡ edges.is_gap_at (option_copied neighbour.entry) }
{
    match neighbour {
        Some(item) => is_gap(item),
        None => false,
    }
}
