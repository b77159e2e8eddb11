//! The nearest items next to a child: transitions are passed over.

ghost use Rattle.std.specs.Prelude.{◌≡◌, ◌<◌, ◌≤◌, ◌+◌, IfSome, IfNone, None, length, take, drop};
ghost use Rattle.otio_model.specs.Trees.{items_of};
ghost use Rattle.edits.specs.Edges.{first_item, last_item};
ghost use Rattle.edit_plans.specs.Neighbours.{IsAfter, IsBefore};

use otio_model::Children;

/// The index of the nearest child before an index that isn't a transition; `None` where there is
/// none.
pub fn before_item(children: &Children, index: usize) -> Option<usize>
    requires { index ≤ length (items_of children.now) }
    ensures some { IfSome result (IsBefore (items_of children.now) index) }
    ensures none { IfNone result (last_item (take index (items_of children.now)) ≡ None) }
{
    'children: for candidate in (0..index).rev() {
        if !children.child(candidate).is_transition() {
            return Some(candidate);
        }
    }
    None
}

/// The index of the nearest child after an index that isn't a transition; `None` where there is
/// none.
pub fn after_item(children: &Children, index: usize) -> Option<usize>
    requires { index < length (items_of children.now) }
    ensures some { IfSome result (IsAfter (items_of children.now) index) }
    ensures none { IfNone result
        (first_item (drop (index + 1) (items_of children.now)) ≡ None) }
{
    let end = children.len();
    'children: for candidate in index + 1..end {
        if !children.child(candidate).is_transition() {
            return Some(candidate);
        }
    }
    None
}
