//! What an item's instant reaches among its children.

ghost use Rattle.std.specs.Prelude.{◌≡◌, ◌<◌, ◌^◌, None};
ghost use Rattle.std.specs.Prelude.{IfSome, is_some, true};
ghost use Rattle.std.specs.Str.{bytes_eq};
ghost use Rattle.std.specs.Option.{option_copied};
ghost use Rattle.otio_model.specs.Counts.{count_of};
ghost use Rattle.coord.specs.Sights.{View};
ghost use Rattle.coord.specs.Soundness.{IsFaultlessItem, fault_of};
ghost use Rattle.edits_law.specs.Down as down;
ghost use Rattle.edit_plans.specs.Way as way;
ghost use Rattle.edit_plans.specs.Way.{IsNear};

use crate::child_at::{in_stack, in_track};
use coord::{media_offset, speed};
use otio_model::{Item, ItemOf};
use pieces::start_ticks;

/// Where an item's children stand so many ticks from its start.
pub(crate) fn inner(item: &Item, ticks: i128) -> i128
    requires sound { fault_of item.now ≡ None }
    requires near { IsNear ticks }
    ensures { result ≡ down.inner item.now ticks }
{
    start_ticks(item) + media_offset(ticks, speed(item))
}

// Whether two kinds of track are the same.
fn is_kind(own: &str, kind: &str) -> bool
    ensures { result ≡ bytes_eq own.now kind.now }
{
    own == kind
}

/// Whether an item's children are seen: it is an enabled stack, or an enabled track of the kind.
pub(crate) fn is_open(item: &Item, kind: &str) -> bool
    ensures { result ≡ way.is_open kind.now item.now }
{
    match item {
        ItemOf::Stack(stack) => stack.enabled,
        ItemOf::Track(track) => track.enabled && is_kind(track.kind.as_str(), kind),
        _ => false,
    }
}

/// An item's child of an index; `None` exactly where it has none there.
pub(crate) fn child_of(item: &Item, index: usize) -> Option<&Item>
    ensures { option_copied result ≡ way.child_of item.now index }
{
    match item.children() {
        Some(children) => children.item(index),
        None => None,
    }
}

/// The instant in an item's child of an index that its children reach at an instant; `None` exactly
/// where they don't reach that child.
pub(crate) fn in_child(item: &Item, index: usize, at: i128) -> Option<i128>
    requires few { count_of item.now < 2 ^ 32 }
    requires sound { IsFaultlessItem item.now }
    requires there { is_some (way.child_of item.now index) ≡ true }
    ensures value { (v : View) → result ≡ way.reached_in v index item.now at }
    ensures near { IfSome result IsNear }
{
    match item {
        ItemOf::Stack(stack) => in_stack(&stack.children, index, at),
        ItemOf::Track(track) => in_track(&track.children, index, at),
        _ => None,
    }
}
