//! Source ranges of children, exchanged for others.

ghost use Rattle.std.specs.Prelude.{◌≡◌, ◌+◌, ◌<◌, ◌≤◌, drop, length, take};
ghost use Rattle.std.specs.Prelude.{Some, slice_get};
ghost use Rattle.otio_model.specs.declared.compositions.ItemOf.{ItemOf as AnyItem};
ghost use Rattle.otio_model.specs.declared.compositions.Listed.{Listed};
ghost use Rattle.otio_model.specs.Edits.{changed};
ghost use Rattle.otio_model.specs.Retimed as retimes;
ghost use Rattle.otio_model.specs.Lengths.{source_of};
ghost use Rattle.otio_model.specs.Retimed.{sources, with_source};
ghost use Rattle.otio_model.specs.Trees.{items_of, listed};

use crate::compositions::ItemOf;
use crate::lists::{Children, Item, kept_pieces};
use crate::piece_numbers::{self, locate};
use sequences::Sequence;
use std::mem;
use tick_time::Span;

// Gives an item a source range, and hands back the one that it had.
fn exchange_source(item: &mut Item, range: Option<Span>) -> Option<Span>
    ensures item { item.new ≡ with_source range item.old }
    ensures old { result ≡ source_of item.old }
{
    match item {
        ItemOf::Clip(clip) => mem::replace(&mut clip.source_range, range),
        ItemOf::Gap(gap) => mem::replace(&mut gap.source_range, range),
        ItemOf::Transition(_) => None,
        ItemOf::Stack(stack) => mem::replace(&mut stack.source_range, range),
        ItemOf::Track(track) => mem::replace(&mut track.source_range, range),
    }
}

// Gives a child a source range, and hands back the one that it had.
fn retime_child(children: &mut Children, index: usize, range: Option<Span>) -> Option<Span>
    requires { index < length (items_of children.old) }
    ensures items { children.new
        ≡ listed (changed (with_source range) index (items_of children.old)) }
    ensures old { (x : AnyItem Listed) → slice_get (items_of children.old) index ≡ Some x
        → result ≡ source_of x }
{
    let (number, offset) = locate(children.pieces.as_slice(), index);
    let piece = &mut children.pieces[number];
    let item = &mut piece.items[offset];
    let old = exchange_source(item, range);
    piece.mend();
    piece_numbers::number(&mut children.pieces);
    *children.kept = kept_pieces(children.pieces.as_slice());
    old
}

/// Gives children from an index on these source ranges, and hands back the ones that they had.
pub(crate) fn retime(
    children: &mut Children,
    at: usize,
    ranges: Sequence<Option<Span>>,
) -> Sequence<Option<Span>>
    requires { at + length ranges ≤ length (items_of children.old) }
    ensures items { children.new ≡ listed (retimes.retimed at ranges (items_of children.old)) }
    ensures old { result
        ≡ sources (take (length ranges) (drop at (items_of children.old))) }
{
    let mut list = ranges.into_vec();
    let most = children.len() - at;
    'ranges: for index in 0..list.len().min(most) {
        list[index] = retime_child(children, at + index, list[index]);
    }
    Sequence::of(list)
}
