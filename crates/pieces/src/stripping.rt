//! Lists without the transitions that meet a zone.

ghost use Rattle.limits.specs.Limits.{most_ticks};
ghost use Rattle.std.specs.Prelude.{◌≡◌, IfOk};
ghost use Rattle.std.specs.Prelude.{pos, ◌≤ℤ◌, ◌-ℤ◌, ◌&&◌, int_lt, int_le};
ghost use Rattle.coord.specs.Sights as sights;
ghost use Rattle.edits.specs.Splices as looked;
ghost use Rattle.edits.specs.Cuts as cuts;
ghost use Rattle.edits.specs.Edges.{added};
ghost use Rattle.pieces.specs.Short.{AreFew};

use crate::item_lengths::member;
use crate::list_fronts::add_copy;
use otio_model::{Item, ItemOf, offset_ticks};
use std::alloc::{AllocError, Global};

// Whether an overlap that begins so long before its cut begins before an end of a zone.
#[tactic(auto, using(crate::proofs::StripLemmas::meets))]
fn begins_before(before: i128, at: i128, to: i128) -> bool
    requires before_low { (pos 0 -ℤ pos most_ticks) ≤ℤ before }
    requires before_high { before ≤ℤ pos most_ticks }
    requires low { pos 0 ≤ℤ at }
    requires high { at ≤ℤ pos 100000000000000000000000000000000000000 }
    ensures { result ≡ int_lt (pos 0 -ℤ before) (to -ℤ at) }
{
    at - before < to
}

// Whether an overlap that ends so long after its cut ends after the start of a zone.
#[tactic(auto, using(crate::proofs::StripLemmas::meets))]
fn ends_behind(after: i128, at: i128, from: i128) -> bool
    requires after_low { (pos 0 -ℤ pos most_ticks) ≤ℤ after }
    requires after_high { after ≤ℤ pos most_ticks }
    requires low { pos 0 ≤ℤ at }
    requires high { at ≤ℤ pos 100000000000000000000000000000000000000 }
    ensures { result ≡ int_lt (from -ℤ at) after }
{
    from < at + after
}

// Whether an overlap of a cut that lies at an instant has an instant of the zone.
fn overlaps(before: i128, after: i128, at: i128, from: i128, to: i128) -> bool
    requires before_low { (pos 0 -ℤ pos most_ticks) ≤ℤ before }
    requires before_high { before ≤ℤ pos most_ticks }
    requires after_low { (pos 0 -ℤ pos most_ticks) ≤ℤ after }
    requires after_high { after ≤ℤ pos most_ticks }
    requires low { pos 0 ≤ℤ at }
    requires high { at ≤ℤ pos 100000000000000000000000000000000000000 }
    ensures { result ≡ (int_lt (pos 0 -ℤ before) (to -ℤ at) && int_lt (from -ℤ at) after) }
{
    begins_before(before, at, to) && ends_behind(after, at, from)
}

// Whether a cut that lies at an instant lies in the zone, ends included.
#[tactic(auto, using(crate::proofs::StripLemmas::meets))]
fn lies_in(at: i128, from: i128, to: i128) -> bool
    ensures { result ≡ (int_le (from -ℤ at) (pos 0) && int_le (pos 0) (to -ℤ at)) }
{
    from <= at && at <= to
}

/// Whether a child that starts at an instant of its list is stripped for a zone: it is a transition
/// whose overlap has an instant of the zone, or whose cut lies in it, both ends included. `at`, and
/// the ends `from` and `to` of the zone, are in ticks from the start of the list.
pub fn is_stripped(item: &Item, at: i128, from: i128, to: i128) -> bool
    requires low { pos 0 ≤ℤ at }
    requires high { at ≤ℤ pos 100000000000000000000000000000000000000 }
    ensures { result ≡ looked.is_stripped (from -ℤ at) (to -ℤ at) (sights.overlap_of item.now) }
{
    match item {
        ItemOf::Transition(transition) => {
            let before = offset_ticks(transition.in_offset);
            let after = offset_ticks(transition.out_offset);
            overlaps(before, after, at, from, to) || lies_in(at, from, to)
        }
        _ => false,
    }
}

/// A copy of a list without the transitions that a zone strips: those whose overlap has an instant
/// of it, or whose cut lies in it, both ends included. The zone goes from `a` to `b`, in ticks from
/// the start of the list, whose items are together at most 10^38 ticks long: so are any that are
/// fewer than 10^14 with all items in them. An error comes where memory runs out.
pub fn strip(alloc: Global, list: &[Item], a: i128, b: i128) -> Result<Vec<Item>, AllocError>
    requires few { AreFew list.now }
    requires long { added list.now ≤ℤ pos 100000000000000000000000000000000000000 }
    ensures { IfOk result (λ kept. kept.items ≡ cuts.strip list.now a b) }
{
    let mut kept = Vec::new(alloc);
    let mut at: i128 = 0;
    'items: for index in 0..list.len() {
        let item = member(list, index);
        if !is_stripped(item, at, a, b) {
            add_copy(alloc, &mut kept, item)?;
            at += item.length_or_zero();
        }
    }
    Ok(kept)
}
