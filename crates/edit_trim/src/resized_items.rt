//! What becomes of an item whose edges move.

ghost use Rattle.limits.specs.Limits.{most_ticks};
ghost use Rattle.std.specs.Prelude.{◌≡◌, ◌≤◌, IfErr, IfOk, IfSome, IfNone, None, Some, [], ◌∷◌};
ghost use Rattle.std.specs.Prelude.{length as length_of};
ghost use Rattle.std.specs.Prelude.{pos, true, false, FitsSigned};
ghost use Rattle.std.specs.Prelude.{◌≤ℤ◌, ◌-ℤ◌, ◌+ℤ◌, ◌*ℤ◌, ◌&&◌, ◌||◌};
ghost use Rattle.std.specs.Int.{int_div_euclid, w128};
ghost use Rattle.otio_model.specs.Lengths as lengths;
ghost use Rattle.otio_model.specs.Lengths.{source_of};
ghost use Rattle.otio_model.specs.Retimed.{with_source};
ghost use Rattle.coord.specs.Speeds as speeds;
ghost use Rattle.edits.specs.Finest.{in_range};
ghost use Rattle.edits.specs.Children as children;
ghost use Rattle.edits.specs.Children.{all_made, has_far, is_far};
ghost use Rattle.edits.specs.Edges as edges;
ghost use Rattle.pieces.specs.Short.{IsCuttable};
ghost use Rattle.edit_plans.specs.Bounds.{IsMove};
ghost use Rattle.edit_trim.specs.Changes as changes;
ghost use Rattle.edit_trim.specs.Changes.{IsChange, Leaves};

use coord::speed;
use edit_plans::{is_gap, is_zero, source_range};
use otio_model::{Item, copy_item};
use pieces::{RangedFault, new_gap, new_range, ranged, sound_ticks, start_ticks, with_last};
use std::alloc::Global;
use tick_time::{Rate, Span};

/// How new items are made.
#[derive(Clone, Copy)]
pub(crate) struct Making {
    /// What takes their memory.
    pub(crate) alloc: Global,
    /// The rate at which their new times count.
    pub(crate) rate: Rate,
}

/// What becomes of an item, in ticks.
#[derive(Clone, Copy)]
pub(crate) enum Change {
    /// Its edges move so far.
    Move { head: i128, tail: i128 },
    /// It grows by so much at its tail, and goes where nothing is left of it: a gap.
    Grow { by: i128 },
    /// Its start moves so far in its media, unless it is a gap.
    Slip { by: i128 },
}

// So many ticks at a speed, in millionths of a tick; none where these pass 128 bits.
fn media_ticks(ticks: i128, speed: i64) -> Option<i128>
    ensures some { IfSome result (λ n. n ≡ (ticks *ℤ speed)) }
    ensures none { IfNone result (FitsSigned w128 (ticks *ℤ speed) → ⊥) }
{
    ticks.checked_mul(i128::from(speed))
}

// So many millionths of a tick in whole ticks, rounded down.
fn whole_ticks(millionths: i128) -> i128
    ensures value { result ≡ int_div_euclid millionths (pos 1000000) }
    ensures low { (pos 0 -ℤ pos 1000000000000000000000000000000000) ≤ℤ result }
    ensures high { result ≤ℤ pos 1000000000000000000000000000000000 }
{
    millionths.div_euclid(1_000_000)
}

// The instant so many millionths of a tick behind a start, rounded down.
fn instant_behind(start: i128, millionths: i128) -> i128
    requires low { (pos 0 -ℤ pos most_ticks) ≤ℤ start }
    requires high { start ≤ℤ pos most_ticks }
    ensures { result ≡ start +ℤ int_div_euclid millionths (pos 1000000) }
{
    start + whole_ticks(millionths)
}

// The instant of its media that an item reaches in so many ticks from its start; none where it
// passes 128 bits, so a million seconds.
fn media_at(item: &Item, ticks: i128) -> Option<i128>
    requires { IsCuttable item.now }
    ensures some { IfSome result (λ instant. instant
        ≡ speeds.media_at (lengths.trimmed_start item.now) (speeds.speed_of item.now) ticks) }
    ensures none { IfNone result (in_range
        (speeds.media_at (lengths.trimmed_start item.now) (speeds.speed_of item.now) ticks)
        ≡ false) }
{
    match media_ticks(ticks, speed(item)) {
        Some(millionths) => Some(instant_behind(start_ticks(item), millionths)),
        None => None,
    }
}

// An equal item.
fn copied(alloc: Global, item: &Item) -> Result<Item, RangedFault>
    ensures made { IfOk result (λ copy. copy ≡ item.now) }
    ensures far { IfErr result (λ fault. fault ≡ RangedFault.Memory) }
{
    match copy_item(alloc, item) {
        Ok(copy) => Ok(copy),
        Err(_) => Err(RangedFault::Memory),
    }
}

// How long an item is whose head and tail move.
fn moved_ticks(length: i128, head: i128, tail: i128) -> i128
    requires low { pos 0 ≤ℤ length }
    requires high { length ≤ℤ pos most_ticks }
    requires head { IsMove head }
    requires tail { IsMove tail }
    ensures { result ≡ ((length -ℤ head) +ℤ tail) }
{
    length - head + tail
}

// Whether neither the head nor the tail moves.
fn is_still(head: i128, tail: i128) -> bool
    ensures { result ≡ (edges.is_zero head && edges.is_zero tail) }
{
    is_zero(head) && is_zero(tail)
}

// A copy of an item whose head and tail move so far.
fn moved(making: Making, item: &Item, head: i128, tail: i128) -> Result<Item, RangedFault>
    requires item { IsCuttable item.now }
    requires head { IsMove head }
    requires tail { IsMove tail }
    requires left { pos 0 ≤ℤ ((children.ticks item.now -ℤ head) +ℤ tail) }
    ensures made { IfOk result
        (λ new. children.made making.rate (edges.moved head tail item.now) ≡ Some new) }
    ensures far { IfErr result
        (λ fault. fault ≡ RangedFault.Range → is_far (edges.moved head tail item.now) ≡ true) }
{
    if is_still(head, tail) {
        return copied(making.alloc, item);
    }
    match media_at(item, head) {
        Some(start) => {
            let length = moved_ticks(sound_ticks(item), head, tail);
            ranged(making.alloc, item, start, length, making.rate)
        }
        None => Err(RangedFault::Range),
    }
}

// A list of one item.
fn alone(alloc: Global, item: Item) -> Result<Vec<Item>, RangedFault>
    ensures made { IfOk result (λ list. list.items ≡ item ∷ []) }
    ensures far { IfErr result (λ fault. fault ≡ RangedFault.Memory) }
{
    with_last(Vec::new(alloc), item)
}

// How long a gap is that grows by so much.
fn grown_ticks(length: i128, by: i128) -> i128
    requires low { pos 0 ≤ℤ length }
    requires high { length ≤ℤ pos most_ticks }
    requires by { IsMove by }
    ensures { result ≡ (length +ℤ by) }
{
    length + by
}

// A list of a copy of an item with this start and length.
fn resized(making: Making, item: &Item, start: i128, length: i128) -> Result<Vec<Item>, RangedFault>
    requires { pos 0 ≤ℤ length }
    ensures made { IfOk result (λ list. all_made making.rate
        (edges.one (children.Ranged item.now start length)) ≡ Some list.items) }
    ensures few { IfOk result (λ list. length_of list.items ≤ 1) }
    ensures far { IfErr result (λ fault. fault ≡ RangedFault.Range → has_far
        (edges.one (children.Ranged item.now start length)) ≡ true) }
{
    match ranged(making.alloc, item, start, length, making.rate) {
        Ok(copy) => alone(making.alloc, copy),
        Err(fault) => Err(fault),
    }
}

// A copy of a gap that is longer by so much; none where nothing is left of it.
fn grown(making: Making, item: &Item, by: i128) -> Result<Vec<Item>, RangedFault>
    requires item { IsCuttable item.now }
    requires by { IsMove by }
    ensures made { IfOk result
        (λ list. all_made making.rate (edges.grown by item.now) ≡ Some list.items) }
    ensures few { IfOk result (λ list. length_of list.items ≤ 1) }
    ensures far { IfErr result
        (λ fault. fault ≡ RangedFault.Range → has_far (edges.grown by item.now) ≡ true) }
{
    if is_zero(by) {
        return alone(making.alloc, copied(making.alloc, item)?);
    }
    let length = grown_ticks(sound_ticks(item), by);
    if 0 < length {
        return resized(making, item, start_ticks(item), length);
    }
    Ok(Vec::new(making.alloc))
}

// Where an item starts that slips so far.
fn slipped_start(start: i128, by: i128) -> i128
    requires low { (pos 0 -ℤ pos most_ticks) ≤ℤ start }
    requires high { start ≤ℤ pos most_ticks }
    requires by { IsMove by }
    ensures { result ≡ (start +ℤ by) }
{
    start + by
}

// Whether a slip leaves an item as it is.
fn is_kept(item: &Item, by: i128) -> bool
    ensures { result ≡ (edges.is_zero by || edges.is_gap item.now) }
{
    is_zero(by) || is_gap(item)
}

// A copy of an item whose start moves so far in its media, unless it is a gap.
fn slipped(making: Making, item: &Item, by: i128) -> Result<Item, RangedFault>
    requires item { IsCuttable item.now }
    requires by { IsMove by }
    ensures made { IfOk result
        (λ new. children.made making.rate (edges.slipped_item by item.now) ≡ Some new) }
    ensures far { IfErr result
        (λ fault. fault ≡ RangedFault.Range → is_far (edges.slipped_item by item.now) ≡ true) }
{
    if is_kept(item, by) {
        return copied(making.alloc, item);
    }
    ranged(
        making.alloc,
        item,
        slipped_start(start_ticks(item), by),
        sound_ticks(item),
        making.rate,
    )
}

/// What becomes of an item.
pub(crate) fn changed(making: Making, item: &Item, change: Change) -> Result<Vec<Item>, RangedFault>
    requires item { IsCuttable item.now }
    requires change { IsChange change }
    requires leaves { Leaves change item.now }
    ensures made { IfOk result
        (λ list. all_made making.rate (changes.changed change item.now) ≡ Some list.items) }
    ensures few { IfOk result (λ list. length_of list.items ≤ 1) }
    ensures far { IfErr result
        (λ fault. fault ≡ RangedFault.Range → has_far (changes.changed change item.now) ≡ true) }
{
    match change {
        Change::Move { head, tail } => alone(making.alloc, moved(making, item, head, tail)?),
        Change::Grow { by } => grown(making, item, by),
        Change::Slip { by } => alone(making.alloc, slipped(making, item, by)?),
    }
}

// A list of a new gap of so many ticks.
fn one_gap(making: Making, ticks: i128) -> Result<Vec<Item>, RangedFault>
    requires { pos 0 ≤ℤ ticks }
    ensures made { IfOk result (λ list. all_made making.rate (edges.one (children.new_gap ticks))
        ≡ Some list.items) }
    ensures few { IfOk result (λ list. length_of list.items ≤ 1) }
    ensures far { IfErr result (λ fault. fault ≡ RangedFault.Range → has_far
        (edges.one (children.new_gap ticks)) ≡ true) }
{
    match new_gap(making.alloc, ticks, making.rate) {
        Ok(gap) => alone(making.alloc, gap),
        Err(fault) => Err(fault),
    }
}

/// A new gap of so many ticks; none where they aren't more than 0.
pub(crate) fn gap_of(making: Making, ticks: i128) -> Result<Vec<Item>, RangedFault>
    ensures made { IfOk result
        (λ list. all_made making.rate (edges.gap_of ticks) ≡ Some list.items) }
    ensures few { IfOk result (λ list. length_of list.items ≤ 1) }
    ensures far { IfErr result
        (λ fault. fault ≡ RangedFault.Range → has_far (edges.gap_of ticks) ≡ true) }
{
    if 0 < ticks {
        return one_gap(making, ticks);
    }
    Ok(Vec::new(making.alloc))
}

// The source range of an item once it has this start and this length.
fn resized_range(
    making: Making,
    item: &Item,
    start: i128,
    length: i128,
) -> Result<Option<Span>, RangedFault>
    requires { pos 0 ≤ℤ length }
    ensures made { IfOk result (λ range. children.made making.rate
        (children.Ranged item.now start length) ≡ Some (with_source range item.now)) }
    ensures kept { IfOk result (λ range. range ≡ None → source_of item.now ≡ None) }
    ensures far { IfErr result
        (λ _. is_far (children.Ranged item.now start length) ≡ true) }
{
    match new_range(item, start, length, making.rate) {
        Ok(range) => Ok(Some(range)),
        Err(fault) => Err(fault),
    }
}

// The source range of an item whose head and tail move so far.
fn moved_range(
    making: Making,
    item: &Item,
    head: i128,
    tail: i128,
) -> Result<Option<Span>, RangedFault>
    requires item { IsCuttable item.now }
    requires head { IsMove head }
    requires tail { IsMove tail }
    requires left { pos 0 ≤ℤ ((children.ticks item.now -ℤ head) +ℤ tail) }
    ensures made { IfOk result (λ range. children.made making.rate (edges.moved head tail item.now)
        ≡ Some (with_source range item.now)) }
    ensures kept { IfOk result (λ range. range ≡ None → source_of item.now ≡ None) }
    ensures far { IfErr result (λ _. is_far (edges.moved head tail item.now) ≡ true) }
{
    if is_still(head, tail) {
        return Ok(source_range(item));
    }
    match media_at(item, head) {
        Some(start) => {
            let length = moved_ticks(sound_ticks(item), head, tail);
            resized_range(making, item, start, length)
        }
        None => Err(RangedFault::Range),
    }
}

// The source range of an item whose start moves so far in its media, unless it is a gap.
fn slipped_range(making: Making, item: &Item, by: i128) -> Result<Option<Span>, RangedFault>
    requires item { IsCuttable item.now }
    requires by { IsMove by }
    ensures made { IfOk result (λ range. children.made making.rate
        (edges.slipped_item by item.now) ≡ Some (with_source range item.now)) }
    ensures kept { IfOk result (λ range. range ≡ None → source_of item.now ≡ None) }
    ensures far { IfErr result (λ _. is_far (edges.slipped_item by item.now) ≡ true) }
{
    if is_kept(item, by) {
        return Ok(source_range(item));
    }
    let start = slipped_start(start_ticks(item), by);
    resized_range(making, item, start, sound_ticks(item))
}

/// Whether an item stays, whatever becomes of its edges.
pub(crate) fn stays(change: Change) -> bool
    ensures { result ≡ changes.stays change }
{
    match change {
        Change::Grow { by } => is_zero(by),
        _ => true,
    }
}

/// The source range of an item once it is changed, where it stays.
pub(crate) fn new_source(
    making: Making,
    item: &Item,
    change: Change,
) -> Result<Option<Span>, RangedFault>
    requires item { IsCuttable item.now }
    requires change { IsChange change }
    requires leaves { Leaves change item.now }
    requires stays { changes.stays change ≡ true }
    ensures made { IfOk result (λ range. all_made making.rate (changes.changed change item.now)
        ≡ Some (with_source range item.now ∷ [])) }
    ensures kept { IfOk result (λ range. range ≡ None → source_of item.now ≡ None) }
    ensures far { IfErr result (λ _. has_far (changes.changed change item.now) ≡ true) }
{
    match change {
        Change::Move { head, tail } => moved_range(making, item, head, tail),
        Change::Grow { .. } => Ok(source_range(item)),
        Change::Slip { by } => slipped_range(making, item, by),
    }
}
