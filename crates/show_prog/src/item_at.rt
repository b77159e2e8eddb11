//! What holds an instant in a list: an overlap, or an item.

ghost use Rattle.std.specs.Prelude.{◌≡◌, ℕ, ℤ, pos, ◌≤ℤ◌, ◌<◌, ◌≤◌, ◌^◌, Some, IfSome, drop, length};
ghost use Rattle.limits.specs.Limits.{most_ticks};
ghost use Rattle.otio_model.specs.Counts.{count};
ghost use Rattle.otio_model.specs.Lengths.{added, lengths};
ghost use Rattle.otio_model.specs.Trees.{items_of};
ghost use Rattle.otio_model.specs.Seats.{IsFirstOverlap};
ghost use Rattle.coord.specs.Looks.{blank, mix_shows, next_shows};
ghost use Rattle.coord.specs.Sights.{View, looks};
ghost use Rattle.coord.specs.Soundness.{AreFaultless};
ghost use Rattle.show_prog.specs.Walk as walk;
ghost use Rattle.show_prog.specs.Walk.{side, active_shows, IsActive, IsHeld};

use otio_model::{Children, ItemOf, Seat, offset_ticks};
use sequences::Text;

/// An overlap that holds an instant: its two sides, each an index among the children with its own
/// instant in ticks.
#[derive(Clone, Copy)]
pub struct ActiveTransition<'a> {
    /// The transition's type.
    pub kind: &'a Text,
    /// The last item before the transition; `None` where there is none.
    pub from: Option<usize>,
    /// The instant from the start of that item.
    pub from_ticks: i128,
    /// The next item after the transition; `None` where there is none.
    pub to: Option<usize>,
    /// The instant from the start of that item.
    pub to_ticks: i128,
    /// How far the overlap has come, in ticks.
    pub part: i128,
    /// How long it is, in ticks.
    pub whole: i128,
}

/// An item of a list that holds an instant.
#[derive(Clone, Copy)]
pub struct Held {
    /// Its index among the children.
    pub index: usize,
    /// The instant from its start, in ticks.
    pub ticks: i128,
}

// The first item from an index on that isn't a transition.
fn next_item(children: &Children, start: usize) -> Option<usize>
    requires { start ≤ length (items_of children.now) }
    ensures side { (v : View) (u : ℤ) → next_shows (looks v (drop start (items_of children.now))) u
        ≡ side v (items_of children.now) result u }
    ensures within { IfSome result (λ i. i < length (items_of children.now)) }
{
    'children: for index in start..children.len() {
        match children.child(index) {
            ItemOf::Transition(_) => {}
            _ => return Some(index),
        }
    }
    None
}

// The last item before an index that isn't a transition.
fn item_before(children: &Children, end: usize) -> Option<usize>
    requires { end ≤ length (items_of children.now) }
    ensures { result ≡ walk.item_before (items_of children.now) end }
{
    'children: for index in (0..end).rev() {
        if !children.child(index).is_transition() {
            return Some(index);
        }
    }
    None
}

// How long the item at an index is, 0 where there is none.
fn ticks_at(children: &Children, index: Option<usize>) -> i128
    requires few { count children.now < 2 ^ 32 }
    requires within { IfSome index (λ i. i < length (items_of children.now)) }
    ensures { result ≡ walk.ticks_at (items_of children.now) index }
{
    match index {
        Some(index) => children.child(index).length_or_zero(),
        None => 0,
    }
}

// The transition at a seat, whose overlap is the first that holds an instant.
fn active_at(children: &Children, seat: Seat, at: i128) -> ActiveTransition<'_>
    requires few { count children.now < 2 ^ 32 }
    requires sound { AreFaultless children.now }
    requires fits { added (lengths children.now) ≤ most_ticks }
    requires low { pos 0 ≤ℤ at }
    requires high { at ≤ℤ pos most_ticks }
    requires first { IsFirstOverlap children.now at seat }
    ensures shows { (v : View) → mix_shows blank (looks v (items_of children.now)) at
        ≡ active_shows v (items_of children.now) (Some result) }
    ensures within { IsActive (length (items_of children.now)) result }
{
    let ticks = at - seat.start;
    match children.child(seat.index) {
        ItemOf::Transition(transition) => {
            let before = item_before(children, seat.index);
            ActiveTransition {
                kind: &transition.transition_type,
                from: before,
                from_ticks: ticks + ticks_at(children, before),
                to: next_item(children, seat.index + 1),
                to_ticks: ticks,
                part: ticks + offset_ticks(transition.in_offset),
                whole: offset_ticks(transition.in_offset) + offset_ticks(transition.out_offset),
            }
        }
        _ => unreachable!(),
    }
}

/// The first transition of a list whose overlap holds an instant, in ticks from the list's start;
/// `None` exactly where there is none. It takes no memory.
pub fn overlap_at(children: &Children, at: i128) -> Option<ActiveTransition<'_>>
    requires few { count children.now < 2 ^ 32 }
    requires sound { AreFaultless children.now }
    requires fits { added (lengths children.now) ≤ most_ticks }
    requires low { pos 0 ≤ℤ at }
    requires high { at ≤ℤ pos most_ticks }
    ensures shows { (v : View) → mix_shows blank (looks v (items_of children.now)) at
        ≡ active_shows v (items_of children.now) result }
    ensures within { IfSome result (IsActive (length (items_of children.now))) }
{
    match children.first_overlap(at) {
        Some(seat) => Some(active_at(children, seat, at)),
        None => None,
    }
}

/// The item of a list that holds an instant, in ticks from the list's start; `None` exactly where
/// the instant lies before the first item or after the last. It takes no memory.
pub fn holder(children: &Children, at: i128) -> Option<Held>
    requires few { count children.now < 2 ^ 32 }
    requires sound { AreFaultless children.now }
    requires fits { added (lengths children.now) ≤ most_ticks }
    ensures { IsHeld children.now at result }
{
    match children.holder(at) {
        Some(seat) => Some(Held {
            index: seat.index,
            ticks: at - seat.start,
        }),
        None => None,
    }
}
