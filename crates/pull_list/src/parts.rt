//! How long an item goes on to show what an item below it shows.

ghost use Rattle.std.specs.Prelude.{◌≡◌, ◌<◌, ◌≤◌, ◌^◌, pos, ◌≤ℤ◌, ◌<ℤ◌, ◌-ℤ◌, IfSome, IsTrue, false, true};
ghost use Rattle.limits.specs.Limits.{most_ticks};
ghost use Rattle.otio_model.specs.Counts.{count, count_of};
ghost use Rattle.otio_model.specs.Lengths.{added, length_of, lengths, or_zero};
ghost use Rattle.otio_model.specs.Seats.{IsSeat};
ghost use Rattle.coord.specs.Programs.{kind_of};
ghost use Rattle.coord.specs.Soundness.{AreFaultless, IsFaultlessItem, fault_of};
ghost use Rattle.coord.specs.Speeds.{speed_of};
ghost use Rattle.pull_list.specs.Parts.{DoesFit, IsAlone, IsPart, IsPlain, IsShowing};
ghost use Rattle.pull_list.specs.Runs.{IsLesser};

use coord::speed;
use otio_model::{Children, Item, ItemOf, Seat};
use show_prog::media_at;

// Longer than any item of a sound timeline.
const FAR: i128 = 1 << 100;

// The speed at which an item goes one tick of its media on in each of its own, in millionths.
const OWN_SPEED: i64 = 1_000_000;

/// What shows the frames of an item up to an instant.
#[derive(Clone, Copy)]
pub(crate) struct Part<'a> {
    /// An item that shows the same: the item itself, or one below it.
    pub(crate) item: &'a Item,
    /// How many ticks its instants are ahead of those of the item.
    pub(crate) ahead: i128,
    /// The instant of the item up to which it shows the same.
    pub(crate) past: i128,
}

// What shows the frames of an item from an instant on.
#[derive(Clone, Copy)]
struct Showing<'a> {
    // An item that shows the same: the item itself, or one below it.
    item: &'a Item,
    // Its instant, in ticks from its start.
    ticks: i128,
    // For how many ticks it shows the same.
    len: i128,
}

// The children of an item that goes one tick on in them in each of its own.
#[derive(Clone, Copy)]
struct Plain<'a> {
    children: &'a Children,
    // Whether they are those of a stack, else they are those of a track.
    piled: bool,
}

/// A part that holds an instant of a root child: this one, or where it ends before that, the one
/// that is found there.
pub(crate) fn part_at<'a>(item: &'a Item, part: Part<'a>, ticks: i128) -> Part<'a>
    requires few { count_of item.now < 2 ^ 32 }
    requires sound { IsFaultlessItem item.now }
    requires low { pos 0 ≤ℤ ticks }
    requires high { ticks ≤ℤ pos most_ticks }
    requires part { IsPart item.now ticks part }
    ensures part { IsPart item.now ticks result }
    ensures holds { ticks <ℤ result.past }
{
    if ticks < part.past {
        part
    } else {
        part_from(item, ticks)
    }
}

// The part of a root child that begins at an instant.
fn part_from<'a>(item: &'a Item, ticks: i128) -> Part<'a>
    requires few { count_of item.now < 2 ^ 32 }
    requires sound { IsFaultlessItem item.now }
    requires low { pos 0 ≤ℤ ticks }
    requires high { ticks ≤ℤ pos most_ticks }
    ensures part { IsPart item.now ticks result }
    ensures holds { ticks <ℤ result.past }
{
    let showing = showing_at(item, item.root_kind(), ticks);
    Part {
        item: showing.item,
        ahead: showing.ticks - ticks,
        past: ticks + showing.len,
    }
}

// What shows the frames of an item from an instant on: the item furthest down of which it is found
// that it does.
fn showing_at<'a>(item: &'a Item, kind: &str, ticks: i128) -> Showing<'a>
    requires few { count_of item.now < 2 ^ 32 }
    requires sound { IsFaultlessItem item.now }
    requires low { pos 0 ≤ℤ ticks }
    requires high { ticks ≤ℤ pos most_ticks }
    ensures { IsShowing item.now kind.now ticks result }
{
    let mut showing = itself(item, ticks);
    'levels: loop {
        match plain_children(showing.item, kind) {
            None => return showing,
            Some(plain) => match child_at(plain, media_at(showing.item, showing.ticks)) {
                None => return for_a_tick(showing),
                Some(child) => showing = below(showing, child),
            },
        }
    }
}

// The item itself.
fn itself<'a>(item: &'a Item, ticks: i128) -> Showing<'a>
    ensures item { result.item.now ≡ item.now }
    ensures ticks { result.ticks ≡ ticks }
    ensures len { result.len ≡ pos (2 ^ 100) }
{
    Showing {
        item,
        ticks,
        len: FAR,
    }
}

// The same for one tick.
fn for_a_tick(showing: Showing<'_>) -> Showing<'_>
    ensures item { result.item.now ≡ showing.entry.item.now }
    ensures ticks { result.ticks ≡ showing.entry.ticks }
    ensures len { result.len ≡ pos 1 }
{
    Showing { len: 1, ..showing }
}

// The child of an item, for as long as each of the two shows the same.
fn below<'a>(showing: Showing<'a>, child: Showing<'a>) -> Showing<'a>
    ensures item { result.item.now ≡ child.entry.item.now }
    ensures ticks { result.ticks ≡ child.entry.ticks }
    ensures len { IsLesser showing.entry.len child.entry.len result.len }
{
    if showing.len < child.len {
        Showing {
            len: showing.len,
            ..child
        }
    } else {
        child
    }
}

// The children of a track of a kind, or of a stack, that isn't disabled and plays at its own speed.
fn plain_children<'a>(item: &'a Item, kind: &str) -> Option<Plain<'a>>
    requires { IsFaultlessItem item.now }
    ensures { IfSome result (λ plain.
        IsPlain item.now kind.now plain.piled plain.children.now) }
{
    if !has_own_speed(item) {
        return None;
    }
    match item {
        ItemOf::Track(track) => {
            if !track.enabled {
                return None;
            }
            if track.kind.as_str() != kind {
                return None;
            }
            Some(Plain {
                children: &track.children,
                piled: false,
            })
        }
        ItemOf::Stack(stack) => {
            if !stack.enabled {
                return None;
            }
            Some(Plain {
                children: &stack.children,
                piled: true,
            })
        }
        _ => None,
    }
}

// Whether an item plays at its own speed.
fn has_own_speed(item: &Item) -> bool
    requires { fault_of item.now ≡ None }
    ensures { IsTrue result → speed_of item.now ≡ pos 1000000 }
{
    speed(item) == OWN_SPEED
}

// The child that alone is shown from an instant on, where it is found that one is.
fn child_at<'a>(plain: Plain<'a>, at: i128) -> Option<Showing<'a>>
    requires few { count plain.children.now < 2 ^ 32 }
    requires sound { AreFaultless plain.children.now }
    requires fits { DoesFit plain.piled plain.children.now }
    ensures { IfSome result (IsAlone plain.entry.piled plain.entry.children.now at) }
{
    if plain.piled {
        child_in_pile(plain.children, at)
    } else {
        child_in_row(plain.children, at)
    }
}

// The child of a stack that alone is shown from an instant on, where no other one that is longer
// may show anything.
fn child_in_pile<'a>(children: &'a Children, at: i128) -> Option<Showing<'a>>
    requires few { count children.now < 2 ^ 32 }
    requires sound { AreFaultless children.now }
    ensures { IfSome result (IsAlone true children.now at) }
{
    if at < 0 {
        return None;
    }
    match children.last_lit(children.len(), at) {
        None => None,
        Some(index) => match children.last_lit(index, at) {
            None => Some(from_instant(children.child(index), at)),
            Some(_) => None,
        },
    }
}

// An item from an instant on, up to its end.
fn from_instant<'a>(item: &'a Item, ticks: i128) -> Showing<'a>
    requires few { count_of item.now < 2 ^ 32 }
    requires low { pos 0 ≤ℤ ticks }
    ensures item { result.item.now ≡ item.now }
    ensures ticks { result.ticks ≡ ticks }
    ensures len { result.len ≡ pos (or_zero (length_of item.now)) -ℤ ticks }
{
    Showing {
        item,
        ticks,
        len: item.length_or_zero() - ticks,
    }
}

// The child of a track that alone is shown from an instant on, where no overlap can be near.
fn child_in_row<'a>(children: &'a Children, at: i128) -> Option<Showing<'a>>
    requires few { count children.now < 2 ^ 32 }
    requires sound { AreFaultless children.now }
    requires fits { added (lengths children.now) ≤ most_ticks }
    ensures { IfSome result (IsAlone false children.now at) }
{
    match children.holder(at) {
        Some(seat) => child_alone(children, seat, at),
        None => None,
    }
}

// The same, where the child at a seat holds the instant.
fn child_alone<'a>(children: &'a Children, seat: Seat, at: i128) -> Option<Showing<'a>>
    requires few { count children.now < 2 ^ 32 }
    requires sound { AreFaultless children.now }
    requires fits { added (lengths children.now) ≤ most_ticks }
    requires seat { IsSeat children.now at seat }
    ensures { IfSome result (IsAlone false children.now at) }
{
    let item = children.child(seat.index);
    let ticks = at - seat.start;
    let left = item.length_or_zero() - ticks;
    let reach = children.overlap_reach();
    if ticks.unsigned_abs() < reach {
        return None;
    }
    if left.unsigned_abs() <= reach {
        return None;
    }
    Some(Showing {
        item,
        ticks,
        len: left - reach as i128,
    })
}
