//! What items, tracks and stacks show.

ghost use Rattle.std.specs.Prelude.{◌≡◌, ◌-ℤ◌, ◌≤ℤ◌, ◌<ℤ◌, ◌<◌, ◌≤◌, ◌^◌, ◌&&◌, IfOk, IfSome};
ghost use Rattle.std.specs.Prelude.{OnErr, false, length, pos, true};
ghost use Rattle.limits.specs.Limits.{most_ticks};
ghost use Rattle.otio_model.specs.Counts.{count, count_of};
ghost use Rattle.otio_model.specs.Lengths as ranges;
ghost use Rattle.otio_model.specs.Lengths.{added, lengths};
ghost use Rattle.otio_model.specs.Trees.{items_of};
ghost use Rattle.coord.specs.Looks.{track_shows, stack_shows};
ghost use Rattle.coord.specs.Sights as sights;
ghost use Rattle.coord.specs.Sights.{exact, sight, looks, shows_inside};
ghost use Rattle.coord.specs.Speeds as speeds;
ghost use Rattle.coord.specs.Speeds.{speed_of};
ghost use Rattle.coord.specs.Soundness.{AreFaultless, fault_of, IsFaultlessItem};
ghost use Rattle.show_prog.specs.Walk.{side, mixture};
ghost use Rattle.coord.specs.Images.{image, is_empty, is_mix};
ghost use Rattle.show_prog.specs.Pictures.{image_of};

use crate::clips::{mix_kind, show_clip};
use crate::item_at::{ActiveTransition, holder, overlap_at};
use crate::mix_weight::lowest;
use crate::picture::Picture;
use coord::{media_offset, speed, trimmed_start};
use otio_model::{Children, Item, ItemOf};
use std::alloc::{AllocError, Global};

// Where the trimmed range of an item starts.
fn start_of(item: &Item) -> i128
    ensures value { result ≡ ranges.trimmed_start item.now }
    ensures low { (pos 0 -ℤ pos most_ticks) ≤ℤ result }
    ensures high { result ≤ℤ pos most_ticks }
{
    trimmed_start(item)
}

/// The instant of an item's media, or of its children, that is reached so many ticks from its
/// start, also outside its length: the start of its trimmed range, and the ticks at its speed,
/// rounded down. It takes no memory.
pub fn media_at(item: &Item, ticks: i128) -> i128
    requires sound { fault_of item.now ≡ None }
    requires low { (pos 0 -ℤ pos 2822400000000000000000000) ≤ℤ ticks }
    requires high { ticks ≤ℤ pos 2822400000000000000000000 }
    ensures value { result ≡ speeds.media_at (ranges.trimmed_start item.now)
        (speed_of item.now) ticks }
    ensures low { (pos 0 -ℤ pos (2 ^ 100)) ≤ℤ result }
    ensures high { result <ℤ pos (2 ^ 100) }
{
    start_of(item) + media_offset(ticks, speed(item))
}

/// What an item shows so many ticks from its start, also outside its length.
#[cycle(show)]
pub(crate) fn show_item<'a>(
    alloc: Global,
    item: &'a Item,
    kind: &str,
    ticks: i128,
) -> Result<Picture<'a>, AllocError>
    requires few { count_of item.now < 2 ^ 32 }
    requires sound { IsFaultlessItem item.now }
    requires low { (pos 0 -ℤ pos 2822400000000000000000000) ≤ℤ ticks }
    requires high { ticks ≤ℤ pos 2822400000000000000000000 }
    ensures image { IfOk result (λ p. image_of p ≡
        image ((sight item.now).shows (exact kind.now) ticks)) }
    ensures memory { OnErr result (is_mix ((sight item.now).shows (exact kind.now) ticks) ≡ true) }
{
    show_inside(alloc, item, kind, media_at(item, ticks))
}

// What an item shows where its media, or its children, stand at an instant.
#[cycle(show)]
fn show_inside<'a>(
    alloc: Global,
    item: &'a Item,
    kind: &str,
    at: i128,
) -> Result<Picture<'a>, AllocError>
    requires few { count_of item.now < 2 ^ 32 }
    requires sound { IsFaultlessItem item.now }
    ensures image { IfOk result (λ p. image_of p ≡
        image (shows_inside sights.sights item.now (exact kind.now) at)) }
    ensures memory { OnErr result (is_mix
        (shows_inside sights.sights item.now (exact kind.now) at) ≡ true) }
{
    match item {
        ItemOf::Clip(clip) => Ok(show_clip(clip, at)),
        ItemOf::Gap(_) | ItemOf::Transition(_) => Ok(Picture::Blank),
        ItemOf::Stack(stack) => {
            if !stack.enabled {
                return Ok(Picture::Blank);
            }
            show_stack(alloc, kind, &stack.children, at)
        }
        ItemOf::Track(track) => {
            if !track.enabled || track.kind.as_str() != kind {
                return Ok(Picture::Blank);
            }
            show_track(alloc, &track.children, kind, at)
        }
    }
}

// What the child at an index shows, or Blank where there is none.
#[cycle(show)]
fn show_side<'a>(
    alloc: Global,
    children: &'a Children,
    index: Option<usize>,
    kind: &str,
    ticks: i128,
) -> Result<Picture<'a>, AllocError>
    requires few { count children.now < 2 ^ 32 }
    requires sound { AreFaultless children.now }
    requires within { IfSome index (λ i. i < length (items_of children.now)) }
    requires low { (pos 0 -ℤ pos 2822400000000000000000000) ≤ℤ ticks }
    requires high { ticks ≤ℤ pos 2822400000000000000000000 }
    ensures image { IfOk result (λ p. image_of p ≡
        image (side (exact kind.now) (items_of children.now) index ticks)) }
    ensures memory { OnErr result (is_mix
        (side (exact kind.now) (items_of children.now) index ticks) ≡ true) }
{
    match index {
        Some(index) => show_item(alloc, children.child(index), kind, ticks),
        None => Ok(Picture::Blank),
    }
}

// What a track's list shows, Blank outside its available range.
#[cycle(show)]
fn show_track<'a>(
    alloc: Global,
    children: &'a Children,
    kind: &str,
    at: i128,
) -> Result<Picture<'a>, AllocError>
    requires few { count children.now < 2 ^ 32 }
    requires sound { AreFaultless children.now }
    requires fits { added (lengths children.now) ≤ most_ticks }
    ensures image { IfOk result (λ p. image_of p ≡
        image (track_shows (looks (exact kind.now) (items_of children.now)) at)) }
    ensures memory { OnErr result (is_mix
        (track_shows (looks (exact kind.now) (items_of children.now)) at) ≡ true) }
{
    match holder(children, at) {
        None => Ok(Picture::Blank),
        Some(held) => match overlap_at(children, at) {
            None => show_side(alloc, children, Some(held.index), kind, held.ticks),
            Some(active) => {
                let from = show_side(alloc, children, active.from, kind, active.from_ticks)?;
                let to = show_side(alloc, children, active.to, kind, active.to_ticks)?;
                mix(alloc, active, from, to)
            }
        },
    }
}

// A mix of two pictures; of two that are Blank it is Blank.
fn mix<'a>(
    alloc: Global,
    active: ActiveTransition<'a>,
    from: Picture<'a>,
    to: Picture<'a>,
) -> Result<Picture<'a>, AllocError>
    requires part { pos 0 ≤ℤ active.part }
    requires whole { pos 0 <ℤ active.whole }
    ensures image { IfOk result (λ p. image_of p ≡
        mixture active.entry.kind.now (image_of from.entry)
        (image_of to.entry) active.entry.part active.entry.whole) }
    ensures memory { OnErr result ((is_empty (image_of from.entry) && is_empty
        (image_of to.entry)) ≡ false) }
{
    if is_blank(&from) && is_blank(&to) {
        return Ok(Picture::Blank);
    }
    let share = lowest(active.part, active.whole);
    Ok(Picture::Mix {
        kind: mix_kind(active.kind),
        from: Box::new(alloc, from)?,
        to: Box::new(alloc, to)?,
        num: share.num,
        den: share.den,
    })
}

// Whether nothing is seen.
fn is_blank(picture: &Picture<'_>) -> bool
    ensures { result ≡ is_empty (image_of picture.now) }
{
    matches!(picture, Picture::Blank)
}

// What the topmost child shows that isn't Blank. The last child is the topmost.
#[cycle(show)]
fn show_stack<'a>(
    alloc: Global,
    kind: &str,
    children: &'a Children,
    at: i128,
) -> Result<Picture<'a>, AllocError>
    requires few { count children.now < 2 ^ 32 }
    requires sound { AreFaultless children.now }
    ensures image { IfOk result (λ p. image_of p ≡
        image (stack_shows (looks (exact kind.now) (items_of children.now)) at)) }
    ensures memory { OnErr result (is_mix
        (stack_shows (looks (exact kind.now) (items_of children.now)) at) ≡ true) }
{
    if at < 0 {
        return Ok(Picture::Blank);
    }
    let mut end = children.len();
    'children: while end > 0 {
        match children.last_lit(end, at) {
            Some(index) => {
                let picture = show_item(alloc, children.child(index), kind, at)?;
                if !is_blank(&picture) {
                    return Ok(picture);
                }
                end = index;
            }
            None => return Ok(Picture::Blank),
        }
    }
    Ok(Picture::Blank)
}
