//! The frames that items, tracks and stacks show at an instant.

ghost use Rattle.std.specs.Prelude.{◌≡◌, ◌∷◌, [], ◌<◌, ◌≤◌, ◌^◌, ℕ, List, pos, ◌-ℤ◌, ◌≤ℤ◌, ◌<ℤ◌, IfOk, IfSome, cond, length};
ghost use Rattle.limits.specs.Limits.{most_ticks};
ghost use Rattle.otio_model.specs.Counts.{count, count_of};
ghost use Rattle.otio_model.specs.Lengths.{added, lengths};
ghost use Rattle.otio_model.specs.Trees.{items_of};
ghost use Rattle.coord.specs.Images.{frame_number};
ghost use Rattle.coord.specs.Keys as keys;
ghost use Rattle.coord.specs.Looks.{Blank, mixed, stack_shows, track_shows};
ghost use Rattle.coord.specs.Programs.{frame_ticks};
ghost use Rattle.coord.specs.Sights as sights;
ghost use Rattle.coord.specs.Sights.{exact, framed, looks, shows_inside, sight};
ghost use Rattle.coord.specs.Soundness.{AreFaultless, IsFaultlessItem};
ghost use Rattle.show_prog.specs.Walk.{IsActive, side};
ghost use Rattle.pull_list.specs.Found.{Collects, clips_in, clips_of_item};
ghost use Rattle.pull_list.specs.Runs.{Each, IsRun, far};

use crate::groups::group_of;
use crate::used::Used;
use otio_model::{Children, Clip, Item, ItemOf};
use show_prog::{ActiveTransition, holder, media_at, overlap_at};
use std::alloc::AllocError;
use tick_time::Rate;

/// Adds the frames that an item shows so many ticks from its start, also outside its length. The
/// result is whether it shows any.
#[cycle(add)]
pub(crate) fn add_item<'a>(
    used: &mut Used<'a>,
    item: &'a Item,
    kind: &str,
    ticks: i128,
) -> Result<bool, AllocError>
    requires few { count_of item.now < 2 ^ 32 }
    requires sound { IsFaultlessItem item.now }
    requires low { (pos 0 -ℤ pos 2822400000000000000000000) ≤ℤ ticks }
    requires high { ticks ≤ℤ pos 2822400000000000000000000 }
    requires runs { Each IsRun used.old.runs.items }
    ensures groups { used.new.groups ≡ used.old.groups }
    ensures added { IfOk result (λ some. Collects used.old.groups (clips_of_item item.now)
        used.old.runs.items used.new.runs.items some
        ((sight item.now).shows (exact kind.now) ticks)) }
{
    add_inside(used, item, kind, media_at(item, ticks))
}

// Adds the frames that an item shows where its media, or its children, stand at an instant.
#[cycle(add)]
fn add_inside<'a>(
    used: &mut Used<'a>,
    item: &'a Item,
    kind: &str,
    at: i128,
) -> Result<bool, AllocError>
    requires few { count_of item.now < 2 ^ 32 }
    requires sound { IsFaultlessItem item.now }
    requires low { (pos 0 -ℤ pos far) ≤ℤ at }
    requires high { at <ℤ pos far }
    requires runs { Each IsRun used.old.runs.items }
    ensures groups { used.new.groups ≡ used.old.groups }
    ensures added { IfOk result (λ some. Collects used.old.groups (clips_of_item item.now)
        used.old.runs.items used.new.runs.items some
        (shows_inside sights.sights item.now (exact kind.now) at)) }
{
    match item {
        ItemOf::Clip(clip) => add_clip(used, clip, at),
        ItemOf::Gap(_) | ItemOf::Transition(_) => Ok(false),
        ItemOf::Stack(stack) => {
            if !stack.enabled {
                return Ok(false);
            }
            add_stack(used, kind, &stack.children, at)
        }
        ItemOf::Track(track) => {
            if !track.enabled {
                return Ok(false);
            }
            if track.kind.as_str() != kind {
                return Ok(false);
            }
            add_track(used, kind, &track.children, at)
        }
    }
}

// Adds the frame that a clip shows at an instant of its media.
fn add_clip<'a>(used: &mut Used<'a>, clip: &'a Clip, at: i128) -> Result<bool, AllocError>
    requires low { (pos 0 -ℤ pos far) ≤ℤ at }
    requires high { at <ℤ pos far }
    requires runs { Each IsRun used.old.runs.items }
    ensures groups { used.new.groups ≡ used.old.groups }
    ensures added { (kind : List ℕ) → IfOk result (λ some. Collects used.old.groups
        (clip.now ∷ []) used.old.runs.items used.new.runs.items some
        (cond clip.now.enabled
        (framed (exact kind) (keys.key_of clip.now) at (keys.media_rate clip.now)) Blank)) }
{
    if !clip.enabled {
        return Ok(false);
    }
    match group_of(clip) {
        Some(group) => {
            used.add(group, number_at(at, group.rate))?;
            Ok(true)
        }
        None => Ok(false),
    }
}

/// The number of the frame that holds an instant of media.
pub(crate) fn number_at(at: i128, rate: Rate) -> i128
    requires low { (pos 0 -ℤ pos far) ≤ℤ at }
    requires high { at <ℤ pos far }
    ensures value { result ≡ frame_number at (keys.frame_rate rate) }
    ensures low { (pos 0 -ℤ pos far) ≤ℤ result }
    ensures high { result <ℤ pos far }
    ensures some { 0 < frame_ticks (keys.frame_rate rate) }
{
    at.div_euclid(rate.frame_ticks())
}

// Adds the frames that a track's list shows.
#[cycle(add)]
fn add_track<'a>(
    used: &mut Used<'a>,
    kind: &str,
    children: &'a Children,
    at: i128,
) -> Result<bool, AllocError>
    requires few { count children.now < 2 ^ 32 }
    requires sound { AreFaultless children.now }
    requires fits { added (lengths children.now) ≤ most_ticks }
    requires runs { Each IsRun used.old.runs.items }
    ensures groups { used.new.groups ≡ used.old.groups }
    ensures added { IfOk result (λ some. Collects used.old.groups (clips_in children.now)
        used.old.runs.items used.new.runs.items some
        (track_shows (looks (exact kind.now) (items_of children.now)) at)) }
{
    match holder(children, at) {
        None => Ok(false),
        Some(held) => match overlap_at(children, at) {
            None => add_side(used, kind, children, Some(held.index), held.ticks),
            Some(active) => add_mix(used, kind, children, active),
        },
    }
}

// Adds the frames of both sides of a transition.
#[cycle(add)]
fn add_mix<'a>(
    used: &mut Used<'a>,
    kind: &str,
    children: &'a Children,
    active: ActiveTransition<'a>,
) -> Result<bool, AllocError>
    requires few { count children.now < 2 ^ 32 }
    requires sound { AreFaultless children.now }
    requires within { IsActive (length (items_of children.now)) active }
    requires runs { Each IsRun used.old.runs.items }
    ensures groups { used.new.groups ≡ used.old.groups }
    ensures added { IfOk result (λ some. Collects used.old.groups (clips_in children.now)
        used.old.runs.items used.new.runs.items some (mixed active.entry.kind.now
        (side (exact kind.now) (items_of children.now) active.entry.from active.entry.from_ticks)
        (side (exact kind.now) (items_of children.now) active.entry.to active.entry.to_ticks)
        active.entry.part active.entry.whole)) }
{
    let from = add_side(used, kind, children, active.from, active.from_ticks)?;
    let to = add_side(used, kind, children, active.to, active.to_ticks)?;
    Ok(from || to)
}

// Adds the frames that the child at an index shows.
#[cycle(add)]
fn add_side<'a>(
    used: &mut Used<'a>,
    kind: &str,
    children: &'a Children,
    index: Option<usize>,
    ticks: i128,
) -> Result<bool, AllocError>
    requires few { count children.now < 2 ^ 32 }
    requires sound { AreFaultless children.now }
    requires within { IfSome index (λ i. i < length (items_of children.now)) }
    requires low { (pos 0 -ℤ pos 2822400000000000000000000) ≤ℤ ticks }
    requires high { ticks ≤ℤ pos 2822400000000000000000000 }
    requires runs { Each IsRun used.old.runs.items }
    ensures groups { used.new.groups ≡ used.old.groups }
    ensures added { IfOk result (λ some. Collects used.old.groups (clips_in children.now)
        used.old.runs.items used.new.runs.items some
        (side (exact kind.now) (items_of children.now) index ticks)) }
{
    match index {
        Some(index) => add_item(used, children.child(index), kind, ticks),
        None => Ok(false),
    }
}

// Adds the frames that the topmost child shows that shows any, the last one being the topmost.
#[cycle(add)]
fn add_stack<'a>(
    used: &mut Used<'a>,
    kind: &str,
    children: &'a Children,
    at: i128,
) -> Result<bool, AllocError>
    requires few { count children.now < 2 ^ 32 }
    requires sound { AreFaultless children.now }
    requires runs { Each IsRun used.old.runs.items }
    ensures groups { used.new.groups ≡ used.old.groups }
    ensures added { IfOk result (λ some. Collects used.old.groups (clips_in children.now)
        used.old.runs.items used.new.runs.items some
        (stack_shows (looks (exact kind.now) (items_of children.now)) at)) }
{
    if at < 0 {
        return Ok(false);
    }
    'children: for index in (0..children.len()).rev() {
        let item = children.child(index);
        if at < item.length_or_zero() {
            if add_item(used, item, kind, at)? {
                return Ok(true);
            }
        }
    }
    Ok(false)
}
