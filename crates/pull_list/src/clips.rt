//! All clips of a timeline: their groups, and the frames that are in the available ranges of their
//! media.

ghost use Rattle.std.specs.Prelude.{◌≡◌, ◌++◌, ◌∷◌, [], List, Some, OnOk, IfOk};
ghost use Rattle.otio_model.specs.Lengths.{clip_range};
ghost use Rattle.otio_model.specs.declared.compositions.Clip.{Clip as ClipRow};
ghost use Rattle.coord.specs.Keys.{frame_rate};
ghost use Rattle.pull_list.specs.Found.{AddsFrames, AreFrames, IsStock, clips_in, clips_of_item};

use crate::groups::{Groups, group_of};
use crate::runs::Run;
use crate::shown::number_at;
use otio_model::{Children, Clip, Item, ItemOf};
use std::alloc::{AllocError, Global};
use tick_time::{Rate, Span};

// Further from 0 than any frame of a sound timeline with any handles.
const FAR: i128 = 1 << 101;

/// The groups of clips in the order of their first clips, and the frames that are available.
#[derive(Drop)]
pub struct Stock<'a> {
    pub(crate) groups: Groups<'a>,
    pub(crate) available: Vec<Run>,
}

/// The groups and the available frames of all clips among children and below them.
pub(crate) fn stock_of<'a>(alloc: Global, children: &'a Children) -> Result<Stock<'a>, AllocError>
    ensures { IfOk result (λ stock. IsStock (clips_in children.now) stock.groups
        stock.available.items) }
{
    let mut stock = Stock {
        groups: Groups::new(alloc),
        available: Vec::new(alloc),
    };
    add_children(&mut stock, children)?;
    Ok(stock)
}

// Adds the clips among children and below them, in document order.
#[cycle(add)]
fn add_children<'a>(stock: &mut Stock<'a>, children: &'a Children) -> Result<(), AllocError>
    ensures { OnOk result ((clips : List ClipRow) → IsStock clips stock.old.groups
        stock.old.available.items → IsStock (clips ++ clips_in children.now) stock.new.groups
        stock.new.available.items) }
{
    'children: for index in 0..children.len() {
        add_item(stock, children.child(index))?;
    }
    Ok(())
}

// Adds the clips of an item, itself or those below it.
#[cycle(add)]
fn add_item<'a>(stock: &mut Stock<'a>, item: &'a Item) -> Result<(), AllocError>
    ensures { OnOk result ((clips : List ClipRow) → IsStock clips stock.old.groups
        stock.old.available.items → IsStock (clips ++ clips_of_item item.now) stock.new.groups
        stock.new.available.items) }
{
    match item {
        ItemOf::Clip(clip) => add_clip(stock, clip),
        ItemOf::Gap(_) | ItemOf::Transition(_) => Ok(()),
        ItemOf::Stack(stack) => add_children(stock, &stack.children),
        ItemOf::Track(track) => add_children(stock, &track.children),
    }
}

// Adds a clip.
fn add_clip<'a>(stock: &mut Stock<'a>, clip: &'a Clip) -> Result<(), AllocError>
    ensures { OnOk result ((clips : List ClipRow) → IsStock clips stock.old.groups
        stock.old.available.items → IsStock (clips ++ clip.now ∷ []) stock.new.groups
        stock.new.available.items) }
{
    match group_of(clip) {
        Some(group) => {
            let number = stock.groups.add(group)?;
            add_frames(
                &mut stock.available,
                number,
                clip.available_range(),
                group.rate,
            )
        }
        None => Ok(()),
    }
}

// Adds the frames that have an instant of a range of media; all where there is no range.
fn add_frames(
    available: &mut Vec<Run>,
    group: usize,
    range: Option<Span>,
    rate: Rate,
) -> Result<(), AllocError>
    ensures { OnOk result (AddsFrames available.old.items available.new.items group range
        (frame_rate rate)) }
{
    match frames_of(range, rate) {
        Some((first, past)) => {
            available.push(Run { group, first, past })?;
            Ok(())
        }
        None => Ok(()),
    }
}

// The numbers of the first frame that has an instant of a range of media, and of the one after the
// last; `None` where there is none. Where there is no range, all frames are available, and the two
// numbers lie further than any frame that is wanted.
fn frames_of(range: Option<Span>, rate: Rate) -> Option<(i128, i128)>
    ensures { AreFrames range (frame_rate rate) result }
{
    match range {
        Some(range) => frames_in(range, rate),
        None => Some((-FAR, FAR)),
    }
}

// The same of a range.
fn frames_in(range: Span, rate: Rate) -> Option<(i128, i128)>
    ensures { AreFrames (Some range) (frame_rate rate) result }
{
    let (start, end) = (range.start.ticks, range.end_ticks());
    if start == end {
        return None;
    }
    Some((number_at(start, rate), number_at(end - 1, rate) + 1))
}
