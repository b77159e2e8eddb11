//! What is done with one timeline, step by step.

ghost use Rattle.std.specs.Prelude.{◌≡◌, ◌≢◌, ◌<◌, ◌^◌, [], All, IfErr, IfNone, IfOk, IfSome, None};
ghost use Rattle.std.specs.Prelude.{Some, filter, length};
ghost use Rattle.otio_model.specs.Counts.{count};
ghost use Rattle.otio_model.specs.Trees.{items_of, listed};
ghost use Rattle.coord.specs.Soundness.{IsSound};
ghost use Rattle.flat.specs.Answers.{Names};
ghost use Rattle.flat.specs.Blocked.{Blocks};
ghost use Rattle.flat.specs.Roots as roots;
ghost use Rattle.object_law.specs.Writable.{IsTimeline};
ghost use Rattle.flat_stack.specs.Chains.{Told};
ghost use Rattle.flat_stack.specs.Ready.{IsReady};
ghost use Rattle.flat_stack.specs.Shaped as shapes;
ghost use Rattle.flat_stack.specs.Shaped.{IsFlat, IsFlatFault, IsFlattened, IsFromTo, IsNowhere};
ghost use Rattle.flat_stack.specs.Shaped.{IsOnly, IsStraightened, IsTrimmed, IsUnflat, IsUntrimmed};
ghost use Rattle.flat_stack.specs.Tooled.{IsCut, IsShaped, IsToolFault, IsTooled};

use crate::concatenation::gathered;
use crate::flat_tracks::is_of;
use crate::flattening::flatten;
use crate::step_faults::{ToolFault, at};
use crate::transition_removal::without_transitions;
use crate::windowing::window;
use command_words::{Flattening, ToolAsked, TrackKind, Window};
use coord::record_rate;
use flat::FlatFault;
use otio_model::{Children, Item, Items, Timeline, copy_item};
use sequences::Text;
use smpte_tc::{RecordPoint, frame_at};
use std::alloc::{AllocError, Global};

/// More items than memory can hold.
const MOST_HELD: usize = 4_294_967_296;

// The name of a kind of tracks.
fn kind_name(alloc: Global, kind: TrackKind) -> Result<Text, AllocError>
    ensures { IfOk result (λ name. name ≡ shapes.kind_name kind) }
{
    match kind {
        TrackKind::Video => Text::of(alloc, "Video"),
        TrackKind::Audio => Text::of(alloc, "Audio"),
    }
}

// Copies of the children that are tracks of a kind.
fn tracks_of(alloc: Global, children: &Children, kind: &Text) -> Result<Children, AllocError>
    ensures { IfOk result
        (λ tracks. tracks ≡ listed (filter (roots.is_of kind.now) (items_of children.now))) }
{
    let mut tracks: Vec<Item> = Vec::new(alloc);
    'children: for index in 0..children.len() {
        let item = children.child(index);
        if is_of(item, kind) {
            let track = copy_item(alloc, item)?;
            tracks.push(track)?;
        }
    }
    Children::of(alloc, Items::of(tracks))
}

// The timeline with the root children alone that are tracks of a kind.
fn only_of(alloc: Global, timeline: Timeline, kind: TrackKind) -> Result<Timeline, AllocError>
    ensures { IfOk result (IsOnly (Some kind) timeline) }
{
    let name = match kind_name(alloc, kind) {
        Ok(name) => name,
        Err(error) => {
            drop(timeline);
            return Err(error);
        }
    };
    let tracks = match tracks_of(alloc, &timeline.tracks.children, &name) {
        Ok(tracks) => tracks,
        Err(error) => {
            drop(timeline);
            return Err(error);
        }
    };
    let mut kept = timeline;
    kept.tracks.children = tracks;
    Ok(kept)
}

// The timeline with the tracks of a kind alone, where one is asked for. An error comes where
// memory runs out.
fn only(alloc: Global, timeline: Timeline, kind: Option<TrackKind>) -> Result<Timeline, AllocError>
    requires { IsReady timeline }
    ensures only { IfOk result (IsOnly kind timeline) }
    ensures ready { IfOk result IsReady }
{
    match kind {
        Some(kind) => match only_of(alloc, timeline, kind) {
            Ok(kept) => Ok(kept),
            Err(_) => Err(AllocError),
        },
        None => Ok(timeline),
    }
}

// The timeline without transitions, where that is asked for. An error comes where
// memory runs out.
fn straightened(alloc: Global, timeline: Timeline, asked: bool) -> Result<Timeline, AllocError>
    requires { IsReady timeline }
    ensures straight { IfOk result (IsStraightened asked timeline) }
    ensures ready { IfOk result IsReady }
{
    if asked {
        match without_transitions(alloc, timeline) {
            Ok(straight) => Ok(straight),
            Err(_) => Err(AllocError),
        }
    } else {
        Ok(timeline)
    }
}

// The record frame that a point names in a timeline.
fn frame_in(timeline: &Timeline, point: RecordPoint) -> Option<i64>
    ensures { result ≡ shapes.record_frame timeline.now point }
{
    frame_at(point, record_rate(timeline))
}

// The record frames that a window is from, and up to.
fn ends_of(timeline: &Timeline, window: Window) -> Option<(i128, i128)>
    ensures some { IfSome result (λ ends. IsFromTo timeline.now window ends.0 ends.1) }
    ensures none { IfNone result (IsNowhere timeline.now window) }
{
    match frame_in(timeline, window.start) {
        Some(start) => match frame_in(timeline, window.end) {
            Some(end) => Some((i128::from(start), i128::from(end))),
            None => None,
        },
        None => None,
    }
}

// The part of a timeline that a window keeps.
fn part_of(alloc: Global, timeline: Timeline, asked: Window) -> Result<Timeline, ToolFault>
    requires { IsReady timeline }
    ensures trimmed { IfOk result (IsTrimmed (Some asked) timeline) }
    ensures fault { IfErr result (Told (IsUntrimmed (Some asked) timeline)) }
{
    match ends_of(&timeline, asked) {
        Some((start, end)) => match window(alloc, timeline, start, end) {
            Ok(part) => Ok(part),
            Err(why) => Err(at(0, why)),
        },
        None => {
            drop(timeline);
            Err(ToolFault::At {
                input: 0,
                fault: FlatFault::Range,
            })
        }
    }
}

// The part of a timeline that a window keeps, where one is asked for.
fn trimmed(alloc: Global, timeline: Timeline, asked: Option<Window>) -> Result<Timeline, ToolFault>
    requires { IsReady timeline }
    ensures trimmed { IfOk result (IsTrimmed asked timeline) }
    ensures ready { IfOk result IsReady }
    ensures fault { IfErr result (Told (IsUntrimmed asked timeline)) }
{
    match asked {
        Some(asked) => match part_of(alloc, timeline, asked) {
            Ok(part) => Ok(part),
            Err(fault) => Err(fault),
        },
        None => Ok(timeline),
    }
}

// The timeline with the tracks of a kind as one, however many items it then has.
fn flat_named(
    alloc: Global,
    timeline: &Timeline,
    kind: TrackKind,
    keep: bool,
) -> Result<Timeline, FlatFault>
    requires { IsReady timeline.now }
    ensures flat { IfOk result (IsFlat kind keep timeline.now) }
    ensures fault { IfErr result
        (Names (Blocks (shapes.kind_name kind) (roots.roots timeline.now))) }
{
    let name = kind_name(alloc, kind)?;
    flatten(alloc, timeline, &name, keep)
}

// The timeline, where it has fewer than 2^32 items, as each has that memory can hold.
fn narrow(timeline: Timeline) -> Result<Timeline, ToolFault>
    ensures same { IfOk result (λ found. found ≡ timeline) }
    ensures few { IfOk result (λ found. count found.tracks.children < 2 ^ 32) }
    ensures fault { IfErr result (λ fault. fault ≡ ToolFault.Memory) }
{
    if timeline.tracks.children.items_below() < MOST_HELD {
        Ok(timeline)
    } else {
        drop(timeline);
        Err(ToolFault::Memory)
    }
}

// The timeline with the tracks of a kind as one.
fn flat_of(
    alloc: Global,
    timeline: &Timeline,
    kind: TrackKind,
    keep: bool,
) -> Result<Timeline, ToolFault>
    requires { IsReady timeline.now }
    ensures flat { IfOk result (IsFlat kind keep timeline.now) }
    ensures ready { IfOk result IsReady }
    ensures fault { IfErr result (Told (IsFlatFault kind timeline.now)) }
{
    match flat_named(alloc, timeline, kind, keep) {
        Ok(flat) => match narrow(flat) {
            Ok(flat) => Ok(flat),
            Err(fault) => Err(fault),
        },
        Err(why) => Err(at(0, why)),
    }
}

// The timeline with the tracks of each kind as one that is named.
fn flat_as(
    alloc: Global,
    timeline: &Timeline,
    asked: Flattening,
    keep: bool,
) -> Result<Timeline, ToolFault>
    requires { IsReady timeline.now }
    ensures flat { IfOk result (IsFlattened (Some asked) keep timeline.now) }
    ensures ready { IfOk result IsReady }
    ensures fault { IfErr result (Told (IsUnflat (Some asked) keep timeline.now)) }
{
    match asked {
        Flattening::Video => flat_of(alloc, timeline, TrackKind::Video, keep),
        Flattening::Audio => flat_of(alloc, timeline, TrackKind::Audio, keep),
        Flattening::All => match flat_of(alloc, timeline, TrackKind::Video, keep) {
            Ok(pictures) => match flat_of(alloc, &pictures, TrackKind::Audio, keep) {
                Ok(flat) => {
                    drop(pictures);
                    Ok(flat)
                }
                Err(fault) => {
                    drop(pictures);
                    Err(fault)
                }
            },
            Err(fault) => Err(fault),
        },
    }
}

// The timeline with the tracks of each kind as one that is asked for.
fn flattened(
    alloc: Global,
    timeline: Timeline,
    asked: Option<Flattening>,
    keep: bool,
) -> Result<Timeline, ToolFault>
    requires { IsReady timeline }
    ensures flat { IfOk result (IsFlattened asked keep timeline) }
    ensures ready { IfOk result IsReady }
    ensures fault { IfErr result (Told (IsUnflat asked keep timeline)) }
{
    match asked {
        Some(asked) => {
            let flat = flat_as(alloc, &timeline, asked, keep);
            drop(timeline);
            flat
        }
        None => Ok(timeline),
    }
}

// What comes of the timelines before anything is trimmed.
fn shaped(alloc: Global, asked: ToolAsked, inputs: Vec<Timeline>) -> Result<Timeline, ToolFault>
    requires some { inputs.items ≢ [] }
    requires one { asked.joining ≡ None → length inputs.items ≡ 1 }
    requires ready { All IsReady inputs.items }
    ensures shaped { IfOk result (IsShaped asked inputs.items) }
    ensures ready { IfOk result IsReady }
    ensures fault { IfErr result (Told (IsToolFault asked inputs.items)) }
{
    match gathered(alloc, inputs, asked.joining) {
        Ok(all) => match only(alloc, all, asked.only) {
            Ok(kept) => match straightened(alloc, kept, asked.remove_transitions) {
                Ok(straight) => Ok(straight),
                Err(_) => Err(ToolFault::Memory),
            },
            Err(_) => Err(ToolFault::Memory),
        },
        Err(fault) => Err(fault),
    }
}

// What comes of the timelines before anything is flattened.
fn cut(alloc: Global, asked: ToolAsked, inputs: Vec<Timeline>) -> Result<Timeline, ToolFault>
    requires some { inputs.items ≢ [] }
    requires one { asked.joining ≡ None → length inputs.items ≡ 1 }
    requires ready { All IsReady inputs.items }
    ensures cut { IfOk result (IsCut asked inputs.items) }
    ensures ready { IfOk result IsReady }
    ensures fault { IfErr result (Told (IsToolFault asked inputs.items)) }
{
    match shaped(alloc, asked, inputs) {
        Ok(shaped) => match trimmed(alloc, shaped, asked.trim) {
            Ok(trimmed) => Ok(trimmed),
            Err(fault) => Err(fault),
        },
        Err(fault) => Err(fault),
    }
}

/// What comes of the timelines, step by step: they become one; the tracks of one kind alone stay;
/// transitions go; the part of a window is cut out; and tracks are flattened, those of pictures
/// before those of sound: each step as it is asked for, with what came of the steps before.
///
/// An error tells the first step that is refused. [`ToolFault::At`] names an input only where
/// several are joined. Of a window it holds [`FlatFault::Range`] also for a label that is none at
/// the record rate. [`ToolFault::Memory`] comes where memory runs out.
pub fn tooled(alloc: Global, asked: ToolAsked, inputs: Vec<Timeline>) -> Result<Timeline, ToolFault>
    requires some { inputs.items ≢ [] }
    requires one { asked.joining ≡ None → length inputs.items ≡ 1 }
    requires ready { All IsReady inputs.items }
    ensures tooled { IfOk result (IsTooled asked inputs.items) }
    ensures sound { IfOk result IsSound }
    ensures written { IfOk result IsTimeline }
    ensures few { IfOk result (λ timeline. count timeline.tracks.children < 2 ^ 32) }
    ensures fault { IfErr result (Told (IsToolFault asked inputs.items)) }
{
    match cut(alloc, asked, inputs) {
        Ok(cut) => match flattened(alloc, cut, asked.flatten, asked.keep_flattened) {
            Ok(flat) => Ok(flat),
            Err(fault) => Err(fault),
        },
        Err(fault) => Err(fault),
    }
}
