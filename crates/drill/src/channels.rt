//! Sums over what is shown on a list's channel for pictures.

ghost use Rattle.std.specs.Prelude.{◌≡◌, ◌<◌, ◌^◌, length, codes, slice_get, None, IfNone, IfOk, IfSome, OnErr};
ghost use Rattle.otio_model.specs.Counts.{count as count_all};
ghost use Rattle.otio_model.specs.Trees.{items_of};
ghost use Rattle.coord.specs.Soundness.{IsFaultless};
ghost use Rattle.edl_list.specs.declared.list.Channel.TheVariants as channels;
ghost use Rattle.edl_frames.specs.Channels.{channel_track, is_track_of};
ghost use Rattle.drill.specs.Sums as sums;

use crate::sums::child_sum;
use otio_model::{Children, Item, ItemOf, Timeline};
use std::alloc::{AllocError, Global};

// Whether a root child is a track for pictures.
fn is_video(item: &Item) -> bool
    ensures { result ≡ is_track_of (codes "Video") item.now }
{
    match item {
        ItemOf::Track(track) => track.kind.as_str() == "Video",
        _ => false,
    }
}

// The index of the first track for pictures among root children, which is that of channel V.
fn video_index(children: &Children) -> Option<usize>
    ensures found { IfSome result (λ index. channel_track channels.V (items_of children.now)
        ≡ slice_get (items_of children.now) index) }
    ensures there { IfSome result (λ index. index < length (items_of children.now)) }
    ensures none { IfNone result (channel_track channels.V (items_of children.now) ≡ None) }
{
    'children: for index in 0..children.len() {
        if is_video(children.child(index)) {
            return Some(index);
        }
    }
    None
}

/// The source frame numbers that a timeline shows on a list's channel for pictures, at so many
/// record frames from one on, added up: of a mix those of both sides, and 0 where nothing is
/// shown. The channel has the first track of kind Video; without one nothing is shown.
///
/// An error comes where memory runs out, and only where a mix is shown; or where a frame's number
/// or a sum leaves 128 bits, which no timeline of a drill comes near.
pub fn channel_sum(
    alloc: Global,
    timeline: &Timeline,
    first: i128,
    count: u128,
) -> Result<i128, AllocError>
    requires few { count_all timeline.now.tracks.children < 2 ^ 32 }
    requires sound { IsFaultless timeline.now }
    ensures sum { IfOk result (λ sum. sum ≡ sums.channel_sum timeline.now first count) }
    ensures memory { OnErr result (sums.StopsChannel timeline.now first count) }
{
    match video_index(&timeline.tracks.children) {
        Some(index) => child_sum(alloc, timeline, index, first, count),
        None => Ok(0),
    }
}
