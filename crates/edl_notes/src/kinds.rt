//! The channels of the tracks of a timeline.

ghost use Rattle.std.specs.Prelude.{◌≡◌, ◌<◌, ◌^◌, ◌++◌, ◌∷◌, [], List};
ghost use Rattle.otio_model.specs.declared.compositions.ItemOf.{ItemOf as AnyItem};
ghost use Rattle.otio_model.specs.declared.compositions.Listed.{Listed};
ghost use Rattle.edl_notes.specs.Kinds as kinds_of;
ghost use Rattle.edl_notes.specs.Kinds.{AreCounted};

use edl_list::Channel;
use otio_model::{Item, ItemOf, Track};

/// How many Video and how many Audio tracks stand among root children.
#[derive(Clone, Copy)]
pub(crate) struct Kinds {
    pub(crate) video: usize,
    pub(crate) audio: usize,
}

/// The channel of a track after tracks of so many kinds: V is the first Video track, A and A2 are
/// the first and the second Audio track.
pub(crate) fn channel_of(kinds: Kinds, track: &Track) -> Option<Channel>
    ensures { result ≡ kinds_of.channel_by kinds track.now }
{
    let kind = track.kind.as_str();
    if kind == "Video" {
        return picture_channel(kinds.video);
    }
    if kind == "Audio" {
        return sound_channel(kinds.audio);
    }
    None
}

// The channel of a Video track after so many.
fn picture_channel(before: usize) -> Option<Channel>
    ensures { result ≡ kinds_of.picture_channel before }
{
    if before == 0 { Some(Channel::V) } else { None }
}

// The channel of an Audio track after so many.
fn sound_channel(before: usize) -> Option<Channel>
    ensures { result ≡ kinds_of.sound_channel before }
{
    if before == 0 {
        return Some(Channel::A);
    }
    if before == 1 {
        return Some(Channel::A2);
    }
    None
}

/// These and one more root child.
pub(crate) fn with_one(kinds: Kinds, item: &Item) -> Kinds
    requires video { kinds.video < 2 ^ 63 }
    requires audio { kinds.audio < 2 ^ 63 }
    ensures { (past : List (AnyItem Listed)) → AreCounted past kinds →
        AreCounted (past ++ item.now ∷ []) result }
{
    Kinds {
        video: kinds.video + of_kind(item, "Video"),
        audio: kinds.audio + of_kind(item, "Audio"),
    }
}

// 1 for a track of the kind, else 0.
fn of_kind(item: &Item, kind: &str) -> usize
    ensures { result ≡ kinds_of.one_of kind.now item.now }
{
    match item {
        ItemOf::Track(track) => { if track.kind.as_str() == kind { 1 } else { 0 } }
        _ => 0,
    }
}
