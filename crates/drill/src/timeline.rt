//! The timeline.

ghost use Rattle.std.specs.Prelude.{◌≡◌, IfOk, OnOk};
ghost use Rattle.tick_time.specs.FixedRates as rates;
ghost use Rattle.drill.specs.Media.{rows};
ghost use Rattle.tick_time.specs.Frames.{IsFrames};
ghost use Rattle.edit_script.specs.Keeping.{IsEditable};
ghost use Rattle.drill.specs.Starting.{IsStart, behind_start, first_frame, root_of, video_track};

use crate::clips::start_items;
use crate::generator::Random;
use media_list::MediaList;
use otio_model::{
    Children, Effects, Item, ItemOf, Items, Markers, Metadata, Stack, StackOf, Timeline, TrackOf,
};
use sequences::{NamedValues, Text};
use std::alloc::{AllocError, Global};
use tick_time::{Time, rate_24};

// Where the timeline begins.
fn start() -> Time
    ensures { IsFrames rates.rate_24 first_frame result }
{
    Time::of_frames(86_400, rate_24())
}

// A Video track with these items.
fn track(alloc: Global, items: Items) -> Result<Item, AllocError>
    ensures { IfOk result (λ track. track ≡ video_track items) }
{
    let children = Children::of(alloc, items)?;
    let kind = Text::of(alloc, "Video")?;
    Ok(ItemOf::Track(TrackOf {
        metadata: Metadata::new(alloc),
        name: Text::empty(),
        source_range: None,
        effects: Effects::new(alloc),
        markers: Markers::new(alloc),
        enabled: true,
        children,
        kind,
        rest: NamedValues::new(alloc),
    }))
}

// The root stack with this track alone.
fn tracks(alloc: Global, track: Item) -> Result<Stack, AllocError>
    ensures { IfOk result (λ tracks. tracks ≡ root_of track) }
{
    let mut list = match Vec::with_capacity(alloc, 1) {
        Ok(list) => list,
        Err(_) => {
            drop(track);
            return Err(AllocError);
        }
    };
    list.push(track)?;
    let children = Children::of(alloc, Items::of(list))?;
    let name = Text::of(alloc, "tracks")?;
    Ok(StackOf {
        metadata: Metadata::new(alloc),
        name,
        source_range: None,
        effects: Effects::new(alloc),
        markers: Markers::new(alloc),
        enabled: true,
        children,
        rest: NamedValues::new(alloc),
    })
}

/// The timeline that a drill begins with, of forty clips that the generator draws. An error comes
/// where memory runs out.
pub fn start_timeline(
    alloc: Global,
    media: &MediaList,
    random: &mut Random,
) -> Result<Timeline, AllocError>
    requires { media.now ≡ rows }
    ensures timeline { IfOk result (IsStart random.old.state) }
    ensures editable { IfOk result IsEditable }
    ensures state { OnOk result (random.new.state ≡ behind_start random.old.state) }
{
    let items = start_items(alloc, media, random)?;
    let tracks = tracks(alloc, track(alloc, items)?)?;
    let name = Text::of(alloc, "drill")?;
    let metadata = NamedValues::new(alloc);
    let rest = NamedValues::new(alloc);
    Ok(Timeline::of(alloc, metadata, name, Some(start()), tracks, rest))
}
