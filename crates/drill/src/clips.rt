//! The clips of the timeline.

ghost use Rattle.std.specs.Prelude.{◌≡◌, Some, IfOk, OnOk};
ghost use Rattle.tick_time.specs.FixedRates as rates;
ghost use Rattle.drill.specs.Acts as acts;
ghost use Rattle.drill.specs.Draws.{after};
ghost use Rattle.drill.specs.Media.{rows};
ghost use Rattle.edit_script.specs.Items.{IsItem};
ghost use Rattle.drill.specs.Starting.{AreItems, behind, behind_start, start_clips};

use crate::generator::Random;
use edit_script::item_of;
use media_list::MediaList;
use otio_model::{Item, Items};
use std::alloc::{AllocError, Global};
use tick_time::rate_24;

// The clip of an index.
fn clip(
    alloc: Global,
    media: &MediaList,
    random: &mut Random,
    index: u64,
) -> Result<Item, AllocError>
    requires { media.now ≡ rows }
    ensures clip { IfOk result
        (IsItem rates.rate_24 (Some rows) (acts.clip_at index random.old.state)) }
    ensures state { OnOk result (random.new.state ≡ after 2 random.old.state) }
{
    match random.clip_at(alloc, index) {
        Ok(put) => item_of(alloc, rate_24(), Some(media), &put),
        Err(error) => Err(error),
    }
}

// So many clips.
fn clips(
    alloc: Global,
    media: &MediaList,
    random: &mut Random,
    count: u64,
) -> Result<Vec<Item>, AllocError>
    requires { media.now ≡ rows }
    ensures clips { IfOk result
        (λ made. AreItems (acts.clips 0 count random.old.state) made.items) }
    ensures state { OnOk result (random.new.state ≡ behind count random.old.state) }
{
    let mut made = Vec::new(alloc);
    'clips: for index in 0..count {
        let item = clip(alloc, media, random, index)?;
        made.push(item)?;
    }
    Ok(made)
}

/// The clips of the timeline.
pub(crate) fn start_items(
    alloc: Global,
    media: &MediaList,
    random: &mut Random,
) -> Result<Items, AllocError>
    requires { media.now ≡ rows }
    ensures clips { IfOk result (AreItems (start_clips random.old.state)) }
    ensures state { OnOk result (random.new.state ≡ behind_start random.old.state) }
{
    match clips(alloc, media, random, 40) {
        Ok(made) => Ok(Items::of(made)),
        Err(error) => Err(error),
    }
}
