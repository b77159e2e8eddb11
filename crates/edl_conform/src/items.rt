//! The items that events stand for.

ghost use Rattle.std.specs.Prelude.{◌≡◌, ◌≤◌, ◌≤ℤ◌, ◌*ℤ◌, pos, IfOk, IfSome, [], ◌∷◌, codes};
ghost use Rattle.std.specs.Prelude.{unsigned_abs, unwrap_or};
ghost use Rattle.std.specs.Option.{option_copied};
ghost use Rattle.tick_time.specs.Rates.{frame};
ghost use Rattle.tick_time.specs.Times.{IsInRange};
ghost use Rattle.media_rows.specs.Rows as rows;
ghost use Rattle.media_rows.specs.Rows.{IsRowInRange};
ghost use Rattle.edl_list.specs.Speeds.{count_of};
ghost use Rattle.edl_law.specs.Fits.{FitsSide};
ghost use Rattle.edl_frames.specs.Conformed.{IsClip, IsGap, IsReference, IsTransition, TellsReel};
ghost use Rattle.edl_frames.specs.Conformed.{effects_at, still as a_still, warp as a_warp};

use crate::reel_rows::{ListMedia, row_of};
use crate::times::span;
use edl_list::{OWN_SPEED, Side, side_speed};
use json_value::{Json, Members};
use media_rows::MediaRow;
use otio_model::{
    Clip, Effect, Effects, External, Freeze, Gap, Item, ItemOf, Markers, Media, MediaMap, Metadata,
    Missing, Transition, Warp,
};
use owned::Owned;
use sequences::{NamedValues, Text};
use std::alloc::{AllocError, Global};
use tick_time::{Rate, Scalar, Time};

/// A gap of so many frames.
pub(crate) fn gap_of(alloc: Global, rate: Rate, count: i64) -> Item
    requires count { pos 0 ≤ℤ count }
    requires lasts { IsInRange (count *ℤ pos (frame rate.num rate.den)) }
    ensures { IsGap rate count result }
{
    ItemOf::Gap(Gap {
        metadata: Metadata::new(alloc),
        name: Text::empty(),
        source_range: Some(span(0, count, rate)),
        effects: Effects::new(alloc),
        markers: Markers::new(alloc),
        enabled: true,
        rest: Members::new(alloc),
    })
}

/// The transition of a type, over so many frames after its cut.
pub(crate) fn transition_of(alloc: Global, rate: Rate, kind: Text, count: u16) -> Item
    requires lasts { IsInRange (pos count *ℤ pos (frame rate.num rate.den)) }
    ensures { IsTransition rate kind count result }
{
    ItemOf::Transition(Transition {
        metadata: Metadata::new(alloc),
        name: Text::empty(),
        transition_type: kind,
        in_offset: Some(Time::of_frames(0, rate)),
        out_offset: Some(Time::of_frames(i64::from(count), rate)),
        rest: Members::new(alloc),
    })
}

// The metadata that tell of a reel.
fn reel_metadata(alloc: Global, reel: &Text) -> Result<Metadata, AllocError>
    ensures { IfOk result (TellsReel reel.now) }
{
    let text = Text::of(alloc, reel.as_str())?;
    let inner = NamedValues::one(alloc, "reel", Json::Str(text))?;
    let members = NamedValues::one(alloc, "cmx_3600", Json::Map(Owned::of(alloc, inner)?))?;
    Ok(Metadata::of(members))
}

// A still.
fn still(alloc: Global) -> Result<Effect, AllocError>
    ensures { IfOk result (λ effect. effect ≡ a_still) }
{
    let freeze = Freeze {
        metadata: Members::new(alloc),
        name: Text::empty(),
        effect_name: Text::empty(),
        time_scalar: Scalar(0),
        rest: Members::new(alloc),
    };
    Ok(Effect::Freeze(Owned::of(alloc, freeze)?))
}

// A change to a speed in millionths.
fn warp(alloc: Global, speed: i64) -> Result<Effect, AllocError>
    requires low { pos 0 ≤ℤ speed }
    requires high { speed ≤ℤ pos 1000000000 }
    ensures { IfOk result (λ effect. effect ≡ a_warp (unsigned_abs speed)) }
{
    let warp = Warp {
        metadata: Members::new(alloc),
        name: Text::empty(),
        effect_name: Text::empty(),
        time_scalar: Scalar(speed),
        rest: Members::new(alloc),
    };
    Ok(Effect::Warp(Owned::of(alloc, warp)?))
}

// One effect, in memory for no more.
fn one_effect(alloc: Global, effect: Effect) -> Result<Effects, AllocError>
    ensures { IfOk result (λ effects. effects ≡ effect ∷ []) }
{
    let mut list = Vec::with_capacity(alloc, 1)?;
    list.push(effect)?;
    Ok(Effects::of(list))
}

// What a speed in millionths wants of effects: nothing at the rate's own speed, a still at 0, else
// a change of speed.
fn effects_of(alloc: Global, speed: i64) -> Result<Effects, AllocError>
    requires low { pos 0 ≤ℤ speed }
    requires high { speed ≤ℤ pos 1000000000 }
    ensures { IfOk result (λ effects. effects ≡ effects_at (unsigned_abs speed)) }
{
    if speed == OWN_SPEED {
        return Ok(Effects::new(alloc));
    }
    if speed == 0 {
        return one_effect(alloc, still(alloc)?);
    }
    one_effect(alloc, warp(alloc, speed)?)
}

// The media of a reel: what the row lists, or none that are known.
fn reference_of(alloc: Global, row: Option<&MediaRow>) -> Result<Media, AllocError>
    requires { IfSome row (λ r. IsRowInRange r.now) }
    ensures { IfOk result (IsReference (option_copied row.entry)) }
{
    match row {
        Some(row) => Ok(Media::External(External {
            metadata: Members::new(alloc),
            name: Text::empty(),
            available_range: Some(span(row.start, row.count, row.rate)),
            target_url: Text::of(alloc, row.url.as_str())?,
            rest: Members::new(alloc),
        })),
        None => Ok(Media::Missing(Missing {
            metadata: Members::new(alloc),
            name: Text::empty(),
            available_range: None,
            rest: Members::new(alloc),
        })),
    }
}

// The name of a side's clip: that of its note, else its reel.
fn name_of(alloc: Global, side: &Side, reel: &Text) -> Result<Text, AllocError>
    ensures { IfOk result (λ name. name ≡ unwrap_or side.now.name reel.now) }
{
    match &side.name {
        Some(name) => Text::of(alloc, name.as_str()),
        None => Text::of(alloc, reel.as_str()),
    }
}

// The reference to the media of a reel under the key that is used.
fn references_of(alloc: Global, reference: Media) -> Result<MediaMap, AllocError>
    ensures { IfOk result (λ map. map ≡ (codes "DEFAULT_MEDIA", reference) ∷ []) }
{
    MediaMap::one(alloc, "DEFAULT_MEDIA", reference)
}

/// The clip of a side of a reel, so many frames of the record long.
pub(crate) fn clip_of(
    alloc: Global,
    media: &ListMedia<'_>,
    side: &Side,
    reel: &Text,
    count: i64,
) -> Result<Item, AllocError>
    requires timecode { 1 ≤ count_of media.now.rate }
    requires side { FitsSide media.now.rate side.now }
    requires count { pos 0 ≤ℤ count }
    requires lasts { IsInRange (count *ℤ pos (frame media.now.rate.num media.now.rate.den)) }
    ensures { IfOk result (IsClip media.now.rate
        (rows.row_of (option_copied media.now.rows) reel.now) side.now reel.now count) }
{
    let metadata = reel_metadata(alloc, reel)?;
    let name = name_of(alloc, side, reel)?;
    let effects = effects_of(alloc, side_speed(media.rate, side))?;
    let reference = reference_of(alloc, row_of(media.rows, reel))?;
    let media_references = references_of(alloc, reference)?;
    let key = Text::of(alloc, "DEFAULT_MEDIA")?;
    Ok(ItemOf::Clip(Clip {
        metadata,
        name,
        source_range: Some(span(side.src_in, count, media.rate)),
        effects,
        markers: Markers::new(alloc),
        enabled: true,
        media_references,
        active_media_reference_key: key,
        rest: Members::new(alloc),
    }))
}
