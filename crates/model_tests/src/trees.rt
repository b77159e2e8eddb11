//! Small timelines and their parts, for tests.

ghost use Rattle.std.specs.Prelude.{◌≡◌, ◌+◌, IfOk};
ghost use Rattle.otio_model.specs.Counts.{count, count_of};

use otio_model::{
    Children, Clip, Effect, Effects, Gap, Item, ItemOf, Items, Markers, MediaMap, Metadata, Stack,
    StackOf, Timeline, TrackOf, Warp, copy_item,
};
use owned::Owned;
use sequences::{NamedValues, Text};
use std::alloc::{AllocError, Global};
use tick_time::{Decimal, Rate, Scalar, Span, Time};

/// A frame at 24 frames a second, in ticks.
pub const FRAME: i128 = 29_400_000_000_000_000;

/// 24 frames a second.
pub fn rate_24() -> Option<Rate> {
    let decimal = Decimal {
        digits: 24,
        exp: 0,
        neg: false,
    };
    Rate::of(&decimal).ok()
}

/// 25 frames a second.
pub fn rate_25() -> Option<Rate> {
    let decimal = Decimal {
        digits: 25,
        exp: 0,
        neg: false,
    };
    Rate::of(&decimal).ok()
}

/// So many frames.
pub fn frames(count: i64, rate: Option<Rate>) -> Option<Time> {
    Time::frames(count, rate?).ok()
}

/// So many frames from a frame on.
pub fn span_at(start: i64, len: i64, rate: Option<Rate>) -> Option<Span> {
    let start = frames(start, rate)?;
    let len = frames(len, rate)?;
    if len.ticks < 0 {
        return None;
    }
    Some(Span { start, len })
}

/// So many frames at 24 frames a second, from one on.
pub fn span(start: i64, len: i64) -> Option<Span> {
    span_at(start, len, rate_24())
}

/// A clip of this name, with these media and effects, that uses the media of no key.
pub fn played(
    alloc: Global,
    name: Text,
    source_range: Option<Span>,
    media_references: MediaMap,
    effects: Effects,
) -> Clip {
    Clip {
        name,
        source_range,
        effects,
        media_references,
        enabled: true,
        active_media_reference_key: Text::empty(),
        markers: Markers::new(alloc),
        metadata: Metadata::new(alloc),
        rest: NamedValues::new(alloc),
    }
}

/// A gap with no name, of this range.
pub fn gap(alloc: Global, source_range: Option<Span>) -> Item
    ensures { count_of result ≡ 1 }
{
    ItemOf::Gap(Gap {
        source_range,
        name: Text::empty(),
        enabled: true,
        markers: Markers::new(alloc),
        effects: Effects::new(alloc),
        rest: NamedValues::new(alloc),
        metadata: Metadata::new(alloc),
    })
}

/// The copy of an item, once that is made.
pub fn copied(alloc: Global, made: Result<Item, AllocError>) -> Result<Item, AllocError> {
    let item = made?;
    let copy = copy_item(alloc, &item);
    drop(item);
    copy
}

/// A change of speed.
pub fn warp(alloc: Global, time_scalar: Scalar) -> Result<Effect, AllocError> {
    let warp = Warp {
        time_scalar,
        metadata: NamedValues::new(alloc),
        name: Text::empty(),
        effect_name: Text::empty(),
        rest: NamedValues::new(alloc),
    };
    Ok(Effect::Warp(Owned::of(alloc, warp)?))
}

/// Two changes of speed, one after the other.
pub fn warps(alloc: Global, first: Scalar, second: Scalar) -> Result<Effects, AllocError> {
    let first = warp(alloc, first)?;
    let list = vec![in alloc; first, warp(alloc, second)?]?;
    Ok(Effects::of(list))
}

/// The children that are one item.
#[tactic(auto, using(coord::proofs::Members::one_counts))]
pub fn one(alloc: Global, item: Item) -> Result<Children, AllocError>
    ensures { IfOk result (λ children. count children ≡ count_of item) }
{
    let mut list = Vec::new(alloc);
    list.push(item)?;
    Children::of(alloc, Items::of(list))
}

/// The children that are two items.
#[tactic(auto, using(crate::proofs::Pairs::two_count))]
pub fn two(alloc: Global, first: Item, second: Item) -> Result<Children, AllocError>
    ensures { IfOk result (λ children. count children ≡ count_of first + count_of second) }
{
    let list = vec![in alloc; first, second]?;
    Children::of(alloc, Items::of(list))
}

/// A track of these children, with no name and no range.
pub fn track(alloc: Global, children: Children) -> Item
    ensures { count_of result ≡ count children + 1 }
{
    ItemOf::Track(TrackOf {
        children,
        source_range: None,
        enabled: true,
        kind: Text::empty(),
        name: Text::empty(),
        effects: Effects::new(alloc),
        markers: Markers::new(alloc),
        metadata: Metadata::new(alloc),
        rest: NamedValues::new(alloc),
    })
}

/// A stack of these children, with no name and no range.
pub fn stack(alloc: Global, children: Children) -> Stack
    ensures { result.children ≡ children }
{
    StackOf {
        children,
        enabled: true,
        source_range: None,
        name: Text::empty(),
        markers: Markers::new(alloc),
        effects: Effects::new(alloc),
        rest: NamedValues::new(alloc),
        metadata: Metadata::new(alloc),
    }
}

/// A timeline of these children of its root.
pub fn timeline_of(alloc: Global, start: Option<Time>, children: Children) -> Timeline
    ensures { result.tracks.children ≡ children }
{
    let metadata = NamedValues::new(alloc);
    let rest = NamedValues::new(alloc);
    let tracks = stack(alloc, children);
    Timeline::of(alloc, metadata, Text::empty(), start, tracks, rest)
}
