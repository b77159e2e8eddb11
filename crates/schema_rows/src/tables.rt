//! The table of each schema: its rows in the order in which they are written. `Schema::table` has
//! what they hold, and `specs/Rows.antt` says each table once more, in the same words.

use crate::rows::{Field, Kind};

/// A speed of 1, in millionths.
const ONE: i64 = 1_000_000;

/// A row whose member may be absent.
macro_rules! optional {
    ($name:literal, $kind:expr) => {
        Field {
            name: $name,
            kind: $kind,
            need: false,
        }
    };
}

/// A row whose member is needed.
macro_rules! needed {
    ($name:literal, $kind:expr) => {
        Field {
            name: $name,
            kind: $kind,
            need: true,
        }
    };
}

/// The rows of an object that has a name: those that all have, and then its own.
macro_rules! named_rows {
    ($($own:expr),*) => {
        [
            optional!("metadata", Kind::Meta),
            optional!("name", Kind::Text("")),
            $($own),*
        ]
    };
}

/// The rows of an item.
macro_rules! item_rows {
    ($($own:expr),*) => {
        named_rows![
            optional!("source_range", Kind::Span),
            optional!("effects", Kind::Effects),
            optional!("markers", Kind::Markers),
            optional!("enabled", Kind::Flag)
            $(, $own)*
        ]
    };
}

/// The rows of an effect.
macro_rules! effect_rows {
    ($($own:expr),*) => {
        named_rows![optional!("effect_name", Kind::Text("")) $(, $own)*]
    };
}

/// The rows of a media reference.
macro_rules! media_rows {
    ($($own:expr),*) => {
        named_rows![optional!("available_range", Kind::Span) $(, $own)*]
    };
}

/// The rows of `Timeline.1`.
pub(crate) static TIMELINE: [Field; 4] = named_rows![
    optional!("global_start_time", Kind::Time),
    optional!("tracks", Kind::Stack)
];

/// The rows of `SerializableCollection.1`.
pub(crate) static COLLECTION: [Field; 3] = named_rows![optional!("children", Kind::Objects)];

/// The rows of `Stack.1`.
pub(crate) static STACK: [Field; 7] = item_rows![optional!("children", Kind::Items)];

/// The rows of `Track.1`.
pub(crate) static TRACK: [Field; 8] = item_rows![
    optional!("children", Kind::Items),
    optional!("kind", Kind::Text("Video"))
];

/// The rows of `Clip.2`.
pub(crate) static CLIP: [Field; 8] = item_rows![
    optional!("media_references", Kind::Media),
    optional!("active_media_reference_key", Kind::Text("DEFAULT_MEDIA"))
];

/// The rows of `Clip.1`.
pub(crate) static CLIP_1: [Field; 7] = item_rows![optional!("media_reference", Kind::Medium)];

/// The rows of `Gap.1`.
pub(crate) static GAP: [Field; 6] = item_rows![];

/// The rows of `Transition.1`.
pub(crate) static TRANSITION: [Field; 5] = named_rows![
    optional!("transition_type", Kind::Text("SMPTE_Dissolve")),
    optional!("in_offset", Kind::Time),
    optional!("out_offset", Kind::Time)
];

/// The rows of `LinearTimeWarp.1`.
pub(crate) static WARP: [Field; 4] = effect_rows![optional!("time_scalar", Kind::Number(ONE))];

/// The rows of `FreezeFrame.1`.
pub(crate) static FREEZE: [Field; 4] = effect_rows![optional!("time_scalar", Kind::Number(0))];

/// The rows of `TimeEffect.1`.
pub(crate) static TIME_EFFECT: [Field; 3] = effect_rows![];

/// The rows of `Effect.1`.
pub(crate) static EFFECT: [Field; 3] = effect_rows![];

/// The rows of `Marker.2`.
pub(crate) static MARKER: [Field; 3] = named_rows![optional!("marked_range", Kind::Span)];

/// The rows of `Marker.1`.
pub(crate) static MARKER_1: [Field; 3] = named_rows![optional!("range", Kind::Span)];

/// The rows of `ExternalReference.1`.
pub(crate) static EXTERNAL: [Field; 4] = media_rows![optional!("target_url", Kind::Text(""))];

/// The rows of `MissingReference.1`.
pub(crate) static MISSING: [Field; 3] = media_rows![];

/// The rows of `GeneratorReference.1`.
pub(crate) static GENERATOR: [Field; 4] = media_rows![optional!("generator_kind", Kind::Text(""))];

/// The rows of `ImageSequenceReference.1`.
pub(crate) static IMAGES: [Field; 6] = media_rows![
    optional!("target_url_base", Kind::Text("")),
    optional!("name_prefix", Kind::Text("")),
    optional!("name_suffix", Kind::Text(""))
];

/// The rows of `TimeRange.1`.
pub(crate) static TIME_RANGE: [Field; 2] = [
    needed!("duration", Kind::Time),
    needed!("start_time", Kind::Time),
];

/// The rows of `RationalTime.1`.
pub(crate) static RATIONAL_TIME: [Field; 2] = [
    needed!("rate", Kind::Rate),
    needed!("value", Kind::Numeral),
];
