//! The schemas.

ghost use Rattle.std.specs.Prelude.{◌≡◌, map};
ghost use Rattle.schema_rows.specs.Rows.{row_of};
ghost use Rattle.schema_rows.specs.Schemas as schemas;

use crate::rows::Field;
use crate::tables::{
    CLIP, CLIP_1, COLLECTION, EFFECT, EXTERNAL, FREEZE, GAP, GENERATOR, IMAGES, MARKER, MARKER_1,
    MISSING, RATIONAL_TIME, STACK, TIME_EFFECT, TIME_RANGE, TIMELINE, TRACK, TRANSITION, WARP,
};

/// A schema that has a table.
#[derive(Clone, Copy, PartialEq, Eq)]
pub enum Schema {
    /// `Timeline.1`
    Timeline,
    /// `SerializableCollection.1`
    Collection,
    /// `Stack.1`
    Stack,
    /// `Track.1`
    Track,
    /// `Clip.2`
    Clip,
    /// `Clip.1`, of the older family. It stands in none of the lists below: an upgrade makes a
    /// `Clip.2` of it before it is read.
    FirstClip,
    /// `Gap.1`
    Gap,
    /// `Transition.1`
    Transition,
    /// `LinearTimeWarp.1`
    Warp,
    /// `FreezeFrame.1`
    Freeze,
    /// `TimeEffect.1`
    TimeEffect,
    /// `Effect.1`
    Effect,
    /// `Marker.2`
    Marker,
    /// `Marker.1`, of the older family. It stands in none of the lists below either.
    FirstMarker,
    /// `ExternalReference.1`
    External,
    /// `MissingReference.1`
    Missing,
    /// `GeneratorReference.1`
    Generator,
    /// `ImageSequenceReference.1`
    Images,
    /// `TimeRange.1`
    TimeRange,
    /// `RationalTime.1`
    RationalTime,
}

impl Schema {
    /// Its name, without the version.
    pub fn name(self) -> &'static str
        ensures { result.now ≡ schemas.name_of self }
    {
        match self {
            Schema::Timeline => "Timeline",
            Schema::Collection => "SerializableCollection",
            Schema::Stack => "Stack",
            Schema::Track => "Track",
            Schema::Clip | Schema::FirstClip => "Clip",
            Schema::Gap => "Gap",
            Schema::Transition => "Transition",
            Schema::Warp => "LinearTimeWarp",
            Schema::Freeze => "FreezeFrame",
            Schema::TimeEffect => "TimeEffect",
            Schema::Effect => "Effect",
            Schema::Marker | Schema::FirstMarker => "Marker",
            Schema::External => "ExternalReference",
            Schema::Missing => "MissingReference",
            Schema::Generator => "GeneratorReference",
            Schema::Images => "ImageSequenceReference",
            Schema::TimeRange => "TimeRange",
            Schema::RationalTime => "RationalTime",
        }
    }

    /// The version of its table.
    pub fn version(self) -> u32
        ensures { result ≡ schemas.version_of self }
    {
        match self {
            Schema::Clip | Schema::Marker => 2,
            _ => 1,
        }
    }

    /// What an object of it is written with: the name, a point and the version.
    pub fn text(self) -> &'static str
        ensures { result.now ≡ schemas.text_of self }
    {
        match self {
            Schema::Timeline => "Timeline.1",
            Schema::Collection => "SerializableCollection.1",
            Schema::Stack => "Stack.1",
            Schema::Track => "Track.1",
            Schema::Clip => "Clip.2",
            Schema::FirstClip => "Clip.1",
            Schema::Gap => "Gap.1",
            Schema::Transition => "Transition.1",
            Schema::Warp => "LinearTimeWarp.1",
            Schema::Freeze => "FreezeFrame.1",
            Schema::TimeEffect => "TimeEffect.1",
            Schema::Effect => "Effect.1",
            Schema::Marker => "Marker.2",
            Schema::FirstMarker => "Marker.1",
            Schema::External => "ExternalReference.1",
            Schema::Missing => "MissingReference.1",
            Schema::Generator => "GeneratorReference.1",
            Schema::Images => "ImageSequenceReference.1",
            Schema::TimeRange => "TimeRange.1",
            Schema::RationalTime => "RationalTime.1",
        }
    }

    /// Its table: the rows of its members, in the order in which they are written.
    pub fn table(self) -> &'static [Field]
        ensures { map row_of result.now ≡ schemas.rows_of self }
    {
        match self {
            Schema::Timeline => &TIMELINE,
            Schema::Collection => &COLLECTION,
            Schema::Stack => &STACK,
            Schema::Track => &TRACK,
            Schema::Clip => &CLIP,
            Schema::FirstClip => &CLIP_1,
            Schema::Gap => &GAP,
            Schema::Transition => &TRANSITION,
            Schema::Warp => &WARP,
            Schema::Freeze => &FREEZE,
            Schema::TimeEffect => &TIME_EFFECT,
            Schema::Effect => &EFFECT,
            Schema::Marker => &MARKER,
            Schema::FirstMarker => &MARKER_1,
            Schema::External => &EXTERNAL,
            Schema::Missing => &MISSING,
            Schema::Generator => &GENERATOR,
            Schema::Images => &IMAGES,
            Schema::TimeRange => &TIME_RANGE,
            Schema::RationalTime => &RATIONAL_TIME,
        }
    }
}

/// The schema of that name among those of a family; `None` exactly where none of them has the name.
pub fn named(family: &[Schema], name: &str) -> Option<Schema>
    ensures { result ≡ schemas.named name.now family.now }
{
    for schema in family {
        if name == schema.name() {
            return Some(*schema);
        }
    }
    None
}

/// The schemas that may stand at the root of a file and in a collection.
pub const ROOTS: [Schema; 7] = [
    Schema::Timeline,
    Schema::Collection,
    Schema::Stack,
    Schema::Track,
    Schema::Clip,
    Schema::Gap,
    Schema::Transition,
];

/// The schemas of items.
pub const ITEMS: [Schema; 5] = [
    Schema::Clip,
    Schema::Gap,
    Schema::Transition,
    Schema::Stack,
    Schema::Track,
];

/// The schema of a timeline's root stack.
pub const STACKS: [Schema; 1] = [Schema::Stack];

/// The schemas of effects.
pub const EFFECTS: [Schema; 4] = [
    Schema::Warp,
    Schema::Freeze,
    Schema::TimeEffect,
    Schema::Effect,
];

/// The schema of markers.
pub const MARKERS: [Schema; 1] = [Schema::Marker];

/// The schemas of media references.
pub const MEDIA: [Schema; 4] = [
    Schema::External,
    Schema::Missing,
    Schema::Generator,
    Schema::Images,
];

/// The schema of ranges of time.
pub const RANGES: [Schema; 1] = [Schema::TimeRange];

/// The schema of times.
pub const TIMES: [Schema; 1] = [Schema::RationalTime];
