//! What a JSON value is refused for.

ghost use Rattle.std.specs.Prelude.{◌≡◌};
ghost use Rattle.schema_rows.specs.declared.faults.SchemaFault.TheVariants.{Memory};

use otio_model::Place;
use sequences::Text;
use std::alloc::{AllocError, AllocFailed};

/// Why a JSON value represents no object. A place is that of the nearest object that has one: an
/// effect, a marker, a medium and a time are at the place of their item.
#[derive(Drop)]
pub enum SchemaFault {
    /// S1: not an object, or its `OTIO_SCHEMA` isn't a name without points, a point and a version
    /// of 1 to 9 digits.
    NotObject(Place),
    /// S2: an object of a schema that may not stand there.
    UnknownChild(Place),
    /// S3: a known schema with a version above the table's.
    Newer(Place),
    /// S4: a member that is needed and absent, or of the wrong kind, and its name.
    Field(Place, Text),
    /// S5: a rate outside the profile.
    Rate(Place),
    /// S6: a time out of range, a numeral with too many digits, or a negative duration.
    Range(Place),
    /// S7: two transitions side by side in a track, one in a stack, or a transition with a negative
    /// offset.
    Transitions(Place),
    /// G1: more than 100 000 items.
    Items,
    /// Memory ran out.
    Memory,
}

impl From<AllocError> for SchemaFault {
    ghost from_gives = { λ _ fault. fault ≡ Memory };

    fn from(_error: AllocError) -> SchemaFault {
        SchemaFault::Memory
    }
}

impl<T: Drop> From<AllocFailed<T>> for SchemaFault {
    ghost from_gives = { λ _ fault. fault ≡ Memory };

    fn from(_error: AllocFailed<T>) -> SchemaFault {
        SchemaFault::Memory
    }
}
