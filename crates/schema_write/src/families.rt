//! Families of schemas.

ghost use Rattle.std.specs.Prelude.{◌≡◌};
ghost use Rattle.schema_write.specs.Written.{newer_of};

use schema_rows::Schema;

/// A family of schemas, by the versions of clips and markers (OpenTimelineIO's schema pages). All
/// other schemas are the same in both.
#[derive(Clone, Copy, PartialEq, Eq)]
pub enum Family {
    /// `Clip.1` and `Marker.1`.
    Old,
    /// `Clip.2` and `Marker.2`.
    New,
}

/// The newer schema of the same name: an upgrade makes an object of it of a `Clip.1` or a
/// `Marker.1`. Any other schema is its own.
pub fn newer(schema: Schema) -> Schema
    ensures { result ≡ newer_of schema }
{
    match schema {
        Schema::FirstClip => Schema::Clip,
        Schema::FirstMarker => Schema::Marker,
        other => other,
    }
}
