//! What may be wrong with a timeline.

use otio_model::Place;

/// What is wrong with one item.
#[derive(Clone, Copy, PartialEq, Eq)]
pub enum ItemFault {
    /// It has no length.
    NoLength,
    /// Its speed passes 1000 either way after some effect.
    Speed,
    /// It passes a million seconds: in its length, in what is available, or where it ends in its
    /// media.
    Long,
}

/// What is wrong with a timeline.
#[derive(Drop)]
pub enum CoordFault {
    /// `global_start_time` lies on no frame of its rate.
    StartOffFrame,
    /// The item at the place has no length.
    NoLength(Place),
    /// The speed of the item at the place passes 1000 either way after some effect.
    Speed(Place),
    /// The item at the place passes a million seconds: in its length, in what is available, or
    /// where it ends in its media.
    Long(Place),
    /// Memory ran out.
    Memory,
}
