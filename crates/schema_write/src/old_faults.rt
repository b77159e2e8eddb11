//! Why an object has no form in the older family.

use otio_model::Place;

/// Why an item has no form in the older family.
#[derive(Clone, Copy, PartialEq, Eq)]
pub enum OldFault {
    /// A clip hasn't exactly one media reference, under `DEFAULT_MEDIA`, or its active key is
    /// another one. `Clip.1` holds one reference and no key.
    Keys,
    /// A clip has another member `media_reference`, or a known marker of the item another member
    /// `range`. The older schemas use these names.
    Member,
}

/// Why an object wasn't written in the older family. A place is that of the first item, in document
/// order, that has no form there: the indexes that lead to it. The root stack of a timeline has the
/// place of its timeline.
#[derive(Drop)]
pub enum FamilyFault {
    /// The clip at the place hasn't exactly one media reference, under `DEFAULT_MEDIA`, or its
    /// active key is another one.
    Keys(Place),
    /// The clip at the place has another member `media_reference`, or a known marker of the item
    /// there another member `range`.
    Member(Place),
    /// Memory ran out.
    Memory,
}
