//! What is said of a place.

ghost use Rattle.std.specs.Prelude.{◌≡◌, [], ◌∷◌, Some, IfOk};
ghost use Rattle.edl_conform.specs.Walk.{IsSaid};

use edl_frames::{NotCarried, Why};
use otio_model::Place;
use std::alloc::{AllocError, Global};

/// What is said of the timeline itself.
pub(crate) fn at_root(alloc: Global, why: Why) -> NotCarried
    ensures { IsSaid (Some ([], why)) result }
{
    NotCarried::At {
        place: Place::new(alloc),
        why,
    }
}

// The place of a root child.
fn track_place(alloc: Global, track: u32) -> Result<Place, AllocError>
    ensures { IfOk result (λ place. place ≡ track ∷ []) }
{
    let mut place = Place::new(alloc);
    place.push(track)?;
    Ok(place)
}

/// The place of a child of a track.
pub(crate) fn child_place(alloc: Global, track: u32, child: u32) -> Result<Place, AllocError>
    ensures { IfOk result (λ place. place ≡ track ∷ child ∷ []) }
{
    let mut place = track_place(alloc, track)?;
    place.push(child)?;
    Ok(place)
}

/// What is said of a root child.
pub(crate) fn at_track(alloc: Global, track: u32, why: Why) -> NotCarried
    ensures { IsSaid (Some (track ∷ [], why)) result }
{
    match track_place(alloc, track) {
        Ok(place) => NotCarried::At { place, why },
        Err(_) => NotCarried::Memory,
    }
}

/// What is said of a child of a track.
pub(crate) fn at_child(alloc: Global, track: u32, child: u32, why: Why) -> NotCarried
    ensures { IsSaid (Some (track ∷ child ∷ [], why)) result }
{
    match child_place(alloc, track, child) {
        Ok(place) => NotCarried::At { place, why },
        Err(_) => NotCarried::Memory,
    }
}
