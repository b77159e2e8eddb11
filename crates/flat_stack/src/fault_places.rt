//! Places at which something is wrong.

ghost use Rattle.std.specs.Prelude.{◌≡◌, IfOk, None};
ghost use Rattle.flat_stack.specs.Spots.{IsNear, IsSaid, spot_place};

use flat::{Cause, FlatFault};
use otio_model::Place;
use std::alloc::{AllocError, Global};

/// What is wrong, and at which root child or child of one.
#[derive(Clone, Copy)]
pub struct Spot {
    /// What is wrong.
    pub cause: Cause,
    /// The index of the root child.
    pub track: usize,
    /// The index of its child; `None` for the root child itself.
    pub child: Option<usize>,
}

/// A root child of an index that isn't what it has to be, itself.
pub(crate) fn nested(track: usize) -> Spot
    ensures { result ≡ record { cause = Cause.Nested; track = track; child = None } }
{
    Spot {
        cause: Cause::Nested,
        track,
        child: None,
    }
}

// The place of a spot.
fn place_of(alloc: Global, spot: Spot) -> Result<Place, AllocError>
    requires { IsNear spot }
    ensures { IfOk result (λ place. place ≡ spot_place spot) }
{
    let mut place = Place::new(alloc);
    place.push(spot.track as u32)?;
    match spot.child {
        Some(child) => {
            place.push(child as u32)?;
            Ok(place)
        }
        None => Ok(place),
    }
}

/// The fault at a spot, or [`FlatFault::Memory`] where memory runs out.
pub fn fault_of(alloc: Global, spot: Spot) -> FlatFault
    requires { IsNear spot }
    ensures { IsSaid spot result }
{
    match place_of(alloc, spot) {
        Ok(place) => match spot.cause {
            Cause::Nested => FlatFault::Nested(place),
            Cause::Crossing => FlatFault::Transition(place),
            Cause::Phase => FlatFault::Phase(place),
        },
        Err(_) => FlatFault::Memory,
    }
}
