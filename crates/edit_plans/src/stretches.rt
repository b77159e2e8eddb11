//! The children that a zone touches, as one stretch.

ghost use Rattle.std.specs.Prelude.{◌≡◌, ◌<◌, ◌^◌, pos, ◌≤ℤ◌, ◌-ℤ◌};
ghost use Rattle.otio_model.specs.Counts.{count};
ghost use Rattle.otio_model.specs.Trees.{items_of};
ghost use Rattle.pieces.specs.Short.{AreCuttable};
ghost use Rattle.edit_plans.specs.Touched.{AreTouched};

use crate::replaced_children::{Stretch, Zone};
use crate::touched_children::{ahead, touched};
use otio_model::Children;

// An instant as seen from another one before it.
fn less(instant: i128, start: i128) -> i128
    requires low { pos 0 ≤ℤ start }
    requires high { start ≤ℤ instant }
    ensures value { result ≡ instant -ℤ start }
    ensures low { pos 0 ≤ℤ result }
{
    instant - start
}

// A zone as seen from an instant that isn't after its start.
fn zone_from(zone: Zone, start: i128) -> Zone
    requires low { pos 0 ≤ℤ start }
    requires high { start ≤ℤ zone.from }
    ensures from { result.from ≡ zone.from -ℤ start }
    ensures to { result.to ≡ zone.to -ℤ start }
{
    Zone {
        from: less(zone.from, start),
        to: less(zone.to, start),
    }
}

/// The children that a zone touches, and the zone as seen from where the first of them starts.
pub(crate) fn touched_stretch(children: &Children, zone: Zone) -> (Stretch, Zone)
    requires few { count children.now < 2 ^ 32 }
    requires faultless { AreCuttable (items_of children.now) }
    ensures { AreTouched (items_of children.now) zone result.0 result.1 }
{
    let first = ahead(children, zone.from, zone.to);
    let count = touched(children, first, zone.from, zone.to);
    let stretch = Stretch {
        at: first.count,
        count,
    };
    (stretch, zone_from(zone, first.ticks))
}
