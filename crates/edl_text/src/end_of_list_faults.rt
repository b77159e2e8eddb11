//! The faults that show at the end of a list.

ghost use Rattle.std.specs.Prelude.{◌≡◌, All, AllPairs, IfOk, MatchBool, MatchOption};
ghost use Rattle.edl_list.specs.Formed.{AreApart};
ghost use Rattle.edl_text.specs.Overlaps.{AreRead};
ghost use Rattle.edl_text.specs.Late.{IsUnequal, AreFine, IsLateFault};
ghost use Rattle.edl_text.specs.StateLate.{IsEven, IsEqual, IsFirstUnequal, late_of as late_by};

use crate::faults::EdlFault;
use crate::overlap::first_overlap;
use edl_list::Event;
use std::alloc::{AllocError, Global};

// Whether the source is as long as the record.
fn is_even(event: &Event) -> bool
    ensures { MatchBool result (IsEven event.now) (IsEven event.now → ⊥) }
{
    let source = i128::from(event.to.src_out) - i128::from(event.to.src_in);
    let record = i128::from(event.rec_out) - i128::from(event.rec_in);
    source == record
}

// Whether source and record length differ, and the side that is shown has no M2 line.
fn is_unequal(event: &Event) -> bool
    ensures { MatchBool result (IsUnequal event.now) (IsEqual event.now) }
{
    match event.to.speed {
        Some(_) => false,
        None => !is_even(event),
    }
}

// The line of the first event that is unequal.
fn first_unequal(events: &[Event]) -> Option<u32>
    ensures { MatchOption result (All IsEqual events.now) (IsFirstUnequal events.now) }
{
    'events: for event in events {
        if is_unequal(event) {
            return Some(event.line);
        }
    }
    None
}

// The fault of the lesser of two lines, on one line that of unequal lengths.
fn late_of(unequal: Option<u32>, overlap: Option<u32>) -> Option<EdlFault>
    ensures { result ≡ late_by unequal overlap }
{
    match (unequal, overlap) {
        (None, None) => None,
        (Some(line), None) => Some(EdlFault::Unequal(line)),
        (None, Some(line)) => Some(EdlFault::Overlap(line)),
        (Some(unequal), Some(overlap)) => {
            if overlap < unequal {
                Some(EdlFault::Overlap(overlap))
            } else {
                Some(EdlFault::Unequal(unequal))
            }
        }
    }
}

/// The first fault of events that come in the order of their lines.
pub(crate) fn late_fault(alloc: Global, events: &[Event]) -> Result<Option<EdlFault>, AllocError>
    ensures fine { AreRead events.now → IfOk result
        (λ late. MatchOption late (AreFine events.now) (IsLateFault events.now)) }
    ensures apart { AreRead events.now → IfOk result
        (λ late. MatchOption late (AllPairs AreApart events.now) (λ fault. Unit {0})) }
{
    let overlap = first_overlap(alloc, events)?;
    Ok(late_of(first_unequal(events), overlap))
}
