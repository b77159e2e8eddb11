//! Notes in the order of their events.

ghost use Rattle.std.specs.Prelude.{◌≡◌, ◌==◌, IfOk, filter};
ghost use Rattle.std.specs.List.Sorted.{IsNonDecreasingBy};
ghost use Rattle.note_text.specs.Belonging.{HaveSameOwn};
ghost use Rattle.edl_notes.specs.Steps.{notes_at};

use note_text::Note;
use std::alloc::{AllocError, Global};

/// The notes in the order of their events, those of one event in their own order.
pub(crate) fn by_event<'a>(alloc: Global, notes: &'a [Note]) -> Result<Vec<&'a Note>, AllocError>
    ensures rising { IfOk result (λ order.
        IsNonDecreasingBy (λ note. note.now.event) order.items) }
    ensures same { IfOk result (λ order. HaveSameOwn notes.now (notes_at order.items)) }
{
    let mut order = Vec::with_capacity(alloc, notes.len())?;
    'notes: for note in notes {
        order.push(note)?;
    }
    order.sort_by_key(|note| note.event)?;
    Ok(order)
}

/// The notes of the event at a place.
pub(crate) fn own<'a, 'b>(notes: &'b [&'a Note], event: usize) -> &'b [&'a Note]
    requires { IsNonDecreasingBy (λ note. note.now.event) notes.now }
    ensures { result.now ≡ filter (λ note. note.now.event == event) notes.now }
{
    let from = notes.partition_point(|note| note.event < event);
    let rest = &notes[from..];
    let to = rest.partition_point(|note| note.event <= event);
    &rest[..to]
}
