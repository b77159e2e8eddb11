//! Items with notes.

ghost use Rattle.std.specs.Prelude.{◌≡◌, ◌≤◌, All, IfOk, true};
ghost use Rattle.edl_list.specs.Formed.{IsEvent};
ghost use Rattle.edl_list.specs.Speeds.{count_of, day_of};
ghost use Rattle.otio_model.specs.declared.compositions.ItemOf.TheVariants as items;
ghost use Rattle.note_text.specs.Belonging.{does_count};
ghost use Rattle.note_text.specs.Noted.{IsNotedItem};
ghost use Rattle.edl_notes.specs.Steps.{said_by};

use crate::colors::put_colors;
use crate::markers::put_markers;
use edl_list::Event;
use note_text::Note;
use otio_model::{Clip, Gap, Item, ItemOf};
use std::alloc::{AllocError, Global};
use tick_time::Rate;

/// The item of an event with the event's notes.
pub(crate) fn noted_item(
    alloc: Global,
    item: Item,
    event: &Event,
    rate: Rate,
    notes: &[&Note],
) -> Result<Item, AllocError>
    requires timecode { 1 ≤ count_of rate }
    requires event { IsEvent (day_of rate) event.now }
    requires counts { All (λ said. does_count rate event.now said ≡ true) (said_by notes.now) }
    ensures { IfOk result (IsNotedItem rate event.now (said_by notes.now) item) }
{
    match item {
        ItemOf::Clip(clip) => Ok(ItemOf::Clip(noted_clip(alloc, clip, event, rate, notes)?)),
        ItemOf::Gap(gap) => Ok(ItemOf::Gap(noted_gap(alloc, gap, event, rate, notes)?)),
        ItemOf::Transition(transition) => Ok(ItemOf::Transition(transition)),
        ItemOf::Stack(stack) => Ok(ItemOf::Stack(stack)),
        ItemOf::Track(track) => Ok(ItemOf::Track(track)),
    }
}

// The clip of an event with the event's notes.
fn noted_clip(
    alloc: Global,
    clip: Clip,
    event: &Event,
    rate: Rate,
    notes: &[&Note],
) -> Result<Clip, AllocError>
    requires timecode { 1 ≤ count_of rate }
    requires event { IsEvent (day_of rate) event.now }
    requires counts { All (λ said. does_count rate event.now said ≡ true) (said_by notes.now) }
    ensures { IfOk result (λ made.
        IsNotedItem rate event.now (said_by notes.now) (items.Clip clip) (items.Clip made)) }
{
    let mut clip = clip;
    put_markers(alloc, &mut clip.markers, event, rate, notes)?;
    put_colors(alloc, &mut clip.metadata, notes)?;
    Ok(clip)
}

// The gap of an event with the event's notes.
fn noted_gap(
    alloc: Global,
    gap: Gap,
    event: &Event,
    rate: Rate,
    notes: &[&Note],
) -> Result<Gap, AllocError>
    requires timecode { 1 ≤ count_of rate }
    requires event { IsEvent (day_of rate) event.now }
    requires counts { All (λ said. does_count rate event.now said ≡ true) (said_by notes.now) }
    ensures { IfOk result (λ made.
        IsNotedItem rate event.now (said_by notes.now) (items.Gap gap) (items.Gap made)) }
{
    let mut gap = gap;
    put_markers(alloc, &mut gap.markers, event, rate, notes)?;
    put_colors(alloc, &mut gap.metadata, notes)?;
    Ok(gap)
}
