// The labels of an event, whether they are below the day, and whether reels stand in their columns.
ghost use Rattle.std.specs.Prelude.{◌≡◌, ◌↔◌, IsTrue, IfSome};
ghost use Rattle.edl_list.specs.Formed.{IsFrame, IsEvent, IsWellFormed};
ghost use Rattle.edl_list.specs.Speeds.{day_of};
ghost use Rattle.edl_list.specs.Labelled.{outgoing, IsLabelled, IsBelowDay};
ghost use Rattle.edl_list.specs.Layouts.{FitsReel, FitsEvent};
ghost use Rattle.edl_text.specs.Columns.{label_text};
ghost use Rattle.edl_text.specs.Labelled.{IsFirstPast};
ghost use Rattle.edl_text.specs.Wide.{IsFirstWide};

use crate::columns::fits_reel;
use edl_list::{Cross, Event, EventList, Layout};
use smpte_tc::label;
use tick_time::Rate;

/// The label of a frame number of the day at a rate, with drop-frame or without (SMPTE ST 12-1).
pub fn label_of(n: i64, rate: Rate, drop: bool) -> [u8; 11]
    requires { IsBelowDay rate drop n }
    ensures { result ≡ label_text rate drop n }
{
    label(n, rate, drop).unwrap()
}

// Whether the frame number is one of the day.
fn is_below_day(n: i64, rate: Rate, drop: bool) -> bool
    ensures { IsTrue result ↔ IsBelowDay rate drop n }
{
    match label(n, rate, drop) {
        Ok(_) => true,
        Err(_) => false,
    }
}

// Whether the label of the outgoing side of an event that begins in this way is below the day.
#[tactic(auto, using(crate::proofs::Days::test_kept))]
fn is_source_below_day(cross: &Cross, rate: Rate, drop: bool) -> bool
    requires { IfSome (outgoing cross.now) (λ from. IsFrame (day_of rate) from.src_in) }
    ensures { IsTrue result ↔ IfSome (outgoing cross.now)
        (λ from. IsBelowDay rate drop from.src_in) }
{
    match cross {
        Cross::Cut => true,
        Cross::Dissolve { from, .. } => is_below_day(from.get().src_in, rate, drop),
        Cross::Wipe { from, .. } => is_below_day(from.get().src_in, rate, drop),
    }
}

// Whether each label of the event is below the day.
#[tactic(auto, using(crate::proofs::Days::test_kept))]
fn is_labelled(event: &Event, rate: Rate, drop: bool) -> bool
    requires { IsEvent (day_of rate) event.now }
    ensures { IsTrue result ↔ IsLabelled rate drop event.now }
{
    if !is_source_below_day(&event.cross, rate, drop) {
        return false;
    }
    if !is_below_day(event.to.src_in, rate, drop) {
        return false;
    }
    if !is_below_day(event.to.src_out, rate, drop) {
        return false;
    }
    if !is_below_day(event.rec_in, rate, drop) {
        return false;
    }
    is_below_day(event.rec_out, rate, drop)
}

/// The line of the first event, in the order of the list, that has a label past the day where the
/// list is written in this mode; none where each label that is written is below the day. A label is
/// below the day where [`smpte_tc::label`] takes its frame number at the list's rate in the mode.
pub fn first_label_past_day(list: &EventList, drop: bool) -> Option<u32>
    requires { IsWellFormed list.now }
    ensures { IsFirstPast list.now.rate drop list.now.events result }
{
    for event in list.events.as_slice() {
        if !is_labelled(event, list.rate, drop) {
            return Some(event.line);
        }
    }
    None
}

// Whether the reel of the outgoing side of an event that begins in this way stands in its column.
fn fits_source(cross: &Cross, layout: Layout) -> bool
    ensures { IsTrue result ↔ IfSome (outgoing cross.now)
        (λ from. FitsReel layout from.reel) }
{
    match cross {
        Cross::Cut => true,
        Cross::Dissolve { from, .. } => fits_reel(&from.get().reel, layout),
        Cross::Wipe { from, .. } => fits_reel(&from.get().reel, layout),
    }
}

// Whether the reels of both sides of the event stand in their columns.
fn fits_event(event: &Event, layout: Layout) -> bool
    ensures { IsTrue result ↔ FitsEvent layout event.now }
{
    if !fits_reel(&event.to.reel, layout) {
        return false;
    }
    fits_source(&event.cross, layout)
}

/// The line of the first event, in the order of the list, of which a side has a reel of more than
/// eight bytes, so that the narrow layout has no column for it; none where the reel of each side
/// stands in the eight columns of that layout.
pub fn first_wide_reel(list: &EventList) -> Option<u32>
    ensures { IsFirstWide list.now.events result }
{
    let layout = Layout::of(false);
    for event in list.events.as_slice() {
        if !fits_event(event, layout) {
            return Some(event.line);
        }
    }
    None
}
