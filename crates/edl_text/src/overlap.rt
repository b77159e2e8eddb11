// The first event that overlaps one before it.
ghost use Rattle.std.specs.Prelude.{◌≡◌, ◌↔◌, ◌<ℤ◌, ℕ, AllPairs, IfOk, IfNone, IsTrue, MatchOption};
ghost use Rattle.edl_list.specs.Formed.{AreApart};
ghost use Rattle.edl_text.specs.StateSpans.{AreApartOn, FindsOn, lesser_of};
ghost use Rattle.edl_text.specs.Overlaps.{AreRead, IsOverlap, IsFirstOverlap};

use crate::channel_spans::{are_apart, is_on};
use crate::spans::{keep, meets};
use edl_list::{Channel, Event};
use std::alloc::{AllocError, Global};
use std::collections::BTreeMap;

/// The least line of an event whose record span shares a frame with that of an event from an
/// earlier line on its channel; `None` exactly where there is none, and then no two events share a
/// frame on one channel.
///
/// So it is of events as a list is read, where they come in the order of their lines, those of one
/// line on different channels, and each takes a frame of the record at least. An error comes where
/// memory runs out.
#[tactic(auto, using(crate::proofs::LeastLine::first_of_three, crate::proofs::LeastLine::apart_in_three))]
pub fn first_overlap(alloc: Global, events: &[Event]) -> Result<Option<u32>, AllocError>
    ensures overlap { AreRead events.now → IfOk result
        (λ found. MatchOption found ((line : ℕ) → IsOverlap events.now line → ⊥)
        (IsFirstOverlap events.now)) }
    ensures apart { AreRead events.now → IfOk result
        (λ found. IfNone found (AllPairs AreApart events.now)) }
{
    let picture = overlap_on(alloc, Channel::V, events)?;
    let first_sound = overlap_on(alloc, Channel::A, events)?;
    let second_sound = overlap_on(alloc, Channel::A2, events)?;
    Ok(lesser(picture, lesser(first_sound, second_sound)))
}

// The lesser of two lines, where there are any.
fn lesser(a: Option<u32>, b: Option<u32>) -> Option<u32>
    ensures { result ≡ lesser_of a b }
{
    match (a, b) {
        (Some(a), Some(b)) => Some(if b < a { b } else { a }),
        (Some(a), None) => Some(a),
        (None, b) => b,
    }
}

// The same on one channel. Where its events follow one another nothing is kept and no memory is
// asked for; where they do once they are sorted, no search is needed.
fn overlap_on(alloc: Global, channel: Channel, events: &[Event]) -> Result<Option<u32>, AllocError>
    ensures { AreRead events.now → IfOk result (FindsOn channel events.now) }
{
    if do_follow(channel, events) {
        return Ok(None);
    }
    if are_apart(alloc, channel, events)? {
        return Ok(None);
    }
    search_on(alloc, channel, events)
}

// Whether each event on the channel begins at the end of the one before it there, or behind it.
fn do_follow(channel: Channel, events: &[Event]) -> bool
    ensures { AreRead events.now → IsTrue result → AllPairs (AreApartOn channel) events.now }
{
    let mut end = i64::MIN;
    'events: for event in events {
        if is_on(event, channel) {
            if begins_before(event, end) {
                return false;
            }
            end = end_of(event);
        }
    }
    true
}

// Whether the event begins before this record frame.
fn begins_before(event: &Event, frame: i64) -> bool
    ensures { IsTrue result ↔ event.now.rec_in <ℤ frame }
{
    event.rec_in < frame
}

// The record frame behind the event.
fn end_of(event: &Event) -> i64
    ensures { result ≡ event.now.rec_out }
{
    event.rec_out
}

// The line of the first event on the channel that meets one before it. The spans so far share no
// frame, so the first event that meets one of them is the first at all.
fn search_on(alloc: Global, channel: Channel, events: &[Event]) -> Result<Option<u32>, AllocError>
    ensures { AreRead events.now → IfOk result (FindsOn channel events.now) }
{
    let mut spans: BTreeMap<i64, i64> = BTreeMap::new(alloc);
    'events: for event in events {
        if is_on(event, channel) {
            if meets(&spans, event) {
                return Ok(Some(event.line));
            }
            keep(&mut spans, event)?;
        }
    }
    Ok(None)
}
