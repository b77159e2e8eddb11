//! Unused media round a clip, and how far it lets an edge of the clip go.

ghost use Rattle.limits.specs.Limits.{most_ticks};
ghost use Rattle.std.specs.Prelude.{◌≡◌, IfSome, None, Some, cond, int_lt, option_map, pos};
ghost use Rattle.std.specs.Prelude.{◌≤ℤ◌, ◌-ℤ◌, ◌+ℤ◌};
ghost use Rattle.std.specs.Int.{int_div_euclid, int_max, int_min};
ghost use Rattle.edits.specs.Edges as edges;
ghost use Rattle.pieces.specs.Short.{IsCuttable};
ghost use Rattle.edit_plans.specs.Bounds.{IsHandle};
ghost use Rattle.edit_plans.specs.Meanings.{handles_of};

use crate::clamps::whole_limit;
use coord::{media_ticks, speed};
use otio_model::{Item, ItemOf};
use pieces::{sound_ticks, start_ticks};
use tick_time::Span;

/// Unused media before and after what a clip uses, in ticks of the media.
#[derive(Clone, Copy)]
pub(crate) struct Handles {
    pub before: i128,
    pub behind: i128,
}

// How far before its start media are reached that so many millionths of a tick play, in whole
// ticks, rounded down: a negative number, or 0.
fn reach_back(millionths: i128) -> i128
    requires least { (pos 0 -ℤ pos 1000000000000000000000000000000000) ≤ℤ millionths }
    requires most { millionths ≤ℤ pos 1000000000000000000000000000000000 }
    ensures value { result ≡ int_div_euclid (int_min (pos 0) millionths) (pos 1000000) }
    ensures low { (pos 0 -ℤ pos 1000000000000000000000000000) ≤ℤ result }
    ensures high { result ≤ℤ pos 0 }
{
    0.min(millionths).div_euclid(1_000_000)
}

// What of media lies before what is reached so far before an instant; negative where it begins
// later.
fn media_before(start: i128, instant: i128, reached: i128) -> i128
    requires start_low { (pos 0 -ℤ pos most_ticks) ≤ℤ start }
    requires start_high { start ≤ℤ pos most_ticks }
    requires instant_low { (pos 0 -ℤ pos most_ticks) ≤ℤ instant }
    requires instant_high { instant ≤ℤ pos most_ticks }
    requires reached_low { (pos 0 -ℤ pos 1000000000000000000000000000) ≤ℤ reached }
    requires reached_high { reached ≤ℤ pos 0 }
    ensures value { result ≡ ((instant +ℤ reached) -ℤ start) }
    ensures high { result ≤ℤ pos 10000000000000000000000000 }
{
    instant + reached - start
}

// What of media that end at an instant lies after what is reached so far after an instant;
// negative where they end earlier.
fn media_behind(end: i128, instant: i128, reached: i128) -> i128
    requires end_low { (pos 0 -ℤ pos 2000000000000000000000000) ≤ℤ end }
    requires end_high { end ≤ℤ pos 2000000000000000000000000 }
    requires instant_low { (pos 0 -ℤ pos most_ticks) ≤ℤ instant }
    requires instant_high { instant ≤ℤ pos most_ticks }
    requires reached_low { (pos 0 -ℤ pos 1000000000000000000000000000) ≤ℤ reached }
    requires reached_high { reached ≤ℤ pos 0 }
    ensures value { result ≡ ((end -ℤ instant) +ℤ reached) }
    ensures high { result ≤ℤ pos 10000000000000000000000000 }
{
    end - instant + reached
}

// Where media end.
fn end_of(media: Span) -> i128
    ensures value { result ≡ (media.start.ticks +ℤ media.len.ticks) }
    ensures low { (pos 0 -ℤ pos 2000000000000000000000000) ≤ℤ result }
    ensures high { result ≤ℤ pos 2000000000000000000000000 }
{
    media.end_ticks()
}

// So much media, and 0 where that is negative.
fn at_least_none(media: i128) -> i128
    requires { media ≤ℤ pos 10000000000000000000000000 }
    ensures value { result ≡ int_max (pos 0) media }
    ensures near { IsHandle result }
{
    0.max(media)
}

// The other way.
fn back(millionths: i128) -> i128
    requires least { (pos 0 -ℤ pos 1000000000000000000000000000000000) ≤ℤ millionths }
    requires most { millionths ≤ℤ pos 1000000000000000000000000000000000 }
    ensures value { result ≡ pos 0 -ℤ millionths }
    ensures least { (pos 0 -ℤ pos 1000000000000000000000000000000000) ≤ℤ result }
    ensures most { result ≤ℤ pos 1000000000000000000000000000000000 }
{
    0 - millionths
}

// What of media lies before what so many millionths of a tick play from a start.
fn handle_before(media: Span, start: i128, millionths: i128) -> i128
    requires start_low { (pos 0 -ℤ pos most_ticks) ≤ℤ start }
    requires start_high { start ≤ℤ pos most_ticks }
    requires least { (pos 0 -ℤ pos 1000000000000000000000000000000000) ≤ℤ millionths }
    requires most { millionths ≤ℤ pos 1000000000000000000000000000000000 }
    ensures value { result ≡ int_max (pos 0) ((start
        +ℤ int_div_euclid (int_min (pos 0) millionths) (pos 1000000)) -ℤ media.start.ticks) }
    ensures near { IsHandle result }
{
    at_least_none(media_before(media.start.ticks, start, reach_back(millionths)))
}

// What of media lies after it.
fn handle_behind(media: Span, start: i128, millionths: i128) -> i128
    requires start_low { (pos 0 -ℤ pos most_ticks) ≤ℤ start }
    requires start_high { start ≤ℤ pos most_ticks }
    requires least { (pos 0 -ℤ pos 1000000000000000000000000000000000) ≤ℤ millionths }
    requires most { millionths ≤ℤ pos 1000000000000000000000000000000000 }
    ensures value { result ≡ int_max (pos 0)
        (((media.start.ticks +ℤ media.len.ticks) -ℤ start)
        +ℤ int_div_euclid (int_min (pos 0) (pos 0 -ℤ millionths)) (pos 1000000)) }
    ensures near { IsHandle result }
{
    at_least_none(media_behind(end_of(media), start, reach_back(back(millionths))))
}

// The unused media round so many ticks of a clip from a start, at a speed.
fn handles_in(media: Span, start: i128, ticks: i128, speed: i64) -> Handles
    requires start_low { (pos 0 -ℤ pos most_ticks) ≤ℤ start }
    requires start_high { start ≤ℤ pos most_ticks }
    requires low { pos 0 ≤ℤ ticks }
    requires high { ticks ≤ℤ pos most_ticks }
    requires speed_low { (pos 0 -ℤ pos 1000000000) ≤ℤ speed }
    requires speed_high { speed ≤ℤ pos 1000000000 }
    ensures before { result.before ≡ (edges.handles_in media start ticks speed).before }
    ensures behind { result.behind ≡ (edges.handles_in media start ticks speed).behind }
    ensures near_before { IsHandle result.before }
    ensures near_behind { IsHandle result.behind }
{
    let played = media_ticks(ticks, speed);
    Handles {
        before: handle_before(media, start, played),
        behind: handle_behind(media, start, played),
    }
}

/// The unused media round a clip; none where its media have no range, or where it is no clip.
pub(crate) fn clip_handles(item: &Item) -> Option<Handles>
    requires { IsCuttable item.now }
    ensures value { option_map handles_of result ≡ edges.clip_handles item.now }
    ensures before { IfSome result (λ room. IsHandle room.before) }
    ensures behind { IfSome result (λ room. IsHandle room.behind) }
{
    match item {
        ItemOf::Clip(clip) => match clip.available_range() {
            Some(media) => Some(handles_in(
                media,
                start_ticks(item),
                sound_ticks(item),
                speed(item),
            )),
            None => None,
        },
        _ => None,
    }
}

// How far so much media goes at a speed, in ticks of the item.
fn played(media: i128, speed: i128) -> i128
    requires media { IsHandle media }
    requires speed { pos 1 ≤ℤ speed }
    ensures { result ≡ edges.played media speed }
{
    (media * 1_000_000).div_euclid(speed)
}

// How far an edge can be moved outward, where so much media lies there that is played forward, and
// so much that is played backwards; none at speed 0, where there is no limit.
fn room_at(speed: i64, forward: i128, backward: i128) -> Option<i128>
    requires speed_low { (pos 0 -ℤ pos 1000000000) ≤ℤ speed }
    requires forward { IsHandle forward }
    requires backward { IsHandle backward }
    ensures { result ≡ cond (int_lt (pos 0) speed) (Some (edges.played forward speed))
        (cond (int_lt speed (pos 0)) (Some (edges.played backward (pos 0 -ℤ speed))) None) }
{
    if 0 < speed {
        return Some(played(forward, i128::from(speed)));
    }
    if speed < 0 {
        return Some(played(backward, 0 - i128::from(speed)));
    }
    None
}

// How far the head of an item can be moved outward; none where there is no limit.
fn head_room(item: &Item) -> Option<i128>
    requires { IsCuttable item.now }
    ensures { result ≡ edges.head_room item.now }
{
    match clip_handles(item) {
        Some(room) => room_at(speed(item), room.before, room.behind),
        None => None,
    }
}

// How far the tail of an item can be moved outward; none where there is no limit.
fn tail_room(item: &Item) -> Option<i128>
    requires { IsCuttable item.now }
    ensures { result ≡ edges.tail_room item.now }
{
    match clip_handles(item) {
        Some(room) => room_at(speed(item), room.behind, room.before),
        None => None,
    }
}

/// How far the head of an item can be moved outward, in whole frames.
pub(crate) fn head_limit(frame: i128, item: &Item) -> Option<i128>
    requires frame { pos 1 ≤ℤ frame }
    requires item { IsCuttable item.now }
    ensures value { result ≡ edges.whole_limit frame (edges.head_room item.now) }
    ensures low { IfSome result (λ ticks. pos 0 ≤ℤ ticks) }
{
    whole_limit(frame, head_room(item))
}

/// How far the tail of an item can be moved outward, in whole frames.
pub(crate) fn tail_limit(frame: i128, item: &Item) -> Option<i128>
    requires frame { pos 1 ≤ℤ frame }
    requires item { IsCuttable item.now }
    ensures value { result ≡ edges.whole_limit frame (edges.tail_room item.now) }
    ensures low { IfSome result (λ ticks. pos 0 ≤ℤ ticks) }
{
    whole_limit(frame, tail_room(item))
}
