//! Events in ticks of their track, before they are written.

ghost use Rattle.std.specs.Prelude.{◌≡◌, ℤ, IfSome, option_map};
ghost use Rattle.edl_list.specs.declared.list.Channel.{Channel as AnyChannel};
ghost use Rattle.edl_frames.specs.Jobs.{Job as AnyJob};
ghost use Rattle.edl_frames.specs.ChildEvents as events;
ghost use Rattle.edl_conform.specs.Stated.{stated_lap, stated_past, stated_seat};
ghost use Rattle.edl_conform.specs.Seated.{IsItemAt, IsOpen, IsOpenPast, IsSeated, IsShort, IsShortSeat};
ghost use Rattle.edl_conform.specs.Shots.{IsShot, clip_of};
ghost use Rattle.edl_conform.specs.Drafts.{IsDraft, IsShown, drafted, shown_at, stated_shown};

use crate::child_context::{ChildContext, Lap, Past};
use crate::overlaps::{begin_of, end_of, is_less, lap_at, lap_behind, overlap_of};
use crate::visible_clips::{Shot, shot_in};

/// A clip that is shown, and where it starts, in ticks of the track.
#[derive(Clone, Copy)]
pub(crate) struct Shown<'a> {
    pub(crate) shot: Shot<'a>,
    pub(crate) start: i128,
}

/// The event of a child, in ticks of its track.
#[derive(Clone, Copy)]
pub(crate) struct Draft<'a> {
    /// The overlap that it begins with.
    pub(crate) lap: Option<Lap<'a>>,
    /// The clip that comes in; none for black.
    pub(crate) shown: Option<Shown<'a>>,
    pub(crate) begin: i128,
    pub(crate) end: i128,
}

/// The clip that stands before a child, where it is shown.
pub(crate) fn shown_before<'a>(past: &Past<'a>) -> Option<Shown<'a>>
    requires { IfSome past.now.item IsItemAt }
    ensures shown { option_map stated_shown result ≡ shown_at (stated_past past.now).item }
    ensures range { IfSome result IsShown }
{
    match past.item {
        Some(before) => match shot_in(before.item) {
            Some(shot) => Some(Shown {
                shot,
                start: before.start,
            }),
            None => None,
        },
        None => None,
    }
}

// The event to black over an overlap, where what goes out isn't black.
fn black_draft<'a>(past: &Past<'a>, lap: Option<Lap<'a>>) -> Option<Draft<'a>>
    requires past { IfSome past.now.item IsItemAt }
    requires lap { IfSome lap IsOpen }
    ensures draft { (j : AnyJob) (c : AnyChannel) →
        option_map (drafted j c (stated_past past.now)) result
        ≡ events.black_event j c (stated_past past.now) (option_map stated_lap lap.entry) }
    ensures range { IfSome result IsDraft }
    ensures lap { IfSome result (λ draft. draft.lap ≡ lap.entry) }
{
    match lap {
        Some(open) => match shown_before(past) {
            Some(_) => Some(Draft {
                lap,
                shown: None,
                begin: open.begin,
                end: open.end,
            }),
            None => None,
        },
        None => None,
    }
}

// The event of a clip, where it has a length.
fn clip_draft<'a>(seat: &ChildContext<'a>, shot: Shot<'a>) -> Option<Draft<'a>>
    requires seated { IsSeated seat.now }
    requires past { IsOpenPast seat.now.past }
    requires shot { IsShot shot }
    ensures draft { (j : AnyJob) (c : AnyChannel) →
        option_map (drafted j c (stated_past seat.now.past)) result
        ≡ events.clip_event j c (stated_seat seat.now) (clip_of shot.entry) }
    ensures range { IfSome result IsDraft }
    ensures lap { IfSome result (λ draft. draft.lap ≡ seat.now.past.lap) }
{
    let begin = begin_of(seat);
    let end = end_of(seat, lap_behind(seat));
    if is_less(begin, end) {
        Some(Draft {
            lap: seat.past.lap,
            shown: Some(Shown {
                shot,
                start: seat.start,
            }),
            begin,
            end,
        })
    } else {
        None
    }
}

/// The event that a child gives.
pub(crate) fn draft_of<'a>(seat: &ChildContext<'a>) -> Option<Draft<'a>>
    requires seated { IsSeated seat.now }
    requires past { IsOpenPast seat.now.past }
    ensures draft { (j : AnyJob) (c : AnyChannel) →
        option_map (drafted j c (stated_past seat.now.past)) result
        ≡ events.event_of j c (stated_seat seat.now) }
    ensures range { IfSome result IsDraft }
    ensures short { (ticks : ℤ) → IsShortSeat ticks seat.now
        → IfSome result (λ draft. IfSome draft.lap (IsShort ticks)) }
{
    match overlap_of(seat.item) {
        Some(overlap) => match seat.next {
            Some(_) => None,
            None => black_draft(&seat.past, lap_at(seat.start, overlap)),
        },
        None => match shot_in(seat.item) {
            Some(shot) => clip_draft(seat, shot),
            None => black_draft(&seat.past, seat.past.lap),
        },
    }
}
