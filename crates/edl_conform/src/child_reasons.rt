//! Why a child of a track isn't carried.

ghost use Rattle.std.specs.Prelude.{◌≡◌, not, false, ◌&&◌, ◌||◌, int_lt, pos, IfNone, IfSome, option_map};
ghost use Rattle.std.specs.Option.{option_copied, option_to_list};
ghost use Rattle.std.specs.Ordering.{int_eq};
ghost use Rattle.edl_list.specs.declared.list.Channel.{Channel as AnyChannel};
ghost use Rattle.coord.specs.Images.{kind_of};
ghost use Rattle.edl_frames.specs.Jobs as jobs;
ghost use Rattle.edl_frames.specs.Seats as seats;
ghost use Rattle.edl_frames.specs.Sides as sides;
ghost use Rattle.edl_frames.specs.ChildReasons as reasons;
ghost use Rattle.edl_frames.specs.ChildEvents as events;
ghost use Rattle.edl_conform.specs.Stated.{stated_job, stated_lap, stated_seat};
ghost use Rattle.edl_conform.specs.Seated.{IsCarried, IsOpen, IsOpenPast, IsPast, IsSeated};
ghost use Rattle.edl_conform.specs.Shots.{IsOverlap, IsShot, clip_of, stated_overlap};
ghost use Rattle.edl_conform.specs.Drafts.{IsTested, or_record_day, source_reason_by};

use crate::bools::{any_of, both};
use crate::child_context::{ChildContext, Lap};
use crate::clip_sides::{Tested, event_part, lap_part, test_parts};
use crate::clips::{has_no_reel, has_other_effect, is_other_kind, rate_differs, row_of};
use crate::draft_events::{Shown, draft_of};
use crate::frames::{is_in_day, is_on_frame, record_at};
use crate::list_settings::Job;
use crate::m2_speeds::tenths_of;
use crate::overlaps::{
    Overlap, begin_at, begin_of, end_at, end_of, is_less, is_there, lap_at, lap_behind, overlap_of,
    ticks_of,
};
use crate::visible_clips::{Shot, shot_in};
use edl_frames::Why;
use media_rows::MediaRow;
use otio_model::{Item, ItemOf};

// Whether the item is a clip or a gap.
fn is_item(item: &Item) -> bool
    ensures { result ≡ seats.is_item item.now }
{
    match item {
        ItemOf::Clip(_) => true,
        ItemOf::Gap(_) => true,
        _ => false,
    }
}

// Whether the record labels of the event that a child gives aren't both of the day.
fn is_past_record(job: &Job<'_>, seat: &ChildContext<'_>) -> bool
    requires seated { IsSeated seat.now }
    requires past { IsOpenPast seat.now.past }
    ensures { (c : AnyChannel) → result ≡ reasons.is_past_record (stated_job job.now)
        (events.event_of (stated_job job.now) c (stated_seat seat.now)) }
{
    match draft_of(seat) {
        Some(draft) => {
            let begin = record_at(job, draft.begin);
            let end = record_at(job, draft.end);
            !both(is_in_day(job, begin), is_in_day(job, end))
        }
        None => false,
    }
}

// Whether no tenths give the speed of a clip.
fn has_no_tenths(job: &Job<'_>, shot: &Shot<'_>) -> bool
    requires { IsShot shot.now }
    ensures { result ≡ not (seats.is_there (jobs.tenths_of
        (jobs.count_in (jobs.mode_in (stated_job job.now).rate false))
        (sides.speed_in (clip_of shot.now)))) }
{
    match tenths_of(job.count, shot.speed) {
        Some(_) => false,
        None => true,
    }
}

// What is tested of the sides of a clip that is shown.
fn test_clip(
    job: &Job<'_>,
    seat: &ChildContext<'_>,
    shot: &Shot<'_>,
    behind: Option<Lap<'_>>,
    row: Option<&MediaRow>,
) -> Tested
    requires seated { IsSeated seat.now }
    requires past { IsOpenPast seat.now.past }
    requires shot { IsShot shot.now }
    requires behind { option_map stated_lap behind ≡ seats.lap_behind (stated_seat seat.now) }
    requires open { IfSome behind IsOpen }
    ensures { IsTested (stated_job job.now) (clip_of shot.now) seat.now.start
        (option_copied row.entry) (reasons.parts_of (stated_job job.now) (stated_seat seat.now))
        result }
{
    let event = event_part(job, begin_of(seat), end_of(seat, behind));
    let shown = Shown {
        shot: *shot,
        start: seat.start,
    };
    test_parts(job, &shown, row, event, lap_part(job, behind))
}

// Whether a source stands between two frames at another speed than the rate's own.
fn is_phase(speed: i64, is_between: bool) -> bool
    ensures { result ≡ (not (int_eq speed (pos 1000000)) && is_between) }
{
    both(speed != 1_000_000, is_between)
}

// Why a clip whose own tests don't hold isn't carried, by where its sources stand.
fn source_reason(shot: &Shot<'_>, tested: Tested) -> Option<Why>
    requires { IsShot shot.now }
    ensures { result ≡ source_reason_by (sides.speed_in (clip_of shot.now)) tested }
{
    if is_phase(shot.speed, tested.is_between) {
        return Some(Why::Phase);
    }
    if tested.is_past_day {
        return Some(Why::SourceDay);
    }
    if tested.is_outside {
        return Some(Why::Outside);
    }
    None
}

// Why a clip that is shown isn't carried.
fn clip_reason(
    job: &Job<'_>,
    seat: &ChildContext<'_>,
    shot: &Shot<'_>,
    behind: Option<Lap<'_>>,
) -> Option<Why>
    requires seated { IsSeated seat.now }
    requires past { IsOpenPast seat.now.past }
    requires shot { IsShot shot.now }
    requires behind { option_map stated_lap behind ≡ seats.lap_behind (stated_seat seat.now) }
    requires open { IfSome behind IsOpen }
    ensures { result ≡ reasons.first_that (reasons.clip_tests (stated_job job.now)
        (stated_seat seat.now) (clip_of shot.now)) }
{
    if has_other_effect(shot.clip) {
        return Some(Why::Effect);
    }
    if has_no_tenths(job, shot) {
        return Some(Why::Speed);
    }
    let row = row_of(job, shot.clip);
    if has_no_reel(job, shot.clip, row) {
        return Some(Why::NoReel);
    }
    if rate_differs(job, shot.clip, row) {
        return Some(Why::RateDiffers);
    }
    source_reason(shot, test_clip(job, seat, shot, behind, row))
}

// Why an item isn't carried, by what is tested of clips that are shown.
fn shown_reason(job: &Job<'_>, seat: &ChildContext<'_>) -> Option<Why>
    requires seated { IsSeated seat.now }
    requires past { IsOpenPast seat.now.past }
    ensures { result ≡ reasons.first_that (reasons.shown_tests (stated_job job.now)
        (stated_seat seat.now) (seats.clip_in seat.now.item.now)) }
{
    match shot_in(seat.item) {
        Some(shot) => {
            let behind = lap_behind(seat);
            if is_shown(seat, behind) {
                clip_reason(job, seat, &shot, behind)
            } else {
                None
            }
        }
        None => None,
    }
}

// Whether a clip is shown in some frame, or goes out over this overlap behind it.
fn is_shown(seat: &ChildContext<'_>, behind: Option<Lap<'_>>) -> bool
    requires seated { IsSeated seat.now }
    requires past { IsOpenPast seat.now.past }
    requires behind { option_map stated_lap behind ≡ seats.lap_behind (stated_seat seat.now) }
    requires open { IfSome behind IsOpen }
    ensures { result ≡
        (int_lt (seats.begin_of (stated_seat seat.now)) (seats.end_of (stated_seat seat.now))
        || seats.is_there (seats.lap_behind (stated_seat seat.now))) }
{
    any_of(
        is_less(begin_of(seat), end_of(seat, behind)),
        is_there(behind),
    )
}

// The reason, or where there is none that of record labels past the day.
fn or_record(reason: Option<Why>, is_past: bool) -> Option<Why>
    ensures { result ≡ or_record_day reason is_past }
{
    match reason {
        Some(why) => Some(why),
        None => { if is_past { Some(Why::RecordDay) } else { None } }
    }
}

// Why an item isn't carried.
fn item_reason(job: &Job<'_>, seat: &ChildContext<'_>) -> Option<Why>
    requires seated { IsSeated seat.now }
    requires past { IsOpenPast seat.now.past }
    ensures { (c : AnyChannel) → result ≡ reasons.first_that
        (reasons.item_tests (stated_job job.now) c (stated_seat seat.now)) }
{
    if !is_item(seat.item) {
        return Some(Why::Nested);
    }
    if !both(is_on_frame(job, seat.start), is_on_frame(job, seat.end)) {
        return Some(Why::OffFrame);
    }
    or_record(shown_reason(job, seat), is_past_record(job, seat))
}

// Where the item behind a transition ends, and the cut where there is none.
fn end_behind(seat: &ChildContext<'_>) -> i128
    requires seated { IsSeated seat.now }
    ensures { result ≡ reasons.end_behind seat.now.start
        (option_to_list (option_copied seat.now.next)) }
{
    match seat.next {
        Some(item) => seat.start + item.length_or_zero(),
        None => seat.start,
    }
}

// Whether the overlap of a transition reaches further than it may, or is too long.
fn is_bad_lap(job: &Job<'_>, seat: &ChildContext<'_>, overlap: Overlap<'_>) -> bool
    requires seated { IsSeated seat.now }
    requires overlap { IsOverlap overlap }
    ensures { result ≡ reasons.is_bad_lap (stated_job job.now) (stated_seat seat.now)
        (stated_overlap overlap.entry) }
{
    any_of(
        is_less(begin_at(seat.start, overlap), seat.past.low),
        any_of(
            is_less(end_behind(seat), end_at(seat.start, overlap)),
            is_less(999 * job.ticks, ticks_of(overlap)),
        ),
    )
}

// Whether a transition's cut, and its overlap's start and end, are starts of record frames.
fn is_whole(job: &Job<'_>, seat: &ChildContext<'_>, overlap: Overlap<'_>) -> bool
    requires seated { IsSeated seat.now }
    requires overlap { IsOverlap overlap }
    ensures { result ≡ (jobs.is_on_frame (stated_job job.now) seat.now.start
        && reasons.is_lap_on_frame (stated_job job.now) (stated_seat seat.now)
        (stated_overlap overlap.entry)) }
{
    let begins = is_on_frame(job, begin_at(seat.start, overlap));
    let ends = is_on_frame(job, end_at(seat.start, overlap));
    both(is_on_frame(job, seat.start), both(begins, ends))
}

// Whether a transition has an overlap that isn't empty, and makes no dissolve or wipe.
fn has_other_kind(seat: &ChildContext<'_>, overlap: Overlap<'_>) -> bool
    requires seated { IsSeated seat.now }
    requires overlap { IsOverlap overlap }
    ensures { result ≡ (seats.is_there (seats.lap_at seat.now.start (stated_overlap overlap.entry))
        && reasons.is_other_kind (kind_of overlap.entry.kind.now)) }
{
    both(
        is_there(lap_at(seat.start, overlap)),
        is_other_kind(overlap.kind),
    )
}

// Why a transition isn't carried.
fn transition_reason(job: &Job<'_>, seat: &ChildContext<'_>, overlap: Overlap<'_>) -> Option<Why>
    requires seated { IsSeated seat.now }
    requires past { IsOpenPast seat.now.past }
    requires overlap { IsOverlap overlap }
    ensures { (c : AnyChannel) → result ≡ reasons.first_that (reasons.transition_tests
        (stated_job job.now) c (stated_seat seat.now) (stated_overlap overlap.entry)) }
{
    if !is_whole(job, seat, overlap) {
        return Some(Why::OffFrame);
    }
    if has_other_kind(seat, overlap) {
        return Some(Why::Kind);
    }
    if is_bad_lap(job, seat, overlap) {
        return Some(Why::Overlap);
    }
    if is_past_record(job, seat) {
        return Some(Why::RecordDay);
    }
    None
}

/// The first reason for which a child isn't carried, whatever channel its track stands for; `None`
/// exactly where the child is carried. It takes no memory.
pub fn reason_of(job: &Job<'_>, seat: &ChildContext<'_>) -> Option<Why>
    requires seated { IsSeated seat.now }
    requires past { IsPast job.now.ticks seat.now.past }
    ensures reason { (c : AnyChannel) →
        result ≡ reasons.reason_of (stated_job job.now) c (stated_seat seat.now) }
    ensures carried { IfNone result (IsCarried job.now seat.now) }
{
    match overlap_of(seat.item) {
        Some(overlap) => transition_reason(job, seat, overlap),
        None => item_reason(job, seat),
    }
}
