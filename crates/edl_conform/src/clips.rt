//! What lists know of clips and transitions: rows, reels, rates, and kinds of mixes.

ghost use Rattle.std.specs.Prelude.{◌≡◌, not, ◌||◌, IfSome};
ghost use Rattle.std.specs.List.{list_any};
ghost use Rattle.std.specs.Option.{option_copied};
ghost use Rattle.media_rows.specs.Rows.{IsRowInRange};
ghost use Rattle.text_lines.specs.ReelNames.{is_reel_name};
ghost use Rattle.coord.specs.Keys as keys;
ghost use Rattle.coord.specs.Images as images;
ghost use Rattle.edl_frames.specs.Seats as seats;
ghost use Rattle.edl_frames.specs.Sides as sides;
ghost use Rattle.edl_frames.specs.ChildReasons as reasons;
ghost use Rattle.edl_conform.specs.Stated.{stated_job};
ghost use Rattle.edl_conform.specs.Shots.{stated_kind};
ghost use Rattle.edl_conform.specs.Drafts.{fits_name};
ghost use Rattle.otio_model.specs.Lengths.{active_media};

use crate::bools::{any_of, both};
use crate::list_settings::Job;
use coord::{media_rate, own_reel, wipe_code};
use edl_list::Layout;
use media_rows::MediaRow;
use otio_model::{Clip, Effect, Media};
use sequences::Text;
use text_lines::reel_name;
use tick_time::Rate;

/// The kind of mix that a transition makes.
#[derive(Clone, Copy)]
pub(crate) enum LapKind {
    Dissolve,
    Wipe(u16),
    Other,
}

/// The kind of mix that a transition of a type makes.
pub(crate) fn lap_kind(type_name: &Text) -> LapKind
    ensures { stated_kind type_name.now result ≡ images.kind_of type_name.now }
{
    let text = type_name.as_str();
    if text == "SMPTE_Dissolve" {
        return LapKind::Dissolve;
    }
    match wipe_code(text.as_bytes()) {
        Some(code) => LapKind::Wipe(code),
        None => LapKind::Other,
    }
}

/// Whether a transition of a type is neither a dissolve nor a wipe.
pub(crate) fn is_other_kind(type_name: &Text) -> bool
    ensures { result ≡ reasons.is_other_kind (images.kind_of type_name.now) }
{
    match lap_kind(type_name) {
        LapKind::Dissolve => false,
        LapKind::Wipe(_) => false,
        LapKind::Other => true,
    }
}

// Whether an effect has no meaning in a list.
fn is_other_effect(effect: &Effect) -> bool
    ensures { result ≡ reasons.is_other_effect effect.now }
{
    match effect {
        Effect::Warp(_) => false,
        Effect::Freeze(_) => false,
        Effect::Plain(_) => true,
        Effect::Kept(_) => true,
    }
}

/// Whether a clip has an effect that has no meaning in a list.
pub(crate) fn has_other_effect(clip: &Clip) -> bool
    ensures { result ≡ list_any reasons.is_other_effect clip.now.effects }
{
    clip.effects
        .as_slice()
        .iter()
        .any(|effect| is_other_effect(effect))
}

// The URL of the clip's media, where they are external.
fn url_of(clip: &Clip) -> Option<&Text>
    ensures { option_copied result ≡ sides.url_in (active_media clip.now) }
{
    match clip.media() {
        Some(Media::External(media)) => Some(&media.target_url),
        _ => None,
    }
}

/// The row of a clip's URL.
pub(crate) fn row_of<'a>(job: &Job<'a>, clip: &Clip) -> Option<&'a MediaRow>
    ensures row { option_copied result ≡ sides.clip_row (stated_job job.now).media clip.now }
    ensures range { IfSome result (λ row. IsRowInRange row.now) }
{
    match job.media {
        Some(list) => match url_of(clip) {
            Some(url) => list.by_url(url),
            None => None,
        },
        None => None,
    }
}

// Whether a name is one of a reel.
#[tactic(auto, using(crate::proofs::ReelTests::is_named, crate::proofs::ReelTests::not_named))]
fn is_reel(name: &Text) -> bool
    ensures { result ≡ is_reel_name name.now }
{
    match reel_name(name.as_str().as_bytes()) {
        Some(_) => true,
        None => false,
    }
}

// Whether a name is one of a reel, and its column has room for it.
fn fits(layout: Layout, name: &Text) -> bool
    ensures { result ≡ fits_name layout name.now }
{
    both(is_reel(name), name.as_str().len() <= layout.reel_width)
}

// The name, where it is one of a reel and its column has room for it.
fn if_reel<'a>(layout: Layout, name: Option<&'a Text>) -> Option<&'a Text>
    ensures { option_copied result ≡ sides.if_reel layout (option_copied name.entry) }
{
    match name {
        Some(name) => { if fits(layout, name) { Some(name) } else { None } }
        None => None,
    }
}

// The reel of a row, where there is one.
fn listed_reel(row: Option<&MediaRow>) -> Option<&Text>
    ensures { option_copied result ≡ sides.reel_in (option_copied row.entry) }
{
    match row {
        Some(row) => Some(&row.reel),
        None => None,
    }
}

/// The reel of a clip of that row: the listed one, or without a media list that of its metadata.
pub(crate) fn reel_of<'a>(
    job: &Job<'_>,
    clip: &'a Clip,
    row: Option<&'a MediaRow>,
) -> Option<&'a Text>
    requires { option_copied row ≡ sides.clip_row (stated_job job.now).media clip.now }
    ensures { option_copied result ≡ sides.clip_reel job.now.layout (stated_job job.now).media
        clip.now }
{
    match job.media {
        Some(_) => if_reel(job.layout, listed_reel(row)),
        None => if_reel(job.layout, own_reel(clip)),
    }
}

/// Whether a clip of that row has no reel.
pub(crate) fn has_no_reel(job: &Job<'_>, clip: &Clip, row: Option<&MediaRow>) -> bool
    requires { option_copied row ≡ sides.clip_row (stated_job job.now).media clip.now }
    ensures { result ≡ not (seats.is_there (sides.clip_reel job.now.layout
        (stated_job job.now).media clip.now)) }
{
    match reel_of(job, clip, row) {
        Some(_) => false,
        None => true,
    }
}

// Whether two rates are the same.
fn is_rate(a: Rate, b: Rate) -> bool
    ensures { result ≡ reasons.is_rate (keys.frame_rate a) (keys.frame_rate b) }
{
    both(a.num == b.num, a.den == b.den)
}

// Whether the clip's media are counted at the record rate.
fn has_rate(job: &Job<'_>, clip: &Clip) -> bool
    ensures { result ≡ reasons.has_rate (stated_job job.now) (keys.media_rate clip.now) }
{
    match media_rate(clip) {
        Some(rate) => is_rate(rate, job.rate),
        None => false,
    }
}

// Whether the listed rate is another one than the record rate.
fn row_differs(job: &Job<'_>, row: Option<&MediaRow>) -> bool
    ensures { result ≡ reasons.row_differs (stated_job job.now) (option_copied row.entry) }
{
    match row {
        Some(row) => !is_rate(row.rate, job.rate),
        None => false,
    }
}

/// Whether the rate of the clip's media, or the listed one, isn't the record rate.
pub(crate) fn rate_differs(job: &Job<'_>, clip: &Clip, row: Option<&MediaRow>) -> bool
    ensures { result ≡ (not (reasons.has_rate (stated_job job.now) (keys.media_rate clip.now))
        || reasons.row_differs (stated_job job.now) (option_copied row.entry)) }
{
    any_of(!has_rate(job, clip), row_differs(job, row))
}
