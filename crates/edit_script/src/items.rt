//! The items that commands put in.

ghost use Rattle.std.specs.Prelude.{◌≡◌, ◌∷◌, [], ℤ, false, IfOk, Some, IfSome, codes};
ghost use Rattle.std.specs.Option.{option_copied};
ghost use Rattle.edits.specs.Children.{made, new_gap as new_gap_of};
ghost use Rattle.edits_law.specs.Editable.{IsEditItem};
ghost use Rattle.media_rows.specs.Rows as rows;
ghost use Rattle.media_rows.specs.Rows.{IsRowInRange};
ghost use Rattle.tick_time.specs.declared.rates.Rate.{Rate as AnyRate};
ghost use Rattle.tick_time.specs.declared.spans.Span.{Span as AnySpan};
ghost use Rattle.edit_script.specs.Items as items;
ghost use Rattle.edit_script.specs.Items.{IsListedClip, IsItem};
ghost use Rattle.tick_time.specs.Frames.{IsFrameSpan, in_ticks};

use crate::commands::Put;
use media_list::MediaList;
use media_rows::MediaRow;
use otio_model::{Clip, Effects, External, Item, ItemOf, Markers, Media, MediaMap, Metadata};
use pieces::short_gap;
use sequences::{NamedValues, Text};
use std::alloc::{AllocError, Global};
use tick_time::{Rate, Span, Time};

// The row that is listed of a reel.
fn row_of<'a>(media: Option<&'a MediaList>, reel: &Text) -> Option<&'a MediaRow>
    ensures row { option_copied result ≡ rows.row_of (option_copied media.entry) reel.now }
    ensures range { IfSome result (λ row. IsRowInRange row.now) }
{
    match media {
        Some(list) => list.by_reel(reel),
        None => None,
    }
}

/// Whether so many frames of a rate pass a million seconds.
pub(crate) fn is_far(rate: Rate, n: i64) -> bool
    ensures { result ≡ items.is_far rate n }
{
    match Time::frames(n, rate) {
        Ok(_) => false,
        Err(_) => true,
    }
}

// Whether a count of frames of a rate is negative or passes a million seconds.
fn is_wrong(rate: Rate, n: i64) -> bool
    ensures { result ≡ items.is_wrong rate n }
{
    n < 0 || is_far(rate, n)
}

/// Whether an item is a clip of a reel that isn't listed.
pub(crate) fn is_unlisted(media: Option<&MediaList>, put: &Put) -> bool
    ensures { result ≡ items.is_unlisted (option_copied media.entry) put.now }
{
    match put {
        Put::Gap(_) => false,
        Put::Clip { reel, .. } => match row_of(media, reel) {
            Some(_) => false,
            None => true,
        },
    }
}

// Whether the start of a clip is wrong, by its reel's row.
fn starts_wrong(row: Option<&MediaRow>, start: i64) -> bool
    ensures { result ≡ items.starts_wrong (option_copied row.entry) start }
{
    match row {
        Some(row) => is_wrong(row.rate, start),
        None => false,
    }
}

/// Whether the length or the start of an item is wrong.
pub(crate) fn is_wrong_put(rate: Rate, media: Option<&MediaList>, put: &Put) -> bool
    ensures { result ≡ items.is_wrong_put rate (option_copied media.entry) put.now }
{
    match put {
        Put::Gap(length) => is_wrong(rate, *length),
        Put::Clip {
            reel,
            start,
            length,
            ..
        } => is_wrong(rate, *length) || starts_wrong(row_of(media, reel), *start),
    }
}

// The span from so many frames of one rate on that is so many frames of another one long.
#[tactic(auto, using(crate::proofs::Puts::counts))]
fn span(start_rate: Rate, start: i64, length_rate: Rate, length: i64) -> Span
    requires starts { items.is_far start_rate start ≡ false }
    requires lasts { items.is_wrong length_rate length ≡ false }
    ensures { IsFrameSpan start_rate start length_rate length result }
{
    Span::of_frames(start, start_rate, length, length_rate)
}

// The media that a row lists.
fn media_of(alloc: Global, row: &MediaRow) -> Result<Media, AllocError>
    requires { IsRowInRange row.now }
    ensures { IfOk result (λ media. (available : AnySpan) × IsFrameSpan row.now.rate row.now.start
        row.now.rate row.now.count available × (media ≡ items.media_at row.now.url available)) }
{
    Ok(Media::External(External {
        metadata: NamedValues::new(alloc),
        name: Text::empty(),
        available_range: Some(span(row.rate, row.start, row.rate, row.count)),
        target_url: Text::of(alloc, row.url.as_str())?,
        rest: NamedValues::new(alloc),
    }))
}

// The media under the key that is used.
fn references_of(alloc: Global, media: Media) -> Result<MediaMap, AllocError>
    ensures { IfOk result (λ map. map ≡ (codes "DEFAULT_MEDIA", media) ∷ []) }
{
    MediaMap::one(alloc, "DEFAULT_MEDIA", media)
}

// The clip of a name that shows so much of a row's media.
fn clip_of(alloc: Global, row: &MediaRow, name: &Text, shown: Span) -> Result<Item, AllocError>
    requires { IsRowInRange row.now }
    ensures { IfOk result (λ item. (rate : AnyRate) (start length : ℤ)
        → IsFrameSpan row.now.rate start rate length shown
        → IsListedClip rate row.now name.now start length item) }
{
    let name = Text::of(alloc, name.as_str())?;
    let media_references = references_of(alloc, media_of(alloc, row)?)?;
    let key = Text::of(alloc, "DEFAULT_MEDIA")?;
    Ok(ItemOf::Clip(Clip {
        metadata: Metadata::new(alloc),
        name,
        source_range: Some(shown),
        effects: Effects::new(alloc),
        markers: Markers::new(alloc),
        enabled: true,
        media_references,
        active_media_reference_key: key,
        rest: NamedValues::new(alloc),
    }))
}

// A gap so many record frames long.
#[tactic(auto, using(crate::proofs::Puts::counts))]
fn gap_of(alloc: Global, rate: Rate, length: i64) -> Item
    requires { items.is_wrong rate length ≡ false }
    ensures { made rate (new_gap_of (in_ticks rate length)) ≡ Some result }
{
    short_gap(alloc, Time::of_frames(length, rate).ticks, rate)
}

/// The item that a command puts in, where the record rate is `rate`. An error comes where memory
/// runs out.
pub fn item_of(
    alloc: Global,
    rate: Rate,
    media: Option<&MediaList>,
    put: &Put,
) -> Result<Item, AllocError>
    requires listed { items.is_unlisted (option_copied media) put.now ≡ false }
    requires near { items.is_wrong_put rate (option_copied media) put.now ≡ false }
    ensures item { IfOk result (IsItem rate (option_copied media.entry) put.now) }
    ensures edit { IfOk result IsEditItem }
{
    match put {
        Put::Gap(length) => Ok(gap_of(alloc, rate, *length)),
        Put::Clip {
            name,
            reel,
            start,
            length,
        } => match row_of(media, reel) {
            Some(row) => clip_of(alloc, row, name, span(row.rate, *start, rate, *length)),
            None => unreachable!(),
        },
    }
}
