//! What is kept of the lengths of a list of items.

ghost use Rattle.std.specs.Prelude.{◌≡◌, option_map, unsigned_abs};
ghost use Rattle.std.specs.Option.{option_copied};
ghost use Rattle.otio_model.specs.Lengths.{media_range, active_media, clip_range};
ghost use Rattle.otio_model.specs.Sums.{with_length, where_known, span_or};

use crate::compositions::Clip;
use crate::media::Media;
use tick_time::Span;

/// The lengths of a list of items together, in ticks. The two numbers stop at the greatest that
/// fits.
#[derive(Clone, Copy)]
pub(crate) struct Totals {
    /// All lengths added up, one that isn't known as 0.
    pub(crate) ticks: u128,
    /// The greatest length, one that isn't known as 0.
    pub(crate) longest: u128,
    /// Whether each item has a length.
    pub(crate) known: bool,
}

/// The totals of no items.
pub(crate) const NOTHING: Totals = Totals {
    ticks: 0,
    longest: 0,
    known: true,
};

impl Media {
    /// The media that the reference tells of, in the media's own time; `None` where it tells of
    /// none, as a value that is kept.
    pub fn available_range(&self) -> Option<Span>
        ensures { result ≡ media_range self.now }
    {
        match self {
            Media::External(media) => media.available_range,
            Media::Missing(media) => media.available_range,
            Media::Generator(media) => media.available_range,
            Media::Sequence(media) => media.available_range,
            Media::Kept(_) => None,
        }
    }
}

impl Clip {
    /// The media reference of the active key. `None` where the key is none of theirs, which means a
    /// missing reference.
    pub fn media(&self) -> Option<&Media>
        ensures { option_copied result ≡ active_media self.now }
    {
        self.media_references
            .get(self.active_media_reference_key.as_str())
    }

    /// The media that the clip may use, in the media's own time; `None` where its media reference
    /// tells of none.
    pub fn available_range(&self) -> Option<Span>
        ensures { result ≡ clip_range self.now }
    {
        match self.media() {
            Some(media) => media.available_range(),
            None => None,
        }
    }
}

/// The ticks of a span's length.
pub(crate) fn span_ticks(span: &Span) -> u128
    ensures { result ≡ unsigned_abs span.now.len.ticks }
{
    span.len.ticks.unsigned_abs()
}

/// The length of a span, else another one.
pub(crate) fn ticks_or(range: Option<Span>, other: Option<u128>) -> Option<u128>
    ensures { result ≡ span_or range other }
{
    match range {
        Some(span) => Some(span_ticks(&span)),
        None => other,
    }
}

/// How long a clip is: its source_range, else its media's range, which isn't looked for otherwise.
pub(crate) fn clip_ticks(clip: &Clip) -> Option<u128>
    ensures { result ≡ span_or clip.now.source_range (span_or (clip_range clip.now) None) }
{
    match clip.source_range {
        Some(span) => Some(span_ticks(&span)),
        None => ticks_or(clip.available_range(), None),
    }
}

/// A number that may be known.
pub(crate) fn known_ticks(known: bool, ticks: u128) -> Option<u128>
    ensures { result ≡ where_known known ticks }
{
    if known { Some(ticks) } else { None }
}

/// The totals with one more item.
pub(crate) fn add(totals: Totals, length: Option<u128>) -> Totals
    ensures { result ≡ with_length length totals }
{
    match length {
        Some(ticks) => Totals {
            ticks: ticks.saturating_add(totals.ticks),
            longest: if totals.longest < ticks {
                ticks
            } else {
                totals.longest
            },
            known: totals.known,
        },
        None => Totals {
            ticks: totals.ticks,
            longest: totals.longest,
            known: false,
        },
    }
}
