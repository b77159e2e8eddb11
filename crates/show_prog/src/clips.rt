//! What clips show: their keys and the numbers of their frames.

ghost use Rattle.std.specs.Prelude.{◌≡◌, ℕ, List, cond};
ghost use Rattle.coord.specs.Keys as keys;
ghost use Rattle.coord.specs.Looks.{Blank};
ghost use Rattle.coord.specs.Sights.{exact, framed};
ghost use Rattle.coord.specs.Images as images;
ghost use Rattle.show_prog.specs.Pictures as pictures;

use crate::picture::{KeyRef, MixKind, Picture};
use coord::{media_rate, own_reel, wipe_code};
use otio_model::{Clip, Media};
use sequences::Text;
use tick_time::Rate;

// The clip's reel, else its name.
fn reel_or_name(clip: &Clip) -> KeyRef<'_>
    ensures { pictures.key_of result ≡ keys.reel_or_name (keys.reel_of clip.now) clip.now.name }
{
    match own_reel(clip) {
        Some(reel) => KeyRef::Reel(reel),
        None => KeyRef::Name(&clip.name),
    }
}

/// What the clip's frames are known by.
pub fn key_of(clip: &Clip) -> KeyRef<'_>
    ensures { pictures.key_of result ≡ keys.key_of clip.now }
{
    match clip.media() {
        Some(media) => match media {
            Media::External(media) => KeyRef::Url(&media.target_url),
            Media::Missing(_) => reel_or_name(clip),
            Media::Generator(media) => KeyRef::Generator(&media.generator_kind),
            Media::Sequence(media) => KeyRef::Sequence(
                &media.target_url_base,
                &media.name_prefix,
                &media.name_suffix,
            ),
            Media::Kept(_) => reel_or_name(clip),
        },
        None => reel_or_name(clip),
    }
}

// The number of the frame that holds an instant of media.
fn frame_number(at: i128, rate: Rate) -> i128
    ensures { result ≡ images.frame_number at (keys.frame_rate rate) }
{
    at.div_euclid(rate.frame_ticks())
}

/// What a clip shows at an instant of its media.
pub(crate) fn show_clip(clip: &Clip, at: i128) -> Picture<'_>
    ensures { (kind : List ℕ) → pictures.image_of result ≡
        images.image (cond clip.now.enabled
        (framed (exact kind) (keys.key_of clip.now) at (keys.media_rate clip.now)) Blank) }
{
    if !clip.enabled {
        return Picture::Blank;
    }
    match media_rate(clip) {
        Some(rate) => Picture::Frame {
            key: key_of(clip),
            number: frame_number(at, rate),
        },
        None => Picture::Blank,
    }
}

/// The kind of mix that a transition of a type makes.
pub(crate) fn mix_kind(type_name: &Text) -> MixKind<'_>
    ensures { pictures.kind_of result ≡ images.kind_of type_name.now }
{
    let text = type_name.as_str();
    if text == "SMPTE_Dissolve" {
        return MixKind::Dissolve;
    }
    match wipe_code(text.as_bytes()) {
        Some(code) => MixKind::Wipe(code),
        None => MixKind::Other(type_name),
    }
}
