//! The reels of clips, and the rates of their media.

ghost use Rattle.std.specs.Prelude.{◌≡◌, option_map};
ghost use Rattle.std.specs.Option.{option_copied};
ghost use Rattle.json_value.specs.declared.Json.{out-Json};
ghost use Rattle.coord.specs.Keys as keys;

use json_value::Json;
use otio_model::Clip;
use sequences::Text;
use tick_time::Rate;

// The characters of a string.
fn text_in(value: &Json) -> Option<&Text>
    ensures { option_copied result ≡ keys.text_in (out-Json value.now) }
{
    match value {
        Json::Str(text) => Some(text),
        _ => None,
    }
}

/// The reel that lists (CMX 3600) know the clip's media by: the string `reel` of its metadata's
/// object `cmx_3600`, `None` where there is no such string.
pub fn own_reel(clip: &Clip) -> Option<&Text>
    ensures { option_copied result ≡ keys.reel_of clip.now }
{
    text_in(clip.listed_reel()?)
}

/// The rate of the clip's media: of their available range, else of its source_range. `None` where
/// it has neither.
pub fn media_rate(clip: &Clip) -> Option<Rate>
    ensures { option_map keys.frame_rate result ≡ keys.media_rate clip.now }
{
    match clip.available_range() {
        Some(range) => Some(range.start.rate),
        None => match clip.source_range {
            Some(range) => Some(range.start.rate),
            None => None,
        },
    }
}
