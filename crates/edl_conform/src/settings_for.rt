//! The job of a timeline.

ghost use Rattle.std.specs.Option.{option_copied};
ghost use Rattle.edl_conform.specs.Stated.{IsJobOf};

use crate::list_settings::Job;
use coord::{record_rate, start_frame};
use edl_list::Layout;
use media_list::MediaList;
use otio_model::Timeline;
use smpte_tc::mode_of;

/// The job of writing a timeline as a list, with this media list, in drop-frame or not, in the wide
/// layout or the narrow one. `None` exactly where the record rate has no timecode, or none with
/// drop-frame where that is asked for.
pub fn job_of<'a>(
    timeline: &Timeline,
    media: Option<&'a MediaList>,
    drop: bool,
    wide: bool,
) -> Option<Job<'a>>
    ensures { IsJobOf timeline.now (option_copied media.entry) drop wide result }
{
    let rate = record_rate(timeline);
    let mode = match mode_of(rate, drop) {
        Some(mode) => mode,
        None => return None,
    };
    Some(Job {
        rate,
        first: start_frame(timeline),
        media,
        drop,
        layout: Layout::of(wide),
        ticks: rate.frame_ticks(),
        count: u64::from(mode.nominal),
        day: i128::from(mode.day_count()),
    })
}
