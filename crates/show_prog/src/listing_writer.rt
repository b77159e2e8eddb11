//! Sending the listings that are asked for.

ghost use Rattle.std.specs.Prelude.{◌<◌, ◌^◌, []};
ghost use Rattle.dev_io.specs.Buffer.{HandsOver};
ghost use Rattle.dev_io.specs.Calls.{Tells, SendsAll};
ghost use Rattle.dev_io.specs.Causes.{HasCause};
ghost use Rattle.otio_model.specs.Counts.{count};
ghost use Rattle.show_prog.specs.Spots.{spots};
ghost use Rattle.show_prog.specs.ListingTexts.{listed_text, spot_lines, stats_text, tracks_text};
ghost use Rattle.show_prog.specs.ListingTexts.{where_asked};

use crate::clip_rows::{Told, put_clips};
use crate::frame_options::Listings;
use crate::places::Way;
use crate::stats::put_stats;
use crate::tracks::put_tracks;
use dev_io::{Out, OutBuffer, WriteFault};
use otio_model::Timeline;

/// Sends the listings that are asked for, in the order of tracks, clips, media and stats. Each line
/// ends with a line feed.
///
/// - Tracks: `track K KIND NAME` for each root child that is a track, with its index K among all
///   root children.
/// - Clips: `clip PLACE NAME` for each clip at all levels, in document order. PLACE is its indexes
///   from the root on, with `/` between them.
/// - Media: `media PLACE KEY` for each of these clips, with the KEY of its frames as
///   [`print_show`](crate::print_show) has it.
/// - Stats: `rate R`, `start G`, `length N`, `tracks N`, `stacks N`, `clips N`, `gaps N` and
///   `transitions N`: the record rate, the first record frame, how many record frames the longest
///   root child takes, rounded up to whole ones, and how many items of each kind there are at all
///   levels below the root.
///
/// KIND and NAME are JSON strings (RFC 8259, section 7).
///
/// It answers `Sink` where a write failed, and then a prefix of the text was sent and the count of
/// faults rose, or stands at 2^64 - 1. It takes no memory.
pub fn write_listings<W: Out>(
    timeline: &Timeline,
    asked: Listings,
    out: &mut W,
) -> Result<(), WriteFault>
    requires few { count timeline.now.tracks.children < 2 ^ 32 }
    ensures told { Tells (SendsAll
        (listed_text timeline.now asked.tracks asked.clips asked.media asked.stats) result)
        (W.known out.old) (W.known out.new) }
    ensures cause { HasCause (W.faults out.old) (W.faults out.new) result }
{
    let mut buffer = OutBuffer::new();
    put_listings(&mut buffer, out, timeline, asked);
    buffer.flush(out)
}

// Hands over the listings that are asked for.
fn put_listings<W: Out>(buffer: &mut OutBuffer, out: &mut W, timeline: &Timeline, asked: Listings)
    requires { count timeline.now.tracks.children < 2 ^ 32 }
    ensures { HandsOver W.known W.faults out.old out.new buffer.old buffer.new
        (listed_text timeline.now asked.tracks asked.clips asked.media asked.stats) }
{
    put_tracks_asked(buffer, out, timeline, asked.tracks);
    put_clips_asked(buffer, out, timeline, Told::Name, asked.clips);
    put_clips_asked(buffer, out, timeline, Told::Key, asked.media);
    put_stats_asked(buffer, out, timeline, asked.stats);
}

// Hands over the lines of the tracks where they are asked for.
fn put_tracks_asked<W: Out>(buffer: &mut OutBuffer, out: &mut W, timeline: &Timeline, asked: bool)
    ensures { HandsOver W.known W.faults out.old out.new buffer.old buffer.new
        (where_asked asked (tracks_text timeline.now)) }
{
    if asked {
        put_tracks(buffer, out, &timeline.tracks.children);
    }
}

// Hands over the lines of the clips, or of their media, where they are asked for.
fn put_clips_asked<W: Out>(
    buffer: &mut OutBuffer,
    out: &mut W,
    timeline: &Timeline,
    told: Told,
    asked: bool,
)
    ensures { HandsOver W.known W.faults out.old out.new buffer.old buffer.new
        (where_asked asked (spot_lines told [] (spots timeline.now.tracks.children))) }
{
    if asked {
        put_clips(buffer, out, told, &Way::Root, &timeline.tracks.children);
    }
}

// Hands over the numbers where they are asked for.
fn put_stats_asked<W: Out>(buffer: &mut OutBuffer, out: &mut W, timeline: &Timeline, asked: bool)
    requires { count timeline.now.tracks.children < 2 ^ 32 }
    ensures { HandsOver W.known W.faults out.old out.new buffer.old buffer.new
        (where_asked asked (stats_text timeline.now)) }
{
    if asked {
        put_stats(buffer, out, timeline);
    }
}
