//! One drill.

ghost use Rattle.std.specs.Prelude.{◌≡◌, ◌<◌, ◌^◌, IfOk};
ghost use Rattle.otio_model.specs.Counts.{count};
ghost use Rattle.coord.specs.Programs.{start_frame as start_frame_of};
ghost use Rattle.coord.specs.Soundness.{IsFaultless, IsSound};
ghost use Rattle.undo_log.specs.States.{IsKept, state_of};
ghost use Rattle.edit_script.specs.Keeping.{HoldsEdits};
ghost use Rattle.drill.specs.Media.{rows};
ghost use Rattle.drill.specs.Told as told;
ghost use Rattle.drill.specs.Told.{DrillsTo, GoesThrough, IsToldOf};
ghost use Rattle.drill.specs.Turns.{round_of};
ghost use Rattle.drill.specs.Sums as sums;
ghost use Rattle.edit_script.specs.Steps.{IsReady};

use crate::channels::channel_sum;
use crate::edit_loop::{Edited, run_edits, undo_all};
use crate::generator::Random;
use crate::list_outcome::Listed;
use crate::list_round_trip::conformed;
use crate::record_frames::frames_of;
use crate::source_reels::media;
use crate::sums::back_sum;
use crate::tally::{Carried, Tally};
use crate::timeline::start_timeline;
use coord::start_frame;
use media_list::MediaList;
use otio_model::Timeline;
use std::alloc::{AllocError, Global};
use std::mem;
use undo_log::Log;

/// What a drill has come to.
#[derive(Drop)]
pub struct Drilled {
    /// What it reports.
    pub tally: Tally,
    /// The timeline after all edits are undone, which is that before the first.
    pub timeline: Timeline,
    /// The log of the accepted edits, all undone.
    pub log: Log,
}

/// Makes the timeline of a seed, draws and tries `count` edits of it, makes its list and conforms
/// it, and undoes all edits. An error comes where memory runs out.
pub fn drill(alloc: Global, seed: u64, count: u32) -> Result<Drilled, AllocError>
    ensures drill { IfOk result (λ done.
        DrillsTo seed count done.tally (state_of done.log done.timeline)) }
    ensures kept { IfOk result (λ done. IsKept done.log done.timeline) }
    ensures edits { IfOk result (λ done. HoldsEdits done.log done.timeline) }
{
    let media = media(alloc)?;
    let mut random = Random { state: seed };
    let timeline = start_timeline(alloc, &media, &mut random)?;
    let log = Log::new(alloc);
    let mut edited = Edited { timeline, log };
    match go_through(alloc, &mut edited, &media, &mut random, count) {
        Ok(tally) => {
            let Edited { timeline, log } = edited;
            Ok(Drilled {
                tally,
                timeline,
                log,
            })
        }
        Err(error) => {
            mem::forget(edited);
            Err(error)
        }
    }
}

// Draws and tries so many edits of a timeline, makes its list and conforms it, and undoes all
// edits.
fn go_through(
    alloc: Global,
    edited: &mut Edited,
    media: &MediaList,
    random: &mut Random,
    count: u32,
) -> Result<Tally, AllocError>
    requires media { media.now ≡ rows }
    requires ready { IsReady edited.old.log edited.old.timeline }
    ensures gone { IfOk result (λ tally. GoesThrough
        (round_of random.old.state edited.old.log edited.old.timeline 0) count tally
        (state_of edited.new.log edited.new.timeline)) }
    ensures ready { IsReady edited.new.log edited.new.timeline }
    ensures edits { HoldsEdits edited.old.log edited.old.timeline
        → HoldsEdits edited.new.log edited.new.timeline }
{
    let edits = run_edits(alloc, edited, media, random, count)?;
    let items = track_children(&edited.timeline);
    let carried = told(alloc, &edited.timeline, media)?;
    undo_all(alloc, &mut edited.timeline, &mut edited.log)?;
    match back_sum(alloc, &edited.timeline) {
        Ok(back) => Ok(Tally {
            edits,
            refused: count - edits,
            items,
            carried,
            back,
        }),
        Err(error) => Err(error),
    }
}

// How many children the first root child has; 0 where there is none.
fn track_children(timeline: &Timeline) -> usize
    ensures { result ≡ told.track_children timeline.now }
{
    match timeline.tracks.children.item(0) {
        Some(item) => match item.children() {
            Some(children) => children.len(),
            None => 0,
        },
        None => 0,
    }
}

// What is reported of the list of a timeline. The timeline that it conforms to isn't freed: what is
// left of a run is little.
fn told(alloc: Global, timeline: &Timeline, media: &MediaList) -> Result<Carried, AllocError>
    requires media { media.now ≡ rows }
    requires few { count timeline.now.tracks.children < 2 ^ 32 }
    requires sound { IsSound timeline.now }
    ensures { IfOk result (IsToldOf timeline.now) }
{
    match conformed(alloc, timeline, media) {
        Ok(
            Listed::List {
                events,
                timeline: again,
            },
        ) => {
            let shown = shown_of(alloc, timeline, &again);
            mem::forget(again);
            match shown {
                Ok(shown) => Ok(Carried::List {
                    events,
                    frames: frames_of(timeline),
                    shown,
                }),
                Err(error) => Err(error),
            }
        }
        Ok(Listed::No(why)) => Ok(Carried::No(why)),
        Err(error) => Err(error),
    }
}

// The numbers of the source frames that a timeline shows on channel V at the record frames of the
// first root child of another one, added up.
fn shown_of(alloc: Global, timeline: &Timeline, again: &Timeline) -> Result<i128, AllocError>
    requires few { count timeline.now.tracks.children < 2 ^ 32 }
    requires less { count again.now.tracks.children < 2 ^ 32 }
    requires sound { IsFaultless again.now }
    ensures { IfOk result (λ sum. sum
        ≡ sums.channel_sum again.now (start_frame_of timeline.now) (sums.frames_of timeline.now)) }
{
    channel_sum(alloc, again, start_frame(timeline), frames_of(timeline))
}
