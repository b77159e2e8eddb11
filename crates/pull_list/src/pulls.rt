//! The pull list of a timeline.

ghost use Rattle.std.specs.Prelude.{◌≡◌, ◌⊎◌, ◌<◌, ◌≤◌, ◌^◌, IfErr, IfOk};
ghost use Rattle.otio_model.specs.Counts.{count};
ghost use Rattle.coord.specs.Soundness.{IsFaultless};
ghost use Rattle.pull_list.specs.Stretches.{AreStretches, IsKnown, IsStretchOf};
ghost use Rattle.pull_list.specs.Pulled.{IsPullList, stretch_of, stretches_of};
ghost use Rattle.pull_list.specs.Record.{HasTooMany};
ghost use Rattle.pull_list.specs.Runs.{Each, IsRun, IsWithin, further};
ghost use Rattle.pull_list.specs.declared.spans.PullFault.TheVariants.{Frames, Memory};

use crate::clips::{Stock, stock_of};
use crate::groups::Groups;
use crate::record::{add_children, has_too_many};
use crate::runs::Run;
use crate::spans::{PullFault, PullSpan};
use crate::used::Used;
use crate::wanted::wanted;
use otio_model::Timeline;
use std::alloc::{AllocError, Global};

/// The pull list of a timeline: the frames of media that it shows at some record frame, and as
/// handles those that are at most so many frames away from one of them and that lie in the
/// available range of a clip of the same key and media rate. A clip whose media have no available
/// range has all frames. Clips of one key and one media rate are a group; the groups stand in the
/// order of their first clips in the document, disabled clips among them, and the spans of a group
/// ascend and don't touch. What is shown is what [`show_prog::show`] shows.
///
/// # Errors
/// [`PullFault::Frames`] exactly where the root children take more than 10 000 000 record frames
/// together, each rounded up to whole ones. [`PullFault::Memory`] comes where memory runs out.
pub fn pull<'a>(
    alloc: Global,
    timeline: &'a Timeline,
    handles: u32,
) -> Result<Vec<PullSpan<'a>>, PullFault>
    requires few { count timeline.now.tracks.children < 2 ^ 32 }
    requires sound { IsFaultless timeline.now }
    requires handles { handles ≤ 10000 }
    ensures list { IfOk result (λ spans.
        IsPullList timeline.now handles (stretches_of spans.items)) }
    ensures bounded { IfOk result (λ spans. HasTooMany timeline.now → ⊥) }
    ensures fault { IfErr result (λ fault. (fault ≡ Memory)
        ⊎ ((fault ≡ Frames) × HasTooMany timeline.now)) }
{
    if has_too_many(timeline) {
        return Err(PullFault::Frames);
    }
    Ok(pulled(alloc, timeline, handles)?)
}

// The pull list of a timeline that hasn't too many record frames.
fn pulled<'a>(
    alloc: Global,
    timeline: &'a Timeline,
    handles: u32,
) -> Result<Vec<PullSpan<'a>>, AllocError>
    requires few { count timeline.now.tracks.children < 2 ^ 32 }
    requires sound { IsFaultless timeline.now }
    requires handles { handles ≤ 10000 }
    requires bounded { HasTooMany timeline.now → ⊥ }
    ensures { IfOk result (λ spans. IsPullList timeline.now handles (stretches_of spans.items)) }
{
    let Stock { groups, available } = stock_of(alloc, &timeline.tracks.children)?;
    let mut used = Used::new(alloc, groups);
    add_children(&mut used, timeline)?;
    let (groups, runs) = used.into_parts();
    let runs = wanted(alloc, runs, available, handles)?;
    spans_of(alloc, &groups, runs.as_slice())
}

// Runs as spans of their groups.
fn spans_of<'a>(
    alloc: Global,
    groups: &Groups<'a>,
    runs: &[Run],
) -> Result<Vec<PullSpan<'a>>, AllocError>
    requires runs { Each IsRun runs.now }
    requires known { Each (IsKnown groups.now) runs.now }
    requires within { Each (IsWithin further) runs.now }
    ensures { IfOk result (λ spans. AreStretches groups.now runs.now (stretches_of spans.items)) }
{
    let mut spans = Vec::with_capacity(alloc, runs.len())?;
    'runs: for &run in runs {
        spans.push(span_of(groups, run))?;
    }
    Ok(spans)
}

// A run as a span of its group.
fn span_of<'a>(groups: &Groups<'a>, run: Run) -> PullSpan<'a>
    requires run { IsRun run }
    requires known { IsKnown groups.now run }
    requires within { IsWithin further run }
    ensures { IsStretchOf groups.now run (stretch_of result) }
{
    let group = groups.at(run.group);
    PullSpan {
        key: group.key,
        rate: group.rate,
        first: run.first,
        count: run.past - run.first,
    }
}
