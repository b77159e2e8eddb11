//! How long lists and inputs are.

ghost use Rattle.std.specs.Prelude.{◌≡◌, ◌<◌, ◌≤◌, ◌^◌, ◌≤ℤ◌, min, pos};
ghost use Rattle.limits.specs.Limits.{most_ticks};
ghost use Rattle.tick_time.specs.Rates.{frame};
ghost use Rattle.otio_model.specs.Counts.{count};
ghost use Rattle.otio_model.specs.Trees.{items_of};
ghost use Rattle.edits.specs.Edges.{added};
ghost use Rattle.flat.specs.Joined as joined;
ghost use Rattle.pieces.specs.Short.{AreCuttable};

use limits::MOST_TICKS;
use otio_model::Children;
use tick_time::Rate;

/// How long children are one after another, in ticks. It takes no step for each child.
#[tactic(auto, using(crate::proofs::MeasureLemmas::sums))]
pub(crate) fn total_ticks(children: &Children) -> i128
    requires few { count children.now < 2 ^ 32 }
    requires cuttable { AreCuttable (items_of children.now) }
    ensures value { result ≡ added (items_of children.now) }
    ensures low { pos 0 ≤ℤ result }
    ensures high { result ≤ℤ pos 10000000000000000000000000000000000 }
{
    children.added_ticks() as i128
}

// How long the longest of some root children is, in ticks. It takes no step for each.
#[tactic(auto, using(crate::proofs::MeasureLemmas::longests))]
fn longest_ticks(children: &Children) -> u128
    requires few { count children.now < 2 ^ 32 }
    requires cuttable { AreCuttable (items_of children.now) }
    ensures value { result ≡ joined.longest_root (items_of children.now) }
    ensures high { result ≤ most_ticks }
{
    children.longest_ticks()
}

// So many ticks up to whole frames of so many.
fn rounded_up(frame: u128, ticks: u128) -> u128
    requires positive { 0 < frame }
    requires small { frame ≤ 705600000000000000 }
    requires high { ticks ≤ most_ticks }
    ensures value { result ≡ joined.rounded_up frame ticks }
    ensures high { result ≤ 1000000000000000000000000 }
{
    ((ticks + (frame - 1)) / frame) * frame
}

// The lesser of so many ticks and the most that there may be.
fn at_most(ticks: u128) -> i128
    requires { ticks ≤ 1000000000000000000000000 }
    ensures value { result ≡ pos (min ticks most_ticks) }
    ensures low { pos 0 ≤ℤ result }
    ensures high { result ≤ℤ pos most_ticks }
{
    let ticks = ticks as i128;
    if ticks < MOST_TICKS {
        return ticks;
    }
    MOST_TICKS
}

/// How long an input of these root children is when others follow, at a record rate.
pub(crate) fn stretch_of(children: &Children, rate: Rate) -> i128
    requires few { count children.now < 2 ^ 32 }
    requires cuttable { AreCuttable (items_of children.now) }
    ensures value { result ≡ joined.stretch (frame rate.num rate.den) (items_of children.now) }
    ensures low { pos 0 ≤ℤ result }
    ensures high { result ≤ℤ pos most_ticks }
{
    at_most(rounded_up(rate.frame_ticks().unsigned_abs(), longest_ticks(children)))
}
