//! How long items are.

ghost use Rattle.limits.specs.Limits.{most_ticks};
ghost use Rattle.std.specs.Prelude.{◌≡◌, ◌<◌, ◌≤◌, ◌^◌, Some, None, length, slice_get, pos, ◌≤ℤ◌};
ghost use Rattle.std.specs.Prelude.{◌-ℤ◌};
ghost use Rattle.otio_model.specs.Counts.{count_of};
ghost use Rattle.otio_model.specs.Lengths.{length_of};
ghost use Rattle.otio_model.specs.Lengths as lengths;
ghost use Rattle.edits.specs.Children as children;
ghost use Rattle.pieces.specs.Short.{IsShort, IsCuttable};

use coord::trimmed_start;
use otio_model::Item;

/// The item at an index.
pub fn member(list: &[Item], index: usize) -> &Item
    requires { index < length list.now }
    ensures { slice_get list.now index ≡ Some result.now }
{
    &list[index]
}

/// How long an item is, in ticks, 0 where it has no length.
pub fn known_ticks(item: &Item) -> u128
    requires { count_of item.now < 2 ^ 32 }
    ensures { result ≡ lengths.or_zero (length_of item.now) }
{
    match item.length() {
        Some(ticks) => ticks.unsigned_abs(),
        None => 0,
    }
}

// How long an item is that is at most a million seconds long, in ticks.
#[tactic(auto, using(crate::proofs::Grown::short_ticks))]
fn short_ticks(item: &Item) -> u128
    requires { IsShort item.now }
    ensures value { pos result ≡ children.ticks item.now }
    ensures small { result ≤ most_ticks }
{
    known_ticks(item)
}

/// How long an item is in its list, in ticks; a transition takes no time there.
pub fn ticks_of(item: &Item) -> i128
    requires { IsShort item.now }
    ensures value { result ≡ children.ticks item.now }
    ensures low { pos 0 ≤ℤ result }
    ensures high { result ≤ℤ pos most_ticks }
{
    short_ticks(item) as i128
}

/// Where the trimmed range of an item starts, in ticks.
#[tactic(auto, using(crate::proofs::Faultless::starts_near))]
pub fn start_ticks(item: &Item) -> i128
    ensures value { result ≡ lengths.trimmed_start item.now }
    ensures low { (pos 0 -ℤ pos most_ticks) ≤ℤ result }
    ensures high { result ≤ℤ pos most_ticks }
{
    trimmed_start(item)
}

/// How long an item without a fault is in its list, in ticks.
#[tactic(auto, using(crate::proofs::Faultless::faultless_is_short))]
pub fn sound_ticks(item: &Item) -> i128
    requires { IsCuttable item.now }
    ensures value { result ≡ children.ticks item.now }
    ensures low { pos 0 ≤ℤ result }
    ensures high { result ≤ℤ pos most_ticks }
{
    ticks_of(item)
}
