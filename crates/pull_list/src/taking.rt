//! Numbers that are taken in one by one.

ghost use Rattle.std.specs.Prelude.{◌≡◌, ◌⊎◌, ◌↔◌, ◌<◌, ◌≤◌, ℕ, ℤ, pos, ◌-ℤ◌, ◌≤ℤ◌, ◌<ℤ◌, ◌+ℤ◌, false, IsTrue, OnOk, length};
ghost use Rattle.pull_list.specs.Runs.{Adds, Each, Has, IsExtended, IsNext, IsOfRun, IsRun, IsWithin, far};

use crate::runs::{Run, merged};
use std::alloc::{AllocError, Global};
use std::mem;

/// How many runs are kept at least before they are merged.
pub(crate) const LEAST_RUNS: usize = 65_536;

/// Takes a frame number of a group in. Where there are too many runs they are merged, and `most`
/// is then how many are kept before that is done again.
pub(crate) fn add_number(
    alloc: Global,
    runs: &mut Vec<Run>,
    most: &mut usize,
    group: usize,
    number: i128,
) -> Result<(), AllocError>
    requires runs { Each IsRun runs.old.items }
    requires low { (pos 0 -ℤ pos far) ≤ℤ number }
    requires high { number <ℤ pos far }
    ensures { OnOk result (Adds runs.old.items runs.new.items group number) }
{
    if is_taken(runs, 1, group, number) {
        return Ok(());
    }
    if is_taken(runs, 2, group, number) {
        return Ok(());
    }
    if runs.len() >= *most {
        merge(alloc, runs)?;
        *most = LEAST_RUNS.max(runs.len().saturating_mul(2));
    }
    runs.push(run_of(group, number))?;
    Ok(())
}

// Takes a number in at the run that stands so far from the end, where it is one of the run's or
// stands next to it. The result is whether that is so.
fn is_taken(runs: &mut Vec<Run>, back: usize, group: usize, number: i128) -> bool
    requires runs { Each IsRun runs.old.items }
    requires back { 1 ≤ back }
    requires low { (pos 0 -ℤ pos far) ≤ℤ number }
    requires high { number <ℤ pos far }
    ensures taken { IsTrue result → Adds runs.old.items runs.new.items group number }
    ensures kept { result ≡ false → runs.new.items ≡ runs.old.items }
{
    if back > runs.len() {
        return false;
    }
    let at = runs.len() - back;
    let run = runs[at];
    if !is_next(run, group, number) {
        return false;
    }
    runs[at] = extended(run, number);
    true
}

// Whether a number of a group is one of the run's, or stands next to it.
fn is_next(run: Run, group: usize, number: i128) -> bool
    requires low { (pos 0 -ℤ pos far) ≤ℤ number }
    requires high { number <ℤ pos far }
    ensures { IsTrue result ↔ IsNext run group number }
{
    run.group == group && run.first <= number + 1 && number <= run.past
}

// The run with a number that is one of its own or stands next to it.
fn extended(run: Run, number: i128) -> Run
    requires low { (pos 0 -ℤ pos far) ≤ℤ number }
    requires high { number <ℤ pos far }
    ensures { IsExtended run number result }
{
    if number < run.first {
        return Run {
            first: number,
            ..run
        };
    }
    if number >= run.past {
        return Run {
            past: number + 1,
            ..run
        };
    }
    run
}

// Merges the runs.
fn merge(alloc: Global, runs: &mut Vec<Run>) -> Result<(), AllocError>
    requires { Each IsRun runs.old.items }
    ensures has { OnOk result ((k : ℕ) (v : ℤ) → Has runs.new.items k v ↔ Has runs.old.items k v) }
    ensures runs { OnOk result (Each IsRun runs.new.items) }
    ensures within { (n : ℕ) → Each (IsWithin n) runs.old.items
        → OnOk result (Each (IsWithin n) runs.new.items) }
{
    let all = mem::replace(runs, Vec::new(alloc));
    *runs = merged(alloc, all)?;
    Ok(())
}

// The run of one number.
fn run_of(group: usize, number: i128) -> Run
    requires low { (pos 0 -ℤ pos far) ≤ℤ number }
    requires high { number <ℤ pos far }
    ensures group { result.group ≡ group }
    ensures first { result.first ≡ number }
    ensures past { result.past ≡ number +ℤ pos 1 }
{
    Run {
        group,
        first: number,
        past: number + 1,
    }
}
