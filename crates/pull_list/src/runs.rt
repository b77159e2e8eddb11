//! Sets of frames, as runs of frame numbers in each group.

ghost use Rattle.std.specs.Prelude.{◌≡◌, ◌⊎◌, ◌↔◌, ◌<◌, ◌∷◌, ◌++◌, [], ℕ, ℤ, pos, ◌+ℤ◌, ◌-ℤ◌, ◌≤ℤ◌, ◌<ℤ◌, IfOk, IfSome, OnOk, IsTrue};
ghost use Rattle.pull_list.specs.Runs.{AreApart, AreSorted, Each, EndsBefore, Has, HasOne, IsGreater, IsLesser, IsOfRun, IsRun, IsWithin, Precedes, Puts, StartsBy};

use std::alloc::{AllocError, Global};

/// Frame numbers of a group that follow one another.
#[derive(Clone, Copy)]
pub(crate) struct Run {
    /// The number of the group.
    pub(crate) group: usize,
    /// The first number.
    pub(crate) first: i128,
    /// The number after the last.
    pub(crate) past: i128,
}

// Whether a run that starts no earlier than another meets it or begins at its end.
fn touches(one: Run, other: Run) -> bool
    ensures { IsTrue result ↔ ((one.group ≡ other.group) × (other.first ≤ℤ one.past)) }
{
    one.group == other.group && other.first <= one.past
}

// One run of two of a group, of which the second starts no earlier and no later than at the
// first one's end.
fn joined(one: Run, other: Run) -> Run
    ensures group { result.group ≡ one.group }
    ensures first { result.first ≡ one.first }
    ensures past { IsGreater one.past other.past result.past }
{
    Run {
        past: one.past.max(other.past),
        ..one
    }
}

// The same runs in the order of their groups and their first numbers.
fn sorted(runs: Vec<Run>) -> Vec<Run>
    ensures sorted { AreSorted result.items }
    ensures has { (k : ℕ) (v : ℤ) → Has result.items k v ↔ Has runs.items k v }
    ensures runs { Each IsRun runs.items → Each IsRun result.items }
    ensures within { (n : ℕ) → Each (IsWithin n) runs.items → Each (IsWithin n) result.items }
{
    let mut runs = runs;
    runs.sort_unstable_by_key(|run| (run.group, run.first));
    runs
}

/// The runs of the same numbers in order, of which no two meet or touch.
pub(crate) fn merged(alloc: Global, runs: Vec<Run>) -> Result<Vec<Run>, AllocError>
    requires { Each IsRun runs.items }
    ensures has { IfOk result (λ all. (k : ℕ) (v : ℤ) → Has all.items k v ↔ Has runs.items k v) }
    ensures apart { IfOk result (λ all. AreApart all.items) }
    ensures within { (n : ℕ) → Each (IsWithin n) runs.items
        → IfOk result (λ all. Each (IsWithin n) all.items) }
{
    if are_apart(runs.as_slice()) {
        return Ok(runs);
    }
    let runs = sorted(runs);
    match runs.as_slice().split_first() {
        Some((first, more)) => merged_from(alloc, *first, more),
        None => Ok(Vec::new(alloc)),
    }
}

// Whether the runs are in order, and no two meet or touch.
fn are_apart(runs: &[Run]) -> bool
    requires { Each IsRun runs.now }
    ensures { IsTrue result → AreApart runs.now }
{
    let Some((first, more)) = runs.split_first() else {
        return true;
    };
    let mut last = *first;
    'runs: for &run in more {
        if !precedes(last, run) {
            return false;
        }
        last = run;
    }
    true
}

// Whether a run ends before another begins, in one group with a number between them.
fn precedes(one: Run, other: Run) -> bool
    ensures { IsTrue result → Precedes one other }
{
    if one.group == other.group {
        one.past < other.first
    } else {
        one.group < other.group
    }
}

/// Adds a run to the last one, where that starts no later and the two meet or touch; else after it.
pub(crate) fn put_run(runs: &mut Vec<Run>, run: Run) -> Result<(), AllocError>
    ensures { OnOk result (Puts runs.old.items runs.new.items run) }
{
    match runs.pop() {
        Some(last) => put_after(runs, last, run),
        None => {
            runs.push(run)?;
            Ok(())
        }
    }
}

// Adds two runs, the second to the first where that starts no later and the two meet or touch.
fn put_after(runs: &mut Vec<Run>, last: Run, run: Run) -> Result<(), AllocError>
    ensures { OnOk result (Puts (runs.old.items ++ last ∷ []) runs.new.items run) }
{
    if does_continue(last, run) {
        runs.push(joined(last, run))?;
        return Ok(());
    }
    runs.push(last)?;
    runs.push(run)?;
    Ok(())
}

// Whether a run starts no earlier than another, and meets it or begins at its end.
fn does_continue(one: Run, other: Run) -> bool
    ensures { IsTrue result
        → ((one.group ≡ other.group) × (one.first ≤ℤ other.first) × (other.first ≤ℤ one.past)) }
{
    touches(one, other) && one.first <= other.first
}

/// The runs with more of them, but for those that one of them covers, where that is found.
pub(crate) fn with_more(runs: Vec<Run>, more: &[Run]) -> Result<Vec<Run>, AllocError>
    ensures has { IfOk result (λ all. (k : ℕ) (v : ℤ) →
        Has all.items k v ↔ (Has runs.items k v ⊎ Has more.now k v)) }
    ensures runs { Each IsRun runs.items → Each IsRun more.now
        → IfOk result (λ all. Each IsRun all.items) }
    ensures within { (n : ℕ) → Each (IsWithin n) runs.items → Each (IsWithin n) more.now
        → IfOk result (λ all. Each (IsWithin n) all.items) }
{
    let mut all = runs;
    let mut at = 0;
    'more: for &run in more {
        at = next_at(all.as_slice(), at, run);
        put_uncovered(&mut all, at, run)?;
    }
    Ok(all)
}

// The place after one, where the run there ends before another.
fn next_at(runs: &[Run], at: usize, run: Run) -> usize {
    match runs.get(at) {
        Some(one) => {
            if ends_before(*one, run) {
                at.saturating_add(1)
            } else {
                at
            }
        }
        None => at,
    }
}

// Adds a run after the others, where the one at a place doesn't cover it.
fn put_uncovered(runs: &mut Vec<Run>, at: usize, run: Run) -> Result<(), AllocError>
    ensures { OnOk result (Puts runs.old.items runs.new.items run) }
{
    if is_covered(runs.as_slice(), at, run) {
        return Ok(());
    }
    runs.push(run)?;
    Ok(())
}

// Whether the run at a place has all numbers of another.
fn is_covered(runs: &[Run], at: usize, run: Run) -> bool
    ensures { IsTrue result → (k : ℕ) (v : ℤ) → IsOfRun run k v → Has runs.now k v }
{
    match runs.get(at) {
        Some(one) => covers(*one, run),
        None => false,
    }
}

// Whether a run has all numbers of another.
fn covers(one: Run, other: Run) -> bool
    ensures { IsTrue result → ((one.group ≡ other.group) × (one.first ≤ℤ other.first)
        × (other.past ≤ℤ one.past)) }
{
    one.group == other.group && (one.first <= other.first && other.past <= one.past)
}

// The same of sorted runs.
fn merged_from(alloc: Global, first: Run, more: &[Run]) -> Result<Vec<Run>, AllocError>
    requires runs { Each IsRun (first ∷ more.now) }
    requires sorted { AreSorted (first ∷ more.now) }
    ensures has { IfOk result
        (λ all. (k : ℕ) (v : ℤ) → Has all.items k v ↔ Has (first ∷ more.now) k v) }
    ensures apart { IfOk result (λ all. AreApart all.items) }
    ensures within { (n : ℕ) → Each (IsWithin n) (first ∷ more.now)
        → IfOk result (λ all. Each (IsWithin n) all.items) }
{
    let mut all = Vec::new(alloc);
    let mut last = first;
    'runs: for &run in more {
        if touches(last, run) {
            last = joined(last, run);
        } else {
            all.push(last)?;
            last = run;
        }
    }
    all.push(last)?;
    Ok(all)
}

// Whether a run ends before another in the order of groups and numbers.
fn ends_before(one: Run, other: Run) -> bool
    ensures { IsTrue result ↔ EndsBefore one other }
{
    if one.group == other.group {
        one.past < other.past
    } else {
        one.group < other.group
    }
}

// The first number of the run that begins later.
fn later_first(one: Run, other: Run) -> i128
    ensures { IsGreater one.first other.first result }
{
    one.first.max(other.first)
}

// The number after the last one of the run that ends earlier.
fn earlier_past(one: Run, other: Run) -> i128
    ensures { IsLesser one.past other.past result }
{
    one.past.min(other.past)
}

// The numbers that are in both of two runs; none where there is none.
fn overlap(one: Run, other: Run) -> Option<Run>
    ensures has { (k : ℕ) (v : ℤ) → (IsOfRun one k v × IsOfRun other k v) ↔ HasOne result k v }
    ensures run { IfSome result IsRun }
    ensures within { (n : ℕ) → IsWithin n one → IfSome result (IsWithin n) }
{
    if one.group != other.group {
        return None;
    }
    let first = later_first(one, other);
    let past = earlier_past(one, other);
    if first < past {
        Some(Run {
            group: one.group,
            first,
            past,
        })
    } else {
        None
    }
}

/// Runs of the numbers that are in both, where no two runs of either meet and they are in order.
pub(crate) fn common(alloc: Global, one: &[Run], other: &[Run]) -> Result<Vec<Run>, AllocError>
    requires one { AreApart one.now }
    requires other { AreApart other.now }
    ensures has { IfOk result (λ both. (k : ℕ) (v : ℤ) →
        Has both.items k v ↔ (Has one.now k v × Has other.now k v)) }
    ensures runs { IfOk result (λ both. Each IsRun both.items) }
    ensures within { (n : ℕ) → Each (IsWithin n) one.now
        → IfOk result (λ both. Each (IsWithin n) both.items) }
{
    let mut both = Vec::new(alloc);
    let mut at = 0;
    let mut next = 0;
    'pairs: while at < one.len() && next < other.len() {
        add_overlap(&mut both, one[at], other[next])?;
        if ends_before(one[at], other[next]) {
            at += 1;
        } else {
            next += 1;
        }
    }
    Ok(both)
}

// Adds the numbers that are in both of two runs.
fn add_overlap(both: &mut Vec<Run>, one: Run, other: Run) -> Result<(), AllocError>
    ensures has { OnOk result ((k : ℕ) (v : ℤ) → Has both.new.items k v
        ↔ (Has both.old.items k v ⊎ (IsOfRun one k v × IsOfRun other k v))) }
    ensures runs { Each IsRun both.old.items → OnOk result (Each IsRun both.new.items) }
    ensures within { (n : ℕ) → IsWithin n one → Each (IsWithin n) both.old.items
        → OnOk result (Each (IsWithin n) both.new.items) }
{
    match overlap(one, other) {
        Some(run) => {
            both.push(run)?;
            Ok(())
        }
        None => Ok(()),
    }
}
