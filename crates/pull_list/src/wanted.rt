//! The frames that are wanted: those that are used, and the available ones near them.

ghost use Rattle.std.specs.Prelude.{◌≡◌, ◌⊎◌, ◌↔◌, ◌≤◌, ◌∷◌, [], ◌^◌, ℕ, ℤ, pos, ◌-ℤ◌, ◌+ℤ◌, IfOk};
ghost use Rattle.pull_list.specs.Runs.{AreApart, Each, Has, HasNear, IsOfRun, IsRun, IsWithin, far, further};

use crate::runs::{Run, common, merged, put_run, with_more};
use std::alloc::{AllocError, Global};

/// The runs of the frames that are wanted, where these are used, those are available, and handles
/// of so many frames are wanted too. They are in order, and no two of a group meet or touch.
pub(crate) fn wanted(
    alloc: Global,
    used: Vec<Run>,
    available: Vec<Run>,
    handles: u32,
) -> Result<Vec<Run>, AllocError>
    requires handles { handles ≤ 10000 }
    requires used { Each IsRun used.items }
    requires within { Each (IsWithin far) used.items }
    requires available { Each IsRun available.items }
    ensures has { IfOk result (λ all. (k : ℕ) (v : ℤ) → Has all.items k v ↔ (Has used.items k v
        ⊎ (HasNear used.items handles k v × Has available.items k v))) }
    ensures apart { IfOk result (λ all. AreApart all.items) }
    ensures within { IfOk result (λ all. Each (IsWithin further) all.items) }
{
    let used = merged(alloc, used)?;
    if handles == 0 {
        return Ok(used);
    }
    with_handles(alloc, used.as_slice(), available, handles)
}

// The same of runs that are in order, of which no two meet or touch.
fn with_handles(
    alloc: Global,
    used: &[Run],
    available: Vec<Run>,
    handles: u32,
) -> Result<Vec<Run>, AllocError>
    requires handles { handles ≤ 10000 }
    requires used { AreApart used.now }
    requires within { Each (IsWithin far) used.now }
    requires available { Each IsRun available.items }
    ensures has { IfOk result (λ all. (k : ℕ) (v : ℤ) → Has all.items k v ↔ (Has used.now k v
        ⊎ (HasNear used.now handles k v × Has available.items k v))) }
    ensures apart { IfOk result (λ all. AreApart all.items) }
    ensures within { IfOk result (λ all. Each (IsWithin further) all.items) }
{
    let near = near_runs(alloc, used, handles)?;
    let available = merged(alloc, available)?;
    let all = common(alloc, near.as_slice(), available.as_slice())?;
    let all = with_more(all, used)?;
    merged(alloc, all)
}

// The runs of the frames that are no further than so many from one of these, in order; no two of
// a group meet or touch.
fn near_runs(alloc: Global, runs: &[Run], handles: u32) -> Result<Vec<Run>, AllocError>
    requires handles { handles ≤ 10000 }
    requires runs { AreApart runs.now }
    requires within { Each (IsWithin far) runs.now }
    ensures has { IfOk result (λ near. (k : ℕ) (v : ℤ) →
        Has near.items k v ↔ HasNear runs.now handles k v) }
    ensures apart { IfOk result (λ near. AreApart near.items) }
    ensures within { IfOk result (λ near. Each (IsWithin further) near.items) }
{
    merged(alloc, widened(alloc, runs, handles)?)
}

// The runs with so many numbers more at both ends.
fn widened(alloc: Global, runs: &[Run], handles: u32) -> Result<Vec<Run>, AllocError>
    requires handles { handles ≤ 10000 }
    requires runs { Each IsRun runs.now }
    requires within { Each (IsWithin far) runs.now }
    ensures has { IfOk result (λ near. (k : ℕ) (v : ℤ) →
        Has near.items k v ↔ HasNear runs.now handles k v) }
    ensures runs { IfOk result (λ near. Each IsRun near.items) }
    ensures within { IfOk result (λ near. Each (IsWithin further) near.items) }
{
    let mut near = Vec::new(alloc);
    'runs: for &run in runs {
        put_run(&mut near, widen(run, handles))?;
    }
    Ok(near)
}

// A run with so many numbers more at both ends.
fn widen(run: Run, handles: u32) -> Run
    requires handles { handles ≤ 10000 }
    requires within { IsWithin far run }
    ensures group { result.group ≡ run.group }
    ensures first { result.first ≡ run.first -ℤ pos handles }
    ensures past { result.past ≡ run.past +ℤ pos handles }
    ensures within { IsWithin further result }
{
    Run {
        group: run.group,
        first: run.first - i128::from(handles),
        past: run.past + i128::from(handles),
    }
}
