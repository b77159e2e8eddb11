//! The frames that are used, as they are found.

ghost use Rattle.std.specs.Prelude.{◌≡◌, ◌<◌, ◌≤◌, [], ℕ, pos, ◌-ℤ◌, ◌≤ℤ◌, ◌<ℤ◌, Some, IfOk, IfSome, OnOk, Contains, MatchOption, slice_get};
ghost use Rattle.pull_list.specs.Found.{TakesFrame, group_in};
ghost use Rattle.pull_list.specs.Labels.{HasNumber, IsNumber};
ghost use Rattle.pull_list.specs.Runs.{Each, IsRun, far};

use crate::groups::{Group, Groups, is_same};
use crate::runs::Run;
use crate::taking::{LEAST_RUNS, add_number};
use std::alloc::{AllocError, Global};

/// The frames that were found so far, as runs of numbers by the groups of their clips.
#[derive(Drop)]
pub struct Used<'a> {
    pub(crate) groups: Groups<'a>,
    pub(crate) runs: Vec<Run>,
    /// How many runs there are when they are merged.
    most: usize,
    alloc: Global,
}

impl<'a> Used<'a> {
    /// No frames, of clips of these groups.
    pub(crate) fn new(alloc: Global, groups: Groups<'a>) -> Used<'a>
        ensures groups { result.groups ≡ groups.entry }
        ensures runs { result.runs.items ≡ [] }
    {
        Used {
            groups,
            runs: Vec::new(alloc),
            most: LEAST_RUNS,
            alloc,
        }
    }

    /// Takes a frame of a group in, where the group is known.
    pub(crate) fn add(&mut self, group: Group<'a>, number: i128) -> Result<(), AllocError>
        requires runs { Each IsRun self.old.runs.items }
        requires low { (pos 0 -ℤ pos far) ≤ℤ number }
        requires high { number <ℤ pos far }
        ensures groups { self.new.groups ≡ self.old.groups }
        ensures taken { OnOk result (TakesFrame self.old.groups (group_in group.entry) number
            self.old.runs.items self.new.runs.items) }
    {
        match self.number_of(group) {
            Some(known) => {
                let (runs, most) = (&mut self.runs, &mut self.most);
                add_number(self.alloc, runs, most, known, number)
            }
            None => Ok(()),
        }
    }

    // The number of a group. It is mostly that of one of the last two runs.
    fn number_of(&self, group: Group<'a>) -> Option<usize>
        ensures { MatchOption result (HasNumber self.now.groups (group_in group.entry) → ⊥)
            (IsNumber self.now.groups (group_in group.entry)) }
    {
        if let Some(number) = self.recent(1, group) {
            return Some(number);
        }
        if let Some(number) = self.recent(2, group) {
            return Some(number);
        }
        self.groups.number_of(group)
    }

    // The number of a group, where the run that stands so far from the end is of it.
    fn recent(&self, back: usize, group: Group<'a>) -> Option<usize>
        requires { 1 ≤ back }
        ensures { IfSome result (IsNumber self.now.groups (group_in group.entry)) }
    {
        if back > self.runs.len() {
            return None;
        }
        let number = self.runs[self.runs.len() - back].group;
        if number >= self.groups.len() {
            return None;
        }
        if is_same(self.groups.at(number), group) {
            Some(number)
        } else {
            None
        }
    }

    /// The groups, and the runs of the frames that were found.
    pub(crate) fn into_parts(self) -> (Groups<'a>, Vec<Run>)
        ensures groups { result.0 ≡ self.entry.groups }
        ensures runs { result.1.items ≡ self.entry.runs.items }
    {
        let Used { groups, runs, .. } = self;
        (groups, runs)
    }
}
