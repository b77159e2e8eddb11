// Which calls of a device in memory fail, and how many bytes one takes at most.
ghost use Rattle.std.specs.Prelude.{◌≡◌, ◌+◌, ◌-◌, ◌^◌, ◌<◌, ◌≤◌, ◌↔◌, [], ◌∷◌, ◌++◌, Contains, IsTrue, OnOk, OnErr};

use std::alloc::{AllocError, Global};

// Whether the list has that number.
fn is_listed(calls: &[u64], call: u64) -> bool
    ensures { IsTrue result ↔ Contains calls.now call }
{
    calls.contains(&call)
}

/// The numbers of the calls that fail, from 1 on, how many came and failed so far, and the greatest
/// piece of one.
#[derive(Drop)]
pub(crate) struct Schedule {
    failing: Vec<u64>,
    calls: u64,
    faults: u64,
    most: usize,
    ghost takes_some: { 0 < most },
}

impl Schedule {
    ghost use Rattle.dev_io.specs.Timetable.{timetable_of, fresh_timetable, after_call, raised, IsDue};

    /// No call fails, and none is bounded.
    pub(crate) fn new(alloc: Global) -> Schedule
        ensures { timetable_of result ≡ fresh_timetable }
    {
        Schedule {
            failing: Vec::new(alloc),
            calls: 0,
            faults: 0,
            most: usize::MAX,
        }
    }

    /// The call of that number fails.
    pub(crate) fn fail_on(&mut self, call: u64) -> Result<(), AllocError>
        ensures ok { OnOk result (timetable_of self.new ≡
            record (timetable_of self.old) {
              failing = (timetable_of self.old).failing ++ call ∷
                  [];
            }) }
        ensures err { OnErr result (timetable_of self.new ≡ timetable_of self.old) }
    {
        self.failing.push(call)?;
        Ok(())
    }

    /// From here on a call takes at most so many bytes.
    pub(crate) fn piece(&mut self, most: usize)
        requires { 0 < most }
        ensures { timetable_of self.new ≡ record (timetable_of self.old) { most = most } }
    {
        self.most = most;
    }

    /// How many bytes a call takes at most.
    pub(crate) fn most(&self) -> usize
        ensures most { result ≡ (timetable_of self.now).most }
        ensures some { 0 < result }
    {
        self.most
    }

    /// Counts a call, and says whether it is to fail, which is counted too.
    pub(crate) fn fails(&mut self) -> bool
        ensures due { IsTrue result ↔ IsDue (timetable_of self.old) }
        ensures counted { timetable_of self.new ≡ after_call result (timetable_of self.old) }
        ensures later { (timetable_of self.old).faults ≤ (timetable_of self.new).faults }
    {
        self.calls = self.calls.saturating_add(1);
        let failed = is_listed(&self.failing, self.calls);
        if failed {
            self.count_fault();
        }
        failed
    }

    /// Counts a failure.
    pub(crate) fn count_fault(&mut self)
        ensures counted { timetable_of self.new ≡
            record (timetable_of self.old) { faults = raised (timetable_of self.old).faults } }
        ensures later { (timetable_of self.old).faults ≤ (timetable_of self.new).faults }
    {
        self.faults = self.faults.saturating_add(1);
    }
}
