//! Logs of changes.

ghost use Rattle.std.specs.Prelude.{◌≡◌, ◌↔◌, ◌<◌, ◌++◌, [], ◌∷◌, IfErr, IsErr, OnErr, OnOk, Some};
ghost use Rattle.std.specs.Prelude.{vec_len};
ghost use Rattle.std.specs.Vec.{vec_capacity};
ghost use Rattle.otio_model.specs.Patches.{IsFit, applied, undoing};
ghost use Rattle.otio_model.specs.Timelines.{bare};
ghost use Rattle.undo_log.specs.Histories.{unspared};
ghost use Rattle.undo_log.specs.States.{CrossesOver, IsKept, back, committed, forth, state_of};
ghost use Rattle.undo_log.specs.Rooms.{IsRoomForCommit, IsRoomForRedo, IsRoomForUndo};
ghost use Rattle.undo_log.specs.declared.faults.UndoFault.TheVariants.{NothingDone, NothingUndone};

use crate::faults::UndoFault;
use otio_model::{Patch, Timeline};
use std::alloc::{AllocError, Global};
use std::marker::Model;

/// The changes of a timeline that can be undone, and those that were undone and can be done again.
pub struct Log {
    past: Vec<Patch>,
    future: Vec<Patch>,
}

impl Model for Log {
    ghost use Rattle.undo_log.specs.Histories.{History, history_code};

    ghost Value = { History };

    ghost coded = { history_code };

    ghost use Rattle.undo_log.specs.Views.{history_of};

    ghost view = { history_of };
}

// Adds a patch where there is room for one.
fn keep(patches: &mut Vec<Patch>, patch: Patch)
    requires { vec_len patches.old < vec_capacity patches.old }
    ensures items { patches.new.items ≡ patches.old.items ++ patch ∷ [] }
{
    patches.push(patch).unwrap();
}

impl Log {
    /// A log of no changes. It takes no memory.
    pub fn new(alloc: Global) -> Log
        ensures past { result.past ≡ [] }
        ensures future { result.future ≡ [] }
    {
        Log {
            past: Vec::new(alloc),
            future: Vec::new(alloc),
        }
    }

    /// Makes the room that [`Log::commit`] needs for this patch, and changes nothing else. An error
    /// comes where memory runs out.
    pub fn room_commit(&mut self, timeline: &mut Timeline, patch: &Patch) -> Result<(), AllocError>
        requires kept { IsKept self.old timeline.old }
        requires fits { IsFit patch.now timeline.old }
        ensures room { OnOk result (IsRoomForCommit patch.now self.new timeline.new) }
        ensures kept { IsKept self.new timeline.new }
        ensures fits { IsFit patch.now timeline.new }
        ensures log { unspared self.new ≡ unspared self.old }
        ensures timeline { bare timeline.new ≡ bare timeline.old }
    {
        match timeline.room(patch) {
            Ok(()) => self.past.reserve(1),
            Err(e) => Err(e),
        }
    }

    /// Makes the room that [`Log::undo`] needs, and changes nothing else. An error comes where
    /// memory runs out.
    pub fn room_undo(&mut self, timeline: &mut Timeline) -> Result<(), AllocError>
        requires kept { IsKept self.old timeline.old }
        ensures room { OnOk result (IsRoomForUndo self.new timeline.new) }
        ensures kept { IsKept self.new timeline.new }
        ensures log { unspared self.new ≡ unspared self.old }
        ensures timeline { bare timeline.new ≡ bare timeline.old }
    {
        let Some(patch) = self.past.last() else {
            return Ok(());
        };
        match timeline.room(patch) {
            Ok(()) => self.future.reserve(1),
            Err(e) => Err(e),
        }
    }

    /// Makes the room that [`Log::redo`] needs, and changes nothing else. An error comes where
    /// memory runs out.
    pub fn room_redo(&mut self, timeline: &mut Timeline) -> Result<(), AllocError>
        requires kept { IsKept self.old timeline.old }
        ensures room { OnOk result (IsRoomForRedo self.new timeline.new) }
        ensures kept { IsKept self.new timeline.new }
        ensures log { unspared self.new ≡ unspared self.old }
        ensures timeline { bare timeline.new ≡ bare timeline.old }
    {
        let Some(patch) = self.future.last() else {
            return Ok(());
        };
        match timeline.room(patch) {
            Ok(()) => self.past.reserve(1),
            Err(e) => Err(e),
        }
    }

    /// Changes the timeline by the patch and keeps what undoes it. What could be done again is
    /// dropped. It takes no memory.
    pub fn commit(&mut self, timeline: &mut Timeline, patch: Patch)
        requires kept { IsKept self.old timeline.old }
        requires fits { IsFit patch timeline.old }
        requires room { IsRoomForCommit patch self.old timeline.old }
        ensures kept { IsKept self.new timeline.new }
        ensures state { state_of self.new timeline.new
            ≡ committed patch (state_of self.old timeline.old) }
        ensures past { self.new.past ≡ undoing patch timeline.old ∷ self.old.past }
        ensures future { self.new.future ≡ [] }
    {
        let undo = timeline.apply(patch);
        keep(&mut self.past, undo);
        self.future.clear();
    }

    /// Moves back by one change. [`UndoFault::NothingDone`] comes exactly where none stands before;
    /// log and timeline are then as they were. It takes no memory.
    pub fn undo(&mut self, timeline: &mut Timeline) -> Result<(), UndoFault>
        requires kept { IsKept self.old timeline.old }
        requires room { IsRoomForUndo self.old timeline.old }
        ensures kept { IsKept self.new timeline.new }
        ensures state { OnOk result
            (back (state_of self.old timeline.old) ≡ Some (state_of self.new timeline.new)) }
        ensures patches { OnOk result (CrossesOver timeline.old self.old.past self.old.future
            self.new.past self.new.future) }
        ensures exact { IsErr result ↔ (self.old.past ≡ []) }
        ensures fault { IfErr result (λ fault. fault ≡ NothingDone) }
        ensures log { OnErr result (self.new ≡ self.old) }
        ensures timeline { OnErr result (timeline.new ≡ timeline.old) }
    {
        let Some(patch) = self.past.pop() else {
            return Err(UndoFault::NothingDone);
        };
        let redo = timeline.apply(patch);
        keep(&mut self.future, redo);
        Ok(())
    }

    /// Moves forward by one change. [`UndoFault::NothingUndone`] comes exactly where none stands
    /// after; log and timeline are then as they were. It takes no memory.
    pub fn redo(&mut self, timeline: &mut Timeline) -> Result<(), UndoFault>
        requires kept { IsKept self.old timeline.old }
        requires room { IsRoomForRedo self.old timeline.old }
        ensures kept { IsKept self.new timeline.new }
        ensures state { OnOk result
            (forth (state_of self.old timeline.old) ≡ Some (state_of self.new timeline.new)) }
        ensures patches { OnOk result (CrossesOver timeline.old self.old.future self.old.past
            self.new.future self.new.past) }
        ensures exact { IsErr result ↔ (self.old.future ≡ []) }
        ensures fault { IfErr result (λ fault. fault ≡ NothingUndone) }
        ensures log { OnErr result (self.new ≡ self.old) }
        ensures timeline { OnErr result (timeline.new ≡ timeline.old) }
    {
        let Some(patch) = self.future.pop() else {
            return Err(UndoFault::NothingUndone);
        };
        let undo = timeline.apply(patch);
        keep(&mut self.past, undo);
        Ok(())
    }
}

// Drops are written out: a derived one is proved anew in each crate that drops such a value.

impl Drop for Log {
    fn drop(self) {
        let Log { past: _, future: _ } = self;
    }
}
