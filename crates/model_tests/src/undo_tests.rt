//! A change that is made, undone and done again, on a copy of a timeline.

ghost use Rattle.undo_log.specs.States.{IsKept};

use crate::trees::{one, stack, timeline_of, track};
use otio_model::{Children, ItemOf, Items, Patch, Place, Put, PutItems, Timeline, copy_timeline};
use std::alloc::{AllocError, Global};
use std::test::Fail;
use undo_log::{Log, UndoFault};

// So many stacks of no items.
fn empty_stacks(alloc: Global, count: usize) -> Result<Items, AllocError> {
    let mut list = Vec::with_capacity(alloc, count)?;
    'stacks: for _ in 0..count {
        let children = Children::of(alloc, Items::new(alloc))?;
        list.push(ItemOf::Stack(stack(alloc, children)))?;
    }
    Ok(Items::of(list))
}

// A timeline of one track of one item.
fn timeline(alloc: Global) -> Result<Timeline, AllocError> {
    let children = Children::of(alloc, empty_stacks(alloc, 1)?)?;
    Ok(timeline_of(alloc, None, one(alloc, track(alloc, children))?))
}

// A copy of a timeline, once that is made.
fn copied(alloc: Global, made: Result<Timeline, AllocError>) -> Result<Timeline, AllocError> {
    let timeline = made?;
    let copy = copy_timeline(alloc, &timeline);
    drop(timeline);
    copy
}

// A patch that puts three items in place of the first one.
fn patch(alloc: Global) -> Result<Patch, AllocError> {
    let mut place = Place::new(alloc);
    place.push(0)?;
    let items = PutItems::of(empty_stacks(alloc, 3)?.into_vec());
    Ok(Patch {
        place,
        at: 0,
        put: Put::Items { count: 1, items },
    })
}

// How many children the track has.
fn children(timeline: &Timeline) -> usize {
    match timeline.tracks.children.item(0) {
        Some(ItemOf::Track(track)) => track.children.len(),
        _ => 0,
    }
}

// Makes the change where it fits; whether it was made.
fn commit(log: &mut Log, timeline: &mut Timeline, patch: Patch) -> bool
    requires kept { IsKept log.old timeline.old }
    ensures kept { IsKept log.new timeline.new }
{
    if !timeline.fits(&patch) {
        drop(patch);
        return false;
    }
    match log.room_commit(timeline, &patch) {
        Ok(()) => {
            log.commit(timeline, patch);
            true
        }
        Err(_) => {
            drop(patch);
            false
        }
    }
}

// How many children the track has after a step, else why it wasn't made.
fn outcome(step: Result<(), UndoFault>, timeline: &Timeline) -> Result<usize, Option<UndoFault>> {
    match step {
        Ok(()) => Ok(children(timeline)),
        Err(fault) => Err(Some(fault)),
    }
}

// Why nothing is undone, else how many children the track has then.
fn undo(log: &mut Log, timeline: &mut Timeline) -> Result<usize, Option<UndoFault>>
    requires kept { IsKept log.old timeline.old }
    ensures kept { IsKept log.new timeline.new }
{
    match log.room_undo(timeline) {
        Ok(()) => {
            let undone = log.undo(timeline);
            outcome(undone, timeline)
        }
        Err(_) => Err(None),
    }
}

// Why nothing is done again, else how many children the track has then.
fn redo(log: &mut Log, timeline: &mut Timeline) -> Result<usize, Option<UndoFault>>
    requires kept { IsKept log.old timeline.old }
    ensures kept { IsKept log.new timeline.new }
{
    match log.room_redo(timeline) {
        Ok(()) => {
            let redone = log.redo(timeline);
            outcome(redone, timeline)
        }
        Err(_) => Err(None),
    }
}

// What comes of a change, of undoing it twice, and of doing it again twice.
fn steps(
    log: &mut Log,
    timeline: &mut Timeline,
    patch: Patch,
) -> [Result<usize, Option<UndoFault>>; 4]
    requires kept { IsKept log.old timeline.old }
{
    let _ = commit(log, timeline, patch);
    let undone = undo(log, timeline);
    let nothing_done = undo(log, timeline);
    let redone = redo(log, timeline);
    let nothing_undone = redo(log, timeline);
    [undone, nothing_done, redone, nothing_undone]
}

// The same of a new log, once the timeline is made.
fn outcomes(
    alloc: Global,
    made: Result<Timeline, AllocError>,
    patch: Patch,
) -> Result<[Result<usize, Option<UndoFault>>; 4], AllocError> {
    let mut timeline = match made {
        Ok(timeline) => timeline,
        Err(error) => {
            drop(patch);
            return Err(error);
        }
    };
    let mut log = Log::new(alloc);
    let found = steps(&mut log, &mut timeline, patch);
    drop(timeline);
    drop(log);
    Ok(found)
}

#[test]
fn a_change_is_undone_and_done_again(rt: HostRuntime) -> Result<(), Fail> {
    let alloc = rt.alloc();
    let patch = patch(alloc)?;
    let made = copied(alloc, timeline(alloc));
    let wanted = [
        Ok(1),
        Err(Some(UndoFault::NothingDone)),
        Ok(3),
        Err(Some(UndoFault::NothingUndone)),
    ];
    assert!(rt; outcomes(alloc, made, patch)? == wanted);
    Ok(())
}
