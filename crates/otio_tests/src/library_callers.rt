//! The library as another program calls it: a list is read and conformed to its media, one frame of
//! the timeline is written as text, and a track is edited and the edit undone. `docs/LIBRARY.md`
//! quotes these functions.

ghost use Rattle.std.specs.Prelude.{◌≡◌, ◌≢◌, ◌⊎◌, ◌<◌, ◌^◌, ℤ, Some, None, true, false, IfErr, IfOk, IfSome, IsSomeAnd, OnErr, OnOk, length};
ghost use Rattle.dev_io.specs.Calls.{SendsAll, Tells};
ghost use Rattle.otio_model.specs.Counts.{count};
ghost use Rattle.otio_model.specs.Timelines.{bare};
ghost use Rattle.otio_model.specs.Trees.{items_of};
ghost use Rattle.coord.specs.Images.{image, is_mix};
ghost use Rattle.coord.specs.Programs.{program};
ghost use Rattle.coord.specs.Soundness.{IsCalm, IsFaultless, IsSound};
ghost use Rattle.show_prog.specs.Texts.{image_text};
ghost use Rattle.edits.specs.Refusals.{IsRefused};
ghost use Rattle.edits_law.specs.Editable.{HasEditItem};
ghost use Rattle.edit_plans.specs.Planned.{ShowsThrough, is_list_edit};
ghost use Rattle.undo_log.specs.States.{IsKept, back, state_of};
ghost use Rattle.edl_list.specs.declared.list.Channel.{Channel};
ghost use Rattle.edl_list.specs.Formed.{IsWellFormed};
ghost use Rattle.edl_text.specs.Lists.{IsFault, IsList};
ghost use Rattle.edl_frames.specs.Channels.{on};
ghost use Rattle.edl_frames.specs.Faults.{IsConformFault};
ghost use Rattle.edl_frames.specs.Shown.{shown};

use crate::timeline_calls::first_len;
use coord::sound;
use dev_io::{MemOut, Out, OutputFault};
use edit_ops::plan_list;
use edl_conform::{ConformFault, conform};
use edl_law::{
    conformed_timelines_are_calm, conformed_timelines_show_lists, timelines_have_counts,
};
use edl_list::EventList;
use edl_text::{EdlFault, EdlReader};
use media_list::MediaList;
use otio_model::{Edit, EditFault, Place, Timeline};
use show_prog::{print_show, show};
use smpte_tc::rate_of;
use std::alloc::{AllocError, Global};
use std::mem::forget;
use std::process::Abort;
use std::test::Fail;
use tick_time::Rate;
use undo_log::Log;

// Reads a list whose labels count at this rate. The error is the first fault of the bytes.
fn read_edl(alloc: Global, rate: Rate, bytes: &[u8]) -> Result<EventList, EdlFault>
    ensures list { IfOk result (IsList rate bytes.now) }
    ensures formed { IfOk result IsWellFormed }
    ensures fault { IfErr result
        (λ fault. (fault ≡ EdlFault.Memory) ⊎ IsFault rate bytes.now fault) }
{
    let mut reader = EdlReader::new(alloc, rate);
    reader.feed(bytes)?;
    reader.finish()
}

// Conforms a list to its media: on each channel, at each record frame, the timeline shows what the
// list shows. The error is the first event that the media list doesn't hold.
fn conform_edl(alloc: Global, list: &EventList, media: &MediaList) -> Result<Timeline, ConformFault>
    requires formed { IsWellFormed list.now }
    ensures shows { IfOk result (λ timeline. (channel : Channel) (frame : ℤ) →
        on timeline channel frame ≡ shown list.now (Some media.now) channel frame) }
    ensures calm { IfOk result IsCalm }
    ensures few { IfOk result (λ timeline. count timeline.tracks.children < 2 ^ 32) }
    ensures refused { IfErr result (IsConformFault list.now (Some media.now)) }
{
    conformed_timelines_show_lists();
    conformed_timelines_are_calm();
    timelines_have_counts();
    conform(alloc, list, Some(media))
}

// Writes what a child of the root stack shows at a record frame, as the command `frames` does.
fn write_frame<W: Out>(
    alloc: Global,
    timeline: &Timeline,
    child: usize,
    frame: i128,
    out: &mut W,
) -> Result<(), OutputFault>
    requires faultless { IsFaultless timeline.now }
    requires few { count timeline.now.tracks.children < 2 ^ 32 }
    requires there { child < length (items_of timeline.now.tracks.children) }
    ensures written { OnOk result
        (Tells (SendsAll (image_text (image (program timeline.now child frame))) result)
        (W.known out.old) (W.known out.new)) }
    ensures memory { IfErr result (λ fault. fault ≡ OutputFault.Memory →
        is_mix (program timeline.now child frame) ≡ true) }
{
    match show(alloc, timeline, child, frame) {
        Ok(picture) => match print_show(&picture, out) {
            Ok(()) => Ok(()),
            Err(_) => Err(OutputFault::Sink),
        },
        Err(_) => Err(OutputFault::Memory),
    }
}

// Edits a track. Each frame then shows what the rule of the edit says, and the log can undo it.
// The error is the first rule that the edit breaks.
fn edit_track(
    alloc: Global,
    timeline: &mut Timeline,
    log: &mut Log,
    edit: Edit,
) -> Result<(), EditFault>
    requires sound { IsSound timeline.old }
    requires few { count timeline.old.tracks.children < 2 ^ 32 }
    requires list_edit { is_list_edit edit ≡ true }
    requires item { HasEditItem edit }
    requires kept { IsKept log.old timeline.old }
    ensures shows { OnOk result (ShowsThrough timeline.old edit timeline.new) }
    ensures undoable { OnOk result (IsSomeAnd (back (state_of log.new timeline.new))
        (λ before. before.now ≡ bare timeline.old)) }
    ensures fault { IfErr result
        (λ fault. fault ≢ EditFault.Memory → IsRefused timeline.old edit fault) }
    ensures same { OnErr result (bare timeline.new ≡ bare timeline.old) }
    ensures kept { IsKept log.new timeline.new }
{
    let patch = plan_list(alloc, timeline, edit)?;
    match log.room_commit(timeline, &patch) {
        Ok(()) => {
            log.commit(timeline, patch);
            Ok(())
        }
        Err(_) => {
            drop(patch);
            Err(EditFault::Memory)
        }
    }
}

// Undoes the last edit of a timeline: true, or false where none is left to undo.
fn undo_edit(timeline: &mut Timeline, log: &mut Log) -> Result<bool, AllocError>
    requires kept { IsKept log.old timeline.old }
    ensures undone { IfOk result (λ undone. undone ≡ true →
        back (state_of log.old timeline.old) ≡ Some (state_of log.new timeline.new)) }
    ensures none { IfOk result (λ undone. undone ≡ false →
        back (state_of log.old timeline.old) ≡ None) }
    ensures kept { IsKept log.new timeline.new }
{
    log.room_undo(timeline)?;
    Ok(log.undo(timeline).is_ok())
}

// Two seconds of the reel A1, its media, and what is shown a second after the start.
const LIST: &[u8] = b"001 A1 V C 00:00:10:00 00:00:12:00 01:00:00:00 01:00:02:00\n";

const MEDIA: &[u8] = b"A1\t24\t0\t1000\tfile:///a.mov\n";

const SHOWN: &[u8] = b"url:\"file:///a.mov\"@264";

// The timeline of the list above.
fn conformed(alloc: Global) -> Option<Timeline>
    ensures sound { IfSome result IsSound }
    ensures few { IfSome result (λ timeline. count timeline.tracks.children < 2 ^ 32) }
{
    let rate = rate_of(b"24")?;
    let Ok(list) = read_edl(alloc, rate, LIST) else {
        return None;
    };
    let Ok(media) = MediaList::read(alloc, MEDIA) else {
        return None;
    };
    match conform_edl(alloc, &list, &media) {
        Ok(timeline) => match sound(alloc, &timeline) {
            Ok(()) => Some(timeline),
            Err(_) => None,
        },
        Err(_) => None,
    }
}

// Holds what the first root child shows a second after the start.
fn check_frame(rt: &impl Abort, alloc: Global, timeline: &Timeline) -> Result<(), Fail>
    requires sound { IsSound timeline.now }
    requires few { count timeline.now.tracks.children < 2 ^ 32 }
{
    let mut out = MemOut::new(alloc, 100)?;
    if timeline.tracks.children.len() > 0 {
        let written = write_frame(alloc, timeline, 0, 86_424, &mut out);
        assert!(rt; written.is_ok());
    }
    assert!(rt; out.sent() == SHOWN);
    drop(out);
    Ok(())
}

// Cuts the clip in two and undoes it.
fn check_edit(rt: &impl Abort, alloc: Global, timeline: &mut Timeline) -> Result<(), Fail>
    requires sound { IsSound timeline.old }
    requires few { count timeline.old.tracks.children < 2 ^ 32 }
{
    let mut log = Log::new(alloc);
    let mut place = Place::new(alloc);
    place.push(0)?;
    let edited = edit_track(alloc, timeline, &mut log, Edit::Slice { place, at: 12 });
    assert!(rt; edited.is_ok());
    assert!(rt; first_len(timeline) == Some(2));
    let undone = undo_edit(timeline, &mut log)?;
    drop(log);
    assert!(rt; undone);
    assert!(rt; first_len(timeline) == Some(1));
    Ok(())
}

#[test]
fn library_is_called(rt: HostRuntime) -> Result<(), Fail> {
    let alloc = rt.alloc();
    match conformed(alloc) {
        Some(timeline) => {
            let mut timeline = timeline;
            check_frame(&rt, alloc, &timeline)?;
            let held = check_edit(&rt, alloc, &mut timeline);
            forget(timeline);
            held
        }
        None => {
            assert!(rt; false);
            Ok(())
        }
    }
}
