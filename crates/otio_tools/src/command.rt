// The top call.
ghost use Rattle.std.specs.Prelude.{◌≡◌, ◌≢◌, ◌⊎◌, ◌<◌, ◌^◌, ℕ, List, None, length, map, string_bytes, suc, IfOk};
ghost use Rattle.dev_io.specs.Calls.{Tells, SendsAll, IsFresh};
ghost use Rattle.dev_io.specs.OutputCauses.{HasOutputCause};
ghost use Rattle.edl_text.specs.Spelling.{spelling};
ghost use Rattle.note_text.specs.NotedSpelling.{noted_spelling};
ghost use Rattle.json_text.specs.Layout.{layout};
ghost use Rattle.show_prog.specs.Rows.{ListsMix, listing_text};
ghost use Rattle.media_text.specs.Texts.{media_text};
ghost use Rattle.command_words.specs.Asked.{Ask, AskNothing};
ghost use Rattle.command_words.specs.Asked.{other_names};
ghost use Rattle.otio_tools.specs.Asked.{IsScripted, EditsTimeline};
ghost use Rattle.otio_model.specs.Counts.{count as count_below};
ghost use Rattle.otio_tools.specs.Several.{HasJoining};
ghost use Rattle.otio_tools.specs.Pulled.{HasFewHandles};
ghost use Rattle.otio_tools.specs.Written.{listings_text, object_json, old_object_json, timeline_text};
ghost use Rattle.otio_tools.specs.Worked.{AskNoWork, LeavesGiven};
ghost use Rattle.otio_tools.specs.Drilled.{EndsDrills};
ghost use Rattle.otio_tools.specs.Texts.{text_at};
ghost use Rattle.otio_tools.specs.Kept.{KeepsGiven};
ghost use Rattle.otio_tools.specs.Reported.{Reports};
ghost use Rattle.otio_tools.specs.Served.{Serves};
ghost use Rattle.otio_tools.specs.Run.{Says, KeepsStill, no_memory, streams};
ghost use Rattle.otio_tools.specs.Plan.{AreMixedRows, CanBeShown, Carries, Fits, CanBeNoted, IsWritableIn, desk_after, desk_planned, Writes, WritesTo, text_planned, message_about, message_unsent, status_of, status_unsent};
ghost use Rattle.source_files.specs.Following.{FollowsAtLast};
ghost use Rattle.source_files.specs.HandedFiles.{HandsOver};
ghost use Rattle.source_files.specs.declared.read_faults.ReadFault.TheVariants.{Refused as RefusedFor};

use crate::drill_command::serve_drill;
use crate::messages::{say, say_of, say_why};
use crate::planning::{Planned, plan};
use crate::{Desk, Status};
use command_words::{Request, Task, WordsFault, request_of};
use dev_io::{Files, Out, OutputFault, write_all};
use edl_list::EventList;
use edl_text::write_list;
use json_text::write_json;
use json_value::Json;
use media_list::MediaList;
use media_text::write_media;
use note_text::{Notes, write_noted};
use otio_model::{Object, Timeline};
use schema_write::{write_object, write_old_object, write_timeline};
use show_prog::{Listing, Listings, write_listings, write_rows};
use source_files::{ReadFault, Refusal, SourceFault};
use std::alloc::Global;
use std::mem;

const USAGE: &[u8] = b"otio: usage
  otio convert [--from F] [--to T] [--family N] [--rate R] [--drop] [--wide] [--notes] [--media LIST] [-o OUT] FILE
  otio cat [--rate R] [--media LIST] [-o OUT] FILE...
  otio stat [--rate R] [--media LIST] [-o OUT] FILE
  otio tool [OPTIONS] [--rate R] [--media LIST] [-o OUT] FILE...
  otio frames [--child K] [--start P] [--count N] [--rate R] [--media LIST] [-o OUT] FILE
  otio edit --script S [--rate R] [--media LIST] [-o OUT] FILE
  otio drill [-o OUT] SEED COUNT
  otio pull [--handles H] [--rate R] [--media LIST] [-o OUT] FILE
  otio media [-o OUT] FILE
";

/// Does what the words after the program's name ask for, and says how it ended.
///
/// `convert FILE`, where FILE ends with `.edl` or `--from edl` stands, reads a CMX 3600 list, at 24
/// frames a second or at the rate that `--rate` gives, and sends the timeline that it conforms to,
/// with the media of the media list that `--media` names. Refused are a reel that isn't listed
/// there, media of another rate, a frame outside the media, and too many items. With `--to edl` it
/// sends the one spelling of the list, with drop-frame timecode where `--drop` stands or the list
/// has it. For any other FILE, or with `--from otio`, it reads an object of OpenTimelineIO, old
/// names and versions included, and sends its layout in the current schemas; with `--to json` it
/// sends the layout of the JSON text, and reads no schema. With `--family 1` objects and conformed
/// timelines are sent in the older family, with clips as `Clip.1` and markers as `Marker.1`;
/// refused is the first item that has no form there.
///
/// With `--to edl`, or where OUT ends with `.edl`, it sends the list of the events of a sound
/// timeline, with drop-frame timecode where `--drop` stands and with the reels of the media list
/// that `--media` names, else with those of the clips' metadata. Refused is the first child that a
/// list doesn't carry. With `--wide` a list has event numbers of six digits and reels of up to 32
/// bytes, else numbers of three digits and reels of up to eight bytes.
///
/// With `--notes` the locators and color corrections (ASC CDL) of a list, which stand in it as
/// comments, go with its events: in a list that is written they follow their events, without the
/// locators whose frame isn't below the day, and in a conformed timeline they are markers and
/// metadata of the events' items. Those of a timeline's clips follow the events of its list. No
/// note is a reason to refuse.
///
/// `frames FILE` reads an object too, or a list, which it conforms in the same way, and sends a row
/// for each record frame and root child of a sound timeline: the frame's number, the child's index
/// and what it shows. `--child` asks for one child alone, and where there is none of that index no
/// row is sent. `--start` is the first frame, by its number or by a timecode label at the record
/// rate, else that of the timeline. `--count` is how many frames, else all up to the end of the
/// longest child, at most 100 000. Refused are an object that is no timeline, a timeline that isn't
/// sound, and then a label that is none at the record rate.
///
/// `edit --script S FILE` reads a timeline, or a list, which it conforms in the same way, and the
/// script S, runs the script's commands on the timeline, with clips of the reels of the media list
/// that `--media` names, and sends the timeline that they lead to. Refused are a timeline that
/// isn't sound, and then, told of the script, the first command that is refused. What is sent
/// stands on `desk` then, with the log of the edits.
///
/// `cat FILE...` reads timelines, and lists, which it conforms in the same way, and sends the
/// timeline that they become one after another, track by track. `tool FILE...` reads the same and
/// does in this order what its options ask for: `--concat` or `--stack` makes one timeline of
/// several, `--video-only` or `--audio-only` keeps root tracks of one kind, `--remove-transitions`
/// takes them out of all tracks, `--trim A,B` keeps the record frames from A up to B, and
/// `--flatten KIND` makes one track of those of a kind, next to them with
/// `--keep-flattened-tracks`. Then it sends the listings that `--list-tracks`, `--list-clips`,
/// `--list-media` and `--stats` ask for, in this order, else the timeline. `stat FILE` sends the
/// listing of `--stats` of one timeline. Refused are the first input that isn't a sound timeline or
/// isn't conformed, and then the first step that can't be done: told of the input that it fails in,
/// where several are joined, else of the first.
///
/// `drill SEED COUNT` reads no file: it makes a timeline of forty clips by drawing numbers from the
/// seed, draws and tries as many edits of it, makes its list and conforms that, undoes all edits,
/// and sends a line for each number: `edits` (accepted), `refused`, `items` (of the track),
/// `events`, `frames` (record frames of the track), `shown` (the numbers of the source frames that
/// the conformed timeline shows at them, added up) and `back` (the same after all is undone). Where
/// a list doesn't carry the timeline, one line `list` with the code and the word of the first
/// reason stands in place of `events`, `frames` and `shown`. The timeline stands on `desk` then,
/// with the log of the edits, all undone. Every command but `edit` and `drill` leaves `desk` as it
/// is.
///
/// `pull FILE` reads a timeline, or a list, which it conforms in the same way, and sends a line for
/// each run of frames of media that a sound timeline uses: the key and the rate of the media, the
/// number of the first frame and how many they are. With `--handles` it adds those that are at most
/// so many frames away from one that is used, and that a clip of the same key and rate has
/// available. Refused are a timeline that isn't sound, and then one whose root children have more
/// than 10 000 000 record frames together.
///
/// `media FILE` reads a log of the Avid Log Exchange and sends the media list that it is read as, a
/// line for each tape. A media list whose name ends with `.ale` or `.ALE` is read as a log by every
/// command that reads one.
///
/// `-o OUT` aims `out` at that file before anything is sent.
/// Each status but `Done` sends one message to `err`; where `err` fails, a prefix of it was sent,
/// and the status is the same. Nothing is sent to `out` before the file is judged. Memory may
/// run out at any time: after a prefix of the rows of `frames`, where one of them shows a mix, and
/// else before anything is sent.
pub fn run<F: Files, W: Out, E: Out>(
    alloc: Global,
    words: &Vec<String>,
    files: &mut F,
    out: &mut W,
    err: &mut E,
    desk: &mut Option<Desk>,
) -> Status
    requires fresh { IsFresh (W.known out.old) }
    requires empty { desk.old ≡ None }
    // The status, the output and the message are those of the answer to the arguments and to the
    // bytes that the calls of the files gave. Only a call that fails, and memory that runs out,
    // stop this, after a prefix. Each file is opened once, in its order, and read to its end in
    // pieces of at most 4096 bytes, each after bytes that show no fault. Nothing is read after its
    // end, after its first fault, or after a call that failed.
    ensures handed { let said = map (λ w. string_bytes w) words.now.items in
        let sent = streams W.faults W.known E.faults E.known out.old out.new err.old err.new in
        HandsOver (Serves said (F.faults files.old) (F.faults files.new) sent result)
        (F.handed files.old) (F.handed files.new) }

    // Where it is known what the files hold, the calls gave that, up to what was read of each.
    ensures followed { FollowsAtLast (F.known files.old) (F.known files.new) (F.handed files.old)
        (F.handed files.new) }

    // A timeline that is written as a list keeps its frames: the text that was sent reads as one
    // list, and what that conforms to shows what the timeline shows that the calls gave.
    ensures kept { let said = map (λ w. string_bytes w) words.now.items in
        let sent = streams W.faults W.known E.faults E.known out.old out.new err.old err.new in
        HandsOver (KeepsGiven said sent result) (F.handed files.old) (F.handed files.new) }

    // An edit leaves on the desk the timeline that its script leads to, which is what is sent, and
    // the log of the edits: after each of them every frame shows what its law says, and undoing all
    // gives the timeline that was read. A drill leaves its timeline and log, with all edits undone,
    // and sends its tally. Every other command leaves nothing there.
    ensures worked { let said = map (λ w. string_bytes w) words.now.items in
        HandsOver (LeavesGiven said result desk.new) (F.handed files.old) (F.handed files.new) }
    ensures drilled { let said = map (λ w. string_bytes w) words.now.items in
        let sent = streams W.faults W.known E.faults E.known out.old out.new err.old err.new in
        EndsDrills said sent result desk.new }
    ensures unworked { let said = map (λ w. string_bytes w) words.now.items in
        AskNoWork said → desk.new ≡ None }

    // The message is that of the status. Under `Refused` and `Input` it names a file that the
    // arguments ask for; `read failed` is reported only where a call of the files failed.
    ensures reported { let said = map (λ w. string_bytes w) words.now.items in
        let sent = streams W.faults W.known E.faults E.known out.old out.new err.old err.new in
        Reports said (F.faults files.old) (F.faults files.new) sent result }

    // Usage for other words alone, which get usage or no memory; nothing sent but under Done, under
    // Output, which has its cause, and where memory runs out over frames; under every status but
    // Input no call of the files failed.
    ensures usage { let said = map (λ w. string_bytes w) words.now.items in
        result ≡ Status.Usage → AskNothing said }
    ensures others { let said = map (λ w. string_bytes w) words.now.items in
        AskNothing said → (result ≡ Status.Usage) ⊎ (result ≡ Status.Memory) }
    ensures still { let said = map (λ w. string_bytes w) words.now.items in
        let sent = streams W.faults W.known E.faults E.known out.old out.new err.old err.new in
        KeepsStill said sent result }
    ensures calm { result ≢ Status.Input → F.faults files.new ≡ F.faults files.old }
{
    match request_of(alloc, words.as_slice()) {
        Ok(Task::OnFiles(request)) => serve(alloc, request, files, out, err, desk),
        Ok(Task::Drill(asked)) => serve_drill(alloc, asked, out, err, desk),
        Err(WordsFault::Usage) => {
            say(err, &[USAGE]);
            Status::Usage
        }
        Err(WordsFault::Memory) => complain_of_memory(err),
    }
}

// Does what is asked for.
fn serve<F: Files, W: Out, E: Out>(
    alloc: Global,
    request: Request<'_>,
    files: &mut F,
    out: &mut W,
    err: &mut E,
    desk: &mut Option<Desk>,
) -> Status
    requires fresh { IsFresh (W.known out.old) }
    requires empty { desk.old ≡ None }
    requires scripted { IsScripted request.command (text_at request.others.script) }
    requires joining { HasJoining request.command
        (suc (length (other_names request.others).more)) }
    requires handles { HasFewHandles request.command }
    ensures followed { FollowsAtLast (F.known files.old) (F.known files.new) (F.handed files.old)
        (F.handed files.new) }
    ensures worked { (words : List (List ℕ)) →
        Ask words request.entry.command request.entry.name.now (other_names request.entry.others)
        (text_at request.entry.target) →
        HandsOver (LeavesGiven words result desk.new) (F.handed files.old) (F.handed files.new) }
    ensures unworked { (EditsTimeline request.entry.command → ⊥) → desk.new ≡ None }
    ensures still { (words : List (List ℕ)) →
        Ask words request.entry.command request.entry.name.now (other_names request.entry.others)
        (text_at request.entry.target) →
        let sent = streams W.faults W.known E.faults E.known out.old out.new err.old err.new in
        KeepsStill words sent result }
    ensures reported { (words : List (List ℕ)) →
        Ask words request.entry.command request.entry.name.now (other_names request.entry.others)
        (text_at request.entry.target) →
        let sent = streams W.faults W.known E.faults E.known out.old out.new err.old err.new in
        Reports words (F.faults files.old) (F.faults files.new) sent result }
    ensures given { (words : List (List ℕ)) →
        Ask words request.entry.command request.entry.name.now (other_names request.entry.others)
        (text_at request.entry.target) →
        let sent = streams W.faults W.known E.faults E.known out.old out.new err.old err.new in
        HandsOver (Serves words (F.faults files.old) (F.faults files.new) sent result)
        (F.handed files.old) (F.handed files.new) }
    ensures asked { result ≢ Status.Usage }
    ensures calm { result ≢ Status.Input → F.faults files.new ≡ F.faults files.old }
{
    let planned = plan(alloc, request.command, request.name, request.others, files);
    carry_out(alloc, request.target, planned, out, err, desk)
}

// Sends what is planned, or the message of the fault.
fn carry_out<W: Out, E: Out>(
    alloc: Global,
    target: Option<&str>,
    planned: Result<Planned, SourceFault<'_>>,
    out: &mut W,
    err: &mut E,
    desk: &mut Option<Desk>,
) -> Status
    requires fits { IfOk planned (λ all. Fits all) }
    requires fresh { IsFresh (W.known out.old) }
    ensures carried { Carries (text_at target.entry) planned.entry
        (streams W.faults W.known E.faults E.known out.old out.new err.old err.new) result }
    ensures desk { desk.new ≡ desk_after planned.entry desk.old }
{
    match planned {
        Ok(planned) => {
            let status = send(alloc, target, &planned, out, err);
            leave(planned, desk);
            status
        }
        Err(stop) => complain(stop, err),
    }
}

// Leaves what was edited on the desk, and anything else where it is: what is left of a run is its
// status.
fn leave(planned: Planned, desk: &mut Option<Desk>)
    ensures { desk.new ≡ desk_planned planned desk.old }
{
    match planned {
        Planned::Edited(edited) => mem::forget(mem::replace(desk, Some(edited))),
        other => mem::forget(other),
    }
}

// Sends what is planned.
fn send<W: Out, E: Out>(
    alloc: Global,
    target: Option<&str>,
    planned: &Planned,
    out: &mut W,
    err: &mut E,
) -> Status
    requires fits { Fits planned.now }
    requires fresh { IsFresh (W.known out.old) }
    ensures { Writes (text_at target.entry) planned.now
        (streams W.faults W.known E.faults E.known out.old out.new err.old err.new) result }
{
    match write_to(alloc, target, planned, out) {
        Ok(()) => Status::Done,
        Err(fault) => complain_of_output(fault, err),
    }
}

/// Sends the message of an output that isn't whole.
pub(crate) fn complain_of_output<E: Out>(fault: OutputFault, err: &mut E) -> Status
    ensures status { result ≡ status_unsent fault }
    ensures message { Says (E.faults err.old) (E.faults err.new) (E.known err.old) (E.known err.new)
        (message_unsent fault) }
{
    match fault {
        OutputFault::Sink => {
            say(err, &[b"otio: output failed\n".as_slice()]);
            Status::Output
        }
        OutputFault::Memory => complain_of_memory(err),
    }
}

// Sends what is planned to the target.
fn write_to<W: Out>(
    alloc: Global,
    target: Option<&str>,
    planned: &Planned,
    out: &mut W,
) -> Result<(), OutputFault>
    requires fits { Fits planned.now }
    requires fresh { IsFresh (W.known out.old) }
    ensures told { Tells (WritesTo (text_at target.entry) (text_planned planned.now) result)
        (W.known out.old) (W.known out.new) }
    ensures cause { HasOutputCause (AreMixedRows planned.now) (W.faults out.old)
        (W.faults out.new) result }
{
    match target {
        None => write_planned(alloc, planned, out),
        Some(name) => match out.aim(name) {
            Ok(()) => write_planned(alloc, planned, out),
            Err(_) => Err(OutputFault::Sink),
        },
    }
}

fn write_planned<W: Out>(alloc: Global, planned: &Planned, out: &mut W) -> Result<(), OutputFault>
    requires { Fits planned.now }
    ensures told { Tells (SendsAll (text_planned planned.now) result) (W.known out.old)
        (W.known out.new) }
    ensures cause { HasOutputCause (AreMixedRows planned.now) (W.faults out.old)
        (W.faults out.new) result }
{
    match planned {
        Planned::Events { list, drop, wide } => write_events(list, *drop, *wide, out),
        Planned::Noted {
            list,
            notes,
            drop,
            wide,
        } => write_noted_events(list, notes, *drop, *wide, out),
        Planned::Value(value) => write_value(value, out),
        Planned::Root(object) => write_root(object, out),
        Planned::OldRoot(object) => write_old_root(object, out),
        Planned::Rows(timeline, listing) => write_frames(alloc, timeline, listing, out),
        Planned::Edited(desk) => write_edited(&desk.timeline, out),
        Planned::Listed(timeline, asked) => write_listed(timeline, *asked, out),
        Planned::Text(text) => write_text(text.as_slice(), out),
        Planned::Media(list) => write_rows_of(list, out),
    }
}

// Sends a list.
fn write_events<W: Out>(
    list: &EventList,
    drop: bool,
    wide: bool,
    out: &mut W,
) -> Result<(), OutputFault>
    requires { IsWritableIn list.now drop wide }
    ensures told { Tells (SendsAll (spelling list.now drop wide) result) (W.known out.old)
        (W.known out.new) }
    ensures cause { HasOutputCause ⊥ (W.faults out.old) (W.faults out.new) result }
{
    match write_list(list, drop, wide, out) {
        Ok(()) => Ok(()),
        Err(_) => Err(OutputFault::Sink),
    }
}

// Sends a list with notes.
fn write_noted_events<W: Out>(
    list: &EventList,
    notes: &Notes,
    drop: bool,
    wide: bool,
    out: &mut W,
) -> Result<(), OutputFault>
    requires { CanBeNoted list.now notes.now drop wide }
    ensures told { Tells (SendsAll (noted_spelling list.now notes.now drop wide) result)
        (W.known out.old) (W.known out.new) }
    ensures cause { HasOutputCause ⊥ (W.faults out.old) (W.faults out.new) result }
{
    match write_noted(list, notes, drop, wide, out) {
        Ok(()) => Ok(()),
        Err(_) => Err(OutputFault::Sink),
    }
}

// Sends a value.
fn write_value<W: Out>(value: &Json, out: &mut W) -> Result<(), OutputFault>
    ensures told { Tells (SendsAll (layout value.now) result) (W.known out.old) (W.known out.new) }
    ensures cause { HasOutputCause ⊥ (W.faults out.old) (W.faults out.new) result }
{
    match write_json(value, out) {
        Ok(()) => Ok(()),
        Err(_) => Err(OutputFault::Sink),
    }
}

// Sends an object.
fn write_root<W: Out>(object: &Object, out: &mut W) -> Result<(), OutputFault>
    ensures told { Tells (SendsAll (layout (object_json object.now)) result) (W.known out.old)
        (W.known out.new) }
    ensures cause { HasOutputCause ⊥ (W.faults out.old) (W.faults out.new) result }
{
    match write_object(object, out) {
        Ok(()) => Ok(()),
        Err(_) => Err(OutputFault::Sink),
    }
}

// Sends an object in the older family.
fn write_old_root<W: Out>(object: &Object, out: &mut W) -> Result<(), OutputFault>
    ensures told { Tells (SendsAll (layout (old_object_json object.now)) result) (W.known out.old)
        (W.known out.new) }
    ensures cause { HasOutputCause ⊥ (W.faults out.old) (W.faults out.new) result }
{
    match write_old_object(object, out) {
        Ok(()) => Ok(()),
        Err(_) => Err(OutputFault::Sink),
    }
}

// Sends a timeline.
fn write_edited<W: Out>(timeline: &Timeline, out: &mut W) -> Result<(), OutputFault>
    ensures told { Tells (SendsAll (timeline_text timeline.now) result) (W.known out.old)
        (W.known out.new) }
    ensures cause { HasOutputCause ⊥ (W.faults out.old) (W.faults out.new) result }
{
    match write_timeline(timeline, out) {
        Ok(()) => Ok(()),
        Err(_) => Err(OutputFault::Sink),
    }
}

// Sends rows.
fn write_frames<W: Out>(
    alloc: Global,
    timeline: &Timeline,
    listing: &Listing,
    out: &mut W,
) -> Result<(), OutputFault>
    requires { CanBeShown timeline.now }
    ensures told { Tells (SendsAll (listing_text timeline.now listing.now) result) (W.known out.old)
        (W.known out.new) }
    ensures cause { HasOutputCause (ListsMix timeline.now listing.now) (W.faults out.old)
        (W.faults out.new) result }
{
    write_rows(alloc, timeline, listing, out)
}

// Sends listings.
fn write_listed<W: Out>(
    timeline: &Timeline,
    asked: Listings,
    out: &mut W,
) -> Result<(), OutputFault>
    requires { count_below timeline.now.tracks.children < 2 ^ 32 }
    ensures told { Tells (SendsAll (listings_text timeline.now asked) result) (W.known out.old)
        (W.known out.new) }
    ensures cause { HasOutputCause ⊥ (W.faults out.old) (W.faults out.new) result }
{
    match write_listings(timeline, asked, out) {
        Ok(()) => Ok(()),
        Err(_) => Err(OutputFault::Sink),
    }
}

// Sends a text.
fn write_text<W: Out>(text: &[u8], out: &mut W) -> Result<(), OutputFault>
    ensures told { Tells (SendsAll text.now result) (W.known out.old) (W.known out.new) }
    ensures cause { HasOutputCause ⊥ (W.faults out.old) (W.faults out.new) result }
{
    match write_all(out, text) {
        Ok(()) => Ok(()),
        Err(_) => Err(OutputFault::Sink),
    }
}

// Sends a media list.
fn write_rows_of<W: Out>(list: &MediaList, out: &mut W) -> Result<(), OutputFault>
    ensures told { Tells (SendsAll (media_text list.now) result) (W.known out.old)
        (W.known out.new) }
    ensures cause { HasOutputCause ⊥ (W.faults out.old) (W.faults out.new) result }
{
    match write_media(list, out) {
        Ok(()) => Ok(()),
        Err(_) => Err(OutputFault::Sink),
    }
}

// Sends the message of a file that isn't taken.
fn complain<E: Out>(stop: SourceFault<'_>, err: &mut E) -> Status
    ensures status { result ≡ status_of stop.entry.fault }
    ensures message { Says (E.faults err.old) (E.faults err.new) (E.known err.old) (E.known err.new)
        (message_about stop.entry.name.now stop.entry.fault) }
{
    let SourceFault { name, fault } = stop;
    match fault {
        ReadFault::Absent => {
            say_of(err, name, b": absent\n");
            Status::Input
        }
        ReadFault::Failed => {
            say_of(err, name, b": read failed\n");
            Status::Input
        }
        ReadFault::Refused(refusal) => complain_of_refusal(name, refusal, err),
    }
}

// Sends the message of a refusal.
fn complain_of_refusal<E: Out>(name: &str, refusal: Refusal, err: &mut E) -> Status
    ensures status { result ≡ status_of (RefusedFor refusal) }
    ensures message { Says (E.faults err.old) (E.faults err.new) (E.known err.old) (E.known err.new)
        (message_about name.now (RefusedFor refusal)) }
{
    match refusal {
        Refusal::Broken(reason) => {
            say_why(err, name, &reason);
            Status::Refused
        }
        Refusal::Memory => complain_of_memory(err),
    }
}

/// Sends the message that memory ran out.
pub(crate) fn complain_of_memory<E: Out>(err: &mut E) -> Status
    ensures status { result ≡ Status.Memory }
    ensures message { Says (E.faults err.old) (E.faults err.new) (E.known err.old)
        (E.known err.new) no_memory }
{
    say(err, &[b"otio: no memory\n".as_slice()]);
    Status::Memory
}
