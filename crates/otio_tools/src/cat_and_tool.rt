// Commands on several files.
ghost use Rattle.std.specs.Prelude.{◌≡◌, ◌≢◌, ◌<◌, ◌^◌, ◌++◌, ◌∷◌, [], ℕ, List, Option, All, true, IfErr, IfOk, IfSome, get_or, length, map, suc};
ghost use Rattle.std.specs.Vec.Iter.{into_iter_items};
ghost use Rattle.otio_model.specs.Counts.{count as count_below};
ghost use Rattle.flat_stack.specs.Ready.{IsReady};
ghost use Rattle.std.specs.Option.{option_copied};
ghost use Rattle.source_files.specs.Reasons.{reason_text};
ghost use Rattle.source_files.specs.Following.{Follows};
ghost use Rattle.source_files.specs.HandedFiles.{HandsOver};
ghost use Rattle.source_files.specs.Order.{EachIs, FirstIsNot, IsAmong};
ghost use Rattle.source_files.specs.Inputs.{input_content, input_kind, input_source};
ghost use Rattle.source_files.specs.Reading.{RaisedAt, names_of};
ghost use Rattle.command_words.specs.Asked.{other_names};
ghost use Rattle.otio_tools.specs.Asked.{IsScripted, asked_for, files_of, input_named, is_list as is_list_text, kind_named, media_source};
ghost use Rattle.otio_tools.specs.Asked as asking;
ghost use Rattle.otio_tools.specs.Opened.{IsOpenedInput};
ghost use Rattle.otio_tools.specs.Tools.{AnswersJoined, AnswersTool, name_told, tool_fault_text, tool_text};
ghost use Rattle.otio_tools.specs.Tools as tools;
ghost use Rattle.otio_tools.specs.Several.{AnswersTimelines, FitsJoining, HasJoining, IsRefusedAt, StopsOpening, named_inputs, names_now};
ghost use Rattle.otio_tools.specs.Plan.{AreRows, Fits, IsDesk, IsEditable, PlansAs, PlansHeld, media_content, text_planned};
ghost use Rattle.otio_tools.specs.Served.{PlansGiven};
ghost use Rattle.otio_tools.specs.Texts.{text_at};

use crate::edit_command::opened_timeline;
use crate::planning::Planned;
use crate::work_files::media_after;
use command_words::{Command, Others, ToolAsked, is_list_name};
use dev_io::Files;
use flat_stack::{ToolFault, concatenated, tooled};
use media_list::MediaList;
use otio_model::{Object, Timeline};
use show_prog::Listings;
use source_files::{
    Input, InputFile, InputKind, ReadFault, Reason, Refusal, SourceFault, coord_reason,
    flat_reason, input_files, items_reason,
};
use std::alloc::{AllocError, Global};
use std::mem;
use std::vec::IntoIter;

/// What a command on several files is to send for the file of that name and the others: the files
/// are read, and then the command is judged over what they hold.
#[tactic(auto, using(crate::proofs::Serving::given_unopened, source_files::proofs::FollowingLemmas::follows_none))]
pub fn plan_several<'a, F: Files>(
    alloc: Global,
    command: Command,
    name: &'a str,
    others: Others<'a>,
    files: &mut F,
) -> Result<Planned, SourceFault<'a>>
    requires several { asking.takes_several command ≡ true }
    requires scripted { IsScripted command (text_at others.script) }
    requires joining { HasJoining command (suc (length (other_names others).more)) }
    ensures fits { IfOk result (λ planned. Fits planned) }
    ensures kind { IfOk result (λ planned. AreRows planned → ⊥) }
    ensures desk { IfOk result (λ planned. IsDesk planned → ⊥) }
    ensures named { IfErr result (λ stop.
        IsAmong (names_of (files_of command name.now (other_names others.entry))) stop.name.now) }
    ensures given { (target : Option (List ℕ)) → HandsOver
        (PlansGiven (asked_for command name.now (other_names others.entry) target) result)
        (F.handed files.old) (F.handed files.new) }
    ensures followed { Follows (F.known files.old) (F.known files.new) (F.handed files.old)
        (F.handed files.new) }
    ensures cause { RaisedAt result (F.faults files.old) (F.faults files.new) }
{
    let media = others.media;
    let Ok(names) = names_of(alloc, name, others.more.as_slice()) else {
        return Err(no_memory(name));
    };
    let Ok(sources) = sources_of(alloc, command, names.as_slice()) else {
        return Err(no_memory(name));
    };
    match input_files(alloc, sources.as_slice(), files) {
        Ok(inputs) => match media_after(alloc, media, files) {
            Ok(rows) => judged_several(alloc, command, names.as_slice(), inputs, rows),
            Err(stop) => {
                mem::forget(inputs);
                Err(stop)
            }
        },
        Err(stop) => Err(stop),
    }
}

// Out of memory, told of the file of that name.
fn no_memory<'a>(name: &'a str) -> SourceFault<'a>
    ensures name { result.name.now ≡ name.now }
    ensures fault { result.fault ≡ ReadFault.Refused Refusal.Memory }
{
    SourceFault {
        name,
        fault: ReadFault::Refused(Refusal::Memory),
    }
}

// The names of the inputs.
#[tactic(auto, using(crate::proofs::SeveralFiles::names_all))]
fn names_of<'a>(alloc: Global, name: &'a str, more: &[&'a str]) -> Result<Vec<&'a str>, AllocError>
    ensures { IfOk result (λ names. names_now names.items ≡ name.now ∷ names_now more.now) }
{
    let mut names = Vec::new(alloc);
    names.push(name)?;
    'more: for &other in more {
        names.push(other)?;
    }
    Ok(names)
}

// The inputs of these names.
#[tactic(auto, using(crate::proofs::SeveralFiles::named_all))]
fn sources_of<'a>(
    alloc: Global,
    command: Command,
    names: &[&'a str],
) -> Result<Vec<InputFile<'a>>, AllocError>
    requires { asking.takes_several command ≡ true }
    ensures { IfOk result (λ sources. map input_source sources.items
        ≡ map (input_named command) (names_now names.now)) }
{
    let mut sources = Vec::new(alloc);
    'names: for &name in names {
        let kind = kind_by_name(command, name);
        sources.push(InputFile { name, kind })?;
    }
    Ok(sources)
}

// What a command reads a file of that name as.
fn kind_by_name(command: Command, name: &str) -> InputKind
    requires { asking.takes_several command ≡ true }
    ensures { input_kind result ≡ kind_named command name.now }
{
    match command {
        Command::ListCat { rate } | Command::ListTool { rate, tool: _ } => {
            if is_list(name) {
                InputKind::List(rate)
            } else {
                InputKind::Timeline
            }
        }
        _ => InputKind::Timeline,
    }
}

// Whether a name is that of a list.
fn is_list(name: &str) -> bool
    ensures { result ≡ is_list_text name.now }
{
    is_list_name(name)
}

// What a command on several files is to send for what they hold, and the media list after them.
fn judged_several<'a>(
    alloc: Global,
    command: Command,
    names: &[&'a str],
    inputs: Vec<Input>,
    media: Option<MediaList>,
) -> Result<Planned, SourceFault<'a>>
    requires several { asking.takes_several command ≡ true }
    requires some { names.now ≢ [] }
    requires joining { HasJoining command (length names.now) }
    requires same { length inputs.items ≡ length names.now }
    requires editable { All IsEditable (map input_content inputs.items) }
    ensures told { (listed : Option (List ℕ)) → PlansHeld command
        (map (input_named command) (names_now names.now) ++ media_source listed)
        (map input_content inputs.items ++ media_content media) result }
    ensures fits { IfOk result (λ planned. Fits planned) }
    ensures kind { IfOk result (λ planned. AreRows planned → ⊥) }
    ensures desk { IfOk result (λ planned. IsDesk planned → ⊥) }
    ensures named { IfErr result (λ stop. IsAmong (names_now names.now) stop.name.now) }
    ensures calm { (n : ℕ) → RaisedAt result n n }
{
    let found = opened(alloc, names, inputs, media.as_ref());
    mem::forget(media);
    match found {
        Ok(timelines) => worked(alloc, command, names, timelines),
        Err(stop) => Err(stop),
    }
}

// The sound timelines of inputs of these names.
fn opened<'a>(
    alloc: Global,
    names: &[&'a str],
    inputs: Vec<Input>,
    media: Option<&MediaList>,
) -> Result<Vec<Timeline>, SourceFault<'a>>
    requires same { length inputs.items ≡ length names.now }
    requires editable { All IsEditable (map input_content inputs.items) }
    ensures opened { IfOk result (λ timelines. EachIs (IsOpenedInput (option_copied media.entry))
        (named_inputs (names_now names.now) (map input_content inputs.items)) timelines.items) }
    ensures ready { IfOk result (λ timelines. All IsReady timelines.items) }
    ensures stopped { IfErr result (FirstIsNot (IsOpenedInput (option_copied media.entry))
        (StopsOpening (option_copied media.entry))
        (named_inputs (names_now names.now) (map input_content inputs.items))) }
{
    let mut timelines = Vec::new(alloc);
    let mut rest = inputs.into_iter();
    'inputs: for &name in names {
        let input = next_input(&mut rest);
        match opened_timeline(alloc, input, media) {
            Ok(timeline) => match timelines.push(timeline) {
                Ok(()) => {}
                Err(refused) => {
                    mem::forget(refused);
                    return Err(no_memory(name));
                }
            },
            Err(refusal) => return Err(refused(name, refusal)),
        }
    }
    Ok(timelines)
}

// The next input.
fn next_input(inputs: &mut IntoIter<Input>) -> Input
    requires { into_iter_items inputs.old ≢ [] }
    ensures { into_iter_items inputs.old ≡ result ∷ into_iter_items inputs.new }
{
    match inputs.next() {
        Some(input) => input,
        None => unreachable!(),
    }
}

// A refusal that is told of the file of that name.
fn refused<'a>(name: &'a str, refusal: Refusal) -> SourceFault<'a>
    ensures name { result.name.now ≡ name.now }
    ensures fault { result.fault ≡ ReadFault.Refused refusal }
{
    SourceFault {
        name,
        fault: ReadFault::Refused(refusal),
    }
}

// What a command on several files is to send for their sound timelines.
fn worked<'a>(
    alloc: Global,
    command: Command,
    names: &[&'a str],
    timelines: Vec<Timeline>,
) -> Result<Planned, SourceFault<'a>>
    requires several { asking.takes_several command ≡ true }
    requires ready { All IsReady timelines.items }
    requires some { timelines.items ≢ [] }
    requires named { names.now ≢ [] }
    requires joining { HasJoining command (length timelines.items) }
    ensures owed { PlansAs (λ target answer.
        AnswersTimelines command (names_now names.now) target timelines.items answer) result }
    ensures fits { IfOk result (λ planned. Fits planned) }
    ensures kind { IfOk result (λ planned. AreRows planned → ⊥) }
    ensures desk { IfOk result (λ planned. IsDesk planned → ⊥) }
    ensures named { IfErr result (λ stop. IsAmong (names_now names.now) stop.name.now) }
    ensures calm { (n : ℕ) → RaisedAt result n n }
{
    match command {
        Command::Cat => joined(alloc, names, timelines),
        Command::ListCat { rate: _ } => joined(alloc, names, timelines),
        Command::Tool(asked) => tool_done(alloc, asked, names, timelines),
        Command::ListTool { rate: _, tool } => tool_done(alloc, tool, names, timelines),
        _ => unreachable!(),
    }
}

// What is to be sent of timelines that are joined.
fn joined<'a>(
    alloc: Global,
    names: &[&'a str],
    timelines: Vec<Timeline>,
) -> Result<Planned, SourceFault<'a>>
    requires ready { All IsReady timelines.items }
    requires some { timelines.items ≢ [] }
    requires named { names.now ≢ [] }
    ensures owed { PlansAs (λ target answer.
        AnswersJoined (names_now names.now) target timelines.items answer) result }
    ensures fits { IfOk result (λ planned. Fits planned) }
    ensures kind { IfOk result (λ planned. AreRows planned → ⊥) }
    ensures desk { IfOk result (λ planned. IsDesk planned → ⊥) }
    ensures named { IfErr result (λ stop. IsAmong (names_now names.now) stop.name.now) }
    ensures calm { (n : ℕ) → RaisedAt result n n }
{
    match concatenated(alloc, timelines) {
        Ok(timeline) => Ok(Planned::Root(Object::Timeline(timeline))),
        Err(fault) => Err(stop_of(names, fault)),
    }
}

// What is to be sent of timelines that are worked on as asked.
fn tool_done<'a>(
    alloc: Global,
    asked: ToolAsked,
    names: &[&'a str],
    timelines: Vec<Timeline>,
) -> Result<Planned, SourceFault<'a>>
    requires ready { All IsReady timelines.items }
    requires some { timelines.items ≢ [] }
    requires named { names.now ≢ [] }
    requires joining { FitsJoining asked (length timelines.items) }
    ensures owed { PlansAs (λ target answer.
        AnswersTool asked (names_now names.now) target timelines.items answer) result }
    ensures fits { IfOk result (λ planned. Fits planned) }
    ensures kind { IfOk result (λ planned. AreRows planned → ⊥) }
    ensures desk { IfOk result (λ planned. IsDesk planned → ⊥) }
    ensures named { IfErr result (λ stop. IsAmong (names_now names.now) stop.name.now) }
    ensures calm { (n : ℕ) → RaisedAt result n n }
{
    match tooled(alloc, asked, timelines) {
        Ok(timeline) => Ok(output_of(asked, timeline)),
        Err(fault) => Err(stop_of(names, fault)),
    }
}

// What is written of a timeline: the listings that are asked for, else the timeline.
fn output_of(asked: ToolAsked, timeline: Timeline) -> Planned
    requires few { count_below timeline.tracks.children < 2 ^ 32 }
    ensures text { text_planned result ≡ tool_text asked timeline }
    ensures fits { Fits result }
    ensures kind { AreRows result → ⊥ }
    ensures desk { IsDesk result → ⊥ }
{
    if does_list(asked) {
        Planned::Listed(timeline, listings_asked(asked))
    } else {
        Planned::Root(Object::Timeline(timeline))
    }
}

// Whether something is listed.
fn does_list(asked: ToolAsked) -> bool
    ensures { result ≡ tools.does_list asked }
{
    (asked.list_tracks || asked.list_clips) || (asked.list_media || asked.stats)
}

// The listings that are asked for.
fn listings_asked(asked: ToolAsked) -> Listings
    ensures { result ≡ tools.listings_asked asked }
{
    Listings {
        tracks: asked.list_tracks,
        clips: asked.list_clips,
        media: asked.list_media,
        stats: asked.stats,
    }
}

// What is told of timelines of files of these names that aren't worked on.
fn stop_of<'a>(names: &[&'a str], fault: ToolFault) -> SourceFault<'a>
    ensures name { (fault ≢ ToolFault.Memory) →
        result.name.now ≡ name_told (names_now names.now) fault }
    ensures among { names.now ≢ [] → IsAmong (names_now names.now) result.name.now }
    ensures fault { IsRefusedAt (λ why. (fault ≢ ToolFault.Memory)
        × (why ≡ tool_fault_text fault)) result.fault }
{
    let name = name_of(names, &fault);
    match reason_of(fault) {
        Some(reason) => refused(name, Refusal::Broken(reason)),
        None => no_memory(name),
    }
}

// The name of the input that a fault is told of.
fn name_of<'a>(names: &[&'a str], fault: &ToolFault) -> &'a str
    ensures name { (fault.now ≢ ToolFault.Memory) →
        result.now ≡ name_told (names_now names.now) fault.now }
    ensures among { names.now ≢ [] → IsAmong (names_now names.now) result.now }
{
    match fault {
        ToolFault::At { input, fault: _ } => name_at(names, *input),
        _ => name_at(names, 0),
    }
}

// The name of the input of an index, else of the first.
fn name_at<'a>(names: &[&'a str], index: usize) -> &'a str
    ensures { result.now ≡ tools.name_at (names_now names.now) index }
{
    match names.get(index) {
        Some(&name) => name,
        None => first_name(names),
    }
}

// The name of the first input, and an empty one where there is none.
fn first_name<'a>(names: &[&'a str]) -> &'a str
    ensures { result.now ≡ get_or (names_now names.now) 0 [] }
{
    match names.get(0) {
        Some(&name) => name,
        None => "",
    }
}

// What is told of timelines that aren't worked on; nothing where memory ran out.
fn reason_of(fault: ToolFault) -> Option<Reason>
    ensures { IfSome result (λ reason. (fault ≢ ToolFault.Memory)
        × (reason_text reason ≡ tool_fault_text fault)) }
{
    match fault {
        ToolFault::At { input: _, fault } => flat_reason(fault),
        ToolFault::Items => Some(items_reason()),
        ToolFault::Unsound(fault) => coord_reason(fault),
        ToolFault::Memory => None,
    }
}
