//! Command lines and what they ask for.

use command_words::{Command, DrillAsked, FramesAsked, Request, Task, WordsFault, request_of};
use smpte_tc::RecordPoint;
use std::alloc::{AllocError, Global};
use std::process::Abort;

fn push_word(alloc: Global, words: &mut Vec<String>, word: &str) -> Result<(), AllocError> {
    words.push(String::from_str(alloc, word)?)?;
    Ok(())
}

fn words_of(alloc: Global, line: &str) -> Result<Vec<String>, AllocError> {
    let mut words = Vec::new(alloc);
    for word in line.split_whitespace() {
        push_word(alloc, &mut words, word)?;
    }
    Ok(words)
}

/// What a line is to ask for.
#[derive(Clone, Copy)]
pub(crate) enum Wanted<'a> {
    /// A list of a list, at a rate of this numerator, with drop-frame or not, and wide or not.
    List(i64, bool, bool),
    /// A list of a list.
    AnyList,
    /// This command.
    This(Command),
    /// This command on the file of this name, into this output.
    File(Command, &'a str, Option<&'a str>),
    /// This command on the files of these names, with spaces between.
    Files(Command, &'a str),
    /// This command, into this output.
    Into(Command, Option<&'a str>),
    /// A list of a timeline, with drop-frame or not, wide or not, and with this media list.
    TimelineToList(bool, bool, Option<&'a str>),
    /// Edits of this script with this media list: of a list at a rate of this numerator, or of a
    /// timeline.
    Edit(Option<i64>, &'a str, Option<&'a str>),
    /// A list that is conformed with this media list, at a rate of this numerator, and whether
    /// frames are listed.
    Conformed(i64, bool, Option<&'a str>),
    /// A command with this script.
    Script(Option<&'a str>),
    /// A command without a media list.
    NoMedia,
    /// A drill of this seed and this count, into this output.
    Drill(u64, u32, Option<&'a str>),
}

// Whether a list of a list is asked for, at a rate of this numerator.
fn is_list(request: &Request<'_>, num: i64, drop_frame: bool, is_wide: bool) -> bool {
    match request.command {
        Command::ListToList {
            rate,
            drop,
            wide,
            ..
        } => {
            rate.num == num
                && drop == drop_frame
                && wide == is_wide
                && request.name.ends_with(".edl")
        }
        _ => false,
    }
}

// Whether a list of a timeline is asked for.
fn is_timeline_as_list(command: &Command, drop_frame: bool, is_wide: bool) -> bool {
    match *command {
        Command::TimelineToList { drop, wide, .. } => drop == drop_frame && wide == is_wide,
        _ => false,
    }
}

// Whether the files of these names are read, in this order.
fn are_files(request: &Request<'_>, names: &str) -> bool {
    let mut names = names.split_whitespace();
    if names.next() != Some(request.name) {
        return false;
    }
    for &name in request.others.more.as_slice() {
        if names.next() != Some(name) {
            return false;
        }
    }
    names.next().is_none()
}

// Whether edits are asked for: of a list at a rate of this numerator, or of a timeline.
fn is_edit(command: &Command, num: Option<i64>) -> bool {
    match *command {
        Command::Edit => num.is_none(),
        Command::ListEdit { rate } => num == Some(rate.num),
        _ => false,
    }
}

// Whether a list is conformed, at a rate of this numerator, and frames are listed or not.
fn is_conformed(command: &Command, num: i64, listed: bool) -> bool {
    match *command {
        Command::ListToObjects { rate, .. } => rate.num == num && !listed,
        Command::ListFrames { rate, .. } => rate.num == num && listed,
        _ => false,
    }
}

// Whether this is to be done.
fn does(request: &Request<'_>, command: &Command) -> bool {
    request.command == *command
}

// Whether the first file has this name.
fn has_name(request: &Request<'_>, name: &str) -> bool {
    request.name == name
}

// Whether this is the output.
fn has_target(request: &Request<'_>, target: Option<&str>) -> bool {
    request.target == target
}

// Whether this is the media list.
fn has_media(request: &Request<'_>, media: Option<&str>) -> bool {
    request.others.media == media
}

// Whether this is the script.
fn has_script(request: &Request<'_>, script: Option<&str>) -> bool {
    request.others.script == script
}

// Whether a command on files is what a line is to ask for.
fn is_met(request: &Request<'_>, wanted: &Wanted<'_>) -> bool {
    match wanted {
        Wanted::List(num, drop, wide) => is_list(request, *num, *drop, *wide),
        Wanted::AnyList => matches!(request.command, Command::ListToList { .. }),
        Wanted::This(command) => does(request, command),
        Wanted::File(command, name, target) => {
            does(request, command) && has_name(request, name) && has_target(request, *target)
        }
        Wanted::Files(command, names) => does(request, command) && are_files(request, names),
        Wanted::Into(command, target) => does(request, command) && has_target(request, *target),
        Wanted::TimelineToList(drop, wide, media) => {
            is_timeline_as_list(&request.command, *drop, *wide) && has_media(request, *media)
        }
        Wanted::Edit(num, script, media) => {
            is_edit(&request.command, *num)
                && has_script(request, Some(*script))
                && has_media(request, *media)
        }
        Wanted::Conformed(num, listed, media) => {
            is_conformed(&request.command, *num, *listed) && has_media(request, *media)
        }
        Wanted::Script(script) => has_script(request, *script),
        Wanted::NoMedia => has_media(request, None),
        Wanted::Drill(..) => false,
    }
}

// Whether a drill has this seed, this count and this output.
fn is_drill(drill: &DrillAsked<'_>, seed: u64, count: u32, target: Option<&str>) -> bool {
    drill.seed == seed && drill.count == count && drill.target == target
}

// Whether a task is what a line is to ask for.
fn is_wanted(task: &Task<'_>, wanted: &Wanted<'_>) -> bool {
    match task {
        Task::OnFiles(request) => is_met(request, wanted),
        Task::Drill(drill) => match wanted {
            Wanted::Drill(seed, count, target) => is_drill(drill, *seed, *count, *target),
            _ => false,
        },
    }
}

// Whether words ask for this.
fn words_ask(alloc: Global, words: &[String], wanted: &Wanted<'_>) -> bool {
    match request_of(alloc, words) {
        Ok(task) => {
            let asked = is_wanted(&task, wanted);
            drop(task);
            asked
        }
        Err(_) => false,
    }
}

/// That a line asks for this.
pub(crate) fn asks(rt: &impl Abort, alloc: Global, line: &str, wanted: &Wanted<'_>) {
    let words = words_of(alloc, line).expect(rt, "memory");
    assert!(rt; words_ask(alloc, words.as_slice(), wanted), "{line}");
}

// Whether words ask for nothing.
fn words_ask_nothing(alloc: Global, words: &[String]) -> Result<bool, AllocError> {
    match request_of(alloc, words) {
        Ok(task) => {
            drop(task);
            Ok(false)
        }
        Err(WordsFault::Usage) => Ok(true),
        Err(WordsFault::Memory) => Err(AllocError),
    }
}

// Whether a line asks for nothing.
fn asks_for_nothing(alloc: Global, line: &str) -> Result<bool, AllocError> {
    let words = words_of(alloc, line)?;
    words_ask_nothing(alloc, words.as_slice())
}

// The words of a line, an empty word and a last word.
fn with_empty_word(
    alloc: Global,
    line: &str,
    last: Option<&str>,
) -> Result<Vec<String>, AllocError> {
    let mut words = words_of(alloc, line)?;
    push_word(alloc, &mut words, "")?;
    if let Some(word) = last {
        push_word(alloc, &mut words, word)?;
    }
    Ok(words)
}

// That a line with an empty word behind it and a last word asks for this.
fn asks_with_empty_word(
    rt: &impl Abort,
    alloc: Global,
    line: &str,
    last: Option<&str>,
    wanted: &Wanted<'_>,
) {
    let words = with_empty_word(alloc, line, last).expect(rt, "memory");
    assert!(rt; words_ask(alloc, words.as_slice(), wanted), "{line}");
}

// That a line with an empty word behind it asks for nothing.
fn is_refused_with_empty_word(rt: &impl Abort, alloc: Global, line: &str) {
    let words = with_empty_word(alloc, line, None).expect(rt, "memory");
    let refused = words_ask_nothing(alloc, words.as_slice()).expect(rt, "memory");
    assert!(rt; refused, "{line}");
}

/// That a line asks for nothing.
pub(crate) fn is_refused(rt: &impl Abort, alloc: Global, line: &str) {
    let refused = asks_for_nothing(alloc, line).expect(rt, "memory");
    assert!(rt; refused, "{line}");
}

/// Lines that ask for a list of a list.
const LISTS: [(&str, i64, bool, bool); 5] = [
    ("convert --to edl a.edl", 24, false, false),
    ("convert a.edl --rate 25 --to edl --drop", 25, true, false),
    (
        "convert --rate 29.97 --to edl a.edl --wide",
        30_000,
        false,
        true,
    ),
    ("convert --wide --drop --to edl .edl", 24, true, true),
    ("convert --from edl --to edl x.edl", 24, false, false),
];

#[test]
fn lines_ask_for_lists(rt: HostRuntime) {
    for &(line, num, drop, wide) in LISTS.iter() {
        asks(&rt, rt.alloc(), line, &Wanted::List(num, drop, wide));
    }
}

/// Lines that ask for a list of a timeline: whether in drop-frame, whether wide, and with which
/// media list.
const TIMELINE_LISTS: [(&str, bool, bool, Option<&str>); 6] = [
    ("convert --to edl x.otio", false, false, None),
    ("convert -o l.edl x", false, false, None),
    ("convert --from otio --to edl a.edl", false, false, None),
    (
        "convert --wide --to edl a.json --media m",
        false,
        true,
        Some("m"),
    ),
    ("convert --media - x -o .edl --drop", true, false, Some("-")),
    (
        "convert --rate 25 --to edl --drop x --wide",
        true,
        true,
        None,
    ),
];

#[test]
fn lines_ask_for_timelines_as_lists(rt: HostRuntime) {
    for &(line, drop, wide, media) in TIMELINE_LISTS.iter() {
        asks(
            &rt,
            rt.alloc(),
            line,
            &Wanted::TimelineToList(drop, wide, media),
        );
    }
}

/// Lines that ask for a JSON text.
const JSON: [(&str, &str); 3] = [
    ("convert --to json -", "-"),
    ("convert x --rate 24 --to json", "x"),
    ("convert --drop x.edl.json --to json --wide", "x.edl.json"),
];

// That a line asks for the JSON text of the file of this name.
fn asks_for_json_of(rt: &impl Abort, alloc: Global, line: &str, name: &str) {
    asks(rt, alloc, line, &Wanted::File(Command::ToJson, name, None));
}

#[test]
fn lines_ask_for_json(rt: HostRuntime) {
    for &(line, name) in JSON.iter() {
        asks_for_json_of(&rt, rt.alloc(), line, name);
    }
}

/// Lines that ask for no conversion.
const NO_CONVERSIONS: [&str; 29] = [
    "",
    "convert",
    "Convert --to edl a.edl",
    "convert --to edl",
    "convert --to edl a.edl a.edl",
    "convert --to edl --to edl a.edl",
    "convert --to edl -a.edl",
    "convert --to edl -- a.edl b.edl",
    "convert --to json a.edl",
    "convert --to edl --media - -",
    "convert --to edl --wide --wide x",
    "convert --to edl --rate 29.5 x",
    "convert --to edl --wide 1 x",
    "convert --from edl --to json x",
    "convert --from json x",
    "convert --to edl --media m a.edl",
    "convert --from edl --media - -",
    "convert --media m --media m a.edl",
    "convert --media a.edl",
    "convert -o b.edl --output c.edl a.edl",
    "convert --to json --rate 29.5 x",
    "convert --to json --rate 024 x",
    "convert --to json --rate x",
    "convert --to json --drop --drop x",
    "convert --to json x --rate",
    "convert -o -x y",
    "convert --family 3 x",
    "convert --family 01 x",
    "convert --family 1 --family 1 x",
];

#[test]
fn other_lines_ask_for_nothing(rt: HostRuntime) {
    for line in NO_CONVERSIONS.iter() {
        is_refused(&rt, rt.alloc(), line);
    }
}

// That a line asks for objects, into this output.
fn asks_for_objects(rt: &impl Abort, alloc: Global, line: &str, target: Option<&str>) {
    asks(
        rt,
        alloc,
        line,
        &Wanted::Into(Command::ToObjects { older: false }, target),
    );
}

// That a line asks for a JSON text, into this output.
fn asks_for_json(rt: &impl Abort, alloc: Global, line: &str, target: Option<&str>) {
    asks(rt, alloc, line, &Wanted::Into(Command::ToJson, target));
}

#[test]
fn lines_ask_for_objects_and_outputs(rt: HostRuntime) {
    let alloc = rt.alloc();
    asks_for_objects(&rt, alloc, "convert x.otio", None);
    asks_for_objects(&rt, alloc, "convert --to otio x.otio", None);
    asks_for_objects(&rt, alloc, "convert --from otio a.edl", None);
    asks_for_objects(&rt, alloc, "convert x -o y", Some("y"));
    asks_for_objects(&rt, alloc, "convert --output - x", Some("-"));
    asks_for_objects(&rt, alloc, "convert --to otio -o l.edl x", Some("l.edl"));
    asks_for_objects(&rt, alloc, "convert --media m x", None);
    asks_for_objects(&rt, alloc, "convert --family 2 x", None);
    let older = Wanted::This(Command::ToObjects { older: true });
    asks(&rt, alloc, "convert --family 1 x", &older);
    asks_for_json(&rt, alloc, "convert --to json -o y x", Some("y"));
    asks_for_json(&rt, alloc, "convert --from otio --to json a.edl", None);
    asks_for_json(&rt, alloc, "convert --media - --to json -", None);
    asks(&rt, alloc, "convert -o l.edl a.edl", &Wanted::AnyList);
}

/// Lines that ask for frames: of which child, from which point on, and how many.
const FRAMES: [(&str, Option<u64>, Option<RecordPoint>, Option<u32>); 5] = [
    ("frames -", None, None, None),
    ("frames --child 0 x.otio", Some(0), None, None),
    ("frames x --count 1000000", None, None, Some(1_000_000)),
    (
        "frames --start 86442 --count 1 -o y x",
        None,
        Some(RecordPoint::Frame(86_442)),
        Some(1),
    ),
    (
        "frames --output l.edl x --start 99:00:00;00 --child 999999999999999999",
        Some(999_999_999_999_999_999),
        Some(RecordPoint::Label(*b"99:00:00;00")),
        None,
    ),
];

// That a line asks for these frames of a timeline.
fn asks_for_frames(rt: &impl Abort, alloc: Global, line: &str, asked: FramesAsked) {
    asks(rt, alloc, line, &Wanted::This(Command::Frames(asked)));
}

#[test]
fn lines_ask_for_frames(rt: HostRuntime) {
    for &(line, child, start, count) in FRAMES.iter() {
        let asked = FramesAsked {
            child,
            start,
            count,
        };
        asks_for_frames(&rt, rt.alloc(), line, asked);
    }
}

/// Lines that ask for no frames.
const NO_FRAMES: [&str; 28] = [
    "frames",
    "Frames x",
    "frames x y",
    "frames -x",
    "frames --count= x",
    "frames x --count",
    "frames --child 1 --child 1 x",
    "frames --child 00 x",
    "frames --child +1 x",
    "frames --child -1 x",
    "frames --child 1000000000000000000 x",
    "frames --count 0 x",
    "frames --count 05 x",
    "frames --count 1000001 x",
    "frames --start 1:00:00:00 x",
    "frames --start 01:00:00.00 x",
    "frames --start 01;00;00;00 x",
    "frames --start 01 x",
    "frames --from otio x",
    "frames --rate 29.5 x",
    "frames --rate 0 a.edl",
    "frames --media m",
    "frames --to json x",
    "frames --drop x",
    "frames --wide x",
    "convert --child 0 x",
    "convert --start 0 x",
    "convert --count 1 x",
];

#[test]
fn other_lines_ask_for_no_frames(rt: HostRuntime) {
    for line in NO_FRAMES.iter() {
        is_refused(&rt, rt.alloc(), line);
    }
}

/// Lines that ask for a script's edits: of a list at a rate of which numerator, or of a timeline,
/// with which script and which media list.
const EDITS: [(&str, Option<i64>, &str, Option<&str>); 5] = [
    ("edit --script s x.otio", None, "s", None),
    ("edit x --script - --media m", None, "-", Some("m")),
    (
        "edit --script s --media - --rate 25 -o y x",
        None,
        "s",
        Some("-"),
    ),
    ("edit a.edl --script s", Some(24), "s", None),
    (
        "edit --rate 29.97 --media m --script a.edl b.edl",
        Some(30_000),
        "a.edl",
        Some("m"),
    ),
];

#[test]
fn lines_ask_for_edits(rt: HostRuntime) {
    for &(line, num, script, media) in EDITS.iter() {
        asks(&rt, rt.alloc(), line, &Wanted::Edit(num, script, media));
    }
}

/// Lines that ask for no edits.
const NO_EDITS: [&str; 16] = [
    "edit",
    "edit x",
    "edit --script s",
    "edit --script s --script s x",
    "edit --script -s x",
    "edit --script - -",
    "edit --script - --media - x",
    "edit --script s --media - -",
    "edit --script s --rate 29.5 x",
    "edit --script s --from otio x",
    "edit --script s --to otio x",
    "edit --script s --count 1 x",
    "edit --script s --drop x",
    "edit --script s x y",
    "convert --script s x",
    "frames --script s x",
];

#[test]
fn other_lines_ask_for_no_edits(rt: HostRuntime) {
    for line in NO_EDITS.iter() {
        is_refused(&rt, rt.alloc(), line);
    }
}

/// Lines that ask for a list that is conformed: at a rate of which numerator, whether its frames
/// are listed, and with which media list.
const CONFORMED: [(&str, i64, bool, Option<&str>); 6] = [
    ("convert a.edl", 24, false, None),
    (
        "convert --to otio --media m a.edl --drop",
        24,
        false,
        Some("m"),
    ),
    (
        "convert --from edl --rate 25 --media - x -o y",
        25,
        false,
        Some("-"),
    ),
    ("convert --from edl - --media m", 24, false, Some("m")),
    ("frames a.edl", 24, true, None),
    (
        "frames --rate 29.97 --media m a.edl",
        30_000,
        true,
        Some("m"),
    ),
];

#[test]
fn lines_ask_for_conformed_lists(rt: HostRuntime) {
    for &(line, num, listed, media) in CONFORMED.iter() {
        asks(
            &rt,
            rt.alloc(),
            line,
            &Wanted::Conformed(num, listed, media),
        );
    }
}

#[test]
fn a_media_list_without_effect_is_not_read(rt: HostRuntime) {
    asks(
        &rt,
        rt.alloc(),
        "frames --media - --rate 24 -",
        &Wanted::NoMedia,
    );
}

// That a line with an empty word behind it asks for the JSON text of a file without a name.
fn asks_for_no_name(rt: &impl Abort, alloc: Global, line: &str) {
    let wanted = Wanted::File(Command::ToJson, "", None);
    asks_with_empty_word(rt, alloc, line, None, &wanted);
}

// That a line asks for the objects of the file of this name, into this output.
fn asks_for_objects_of(
    rt: &impl Abort,
    alloc: Global,
    line: &str,
    name: &str,
    target: Option<&str>,
) {
    asks(
        rt,
        alloc,
        line,
        &Wanted::File(Command::ToObjects { older: false }, name, target),
    );
}

// That a line asks for an edit of the timeline of this name.
fn asks_for_edit_of(rt: &impl Abort, alloc: Global, line: &str, name: &str) {
    asks(rt, alloc, line, &Wanted::File(Command::Edit, name, None));
}

#[test]
fn clap_reads_the_words(rt: HostRuntime) {
    let alloc = rt.alloc();
    asks_for_objects_of(&rt, alloc, "convert --from=otio a.edl", "a.edl", None);
    asks_for_objects_of(&rt, alloc, "convert -oy x", "x", Some("y"));
    asks_for_objects_of(&rt, alloc, "convert -o=y x", "x", Some("y"));
    asks_for_objects_of(&rt, alloc, "convert x --output=", "x", Some(""));
    asks_for_objects_of(&rt, alloc, "convert --output=-y x", "x", Some("-y"));
    asks_for_objects_of(&rt, alloc, "convert -- --help", "--help", None);
    asks_for_json_of(&rt, alloc, "convert --to=json --rate=24 x", "x");
    asks_for_json_of(&rt, alloc, "convert --to json -- -x", "-x");
    asks_for_edit_of(&rt, alloc, "edit --script=s -- -", "-");
    asks_for_no_name(&rt, alloc, "convert --to json --");
}

#[test]
fn an_empty_name_may_stand_anywhere(rt: HostRuntime) {
    let line = "edit --media m --script";
    asks_with_empty_word(&rt, rt.alloc(), line, Some("x"), &Wanted::Script(Some("")));
    is_refused_with_empty_word(&rt, rt.alloc(), "convert x --rate");
}

/// Lines whose options have no such form.
const NO_OPTIONS: [&str; 19] = [
    "--help",
    "convert --help",
    "convert x --help",
    "convert -h",
    "edit --script s x -h",
    "frames --version",
    "frames -V x",
    "convert --rate 24 --rate 24 x",
    "convert -o y --output y x",
    "convert --drop --drop x",
    "convert --drop=true x",
    "convert --dro x",
    "convert -drop x",
    "convert --from= x",
    "convert --output --drop x",
    "convert x -o",
    "convert --",
    "convert -- x y",
    "edit --script s -- x --media m",
];

// That a line asks for something.
fn is_taken(rt: &impl Abort, alloc: Global, line: &str) {
    let refused = asks_for_nothing(alloc, line).expect(rt, "memory");
    assert!(rt; !refused, "{line}");
}

#[test]
fn clap_refuses_the_words(rt: HostRuntime) {
    for line in NO_OPTIONS.iter() {
        is_refused(&rt, rt.alloc(), line);
    }
    is_taken(&rt, rt.alloc(), "convert -");
    is_taken(&rt, rt.alloc(), "convert x --");
    is_taken(&rt, rt.alloc(), "convert -o - x");
}

/// Lines that ask for a drill: its seed, its count, and its output.
const DRILLS: [(&str, u64, u32, Option<&str>); 5] = [
    ("drill 0 0", 0, 0, None),
    ("drill 18446744073709551615 10000", u64::MAX, 10_000, None),
    ("drill -o out.txt 7 2000", 7, 2_000, Some("out.txt")),
    ("drill 7 --output - 1", 7, 1, Some("-")),
    ("drill -- 24 5", 24, 5, None),
];

#[test]
fn lines_ask_for_drills(rt: HostRuntime) {
    for &(line, seed, count, target) in DRILLS.iter() {
        asks(&rt, rt.alloc(), line, &Wanted::Drill(seed, count, target));
    }
}

/// Lines that ask for no drill.
const NO_DRILLS: [&str; 19] = [
    "drill",
    "drill 1",
    "drill 1 2 3",
    "drill 00 1",
    "drill 05 1",
    "drill 1 05",
    "drill 1 10001",
    "drill 18446744073709551616 1",
    "drill 1 18446744073709551616",
    "drill -1 2",
    "drill +1 2",
    "drill 1 +2",
    "drill - 2",
    "drill 1 a.otio",
    "drill --rate 24 1 2",
    "drill --media m 1 2",
    "drill -o out.txt",
    "drill -o a -o b 1 2",
    "Drill 1 2",
];

#[test]
fn other_lines_ask_for_no_drill(rt: HostRuntime) {
    for line in NO_DRILLS.iter() {
        is_refused(&rt, rt.alloc(), line);
    }
}
