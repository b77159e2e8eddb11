//! Devices that fail, at each of their calls in turn: files, the output, and messages.

ghost use Rattle.std.specs.Prelude.{◌<◌};

use crate::runs::{
    Answer, Manner, Named, Streams, WHOLE, WHOLE_BOTH, answer_over, answer_to, done, ended,
    files_of, put_text, was_sent,
};
use crate::timelines::{crossed_track, one_track, three_tracks};
use dev_io::MemFiles;
use otio_tools::Status;
use std::alloc::{AllocError, Global};
use std::process::Abort;
use std::test::Fail;

/// How many calls are made on a file of at most 4 096 bytes: it is opened, read, and read at its
/// end.
const FILE_CALLS: u64 = 3;

/// More calls of the output than any line here makes.
const MOST_CALLS: u64 = 2_000;

/// A command line, and the files that it reads, in their order.
type Read = (&'static str, &'static [&'static str]);

/// A command line that isn't done, its status, the call of the files that fails and that of the
/// output (0 where none does), and what is told.
type Told = (&'static str, Status, [u64; 2], &'static [u8]);

const LIST: &[u8] = b"TITLE: ONE
1 A1 V C 00:00:00:00 00:00:00:10 00:00:00:00 00:00:00:10
2 A1 V C 00:00:00:10 00:00:00:10 00:00:00:10 00:00:00:10
2 B1 V D 005 00:00:01:00 00:00:02:00 00:00:00:10 00:00:01:10
";

const OLD: &[u8] = b"{\"OTIO_SCHEMA\":\"Clip.1\",\"name\":\"s\",\"media_reference\":null}";

const UNDONE: &[u8] = b"overwrite 0 40 clip w W 0 10\noverwrite 0 100 clip w W 0 5\nundo\nundo\n";

static FILES: [Named; 7] = [
    ("old.otio", OLD),
    ("comma.otio", b"{\"a\":[1,]}"),
    ("a.edl", LIST),
    (
        "m.txt",
        b"A1\t24\t0\t240\ta.mov\nB1\t24\t0\t240\tb.mov\nW\t24\t0\t240\tw.mov\n",
    ),
    ("undone.txt", UNDONE),
    ("nothing.txt", b"undo\nundo\nundo\n"),
    ("refused.txt", b"slice 0 10\nslice 0 9999\n"),
];

fn put_timelines(alloc: Global, files: &mut MemFiles) -> Result<(), AllocError> {
    put_text(files, "x.otio", three_tracks(alloc))?;
    let a = ("a.mov", 0, 10);
    put_text(files, "a.otio", one_track(alloc, &[a]))?;
    put_text(files, "cut.otio", crossed_track(alloc, [20, 20], [0, 4]))?;
    put_text(files, "late.otio", crossed_track(alloc, [10, 3], [2, 8]))
}

// Files of which that call fails; none where it is 0.
fn some_files(alloc: Global, failing: u64) -> Result<MemFiles, AllocError> {
    let mut files = files_of(alloc, &FILES)?;
    put_timelines(alloc, &mut files)?;
    files.fail_on(failing)?;
    Ok(files)
}

// A line of each command, on one file and on several, with a script and with a media list. A drill
// makes no call.
static READ: [Read; 17] = [
    ("drill 3 20", &[]),
    ("convert --to edl a.edl", &["a.edl"]),
    ("convert a.edl", &["a.edl"]),
    ("convert --media m.txt a.edl", &["a.edl", "m.txt"]),
    ("convert x.otio", &["x.otio"]),
    ("convert --to json x.otio", &["x.otio"]),
    (
        "convert --to edl --media m.txt cut.otio",
        &["cut.otio", "m.txt"],
    ),
    ("frames --count 60 x.otio", &["x.otio"]),
    ("frames --media m.txt a.edl", &["a.edl", "m.txt"]),
    ("stat x.otio", &["x.otio"]),
    ("stat a.edl --media m.txt", &["a.edl", "m.txt"]),
    ("cat x.otio a.otio", &["x.otio", "a.otio"]),
    (
        "cat --media m.txt a.otio a.edl a.otio",
        &["a.otio", "a.edl", "a.otio", "m.txt"],
    ),
    (
        "tool --stack --remove-transitions --flatten all x.otio cut.otio",
        &["x.otio", "cut.otio"],
    ),
    ("tool --list-clips --stats x.otio", &["x.otio"]),
    (
        "edit --media m.txt --script undone.txt x.otio",
        &["x.otio", "undone.txt", "m.txt"],
    ),
    (
        "edit --script undone.txt --media m.txt a.edl",
        &["a.edl", "undone.txt", "m.txt"],
    ),
];

/// A command line, its status, and what is told.
#[derive(Clone, Copy)]
struct Ending<'a> {
    line: &'a str,
    status: Status,
    told: &'a str,
}

// Holds how a line ends over files of which that call fails, and what is told. Without a fault
// something is sent, else nothing.
fn check_call(rt: &impl Abort, alloc: Global, call: u64, ending: Ending<'_>) -> Result<(), Fail> {
    let Ending { line, status, told } = ending;
    let mut files = some_files(alloc, call)?;
    let answered = answer_to(alloc, &mut files, line);
    drop(files);
    let answer = answered?;
    ended(rt, line, &answer, status);
    was_sent(rt, line, &answer.err, told.as_bytes());
    assert!(rt;
        answer.out.sent().is_empty() == (status != Status::Done),
        "{line}"
    );
    drop(answer);
    Ok(())
}

// Holds that a line ends so whichever call on a file fails, from this call on.
fn check_file(rt: &impl Abort, alloc: Global, first: u64, ending: Ending<'_>) -> Result<(), Fail> {
    for more in 0..FILE_CALLS {
        check_call(rt, alloc, first.saturating_add(more), ending)?;
    }
    Ok(())
}

// Holds that each call on each file is told of, where it fails, by the name of that file, and that
// no other call is made.
fn check_reads(rt: &impl Abort, alloc: Global, case: &Read) -> Result<(), Fail> {
    let (line, names) = *case;
    let mut call = 1u64;
    for name in names {
        let told = format!(in alloc; "otio: {name}: read failed\n")?;
        let ending = Ending {
            line,
            status: Status::Input,
            told: told.as_str(),
        };
        let held = check_file(rt, alloc, call, ending);
        drop(told);
        held?;
        call = call.saturating_add(FILE_CALLS);
    }
    let ending = Ending {
        line,
        status: Status::Done,
        told: "",
    };
    check_call(rt, alloc, call, ending)
}

#[test]
fn each_call_on_a_file_that_fails_is_told(rt: HostRuntime) -> Result<(), Fail> {
    for case in &READ {
        check_reads(&rt, rt.alloc(), case)?;
    }
    Ok(())
}

// Lines of which a file is refused, the first call that isn't made then, and what is told.
const JUDGED: [(&str, u64, &str); 3] = [
    (
        "cat comma.otio a.otio",
        3,
        "otio: comma.otio: J1 Syntax at 8\n",
    ),
    (
        "convert --to edl --media gone.txt comma.otio",
        3,
        "otio: comma.otio: J1 Syntax at 8\n",
    ),
    (
        "edit --media m.txt --script comma.otio x.otio",
        7,
        "otio: comma.otio: P1 Line at 1\n",
    ),
];

#[test]
fn no_call_is_made_behind_a_refused_file(rt: HostRuntime) -> Result<(), Fail> {
    for (line, call, told) in JUDGED {
        let status = Status::Refused;
        check_call(&rt, rt.alloc(), call, Ending { line, status, told })?;
    }
    Ok(())
}

// Holds that a line that was done sent the whole, and told nothing.
fn is_whole(rt: &impl Abort, line: &str, answer: &Answer, whole: &Answer) {
    assert!(rt; answer.out.sent().len() == whole.out.sent().len(), "{line}");
    assert!(rt; answer.out.target() == whole.out.target(), "{line}");
    was_sent(rt, line, &answer.err, b"");
}

// Holds that a line whose output failed sent less than the whole, and that it is told of.
fn is_cut_off(rt: &impl Abort, line: &str, answer: &Answer, whole: &Answer) {
    ended(rt, line, answer, Status::Output);
    assert!(rt; answer.out.sent().len() < whole.out.sent().len(), "{line}");
    was_sent(rt, line, &answer.err, b"otio: output failed\n");
}

/// A command line, and its answer over an output that doesn't fail.
#[derive(Clone, Copy)]
struct Sent<'a> {
    line: &'a str,
    answer: &'a Answer,
}

// Whether a line is done over an output of this manner. Holds that it is told of where it isn't,
// behind a part of the whole.
fn ends_behind(
    rt: &impl Abort,
    alloc: Global,
    files: &mut MemFiles,
    whole: Sent<'_>,
    out: Manner,
) -> Result<bool, Fail>
    requires { 0 < out.most }
{
    let line = whole.line;
    let answer = answer_over(alloc, files, line, Streams { out, ..WHOLE_BOTH })?;
    assert!(rt;
        whole.answer.out.sent().starts_with(answer.out.sent()),
        "{line}"
    );
    let is_done = answer.status == Status::Done;
    if is_done {
        is_whole(rt, line, &answer, whole.answer);
    } else {
        is_cut_off(rt, line, &answer, whole.answer);
    }
    drop(answer);
    Ok(is_done)
}

/// A command line whose output takes so many bytes at a time, and some calls of that output: the
/// first, and the one behind the last.
#[derive(Clone, Copy)]
struct Calls<'a> {
    line: &'a str,
    most: usize,
    between: [u64; 2],
}

// The first of some calls of the output that isn't made, or 0 where all are. Holds how the line
// ends where one that is made fails.
fn first_unmade(
    rt: &impl Abort,
    alloc: Global,
    files: &mut MemFiles,
    calls: Calls<'_>,
    answer: &Answer,
) -> Result<u64, Fail>
    requires { 0 < calls.most }
{
    let line = calls.line;
    let most = calls.most;
    let [first, behind] = calls.between;
    for failing in first..behind {
        let out = Manner { most, failing };
        if ends_behind(rt, alloc, files, Sent { line, answer }, out)? {
            return Ok(failing);
        }
    }
    Ok(0)
}

// The same, once the whole is known.
fn unmade_over(
    rt: &impl Abort,
    alloc: Global,
    files: &mut MemFiles,
    calls: Calls<'_>,
) -> Result<u64, Fail>
    requires { 0 < calls.most }
{
    let whole = done(rt, alloc, files, calls.line)?;
    let found = first_unmade(rt, alloc, files, calls, &whole);
    drop(whole);
    found
}

fn done_between(rt: &impl Abort, alloc: Global, calls: Calls<'_>) -> Result<u64, Fail>
    requires { 0 < calls.most }
{
    let mut files = some_files(alloc, 0)?;
    let found = unmade_over(rt, alloc, &mut files, calls);
    drop(files);
    found
}

// Lines of which few bytes are sent, in pieces of 16, and of which more are, in pieces of 500.
const SHORT: [&str; 9] = [
    "drill 3 20",
    "drill -o d.txt 0 1",
    "convert --to edl a.edl",
    "convert --to edl --wide --media m.txt -o l.edl cut.otio",
    "convert old.otio",
    "convert --to json old.otio",
    "frames --start 86442 --count 4 x.otio",
    "stat x.otio",
    "tool --list-tracks --list-clips --list-media x.otio",
];

const LONG: [&str; 7] = [
    "convert --media m.txt a.edl",
    "convert -o y.otio x.otio",
    "convert --to json x.otio",
    "frames x.otio",
    "cat --media m.txt a.edl a.otio",
    "tool --concat --video-only --trim 4,16 --flatten video a.otio a.otio",
    "edit --media m.txt --script undone.txt a.edl",
];

// Holds that each call of the output of a line that fails leaves a prefix, and that there are some.
fn check_output(rt: &impl Abort, alloc: Global, line: &str, most: usize) -> Result<(), Fail>
    requires { 0 < most }
{
    let between = [1, MOST_CALLS];
    let unmade = done_between(
        rt,
        alloc,
        Calls {
            line,
            most,
            between,
        },
    )?;
    assert!(rt; 3 < unmade, "{line}");
    Ok(())
}

#[test]
fn each_call_of_a_short_output_that_fails_leaves_a_prefix(rt: HostRuntime) -> Result<(), Fail> {
    for line in SHORT {
        check_output(&rt, rt.alloc(), line, 16)?;
    }
    Ok(())
}

#[test]
fn each_call_of_a_long_output_that_fails_leaves_a_prefix(rt: HostRuntime) -> Result<(), Fail> {
    for line in LONG {
        check_output(&rt, rt.alloc(), line, 500)?;
    }
    Ok(())
}

/// A script that is undone. Its output takes some 700 calls, which are tried in four tests.
const SCRIPT: &str = "edit --media m.txt --script undone.txt x.otio";

// Some calls of its output.
fn of_script(between: [u64; 2]) -> Calls<'static>
    ensures { 0 < result.most }
{
    Calls {
        line: SCRIPT,
        most: 16,
        between,
    }
}

// Holds that all of these calls are made, and what is sent before each.
fn are_all_made(rt: &impl Abort, alloc: Global, between: [u64; 2]) -> Result<(), Fail> {
    assert!(rt; done_between(rt, alloc, of_script(between))? == 0);
    Ok(())
}

#[test]
fn calls_1_to_199_of_a_timeline_leave_a_prefix(rt: HostRuntime) -> Result<(), Fail> {
    are_all_made(&rt, rt.alloc(), [1, 200])
}

#[test]
fn calls_200_to_399_of_a_timeline_leave_a_prefix(rt: HostRuntime) -> Result<(), Fail> {
    are_all_made(&rt, rt.alloc(), [200, 400])
}

#[test]
fn calls_400_to_599_of_a_timeline_leave_a_prefix(rt: HostRuntime) -> Result<(), Fail> {
    are_all_made(&rt, rt.alloc(), [400, 600])
}

#[test]
fn later_calls_of_a_timeline_leave_a_prefix(rt: HostRuntime) -> Result<(), Fail> {
    assert!(rt; 600 < done_between(&rt, rt.alloc(), of_script([600, MOST_CALLS]))?);
    Ok(())
}

static TOLD: [Told; 12] = [
    (
        "drill 3 20",
        Status::Output,
        [1, 1],
        b"otio: output failed\n",
    ),
    (
        "convert gone.otio",
        Status::Input,
        [0, 0],
        b"otio: gone.otio: absent\n",
    ),
    (
        "cat a.otio gone.otio",
        Status::Input,
        [0, 0],
        b"otio: gone.otio: absent\n",
    ),
    (
        "stat x.otio",
        Status::Input,
        [2, 0],
        b"otio: x.otio: read failed\n",
    ),
    (
        "convert gone.otio",
        Status::Input,
        [1, 0],
        b"otio: gone.otio: read failed\n",
    ),
    (
        "convert x.otio",
        Status::Output,
        [0, 1],
        b"otio: output failed\n",
    ),
    (
        "frames -o f.txt x.otio",
        Status::Output,
        [0, 2],
        b"otio: output failed\n",
    ),
    (
        "convert comma.otio",
        Status::Refused,
        [0, 1],
        b"otio: comma.otio: J1 Syntax at 8\n",
    ),
    (
        "convert --to edl --media m.txt x.otio",
        Status::Refused,
        [0, 1],
        b"otio: x.otio: N1 Tracks at 1\n",
    ),
    (
        "cat late.otio a.otio",
        Status::Refused,
        [0, 0],
        b"otio: late.otio: X2 Transition at 0/1\n",
    ),
    (
        "edit --script refused.txt x.otio",
        Status::Refused,
        [0, 0],
        b"otio: refused.txt: E4 NoItem at 2\n",
    ),
    (
        "edit --script nothing.txt x.otio",
        Status::Refused,
        [0, 1],
        b"otio: nothing.txt: H1 NothingDone at 1\n",
    ),
];

// Holds that nothing is sent, and that a part of this is told.
fn is_part(rt: &impl Abort, line: &str, answer: &Answer, told: &[u8]) {
    assert!(rt; answer.out.sent().is_empty(), "{line}");
    assert!(rt; answer.err.target().is_none(), "{line}");
    assert!(rt; told.starts_with(answer.err.sent()), "{line}");
}

// Whether a message is told whole in pieces of 16 bytes of which that call fails. Holds that the
// status is the same either way, that nothing is sent, and that what is told is a part of it.
fn tells_whole(rt: &impl Abort, alloc: Global, case: &Told, call: u64) -> Result<bool, Fail> {
    let (line, status, [read, sent], told) = *case;
    let out = Manner {
        failing: sent,
        ..WHOLE
    };
    let err = Manner {
        most: 16,
        failing: call,
    };
    let mut files = some_files(alloc, read)?;
    let answered = answer_over(alloc, &mut files, line, Streams { out, err });
    drop(files);
    let answer = answered?;
    ended(rt, line, &answer, status);
    is_part(rt, line, &answer, told);
    let whole = answer.err.sent().len() == told.len();
    drop(answer);
    Ok(whole)
}

// Holds that a line ends so whichever call of its messages fails.
fn check_message(rt: &impl Abort, alloc: Global, case: &Told) -> Result<(), Fail> {
    assert!(rt; !tells_whole(rt, alloc, case, 1)?);
    for call in 2..MOST_CALLS {
        if tells_whole(rt, alloc, case, call)? {
            return Ok(());
        }
    }
    assert!(rt; false);
    Ok(())
}

#[test]
fn each_call_of_messages_that_fails_changes_no_status(rt: HostRuntime) -> Result<(), Fail> {
    for case in &TOLD {
        check_message(&rt, rt.alloc(), case)?;
    }
    Ok(())
}
