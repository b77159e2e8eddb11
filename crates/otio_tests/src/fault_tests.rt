//! Devices that fail at a chosen call: the status and each byte that is sent are pinned.

use crate::runs::{
    Case, Manner, Named, Streams, WHOLE, WHOLE_BOTH, check_case_over, check_cut_offs, check_pieces,
    files_of, put_text,
};
use crate::texts::{ONE, ONE_SPELLED};
use crate::timelines::{gaps, three_tracks};
use dev_io::MemFiles;
use otio_tools::Status;
use std::alloc::{AllocError, Global};
use std::process::Abort;
use std::test::Fail;

static FILES: [Named; 3] = [
    ("a.edl", ONE),
    (
        "unequal.edl",
        b"1 T1 V C 00:00:00:00 00:00:01:00 00:00:00:00 00:00:02:00",
    ),
    ("list.json", b"[1,2]"),
];

// These, and a timeline.
fn some_files(alloc: Global) -> Result<MemFiles, AllocError> {
    let mut files = files_of(alloc, &FILES)?;
    put_text(&mut files, "x.otio", three_tracks(alloc))?;
    Ok(files)
}

#[test]
fn a_target_that_fails_takes_nothing(rt: HostRuntime) -> Result<(), Fail> {
    let line = "convert --to json -o o.json list.json";
    let case: Case = (line, Status::Output, b"", b"otio: output failed\n");
    let out = Manner {
        failing: 1,
        ..WHOLE
    };
    let streams = Streams { out, ..WHOLE_BOTH };
    let mut files = some_files(rt.alloc())?;
    let held = check_case_over(&rt, rt.alloc(), &mut files, &case, streams);
    drop(files);
    held
}

#[test]
fn a_timeline_of_1000_gaps_is_read(rt: HostRuntime) -> Result<(), Fail> {
    let told = b"otio: output failed\n";
    let case: Case = ("convert a.otio", Status::Output, b"", told);
    let out = Manner {
        failing: 1,
        ..WHOLE
    };
    let streams = Streams { out, ..WHOLE_BOTH };
    let mut files = MemFiles::new(rt.alloc());
    put_text(&mut files, "a.otio", gaps(rt.alloc(), 1_000))?;
    let held = check_case_over(&rt, rt.alloc(), &mut files, &case, streams);
    drop(files);
    held
}

#[test]
fn a_stream_of_output_that_fails_leaves_a_prefix(rt: HostRuntime) -> Result<(), Fail> {
    let line = "convert --to edl a.edl";
    let mut files = some_files(rt.alloc())?;
    let held = check_cut_offs(&rt, rt.alloc(), &mut files, 8, (line, ONE_SPELLED));
    drop(files);
    held
}

const AT_THE_CUT: &[u8] = b"86442 0 mix(dissolve 0/1 url:\"a.mov\"@66 url:\"b.mov\"@94)
86442 1 -
86442 2 url:\"a.wav\"@42
";

#[test]
fn rows_that_fail_leave_a_prefix(rt: HostRuntime) -> Result<(), Fail> {
    let line = "frames --start 86442 --count 1 x.otio";
    let mut files = some_files(rt.alloc())?;
    let held = check_cut_offs(&rt, rt.alloc(), &mut files, 6, (line, AT_THE_CUT));
    drop(files);
    held
}

const WITH_HANDLES: &[u8] = b"pull url:\"a.mov\" 24.0 23 56
pull url:\"b.mov\" 24.0 93 56
pull url:\"c.mov\" 24.0 39 25
pull url:\"a.wav\" 24.0 0 97
";

#[test]
fn pull_lists_that_fail_leave_a_prefix(rt: HostRuntime) -> Result<(), Fail> {
    let mut files = some_files(rt.alloc())?;
    let line = "pull --handles 1 x.otio";
    let held = check_cut_offs(&rt, rt.alloc(), &mut files, 8, (line, WITH_HANDLES));
    drop(files);
    held
}

// Command lines that fail, and their message on a stream that takes five bytes a call.
static BROKEN: [Case; 3] = [
    ("convert --to edl gone.edl", Status::Input, b"", b"otio:"),
    (
        "convert --to edl unequal.edl",
        Status::Refused,
        b"",
        b"otio:",
    ),
    ("paint", Status::Usage, b"", b"otio:"),
];

fn check_broken(rt: &impl Abort, alloc: Global, files: &mut MemFiles) -> Result<(), Fail> {
    let err = Manner {
        most: 5,
        failing: 2,
    };
    let streams = Streams { err, ..WHOLE_BOTH };
    for case in &BROKEN {
        check_case_over(rt, alloc, files, case, streams)?;
    }
    Ok(())
}

#[test]
fn a_failing_stream_of_messages_changes_no_status(rt: HostRuntime) -> Result<(), Fail> {
    let mut files = some_files(rt.alloc())?;
    let held = check_broken(&rt, rt.alloc(), &mut files);
    drop(files);
    held
}

#[test]
fn a_file_that_fails_is_named(rt: HostRuntime) -> Result<(), Fail> {
    let line = "convert --to edl a.edl";
    let case: Case = (line, Status::Input, b"", b"otio: a.edl: read failed\n");
    for failing in 1..5u64 {
        let manner = Manner { most: 64, failing };
        check_pieces(&rt, rt.alloc(), &FILES, manner, &case)?;
    }
    Ok(())
}
