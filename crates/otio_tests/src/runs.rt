//! Runs of command lines over files and streams in memory, and what is held against them.

ghost use Rattle.std.specs.Prelude.{◌<◌, IfOk, Some};
ghost use Rattle.dev_io.specs.Calls.{IsFresh};
ghost use Rattle.dev_io.specs.MemOut.{out_known};

use dev_io::{MemFiles, MemOut, Out};
use otio_tools::{Status, run};
use std::alloc::{AllocError, Global};
use std::mem::forget;
use std::process::Abort;
use std::test::Fail;

/// How many bytes a stream has room for.
const ROOM: usize = 120_000;

/// A file's name and its bytes.
pub type Named = (&'static str, &'static [u8]);

/// A command line, its status, its output and its message.
pub type Case<'a> = (&'a str, Status, &'a [u8], &'a [u8]);

/// How a stream takes bytes: at most so many at a time, and the call of that number fails; none
/// where it is 0.
#[derive(Clone, Copy)]
pub struct Manner {
    pub most: usize,
    pub failing: u64,
}

/// All bytes at once, and no call fails.
pub const WHOLE: Manner = Manner {
    most: usize::MAX,
    failing: 0,
};

/// How the output and the stream of messages take bytes.
#[derive(Clone, Copy)]
pub struct Streams {
    pub out: Manner,
    pub err: Manner,
}

/// All bytes at once on both.
pub const WHOLE_BOTH: Streams = Streams {
    out: WHOLE,
    err: WHOLE,
};

/// How a run ended, and where it sent and told.
#[derive(Drop)]
pub struct Answer {
    pub status: Status,
    pub out: MemOut,
    pub err: MemOut,
}

// Adds files.
fn put_all(files: &mut MemFiles, named: &[Named]) -> Result<(), AllocError> {
    for (name, bytes) in named {
        files.put(name, bytes)?;
    }
    Ok(())
}

/// Adds a file of a text, once that is made.
pub fn put_text(
    files: &mut MemFiles,
    name: &str,
    made: Result<String, AllocError>,
) -> Result<(), AllocError> {
    let text = made?;
    let put = files.put(name, text.as_bytes());
    drop(text);
    put
}

/// These files.
pub fn files_of(alloc: Global, named: &[Named]) -> Result<MemFiles, AllocError> {
    let mut files = MemFiles::new(alloc);
    put_all(&mut files, named)?;
    Ok(files)
}

fn words_of(alloc: Global, line: &str) -> Result<Vec<String>, AllocError> {
    let mut words = Vec::new(alloc);
    for word in line.split_whitespace() {
        words.push(String::from_str(alloc, word)?)?;
    }
    Ok(words)
}

// How a command line ends over these files.
fn status_of<W: Out, E: Out>(
    alloc: Global,
    line: &str,
    files: &mut MemFiles,
    out: &mut W,
    err: &mut E,
) -> Result<Status, AllocError>
    requires { IsFresh (W.known out.old) }
{
    let words = words_of(alloc, line)?;
    let mut desk = None;
    let status = run(alloc, &words, files, out, err, &mut desk);
    forget(desk);
    drop(words);
    Ok(status)
}

// A stream that nothing was sent to.
fn stream(alloc: Global, manner: Manner) -> Result<MemOut, AllocError>
    requires { 0 < manner.most }
    ensures { IfOk result (λ stream. IsFresh (Some (out_known stream))) }
{
    let mut stream = MemOut::new(alloc, ROOM)?;
    stream.piece(manner.most);
    stream.fail_on(manner.failing)?;
    Ok(stream)
}

/// How a command line is answered over streams of these manners.
pub fn answer_over(
    alloc: Global,
    files: &mut MemFiles,
    line: &str,
    streams: Streams,
) -> Result<Answer, AllocError>
    requires out { 0 < streams.out.most }
    requires err { 0 < streams.err.most }
{
    let mut out = stream(alloc, streams.out)?;
    let mut err = stream(alloc, streams.err)?;
    let status = status_of(alloc, line, files, &mut out, &mut err)?;
    Ok(Answer { status, out, err })
}

/// How a command line is answered.
pub fn answer_to(alloc: Global, files: &mut MemFiles, line: &str) -> Result<Answer, AllocError> {
    answer_over(alloc, files, line, WHOLE_BOTH)
}

/// Holds how a command line ended.
pub fn ended(rt: &impl Abort, line: &str, answer: &Answer, status: Status) {
    assert!(rt; answer.status == status, "{line}");
}

/// Holds that these bytes were sent, and that no name was aimed at.
pub fn was_sent(rt: &impl Abort, line: &str, stream: &MemOut, bytes: &[u8]) {
    assert!(rt; stream.sent() == bytes, "{line}");
    assert!(rt; stream.target().is_none(), "{line}");
}

/// Holds the status, the output and the message of a command line against those of the case, over
/// streams of these manners.
pub fn check_case_over(
    rt: &impl Abort,
    alloc: Global,
    files: &mut MemFiles,
    case: &Case<'_>,
    streams: Streams,
) -> Result<(), Fail>
    requires out { 0 < streams.out.most }
    requires err { 0 < streams.err.most }
{
    let (line, status, output, message) = *case;
    let answer = answer_over(alloc, files, line, streams)?;
    ended(rt, line, &answer, status);
    was_sent(rt, line, &answer.out, output);
    was_sent(rt, line, &answer.err, message);
    drop(answer);
    Ok(())
}

// Holds the status, the output and the message of a command line against those of the case.
fn check_case(
    rt: &impl Abort,
    alloc: Global,
    files: &mut MemFiles,
    case: &Case<'_>,
) -> Result<(), Fail> {
    check_case_over(rt, alloc, files, case, WHOLE_BOTH)
}

/// Holds each of some cases over these files.
pub fn check_cases(
    rt: &impl Abort,
    alloc: Global,
    files: &mut MemFiles,
    cases: &[Case<'_>],
) -> Result<(), Fail> {
    for case in cases {
        check_case(rt, alloc, files, case)?;
    }
    Ok(())
}

/// Holds a case over these files, of which a read gives at most so many bytes, and that call fails;
/// none where it is 0.
pub fn check_pieces(
    rt: &impl Abort,
    alloc: Global,
    named: &[Named],
    manner: Manner,
    case: &Case<'_>,
) -> Result<(), Fail>
    requires { 0 < manner.most }
{
    let mut files = files_of(alloc, named)?;
    files.piece(manner.most);
    files.fail_on(manner.failing)?;
    let held = check_case(rt, alloc, &mut files, case);
    drop(files);
    held
}

/// The answer to a command line. Holds that it is done, and that nothing is told.
pub fn done(
    rt: &impl Abort,
    alloc: Global,
    files: &mut MemFiles,
    line: &str,
) -> Result<Answer, Fail> {
    let answer = answer_to(alloc, files, line)?;
    was_sent(rt, line, &answer.err, b"");
    ended(rt, line, &answer, Status::Done);
    Ok(answer)
}

/// A command line, and what it sends.
pub type Sends<'a> = (&'a str, &'a [u8]);

// Holds that an output in pieces of 16 bytes of which that call fails is told of, after a part of
// the whole.
fn check_cut_off(
    rt: &impl Abort,
    alloc: Global,
    files: &mut MemFiles,
    failing: u64,
    sends: Sends<'_>,
) -> Result<(), Fail> {
    let (line, whole) = sends;
    let out = Manner { most: 16, failing };
    let answer = answer_over(alloc, files, line, Streams { out, ..WHOLE_BOTH })?;
    ended(rt, line, &answer, Status::Output);
    was_sent(rt, line, &answer.err, b"otio: output failed\n");
    assert!(rt; whole.starts_with(answer.out.sent()));
    assert!(rt; answer.out.sent().len() < whole.len());
    drop(answer);
    Ok(())
}

/// Holds the same of each call of the output before that one.
pub fn check_cut_offs(
    rt: &impl Abort,
    alloc: Global,
    files: &mut MemFiles,
    end: u64,
    sends: Sends<'_>,
) -> Result<(), Fail> {
    for failing in 1..end {
        check_cut_off(rt, alloc, files, failing, sends)?;
    }
    Ok(())
}
