// The devices of the system, and each public call where nothing fails.
use dev_io::*;
use std::alloc::{AllocError, Global};
use std::io::{ErrorKind, Read};
use std::process::Abort;
use std::test::Fail;
use std::{fs, io};

// All that is read of the file in hand.
fn read_whole(rt: &impl Abort, alloc: Global, files: &mut impl Files) -> Vec<u8> {
    let mut whole = Vec::new(alloc);
    let mut buf = [0u8; 3];
    for _ in 0..1000 {
        let count = files.read(&mut buf).expect(rt, "bytes");
        if count == 0 {
            break;
        }
        whole.extend_from_slice(&buf[..count]).expect(rt, "memory");
    }
    whole
}

fn opens(rt: &impl Abort, files: &mut impl Files, name: &str, opened: Opened) {
    assert!(rt; files.open_file(name) == opened);
}

fn reads(rt: &impl Abort, files: &mut impl Files, count: Result<usize, Failed>) {
    assert!(rt; files.read(&mut [0; 4]) == count);
}

fn holds(rt: &impl Abort, alloc: Global, files: &mut impl Files, whole: &[u8]) {
    let found = read_whole(rt, alloc, files);
    assert!(rt; found.as_slice() == whole);
}

fn outcome_is(rt: &impl Abort, found: Result<(), Failed>, outcome: Result<(), Failed>) {
    assert!(rt; found == outcome);
}

fn target_is(rt: &impl Abort, out: &MemOut, target: Option<&str>) {
    assert!(rt; out.target() == target);
}

fn sent_is(rt: &impl Abort, out: &MemOut, sent: &[u8]) {
    assert!(rt; out.sent() == sent);
}

fn flushes(
    rt: &impl Abort,
    buffer: &mut OutBuffer,
    out: &mut MemOut,
    outcome: Result<(), WriteFault>,
) {
    assert!(rt; buffer.flush(out) == outcome);
}

#[test]
fn real_files_are_read(rt: HostRuntime) -> Result<(), Fail> {
    fs::write(&rt, "here", "some text")?;
    let mut files = RealFiles::new(rt);
    opens(&rt, &mut files, "gone", Opened::Absent);
    reads(&rt, &mut files, Ok(0));
    opens(&rt, &mut files, "no/folder", Opened::Absent);
    opens(&rt, &mut files, "here", Opened::Found);
    holds(&rt, rt.alloc(), &mut files, b"some text");
    opens(&rt, &mut files, ".", Opened::Found);
    reads(&rt, &mut files, Err(Failed));
    opens(&rt, &mut files, "here/below", Opened::Failed);
    opens(&rt, &mut files, "-", Opened::Found);
    opens(&rt, &mut files, "here", Opened::Found);
    files.close();
    reads(&rt, &mut files, Ok(0));
    drop(files);
    Ok(())
}

fn text_is(rt: &impl Abort, found: io::Result<String>, text: &str) {
    let found = found.expect(rt, "a text");
    assert!(rt; found.as_str() == text);
}

#[test]
fn a_real_file_is_written(rt: HostRuntime) {
    let mut out = RealOut::new(rt, rt.stdout());
    assert!(rt; out.write(b"") == Ok(0));
    outcome_is(&rt, out.aim("."), Err(Failed));
    outcome_is(&rt, out.aim("made"), Ok(()));
    outcome_is(&rt, write_all(&mut out, b"some text"), Ok(()));
    text_is(&rt, fs::read_to_string(&rt, "made"), "some text");
    outcome_is(&rt, out.aim("no/folder"), Err(Failed));
    drop(out);
}

// A reader of one text whose first `interruptions` reads are interrupted.
#[derive(Drop)]
struct Interrupted {
    interruptions: usize,
    text: &'static [u8],
}

impl Read for Interrupted {
    fn read(&mut self, buf: &mut [u8]) -> io::Result<usize> {
        if self.interruptions > 0 {
            self.interruptions -= 1;
            return Err(ErrorKind::Interrupted.into());
        }
        let count = self.text.len().min(buf.len());
        buf[..count].copy_from_slice(&self.text[..count]);
        self.text = &self.text[count..];
        Ok(count)
    }
}

fn gives(rt: &impl Abort, input: &mut Interrupted, bytes: &[u8]) {
    let mut buf = [0; 4];
    let count = read_retrying(input, &mut buf).expect(rt, "a read");
    assert!(rt; &buf[..count] == bytes);
}

#[test]
fn an_interrupted_read_is_not_the_end(rt: HostRuntime) {
    let mut input = Interrupted {
        interruptions: 1,
        text: b"a text",
    };
    gives(&rt, &mut input, b"a te");
    input.interruptions = 1_000;
    gives(&rt, &mut input, b"xt");
    gives(&rt, &mut input, b"");
    input.interruptions = 1_001;
    let stopped = read_retrying(&mut input, &mut [0; 4]);
    assert!(rt; stopped.is_err_and(|error| error.kind() == ErrorKind::Interrupted));
}

fn put_files(files: &mut MemFiles) -> Result<(), AllocError> {
    files.put("a", b"first")?;
    files.put("b", b"")?;
    files.put("a", b"some text")?;
    files.piece(2);
    files.fail_on(1)
}

#[test]
fn files_in_memory_are_read(rt: HostRuntime) -> Result<(), Fail> {
    let mut files = MemFiles::new(rt.alloc());
    put_files(&mut files)?;
    opens(&rt, &mut files, "a", Opened::Failed);
    opens(&rt, &mut files, "c", Opened::Absent);
    opens(&rt, &mut files, "a", Opened::Found);
    holds(&rt, rt.alloc(), &mut files, b"some text");
    opens(&rt, &mut files, "b", Opened::Found);
    reads(&rt, &mut files, Ok(0));
    files.close();
    drop(files);
    Ok(())
}

#[test]
fn a_stream_into_memory_is_written(rt: HostRuntime) -> Result<(), Fail> {
    let mut out = MemOut::new(rt.alloc(), 100)?;
    target_is(&rt, &out, None);
    outcome_is(&rt, out.aim("made"), Ok(()));
    target_is(&rt, &out, Some("made"));
    out.piece(4);
    out.fail_on(4)?;
    outcome_is(&rt, write_all(&mut out, b"some text"), Err(Failed));
    sent_is(&rt, &out, b"some tex");
    drop(out);
    Ok(())
}

#[test]
fn parts_are_sent_through_a_buffer(rt: HostRuntime) -> Result<(), Fail> {
    let mut out = MemOut::new(rt.alloc(), 100)?;
    out.piece(1);
    let parts = [b"some ".as_slice(), b"".as_slice(), b"text".as_slice()];
    assert!(rt; write_parts(&mut out, &parts) == Ok(()));
    sent_is(&rt, &out, b"some text");
    drop(out);
    Ok(())
}

fn put_line(
    whole: &mut Vec<u8>,
    buffer: &mut OutBuffer,
    out: &mut MemOut,
    text: &[u8],
) -> Result<(), AllocError> {
    whole.extend_from_slice(text)?;
    whole.extend_from_slice(b"-")?;
    buffer.put(out, text);
    buffer.put(out, b"-");
    Ok(())
}

// Puts long and short texts into the buffer: all that is sent of them in the end.
fn put_lines(
    alloc: Global,
    buffer: &mut OutBuffer,
    out: &mut MemOut,
) -> Result<Vec<u8>, AllocError> {
    let mut whole = Vec::new(alloc);
    let long = [b'x'; 20_000];
    for count in [1, 8_190, 2, 8_191, 8_192, 20_000, 3, 8_193] {
        put_line(&mut whole, buffer, out, &long[..count])?;
    }
    Ok(whole)
}

#[test]
fn long_texts_are_sent_through_a_buffer(rt: HostRuntime) -> Result<(), Fail> {
    let alloc = rt.alloc();
    let mut out = MemOut::new(alloc, 100_000)?;
    let mut buffer = OutBuffer::new();
    let whole = put_lines(alloc, &mut buffer, &mut out)?;
    flushes(&rt, &mut buffer, &mut out, Ok(()));
    sent_is(&rt, &out, &whole);
    flushes(&rt, &mut buffer, &mut out, Ok(()));
    sent_is(&rt, &out, &whole);
    drop(whole);
    drop(out);
    Ok(())
}

#[test]
fn a_buffer_keeps_that_a_write_failed(rt: HostRuntime) -> Result<(), Fail> {
    let mut out = MemOut::new(rt.alloc(), 100_000)?;
    out.piece(3_000);
    out.fail_on(3)?;
    let mut buffer = OutBuffer::new();
    let long = [b'x'; 8_000];
    buffer.put(&mut out, &long);
    sent_is(&rt, &out, b"");
    buffer.put(&mut out, &long);
    sent_is(&rt, &out, &long[..6_000]);
    buffer.put_parts(&mut out, &[b"more".as_slice(), long.as_slice()]);
    sent_is(&rt, &out, &long[..6_000]);
    flushes(&rt, &mut buffer, &mut out, Err(WriteFault::Sink));
    flushes(&rt, &mut buffer, &mut out, Err(WriteFault::from(Failed)));
    sent_is(&rt, &out, &long[..6_000]);
    drop(out);
    Ok(())
}
