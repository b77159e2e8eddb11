//! The program `otio`: it hands the words of its command line, the files and the streams of the
//! system to `otio_tools::run`, and ends with the status that `run` answers.
#![tactic(auto)]

use dev_io::{RealFiles, RealOut, write_all};
use otio_tools::{Status, run};
use std::fs::{File, OpenOptions};
use std::io::ErrorKind;
use std::mem::forget;
use std::os::fd::AsRawFd;
use std::process::ExitCode;
use std::{env, io};

// A file that is empty, and takes whatever is written.
const NULL_DEVICE: &str = "/dev/null";

fn main(rt: HostRuntime) -> ExitCode {
    let _standard = hold_standard(&rt);
    let mut err = RealOut::new(rt, rt.stderr());
    let words = match words_of(&rt) {
        Ok(words) => words,
        Err(e) if e.kind() == ErrorKind::OutOfMemory => {
            let _ = write_all(&mut err, b"otio: no memory\n");
            return ExitCode::from(Status::Memory.code());
        }
        // A word that isn't UTF-8 makes a faulty command line, as no words do.
        Err(_) => Vec::new(rt.alloc()),
    };
    let mut files = RealFiles::new(rt);
    let mut out = RealOut::new(rt, rt.stdout());
    let mut desk = None;
    let status = run(
        rt.alloc(),
        &words,
        &mut files,
        &mut out,
        &mut err,
        &mut desk,
    );
    // What is on the desk isn't freed: nothing is left to do but to end.
    forget(desk);
    ExitCode::from(status.code())
}

// The null device at each of the descriptors 0 to 2 that is closed. While they are held, no file of
// the run gets one of these, so no message lands in a file. As on a closed descriptor, reading
// fails at 0, which is open for writing alone, and writing at 1 and 2, which are open for reading.
fn hold_standard(rt: &HostRuntime) -> [Option<File>; 3] {
    let input = up_to(0, OpenOptions::new().write(true).open(rt, NULL_DEVICE));
    let output = up_to(2, File::open(rt, NULL_DEVICE));
    let messages = up_to(2, File::open(rt, NULL_DEVICE));
    [input, output, messages]
}

// The file that was opened, where its descriptor is at most so great; any other is closed again.
fn up_to(most: i32, opened: io::Result<File>) -> Option<File> {
    match opened {
        Ok(file) if file.as_raw_fd() <= most => Some(file),
        _ => None,
    }
}

// The words behind the program's name.
fn words_of(rt: &HostRuntime) -> io::Result<Vec<String>> {
    let mut words = Vec::new(rt.alloc());
    for word in env::args(rt)?.skip(1) {
        words.push(word)?;
    }
    Ok(words)
}
