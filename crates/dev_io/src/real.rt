// The files and the standard streams of the system.
ghost use Rattle.std.specs.Prelude.{◌≡◌, ◌<◌, ◌≤◌, ◌++◌, ◌∷◌, [], length, None, IfOk, is_err};
ghost use Rattle.std.specs.Io.{ReadsAtMost, WritesAtMost};
ghost use Rattle.dev_io.specs.Causes.{HasCause, HasExactCause, HasOpenCause};
ghost use Rattle.dev_io.specs.Handed.{opened_as, read_as};
ghost use Rattle.dev_io.specs.Timetable.{raised, raised_if, is_failed};

use crate::call_record::{CallRecord, after_aim, after_bytes, after_open, after_read};
use crate::files::{Failed, Files, Opened};
use crate::output::Out;
use crate::retries::{RETRIES, read_retrying};
use std::fs::File;
use std::io;
use std::io::{ErrorKind, Read, Write};
use std::rt::Files as System;

// The file in hand.
#[derive(Drop)]
enum Hand<F, I> {
    Nothing,
    File(F),
    Input(I),
}

/// The files of the system, and its standard input under the name `-`. What they hold isn't known;
/// what each call gave is kept for proofs.
///
/// The count of faults rises by one at each error, until it stands at 2^64 - 1. A file that is not
/// there is no error, and a read that a signal interrupts is one only after a thousand further
/// tries.
#[derive(Drop)]
pub struct RealFiles<R: System + Input> {
    rt: R,
    hand: Hand<R::File, R::Reader>,
    faults: u64,
    kept: CallRecord,
}

impl<R: System + Input> RealFiles<R> {
    ghost use Rattle.dev_io.specs.Counted.{file_calls, file_faults};

    /// The files of the system, none of them in hand.
    pub fn new(rt: R) -> Self
        ensures faults { file_faults result ≡ 0 }
        ensures handed { file_calls result ≡ [] }
    {
        RealFiles {
            rt,
            hand: Hand::Nothing,
            faults: 0,
            kept: CallRecord::new(),
        }
    }
}

impl<R: System + Input> RealFiles<R> {
    ghost use Rattle.dev_io.specs.Counted.{file_calls, file_faults};

    // Counts an error.
    fn count_fault(&mut self)
        ensures counted { file_faults self.new ≡ raised (file_faults self.old) }
        ensures later { file_faults self.old ≤ file_faults self.new }
        ensures handed { file_calls self.new ≡ file_calls self.old }
    {
        self.faults = self.faults.saturating_add(1);
    }

    // Reads the next bytes of the file in hand, and none where there is none.
    fn read_some(&mut self, buf: &mut [u8]) -> io::Result<usize>
        ensures bound { ReadsAtMost result buf.new }
        ensures faults { file_faults self.new ≡ file_faults self.old }
        ensures handed { file_calls self.new ≡ file_calls self.old }
    {
        match &mut self.hand {
            Hand::Nothing => Ok(0),
            Hand::File(file) => read_retrying(file, buf),
            Hand::Input(input) => read_retrying(input, buf),
        }
    }

    // Opens the file of that name, and counts an error.
    fn open_counted(&mut self, name: &str) -> Opened
        ensures cause { HasOpenCause (file_faults self.old) (file_faults self.new) result }
        ensures count { file_faults self.new ≡ raised_if (is_failed result) (file_faults self.old) }
        ensures handed { file_calls self.new ≡ file_calls self.old }
    {
        self.hand = Hand::Nothing;
        if name == "-" {
            self.hand = Hand::Input(self.rt.reader());
            return Opened::Found;
        }
        match File::open(&self.rt, name) {
            Ok(file) => {
                self.hand = Hand::File(file);
                Opened::Found
            }
            Err(e) if e.kind() == ErrorKind::NotFound => Opened::Absent,
            Err(_) => {
                self.count_fault();
                Opened::Failed
            }
        }
    }

    // Reads, and counts an error.
    fn read_counted(&mut self, buf: &mut [u8]) -> Result<usize, Failed>
        ensures bound { ReadsAtMost result buf.new }
        ensures cause { HasExactCause (file_faults self.old) (file_faults self.new) result }
        ensures count { file_faults self.new ≡ raised_if (is_err result) (file_faults self.old) }
        ensures handed { file_calls self.new ≡ file_calls self.old }
    {
        match self.read_some(buf) {
            Ok(count) => Ok(count),
            Err(_) => {
                self.count_fault();
                Err(Failed)
            }
        }
    }
}

impl<R: System + Input> Files for RealFiles<R> {
    ghost use Rattle.dev_io.specs.Counted.{file_calls, file_faults};

    ghost known = { λ _. None };

    ghost faults = { λ s. s.faults };

    ghost handed = { λ s. file_calls s };

    fn open_file(&mut self, name: &str) -> Opened
        ensures cause { HasOpenCause (file_faults self.old) (file_faults self.new) result }
        ensures count { file_faults self.new ≡ raised_if (is_failed result) (file_faults self.old) }
        ensures handed { file_calls self.new ≡
            file_calls self.old ++ opened_as name.now result ∷ [] }
    {
        let opened = self.open_counted(name);
        self.kept = after_open(&self.kept, name, opened);
        opened
    }

    fn read(&mut self, buf: &mut [u8]) -> Result<usize, Failed>
        ensures bound { ReadsAtMost result buf.new }
        ensures cause { HasExactCause (file_faults self.old) (file_faults self.new) result }
        ensures count { file_faults self.new ≡ raised_if (is_err result) (file_faults self.old) }
        ensures handed { file_calls self.new ≡
            file_calls self.old ++ read_as result buf.new ∷ [] }
    {
        let read = self.read_counted(buf);
        self.kept = after_read(&self.kept, buf, read);
        read
    }

    fn close(&mut self) {
        self.hand = Hand::Nothing;
    }
}

/// A stream of the system, as its standard output, and after `aim` a file. Its target and the bytes
/// that it took are known: these are the bytes that the system's calls accepted.
///
/// `aim` makes the file, or empties one that is there. The count of faults rises by one at each
/// error, until it stands at 2^64 - 1. Taking no byte of a piece that is not empty is an error, and
/// a write that a signal interrupts is one only after a thousand further tries.
#[derive(Drop)]
pub struct RealOut<R: System, P: Print + Drop> {
    rt: R,
    stream: P,
    file: Option<R::File>,
    faults: u64,
    kept: CallRecord,
}

impl<R: System, P: Print + Drop> RealOut<R, P> {
    ghost use Rattle.dev_io.specs.Counted.{out_faults, out_taken};

    /// That stream, until it is aimed at a file.
    pub fn new(rt: R, stream: P) -> Self
        ensures faults { out_faults result ≡ 0 }
        ensures known { out_taken result ≡ record { target = None; sent = [] } }
    {
        RealOut {
            rt,
            stream,
            file: None,
            faults: 0,
            kept: CallRecord::new(),
        }
    }

    // Writes some bytes from the front of the piece to the file, or to the stream where there is
    // none.
    fn write_once(&mut self, piece: &[u8]) -> io::Result<usize>
        ensures bound { WritesAtMost result piece.now }
        ensures faults { out_faults self.new ≡ out_faults self.old }
        ensures known { out_taken self.new ≡ out_taken self.old }
    {
        match &mut self.file {
            Some(file) => file.write(piece),
            None => self.stream.write_some(piece),
        }
    }

    // Writes some bytes, and again where that was interrupted.
    fn write_some(&mut self, piece: &[u8]) -> io::Result<usize>
        ensures bound { WritesAtMost result piece.now }
        ensures faults { out_faults self.new ≡ out_faults self.old }
        ensures known { out_taken self.new ≡ out_taken self.old }
    {
        'tries: for _ in 0..RETRIES {
            match self.write_once(piece) {
                Err(error) if error.kind() == ErrorKind::Interrupted => {}
                result => return result,
            }
        }
        self.write_once(piece)
    }

    // Counts an error.
    fn count_fault(&mut self)
        ensures counted { out_faults self.new ≡ raised (out_faults self.old) }
        ensures later { out_faults self.old ≤ out_faults self.new }
        ensures known { out_taken self.new ≡ out_taken self.old }
    {
        self.faults = self.faults.saturating_add(1);
    }
}

impl<R: System, P: Print + Drop> Out for RealOut<R, P> {
    ghost use Rattle.dev_io.specs.Counted.{out_faults, out_taken};
    ghost use Rattle.dev_io.specs.Calls.{Aims, Sends};
    ghost use Rattle.std.specs.Prelude.{Some};

    ghost known = { λ s. Some (out_taken s) };

    ghost faults = { λ s. s.faults };

    fn aim(&mut self, name: &str) -> Result<(), Failed>
        ensures told { Aims name.now result (out_taken self.old) (out_taken self.new) }
        ensures cause { HasCause (out_faults self.old) (out_faults self.new) result }
        ensures count { out_faults self.new ≡ raised_if (is_err result) (out_faults self.old) }
    {
        match File::create(&self.rt, name) {
            Ok(file) => {
                self.file = Some(file);
                self.kept = after_aim(&self.kept, name);
                Ok(())
            }
            Err(_) => {
                self.count_fault();
                Err(Failed)
            }
        }
    }

    fn write(&mut self, piece: &[u8]) -> Result<usize, Failed>
        ensures bound { WritesAtMost result piece.now }
        ensures some { IfOk result (λ n. 0 < length piece.now → 0 < n) }
        ensures told { Sends piece.now result (out_taken self.old) (out_taken self.new) }
        ensures cause { HasCause (out_faults self.old) (out_faults self.new) result }
        ensures count { out_faults self.new ≡ raised_if (is_err result) (out_faults self.old) }
    {
        match self.write_some(piece) {
            Ok(count) if count > 0 || piece.is_empty() => {
                self.kept = after_bytes(&self.kept, &piece[..count]);
                Ok(count)
            }
            _ => {
                self.count_fault();
                Err(Failed)
            }
        }
    }
}
