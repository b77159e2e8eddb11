// Files in memory, whose calls fail where a list says so.
ghost use Rattle.std.specs.Prelude.{◌≡◌, ◌+◌, ◌-◌, ◌^◌, ◌<◌, ◌≤◌, ◌↔◌, ◌∷◌, [], ◌++◌, length, min, max, drop, Contains, IfOk, IfSome, IsErr, OnOk, OnErr, is_err, vec_len, string_bytes};
ghost use Rattle.std.specs.Option.{ForSome};
ghost use Rattle.std.specs.Io.{ReadsAtMost};
ghost use Rattle.dev_io.specs.Calls.{Opens, Reads, Closes, Takes};
ghost use Rattle.dev_io.specs.Causes.{HasExactCause, HasOpenCause};
ghost use Rattle.dev_io.specs.Handed.{opened_as, read_as};

use crate::call_record::{CallRecord, after_open, after_read};
use crate::files::{Failed, Files, Opened};
use crate::schedule::Schedule;
use std::alloc::{AllocError, Global};

#[derive(Drop)]
struct MemFile {
    name: String,
    bytes: Vec<u8>,
}

// The last call that failed, a file by its number.
#[derive(Clone, Copy)]
enum Last {
    Never,
    Open(usize),
    Missing,
    Read(usize, usize),
}

/// Files in memory, of which all is known: their names and bytes, the file in hand, the last call
/// that failed, and what each call gave.
///
/// The calls of `open_file` and `read` are numbered from 1 on, and the number stays at 2^64 - 1
/// once it is there. The calls that `fail_on` listed fail, and no others; each failure raises the
/// count of faults by one. Neither call takes memory.
#[derive(Drop)]
pub struct MemFiles {
    alloc: Global,
    files: Vec<MemFile>,
    hand: Option<(usize, usize)>,
    last: Last,
    schedule: Schedule,
    kept: CallRecord,
    ghost in_hand: { ForSome hand (λ at. at.0 < vec_len files) },
}

impl MemFiles {
    ghost use Rattle.dev_io.specs.MemFiles.{known_of, calls_of, files_timetable};
    ghost use Rattle.dev_io.specs.Calls.{Puts, IsNew};
    ghost use Rattle.dev_io.specs.Timetable.{fresh_timetable};

    /// No files, of which no call fails, none was made, and a read gives as many bytes as there
    /// are.
    pub fn new(alloc: Global) -> MemFiles
        ensures known { IsNew (known_of result) }
        ensures calls { files_timetable result ≡ fresh_timetable }
        ensures handed { calls_of result ≡ [] }
    {
        MemFiles {
            alloc,
            files: Vec::new(alloc),
            hand: None,
            last: Last::Never,
            schedule: Schedule::new(alloc),
            kept: CallRecord::new(),
        }
    }

    /// From here on the name holds these bytes. No file is in hand, and no call has failed last.
    ///
    /// An `Err`, which comes only where memory runs out, leaves all as it was.
    pub fn put(&mut self, name: &str, bytes: &[u8]) -> Result<(), AllocError>
        ensures ok { OnOk result (Puts name.now bytes.now (known_of self.old) (known_of self.new)) }
        ensures err { OnErr result (known_of self.new ≡ known_of self.old) }
        ensures calls { files_timetable self.new ≡ files_timetable self.old }
        ensures handed { calls_of self.new ≡ calls_of self.old }
    {
        let file = MemFile {
            name: String::from_str(self.alloc, name)?,
            bytes: bytes.to_vec(self.alloc)?,
        };
        self.files.insert(0, file)?;
        self.hand = None;
        self.last = Last::Never;
        Ok(())
    }

    /// The call of that number fails, besides those that fail already.
    ///
    /// An `Err`, which comes only where memory runs out, leaves all as it was.
    pub fn fail_on(&mut self, call: u64) -> Result<(), AllocError>
        ensures known { known_of self.new ≡ known_of self.old }
        ensures ok { OnOk result (files_timetable self.new ≡
            record (files_timetable self.old) {
              failing = (files_timetable self.old).failing ++ call ∷ [];
            }) }
        ensures err { OnErr result (files_timetable self.new ≡ files_timetable self.old) }
        ensures handed { calls_of self.new ≡ calls_of self.old }
    {
        self.schedule.fail_on(call)
    }

    /// From here on a read gives at most so many bytes.
    pub fn piece(&mut self, most: usize)
        requires { 0 < most }
        ensures known { known_of self.new ≡ known_of self.old }
        ensures calls { files_timetable self.new ≡
            record (files_timetable self.old) { most = most } }
        ensures handed { calls_of self.new ≡ calls_of self.old }
    {
        self.schedule.piece(most);
    }
}

// The number of the first file of that name.
ghost use Rattle.dev_io.specs.Memory.{index_of as index_in, name_at, bytes_at, opened_last, read_last};

fn index_of(files: &[MemFile], name: &str) -> Option<usize>
    ensures { result ≡ index_in files.now name.now }
{
    files.iter().position(|f| f.name.as_str() == name)
}

// The same, and what is known of it.
#[tactic(auto, using(crate::proofs::FileNumbers::found_is_named))]
fn find(files: &[MemFile], name: &str) -> Option<usize>
    ensures value { result ≡ index_in files.now name.now }
    ensures named { IfSome result (λ i. (i < length files.now) × (name_at files.now i ≡ name.now)) }
{
    index_of(files, name)
}

// The bytes of the file of that number.
fn bytes_of(files: &[MemFile], i: usize) -> &[u8]
    requires { i < length files.now }
    ensures { result.now ≡ bytes_at files.now i }
{
    &files[i].bytes
}

// Copies the next bytes from an offset on into the buffer, at most so many, and says how many.
fn copy_from(bytes: &[u8], offset: usize, most: usize, buf: &mut [u8]) -> usize
    requires most { 0 < most }
    requires room { 0 < length buf.old }
    ensures bound { result ≤ length buf.new }
    ensures within { offset + result < 2 ^ 64 }
    ensures count { result ≡ min (min (length (drop offset bytes.now)) (length buf.old)) most }
    ensures takes { Takes buf.new (drop offset bytes.now)
        (drop (offset + result) bytes.now) result }
{
    if bytes.len() <= offset {
        return 0;
    }
    let left = &bytes[offset..];
    let count = left.len().min(buf.len()).min(most);
    buf[..count].copy_from_slice(&left[..count]);
    count
}

impl MemFiles {
    ghost use Rattle.dev_io.specs.MemFiles.{known_of, calls_of, files_timetable, left_of};
    ghost use Rattle.dev_io.specs.Calls.{ReadsFrom};

    // Reads the next bytes of the file in hand, and none where there is none.
    fn read_hand(&mut self, buf: &mut [u8]) -> usize
        requires { 0 < length buf.old }
        ensures bound { result ≤ length buf.new }
        ensures told { ReadsFrom (known_of self.old).hand result buf.new (known_of self.old)
            (known_of self.new) }
        ensures count { result ≡ min (min (length (left_of (known_of self.old))) (length buf.old))
            (files_timetable self.old).most }
        ensures calls { files_timetable self.new ≡ files_timetable self.old }
        ensures handed { calls_of self.new ≡ calls_of self.old }
    {
        let Some((i, offset)) = self.hand else {
            return 0;
        };
        let count = copy_from(bytes_of(&self.files, i), offset, self.schedule.most(), buf);
        self.hand = Some((i, offset + count));
        count
    }
}

// How opening a file is kept where it fails.
fn last_open(found: Option<usize>) -> Last
    ensures { result ≡ opened_last found }
{
    match found {
        Some(i) => Last::Open(i),
        None => Last::Missing,
    }
}

// How reading the file in hand is kept where it fails.
fn last_read(hand: Option<(usize, usize)>) -> Last
    ensures { result ≡ read_last hand }
{
    match hand {
        Some((i, offset)) => Last::Read(i, offset),
        None => Last::Missing,
    }
}

impl MemFiles {
    ghost use Rattle.dev_io.specs.MemFiles.{known_of, calls_of, files_timetable, left_of};
    ghost use Rattle.dev_io.specs.Timetable.{after_call, is_failed, IsDue};

    // Opens the file of that name, or fails where the call's number is listed.
    fn open_due(&mut self, name: &str) -> Opened
        ensures told { Opens name.now result (known_of self.old) (known_of self.new) }
        ensures cause { HasOpenCause (files_timetable self.old).faults
            (files_timetable self.new).faults result }
        // It fails where its number is listed, and nowhere else.
        ensures due { (result ≡ Opened.Failed) ↔ IsDue (files_timetable self.old) }
        ensures calls { files_timetable self.new ≡
            after_call (is_failed result) (files_timetable self.old) }
        ensures handed { calls_of self.new ≡ calls_of self.old }
    {
        let found = find(&self.files, name);
        self.hand = None;
        if self.schedule.fails() {
            self.last = last_open(found);
            return Opened::Failed;
        }
        match found {
            Some(i) => {
                self.hand = Some((i, 0));
                Opened::Found
            }
            None => Opened::Absent,
        }
    }

    // Reads the next bytes, or fails where the call's number is listed.
    fn read_due(&mut self, buf: &mut [u8]) -> Result<usize, Failed>
        requires { 0 < length buf.old }
        ensures bound { ReadsAtMost result buf.new }
        ensures told { Reads result buf.new (known_of self.old) (known_of self.new) }
        ensures cause { HasExactCause (files_timetable self.old).faults
            (files_timetable self.new).faults result }
        // It fails where its number is listed, and nowhere else.
        ensures due { IsErr result ↔ IsDue (files_timetable self.old) }
        ensures calls { files_timetable self.new ≡
            after_call (is_err result) (files_timetable self.old) }
        // A failed read leaves the buffer as it was.
        ensures unread { OnErr result (buf.new ≡ buf.old) }
        // It gives as many bytes as are left, as the buffer holds and as a read gives at most.
        ensures count { IfOk result (λ n. n ≡
            min (min (length (left_of (known_of self.old))) (length buf.old))
            (files_timetable self.old).most) }
        ensures handed { calls_of self.new ≡ calls_of self.old }
    {
        if self.schedule.fails() {
            self.last = last_read(self.hand);
            return Err(Failed);
        }
        Ok(self.read_hand(buf))
    }
}

impl Files for MemFiles {
    ghost use Rattle.dev_io.specs.MemFiles.{known_of, calls_of, files_timetable, left_of};
    ghost use Rattle.dev_io.specs.Timetable.{after_call, is_failed, IsDue};
    ghost use Rattle.std.specs.Prelude.{Some};

    ghost known = { λ s. Some (known_of s) };

    ghost faults = { λ s. (files_timetable s).faults };

    ghost handed = { λ s. calls_of s };

    fn open_file(&mut self, name: &str) -> Opened
        ensures told { Opens name.now result (known_of self.old) (known_of self.new) }
        ensures cause { HasOpenCause (files_timetable self.old).faults
            (files_timetable self.new).faults result }
        // It fails where its number is listed, and nowhere else.
        ensures due { (result ≡ Opened.Failed) ↔ IsDue (files_timetable self.old) }
        ensures calls { files_timetable self.new ≡
            after_call (is_failed result) (files_timetable self.old) }
        ensures handed { calls_of self.new ≡ calls_of self.old ++ opened_as name.now result ∷ [] }
    {
        let opened = self.open_due(name);
        self.kept = after_open(&self.kept, name, opened);
        opened
    }

    fn read(&mut self, buf: &mut [u8]) -> Result<usize, Failed>
        requires { 0 < length buf.old }
        ensures bound { ReadsAtMost result buf.new }
        ensures told { Reads result buf.new (known_of self.old) (known_of self.new) }
        ensures cause { HasExactCause (files_timetable self.old).faults
            (files_timetable self.new).faults result }
        // It fails where its number is listed, and nowhere else.
        ensures due { IsErr result ↔ IsDue (files_timetable self.old) }
        ensures calls { files_timetable self.new ≡
            after_call (is_err result) (files_timetable self.old) }
        // A failed read leaves the buffer as it was.
        ensures unread { OnErr result (buf.new ≡ buf.old) }
        // It gives as many bytes as are left, as the buffer holds and as a read gives at most.
        ensures count { IfOk result (λ n. n ≡
            min (min (length (left_of (known_of self.old))) (length buf.old))
            (files_timetable self.old).most) }
        ensures handed { calls_of self.new ≡ calls_of self.old ++ read_as result buf.new ∷ [] }
    {
        let read = self.read_due(buf);
        self.kept = after_read(&self.kept, buf, read);
        read
    }

    fn close(&mut self)
        ensures told { Closes (known_of self.old) (known_of self.new) }
        ensures calls { files_timetable self.new ≡ files_timetable self.old }
        ensures handed { calls_of self.new ≡ calls_of self.old }
    {
        self.hand = None;
    }
}
