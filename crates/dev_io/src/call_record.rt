// What the calls of a device gave and took. It takes no memory and no time: only proofs read it.
ghost use Rattle.std.specs.Prelude.{◌≡◌, ◌≤◌, ◌++◌, ◌∷◌, [], Some, IfOk, length};
ghost use base.Fml.{ftrue};
ghost use Rattle.dev_io.specs.Handed.{opened_as, read_as};
ghost use Rattle.dev_io.specs.Past.{Past, no_past};
ghost use Rattle.dev_io.specs.PastCodes.{past_code};

use crate::files::{Failed, Opened};
use std::marker::Model;

/// What the calls of a device gave and took so far.
#[derive(Drop)]
pub struct CallRecord {
    pub ghost past: { Past } by { past_code },
}

impl Model for CallRecord {
    ghost also_owns = { λ _. ftrue };
}

/// What one call gave or took.
#[derive(Clone, Copy, Drop)]
pub enum CallEvent<'a> {
    /// The file of that name was found.
    Found(&'a str),
    /// There is no file of that name.
    Missing(&'a str),
    /// Opening the file of that name failed.
    Unopened(&'a str),
    /// A read gave these bytes, none at the end.
    Gave(&'a [u8]),
    /// A read failed.
    Broke,
    /// The stream was directed to the file of that name.
    Aimed(&'a str),
    /// The stream took these bytes.
    Took(&'a [u8]),
}

impl CallRecord {
    ghost use Rattle.dev_io.specs.CallEvents.{past_after};

    /// The record of no calls.
    pub fn new() -> CallRecord
        ensures { result.past ≡ no_past }
    {
        CallRecord {}
    }

    /// The record with one call more.
    pub fn then(&self, _event: &CallEvent<'_>) -> CallRecord
        ensures { result.past ≡ past_after self.now.past _event.now }
    {
        CallRecord {}
    }
}

/// The record after opening the file of that name gave this.
pub fn after_open(done: &CallRecord, name: &str, opened: Opened) -> CallRecord
    ensures { result.past.handed ≡ done.now.past.handed ++ opened_as name.now opened ∷ [] }
{
    match opened {
        Opened::Found => done.then(&CallEvent::Found(name)),
        Opened::Absent => done.then(&CallEvent::Missing(name)),
        Opened::Failed => done.then(&CallEvent::Unopened(name)),
    }
}

/// The record after a read into the front of `buf` gave this.
pub fn after_read(done: &CallRecord, buf: &[u8], read: Result<usize, Failed>) -> CallRecord
    requires { IfOk read (λ n. n ≤ length buf.now) }
    ensures { result.past.handed ≡ done.now.past.handed ++ read_as read buf.now ∷ [] }
{
    match read {
        Ok(count) => done.then(&CallEvent::Gave(&buf[..count])),
        Err(_) => done.then(&CallEvent::Broke),
    }
}

/// The record after the stream was directed to the file of that name.
pub fn after_aim(done: &CallRecord, name: &str) -> CallRecord
    ensures { result.past.taken ≡ record done.now.past.taken { target = Some name.now } }
{
    done.then(&CallEvent::Aimed(name))
}

/// The record after the stream took these bytes.
pub fn after_bytes(done: &CallRecord, bytes: &[u8]) -> CallRecord
    ensures { result.past.taken ≡
        record done.now.past.taken { sent = done.now.past.taken.sent ++ bytes.now } }
{
    done.then(&CallEvent::Took(bytes))
}
