// A stream into memory, whose calls fail where a list says so.
ghost use Rattle.std.specs.Prelude.{◌≡◌, ◌⊎◌, ◌-◌, ◌<◌, ◌≤◌, ◌↔◌, [], ◌∷◌, ◌++◌, length, min, IfOk, IsErr, OnOk, OnErr, is_err, MatchOption, vec_len, vec_capacity};
ghost use Rattle.std.specs.String.{string_capacity};
ghost use Rattle.std.specs.Io.{WritesAtMost};
ghost use Rattle.dev_io.specs.Calls.{Aims, Sends, IsFresh};
ghost use Rattle.dev_io.specs.Causes.{HasCause};

use crate::files::Failed;
use crate::output::Out;
use crate::schedule::Schedule;
use std::alloc::{AllocError, Global};

/// How many bytes of a name a `MemOut` has room for.
const NAME_ROOM: usize = 4096;

/// A stream into memory of a fixed room, of which it is known where it is aimed and what was sent.
///
/// The calls of `aim` and `write` are numbered from 1 on, and the number stays at 2^64 - 1 once it
/// is there. A call fails, and raises the count of faults by one, where `fail_on` listed its
/// number, where `aim` has a name of more than 4096 bytes, where `write` has a piece that is not
/// empty and no room is left, and nowhere else. Neither call takes memory.
#[derive(Drop)]
pub struct MemOut {
    room: usize,
    sent: Vec<u8>,
    name: String,
    aimed: bool,
    schedule: Schedule,
    ghost fits: { vec_len sent ≤ room },
    ghost has_room: { room ≤ vec_capacity sent },
    ghost has_name_room: { 4096 ≤ string_capacity name },
}

impl MemOut {
    ghost use Rattle.dev_io.specs.MemOut.{out_known, out_timetable, room_of};
    ghost use Rattle.dev_io.specs.Timetable.{fresh_timetable};

    /// A stream to standard output, with nothing sent, room for so many bytes and for a name of
    /// 4096 bytes.
    ///
    /// An `Err` comes only where memory runs out.
    pub fn new(alloc: Global, room: usize) -> Result<MemOut, AllocError>
        ensures known { IfOk result (λ out. out_known out ≡ record { target = None; sent = [] }) }
        ensures room { IfOk result (λ out. room_of out ≡ room) }
        ensures calls { IfOk result (λ out. out_timetable out ≡ fresh_timetable) }
    {
        Ok(MemOut {
            room,
            sent: Vec::with_capacity(alloc, room)?,
            name: String::with_capacity(alloc, NAME_ROOM)?,
            aimed: false,
            schedule: Schedule::new(alloc),
        })
    }

    /// The call of that number fails, besides those that fail already.
    ///
    /// An `Err`, which comes only where memory runs out, leaves all as it was.
    pub fn fail_on(&mut self, call: u64) -> Result<(), AllocError>
        ensures known { out_known self.new ≡ out_known self.old }
        ensures room { room_of self.new ≡ room_of self.old }
        ensures ok { OnOk result (out_timetable self.new ≡
            record (out_timetable self.old) {
              failing = (out_timetable self.old).failing ++ call ∷ [];
            }) }
        ensures err { OnErr result (out_timetable self.new ≡ out_timetable self.old) }
    {
        self.schedule.fail_on(call)
    }

    /// From here on a write takes at most so many bytes.
    pub fn piece(&mut self, most: usize)
        requires { 0 < most }
        ensures known { out_known self.new ≡ out_known self.old }
        ensures room { room_of self.new ≡ room_of self.old }
        ensures calls { out_timetable self.new ≡ record (out_timetable self.old) { most = most } }
    {
        self.schedule.piece(most);
    }

    /// The bytes that were sent so far.
    pub fn sent(&self) -> &[u8]
        ensures { result.now ≡ (out_known self.now).sent }
    {
        &self.sent
    }

    /// The name that it is aimed at: none is standard output.
    pub fn target(&self) -> Option<&str>
        ensures { MatchOption result ((out_known self.now).target ≡ None)
            (λ name. (out_known self.now).target ≡ Some name.now) }
    {
        if self.aimed {
            Some(self.name.as_str())
        } else {
            None
        }
    }
}

impl Out for MemOut {
    ghost use Rattle.dev_io.specs.MemOut.{out_known, out_timetable, room_of, room_left};
    ghost use Rattle.dev_io.specs.Timetable.{after_call, IsDue};
    ghost use Rattle.std.specs.Prelude.{Some};

    ghost known = { λ s. Some (out_known s) };

    ghost faults = { λ s. (out_timetable s).faults };

    fn aim(&mut self, name: &str) -> Result<(), Failed>
        requires { IsFresh (Some (out_known self.old)) }
        ensures told { Aims name.now result (out_known self.old) (out_known self.new) }
        ensures cause { HasCause (out_timetable self.old).faults
            (out_timetable self.new).faults result }
        // It fails where its number is listed or the name is too long, and nowhere else.
        ensures exact { IsErr result ↔ (IsDue (out_timetable self.old) ⊎ (4096 < length name.now)) }
        ensures calls { out_timetable self.new ≡
            after_call (is_err result) (out_timetable self.old) }
        ensures room { room_of self.new ≡ room_of self.old }
    {
        if self.schedule.fails() {
            return Err(Failed);
        }
        if name.len() > NAME_ROOM {
            self.schedule.count_fault();
            return Err(Failed);
        }
        self.name.clear();
        self.name.push_str(name).unwrap();
        self.aimed = true;
        Ok(())
    }

    fn write(&mut self, piece: &[u8]) -> Result<usize, Failed>
        ensures bound { WritesAtMost result piece.now }
        ensures some { IfOk result (λ n. 0 < length piece.now → 0 < n) }
        ensures told { Sends piece.now result (out_known self.old) (out_known self.new) }
        ensures cause { HasCause (out_timetable self.old).faults
            (out_timetable self.new).faults result }
        // It fails where its number is listed or no room is left for a byte, and nowhere else.
        ensures exact { IsErr result ↔
            (IsDue (out_timetable self.old) ⊎ ((room_left self.old ≡ 0) × (0 < length piece.now))) }
        ensures calls { out_timetable self.new ≡
            after_call (is_err result) (out_timetable self.old) }
        ensures room { room_of self.new ≡ room_of self.old }
        // It takes as many bytes as there are, as there is room for and as a write takes at most.
        ensures count { IfOk result (λ n. n ≡
            min (min (length piece.now) (room_left self.old)) (out_timetable self.old).most) }
    {
        let room = self.room - self.sent.len();
        if self.schedule.fails() {
            return Err(Failed);
        }
        if room == 0 && !piece.is_empty() {
            self.schedule.count_fault();
            return Err(Failed);
        }
        let count = piece.len().min(room).min(self.schedule.most());
        self.sent.extend_from_slice(&piece[..count]).unwrap();
        Ok(count)
    }
}
