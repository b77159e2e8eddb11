// The files that a program reads.
ghost use Rattle.std.specs.Prelude.{◌≡◌, ◌<◌, ◌++◌, ◌∷◌, [], ℕ, List, length};
ghost use Rattle.std.specs.Io.{ReadsAtMost};
ghost use Rattle.std.specs.declared.option.Option.{Option};
ghost use Rattle.dev_io.specs.Known.{KnownFiles};
ghost use Rattle.dev_io.specs.Calls.{Tells, Opens, Reads, Closes};
ghost use Rattle.dev_io.specs.Causes.{HasExactCause, HasOpenCause};
ghost use Rattle.dev_io.specs.Handed.{Handed, opened_as, read_as};

/// A call of a device that failed. Its count of faults rose, or stands at 2^64 - 1.
#[derive(Clone, Copy, Debug, PartialEq, Eq)]
pub struct Failed;

/// What opening a file gave.
#[derive(Clone, Copy, PartialEq, Eq)]
pub enum Opened {
    /// The file is in hand, and all of its bytes are left.
    Found,
    /// There is no file of that name, which is no error. No file is in hand.
    Absent,
    /// The device failed, and its count of faults rose, or stands at 2^64 - 1. No file is in hand.
    Failed,
}

/// Files by name, one of them in hand.
///
/// Its content may be known: what each name holds, which no call changes, the file in hand with
/// what is left of it, and the last call that failed. What each call gave is always known. Its
/// count of faults never falls, and only a call that answers that it failed raises it.
pub trait Files {
    /// Its content, where that is known.
    ghost known: { Self → Option KnownFiles };

    /// How often a call failed.
    ghost faults: { Self → ℕ };

    /// What each call gave so far, in their order.
    ghost handed: { Self → List Handed };

    /// Takes the file of that name in hand, from its first byte on, in place of the one in hand
    /// before. The name `-` is the standard input. After `Absent` and `Failed` no file is in hand,
    /// not even the one before.
    fn open_file(&mut self, name: &str) -> Opened
        ensures told { Tells (Opens name.now result) (known self.old) (known self.new) }
        ensures cause { HasOpenCause (faults self.old) (faults self.new) result }
        ensures handed { handed self.new ≡ handed self.old ++ opened_as name.now result ∷ [] };

    /// Reads the next bytes of the file in hand into the front of `buf`, at least one while any are
    /// left, and says how many; 0 is the end, also where no file is in hand. Where it fails, what
    /// is left is as before.
    fn read(&mut self, buf: &mut [u8]) -> Result<usize, Failed>
        requires { 0 < length buf.old }
        ensures bound { ReadsAtMost result buf.new }
        ensures told { Tells (Reads result buf.new) (known self.old) (known self.new) }
        ensures cause { HasExactCause (faults self.old) (faults self.new) result }
        ensures handed { handed self.new ≡ handed self.old ++ read_as result buf.new ∷ [] };

    /// Puts the file in hand away. It cannot fail.
    fn close(&mut self)
        ensures told { Tells Closes (known self.old) (known self.new) }
        ensures cause { faults self.new ≡ faults self.old }
        ensures handed { handed self.new ≡ handed self.old };
}
