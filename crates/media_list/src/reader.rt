//! A media list that comes in pieces.

ghost use Rattle.std.specs.Prelude.{◌≡◌, ◌⊎◌, ◌++◌, ◌<◌, ◌≤◌, [], length, IfOk, IfErr, OnOk, OnErr};
ghost use Rattle.limits.specs.Limits.{most_bytes};
ghost use Rattle.media_list.specs.Lists.{IsMediaList, IsFault};

use crate::faults::MediaFault;
use crate::list::{LIMIT, MediaList};
use std::alloc::Global;
use std::marker::Model;

/// A reader of a media list that takes it in pieces of any size, which contracts see as the bytes
/// of all pieces.
///
/// The fault of a line is told at the end: that there are too many bytes comes before it.
pub struct MediaReader {
    alloc: Global,
    bytes: Vec<u8>,
}

impl Model for MediaReader {
    ghost use Rattle.std.specs.Prelude.{ℕ, List, ◌≤◌, length};
    ghost use Rattle.limits.specs.Limits.{most_bytes};

    ghost Value = { List ℕ };

    ghost view = { λ reader. reader.bytes.items };

    ghost invariant = { λ reader. length reader.bytes.items ≤ most_bytes };
}

impl MediaReader {
    /// A reader that was fed nothing. It takes no memory.
    pub fn new(alloc: Global) -> MediaReader
        ensures { result ≡ [] }
    {
        MediaReader {
            alloc,
            bytes: Vec::new(alloc),
        }
    }

    /// Takes the next bytes.
    ///
    /// # Errors
    /// [`MediaFault::Large`] where there are more bytes than a media list may have, and
    /// [`MediaFault::Memory`] where memory runs out. The reader is then as it was.
    pub fn feed(&mut self, piece: &[u8]) -> Result<(), MediaFault>
        ensures read { OnOk result (self.new ≡ self.old ++ piece.now) }
        ensures few { length self.new ≤ most_bytes }
        ensures fault { IfErr result (λ fault. (fault ≡ MediaFault.Memory)
            ⊎ ((fault ≡ MediaFault.Large) × (most_bytes < length (self.old ++ piece.now)))) }
        ensures kept { OnErr result (self.new ≡ self.old) }
    {
        if piece.len() > LIMIT - self.bytes.len() {
            return Err(MediaFault::Large);
        }
        self.bytes.extend_from_slice(piece)?;
        Ok(())
    }

    /// The media list that all bytes are.
    ///
    /// # Errors
    /// That of the first line that has one, as [`MediaList::read`] answers it, and
    /// [`MediaFault::Memory`] where memory runs out.
    pub fn finish(self) -> Result<MediaList, MediaFault>
        ensures list { IfOk result (λ list. IsMediaList self list) }
        ensures fault { IfErr result (λ fault. (fault ≡ MediaFault.Memory)
            ⊎ IsFault self fault) }
    {
        MediaList::read(self.alloc, self.bytes.as_slice())
    }
}

// Drops are written out: a derived one is proved anew in each crate that drops such a value.

impl Drop for MediaReader {
    fn drop(self) {
        let MediaReader { alloc: _, bytes: _ } = self;
    }
}
