//! Texts of few bytes, which lie in the value itself.

ghost use Rattle.std.specs.Prelude.{◌≡◌, [], IfSome, true, take};
ghost use Rattle.std.specs.Str.{is_utf8};

use std::marker::Model;
use std::str;

/// How many bytes a short text has at most.
const ROOM: usize = 14;

/// A text of at most 14 bytes in UTF-8, which contracts see as the list of its bytes.
#[derive(Drop)]
pub(crate) struct Short {
    len: u8,
    bytes: [u8; ROOM],
}

impl Model for Short {
    ghost use Rattle.std.specs.Prelude.{◌≡◌, ◌≤◌, List, ℕ, true, take};
    ghost use Rattle.std.specs.Str.{is_utf8};

    ghost Value = { List ℕ };

    ghost view = { λ s. take s.len s.bytes };

    ghost invariant = { λ s. (s.len ≤ 14) × (is_utf8 (take s.len s.bytes) ≡ true) };
}

impl Short {
    /// The text without characters.
    pub(crate) fn empty() -> Short
        ensures { result ≡ [] }
    {
        Short {
            len: 0,
            bytes: [0; ROOM],
        }
    }

    /// A copy of the text, where it is short.
    pub(crate) fn of(text: &str) -> Option<Short>
        ensures { IfSome result (λ made. made ≡ text.now) }
    {
        if text.len() > ROOM {
            return None;
        }
        let mut bytes = [0; ROOM];
        bytes[..text.len()].copy_from_slice(text.as_bytes());
        Some(Short {
            len: text.len() as u8,
            bytes,
        })
    }

    /// A copy of the first bytes, so many, where they and what stands after them fill the room.
    #[inline(always)]
    pub(crate) fn front(bytes: &[u8], count: usize) -> Option<Short>
        requires { is_utf8 (take count bytes.now) ≡ true }
        ensures { IfSome result (λ made. made ≡ take count bytes.now) }
    {
        if count > ROOM || bytes.len() < ROOM {
            return None;
        }
        let mut room = [0; ROOM];
        room.copy_from_slice(&bytes[..ROOM]);
        Some(Short {
            len: count as u8,
            bytes: room,
        })
    }

    /// The characters.
    pub(crate) fn as_str(&self) -> &str
        ensures { result.now ≡ self.now }
    {
        unsafe { str::from_utf8_unchecked(&self.bytes[..usize::from(self.len)]) }
    }
}
