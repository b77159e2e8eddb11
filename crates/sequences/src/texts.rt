//! A text that contracts see as its UTF-8 bytes.

ghost use Rattle.std.specs.Prelude.{◌≡◌, ◌≤◌, [], IfOk, true, length, take, string_bytes};
ghost use Rattle.std.specs.Str.{is_utf8};

use crate::short::Short;
use std::alloc::{AllocError, Global};
use std::marker::Model;
use std::str;

/// A text in UTF-8, which contracts see as the list of its bytes. A text of few bytes takes no
/// memory next to the value.
pub struct Text {
    held: Held,
}

/// Where the bytes lie: in the value, or in memory of their own.
#[derive(Drop)]
pub(crate) enum Held {
    Short(Short),
    Long(Box<String>),
}

impl Model for Text {
    ghost use Rattle.std.specs.Prelude.{List, ℕ};

    ghost Value = { List ℕ };

    ghost use Rattle.sequences.specs.Bytes.{bytes_of};

    ghost view = { λ t. bytes_of t.held };
}

impl Text {
    /// The text without characters, which takes no memory next to the value.
    pub fn empty() -> Text
        ensures { result ≡ [] }
    {
        Text {
            held: Held::Short(Short::empty()),
        }
    }

    /// A text of the characters of `text`. An error comes where memory runs out.
    pub fn of(alloc: Global, text: &str) -> Result<Text, AllocError>
        ensures { IfOk result (λ made. made ≡ text.now) }
    {
        let held = match Short::of(text) {
            Some(short) => Held::Short(short),
            None => {
                let copy = String::from_str(alloc, text)?;
                Held::Long(Box::new(alloc, copy)?)
            }
        };
        Ok(Text { held })
    }

    /// A text of the first bytes, so many, which are UTF-8. An error comes where memory runs out.
    #[inline(always)]
    pub fn front(alloc: Global, bytes: &[u8], count: usize) -> Result<Text, AllocError>
        requires within { count ≤ length bytes.now }
        requires utf8 { is_utf8 (take count bytes.now) ≡ true }
        ensures { IfOk result (λ made. made ≡ take count bytes.now) }
    {
        match Short::front(bytes, count) {
            Some(short) => Ok(Text {
                held: Held::Short(short),
            }),
            None => Text::of(alloc, unsafe { str::from_utf8_unchecked(&bytes[..count]) }),
        }
    }

    /// The characters of `text`: in its memory, or in the value where they are few. An error comes
    /// where memory runs out.
    pub fn from_string(alloc: Global, text: String) -> Result<Text, AllocError>
        ensures { IfOk result (λ made. made ≡ string_bytes text) }
    {
        let held = match Short::of(text.as_str()) {
            Some(short) => Held::Short(short),
            None => Held::Long(Box::new(alloc, text)?),
        };
        Ok(Text { held })
    }

    /// The characters of `text`, in its memory, with `room` for what a text takes beside them.
    pub fn in_room(room: TextRoom, text: String) -> Text
        ensures { result ≡ string_bytes text }
    {
        let TextRoom { mut text_box } = room;
        *text_box = text;
        Text {
            held: Held::Long(text_box),
        }
    }

    /// The characters.
    pub fn as_str(&self) -> &str
        ensures { result.now ≡ self.now }
    {
        match &self.held {
            Held::Short(short) => short.as_str(),
            Held::Long(text) => text.as_str(),
        }
    }

    /// The characters. An error comes where memory runs out.
    pub fn into_string(self, alloc: Global) -> Result<String, AllocError>
        ensures { IfOk result (λ text. string_bytes text ≡ self) }
    {
        let Text { held } = self;
        match held {
            Held::Short(short) => String::from_str(alloc, short.as_str()),
            Held::Long(text) => Ok(Box::into_inner(text)),
        }
    }
}

/// Memory for a text that is made later, where none may be asked for. Contracts see it as the
/// bytes that lie there.
#[derive(Drop)]
pub struct TextRoom {
    text_box: Box<String>,
}

impl Model for TextRoom {
    ghost use Rattle.std.specs.Prelude.{◌≡◌, List, ℕ, [], string_bytes};

    ghost Value = { List ℕ };

    ghost view = { λ room. string_bytes room.text_box.value };

    ghost invariant = { λ room. string_bytes room.text_box.value ≡ [] };
}

impl TextRoom {
    /// Memory for one text, where none lies yet. An error comes where memory runs out.
    pub fn new(alloc: Global) -> Result<TextRoom, AllocError>
        ensures { IfOk result (λ room. room ≡ []) }
    {
        Ok(TextRoom {
            text_box: Box::new(alloc, String::new(alloc))?,
        })
    }
}

// Drops are written out: a derived one is proved anew in each crate that drops such a value.

impl Drop for Text {
    fn drop(self) {
        let Text { held: _ } = self;
    }
}
