//! What a reader of JSON text keeps between two bytes.

use json_value::Json;
use sequences::Text;

/// Why a byte can't be taken.
#[derive(Clone, Copy)]
pub(crate) enum Stop {
    Syntax,
    Utf8,
    Depth,
}

/// What came of a byte.
#[derive(Clone, Copy)]
pub(crate) enum Taken {
    Goes,
    Stops(Stop),
}

/// The digits of an escape so far.
#[derive(Clone, Copy)]
pub(crate) enum Digits {
    Zero,
    One(u8),
    Two(u8, u8),
    Three(u8, u8, u8),
}

/// What came last in a numeral.
#[derive(Clone, Copy)]
pub(crate) enum Place {
    Minus,
    Nought,
    Whole,
    Point,
    Fraction,
    Exponent,
    Sign,
    Power,
}

/// What a string is.
#[derive(Clone, Copy)]
pub(crate) enum Role {
    Name,
    Content,
}

/// The bounds of the next byte of a character, and how many bytes follow after it.
#[derive(Clone, Copy)]
pub(crate) struct Tail {
    pub(crate) least: u8,
    pub(crate) most: u8,
    pub(crate) further: u8,
}

/// Where a string stands.
#[derive(Clone, Copy)]
pub(crate) enum Part {
    Plain,
    Escape,
    Code(Digits),
    High(u16),
    Slash(u16),
    Low(u16, Digits),
    Tail(Tail),
}

/// The words of JSON.
#[derive(Clone, Copy)]
pub(crate) enum Word {
    Null,
    True,
    False,
}

/// What stands at the end of the bytes so far; of a word, how many of its letters were taken.
#[derive(Clone, Copy)]
pub(crate) enum Hand {
    Value,
    FirstItem,
    FirstName,
    NextName,
    Colon,
    Behind,
    Done,
    Word(Word, u8),
    Number(Place),
    Text(Role, Part),
}

/// Whether a list or an object is open.
#[derive(Clone, Copy)]
pub(crate) enum Kind {
    List,
    Map,
}

/// A list or an object that isn't closed yet, with what it holds so far; of an object also the name
/// whose value is to come. Its memory serves the next list or object of its depth.
#[derive(Drop)]
pub(crate) struct Level {
    pub(crate) kind: Kind,
    pub(crate) items: Vec<Json>,
    pub(crate) pairs: Vec<(Text, Json)>,
    pub(crate) name: Text,
}

/// What came of several bytes: all were taken, or one was not, at this index.
#[derive(Clone, Copy)]
pub(crate) enum Ran {
    All,
    Stops(usize, Stop),
}
