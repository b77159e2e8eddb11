//! The values of JSON (RFC 8259) as a tree that contracts see as pure data.
//!
//! In a clause a [`Json`] is the value itself, with lists of values, lists of pairs of a name and a
//! value, and texts as lists of their UTF-8 bytes inside it. So two equal values are equal there,
//! whatever memory holds them.
#![tactic(auto)]

mod copies;

pub use copies::{copy_json, copy_members};
use owned::Owned;
use sequences::{Fitted, NamedValues, Text};

/// The members of an array, in order.
pub type JsonList = Fitted<Json>;

/// The members of an object, in order, under distinct names. A name is its characters, with no
/// escape left in it.
pub type Members = NamedValues<Json>;

/// A value of JSON (RFC 8259).
#[derive(Drop)]
pub enum Json {
    /// The word `null`.
    Null,
    /// The word `true` or the word `false`.
    Bool(bool),
    /// A numeral, character for character as it was spelled: `1.50` and `1.5` are two values.
    Num(Text),
    /// A string's characters, in UTF-8: neither quotes nor escapes are left in it.
    Str(Text),
    /// An array.
    List(JsonList),
    /// An object. Two objects that differ in the order of their members are two values.
    Map(Owned<Members>),
}
