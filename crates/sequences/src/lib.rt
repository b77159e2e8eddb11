//! Lists, texts and named values that contracts see as plain data.
//!
//! A [`Sequence`] and a [`Fitted`] are seen as the list of their members, a [`Text`] as its UTF-8
//! bytes, and [`NamedValues`] as the list of its pairs of a name and a value. So a type built of
//! them, also one that contains itself through them, is pure data in a clause, and two equal values
//! are equal there, whatever memory holds them. A [`Sequence`] can grow; a [`Fitted`] takes less
//! memory where there are many short lists.
#![tactic(auto)]

mod fitted;
mod lists;
mod members;
mod merging;
mod rows;
mod short;
mod texts;

pub use fitted::Fitted;
pub use lists::Sequence;
pub use members::NamedValues;
pub use texts::{Text, TextRoom};
