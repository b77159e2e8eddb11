//! The lines of a text, the fields of a line, comments, the names of reels, and tests on short
//! texts.
//!
//! A line ends with a line feed, the byte 10, or with a carriage return, the byte 13, and a line
//! feed. One or more blanks, the space 32 or the tab 9, part two fields of a line. No function
//! copies a byte or asks for memory: each gives parts of the slice that it is passed.
#![tactic(auto)]

mod field;
mod line;
mod part;
mod reel;
mod text;
mod trim;

pub use field::split_field;
pub use line::{is_comment, split_line, strip_return};
pub use part::{after, before, first_blank, first_byte, is_blank};
pub use reel::{MOST_REEL_BYTES, are_within, reel_name};
pub use text::{is_text, is_word, strip_back, strip_front};
pub use trim::{trim_blanks, trim_front};
