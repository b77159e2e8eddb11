//! Edit scripts: the commands that a text says, one on a line, their words, numbers and places; and
//! the edits that they ask for, made on a timeline one after another and kept in a log, so that
//! commands can also undo and redo them.
//!
//! A text is UTF-8, and its lines end by LF or CRLF. An empty line and a line that begins with `#`
//! say nothing. Words are parted by spaces and tabs, and a word that begins with `"` goes to the
//! next `"`.
#![tactic(auto)]

mod acts;
mod commands;
mod faults;
mod items;
mod numbers;
mod run_acts;
mod running;
mod script;
mod steps;
mod verbs;
mod words;

pub use commands::{Act, MOST_COMMANDS, Put, ScriptCommand, ScriptFault};
pub use faults::CommandFault;
pub use items::item_of;
pub use numbers::{count, natural, place_of, whole};
pub use running::{apply_script, one_run};
pub use script::{one_outcome, read_script};
pub use words::{has_ended, next_word, words_by_grammar};
