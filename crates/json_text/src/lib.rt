//! JSON text (RFC 8259) in UTF-8: read in pieces of any size, and written.
//!
//! [`JsonReader`] takes a text piece by piece and keeps of it only the values that it builds and
//! the token at hand. It reads exactly the texts of the grammar with at most 127 levels and 33 554
//! 432 bytes, gives each one's only value, and names the first byte after which no continuation is
//! such a text.
//!
//! A value is written laid out, with four spaces a level.
#![tactic(auto)]

ghost use Rattle.std.specs.Prelude.{◌≡◌, ℕ, ◌≤◌, List, length};
ghost use Rattle.limits.specs.Limits.{most_bytes};
ghost use Rattle.json_value.specs.declared.Json.{Json};
ghost use Rattle.json_text.specs.Grammar.{text_of};
ghost use Rattle.json_text.specs.Faults.{IsFault};
ghost use Rattle.json_text.specs.declared.faults.JsonFault.{JsonFault};

mod bytes;
mod escapes;
mod faults;
mod level;
mod machine;
mod quote;
mod reader;
mod runs;
mod shallow;
mod state;
mod strings;
mod value;

pub use faults::JsonFault;
pub use level::{Level, inside, put_line, top};
pub use quote::{put_escaped, put_name, put_string};
pub use reader::JsonReader;
pub use value::{put_object, put_value, write_json};

/// Law: bytes are a text of at most one value, or have at most one fault, and never both. It does
/// nothing.
pub fn one_outcome()
    ensures value { (bytes : List ℕ) (v w : Json) → text_of bytes v → text_of bytes w → v ≡ w }
    ensures fault { (bytes : List ℕ) (f g : JsonFault) → IsFault f bytes → IsFault g bytes → f ≡ g }
    ensures either { (bytes : List ℕ) (v : Json) (f : JsonFault) → length bytes ≤ most_bytes →
        text_of bytes v → IsFault f bytes → ⊥ }
{}
