//! Media lists: the sources that a conform knows, by reel and by URL.
//!
//! A media list is a text of lines. An empty line and a line that begins with `#` say nothing. Any
//! other has five fields with one tab between: reel, rate, start, length in frames, and URL.
#![tactic(auto)]

ghost use Rattle.std.specs.Prelude.{◌≡◌, ℕ, List};
ghost use Rattle.media_rows.specs.declared.row.MediaRow.{MediaRow as Row};
ghost use Rattle.media_list.specs.Lists.{IsMediaList, IsFault};
ghost use Rattle.media_list.specs.declared.faults.MediaFault.{MediaFault as Fault};

mod faults;
mod fields;
mod list;
mod reader;
mod reels;
mod rows;
mod table;
mod words;

pub use faults::MediaFault;
pub use list::MediaList;
pub use media_rows::MediaRow;
pub use reader::MediaReader;
pub use reels::row_of;

/// Law: bytes are one media list at most, or have one fault at most, and never both. It does
/// nothing.
pub fn one_outcome()
    ensures list { (bytes : List ℕ) (a b : List Row) →
        IsMediaList bytes a → IsMediaList bytes b → a ≡ b }
    ensures fault { (bytes : List ℕ) (f g : Fault) → IsFault bytes f → IsFault bytes g → f ≡ g }
    ensures either { (bytes : List ℕ) (rows : List Row) (fault : Fault) →
        IsMediaList bytes rows → IsFault bytes fault → ⊥ }
{}
