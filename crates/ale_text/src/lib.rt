//! Logs in the tab-separated form of Avid Log Exchange (ALE) as media lists: a row for each tape
//! that a log names.
//!
//! A log is a text of lines. After the line `Heading` come lines of a name, a tab and a value, of
//! which `FPS` gives the rate. After the line `Column` come the names of the columns, with tabs
//! between, and after the line `Data` the rows.
#![tactic(auto)]

ghost use Rattle.std.specs.Prelude.{◌≡◌, ℕ, List, All};
ghost use Rattle.media_rows.specs.Rows.{AreRows};
ghost use Rattle.media_list.specs.Plain.{IsPlainRow};
ghost use Rattle.media_rows.specs.declared.row.MediaRow.{MediaRow as Row};
ghost use Rattle.ale_text.specs.Logs.{IsLog, IsFault};
ghost use Rattle.ale_text.specs.declared.faults.AleFault.{AleFault as Fault};

mod faults;
mod fields;
mod heading;
mod logs;
mod rows;
mod sections;
mod spaces;
mod tapes;

pub use faults::AleFault;
pub use logs::read_ale;
pub use sections::{Columns, Due};

/// Law: bytes are one log at most, or have one fault at most, and never both. It does nothing.
pub fn one_outcome()
    ensures log { (bytes : List ℕ) (a b : List Row) → IsLog bytes a → IsLog bytes b → a ≡ b }
    ensures fault { (bytes : List ℕ) (f g : Fault) → IsFault bytes f → IsFault bytes g → f ≡ g }
    ensures either { (bytes : List ℕ) (rows : List Row) (fault : Fault) → IsLog bytes rows →
        IsFault bytes fault → ⊥ }
{}

/// Law: no two rows of the media list of a log have one reel or one URL, and a line of a media list
/// can say each of them. It does nothing.
pub fn rows_are_plain()
    ensures { (bytes : List ℕ) (rows : List Row) → IsLog bytes rows
        → AreRows rows × All IsPlainRow rows }
{}
