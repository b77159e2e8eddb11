//! The text of a media list, a line for each row, and the law that it reads back as those rows.
#![tactic(auto)]

ghost use Rattle.std.specs.Prelude.{◌≤◌, List, All, length};
ghost use Rattle.limits.specs.Limits.{most_bytes};
ghost use Rattle.media_rows.specs.Rows.{AreRows};
ghost use Rattle.media_rows.specs.declared.row.MediaRow.{MediaRow as Row};
ghost use Rattle.media_list.specs.Lists.{IsMediaList};
ghost use Rattle.media_list.specs.Plain.{IsPlainRow};
ghost use Rattle.media_text.specs.Texts.{media_text};

mod writing;

pub use writing::write_media;

/// Law: the text of rows of which no two have one reel or one URL, and each of which a line can
/// say, is the media list of these rows, where it has at most 33 554 432 bytes. It does nothing.
pub fn text_reads_again()
    ensures { (rows : List Row) → AreRows rows → All IsPlainRow rows
        → length (media_text rows) ≤ most_bytes → IsMediaList (media_text rows) rows }
{}
