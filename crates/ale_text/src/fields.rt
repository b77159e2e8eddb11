//! The fields of a line, and the names of columns among them.

ghost use Rattle.std.specs.Prelude.{◌≡◌, [], get_or, MatchOption};
ghost use Rattle.media_list.specs.Lines.{tab_fields};
ghost use Rattle.ale_text.specs.Lines.{IsColumns, column_of as place_of, field_of};
ghost use Rattle.ale_text.specs.declared.sections.Columns.{Columns as AllColumns};

use crate::sections::Columns;
use crate::spaces::trim_spaces;
use text_lines::{after, before, first_byte, is_text};

/// The field of a line at an index, without the spaces at both ends; empty where the line has no
/// field there.
pub(crate) fn field_at(line: &[u8], index: usize) -> &[u8]
    ensures { result.now ≡ field_of line.now index }
{
    let mut rest = line;
    let mut left = index;
    'fields: while left > 0 {
        match first_byte(rest, b'\t') {
            Some(end) => rest = after(rest, end + 1),
            None => return after(rest, rest.len()),
        }
        left -= 1;
    }
    trim_spaces(first_field(rest))
}

// What stands before the first tab of a line; all of it where it has none.
fn first_field(line: &[u8]) -> &[u8]
    ensures { result.now ≡ get_or (tab_fields line.now) 0 [] }
{
    match first_byte(line, b'\t') {
        Some(end) => before(line, end),
        None => line,
    }
}

// The index of the first column of that name; none where no column has it.
fn column_of(names: &[u8], name: &[u8]) -> Option<usize>
    ensures { result ≡ place_of name.now names.now }
{
    let mut rest = names;
    let mut index = 0usize;
    'names: while let Some(end) = first_byte(rest, b'\t') {
        if is_text(trim_spaces(before(rest, end)), name) {
            return Some(index);
        }
        rest = after(rest, end + 1);
        index += 1;
    }
    if is_text(trim_spaces(rest), name) {
        Some(index)
    } else {
        None
    }
}

/// The columns that are read, by the line of all names; none where a name isn't there.
pub(crate) fn columns_of(names: &[u8]) -> Option<Columns>
    ensures { MatchOption result ((columns : AllColumns) → IsColumns names.now columns → ⊥)
        (IsColumns names.now) }
{
    let tape = column_of(names, b"Tape")?;
    let start = column_of(names, b"Start")?;
    let end = column_of(names, b"End")?;
    Some(Columns { tape, start, end })
}
