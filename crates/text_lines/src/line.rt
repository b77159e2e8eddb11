// The lines of a text.
ghost use Rattle.std.specs.Prelude.{◌≡◌, ◌<◌, ◌∷◌, [], length, MatchOption, IfSome};
ghost use Rattle.text_lines.specs.Lines.{lines_of, without_return, is_comment as is_comment_line};

use crate::part::{after, before, first_byte};
use crate::text::strip_back;

/// The first line of a text, and the text behind its end; none where it has no end, so that it is
/// the last.
///
/// A line ends with a line feed, or with a carriage return and a line feed, and neither part has
/// that end. The last line has no end: a carriage return there stays in it. A text that ends with a
/// line feed has an empty last line, and an empty text one empty line.
#[inline]
#[tactic(auto, using(crate::proofs::Splitting::lines_first, crate::proofs::Splitting::lines_last, crate::proofs::Splitting::shorter_behind))]
pub fn split_line(bytes: &[u8]) -> (&[u8], Option<&[u8]>)
    ensures lines { MatchOption result.1 (lines_of bytes.now ≡ result.0.now ∷ [])
        (λ rest. lines_of bytes.now ≡ result.0.now ∷ lines_of rest.now) }
    ensures shorter { IfSome result.1 (λ rest. length rest.now < length bytes.now) }
{
    match first_byte(bytes, b'\n') {
        Some(end) => (
            strip_return(before(bytes, end)),
            Some(after(bytes, end + 1)),
        ),
        None => (bytes, None),
    }
}

/// What stands before a line feed without the carriage return at its end, which belongs to the end
/// of the line; all of it where none stands there.
#[tactic(auto, using(crate::proofs::Returns::return_off, crate::proofs::Returns::return_none))]
pub fn strip_return(line: &[u8]) -> &[u8]
    ensures { result.now ≡ without_return line.now }
{
    match strip_back(line, b"\r") {
        Some(front) => front,
        None => line,
    }
}

/// Whether a line is a comment, empty or one that begins with `#`.
pub fn is_comment(line: &[u8]) -> bool
    ensures { result ≡ is_comment_line line.now }
{
    match line {
        [] => true,
        [first, ..] => *first == b'#',
    }
}
