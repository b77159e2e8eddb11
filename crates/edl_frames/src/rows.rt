//! Frames outside the listed media.

ghost use Rattle.std.specs.Prelude.{◌≡◌, ◌+ℤ◌, int_le, int_lt};
ghost use Rattle.edl_frames.specs.Refused as refused;

use media_rows::MediaRow;

// Whether a frame lies before another one.
fn is_before(a: i128, b: i64) -> bool
    ensures { result ≡ int_lt a b }
{
    a < i128::from(b)
}

// Whether a frame lies behind so many frames from one on.
fn is_past(start: i64, count: i64, frame: i128) -> bool
    ensures { result ≡ int_le (start +ℤ count) frame }
{
    i128::from(start) + i128::from(count) <= frame
}

/// Whether the first frame lies before the media of a row, or the last one behind them. Frames are
/// counted at the rate of the media.
pub fn is_row_outside(row: &MediaRow, first: i128, last: i128) -> bool
    ensures { result ≡ refused.is_row_outside first last row.now }
{
    is_before(first, row.start) || is_past(row.start, row.count, last)
}
