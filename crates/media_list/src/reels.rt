//! The rows of reels, where there may be no media list.

ghost use Rattle.std.specs.Prelude.{◌≡◌, IfSome};
ghost use Rattle.std.specs.Option.{option_copied};
ghost use Rattle.media_rows.specs.Rows as rows;
ghost use Rattle.media_rows.specs.Rows.{IsRowInRange};

use crate::list::MediaList;
use media_rows::MediaRow;
use sequences::Text;

/// The row of a reel; none where there is no media list, or no row of it has the reel. It takes no
/// memory.
pub fn row_of<'a>(media: Option<&'a MediaList>, reel: &Text) -> Option<&'a MediaRow>
    ensures row { option_copied result ≡ rows.row_of (option_copied media.entry) reel.now }
    ensures range { IfSome result (λ row. IsRowInRange row.now) }
{
    match media {
        Some(list) => list.by_reel(reel),
        None => None,
    }
}
