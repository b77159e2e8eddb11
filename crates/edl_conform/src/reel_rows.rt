//! The media of a list, and the rows of its reels.

ghost use Rattle.std.specs.Prelude.{◌≡◌, IfSome};
ghost use Rattle.std.specs.Option.{option_copied};
ghost use Rattle.media_rows.specs.Rows as rows;
ghost use Rattle.media_rows.specs.Rows.{IsRowInRange};
ghost use Rattle.edl_frames.specs.Refused as refused;

use edl_list::Reel;
use media_list::MediaList;
use media_rows::MediaRow;
use sequences::Text;
use tick_time::Rate;

/// What a list is conformed with: its rate, and its media list, where there is one.
#[derive(Clone, Copy)]
pub(crate) struct ListMedia<'a> {
    pub(crate) rate: Rate,
    pub(crate) rows: Option<&'a MediaList>,
}

/// The row of a reel, where there is a media list that lists it.
pub(crate) fn row_of<'a>(media: Option<&'a MediaList>, reel: &Text) -> Option<&'a MediaRow>
    ensures row { option_copied result ≡ rows.row_of (option_copied media.entry) reel.now }
    ensures range { IfSome result (λ row. IsRowInRange row.now) }
{
    match media {
        Some(list) => list.by_reel(reel),
        None => None,
    }
}

/// The row of a side's reel; black has none.
pub(crate) fn reel_row<'a>(media: Option<&'a MediaList>, reel: &Reel) -> Option<&'a MediaRow>
    ensures row { option_copied result ≡ refused.reel_row (option_copied media.entry) reel.now }
    ensures range { IfSome result (λ row. IsRowInRange row.now) }
{
    match reel {
        Reel::Black => None,
        Reel::Named(name) => row_of(media, name),
    }
}
