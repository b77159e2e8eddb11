//! What a list is written for.

ghost use Rattle.std.specs.Prelude.{◌≡◌, ◌≤◌, ◌≤ℤ◌, ◌-ℤ◌, pos, false};
ghost use Rattle.tick_time.specs.Rates.{frame};
ghost use Rattle.coord.specs.Keys.{frame_rate};
ghost use Rattle.edl_frames.specs.Jobs.{mode_in, day_in, count_in};

use edl_list::Layout;
use media_list::MediaList;
use tick_time::Rate;

/// What a timeline is written for as a list, at a record rate that has timecode in the mode that is
/// asked for (SMPTE ST 12-1), with what is reckoned once a run.
#[derive(Clone, Copy)]
pub struct Job<'a> {
    /// The record rate.
    pub rate: Rate,
    /// The number of the first record frame.
    pub first: i128,
    /// The media list, where there is one.
    pub media: Option<&'a MediaList>,
    /// Whether labels are drop-frame.
    pub drop: bool,
    /// The layout of the list.
    pub layout: Layout,
    /// The ticks of a record frame.
    pub ticks: i128,
    /// The frame numbers that timecode gives a second at the record rate.
    pub count: u64,
    /// The frame numbers of a day in the mode.
    pub day: i128,
    pub ghost ticks_are: { ticks ≡ pos (frame rate.num rate.den) },
    pub ghost long: { pos 11760000000000000 ≤ℤ ticks },
    pub ghost short: { ticks ≤ℤ pos 705600000000000000 },
    pub ghost count_is: { count ≡ count_in (mode_in (frame_rate rate) false) },
    pub ghost counted: { 1 ≤ count },
    pub ghost few: { count ≤ 60 },
    pub ghost day_is: { day ≡ pos (day_in (mode_in (frame_rate rate) drop)) },
    pub ghost low: { (pos 0 -ℤ pos 1000000000000000000) ≤ℤ first },
    pub ghost high: { first ≤ℤ pos 1000000000000000000 },
}
