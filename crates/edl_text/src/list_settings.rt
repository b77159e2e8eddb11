// How a list is written, and under which number an event is.
ghost use Rattle.edl_text.specs.Columns.{AreWidths};

use edl_list::Layout;
use tick_time::Rate;

/// The rate and the mode of labels, and the layout of lines.
#[derive(Clone, Copy)]
pub struct Style {
    /// The rate of the list.
    pub rate: Rate,
    /// Whether labels are drop-frame.
    pub drop: bool,
    /// The layout of lines, wide or narrow.
    pub layout: Layout,
    ghost widths: { AreWidths layout },
}

/// The number under which an event is written, and how.
#[derive(Clone, Copy)]
pub struct Numbering {
    /// The number, counted from 1.
    pub number: u32,
    /// How the event is written.
    pub style: Style,
}
