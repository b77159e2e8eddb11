//! The two layouts of a written list.
ghost use Rattle.std.specs.Prelude.{◌≡◌};
ghost use Rattle.edl_list.specs.Layouts.{layout_of, most_events as numbers};

/// How wide the columns of a written list are that differ between its two layouts.
#[derive(Clone, Copy, PartialEq, Eq)]
pub struct Layout {
    /// The digits of the number of an event.
    pub number_width: usize,
    /// The bytes of the column of a reel.
    pub reel_width: usize,
}

impl Layout {
    /// The wide layout, with six digits and 32 bytes, or the narrow one, with three and eight
    /// (CMX 3600).
    pub fn of(wide: bool) -> Layout
        ensures { result ≡ layout_of wide }
    {
        if wide {
            Layout {
                number_width: 6,
                reel_width: 32,
            }
        } else {
            Layout {
                number_width: 3,
                reel_width: 8,
            }
        }
    }
}

/// How many events a list has at most: as many as the layout that it is written in has numbers, 999
/// in the narrow one and 999 999 in the wide one.
pub fn most_events(wide: bool) -> usize
    ensures { result ≡ numbers (layout_of wide) }
{
    if wide { 999_999 } else { 999 }
}
