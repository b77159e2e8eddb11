// What stands in the columns of a line.
ghost use Rattle.std.specs.Prelude.{◌≡◌, ◌≤◌, ◌↔◌, IsTrue};
ghost use Rattle.edl_list.specs.Limits.{most_number};
ghost use Rattle.edl_list.specs.Layouts.{FitsReel};
ghost use Rattle.edl_text.specs.Columns.{digits, spaces, column, reel_text, channel_text, channel_width, kind_column as kind_of, duration_column as duration_of, HasSmallNumbers};

use edl_list::{Channel, Cross, Layout, Reel};
use text_lines::before;

/// The spaces of the widest column, that of a reel in the wide layout.
const WIDEST_COLUMN: &[u8; 32] = b"                                ";

/// The column of the type of a cut.
pub const CUT_COLUMN: &[u8; 4] = b"C   ";

/// The column of a duration where there is none.
pub const NO_DURATION: &[u8; 3] = b"   ";

/// A number, at most 999, in three digits.
pub fn three_digits(number: u32) -> [u8; 3]
    requires { number ≤ most_number }
    ensures { result ≡ digits 3 number }
{
    [
        b'0' + (number / 100) as u8,
        b'0' + (number / 10 % 10) as u8,
        b'0' + (number % 10) as u8,
    ]
}

/// The last six digits of a number.
pub fn six_digits(number: u32) -> [u8; 6]
    ensures { result ≡ digits 6 number }
{
    let tens = number / 10;
    let hundreds = tens / 10;
    let thousands = hundreds / 10;
    let ten_thousands = thousands / 10;
    let hundred_thousands = ten_thousands / 10;
    [
        b'0' + (hundred_thousands % 10) as u8,
        b'0' + (ten_thousands % 10) as u8,
        b'0' + (thousands % 10) as u8,
        b'0' + (hundreds % 10) as u8,
        b'0' + (tens % 10) as u8,
        b'0' + (number % 10) as u8,
    ]
}

/// The bytes of a reel as a line has them: its name, and `BL` for black.
pub fn reel_bytes(reel: &Reel) -> &[u8]
    ensures { result.now ≡ reel_text reel.now }
{
    match reel {
        Reel::Black => b"BL",
        Reel::Named(name) => name.as_str().as_bytes(),
    }
}

/// Whether the reel stands in its column.
pub fn fits_reel(reel: &Reel, layout: Layout) -> bool
    ensures { IsTrue result ↔ FitsReel layout reel.now }
{
    match reel {
        Reel::Black => true,
        Reel::Named(name) => name.as_str().len() <= layout.reel_width,
    }
}

/// So many spaces, at most 32.
#[tactic(auto, using(crate::proofs::Widths::widest_front))]
pub fn padding(count: usize) -> &'static [u8]
    requires { count ≤ 32 }
    ensures { result.now ≡ spaces count }
{
    before(WIDEST_COLUMN, count)
}

/// The column of a channel, five wide: `V`, `A` or `A2`, and spaces behind it.
pub fn channel_column(channel: Channel) -> &'static [u8; 5]
    ensures { result.now ≡ column channel_width (channel_text channel) }
{
    match channel {
        Channel::V => b"V    ",
        Channel::A => b"A    ",
        Channel::A2 => b"A2   ",
    }
}

/// The column of the type of an event, four wide: `C`, `D`, or `W` and the three digits of its
/// code.
pub fn kind_column(cross: &Cross) -> [u8; 4]
    requires { HasSmallNumbers cross.now }
    ensures { result ≡ kind_of cross.now }
{
    match cross {
        Cross::Cut => *CUT_COLUMN,
        Cross::Dissolve { .. } => *b"D   ",
        Cross::Wipe { code, .. } => {
            let [first, second, third] = three_digits(u32::from(*code));
            [b'W', first, second, third]
        }
    }
}

/// The column of the duration of an event in frames: three digits, and spaces for a cut.
pub fn duration_column(cross: &Cross) -> [u8; 3]
    requires { HasSmallNumbers cross.now }
    ensures { result ≡ duration_of cross.now }
{
    match cross {
        Cross::Cut => *NO_DURATION,
        Cross::Dissolve { frames, .. } => three_digits(u32::from(*frames)),
        Cross::Wipe { frames, .. } => three_digits(u32::from(*frames)),
    }
}
