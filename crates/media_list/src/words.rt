//! Numbers, reels and starts, each of one field.

ghost use Rattle.std.specs.Prelude.{◌≡◌, ◌<◌, ◌↔◌, ◌^◌, pos, IsTrue, IfSome};
ghost use Rattle.std.specs.Str.Parse.{digits_value};
ghost use Rattle.smpte_tc.specs.PointFrames.{IsFrame};
ghost use Rattle.text_lines.specs.ReelNames.{IsReelName};
ghost use Rattle.media_list.specs.Words.{IsNumber, IsStartForm, start_frame};

use smpte_tc::{frame_of_label, is_label_form};
use text_lines::reel_name;
use tick_time::{Rate, are_digits, number_of as value_of};

/// How many digits a number has at most.
const MOST_DIGITS: usize = 18;

/// Whether a field is the name of a reel.
pub(crate) fn is_reel(field: &[u8]) -> bool
    ensures { IsTrue result ↔ IsReelName field.now }
{
    match reel_name(field) {
        Some(_) => true,
        None => false,
    }
}

/// Whether a field is a number.
pub(crate) fn is_number(field: &[u8]) -> bool
    ensures { IsTrue result ↔ IsNumber field.now }
{
    let is_short = !field.is_empty() && field.len() <= MOST_DIGITS;
    is_short && are_digits(field)
}

/// The number that a field is.
pub(crate) fn number_of(field: &[u8]) -> i64
    requires { IsNumber field.now }
    ensures value { result ≡ pos (digits_value 10 field.now) }
    ensures bound { IsFrame result }
{
    signed(value_of(field))
}

// A number of at most eighteen digits, as a signed one.
fn signed(number: u64) -> i64
    requires { number < 10 ^ 18 }
    ensures value { result ≡ pos number }
    ensures bound { IsFrame result }
{
    number as i64
}

/// Whether a field has the form of a start.
pub(crate) fn is_start_form(field: &[u8]) -> bool
    ensures { IsTrue result ↔ IsStartForm field.now }
{
    is_label_form(field) || is_number(field)
}

/// The frame number that a start says at a rate; none where it has the form of a label and names no
/// frame of the day.
pub(crate) fn start_of(field: &[u8], rate: Rate) -> Option<i64>
    requires { IsStartForm field.now }
    ensures start { result ≡ start_frame rate field.now }
    ensures bound { IfSome result IsFrame }
{
    if is_label_form(field) {
        return frame_of_label(field, rate);
    }
    Some(number_of(field))
}
