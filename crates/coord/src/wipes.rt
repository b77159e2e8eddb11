//! The codes of wipes.

ghost use Rattle.std.specs.Prelude.{◌≡◌, ◌-◌, ◌≤◌};
ghost use Rattle.coord.specs.Images as images;

// Whether a byte is a digit.
fn is_digit(byte: u8) -> bool
    ensures { result ≡ images.is_digit byte }
{
    48 <= byte && byte <= 57
}

// The value of a digit.
fn digit(byte: u8) -> u16
    requires low { 48 ≤ byte }
    requires high { byte ≤ 57 }
    ensures { result ≡ byte - 48 }
{
    u16::from(byte - 48)
}

// The number that three digits spell.
fn three_digits(text: &[u8]) -> Option<u16>
    ensures { result ≡ images.three_digits text.now }
{
    if text.len() != 3 {
        return None;
    }
    let (a, b, c) = (text[0], text[1], text[2]);
    if is_digit(a) && (is_digit(b) && is_digit(c)) {
        Some(100 * digit(a) + (10 * digit(b) + digit(c)))
    } else {
        None
    }
}

/// The code of the wipe (SMPTE 258M) that a transition's type names: three digits behind
/// `SMPTE_Wipe_`. `None` where it names no wipe.
pub fn wipe_code(text: &[u8]) -> Option<u16>
    ensures { result ≡ images.wipe_code text.now }
{
    if text.len() < 11 {
        return None;
    }
    let (head, digits) = text.split_at(11);
    if head == b"SMPTE_Wipe_".as_slice() {
        three_digits(digits)
    } else {
        None
    }
}
