//! Types of wipes.

ghost use Rattle.std.specs.Prelude.{◌≡◌, ◌≤◌, ◌+◌, IfOk};
ghost use Rattle.edl_frames.specs.Conformed as conformed;

use sequences::Text;
use std::alloc::{AllocError, Global};

// The digit of a number below ten.
fn digit(n: u16) -> char
    requires { n ≤ 9 }
    ensures { result ≡ n + 48 }
{
    (b'0' + n as u8) as char
}

/// The type of a wipe of a code.
pub(crate) fn wipe_type(alloc: Global, code: u16) -> Result<Text, AllocError>
    requires { code ≤ 999 }
    ensures { IfOk result (λ kind. kind ≡ conformed.wipe_type code) }
{
    let mut text = String::new(alloc);
    text.push_str("SMPTE_Wipe_")?;
    text.push(digit(code / 100 % 10))?;
    text.push(digit(code / 10 % 10))?;
    text.push(digit(code % 10))?;
    Text::from_string(alloc, text)
}
