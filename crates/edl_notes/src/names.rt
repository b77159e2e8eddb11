//! Names as lists write them.

ghost use Rattle.std.specs.Prelude.{◌≡◌, IfOk};
ghost use Rattle.edl_text.specs.Columns.{cleaned, is_control as control, written_byte as written};

use edl_text::trim_written;
use sequences::Text;
use std::alloc::{AllocError, Global};

/// A name as a list writes it: each control byte as a space, and none at the ends.
pub(crate) fn cleaned_text(alloc: Global, name: &Text) -> Result<Text, AllocError>
    ensures { IfOk result (λ text. text ≡ cleaned name.now) }
{
    let trimmed = trim_written(name.as_str().as_bytes());
    let mut bytes = Vec::with_capacity(alloc, trimmed.len())?;
    'bytes: for byte in trimmed {
        bytes.push(written_byte(*byte))?;
    }
    match std::str::from_utf8(bytes.as_slice()) {
        Ok(text) => Text::of(alloc, text),
        Err(_) => unreachable!(),
    }
}

// A byte as it is written: a control byte as a space.
fn written_byte(byte: u8) -> u8
    ensures { result ≡ written byte }
{
    if is_control(byte) { b' ' } else { byte }
}

// Whether a byte is a control byte.
fn is_control(byte: u8) -> bool
    ensures { result ≡ control byte }
{
    byte < b' ' || byte == 0x7f
}
