// Numbers in decimal digits.
ghost use Rattle.std.specs.Prelude.{decimal};
ghost use Rattle.std.specs.Fmt.{signed_decimal};
ghost use Rattle.dev_io.specs.Buffer.{HandsOver};

use crate::buffer::OutBuffer;
use crate::output::Out;
use itoa::Buffer;

/// Hands over a count or an index in decimal digits. It takes no memory.
pub fn put_number<W: Out>(buffer: &mut OutBuffer, out: &mut W, number: u64)
    ensures { HandsOver W.known W.faults out.old out.new buffer.old buffer.new (decimal number) }
{
    let mut digits = Buffer::new();
    buffer.put(out, digits.format(number).as_bytes());
}

/// Hands over a large count in decimal digits. It takes no memory.
pub fn put_large<W: Out>(buffer: &mut OutBuffer, out: &mut W, number: u128)
    ensures { HandsOver W.known W.faults out.old out.new buffer.old buffer.new (decimal number) }
{
    let mut digits = Buffer::new();
    buffer.put(out, digits.format(number).as_bytes());
}

/// Hands over a number in decimal digits, with `-` where it is negative. It takes no memory.
pub fn put_signed<W: Out>(buffer: &mut OutBuffer, out: &mut W, number: i128)
    ensures { HandsOver W.known W.faults out.old out.new buffer.old buffer.new
        (signed_decimal number) }
{
    let mut digits = Buffer::new();
    buffer.put(out, digits.format(number).as_bytes());
}
