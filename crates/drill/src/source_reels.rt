//! The media list of a drill.

ghost use Rattle.std.specs.Prelude.{◌≡◌, IfOk};
ghost use Rattle.drill.specs.Media.{rows};

use media_list::{MediaFault, MediaList};
use std::alloc::{AllocError, Global};

/// The lines that say the media.
const LINES: &[u8] = b"R0\t24\t0\t100000\tr0.mov\nR1\t24\t0\t100000\tr1.mov\n\
    R2\t24\t0\t100000\tr2.mov\nR3\t24\t0\t100000\tr3.mov";

// Out of memory, which is all that reading the lines fails for.
fn out_of_memory(fault: MediaFault) -> AllocError
    requires { fault ≡ MediaFault.Memory }
{
    drop(fault);
    AllocError
}

/// The media that a drill's clips show: four reels. An error comes where memory runs out.
pub fn media(alloc: Global) -> Result<MediaList, AllocError>
    ensures { IfOk result (λ list. list ≡ rows) }
{
    match MediaList::read(alloc, LINES) {
        Ok(list) => Ok(list),
        Err(fault) => Err(out_of_memory(fault)),
    }
}
