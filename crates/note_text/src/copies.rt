//! Notes in memory of their own.
ghost use Rattle.std.specs.Prelude.{◌≡◌, IfOk};
ghost use Rattle.note_text.specs.Views.{spoken as said_in, triple as triple_in};

use crate::forms::{Spoken, Words};
use crate::notes::{Said, Triple};
use owned::Owned;
use sequences::Text;
use std::alloc::{AllocError, Global};

/// What a line says, in memory of its own. An error comes where memory runs out.
pub fn said_of(alloc: Global, spoken: Spoken<'_>) -> Result<Said, AllocError>
    ensures { IfOk result (λ said. said ≡ said_in spoken.entry) }
{
    match spoken {
        Spoken::Loc { at, color, name } => Ok(Said::Loc {
            at: i64::from(at),
            color: Text::of(alloc, color)?,
            name: Text::of(alloc, name)?,
        }),
        Spoken::Sop {
            slope,
            offset,
            power,
        } => Ok(Said::Sop {
            slope: owned_triple(alloc, slope)?,
            offset: owned_triple(alloc, offset)?,
            power: owned_triple(alloc, power)?,
        }),
        Spoken::Sat(numeral) => Ok(Said::Sat(Text::of(alloc, numeral)?)),
    }
}

fn owned_triple(alloc: Global, words: Words<'_>) -> Result<Owned<Triple>, AllocError>
    ensures { IfOk result (λ made. made ≡ triple_in words.entry) }
{
    let made = Triple {
        r: Text::of(alloc, words.r)?,
        g: Text::of(alloc, words.g)?,
        b: Text::of(alloc, words.b)?,
    };
    Owned::of(alloc, made)
}

/// An equal note, in memory of its own.
pub(crate) fn copy_said(alloc: Global, said: &Said) -> Result<Said, AllocError>
    ensures { IfOk result (λ copy. copy ≡ said.now) }
{
    match said {
        Said::Loc { at, color, name } => Ok(Said::Loc {
            at: *at,
            color: Text::of(alloc, color.as_str())?,
            name: Text::of(alloc, name.as_str())?,
        }),
        Said::Sop {
            slope,
            offset,
            power,
        } => Ok(Said::Sop {
            slope: copy_triple(alloc, slope.get())?,
            offset: copy_triple(alloc, offset.get())?,
            power: copy_triple(alloc, power.get())?,
        }),
        Said::Sat(numeral) => Ok(Said::Sat(Text::of(alloc, numeral.as_str())?)),
    }
}

fn copy_triple(alloc: Global, triple: &Triple) -> Result<Owned<Triple>, AllocError>
    ensures { IfOk result (λ made. made ≡ triple.now) }
{
    let made = Triple {
        r: Text::of(alloc, triple.r.as_str())?,
        g: Text::of(alloc, triple.g.as_str())?,
        b: Text::of(alloc, triple.b.as_str())?,
    };
    Owned::of(alloc, made)
}
