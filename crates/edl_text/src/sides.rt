//! Sides and their copies.

ghost use Rattle.std.specs.Prelude.{◌≡◌, IfOk};
ghost use Rattle.edl_text.specs.Views.{reel_said};
ghost use Rattle.edl_text.specs.Sides.{reel_of as reel_named, is_one_reel as one_reel};

use crate::statement_types::ReelName;
use edl_list::{Reel, Side};
use sequences::Text;
use std::alloc::{AllocError, Global};

/// The reel that a line names.
pub(crate) fn reel_of(alloc: Global, name: ReelName<'_>) -> Result<Reel, AllocError>
    ensures { IfOk result (λ reel. reel ≡ reel_named (reel_said name.entry)) }
{
    match name {
        ReelName::Black => Ok(Reel::Black),
        ReelName::Named(name) => Ok(Reel::Named(Text::of(alloc, name)?)),
    }
}

/// Whether a line names this reel.
pub(crate) fn is_reel(name: ReelName<'_>, reel: &Reel) -> bool
    ensures { result ≡ one_reel (reel_named (reel_said name.entry)) reel.now }
{
    match (name, reel) {
        (ReelName::Black, Reel::Black) => true,
        (ReelName::Named(name), Reel::Named(text)) => name == text.as_str(),
        _ => false,
    }
}

// A copy of a reel.
fn copy_reel(alloc: Global, reel: &Reel) -> Result<Reel, AllocError>
    ensures { IfOk result (λ copy. copy ≡ reel.now) }
{
    match reel {
        Reel::Black => Ok(Reel::Black),
        Reel::Named(name) => Ok(Reel::Named(Text::of(alloc, name.as_str())?)),
    }
}

// A copy of a name.
fn copy_name(alloc: Global, name: &Option<Text>) -> Result<Option<Text>, AllocError>
    ensures { IfOk result (λ copy. copy ≡ name.now) }
{
    match name {
        None => Ok(None),
        Some(text) => Ok(Some(Text::of(alloc, text.as_str())?)),
    }
}

/// A copy of a side.
pub(crate) fn copy_side(alloc: Global, side: &Side) -> Result<Side, AllocError>
    ensures { IfOk result (λ copy. copy ≡ side.now) }
{
    Ok(Side {
        reel: copy_reel(alloc, &side.reel)?,
        name: copy_name(alloc, &side.name)?,
        src_in: side.src_in,
        src_out: side.src_out,
        speed: side.speed,
    })
}
