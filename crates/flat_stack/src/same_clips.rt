//! The longest stretches of one clip or of none.

ghost use Rattle.std.specs.Prelude.{◌≡◌, ◌↔◌, ℤ, IfOk, IsTrue, List, Option, map, pos};
ghost use Rattle.otio_model.specs.declared.compositions.ItemOf.{ItemOf as AnyItemOf};
ghost use Rattle.otio_model.specs.declared.compositions.Listed.{Listed};
ghost use Rattle.flat.specs.Pieces.{AreLongest, Giver};
ghost use Rattle.flat_stack.specs.Runs.{AreRuns, piece_of};

use crate::stretches::{Given, Stretch};
use std::alloc::{AllocError, Global};

/// A part of a flat track: from where to where one clip gives it, or none.
#[derive(Clone, Copy)]
pub struct Part {
    /// Where it begins, in ticks from the start of the flat track.
    pub from: i128,
    /// Where it ends, in ticks from the start of the flat track.
    pub to: i128,
    /// The clip that gives it; `None` where none does.
    pub given: Option<Given>,
}

// Whether two clips are one.
fn is_one(first: Given, second: Given) -> bool
    ensures { IsTrue result ↔ (first ≡ second) }
{
    first.track == second.track && first.child == second.child && first.start == second.start
}

// Whether one clip gives both, or none does.
fn is_same(first: Option<Given>, second: Option<Given>) -> bool
    ensures { IsTrue result ↔ (first ≡ second) }
{
    match first {
        Some(first) => match second {
            Some(second) => is_one(first, second),
            None => false,
        },
        None => match second {
            Some(_) => false,
            None => true,
        },
    }
}

/// The stretches, with neighbours of one clip or of none put together.
pub(crate) fn longest(alloc: Global, runs: &[Stretch]) -> Result<Vec<Part>, AllocError>
    ensures { IfOk result (λ parts. (l : List (AnyItemOf Listed)) (g : ℤ → Option Giver) (end : ℤ) →
        AreRuns l g end (pos 0) runs.now →
        AreLongest g end (pos 0) (map (piece_of l) parts.items)) }
{
    let mut parts: Vec<Part> = Vec::new(alloc);
    let mut part = match runs.first() {
        Some(first) => Part {
            from: 0,
            to: first.to,
            given: first.given,
        },
        None => return Ok(parts),
    };
    'runs: for index in 1..runs.len() {
        let run = runs[index];
        if is_same(run.given, part.given) {
            part.to = run.to;
        } else {
            parts.push(part)?;
            part = Part {
                from: part.to,
                to: run.to,
                given: run.given,
            };
        }
    }
    parts.push(part)?;
    Ok(parts)
}
