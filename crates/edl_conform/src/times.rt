//! Spans of whole frames.

ghost use Rattle.std.specs.Prelude.{◌≤ℤ◌, ◌*ℤ◌, pos};
ghost use Rattle.tick_time.specs.Rates.{frame};
ghost use Rattle.tick_time.specs.Times.{IsInRange};
ghost use Rattle.edl_frames.specs.Conformed.{IsSpanOf};

use tick_time::{Rate, Span};

/// So many frames of the rate, from one on.
pub(crate) fn span(start: i64, count: i64, rate: Rate) -> Span
    requires count { pos 0 ≤ℤ count }
    requires starts { IsInRange (start *ℤ pos (frame rate.num rate.den)) }
    requires lasts { IsInRange (count *ℤ pos (frame rate.num rate.den)) }
    ensures { IsSpanOf rate start count result }
{
    Span::of_frames(start, rate, count, rate)
}
