//! Half-open spans of time.

ghost use Rattle.std.specs.Prelude.{◌≡◌, ℤ, ◌↔◌, pos, ◌+ℤ◌, ◌≤ℤ◌, IsTrue};
ghost use Rattle.tick_time.specs.Times.{Holds};

use crate::rates::Rate;
use crate::times::Time;

/// A span from its start up to, not including, its end.
#[derive(Clone, Copy, PartialEq, Eq)]
pub struct Span {
    /// Where it starts.
    pub start: Time,
    /// How long it is; never negative.
    pub len: Time,
    ghost forward: { pos 0 ≤ℤ len.ticks },
}

impl Span {
    ghost use Rattle.tick_time.specs.Frames.{IsFrameSpan, in_ticks};
    ghost use Rattle.tick_time.specs.Times.{IsInRange};

    /// The span that starts at whole frames of one rate, and is whole frames of another one long.
    pub fn of_frames(start: i64, start_rate: Rate, length: i64, length_rate: Rate) -> Span
        requires forward { pos 0 ≤ℤ length }
        requires starts { IsInRange (in_ticks start_rate start) }
        requires lasts { IsInRange (in_ticks length_rate length) }
        ensures { IsFrameSpan start_rate start length_rate length result }
    {
        Span {
            start: Time::of_frames(start, start_rate),
            len: Time::of_frames(length, length_rate),
        }
    }

    /// The ticks of its end.
    pub fn end_ticks(&self) -> i128
        ensures { result ≡ self.now.start.ticks +ℤ self.now.len.ticks }
    {
        self.start.ticks + self.len.ticks
    }

    /// Whether it holds the instant.
    pub fn holds(&self, ticks: i128) -> bool
        ensures { IsTrue result ↔ Holds self.now.start.ticks self.now.len.ticks ticks }
    {
        self.start.ticks <= ticks && ticks < self.end_ticks()
    }

    /// Whether some instant lies in both.
    pub fn meets(&self, other: &Span) -> bool
        ensures { IsTrue result ↔ ((ticks : ℤ) ×
            Holds self.now.start.ticks self.now.len.ticks ticks ×
            Holds other.now.start.ticks other.now.len.ticks ticks) }
    {
        let from = self.start.ticks.max(other.start.ticks);
        let to = self.end_ticks().min(other.end_ticks());
        from < to
    }
}
