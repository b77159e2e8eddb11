//! The frames of the four labels of an event line.

ghost use Rattle.std.specs.Prelude.{◌≡◌, false, true, is_some, MatchOption};
ghost use Rattle.smpte_tc.specs.Frames.{label_frame as frame_named};
ghost use Rattle.edl_text.specs.StateSaid.{AreFrames, are_labels, run_back as runs_back};

use crate::statement_types::Labels;
use smpte_tc::label_frame;
use tick_time::Rate;

/// The frame numbers of the labels of an event line.
#[derive(Clone, Copy)]
pub(crate) struct Frames {
    pub(crate) source_in: u32,
    pub(crate) source_out: u32,
    pub(crate) record_in: u32,
    pub(crate) record_out: u32,
}

/// Whether a label is one of the day at a rate.
pub(crate) fn is_label(label: &[u8], rate: Rate, drop: bool) -> bool
    ensures { result ≡ is_some (frame_named rate drop label.now) }
{
    label_frame(label, rate, drop).is_some()
}

/// The frame numbers of four labels; none where one of them is no label of the day.
pub(crate) fn frames_of(labels: &Labels<'_>, rate: Rate, drop: bool) -> Option<Frames>
    ensures { MatchOption result
        (are_labels rate drop labels.now ≡ false)
        (λ frames. (are_labels rate drop labels.now ≡ true)
        × AreFrames rate drop labels.now frames) }
{
    let source_in = label_frame(labels.source_in, rate, drop)?;
    let source_out = label_frame(labels.source_out, rate, drop)?;
    let record_in = label_frame(labels.record_in, rate, drop)?;
    let record_out = label_frame(labels.record_out, rate, drop)?;
    Some(Frames {
        source_in,
        source_out,
        record_in,
        record_out,
    })
}

impl Frames {
    /// Whether an out lies before its in.
    pub(crate) fn run_back(&self) -> bool
        ensures { result ≡ runs_back self.now }
    {
        self.source_out < self.source_in || self.record_out < self.record_in
    }
}
