// Spans of the record that share no frame, kept by their starts.
ghost use Rattle.std.specs.Prelude.{◌≡◌, MatchBool, OnOk, Some, int_lt};
ghost use Rattle.std.specs.Ordering.{int_cmp};
ghost use Rattle.std.specs.BTreeMap.{Updates};
ghost use Rattle.edl_text.specs.StateSpans.{AreSpansApart, Meets};

use edl_list::Event;
use std::alloc::AllocError;
use std::collections::BTreeMap;

/// Whether the record span of an event shares a frame with one that is kept, where no two of those
/// share one: of those that start before its end only the last can.
pub(crate) fn meets(spans: &BTreeMap<i64, i64>, event: &Event) -> bool
    ensures { AreSpansApart spans.now → MatchBool result
        (Meets spans.now event.now.rec_in event.now.rec_out)
        (Meets spans.now event.now.rec_in event.now.rec_out → ⊥) }
{
    match spans.range(..event.rec_out).next_back() {
        Some((_, last)) => is_below(&event.rec_in, last),
        None => false,
    }
}

fn is_below(a: &i64, b: &i64) -> bool
    ensures { result ≡ int_lt a.now b.now }
{
    *a < *b
}

/// Keeps the record span of an event too.
pub(crate) fn keep(spans: &mut BTreeMap<i64, i64>, event: &Event) -> Result<(), AllocError>
    ensures { OnOk result (Updates int_cmp spans.old spans.new event.now.rec_in
        (Some event.now.rec_out)) }
{
    spans.insert(event.rec_in, event.rec_out)?;
    Ok(())
}
