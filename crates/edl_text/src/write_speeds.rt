// Speeds, and the lines that give them.
ghost use Rattle.std.specs.Prelude.{◌≡◌, ◌≤◌, Some};
ghost use Rattle.dev_io.specs.Buffer.{HandsOver};
ghost use Rattle.edl_list.specs.Limits.{most_tenths};
ghost use Rattle.edl_list.specs.Formed.{IsSide, IsSpeed};
ghost use Rattle.edl_list.specs.Layouts.{FitsReel};
ghost use Rattle.edl_list.specs.Speeds.{day_of, speed_of as speed_at};
ghost use Rattle.edl_text.specs.Rows.{needs_line as needs, speed_line, speed_lines_if, written_tenths as tenths_of, has_speed as is_fast, has_one_reel as is_one_reel};
ghost use Rattle.edl_text.specs.Spelling.{text_of};
ghost use Rattle.edl_list.specs.Labelled.{IsBelowDay};

use crate::columns::{reel_bytes, three_digits};
use crate::list_settings::Style;
use crate::write_rows::put_reel;
use crate::written_labels::label_of;
use dev_io::{Out, OutBuffer};
use edl_list::{Side, count_of, half_even};
use tick_time::Rate;

// The rate's own speed, in millionths.
const OWN_SPEED: u64 = 1_000_000;

// Tenths of a frame a second as millionths of so many frames a second, rounded half to even.
fn millionths_of(tenths: u16, count: u32) -> u64
    requires { 1 ≤ count }
    ensures { result ≡ speed_at count (Some tenths) }
{
    half_even(u64::from(tenths) * 100_000, u64::from(count))
}

/// Whether the speed of a side, in millionths, isn't the rate's own.
pub fn has_speed(side: &Side, rate: Rate) -> bool
    requires { IsSide (day_of rate) side.now }
    ensures { result ≡ is_fast rate side.now }
{
    match side.speed {
        Some(tenths) => millionths_of(tenths, count_of(rate)) != OWN_SPEED,
        None => false,
    }
}

// Whether both sides have one reel.
fn has_one_reel(a: &Side, b: &Side) -> bool
    ensures { result ≡ is_one_reel a.now b.now }
{
    reel_bytes(&a.reel) == reel_bytes(&b.reel)
}

/// Whether the incoming side of a pair needs an M2 line: where its speed isn't the rate's own, or
/// the outgoing side of its reel has one.
pub fn needs_line(to: &Side, from: &Side, rate: Rate) -> bool
    requires to { IsSide (day_of rate) to.now }
    requires from { IsSide (day_of rate) from.now }
    ensures { result ≡ needs rate to.now (Some from.now) }
{
    if has_speed(to, rate) {
        return true;
    }
    if !has_speed(from, rate) {
        return false;
    }
    has_one_reel(from, to)
}

// The tenths of a frame a second that an M2 line gives a side.
fn written_tenths(side: &Side, rate: Rate) -> u32
    requires { IsSpeed side.now.speed }
    ensures tenths { result ≡ tenths_of rate side.now }
    ensures small { result ≤ most_tenths }
{
    match side.speed {
        Some(tenths) => u32::from(tenths),
        None => 10 * count_of(rate),
    }
}

// Hands over the M2 line of a side, without its end.
#[tactic(auto, using(crate::proofs::Days::below_kept))]
fn put_speed<W: Out>(buffer: &mut OutBuffer, out: &mut W, side: &Side, style: Style)
    requires side { IsSide (day_of style.rate) side.now }
    requires fits { FitsReel style.layout side.now.reel }
    requires source_in { IsBelowDay style.rate style.drop side.now.src_in }
    ensures { HandsOver W.known W.faults out.old out.new buffer.old buffer.new
        (speed_line style.rate style.drop style.layout side.now) }
{
    let Style { rate, drop, layout } = style;
    let tenths = written_tenths(side, rate);
    let whole = three_digits(tenths / 10);
    let tenth = [b'0' + (tenths % 10) as u8];
    let source_in = label_of(side.src_in, rate, drop);
    buffer.put(out, b"M2   ");
    put_reel(buffer, out, &side.reel, layout);
    buffer.put(out, b" ");
    buffer.put(out, &whole);
    buffer.put(out, b".");
    buffer.put(out, &tenth);
    buffer.put(out, b"                ");
    buffer.put(out, &source_in);
}

/// Hands over the M2 line of a side with its line feed, where it is needed.
pub fn put_speed_if<W: Out>(
    buffer: &mut OutBuffer,
    out: &mut W,
    needed: bool,
    side: &Side,
    style: Style,
)
    requires side { IsSide (day_of style.rate) side.now }
    requires fits { FitsReel style.layout side.now.reel }
    requires source_in { IsBelowDay style.rate style.drop side.now.src_in }
    ensures { HandsOver W.known W.faults out.old out.new buffer.old buffer.new
        (text_of (speed_lines_if style.rate style.drop style.layout needed side.now)) }
{
    if needed {
        put_speed(buffer, out, side, style);
        buffer.put(out, b"\n");
    }
}
