//! Rows of rates, values and speeds.

ghost use Rattle.dev_io.specs.Buffer.{HandsOver};
ghost use Rattle.json_value.specs.declared.Json.{Num};
ghost use Rattle.json_text.specs.Levels.{deep};
ghost use Rattle.schema_write.specs.Texts.{decimal_text, rate_text, value_text};
ghost use Rattle.schema_write.specs.Lines.{row_text};

use crate::rows::put_numeral_row;
use dev_io::{Out, OutBuffer};
use json_text::Level;
use tick_time::{Rate, Scalar, Time};

/// Hands over a row of a rate.
pub fn put_rate_row<W: Out>(
    buffer: &mut OutBuffer,
    out: &mut W,
    name: &str,
    rate: Rate,
    level: &Level<'_>,
)
    ensures { HandsOver W.known W.faults out.old out.new buffer.old buffer.new
        (row_text name.now (Num (rate_text rate)) (deep level.now)) }
{
    put_numeral_row(buffer, out, name, rate.text().as_str(), level);
}

/// Hands over a row of the value of a time, in frames of its rate.
pub fn put_value_row<W: Out>(
    buffer: &mut OutBuffer,
    out: &mut W,
    name: &str,
    time: Time,
    level: &Level<'_>,
)
    ensures { HandsOver W.known W.faults out.old out.new buffer.old buffer.new
        (row_text name.now (Num (value_text time)) (deep level.now)) }
{
    put_numeral_row(buffer, out, name, time.value_text().as_str(), level);
}

/// Hands over a row of a speed.
pub fn put_speed_row<W: Out>(
    buffer: &mut OutBuffer,
    out: &mut W,
    name: &str,
    speed: Scalar,
    level: &Level<'_>,
)
    ensures { HandsOver W.known W.faults out.old out.new buffer.old buffer.new
        (row_text name.now (Num (decimal_text speed)) (deep level.now)) }
{
    put_numeral_row(buffer, out, name, speed.text().as_str(), level);
}
