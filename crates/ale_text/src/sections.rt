//! The sections of a log.

use tick_time::Rate;

/// The indexes of the columns that are read, counted from 0.
#[derive(Clone, Copy, PartialEq, Eq)]
pub struct Columns {
    /// The column `Tape`.
    pub tape: usize,
    /// The column `Start`.
    pub start: usize,
    /// The column `End`.
    pub end: usize,
}

/// What may stand on the next line of a log, blank lines aside.
#[derive(Clone, Copy, PartialEq, Eq)]
pub enum Due {
    /// The line `Heading`.
    Heading,
    /// A line of the heading, or the line `Column` after them, with the rate of the first `FPS`
    /// where one came before.
    Entry(Option<Rate>),
    /// The names of the columns, in a log of this rate.
    Names(Rate),
    /// The line `Data`, in a log of this rate and these columns.
    Data(Rate, Columns),
    /// A row, in a log of this rate and these columns. Here the log may end.
    Row(Rate, Columns),
}
