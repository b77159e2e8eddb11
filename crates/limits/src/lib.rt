//! The limits of the program, each named once: a constant for code, and a word of
//! `specs/Limits.antt` for clauses, the same number.
#![tactic(auto)]

/// The most bytes of one file that are read.
pub const MOST_BYTES: u64 = 33_554_432;

/// The bytes of a file that are asked for at once.
pub const PIECE_BYTES: usize = 4_096;

/// The most items of one object tree.
pub const MOST_ITEMS: usize = 100_000;

/// The most ticks of a time either way: those of a million seconds.
pub const MOST_TICKS: i128 = 705_600_000_000_000_000_000_000;
