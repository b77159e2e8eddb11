//! Exact times: rates as fractions, times as whole ticks, and the decimals that they are read from.
#![tactic(auto)]

mod decimals;
mod digits;
mod faults;
mod fixed_rates;
mod forms;
pub mod laws;
mod numerals;
mod rate_words;
mod rates;
mod ratios;
mod rounding;
mod scalars;
mod spans;
mod tallies;
mod texts;
mod times;

pub use decimals::Decimal;
pub use digits::{are_digits, number_of};
pub use faults::TimeFault;
pub use fixed_rates::{finest_rate, rate_24};
pub use forms::is_numeral;
pub use rate_words::rate_of;
pub use rates::Rate;
pub use rounding::{from_millionths, half_even};
pub use scalars::Scalar;
pub use spans::Span;
pub use times::Time;
