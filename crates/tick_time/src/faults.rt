//! Why a numeral or a time is refused.

use thiserror::Error;

/// Why a numeral or a time is refused.
#[derive(Clone, Copy, Debug, PartialEq, Eq, Error)]
pub enum TimeFault {
    /// A numeral has more than 38 digits, or an exponent of more than three.
    #[error("a numeral is too long")]
    TooLong,
    /// A numeral is no rate.
    #[error("a numeral is no rate")]
    Rate,
    /// A time lies more than a million seconds from 0.
    #[error("a time is out of range")]
    Range,
    /// A speed passes 1000 either way.
    #[error("a speed is out of range")]
    Scalar,
}
