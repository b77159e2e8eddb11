//! Why a label or a frame number is refused.

use thiserror::Error;

/// Why a label or a frame number is refused.
#[derive(Clone, Copy, Debug, PartialEq, Eq, Error)]
pub enum TcFault {
    /// The bytes do not have the form `HH:MM:SS:FF` or `HH:MM:SS;FF`.
    #[error("no timecode label")]
    Form,
    /// Hours exceed 23, minutes or seconds 59, or frames are not below the rate's count.
    #[error("a field of a label is out of range")]
    Field,
    /// The label is one that drop-frame leaves out.
    #[error("a label that drop-frame leaves out")]
    Dropped,
    /// The frame number is negative or not below the count of a day.
    #[error("a frame number is not of a day")]
    Day,
    /// The rate has no timecode, or no drop-frame.
    #[error("the rate has no such timecode")]
    NoTimecode,
}
