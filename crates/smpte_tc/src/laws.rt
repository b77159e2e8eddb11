// Laws of labels and frame numbers, each as the contract of a small function.
ghost use Rattle.smpte_tc.specs.Answers.{means_drop as drop_meant, ReadsWritten, WritesRead};
ghost use Rattle.smpte_tc.specs.Laws.{HasEachALabel, HasOneLabel, HasOneNumber, HasKnownCounts, HasElevenBytes, HasPlainBytes, HasOneReading, HasOneWriting, IsReadAgain};
ghost use Rattle.smpte_tc.specs.Modes.{mode_of as mode_at};

use crate::faults::TcFault;
use crate::timecode::{label, means_drop, read};
use tick_time::Rate;

/// The number that is read from the label of a frame number: that number.
///
/// # Errors
/// Those of [`label`] alone.
pub fn read_written(n: i64, rate: Rate, drop: bool) -> Result<i64, TcFault>
    ensures { ReadsWritten (mode_at rate drop) n result }
{
    match label(n, rate, drop) {
        Ok(written) => read(written.as_slice(), rate, drop),
        Err(fault) => Err(fault),
    }
}

/// The label of the number that is read from a label: that label, with the mark that is written.
///
/// # Errors
/// Those of [`read`] alone.
pub fn write_read(bytes: &[u8], rate: Rate, drop: bool) -> Result<[u8; 11], TcFault>
    ensures { WritesRead (mode_at rate (drop_meant bytes.now drop))
        (drop_meant bytes.now drop) bytes.now result }
{
    match read(bytes, rate, drop) {
        Ok(n) => label(n, rate, means_drop(bytes, drop)),
        Err(fault) => Err(fault),
    }
}

/// Each frame number of a day has exactly one label, in each mode that a rate can have.
pub fn labels_of_numbers()
    ensures there { HasEachALabel }
    ensures one { HasOneLabel }
{}

/// Each label of a day has exactly one frame number, in each mode that a rate can have.
pub fn numbers_of_labels()
    ensures { HasOneNumber }
{}

/// A label is eleven bytes, each of them a digit, `:` or `;`, in each mode that a rate can have.
pub fn bytes_of_labels()
    ensures eleven { HasElevenBytes }
    ensures plain { HasPlainBytes }
{}

/// At a rate, with drop-frame or without, bytes have one answer to [`read`], and a number one
/// answer to [`label`].
pub fn one_answer()
    ensures reading { HasOneReading }
    ensures writing { HasOneWriting }
{}

/// A label that [`label`] writes is read again as its number, means drop-frame exactly where
/// drop-frame was asked for, and has `;` as its ninth byte there and `:` elsewhere.
pub fn labels_read_again()
    ensures { IsReadAgain }
{}

/// A day has 2 073 600 labels at 24 frames a second, with drop-frame 2 589 408 at 30000/1001 and 5
/// 178 816 at 60000/1001.
pub fn counts_of_days()
    ensures { HasKnownCounts }
{}
