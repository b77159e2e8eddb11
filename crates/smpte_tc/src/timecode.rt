// Labels at every rate.
ghost use Rattle.std.specs.Prelude.{◌≡◌, ◌==◌, IfSome, MatchOption};
ghost use Rattle.smpte_tc.specs.Frames.{label_frame as frame_named, IsFrameOfDay};
ghost use Rattle.smpte_tc.specs.Modes.{mode_of as mode_at, IsMode};
ghost use Rattle.smpte_tc.specs.Answers.{means_drop as drop_meant, Says, IsUnsaid, Reads, ReadsAt, Writes, WritesAt};

use crate::address::{TimeAddress, spelling};
use crate::faults::TcFault;
use crate::modes::{Mode, mode_of};
use tick_time::Rate;

/// The frame number in the day that a label names, at a rate, with drop-frame or without.
///
/// A label is eleven bytes, `HH:MM:SS:FF` or `HH:MM:SS;FF` (SMPTE ST 12-1). A `;` as the ninth byte
/// means drop-frame whatever `drop` says.
///
/// # Errors
/// In this order: `NoTimecode` where the rate has no timecode, or drop-frame is meant and the rate
/// has none; `Form` where the bytes do not have the form; `Field` where hours exceed 23, minutes or
/// seconds 59, or frames are not below the rate's count; `Dropped` where drop-frame leaves the
/// label out.
pub fn read(label: &[u8], rate: Rate, drop: bool) -> Result<i64, TcFault>
    ensures { ReadsAt (mode_at rate (drop_meant label.now drop)) label.now result }
{
    let Some(mode) = mode_of(rate, means_drop(label, drop)) else {
        return Err(TcFault::NoTimecode);
    };
    mode.read(label)
}

/// The frame number in the day that a label names, at a rate, with drop-frame or without. It is
/// that of [`read`], and none exactly where [`read`] refuses the label.
pub fn label_frame(label: &[u8], rate: Rate, drop: bool) -> Option<u32>
    ensures frame { result ≡ frame_named rate drop label.now }
    ensures of_day { IfSome result IsFrameOfDay }
{
    match read(label, rate, drop) {
        Ok(frame) => Some(frame as u32),
        Err(_) => None,
    }
}

/// The label of a frame number of the day, at a rate, with drop-frame or without (SMPTE ST 12-1).
/// The byte before the frames is `;` for drop-frame, else `:`.
///
/// # Errors
/// First `NoTimecode` where the rate has no timecode, or drop-frame is asked for and the rate has
/// none; then `Day` where the number is negative or not below the count of a day.
pub fn label(n: i64, rate: Rate, drop: bool) -> Result<[u8; 11], TcFault>
    ensures { WritesAt (mode_at rate drop) n result }
{
    match mode_of(rate, drop) {
        Some(mode) => mode.label(n),
        None => Err(TcFault::NoTimecode),
    }
}

/// Whether drop-frame is meant, where it is asked for or not.
pub fn means_drop(label: &[u8], drop: bool) -> bool
    ensures { result ≡ drop_meant label.now drop }
{
    drop || (label.len() > 8 && label[8] == b';')
}

// The time address that bytes of a label's form say.
fn form(label: &[u8]) -> Option<TimeAddress>
    ensures { MatchOption result (IsUnsaid label.now) (λ a. Says label.now a) }
{
    if label.len() > 8 && (label[8] == b':' || label[8] == b';') {
        spelling(label, label[8])
    } else {
        None
    }
}

impl Mode {
    // The frame number that a label names, or the first refusal that holds.
    fn read(&self, label: &[u8]) -> Result<i64, TcFault>
        requires { IsMode self.now }
        ensures { Reads self.now label.now result }
    {
        let Some(address) = form(label) else {
            return Err(TcFault::Form);
        };
        if !address.is_in_day(self.nominal) {
            return Err(TcFault::Field);
        }
        if self.leaves_out(&address) {
            return Err(TcFault::Dropped);
        }
        Ok(i64::from(self.number_of(&address)))
    }

    // The label of a frame number, or that it is not of the day.
    fn label(&self, n: i64) -> Result<[u8; 11], TcFault>
        requires { IsMode self.now }
        ensures { Writes self.now n result }
    {
        if n < 0 || n >= i64::from(self.day_count()) {
            return Err(TcFault::Day);
        }
        Ok(self.address_of(n as u32).spell(self.mark()))
    }
}
