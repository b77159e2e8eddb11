// Frame numbers and time addresses of a day.
ghost use Rattle.std.specs.Prelude.{◌≡◌, ◌<◌, ◌≤◌, ◌+◌, ◌-◌, ◌*◌, ◌/◌, ◌%◌, ◌⊎◌, Some, None, length, true, false, slice_get};
ghost use Rattle.smpte_tc.specs.Day.{counted_of, is_left_out, mark_of};
ghost use Rattle.smpte_tc.specs.Modes.{IsMode};
ghost use Rattle.smpte_tc.specs.Spelling.{IsInDay};

use crate::address::TimeAddress;
use crate::modes::Mode;

/// A minute of the day, and a frame of that minute by a count that leaves nothing out.
#[derive(Clone, Copy)]
struct MinutePlace {
    minute: u32,
    frame: u32,
}

impl Mode {
    /// Whether drop-frame leaves out the time address.
    pub fn leaves_out(&self, address: &TimeAddress) -> bool
        ensures { result ≡ is_left_out self.now address.now }
    {
        address.seconds == 0 && address.frames < self.dropped && address.minutes % 10 != 0
    }

    /// The byte before the frames of a label.
    pub fn mark(&self) -> u8
        ensures { result ≡ mark_of self.now }
    {
        if self.dropped == 0 { b':' } else { b';' }
    }

    /// How many frame numbers a day has.
    pub fn day_count(&self) -> u32
        requires { IsMode self.now }
        ensures { result ≡ length (counted_of self.now) }
    {
        86_400 * u32::from(self.nominal) - 1_296 * u32::from(self.dropped)
    }

    /// The frame number of a time address that is counted.
    pub fn number_of(&self, address: &TimeAddress) -> u32
        requires fair { IsMode self.now }
        requires inside { IsInDay self.now.nominal address.now }
        requires counted { is_left_out self.now address.now ≡ false }
        ensures { slice_get (counted_of self.now) result ≡ Some address.now }
    {
        let minute = u32::from(address.hours) * 60 + u32::from(address.minutes);
        let place = address.seconds_of_day() * u32::from(self.nominal) + u32::from(address.frames);
        place - u32::from(self.dropped) * (minute - minute / 10)
    }

    /// The time address of a frame number of the day.
    pub fn address_of(&self, n: u32) -> TimeAddress
        requires fair { IsMode self.now }
        requires of_day { n < length (counted_of self.now) }
        ensures there { slice_get (counted_of self.now) n ≡ Some result }
        ensures inside { IsInDay self.now.nominal result }
    {
        let at = self.minute_of(n);
        let nominal = u32::from(self.nominal);
        TimeAddress {
            hours: (at.minute / 60) as u8,
            minutes: (at.minute % 60) as u8,
            seconds: (at.frame / nominal) as u8,
            frames: (at.frame % nominal) as u8,
        }
    }

    // The minute of a frame number, and its frame there: of ten minutes the first is whole, and of
    // the others drop-frame leaves out the first numbers.
    fn minute_of(&self, n: u32) -> MinutePlace
        requires fair { IsMode self.now }
        requires of_day { n < length (counted_of self.now) }
        ensures place { n + self.now.dropped * (result.minute - result.minute / 10)
            ≡ result.minute * (60 * self.now.nominal) + result.frame }
        ensures day { result.minute < 1440 }
        ensures within { result.frame < 60 * self.now.nominal }
        ensures counted { (result.minute % 10 ≡ 0) ⊎ (self.now.dropped ≤ result.frame) }
    {
        let whole = 60 * u32::from(self.nominal);
        let short = whole - u32::from(self.dropped);
        let tens = n / (whole + 9 * short);
        let rest = n % (whole + 9 * short);
        if rest < whole {
            MinutePlace {
                minute: 10 * tens,
                frame: rest,
            }
        } else {
            let past = rest - whole;
            MinutePlace {
                minute: 10 * tens + 1 + past / short,
                frame: past % short + u32::from(self.dropped),
            }
        }
    }
}
