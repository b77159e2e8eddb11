// The four numbers of a label, and the bytes that spell them.
ghost use Rattle.std.specs.Prelude.{◌≡◌, ◌<◌, ◌+◌, ◌*◌, ◌↔◌, IsTrue, MatchOption};
ghost use Rattle.smpte_tc.specs.Day.{tens as tens_of, units as units_of, spelled};
ghost use Rattle.smpte_tc.specs.Spelling.{IsNoDigit, IsDigitOf, IsNoPair, IsPairOf, IsNoSpelling, IsSpelling, IsInDay};

/// A time address of SMPTE ST 12-1: what a label says, each part a number of its own.
#[derive(Clone, Copy, PartialEq)]
pub struct TimeAddress {
    /// Hours from midnight.
    pub hours: u8,
    /// Minutes of the hour.
    pub minutes: u8,
    /// Seconds of the minute.
    pub seconds: u8,
    /// Frames of the second.
    pub frames: u8,
}

// The value of a decimal digit.
fn digit(byte: u8) -> Option<u8>
    ensures { MatchOption result (IsNoDigit byte) (λ value. IsDigitOf value byte) }
{
    if byte < b'0' || b'9' < byte {
        None
    } else {
        Some(byte - b'0')
    }
}

// The number of two decimal digits.
fn pair(first: u8, second: u8) -> Option<u8>
    ensures { MatchOption result (IsNoPair first second) (λ number. IsPairOf number first second) }
{
    let high = digit(first)?;
    let low = digit(second)?;
    Some(high * 10 + low)
}

/// The time address that eleven bytes spell, with this mark before the frames: two digits each, and
/// `:` between.
#[tactic(auto, using(crate::proofs::Spellings::spelling_from))]
pub fn spelling(label: &[u8], mark: u8) -> Option<TimeAddress>
    ensures { MatchOption result (IsNoSpelling mark label.now) (λ a. IsSpelling mark a label.now) }
{
    let [h1, h2, b':', m1, m2, b':', s1, s2, before, f1, f2] = label else {
        return None;
    };
    if *before != mark {
        return None;
    }
    let hours = pair(*h1, *h2)?;
    let minutes = pair(*m1, *m2)?;
    let seconds = pair(*s1, *s2)?;
    let frames = pair(*f1, *f2)?;
    Some(TimeAddress {
        hours,
        minutes,
        seconds,
        frames,
    })
}

fn tens(number: u8) -> u8
    requires { number < 100 }
    ensures { result ≡ tens_of number }
{
    b'0' + number / 10
}

fn units(number: u8) -> u8
    ensures { result ≡ units_of number }
{
    b'0' + number % 10
}

impl TimeAddress {
    /// The bytes of the label, two digits each and `:` between, with this mark before the frames.
    pub fn spell(&self, mark: u8) -> [u8; 11]
        requires hours { self.now.hours < 100 }
        requires minutes { self.now.minutes < 100 }
        requires seconds { self.now.seconds < 100 }
        requires frames { self.now.frames < 100 }
        ensures { result ≡ spelled mark self.now }
    {
        let (h, m, s, f) = (self.hours, self.minutes, self.seconds, self.frames);
        [
            tens(h),
            units(h),
            b':',
            tens(m),
            units(m),
            b':',
            tens(s),
            units(s),
            mark,
            tens(f),
            units(f),
        ]
    }

    /// Whether the numbers lie within a day of so many frame numbers a second.
    pub fn is_in_day(&self, nominal: u8) -> bool
        ensures { IsTrue result ↔ IsInDay nominal self.now }
    {
        self.hours < 24 && self.minutes < 60 && self.seconds < 60 && self.frames < nominal
    }

    /// The whole seconds since midnight.
    pub fn seconds_of_day(&self) -> u32
        ensures { result ≡ (self.now.hours * 60 + self.now.minutes) * 60 + self.now.seconds }
    {
        (u32::from(self.hours) * 60 + u32::from(self.minutes)) * 60 + u32::from(self.seconds)
    }
}
