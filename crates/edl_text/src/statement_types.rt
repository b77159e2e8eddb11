// What a line says, and why a line is refused.

/// What a line says.
#[derive(Clone, Copy)]
pub enum Statement<'a> {
    /// An empty line, or one that is ignored.
    Nothing,
    /// What follows `TITLE:`, without the spaces and tabs at both ends. It need not be UTF-8.
    Title(&'a [u8]),
    /// The frame code mode: whether drop frame.
    Mode(bool),
    /// An event line.
    Event(EventLine<'a>),
    /// A speed line, `M2`.
    Speed(SpeedLine<'a>),
    /// What follows `* FROM CLIP NAME:`, without the spaces and tabs at both ends.
    FromName(&'a str),
    /// What follows `* TO CLIP NAME:`, without the spaces and tabs at both ends.
    ToName(&'a str),
}

/// An event line.
#[derive(Clone, Copy)]
pub struct EventLine<'a> {
    /// The number of the event, of one to six digits.
    pub number: u32,
    /// The reel of the source.
    pub reel: ReelName<'a>,
    /// The channels of the record.
    pub channels: Channels,
    /// The type, with its duration.
    pub kind: Kind,
    /// The four labels, as they stand.
    pub labels: Labels<'a>,
}

/// The reel of a source.
#[derive(Clone, Copy)]
pub enum ReelName<'a> {
    /// Black, `BL`, which is no source.
    Black,
    /// The name of a source: from one to 32 bytes from `!` to `~`.
    Named(&'a str),
}

/// The channels of an event line.
#[derive(Clone, Copy, PartialEq, Eq)]
pub struct Channels {
    /// The picture, `V`.
    pub picture: bool,
    /// The first sound, `A`.
    pub first_sound: bool,
    /// The second sound, `A2`.
    pub second_sound: bool,
}

/// The type of an event line.
#[derive(Clone, Copy, PartialEq, Eq)]
pub enum Kind {
    /// A cut, `C`.
    Cut,
    /// A dissolve, `D`, and its duration in frames.
    Dissolve(u16),
    /// A wipe, `W`.
    Wipe {
        /// The code of the pattern, of three digits.
        code: u16,
        /// The duration in frames.
        frames: u16,
    },
}

/// The four labels of an event line, as they stand in it and not yet read.
#[derive(Clone, Copy)]
pub struct Labels<'a> {
    /// The label of the first frame of the source.
    pub source_in: &'a [u8],
    /// The label of the frame of the source behind the last.
    pub source_out: &'a [u8],
    /// The label of the first frame in the record.
    pub record_in: &'a [u8],
    /// The label of the frame in the record behind the last.
    pub record_out: &'a [u8],
}

/// A speed line, `M2`.
#[derive(Clone, Copy)]
pub struct SpeedLine<'a> {
    /// The reel that runs at this speed.
    pub reel: ReelName<'a>,
    /// Whether a minus stands before the speed, so that the reel runs backwards.
    pub reverse: bool,
    /// The speed in tenths of a frame a second, without the minus.
    pub tenths: u16,
    /// The label, as it stands in the line.
    pub label: &'a [u8],
}

/// Why a line is refused. Where two causes stand together, the first of them here is answered.
#[derive(Clone, Copy, PartialEq, Eq)]
pub enum LineFault {
    /// A key event: the line begins with a digit, and its fourth field with `K`.
    Key,
    /// A split edit: the first field is `AUD`, `SPLIT` or `SPLIT:`.
    Split,
    /// Any other line that says nothing that a list may say.
    Form,
}
