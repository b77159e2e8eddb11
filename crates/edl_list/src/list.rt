//! Lists, events and their sides.

use owned::Owned;
use sequences::{Sequence, Text};
use tick_time::Rate;

/// The greatest number of three digits: of the frames of a dissolve or wipe, and of a wipe's code.
pub const MOST_NUMBER: usize = 999;

/// The greatest speed, in tenths of a frame a second.
pub const MOST_TENTHS: u16 = 9_999;

/// A channel of the record, in the order in which events of one record in stand.
#[derive(Clone, Copy, PartialEq, Eq)]
pub enum Channel {
    /// The picture.
    V,
    /// The first sound.
    A,
    /// The second sound.
    A2,
}

/// Where a side's frames come from.
pub enum Reel {
    /// Black, or silence: `BL` in a list.
    Black,
    /// The source of that name. In a well formed list a name has from one to 32 bytes from 0x21 to
    /// 0x7E and isn't `BL`.
    Named(Text),
}

/// One source of an event: the incoming one of a pair or that of a cut, or the outgoing one of a
/// pair.
pub struct Side {
    /// Where the frames come from.
    pub reel: Reel,
    /// The name of the clip that a note gives, in UTF-8. A note without a text gives none.
    pub name: Option<Text>,
    /// The first frame of the source, as a frame number of the day.
    pub src_in: i64,
    /// The frame of the source behind the last, as a frame number of the day.
    pub src_out: i64,
    /// The speed that an M2 line gives, in tenths of a frame a second; `None` without such a line,
    /// which is the rate's own speed.
    pub speed: Option<u16>,
}

/// How an event begins.
pub enum Cross {
    /// At once.
    Cut,
    /// By a dissolve from the outgoing side, over so many frames of the record from the event's
    /// start.
    Dissolve {
        /// From 1 to 999 in a well formed list.
        frames: u16,
        /// The outgoing side.
        from: Owned<Side>,
    },
    /// By a wipe from the outgoing side, over so many frames of the record from the event's start.
    Wipe {
        /// The number of the pattern, at most 999 in a well formed list.
        code: u16,
        /// From 1 to 999 in a well formed list.
        frames: u16,
        /// The outgoing side.
        from: Owned<Side>,
    },
}

/// One event of a list on one channel.
pub struct Event {
    /// The line that it was read from, counted from 1: the second one of a pair. For an event of a
    /// timeline its place in the list, counted from 1.
    pub line: u32,
    /// The channel of the record.
    pub channel: Channel,
    /// The side that is shown: that of a cut, and the incoming one of a dissolve or wipe.
    pub to: Side,
    /// How the event begins.
    pub cross: Cross,
    /// The first frame in the record, as a frame number of the day.
    pub rec_in: i64,
    /// The frame in the record behind the last, as a frame number of the day.
    pub rec_out: i64,
}

/// The events of a list. In a well formed list they stand in order of record in, then of V, A and
/// A2.
pub type EventSeq = Sequence<Event>;

/// An edit decision list.
pub struct EventList {
    /// The title, empty where the list has none.
    pub title: Text,
    /// The rate at which all frames are counted.
    pub rate: Rate,
    /// Whether the list is in drop-frame mode: whether the `FCM` in force at its first event line
    /// is drop.
    pub drop: bool,
    /// The events.
    pub events: EventSeq,
}

// Drops are written out: a derived one is proved anew in each crate that drops such a value.

impl Drop for Reel {
    fn drop(self) {
        match self {
            Reel::Black => {}
            Reel::Named(_) => {}
        }
    }
}

impl Drop for Side {
    fn drop(self) {
        let Side {
            reel: _,
            name: _,
            src_in: _,
            src_out: _,
            speed: _,
        } = self;
    }
}

impl Drop for Cross {
    fn drop(self) {
        match self {
            Cross::Cut => {}
            Cross::Dissolve { frames: _, from: _ } => {}
            Cross::Wipe {
                code: _,
                frames: _,
                from: _,
            } => {}
        }
    }
}

impl Drop for Event {
    fn drop(self) {
        let Event {
            line: _,
            channel: _,
            to: _,
            cross: _,
            rec_in: _,
            rec_out: _,
        } = self;
    }
}

impl Drop for EventList {
    fn drop(self) {
        let EventList {
            title: _,
            rate: _,
            drop: _,
            events: _,
        } = self;
    }
}
