//! Pictures: what is seen at a record frame.

use sequences::Text;

/// What a clip's frames are known by.
#[derive(Clone, Copy)]
pub enum KeyRef<'a> {
    /// The URL of external media.
    Url(&'a Text),
    /// An image sequence: where its images lie, and what stands before and after the number in an
    /// image's name.
    Sequence(&'a Text, &'a Text, &'a Text),
    /// What a generator makes, as color bars.
    Generator(&'a Text),
    /// The reel that lists (CMX 3600) know other media by.
    Reel(&'a Text),
    /// The clip's name, where its media have no other key.
    Name(&'a Text),
}

/// How two pictures are mixed.
#[derive(Clone, Copy)]
pub enum MixKind<'a> {
    /// `SMPTE_Dissolve`.
    Dissolve,
    /// `SMPTE_Wipe_` and this code, which is below 1000.
    Wipe(u16),
    /// A transition of another type.
    Other(&'a Text),
}

/// What is seen at a record frame.
#[derive(Drop)]
pub enum Picture<'a> {
    /// Nothing.
    Blank,
    /// A frame.
    Frame {
        /// What the frame's clip is known by.
        key: KeyRef<'a>,
        /// The number of the frame, counted at the rate of its media.
        number: i128,
    },
    /// Two pictures at once.
    Mix {
        /// How they are mixed.
        kind: MixKind<'a>,
        /// The picture of the outgoing side.
        from: Box<Picture<'a>>,
        /// The picture of the incoming side.
        to: Box<Picture<'a>>,
        /// How much of the mix is its incoming side, in parts of `den`, in lowest terms.
        num: i128,
        /// The number of parts.
        den: i128,
    },
}
