// What commands work on that take a timeline or a list.
use edl_list::EventList;
use otio_model::Timeline;
use tick_time::Rate;

/// What a file is read as whose timeline is worked on.
#[derive(Clone, Copy, PartialEq, Eq)]
pub enum InputKind {
    /// An object of OpenTimelineIO that is a timeline.
    Timeline,
    /// A CMX 3600 list at that rate, in frames a second, which is conformed.
    List(Rate),
}

/// A file whose timeline is worked on.
#[derive(Clone, Copy, PartialEq, Eq)]
pub struct InputFile<'a> {
    /// The name of the file; `-` is the standard input.
    pub name: &'a str,
    /// What the file is read as.
    pub kind: InputKind,
}

/// What a file holds whose timeline is worked on.
#[derive(Drop)]
pub enum Input {
    /// A timeline of at most 100 000 items.
    Timeline(Timeline),
    /// A list.
    List(EventList),
}
