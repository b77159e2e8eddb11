//! The reason of each fault.

ghost use Rattle.std.specs.Prelude.{◌≡◌, ◌≢◌, [], MatchOption};
ghost use Rattle.source_files.specs.Reasons.{reason_text, refusal, number_text, item_text, field_text, line_at_text};
ghost use Rattle.source_files.specs.Faults.{script_fault_text, far_command_text, unlisted_text, edit_fault_text, undo_fault_text};
ghost use Rattle.source_files.specs.Faults.{ale_fault_text, json_fault_text, list_fault_text, media_fault_text, conform_fault_text, fault_text, coord_fault_text, not_carried_text, why_text, no_timecode_text, events_text, reel_text, day_text, not_timeline_text, range_text, pull_frames_text, flat_fault_text, items_text, family_fault_text};

use crate::reasons::{Detail, Reason};
use ale_text::AleFault;
use coord::CoordFault;
use edit_script::ScriptFault;
use edl_frames::{ConformFault, NotCarried, Why};
use edl_text::EdlFault;
use flat::FlatFault;
use json_text::JsonFault;
use media_list::MediaFault;
use otio_model::{EditFault, Place};
use schema_rows::SchemaFault;
use schema_write::FamilyFault;
use sequences::Text;
use undo_log::UndoFault;

/// What is told of bytes that are no JSON text, with the offset in bytes; `None` exactly for want
/// of memory.
pub fn json_reason(fault: JsonFault) -> Option<Reason>
    ensures { MatchOption result (fault ≡ JsonFault.Memory)
        (λ reason. (fault ≢ JsonFault.Memory) × (reason_text reason ≡ json_fault_text fault)) }
{
    match fault {
        JsonFault::Syntax(offset) => Some(number_reason("J1", "Syntax", offset)),
        JsonFault::Utf8(offset) => Some(number_reason("J2", "Utf8", offset)),
        JsonFault::Depth(offset) => Some(number_reason("J3", "Depth", offset)),
        JsonFault::Large => Some(bare_reason("J4", "Large")),
        JsonFault::Memory => None,
    }
}

/// What is told of bytes that are no list of events, with the line; `None` exactly for want of
/// memory.
pub fn list_reason(fault: EdlFault) -> Option<Reason>
    ensures { MatchOption result (fault ≡ EdlFault.Memory)
        (λ reason. (fault ≢ EdlFault.Memory) × (reason_text reason ≡ list_fault_text fault)) }
{
    match fault {
        EdlFault::Form(line) => Some(line_reason("L1", "Form", line)),
        EdlFault::Timecode(line) => Some(line_reason("L2", "Timecode", line)),
        EdlFault::Order(line) => Some(line_reason("L3", "Order", line)),
        EdlFault::Unequal(line) => Some(line_reason("L4", "Unequal", line)),
        EdlFault::Key(line) => Some(line_reason("L5", "Key", line)),
        EdlFault::Split(line) => Some(line_reason("L6", "Split", line)),
        EdlFault::Overlap(line) => Some(line_reason("L7", "Overlap", line)),
        EdlFault::Reverse(line) => Some(line_reason("L8", "Reverse", line)),
        EdlFault::Large => Some(bare_reason("L9", "Large")),
        EdlFault::Memory => None,
    }
}

/// What is told of bytes that are no media list, with the line; `None` exactly where memory ran
/// out.
pub fn media_reason(fault: MediaFault) -> Option<Reason>
    ensures { MatchOption result (fault ≡ MediaFault.Memory)
        (λ reason. (fault ≢ MediaFault.Memory) × (reason_text reason ≡ media_fault_text fault)) }
{
    match fault {
        MediaFault::Line(line) => Some(line_reason("M1", "Line", line)),
        MediaFault::Rate(line) => Some(line_reason("M5", "Rate", line)),
        MediaFault::Range(line) => Some(line_reason("M4", "Range", line)),
        MediaFault::ReelTwice(line) => Some(line_reason("M2", "ReelTwice", line)),
        MediaFault::UrlTwice(line) => Some(line_reason("M3", "UrlTwice", line)),
        MediaFault::Large => Some(bare_reason("M6", "Large")),
        MediaFault::Memory => None,
    }
}

/// What is told of bytes that are no log, with the line; `None` exactly where memory ran out.
pub fn ale_reason(fault: AleFault) -> Option<Reason>
    ensures { MatchOption result (fault ≡ AleFault.Memory)
        (λ reason. (fault ≢ AleFault.Memory) × (reason_text reason ≡ ale_fault_text fault)) }
{
    match fault {
        AleFault::Form(line) => Some(line_reason("A1", "Form", line)),
        AleFault::Rate(line) => Some(line_reason("A2", "Rate", line)),
        AleFault::Label(line) => Some(line_reason("A3", "Label", line)),
        AleFault::Large => Some(bare_reason("A4", "Large")),
        AleFault::Memory => None,
    }
}

/// What is told of bytes that are no script, with the line; `None` exactly where memory ran out.
pub fn script_reason(fault: ScriptFault) -> Option<Reason>
    ensures { MatchOption result (fault ≡ ScriptFault.Memory)
        (λ reason. (fault ≢ ScriptFault.Memory) × (reason_text reason ≡ script_fault_text fault)) }
{
    match fault {
        ScriptFault::Line(line) => Some(line_reason("P1", "Line", line)),
        ScriptFault::Many => Some(bare_reason("P3", "Many")),
        ScriptFault::Large => Some(bare_reason("P4", "Large")),
        ScriptFault::Memory => None,
    }
}

/// The command on that line of a script has a time out of range.
pub fn far_command_reason(line: u32) -> Reason
    ensures { reason_text result ≡ far_command_text line }
{
    line_reason("P1", "Line", line)
}

/// The command on that line of a script puts in a clip of a reel that isn't listed.
pub fn unlisted_reason(line: u32) -> Reason
    ensures { reason_text result ≡ unlisted_text line }
{
    line_reason("P2", "NoReel", line)
}

/// What is told of an edit, on that line of a script, that isn't made; of one that would move what
/// stands after it with the place of the composition too. `None` exactly where memory ran out.
pub fn edit_reason(line: u32, fault: EditFault) -> Option<Reason>
    ensures { MatchOption result (fault ≡ EditFault.Memory)
        (λ reason. (fault ≢ EditFault.Memory)
        × (reason_text reason ≡ edit_fault_text line fault)) }
{
    match fault {
        EditFault::Place => Some(line_reason("E1", "Place", line)),
        EditFault::NotTrack => Some(line_reason("E2", "NotTrack", line)),
        EditFault::Negative => Some(line_reason("E3", "Negative", line)),
        EditFault::NoItem => Some(line_reason("E4", "NoItem", line)),
        EditFault::NotGap => Some(line_reason("E5", "NotGap", line)),
        EditFault::Empty => Some(line_reason("E6", "Empty", line)),
        EditFault::NoNeighbour => Some(line_reason("E11", "NoNeighbour", line)),
        EditFault::Speed => Some(line_reason("E12", "Speed", line)),
        EditFault::Phase => Some(line_reason("E7", "Phase", line)),
        EditFault::Unpinned(place) => Some(line_at_reason("E8", "Unpinned", line, place)),
        EditFault::TooLong => Some(line_reason("E9", "TooLong", line)),
        EditFault::Items => Some(line_reason("E10", "Items", line)),
        EditFault::Memory => None,
    }
}

/// What is told of a step in the log, on that line of a script, that isn't made.
pub fn undo_reason(line: u32, fault: UndoFault) -> Reason
    ensures { reason_text result ≡ undo_fault_text line fault }
{
    match fault {
        UndoFault::NothingDone => line_reason("H1", "NothingDone", line),
        UndoFault::NothingUndone => line_reason("H2", "NothingUndone", line),
    }
}

/// What is told of a list that isn't conformed, with the line of the event; `None` exactly for want
/// of memory.
pub fn conform_reason(fault: ConformFault) -> Option<Reason>
    ensures { MatchOption result (fault ≡ ConformFault.Memory)
        (λ reason. (fault ≢ ConformFault.Memory)
        × (reason_text reason ≡ conform_fault_text fault)) }
{
    match fault {
        ConformFault::NoReel(line) => Some(line_reason("Q1", "NoReel", line)),
        ConformFault::Rate(line) => Some(line_reason("Q3", "Rate", line)),
        ConformFault::Outside(line) => Some(line_reason("Q2", "Outside", line)),
        ConformFault::Items => Some(bare_reason("Q4", "Items")),
        ConformFault::Memory => None,
    }
}

/// What is told of a value that stands for no object, with the place of an item and, for a member,
/// its name; `None` exactly where memory ran out.
pub fn schema_reason(fault: SchemaFault) -> Option<Reason>
    ensures { MatchOption result (fault ≡ SchemaFault.Memory)
        (λ reason. (fault ≢ SchemaFault.Memory) × (reason_text reason ≡ fault_text fault)) }
{
    match fault {
        SchemaFault::NotObject(place) => Some(item_reason("S1", "NotObject", place)),
        SchemaFault::UnknownChild(place) => Some(item_reason("S2", "UnknownChild", place)),
        SchemaFault::Newer(place) => Some(item_reason("S3", "Newer", place)),
        SchemaFault::Field(place, member) => Some(member_reason("S4", "Field", place, member)),
        SchemaFault::Rate(place) => Some(item_reason("S5", "Rate", place)),
        SchemaFault::Range(place) => Some(item_reason("S6", "Range", place)),
        SchemaFault::Transitions(place) => Some(item_reason("S7", "Transitions", place)),
        SchemaFault::Items => Some(items_reason()),
        SchemaFault::Memory => None,
    }
}

/// What is told of a timeline that isn't sound, with the place of the item but for the start;
/// `None` exactly where memory ran out.
pub fn coord_reason(fault: CoordFault) -> Option<Reason>
    ensures { MatchOption result (fault ≡ CoordFault.Memory)
        (λ reason. (fault ≢ CoordFault.Memory) × (reason_text reason ≡ coord_fault_text fault)) }
{
    match fault {
        CoordFault::StartOffFrame => Some(bare_reason("K2", "StartOffFrame")),
        CoordFault::NoLength(place) => Some(item_reason("K1", "NoLength", place)),
        CoordFault::Speed(place) => Some(item_reason("K5", "Speed", place)),
        CoordFault::Long(place) => Some(item_reason("K4", "Long", place)),
        CoordFault::Memory => None,
    }
}

/// What is told of a timeline that isn't written as a list, with the place of the child or of the
/// whole; `None` exactly where memory ran out.
pub fn not_carried_reason(fault: NotCarried) -> Option<Reason>
    ensures { MatchOption result (fault ≡ NotCarried.Memory)
        (λ reason. (fault ≢ NotCarried.Memory)
        × (reason_text reason ≡ not_carried_text fault)) }
{
    match fault {
        NotCarried::At { place, why } => Some(why_reason(why, place)),
        NotCarried::Memory => None,
    }
}

// What is told of why the child at a place isn't written.
fn why_reason(why: Why, place: Place) -> Reason
    ensures { reason_text result ≡ why_text why place }
{
    match why {
        Why::Tracks => item_reason("N1", "Tracks", place),
        Why::Nested => item_reason("N2", "Nested", place),
        Why::OffFrame => item_reason("N3", "OffFrame", place),
        Why::NoReel => item_reason("N4", "NoReel", place),
        Why::RateDiffers => item_reason("N5", "RateDiffers", place),
        Why::SourceDay => item_reason("N6", "SourceDay", place),
        Why::Effect => item_reason("N7", "Effect", place),
        Why::Speed => item_reason("N8", "Speed", place),
        Why::Phase => item_reason("N9", "Phase", place),
        Why::Overlap => item_reason("N10", "Overlap", place),
        Why::Kind => item_reason("N11", "Kind", place),
        Why::Outside => item_reason("N12", "Outside", place),
        Why::Events => item_reason("N13", "Events", place),
        Why::RecordDay => item_reason("N14", "RecordDay", place),
        Why::NoTimecode => item_reason("N15", "NoTimecode", place),
    }
}

/// A list is to be written, and its rate has no timecode, or none with drop-frame where that is
/// asked.
pub fn no_timecode_reason() -> Reason
    ensures { reason_text result ≡ no_timecode_text }
{
    root_reason("N15", "NoTimecode")
}

/// A list is to be written, and it has more events than one may have.
pub fn events_reason() -> Reason
    ensures { reason_text result ≡ events_text }
{
    root_reason("N13", "Events")
}

/// A list is to be written in the narrow layout, and the event of that line has a reel that this
/// has no room for.
pub fn reel_reason(line: u32) -> Reason
    ensures { reason_text result ≡ reel_text line }
{
    line_reason("L11", "Reel", line)
}

/// A list is to be written, and the event of that line has a label past the day.
pub fn day_reason(line: u32) -> Reason
    ensures { reason_text result ≡ day_text line }
{
    line_reason("L10", "Day", line)
}

/// A collection or an item stands where a timeline is asked for.
pub fn not_timeline_reason() -> Reason
    ensures { reason_text result ≡ not_timeline_text }
{
    bare_reason("G3", "NotTimeline")
}

/// Timelines one after another or above each other have too many items.
pub fn items_reason() -> Reason
    ensures { reason_text result ≡ items_text }
{
    bare_reason("G1", "Items")
}

/// What is told of a timeline that isn't flattened, cut to a window or joined, with the place of
/// the child, but for a window out of range; `None` exactly where memory ran out.
pub fn flat_reason(fault: FlatFault) -> Option<Reason>
    ensures { MatchOption result (fault ≡ FlatFault.Memory)
        (λ reason. (fault ≢ FlatFault.Memory)
        × (reason_text reason ≡ flat_fault_text fault)) }
{
    match fault {
        FlatFault::Nested(place) => Some(item_reason("X1", "Nested", place)),
        FlatFault::Transition(place) => Some(item_reason("X2", "Transition", place)),
        FlatFault::Phase(place) => Some(item_reason("X3", "Phase", place)),
        FlatFault::Range => Some(range_reason()),
        FlatFault::Memory => None,
    }
}

/// What is told of an object without a form in the older family of schemas, with the place of the
/// item; `None` exactly where memory ran out.
pub fn family_reason(fault: FamilyFault) -> Option<Reason>
    ensures { MatchOption result (fault ≡ FamilyFault.Memory)
        (λ reason. (fault ≢ FamilyFault.Memory)
        × (reason_text reason ≡ family_fault_text fault)) }
{
    match fault {
        FamilyFault::Keys(place) => Some(item_reason("Y1", "Keys", place)),
        FamilyFault::Member(place) => Some(item_reason("Y2", "Member", place)),
        FamilyFault::Memory => None,
    }
}

/// What is told of a timeline that has more record frames than a pull list is made of.
pub fn pull_frames_reason() -> Reason
    ensures { reason_text result ≡ pull_frames_text }
{
    bare_reason("U1", "Frames")
}

/// A record point is no label at the record rate.
pub fn range_reason() -> Reason
    ensures { reason_text result ≡ range_text }
{
    bare_reason("X4", "Range")
}

// A code and a word alone.
fn bare_reason(code: &'static str, word: &'static str) -> Reason
    ensures { reason_text result ≡ refusal code.now word.now [] }
{
    Reason {
        code,
        word,
        detail: Detail::Nothing,
    }
}

// A fault of the whole object.
fn root_reason(code: &'static str, word: &'static str) -> Reason
    ensures { reason_text result ≡ refusal code.now word.now (item_text []) }
{
    Reason {
        code,
        word,
        detail: Detail::Root,
    }
}

// A fault at an offset.
fn number_reason(code: &'static str, word: &'static str, number: u64) -> Reason
    ensures { reason_text result ≡ refusal code.now word.now (number_text number) }
{
    Reason {
        code,
        word,
        detail: Detail::Number(number),
    }
}

// A fault at a line.
fn line_reason(code: &'static str, word: &'static str, line: u32) -> Reason
    ensures { reason_text result ≡ refusal code.now word.now (number_text line) }
{
    number_reason(code, word, u64::from(line))
}

// A fault at a line, of the item at a place.
fn line_at_reason(code: &'static str, word: &'static str, line: u32, place: Place) -> Reason
    ensures { reason_text result ≡ refusal code.now word.now (line_at_text line place) }
{
    Reason {
        code,
        word,
        detail: Detail::LineAt(line, place),
    }
}

// A fault of the item at a place.
fn item_reason(code: &'static str, word: &'static str, place: Place) -> Reason
    ensures { reason_text result ≡ refusal code.now word.now (item_text place) }
{
    Reason {
        code,
        word,
        detail: Detail::At(place),
    }
}

// A fault of a member of the item at a place.
fn member_reason(code: &'static str, word: &'static str, place: Place, member: Text) -> Reason
    ensures { reason_text result ≡ refusal code.now word.now (field_text place member) }
{
    Reason {
        code,
        word,
        detail: Detail::Member(place, member),
    }
}
