// The forms of objects that hold objects or have an old form, and what stands at their members.
ghost use Rattle.std.specs.Prelude.{◌≡◌, if◌then◌else◌, [], MatchOption};
ghost use Rattle.std.specs.List.{after_first};
ghost use Rattle.std.specs.Option.{option_copied};
ghost use Rattle.std.specs.Str.{bytes_eq};
ghost use Rattle.schema_up.specs.Names.{is_point, named, schema_in, schema_named, schema_text as text_in, version_in, IsSplit};
ghost use Rattle.schema_up.specs.UpgradeRows.{clip_row_of, parent_row_of, where_holds};

use json_value::{Json, Members};

// An old form comes first with `Old` or `First` in its name.
#[derive(Clone, Copy)]
pub enum Form {
    Timeline,
    Collection,
    OldCollection,
    Stack,
    Track,
    Sequence,
    FirstClip,
    Clip,
    Gap,
    Filler,
    FirstMarker,
    Other,
}

// What stands at a place.
#[derive(Clone, Copy)]
pub enum Row {
    // A value that is kept as it is.
    Kept,
    // An object.
    Object,
    // A list of objects.
    Objects,
    // Objects under names.
    Media,
}

// Whether two texts are one.
fn is(text: &str, other: &str) -> bool
    ensures { result ≡ bytes_eq text.now other.now }
{
    text == other
}

/// The text of the member `OTIO_SCHEMA`, where that is a string.
pub fn schema_text(members: &Members) -> Option<&str>
    ensures { option_copied result ≡ text_in members.now }
{
    match members.get("OTIO_SCHEMA")? {
        Json::Str(text) => Some(text.as_str()),
        _ => None,
    }
}

/// The schema that an object's members name.
pub fn schema_of(members: &Members) -> Form
    ensures { result ≡ schema_in members.now }
{
    match schema_text(members) {
        Some(text) => schema_of_text(text),
        None => Form::Other,
    }
}

// What stands before the first point of a text, and what stands behind it; none where there is no
// point.
#[tactic(auto, using(crate::proofs::Points::at_point))]
fn split_point(text: &str) -> Option<(&str, &str)>
    ensures { MatchOption result (after_first is_point text.now ≡ [])
        (λ parts. IsSplit text.now parts.0.now parts.1.now) }
{
    text.split_once('.')
}

/// What stands behind the first point of a text; nothing where there is no point.
pub fn behind_point(text: &str) -> &str
    ensures { result.now ≡ after_first is_point text.now }
{
    match split_point(text) {
        Some((_, behind)) => behind,
        None => "",
    }
}

// The schema that a text names.
fn schema_of_text(text: &str) -> Form
    ensures { result ≡ schema_named text.now }
{
    let Some((name, digits)) = split_point(text) else {
        return Form::Other;
    };
    match version_of(digits.as_bytes()) {
        Some(version) => schema_of_name(name, version == 1),
        None => Form::Other,
    }
}

// The number that one to nine digits write; none of other bytes.
fn version_of(digits: &[u8]) -> Option<u32>
    ensures { result ≡ version_in digits.now }
{
    if digits.is_empty() || digits.len() > 9 {
        return None;
    }
    let mut version = 0;
    for digit in digits {
        if !digit.is_ascii_digit() {
            return None;
        }
        version = version * 10 + u32::from(*digit - b'0');
    }
    Some(version)
}

// The schema of the first version, or that of the others.
fn of_version(first: bool, one: Form, others: Form) -> Form
    ensures { result ≡ (if first then one else others) }
{
    if first { one } else { others }
}

// The schema of a name, in its first version or another.
fn schema_of_name(name: &str, first: bool) -> Form
    ensures { result ≡ named name.now first }
{
    if is(name, "Clip") {
        return of_version(first, Form::FirstClip, Form::Clip);
    }
    if is(name, "Marker") {
        return of_version(first, Form::FirstMarker, Form::Other);
    }
    if is(name, "Gap") {
        return Form::Gap;
    }
    if is(name, "Track") {
        return Form::Track;
    }
    if is(name, "Stack") {
        return Form::Stack;
    }
    if is(name, "Timeline") {
        return Form::Timeline;
    }
    if is(name, "SerializableCollection") {
        return Form::Collection;
    }
    if is(name, "Filler") {
        return Form::Filler;
    }
    if is(name, "Sequence") {
        return Form::Sequence;
    }
    if is(name, "SerializeableCollection") {
        return Form::OldCollection;
    }
    Form::Other
}

impl Form {
    ghost use Rattle.std.specs.Prelude.{Bool};
    ghost use Rattle.schema_up.specs.UpgradeRows.{row_of};

    /// What stands at the member of that name in an object of this schema.
    pub fn row(self, member: &str) -> Row
        ensures { result ≡ row_of self member.now }
    {
        match self {
            Form::Timeline => row_where(is(member, "tracks"), Row::Object),
            Form::Collection | Form::OldCollection => {
                row_where(is(member, "children"), Row::Objects)
            }
            Form::Stack | Form::Track | Form::Sequence => parent_row(member),
            Form::FirstClip => clip_row(member, "media_reference", Row::Object),
            Form::Clip => clip_row(member, "media_references", Row::Media),
            Form::Gap | Form::Filler => row_where(is(member, "markers"), Row::Objects),
            Form::FirstMarker | Form::Other => Row::Kept,
        }
    }
}

// That row where a test holds, else a value that is kept.
fn row_where(holds: bool, row: Row) -> Row
    ensures { result ≡ where_holds holds row }
{
    if holds { row } else { Row::Kept }
}

// What stands at a member of a stack or a track.
fn parent_row(member: &str) -> Row
    ensures { result ≡ parent_row_of member.now }
{
    if is(member, "children") {
        return Row::Objects;
    }
    row_where(is(member, "markers"), Row::Objects)
}

// What stands at a member of a clip whose media are at `media`.
fn clip_row(member: &str, media: &str, row: Row) -> Row
    ensures { result ≡ clip_row_of media.now row member.now }
{
    if is(member, media) {
        return row;
    }
    row_where(is(member, "markers"), Row::Objects)
}

impl Row {
    ghost use Rattle.schema_up.specs.UpgradeRows.{item_row, member_row};

    /// What stands at each item of a list at this place.
    pub fn item(self) -> Row
        ensures { result ≡ item_row self }
    {
        match self {
            Row::Objects => Row::Object,
            _ => Row::Kept,
        }
    }

    /// What stands at the member of that name of an object of this schema at this place.
    pub fn member(self, schema: Form, name: &str) -> Row
        ensures { result ≡ member_row self schema name.now }
    {
        match self {
            Row::Object => schema.row(name),
            Row::Media => Row::Object,
            _ => Row::Kept,
        }
    }
}
