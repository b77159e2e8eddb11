//! Values of rows.

use crate::faults::SchemaFault;
use crate::schemas::Schema;
use json_value::Members;
use otio_model::{Effects, Items, Markers, Media, MediaMap, Objects, Stack};
use owned::Owned;
use sequences::{Sequence, Text};
use tick_time::{Decimal, Rate, Scalar, Span, Time};

/// What a row of a table holds, by its kind.
#[derive(Drop)]
pub enum Value {
    /// A string.
    Text(Text),
    /// A truth value.
    Flag(bool),
    /// An object that is kept word for word.
    Meta(Members),
    /// A range of time, or none.
    Span(Option<Span>),
    /// A time, or none.
    Time(Option<Time>),
    /// A speed.
    Number(Scalar),
    /// Items in order.
    Items(Items),
    /// Effects in order.
    Effects(Effects),
    /// Markers in order.
    Markers(Markers),
    /// Media references under their keys.
    Media(MediaMap),
    /// One media reference.
    Medium(Owned<Media>),
    /// A stack.
    Stack(Owned<Stack>),
    /// Objects in order.
    Objects(Objects),
    /// A rate.
    Rate(Rate),
    /// A decimal.
    Numeral(Decimal),
}

/// The values of a table's rows, in order.
pub type Values = Sequence<Value>;

/// What a row holds, or why it holds nothing.
pub type RowResult = Result<Value, SchemaFault>;

/// What an object holds: the values of its schema's rows, and all its other members.
#[derive(Drop)]
pub struct Fields {
    /// Its schema.
    pub schema: Schema,
    /// The values of the schema's rows, in the order of the table.
    pub values: Values,
    /// All other members, in the order in which they were read.
    pub rest: Members,
}

/// The fields of the object that a value is; none where it is of no schema that may stand there.
pub type Matched = Option<Fields>;
