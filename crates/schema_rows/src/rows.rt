//! Rows of tables.

/// A row of a schema's table.
#[derive(Clone, Copy)]
pub struct Field {
    /// The name of the member.
    pub name: &'static str,
    /// The kind of its values.
    pub kind: Kind,
    /// Whether an object must have the member. Any other member that is absent or null has the
    /// default of its kind.
    pub need: bool,
}

/// A kind of values.
#[derive(Clone, Copy)]
pub enum Kind {
    /// A string, with its default.
    Text(&'static str),
    /// A truth value; `true` by default.
    Flag,
    /// An object that is kept word for word; empty by default.
    Meta,
    /// A `TimeRange.1`; none by default.
    Span,
    /// A `RationalTime.1`; none by default.
    Time,
    /// A speed, with its default in millionths.
    Number(i64),
    /// A list of items; empty by default.
    Items,
    /// A list of effects; empty by default.
    Effects,
    /// A list of markers; empty by default.
    Markers,
    /// An object of media references; empty by default.
    Media,
    /// One media reference; a missing one by default.
    Medium,
    /// A `Stack.1`; by default one without children, named `tracks`.
    Stack,
    /// A list of objects; empty by default.
    Objects,
    /// A rate's numeral; it has no default.
    Rate,
    /// Any numeral; it has no default.
    Numeral,
}
