//! The faults of a reader of JSON text.

/// Why bytes are no text of JSON (RFC 8259) in UTF-8 of at most 127 levels and 33 554 432 bytes. An
/// offset counts bytes from 0 and is that of the first byte after which no continuation is such a
/// text.
#[derive(Clone, Copy, Debug, PartialEq, Eq)]
pub enum JsonFault {
    /// The byte at this offset breaks the grammar; or the bytes end here, and are no whole text.
    Syntax(u64),
    /// The byte at this offset breaks UTF-8 inside a string.
    Utf8(u64),
    /// The byte at this offset opens the 128th list or object.
    Depth(u64),
    /// There are more than 33 554 432 bytes, and no other fault is among these.
    Large,
    /// Memory ran out.
    Memory,
}
