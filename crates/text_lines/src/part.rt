// The parts of a slice of bytes before and behind an index, and the index of a byte.
ghost use Rattle.std.specs.Prelude.{◌≡◌, ◌==◌, ◌≤◌, take, drop, position, length, MatchOption};
ghost use Rattle.text_lines.specs.First.{HasNone, IsFirst, HasNoBlank, IsFirstBlank, is_blank as blank};

/// The bytes before an index.
#[inline]
pub fn before(bytes: &[u8], end: usize) -> &[u8]
    requires { end ≤ length bytes.now }
    ensures { result.now ≡ take end bytes.now }
{
    bytes.split_at(end).0
}

/// The bytes from an index on.
#[inline]
pub fn after(bytes: &[u8], start: usize) -> &[u8]
    requires { start ≤ length bytes.now }
    ensures { result.now ≡ drop start bytes.now }
{
    bytes.split_at(start).1
}

/// The index of the first byte that is this one; none where no byte is.
#[inline]
#[tactic(auto, using(crate::proofs::Places::first_is))]
pub fn first_byte(bytes: &[u8], byte: u8) -> Option<usize>
    ensures { MatchOption result (HasNone byte bytes.now) (IsFirst byte bytes.now) }
{
    position_of(bytes, byte)
}

/// The index of the first space or tab; none where no byte is one.
#[inline]
#[tactic(auto, using(crate::proofs::Places::first_blank_is))]
pub fn first_blank(bytes: &[u8]) -> Option<usize>
    ensures { MatchOption result (HasNoBlank bytes.now) (IsFirstBlank bytes.now) }
{
    blank_position(bytes)
}

/// Whether the byte is a space or a tab.
#[inline]
#[tactic(auto, using(crate::proofs::Places::blank_is))]
pub fn is_blank(byte: u8) -> bool
    ensures { result ≡ blank byte }
{
    byte == b' ' || byte == b'\t'
}

#[inline]
fn blank_position(bytes: &[u8]) -> Option<usize>
    ensures { result ≡ position blank bytes.now }
{
    bytes.iter().position(|b| is_blank(*b))
}

#[inline]
fn position_of(bytes: &[u8], byte: u8) -> Option<usize>
    ensures { result ≡ position (λ b. b == byte) bytes.now }
{
    bytes.iter().position(|b| *b == byte)
}
