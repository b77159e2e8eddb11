// Why a file isn't read, or what was read isn't taken.
use crate::reasons::Reason;

/// Why what was read is refused.
#[derive(Drop)]
pub enum Refusal {
    /// It breaks a rule; this is what a message tells after the name of its file.
    Broken(Reason),
    /// No memory was left.
    Memory,
}

/// Why a file isn't read.
#[derive(Drop)]
pub enum ReadFault {
    /// There is no file of that name.
    Absent,
    /// Opening or reading it failed.
    Failed,
    /// It isn't what it is read as, or no memory was left.
    Refused(Refusal),
}

/// Why a command isn't carried out, and the name of the file of which that is told.
#[derive(Drop)]
pub struct SourceFault<'a> {
    /// The name of the file.
    pub name: &'a str,
    /// Why.
    pub fault: ReadFault,
}
