//! Why a script stops.

use otio_model::EditFault;
use undo_log::UndoFault;

/// Why a script stops at a command, by the line that it stands on.
#[derive(Drop)]
pub enum CommandFault {
    /// P2: the clip that it puts in is of a reel that isn't listed, or no media list was given.
    NoReel(u32),
    /// P1: one of its times is more than a million seconds from 0.
    Line(u32),
    /// Its edit is refused. The fault is never [`EditFault::Memory`].
    Edit {
        /// The line of the command, counted from 1.
        line: u32,
        /// Why the edit is refused.
        fault: EditFault,
    },
    /// H1: there is nothing to undo. H2: there is nothing to redo.
    Undo {
        /// The line of the command, counted from 1.
        line: u32,
        /// Which of the two.
        fault: UndoFault,
    },
    /// Memory ran out.
    Memory,
}
