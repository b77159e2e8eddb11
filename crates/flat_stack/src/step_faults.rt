//! Why timelines don't become one, or a step can't be done.

ghost use Rattle.std.specs.Prelude.{◌≡◌, ◌≢◌};
ghost use Rattle.flat.specs.declared.faults.FlatFault as flat_fault;
ghost use Rattle.flat_stack.specs.Chains.{Told};

use coord::CoordFault;
use flat::FlatFault;

/// Why nothing comes of timelines.
#[derive(Drop)]
pub enum ToolFault {
    /// An input can't be joined, or a step can't be done with what came of the inputs. The fault is
    /// never [`FlatFault::Memory`].
    At {
        /// Which input it lies in, counted from 0; 0 for what came of the inputs.
        input: usize,
        /// What is wrong.
        fault: FlatFault,
    },
    /// There would be more than 100 000 items.
    Items,
    /// The joined timeline isn't sound. The fault is never
    /// [`CoordFault::Memory`].
    Unsound(CoordFault),
    /// Memory ran out.
    Memory,
}

/// The fault at an input.
pub(crate) fn at(input: usize, fault: FlatFault) -> ToolFault
    ensures { Told (λ told. (fault ≢ FlatFault.Memory) × (told ≡ ToolFault.At input fault))
        result }
{
    match fault {
        FlatFault::Memory => ToolFault::Memory,
        _ => ToolFault::At { input, fault },
    }
}

/// The fault of a timeline.
pub(crate) fn unsound(fault: CoordFault) -> ToolFault
    ensures { Told (λ told. (fault ≢ CoordFault.Memory) × (told ≡ ToolFault.Unsound fault))
        result }
{
    match fault {
        CoordFault::Memory => ToolFault::Memory,
        _ => ToolFault::Unsound(fault),
    }
}
