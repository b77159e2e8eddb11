//! The text of a pull list.

ghost use Rattle.std.specs.Prelude.{◌≡◌, ◌≤◌, IfOk};
ghost use Rattle.dev_io.specs.Causes.{Rose};
ghost use Rattle.pull_list.specs.Lines.{stretches_text};
ghost use Rattle.pull_list.specs.Pulled.{stretches_of};

use crate::lines::write_pull;
use crate::spans::PullSpan;
use dev_io::{Failed, Out};
use std::alloc::{AllocError, Global};

// A stream into memory, as much as there is.
#[derive(Drop)]
struct TextOut {
    bytes: Vec<u8>,
    faults: u64,
}

impl TextOut {
    // Counts a fault.
    fn count_fault(&mut self)
        ensures bytes { self.new.bytes.items ≡ self.old.bytes.items }
        ensures later { self.old.faults ≤ self.new.faults }
        ensures rose { Rose self.old.faults self.new.faults }
    {
        self.faults = self.faults.saturating_add(1);
    }
}

impl Out for TextOut {
    ghost use Rattle.std.specs.Prelude.{Some, None};

    ghost known = { λ s. Some (record { target = None; sent = s.bytes.items }) };

    ghost faults = { λ s. s.faults };

    fn aim(&mut self, _name: &str) -> Result<(), Failed> {
        self.count_fault();
        Err(Failed)
    }

    fn write(&mut self, piece: &[u8]) -> Result<usize, Failed> {
        match self.bytes.extend_from_slice(piece) {
            Ok(()) => Ok(piece.len()),
            Err(_) => {
                self.count_fault();
                Err(Failed)
            }
        }
    }
}

/// The lines of spans, as [`write_pull`] sends them.
pub fn pull_text(alloc: Global, spans: &[PullSpan<'_>]) -> Result<Vec<u8>, AllocError>
    ensures { IfOk result (λ text. text.items ≡ stretches_text (stretches_of spans.now)) }
{
    let mut out = TextOut {
        bytes: Vec::new(alloc),
        faults: 0,
    };
    match write_pull(spans, &mut out) {
        Ok(()) => {
            let TextOut { bytes, .. } = out;
            Ok(bytes)
        }
        Err(_) => Err(AllocError),
    }
}
