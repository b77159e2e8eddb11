// Objects that are written.
ghost use Rattle.std.specs.Prelude.{◌≡◌, ◌≢◌, ℕ, List, IfOk};
ghost use Rattle.schema_write.specs.OldForms.{IsOldFault};
ghost use Rattle.source_files.specs.Faults.{family_fault_text};
ghost use Rattle.source_files.specs.Reading.{IsRefused};
ghost use Rattle.otio_tools.specs.Objects.{AnswersObject};
ghost use Rattle.otio_tools.specs.Plan.{AreRows, Fits, IsDesk, Suffices};

use crate::planning::Planned;
use otio_model::Object;
use schema_write::{FamilyFault, old_form};
use source_files::{Refusal, family_reason};
use std::alloc::Global;
use std::mem;

/// What is to be sent of an object that is written, in the older family or the newer one: it, or
/// the first item of it that has no form in the older family.
pub fn object_to_write(alloc: Global, object: Object, older: bool) -> Result<Planned, Refusal>
    ensures owed { (name : List ℕ) → Suffices (λ target answer.
        AnswersObject older name target object answer) name result }
    ensures fits { IfOk result (λ planned. Fits planned) }
    ensures kind { IfOk result (λ planned. AreRows planned → ⊥) }
    ensures desk { IfOk result (λ planned. IsDesk planned → ⊥) }
{
    if !older {
        return Ok(Planned::Root(object));
    }
    match old_form(alloc, &object) {
        Ok(()) => Ok(Planned::OldRoot(object)),
        Err(fault) => {
            mem::forget(object);
            Err(not_written(fault))
        }
    }
}

// How an object without a form in the older family is refused.
fn not_written(fault: FamilyFault) -> Refusal
    ensures { IsRefused (λ why. (fault ≢ FamilyFault.Memory)
        × (why ≡ family_fault_text fault)) result }
{
    match family_reason(fault) {
        Some(reason) => Refusal::Broken(reason),
        None => Refusal::Memory,
    }
}
