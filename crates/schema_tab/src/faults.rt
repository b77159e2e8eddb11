//! Faults at a place. Each is `Memory` where there is no memory for the place.

ghost use Rattle.std.specs.Prelude.{◌≡◌, ◌≢◌, ◌∷◌, ◌++◌, [], IfOk, IfErr};

use otio_model::{Place, copy_place};
use schema_rows::{Field, SchemaFault};
use sequences::Text;
use std::alloc::Global;

/// S4: the member of a row; `Memory` where there is no memory for the place and the name.
pub fn field_fault(alloc: Global, row: &Field, place: &Place) -> SchemaFault
    ensures { result ≢ SchemaFault.Memory → result ≡ SchemaFault.Field place.now row.now.name.now }
{
    let Ok(place) = copy_place(alloc, place) else {
        return SchemaFault::Memory;
    };
    match Text::of(alloc, row.name) {
        Ok(name) => SchemaFault::Field(place, name),
        Err(_) => SchemaFault::Memory,
    }
}

/// S3: a newer version; `Memory` where there is no memory for the place.
pub fn newer_fault(alloc: Global, place: &Place) -> SchemaFault
    ensures { result ≢ SchemaFault.Memory → result ≡ SchemaFault.Newer place.now }
{
    match copy_place(alloc, place) {
        Ok(place) => SchemaFault::Newer(place),
        Err(_) => SchemaFault::Memory,
    }
}

/// S5: a rate outside the profile; `Memory` where there is no memory for the place.
pub fn rate_fault(alloc: Global, place: &Place) -> SchemaFault
    ensures { result ≢ SchemaFault.Memory → result ≡ SchemaFault.Rate place.now }
{
    match copy_place(alloc, place) {
        Ok(place) => SchemaFault::Rate(place),
        Err(_) => SchemaFault::Memory,
    }
}

/// S6: a time out of range, a numeral that is too long, or a negative duration; `Memory` where
/// there is no memory for the place.
pub fn range_fault(alloc: Global, place: &Place) -> SchemaFault
    ensures { result ≢ SchemaFault.Memory → result ≡ SchemaFault.Range place.now }
{
    match copy_place(alloc, place) {
        Ok(place) => SchemaFault::Range(place),
        Err(_) => SchemaFault::Memory,
    }
}

/// S7: transitions that may not stand so; `Memory` where there is no memory for the place.
pub fn transitions_fault(alloc: Global, place: &Place) -> SchemaFault
    ensures { result ≢ SchemaFault.Memory → result ≡ SchemaFault.Transitions place.now }
{
    match copy_place(alloc, place) {
        Ok(place) => SchemaFault::Transitions(place),
        Err(_) => SchemaFault::Memory,
    }
}

/// S1: no object of a schema; `Memory` where there is no memory for the place.
pub fn not_object_fault(alloc: Global, place: &Place) -> SchemaFault
    ensures { result ≢ SchemaFault.Memory → result ≡ SchemaFault.NotObject place.now }
{
    match copy_place(alloc, place) {
        Ok(place) => SchemaFault::NotObject(place),
        Err(_) => SchemaFault::Memory,
    }
}

/// S2: an object of a schema that may not stand there; `Memory` where there is no memory for the
/// place.
pub fn unknown_fault(alloc: Global, place: &Place) -> SchemaFault
    ensures { result ≢ SchemaFault.Memory → result ≡ SchemaFault.UnknownChild place.now }
{
    match copy_place(alloc, place) {
        Ok(place) => SchemaFault::UnknownChild(place),
        Err(_) => SchemaFault::Memory,
    }
}

/// The place of a child. The one error is `Memory`, where memory runs out; in practice it comes for
/// each index from 2^32 on too, which no clause says.
pub fn child_place(alloc: Global, place: &Place, index: usize) -> Result<Place, SchemaFault>
    ensures place { IfOk result (λ here. here ≡ place.now ++ index ∷ []) }
    ensures memory { IfErr result (λ fault. fault ≡ SchemaFault.Memory) }
{
    let Ok(index) = u32::try_from(index) else {
        return Err(SchemaFault::Memory);
    };
    let mut here = copy_place(alloc, place)?;
    here.push(index)?;
    Ok(here)
}
