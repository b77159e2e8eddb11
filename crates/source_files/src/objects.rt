// Objects of OpenTimelineIO in the file in hand.
ghost use Rattle.std.specs.Prelude.{◌≡◌, ◌≢◌, ◌≤◌, ℕ, List, IfOk};
ghost use Rattle.limits.specs.Limits.{most_items};
ghost use Rattle.json_value.specs.declared.Json.{Json as JsonValue};
ghost use Rattle.schema_up.specs.Upgrades.{upgraded};
ghost use Rattle.schema_rows.specs.Counts.{count_of};
ghost use Rattle.schema_rows.specs.Faults.{IsFirstFault};
ghost use Rattle.schema_rows.specs.Numerals.{HasNumerals};
ghost use Rattle.schema_rows.specs.Stands.{Stands};
ghost use Rattle.schema_rows.specs.declared.faults.SchemaFault.TheVariants.{Memory as WantOfMemory};
ghost use Rattle.source_files.specs.Formats.{IsObject, IsOfTables, IsTimeline, IsCalmJson, RefusesValue, RefusesObject, RefusesTimeline};
ghost use Rattle.source_files.specs.Hand.{Judges};
ghost use Rattle.source_files.specs.Following.{Follows};
ghost use Rattle.source_files.specs.HandedFiles.{HandsOver, GivesHand};
ghost use Rattle.source_files.specs.Values.{StandsAs};
ghost use Rattle.source_files.specs.Reading.{IsRefused, Raised};

use crate::json::read_json;
use crate::messages::{not_timeline_reason, schema_reason};
use crate::read_faults::{ReadFault, Refusal};
use dev_io::Files;
use json_value::Json;
use otio_model::{Object, Timeline};
use schema_rows::SchemaFault;
use schema_tab::object_of;
use schema_up::upgrade;
use std::alloc::Global;
use std::mem;

/// The object in the file in hand, of at most 100 000 items; or the first fault of its text, or
/// else of its value. The memory of its JSON value is given back where `frees` says so.
pub fn read_object<F: Files>(alloc: Global, files: &mut F, frees: bool) -> Result<Object, ReadFault>
    ensures few { IfOk result (λ object. count_of object ≤ most_items) }
    ensures stands { IfOk result (λ object.
        (value : JsonValue) × (upgraded value ≡ value) × Stands value object) }
    ensures given { HandsOver (GivesHand IsObject RefusesObject IsCalmJson result)
        (F.handed files.old) (F.handed files.new) }
    ensures followed { Follows (F.known files.old) (F.known files.new) (F.handed files.old)
        (F.handed files.new) }
    ensures cause { Raised result (F.faults files.old) (F.faults files.new) }
{
    match read_json(alloc, files) {
        Ok(value) => object_in(alloc, value, frees),
        Err(fault) => Err(fault),
    }
}

/// The timeline in the file in hand, of at most 100 000 items; or the first fault of its object, or
/// else that it is no timeline. The memory of its JSON value is given back where `frees` says so.
pub fn read_timeline<F: Files>(
    alloc: Global,
    files: &mut F,
    frees: bool,
) -> Result<Timeline, ReadFault>
    ensures tables { IfOk result IsOfTables }
    ensures given { HandsOver (GivesHand IsTimeline RefusesTimeline IsCalmJson result)
        (F.handed files.old) (F.handed files.new) }
    ensures followed { Follows (F.known files.old) (F.known files.new) (F.handed files.old)
        (F.handed files.new) }
    ensures cause { Raised result (F.faults files.old) (F.faults files.new) }
{
    match read_object(alloc, files, frees) {
        Ok(object) => timeline_in(object),
        Err(fault) => Err(fault),
    }
}

// The timeline that an object is.
fn timeline_in(object: Object) -> Result<Timeline, ReadFault>
    requires few { count_of object ≤ most_items }
    requires stands { (value : JsonValue) × (upgraded value ≡ value) × Stands value object }
    ensures judged { (bytes : List ℕ) → IsObject bytes object →
        Judges IsTimeline RefusesTimeline bytes result }
    ensures tables { IfOk result IsOfTables }
    ensures calm { (n : ℕ) → Raised result n n }
{
    match object {
        Object::Timeline(timeline) => Ok(timeline),
        Object::Collection(collection) => {
            mem::forget(collection);
            Err(ReadFault::Refused(Refusal::Broken(not_timeline_reason())))
        }
        Object::Item(item) => {
            mem::forget(item);
            Err(ReadFault::Refused(Refusal::Broken(not_timeline_reason())))
        }
    }
}

// The object that a value stands for, old names and versions included.
fn object_in(alloc: Global, value: Json, frees: bool) -> Result<Object, ReadFault>
    requires numerals { HasNumerals (upgraded value) }
    ensures stands { StandsAs (upgraded value) result }
    ensures few { IfOk result (λ object. count_of object ≤ most_items) }
    ensures calm { (n : ℕ) → Raised result n n }
{
    match upgrade(alloc, value) {
        Ok(value) => current_object_in(alloc, value, frees),
        Err(_) => Err(ReadFault::Refused(Refusal::Memory)),
    }
}

// The object that a value without old names and versions stands for.
fn current_object_in(alloc: Global, value: Json, frees: bool) -> Result<Object, ReadFault>
    requires numerals { HasNumerals value }
    ensures stands { StandsAs value result }
    ensures few { IfOk result (λ object. count_of object ≤ most_items) }
    ensures calm { (n : ℕ) → Raised result n n }
{
    let made = object_of(alloc, &value);
    if frees {
        drop(value);
    } else {
        mem::forget(value);
    }
    match made {
        Ok(object) => Ok(object),
        Err(fault) => Err(ReadFault::Refused(schema_refusal(fault))),
    }
}

// How the first fault of a value is refused.
fn schema_refusal(fault: SchemaFault) -> Refusal
    ensures { (value : JsonValue) → (fault ≢ WantOfMemory → IsFirstFault value fault) →
        IsRefused (RefusesValue value) result }
{
    match schema_reason(fault) {
        Some(reason) => Refusal::Broken(reason),
        None => Refusal::Memory,
    }
}
