//! Whether an object has a form in the older family, and the first item that has none.

ghost use Rattle.std.specs.Prelude.{◌≡◌, ◌||◌, IfErr, OnOk, codes};
ghost use Rattle.std.specs.List.{list_any};
ghost use Rattle.otio_model.specs.declared.compositions.ItemOf.TheVariants as items;
ghost use Rattle.schema_write.specs.OldForms as forms;
ghost use Rattle.schema_write.specs.OldWalk.{AreOld, IsFound, IsUnder, into_item, into_items, into_object, into_objects};

use crate::old_faults::{FamilyFault, OldFault};
use coord::place_of;
use json_value::Members;
use otio_model::{Children, Clip, Item, ItemOf, Marker, Markers, MediaMap, Object, Place, Stack};
use std::alloc::Global;

/// What was found in an item or below it: the first item without a form in the older family.
#[derive(Drop)]
pub(crate) enum Found {
    /// Its fault, and the indexes that lead to it.
    At(Vec<u32>, OldFault),
    /// There is one, but memory ran out for these indexes.
    Memory,
}

// Whether a key is the one that the older family knows.
fn is_default(key: &str) -> bool
    ensures { result ≡ forms.is_default key.now }
{
    key == "DEFAULT_MEDIA"
}

// Whether there is exactly one reference, under that key.
fn is_one_default(media: &MediaMap) -> bool
    ensures { result ≡ forms.is_one_default media.now }
{
    match media.as_slice() {
        [pair] => is_default(pair.0.as_str()),
        _ => false,
    }
}

// Whether there is a member of that name.
fn has_member(members: &Members, name: &str) -> bool
    ensures { result ≡ forms.has_member name.now members.now }
{
    for member in members.as_slice() {
        if name == member.0.as_str() {
            return true;
        }
    }
    false
}

// Whether a known marker has another member `range`: one that its table has no row for.
fn has_range(marker: &Marker) -> bool
    ensures { result ≡ forms.has_range marker.now }
{
    match marker {
        Marker::Known(mark) => has_member(&mark.get().rest, "range"),
        Marker::Kept(_) => false,
    }
}

// Whether one of the markers has such a member.
fn have_range(markers: &[Marker]) -> bool
    ensures { result ≡ list_any forms.has_range markers.now }
{
    for marker in markers {
        if has_range(marker) {
            return true;
        }
    }
    false
}

// What stands in the way of the markers of an item.
fn markers_fault(markers: &Markers) -> Option<OldFault>
    ensures { result ≡ forms.markers_fault markers.now }
{
    if have_range(markers.as_slice()) {
        Some(OldFault::Member)
    } else {
        None
    }
}

// Whether the clip has exactly the one key.
fn has_one_key(clip: &Clip) -> bool
    ensures { result ≡ forms.has_one_key clip.now }
{
    is_one_default(&clip.media_references) && is_default(clip.active_media_reference_key.as_str())
}

// Whether another member of the clip is named `media_reference`, or one of its known markers
// `range`.
fn has_member_in_the_way(clip: &Clip) -> bool
    ensures { result ≡ (forms.has_member (codes "media_reference") clip.now.rest
        || list_any forms.has_range clip.now.markers) }
{
    has_member(&clip.rest, "media_reference") || have_range(clip.markers.as_slice())
}

// What stands in the way of a clip.
fn clip_fault(clip: &Clip) -> Option<OldFault>
    ensures { result ≡ forms.clip_fault clip.now }
{
    if !has_one_key(clip) {
        return Some(OldFault::Keys);
    }
    if has_member_in_the_way(clip) {
        return Some(OldFault::Member);
    }
    None
}

// What stands in the way of an item, whatever those below it have.
fn item_fault(item: &Item) -> Option<OldFault>
    ensures { result ≡ forms.old_fault_of item.now }
{
    match item {
        ItemOf::Clip(clip) => clip_fault(clip),
        ItemOf::Gap(gap) => markers_fault(&gap.markers),
        ItemOf::Transition(_) => None,
        ItemOf::Stack(stack) => markers_fault(&stack.markers),
        ItemOf::Track(track) => markers_fault(&track.markers),
    }
}

// What was found, seen from one level up.
fn under(index: usize, found: Found) -> Found
    ensures { IsUnder index found result }
{
    let Ok(index) = u32::try_from(index) else {
        return Found::Memory;
    };
    match found {
        Found::At(mut way, fault) => match way.insert(0, index) {
            Ok(()) => Found::At(way, fault),
            Err(_) => Found::Memory,
        },
        Found::Memory => Found::Memory,
    }
}

// Looks for the first item that has no form in the older family, among this one and those below
// it.
#[tactic(auto, using(crate::proofs::OldLemmas::old_with, crate::proofs::OldLemmas::old_alone, crate::proofs::OldLemmas::found_with, crate::proofs::OldLemmas::found_here))]
#[cycle(walk)]
fn walk_item(alloc: Global, item: &Item) -> Result<(), Found>
    ensures ok { OnOk result (AreOld (into_item item.now)) }
    ensures found { IfErr result (IsFound (into_item item.now)) }
{
    match item_fault(item) {
        Some(fault) => Err(Found::At(Vec::new(alloc), fault)),
        None => match item.children() {
            Some(children) => match walk_children(alloc, children) {
                Ok(()) => Ok(()),
                Err(found) => Err(found),
            },
            None => Ok(()),
        },
    }
}

// Looks for it among children and those below them.
#[tactic(auto, using(crate::proofs::OldLemmas::old_next, crate::proofs::OldLemmas::old_all, crate::proofs::OldLemmas::found_under))]
#[cycle(walk)]
fn walk_children(alloc: Global, children: &Children) -> Result<(), Found>
    ensures ok { OnOk result (AreOld (into_items children.now)) }
    ensures found { IfErr result (IsFound (into_items children.now)) }
{
    'children: for index in 0..children.len() {
        match walk_item(alloc, children.child(index)) {
            Ok(()) => {}
            Err(found) => return Err(under(index, found)),
        }
    }
    Ok(())
}

// Looks for it in a timeline's root stack.
#[tactic(auto, using(crate::proofs::OldLemmas::old_with, crate::proofs::OldLemmas::found_with, crate::proofs::OldLemmas::found_here))]
fn walk_stack(alloc: Global, stack: &Stack) -> Result<(), Found>
    ensures ok { OnOk result (AreOld (into_item (items.Stack stack.now))) }
    ensures found { IfErr result (IsFound (into_item (items.Stack stack.now))) }
{
    match markers_fault(&stack.markers) {
        Some(fault) => Err(Found::At(Vec::new(alloc), fault)),
        None => walk_children(alloc, &stack.children),
    }
}

// Looks for it in an object.
#[tactic(auto, using(crate::proofs::OldLemmas::old_timeline, crate::proofs::OldLemmas::old_item, crate::proofs::OldLemmas::old_collection, crate::proofs::OldLemmas::found_timeline, crate::proofs::OldLemmas::found_item, crate::proofs::OldLemmas::found_collection))]
#[cycle(walk_object)]
fn walk_object(alloc: Global, object: &Object) -> Result<(), Found>
    ensures ok { OnOk result (forms.HasOldForm object.now) }
    ensures found { IfErr result (IsFound (into_object object.now)) }
{
    match object {
        Object::Timeline(timeline) => walk_stack(alloc, &timeline.tracks),
        Object::Collection(collection) => walk_objects(alloc, collection.children.as_slice()),
        Object::Item(item) => walk_item(alloc, item),
    }
}

// Looks for it in the objects of a collection.
#[tactic(auto, using(crate::proofs::OldLemmas::old_next, crate::proofs::OldLemmas::old_all, crate::proofs::OldLemmas::found_under))]
#[cycle(walk_object)]
fn walk_objects(alloc: Global, objects: &[Object]) -> Result<(), Found>
    ensures ok { OnOk result (AreOld (into_objects objects.now)) }
    ensures found { IfErr result (IsFound (into_objects objects.now)) }
{
    'objects: for (index, object) in objects.iter().enumerate() {
        match walk_object(alloc, object) {
            Ok(()) => {}
            Err(found) => return Err(under(index, found)),
        }
    }
    Ok(())
}

// The fault of an item as that of its object.
fn fault_at(place: Place, fault: OldFault) -> FamilyFault
    ensures { result ≡ forms.fault_at place fault }
{
    match fault {
        OldFault::Keys => FamilyFault::Keys(place),
        OldFault::Member => FamilyFault::Member(place),
    }
}

/// Looks whether the object has a form in the older family (`Clip.1`, `Marker.1`). Where it has
/// one, the search takes no memory.
///
/// # Errors
/// [`FamilyFault::Keys`] or [`FamilyFault::Member`] at the first item, in document order, that has
/// no form there, `Keys` before `Member` at one item. [`FamilyFault::Memory`] where memory runs out
/// while the place of that item is made.
pub fn old_form(alloc: Global, object: &Object) -> Result<(), FamilyFault>
    ensures ok { OnOk result (forms.HasOldForm object.now) }
    ensures fault { IfErr result (forms.IsOldFault object.now) }
{
    match walk_object(alloc, object) {
        Ok(()) => Ok(()),
        Err(Found::Memory) => Err(FamilyFault::Memory),
        Err(Found::At(way, fault)) => match place_of(alloc, way.as_slice()) {
            Some(place) => Err(fault_at(place, fault)),
            None => Err(FamilyFault::Memory),
        },
    }
}
