//! Old objects of each kind, and what stands beside them.

use crate::values::{are_the_same, value_of};
use schema_up::upgrade;
use std::alloc::{AllocError, Global};
use std::process::Abort;
use std::test::Fail;

/// Values, and what they become.
const UPGRADED: [(&str, &str); 4] = [
    (
        "{\"OTIO_SCHEMA\":\"Clip.1\",\"media_reference\":null,\"name\":true}",
        "{\"OTIO_SCHEMA\":\"Clip.2\",\"name\":true,
        \"media_references\":{\"DEFAULT_MEDIA\":{\"OTIO_SCHEMA\":\"MissingReference.1\"}},
        \"active_media_reference_key\":\"DEFAULT_MEDIA\"}",
    ),
    (
        "{\"OTIO_SCHEMA\":\"Clip.01\",\"active_media_reference_key\":null,
        \"media_references\":false,\"name\":true,\"media_reference\":{\"OTIO_SCHEMA\":\"Filler.1\"}}",
        "{\"OTIO_SCHEMA\":\"Clip.2\",\"name\":true,
        \"media_references\":{\"DEFAULT_MEDIA\":{\"OTIO_SCHEMA\":\"Gap.1\"}},
        \"active_media_reference_key\":\"DEFAULT_MEDIA\"}",
    ),
    (
        "{\"OTIO_SCHEMA\":\"SerializeableCollection.9\",\"children\":[
        {\"OTIO_SCHEMA\":\"Sequence.007\",\"children\":[{\"OTIO_SCHEMA\":\"Filler.1\"},null]},
        {\"OTIO_SCHEMA\":\"Sequence\"}]}",
        "{\"OTIO_SCHEMA\":\"SerializableCollection.9\",\"children\":[
        {\"OTIO_SCHEMA\":\"Track.007\",\"children\":[{\"OTIO_SCHEMA\":\"Gap.1\"},null]},
        {\"OTIO_SCHEMA\":\"Sequence\"}]}",
    ),
    (
        "{\"OTIO_SCHEMA\":\"Timeline.1\",\"tracks\":{\"OTIO_SCHEMA\":\"Stack.1\",\"markers\":[
        {\"marked_range\":null,\"range\":true,\"OTIO_SCHEMA\":\"Marker.1\"},
        {\"OTIO_SCHEMA\":\"Marker.0\",\"range\":null}]}}",
        "{\"OTIO_SCHEMA\":\"Timeline.1\",\"tracks\":{\"OTIO_SCHEMA\":\"Stack.1\",\"markers\":[
        {\"marked_range\":true,\"OTIO_SCHEMA\":\"Marker.2\"},
        {\"OTIO_SCHEMA\":\"Marker.0\",\"range\":null}]}}",
    ),
];

/// Values that stay: no old object stands where one is rewritten, and other schemas.
const KEPT: [&str; 7] = [
    "{\"OTIO_SCHEMA\":\"Clip.2\",\"metadata\":{\"OTIO_SCHEMA\":\"Clip.1\",\"children\":null},
    \"effects\":[{\"OTIO_SCHEMA\":\"Filler.1\"}],
    \"media_reference\":{\"OTIO_SCHEMA\":\"Sequence.1\"},\"markers\":{\"OTIO_SCHEMA\":\"Marker.1\"}}",
    "{\"OTIO_SCHEMA\":\"Clip.1.0\"}",
    "{\"OTIO_SCHEMA\":\"Clip.\"}",
    "{\"OTIO_SCHEMA\":\"Clip.0000000001\"}",
    "{\"OTIO_SCHEMA\":\"Clip.+1\"}",
    "{\"OTIO_SCHEMA\":\".1\"}",
    "{\"OTIO_SCHEMA\":\"clip.1\"}",
];

fn becomes(rt: &impl Abort, alloc: Global, old: &str, new: &str) {
    let upgraded = upgrade(alloc, value_of(rt, alloc, old)).expect(rt, "memory");
    let wanted = value_of(rt, alloc, new);
    are_the_same(rt, alloc, &upgraded, &wanted);
    drop(upgraded);
    drop(wanted);
}

#[test]
fn old_objects_become_new_ones(rt: HostRuntime) {
    for &(old, new) in UPGRADED.iter() {
        becomes(&rt, rt.alloc(), old, new);
    }
}

#[test]
fn others_are_kept(rt: HostRuntime) {
    for &text in KEPT.iter() {
        becomes(&rt, rt.alloc(), text, text);
    }
}

// A composition in compositions that begin in this way, 60 deep.
fn deep(alloc: Global, front: &str) -> Result<String, AllocError> {
    let mut text = String::new(alloc);
    for _ in 0..60 {
        text.push_str(front)?;
    }
    for _ in 0..60 {
        text.push_str("]}")?;
    }
    Ok(text)
}

#[test]
fn deep_objects(rt: HostRuntime) -> Result<(), Fail> {
    let alloc = rt.alloc();
    let old = deep(alloc, "{\"OTIO_SCHEMA\":\"Sequence.1\",\"children\":[")?;
    let new = deep(alloc, "{\"OTIO_SCHEMA\":\"Track.1\",\"children\":[")?;
    becomes(&rt, alloc, old.as_str(), new.as_str());
    drop(old);
    drop(new);
    Ok(())
}
