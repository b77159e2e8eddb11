//! The texts of timelines.

use itoa::Buffer;
use std::alloc::{AllocError, Global};

// A timeline up to its tracks, and a track up to its children.
const ROOT: &str =
    "{\"OTIO_SCHEMA\":\"Timeline.1\",\"tracks\":{\"OTIO_SCHEMA\":\"Stack.1\",\"children\":[";

const TRACK: &str = "{\"OTIO_SCHEMA\":\"Track.1\",\"children\":[";

// Adds texts, one after another.
fn put_parts(text: &mut String, parts: &[&str]) -> Result<(), AllocError> {
    for part in parts {
        text.push_str(part)?;
    }
    Ok(())
}

// The JSON of a time at 24 frames a second.
fn put_time(text: &mut String, frames: u32) -> Result<(), AllocError> {
    let mut digits = Buffer::new();
    let front = "{\"OTIO_SCHEMA\":\"RationalTime.1\",\"rate\":24,\"value\":";
    put_parts(text, &[front, digits.format(frames), "}"])
}

// The JSON of a span of so many frames.
fn put_span(text: &mut String, start: u32, length: u32) -> Result<(), AllocError> {
    text.push_str("{\"OTIO_SCHEMA\":\"TimeRange.1\",\"start_time\":")?;
    put_time(text, start)?;
    text.push_str(",\"duration\":")?;
    put_time(text, length)?;
    text.push_str("}")
}

// A gap of so many frames.
fn put_gap(text: &mut String, length: u32) -> Result<(), AllocError> {
    text.push_str("{\"OTIO_SCHEMA\":\"Gap.1\",\"source_range\":")?;
    put_span(text, 0, length)?;
    text.push_str("}")
}

// A clip of media that are there from 0 for 240 frames.
fn put_clip(text: &mut String, start: u32, length: u32, url: &str) -> Result<(), AllocError> {
    text.push_str("{\"OTIO_SCHEMA\":\"Clip.2\",\"source_range\":")?;
    put_span(text, start, length)?;
    text.push_str(
        ",\"media_references\":{\"DEFAULT_MEDIA\":{\"OTIO_SCHEMA\":\"ExternalReference.1\",\"available_range\":",
    )?;
    put_span(text, 0, 240)?;
    put_parts(text, &[",\"target_url\":\"", url, "\"}}"])
}

// What stands between two clips with a dissolve: its offsets before and after the cut.
fn put_cross(text: &mut String, offsets: [u32; 2]) -> Result<(), AllocError> {
    let [before, after] = offsets;
    text.push_str("},{\"OTIO_SCHEMA\":\"Transition.1\",\"in_offset\":")?;
    put_time(text, before)?;
    text.push_str(",\"out_offset\":")?;
    put_time(text, after)?;
    text.push_str("},")
}

// A track of two clips of these starts and lengths, with a dissolve between them.
fn put_crossed(
    text: &mut String,
    starts: [u32; 2],
    lengths: [u32; 2],
    offsets: [u32; 2],
) -> Result<(), AllocError> {
    text.push_str(TRACK)?;
    put_clip(text, starts[0], lengths[0], "a.mov")?;
    put_cross(text, offsets)?;
    put_clip(text, starts[1], lengths[1], "b.mov")?;
    text.push_str("}]}")
}

// A gap of 72 frames and a clip of 12 frames at twice its speed.
fn put_fast(text: &mut String) -> Result<(), AllocError> {
    text.push_str(TRACK)?;
    put_gap(text, 72)?;
    text.push_str(",")?;
    put_clip(text, 40, 12, "c.mov")?;
    text.push_str(",\"effects\":[{\"OTIO_SCHEMA\":\"LinearTimeWarp.1\",\"time_scalar\":2.0}]}]}")
}

fn put_crossed_track(
    text: &mut String,
    lengths: [u32; 2],
    offsets: [u32; 2],
) -> Result<(), AllocError> {
    text.push_str(ROOT)?;
    put_crossed(text, [0, 0], lengths, offsets)?;
    text.push_str("]}}")
}

/// A track of two clips with a dissolve between them: their lengths, and the offsets before and
/// after the cut.
pub fn crossed_track(
    alloc: Global,
    lengths: [u32; 2],
    offsets: [u32; 2],
) -> Result<String, AllocError> {
    let mut text = String::new(alloc);
    put_crossed_track(&mut text, lengths, offsets)?;
    Ok(text)
}

fn put_two_layers(text: &mut String) -> Result<(), AllocError> {
    text.push_str(ROOT)?;
    text.push_str(TRACK)?;
    put_clip(text, 0, 100, "a.mov")?;
    text.push_str("}]},{\"OTIO_SCHEMA\":\"Track.1\",\"children\":[")?;
    put_gap(text, 20)?;
    text.push_str(",")?;
    put_clip(text, 0, 30, "c.mov")?;
    text.push_str("}]}]}}")
}

/// A track of a clip of 100 frames, and above it one of a gap of 20 frames and a clip of 30.
pub fn two_layers(alloc: Global) -> Result<String, AllocError> {
    let mut text = String::new(alloc);
    put_two_layers(&mut text)?;
    Ok(text)
}

fn put_three_tracks(text: &mut String) -> Result<(), AllocError> {
    text.push_str("{\"OTIO_SCHEMA\":\"Timeline.1\",\"global_start_time\":")?;
    put_time(text, 86400)?;
    text.push_str(",\"tracks\":{\"OTIO_SCHEMA\":\"Stack.1\",\"children\":[")?;
    put_crossed(text, [24, 100], [48, 48], [6, 6])?;
    text.push_str(",")?;
    put_fast(text)?;
    text.push_str(",{\"OTIO_SCHEMA\":\"Track.1\",\"kind\":\"Audio\",\"children\":[")?;
    put_clip(text, 0, 96, "a.wav")?;
    text.push_str("}]}]}}")
}

/// A timeline that starts at frame 86400: two clips of 48 frames with a dissolve of 12 between
/// them, the fast clip after its gap, and sound.
pub fn three_tracks(alloc: Global) -> Result<String, AllocError> {
    let mut text = String::new(alloc);
    put_three_tracks(&mut text)?;
    Ok(text)
}

fn put_one_track(text: &mut String, items: &[(&str, u32, u32)]) -> Result<(), AllocError> {
    text.push_str(ROOT)?;
    text.push_str(TRACK)?;
    let mut lead = "";
    for (url, start, length) in items {
        text.push_str(lead)?;
        lead = ",";
        put_clip(text, *start, *length, url)?;
        text.push_str("}")?;
    }
    text.push_str("]}]}}")
}

/// A track of a clip of each of these media, starts and lengths.
pub fn one_track(alloc: Global, items: &[(&str, u32, u32)]) -> Result<String, AllocError> {
    let mut text = String::new(alloc);
    put_one_track(&mut text, items)?;
    Ok(text)
}

// Twenty frames of a composition at twice its speed, of a track of two clips of 30 frames.
fn put_stack(text: &mut String) -> Result<(), AllocError> {
    text.push_str("{\"OTIO_SCHEMA\":\"Stack.1\",\"source_range\":")?;
    put_span(text, 0, 20)?;
    text.push_str(",\"effects\":[{\"OTIO_SCHEMA\":\"LinearTimeWarp.1\",\"time_scalar\":2.0}],")?;
    text.push_str("\"children\":[{\"OTIO_SCHEMA\":\"Track.1\",\"children\":[")?;
    put_clip(text, 0, 30, "q.mov")?;
    text.push_str("},")?;
    put_clip(text, 0, 30, "r.mov")?;
    text.push_str("}]}]}")
}

fn put_nested_track(text: &mut String) -> Result<(), AllocError> {
    text.push_str(ROOT)?;
    text.push_str(TRACK)?;
    put_clip(text, 0, 10, "p.mov")?;
    text.push_str("},")?;
    put_stack(text)?;
    text.push_str(",")?;
    put_clip(text, 0, 10, "z.mov")?;
    text.push_str("}]}]}}")
}

/// A track of a clip, such a composition, and a clip.
pub fn nested_track(alloc: Global) -> Result<String, AllocError> {
    let mut text = String::new(alloc);
    put_nested_track(&mut text)?;
    Ok(text)
}

fn put_gaps(text: &mut String, count: usize) -> Result<(), AllocError> {
    text.push_str(r#"{"OTIO_SCHEMA":"Timeline.1","tracks":{"OTIO_SCHEMA":"Stack.1","children":["#)?;
    for index in 0..count {
        if index > 0 {
            text.push_str(",")?;
        }
        text.push_str(r#"{"OTIO_SCHEMA":"Gap.1"}"#)?;
    }
    text.push_str("]}}")
}

/// A timeline of so many gaps.
pub fn gaps(alloc: Global, count: usize) -> Result<String, AllocError> {
    let mut text = String::new(alloc);
    put_gaps(&mut text, count)?;
    Ok(text)
}
