//! Calls on objects that no command makes: their JSON values, also in the older family.

use crate::texts::{OLDER, REWRITTEN};
use crate::timelines::gaps;
use dev_io::{MemFiles, MemOut};
use json_text::write_json;
use otio_model::Object;
use schema_write::{FamilyFault, json_of, json_of_old};
use source_files::object_file;
use std::alloc::{AllocError, Global};
use std::mem::forget;
use std::test::Fail;

// Whether bytes are those of a text, blanks and line feeds aside.
fn is_squeezed(bytes: &[u8], text: &[u8]) -> bool {
    let mut rest = text;
    for byte in bytes {
        if *byte != b' ' && *byte != b'\n' {
            match rest.split_first() {
                Some((first, after)) => {
                    if first != byte {
                        return false;
                    }
                    rest = after;
                }
                None => return false,
            }
        }
    }
    rest.is_empty()
}

// The object that the file `a.otio` stands for; none where it stands for none.
fn root_of(alloc: Global, files: &mut MemFiles) -> Option<Object> {
    match object_file(alloc, "a.otio", files) {
        Ok(object) => Some(object),
        Err(_) => None,
    }
}

// The object that a text stands for; none where it stands for none.
fn object_in(alloc: Global, text: &[u8]) -> Result<Option<Object>, AllocError> {
    let mut files = MemFiles::new(alloc);
    files.put("a.otio", text)?;
    let object = root_of(alloc, &mut files);
    drop(files);
    Ok(object)
}

// Writes the JSON value of a text's object; nothing where the text stands for none.
fn write_value(alloc: Global, text: &[u8], out: &mut MemOut) -> Result<(), AllocError> {
    if let Some(object) = object_in(alloc, text)? {
        let made = json_of(alloc, &object);
        forget(object);
        let value = made?;
        let _ = write_json(&value, out);
        drop(value);
    }
    Ok(())
}

// What is written of it, in room for so many bytes.
fn value_written(alloc: Global, text: &[u8], room: usize) -> Result<MemOut, AllocError> {
    let mut out = MemOut::new(alloc, room)?;
    write_value(alloc, text, &mut out)?;
    Ok(out)
}

#[test]
fn values_of_objects_are_written(rt: HostRuntime) -> Result<(), Fail> {
    for case in &REWRITTEN {
        let out = value_written(rt.alloc(), case.text.as_bytes(), 4000)?;
        assert!(rt; is_squeezed(out.sent(), case.written.as_bytes()));
        drop(out);
    }
    Ok(())
}

#[test]
fn a_timeline_of_1000_gaps_has_a_value(rt: HostRuntime) -> Result<(), Fail> {
    let alloc = rt.alloc();
    let text = gaps(alloc, 1_000)?;
    let written = value_written(alloc, text.as_bytes(), 400_000);
    drop(text);
    let out = written?;
    assert!(rt; out.sent().ends_with(b"}\n"));
    drop(out);
    Ok(())
}

// Writes the JSON value of a text's object in the older family; nothing where the text stands for
// no object. It is none where the object has no form there, or where memory runs out.
fn write_old_value(alloc: Global, text: &[u8], out: &mut MemOut) -> Result<(), AllocError> {
    if let Some(object) = object_in(alloc, text)? {
        let made = json_of_old(alloc, &object);
        forget(object);
        if let Ok(value) = made {
            let _ = write_json(&value, out);
            drop(value);
        }
    }
    Ok(())
}

#[test]
fn values_of_objects_are_written_in_the_older_family(rt: HostRuntime) -> Result<(), Fail> {
    for case in &OLDER {
        let mut out = MemOut::new(rt.alloc(), 8_000)?;
        write_old_value(rt.alloc(), case.text.as_bytes(), &mut out)?;
        assert!(rt;
            is_squeezed(out.sent(), case.older.as_bytes()),
            "{}",
            case.text
        );
        drop(out);
    }
    Ok(())
}

// The first index of the place of the clip whose references have no older form; none where there
// is no such clip.
fn index_of_keys(alloc: Global, text: &[u8]) -> Result<Option<u32>, AllocError> {
    let Some(object) = object_in(alloc, text)? else {
        return Ok(None);
    };
    let made = json_of_old(alloc, &object);
    forget(object);
    match made {
        Err(FamilyFault::Keys(place)) => Ok(place.index(0)),
        _ => Ok(None),
    }
}

#[test]
fn a_clip_without_an_older_form_is_named(rt: HostRuntime) -> Result<(), Fail> {
    let text =
        r#"{"OTIO_SCHEMA":"Track.1","children":[{"OTIO_SCHEMA":"Gap.1"},{"OTIO_SCHEMA":"Clip.2"}]}"#;
    let index = index_of_keys(rt.alloc(), text.as_bytes())?;
    assert!(rt; index == Some(1));
    Ok(())
}
