//! Metadata that copies share, and the reel among few members and among many.

use crate::trees::{copied, played};
use coord::own_reel;
use json_value::Json;
use otio_model::{Clip, Effects, Item, ItemOf, MediaMap, Metadata, copy_item};
use owned::Owned;
use sequences::{NamedValues, Text};
use std::alloc::{AllocError, Global};
use std::process::Abort;
use std::test::Fail;

// Puts null at so many names of two letters.
fn put_names(alloc: Global, metadata: &mut Metadata, count: u8) -> Result<(), AllocError> {
    for index in 0..count {
        let mut name = String::new(alloc);
        name.push((b'a' + index / 26) as char)?;
        name.push((b'a' + index % 26) as char)?;
        metadata.put(alloc, Text::from_string(alloc, name)?, Json::Null)?;
    }
    Ok(())
}

// Puts a reel where lists look for it.
fn put_reel(alloc: Global, metadata: &mut Metadata, reel: &str) -> Result<(), AllocError> {
    let list = Text::of(alloc, "cmx_3600")?;
    let text = Text::of(alloc, reel)?;
    let members = NamedValues::one(alloc, "reel", Json::Str(text))?;
    metadata.put(alloc, list, Json::Map(Owned::of(alloc, members)?))
}

// A clip with so many members, which keeps the place of its reel, or that it has none.
fn named(alloc: Global, count: u8) -> Result<Clip, AllocError> {
    let mut metadata = Metadata::new(alloc);
    match put_names(alloc, &mut metadata, count) {
        Ok(()) => {}
        Err(fault) => {
            drop(metadata);
            return Err(fault);
        }
    }
    let media = MediaMap::new(alloc);
    let mut clip = played(alloc, Text::empty(), None, media, Effects::new(alloc));
    clip.metadata = metadata;
    clip.with_places(alloc)
}

// The same item, where it is a clip with this reel.
fn reeled(alloc: Global, item: Item, reel: &str) -> Result<Item, AllocError> {
    match item {
        ItemOf::Clip(mut clip) => match put_reel(alloc, &mut clip.metadata, reel) {
            Ok(()) => match clip.with_places(alloc) {
                Ok(clip) => Ok(ItemOf::Clip(clip)),
                Err(fault) => Err(fault),
            },
            Err(fault) => {
                drop(clip);
                Err(fault)
            }
        },
        other => Ok(other),
    }
}

// Holds whether an item has this reel.
fn reel_is(rt: &impl Abort, item: &Item, reel: &str, wanted: bool) {
    let found = match item {
        ItemOf::Clip(clip) => match own_reel(clip) {
            Some(text) => text.as_str() == reel,
            None => false,
        },
        _ => false,
    };
    assert!(rt; found == wanted);
}

// A copy of a copy gets a reel, which its first owner doesn't have.
fn copy_is_reeled(rt: &impl Abort, alloc: Global, first: Item) -> Result<(), AllocError> {
    let second = copied(alloc, copy_item(alloc, &first));
    reel_is(rt, &first, "T1", false);
    drop(first);
    let third = reeled(alloc, second?, "T1")?;
    reel_is(rt, &third, "T1", true);
    drop(third);
    Ok(())
}

#[test]
fn few_members_are_copied(rt: HostRuntime) -> Result<(), Fail> {
    let alloc = rt.alloc();
    let clip = named(alloc, 3)?;
    copy_is_reeled(&rt, alloc, ItemOf::Clip(clip))?;
    Ok(())
}

#[test]
fn many_members_are_shared(rt: HostRuntime) -> Result<(), Fail> {
    let alloc = rt.alloc();
    let clip = named(alloc, 200)?;
    copy_is_reeled(&rt, alloc, ItemOf::Clip(clip))?;
    Ok(())
}
