//! Copies that share memory: each is equal, and is changed alone.

use crate::trees::{copied, played, warp};
use otio_model::{Effects, Item, ItemOf, MediaMap, copy_item};
use owned::Shared;
use sequences::Text;
use std::alloc::{AllocError, Global};
use std::process::Abort;
use std::test::Fail;
use tick_time::Scalar;

// A clip of one effect, which doubles its speed.
fn doubled(alloc: Global) -> Result<Item, AllocError> {
    let list = vec![in alloc; warp(alloc, Scalar(2_000_000))?]?;
    let clip = played(
        alloc,
        Text::empty(),
        None,
        MediaMap::new(alloc),
        Effects::of(list),
    );
    Ok(ItemOf::Clip(clip))
}

// The same clip, of half the speed.
fn halved(alloc: Global, item: Item) -> Result<Item, AllocError> {
    match item {
        ItemOf::Clip(mut clip) => {
            let added = match warp(alloc, Scalar(500_000)) {
                Ok(effect) => clip.effects.push(effect),
                Err(fault) => Err(fault),
            };
            match added {
                Ok(()) => Ok(ItemOf::Clip(clip)),
                Err(fault) => {
                    drop(clip);
                    Err(fault)
                }
            }
        }
        other => Ok(other),
    }
}

// How fast a clip plays, in millionths.
fn speed(item: &Item) -> Option<i64> {
    match item {
        ItemOf::Clip(clip) => clip.effects.speed(),
        _ => None,
    }
}

// The speeds of a clip's copy, and of a copy of that, which is halved.
fn speeds(alloc: Global, first: Item) -> Result<(Option<i64>, Option<i64>), AllocError> {
    let second = match copy_item(alloc, &first) {
        Ok(copy) => halved(alloc, copy),
        Err(fault) => Err(fault),
    };
    let before = speed(&first);
    drop(first);
    let second = second?;
    let after = speed(&second);
    drop(second);
    Ok((before, after))
}

#[test]
fn a_copy_of_a_copy_is_changed_alone(rt: HostRuntime) -> Result<(), Fail> {
    let alloc = rt.alloc();
    let first = copied(alloc, doubled(alloc))?;
    let speeds = speeds(alloc, first)?;
    assert!(rt; speeds == (Some(2_000_000), Some(1_000_000)));
    Ok(())
}

// The value of a second owner, where there is one.
fn second(shared: &Shared<u64>) -> Result<Option<u64>, AllocError> {
    match shared.share()? {
        Some(other) => Ok(Some(*other.get())),
        None => Ok(None),
    }
}

// Holds whether a value has one owner.
fn is_own(rt: &impl Abort, shared: Shared<u64>, wanted: bool) {
    let own = match shared.into_own() {
        Ok(_) => true,
        Err(_) => false,
    };
    assert!(rt; own == wanted);
}

#[test]
fn owners_share_a_value(rt: HostRuntime) -> Result<(), Fail> {
    let own = Shared::own(7);
    let of_own = second(&own)?;
    assert!(rt; of_own == None);
    is_own(&rt, own, true);
    let common = Shared::of(rt.alloc(), 8)?;
    let of_common = second(&common)?;
    assert!(rt; of_common == Some(8));
    is_own(&rt, common, false);
    Ok(())
}
