//! The edits that commands ask for.

ghost use Rattle.std.specs.Prelude.{◌≡◌, ◌≢◌, ◌||◌, true, false, IfNone, IfOk, IfSome};
ghost use Rattle.std.specs.Option.{option_copied};
ghost use Rattle.edits_law.specs.Editable.{HasEditItem};
ghost use Rattle.edit_plans.specs.Planned.{is_list_edit};
ghost use Rattle.edit_script.specs.RunActs as acts;
ghost use Rattle.edit_script.specs.RunActs.{IsEditOf};
ghost use Rattle.tick_time.specs.declared.rates.Rate.{Rate as AnyRate};
ghost use Rattle.edit_script.specs.Items as items;
ghost use Rattle.media_rows.specs.Rows.{MediaRows};
ghost use Rattle.edit_script.specs.Groups.{group, moves_cuts, OfEdges, OfLists};

use crate::commands::{Act, Put};
use crate::items::{is_far, is_unlisted as is_unlisted_put, is_wrong_put, item_of};
use media_list::MediaList;
use otio_model::{Edit, copy_place};
use std::alloc::{AllocError, Global};
use tick_time::Rate;

/// Whether an act puts in a clip of a reel that isn't listed.
pub(crate) fn is_unlisted(media: Option<&MediaList>, act: &Act) -> bool
    ensures { result ≡ acts.is_unlisted (option_copied media.entry) act.now }
{
    match act {
        Act::Overwrite { put, .. } | Act::Insert { put, .. } | Act::Fill { put, .. } => {
            is_unlisted_put(media, put)
        }
        Act::Slice { .. }
        | Act::Remove { .. }
        | Act::Trim { .. }
        | Act::Slip { .. }
        | Act::Slide { .. }
        | Act::Ripple { .. }
        | Act::Roll { .. }
        | Act::Undo
        | Act::Redo => false,
    }
}

// Whether one of three numbers of record frames is out of range.
fn are_far(rate: Rate, at: i64, head: i64, tail: i64) -> bool
    ensures { result ≡ acts.are_far rate at head tail }
{
    is_far(rate, at) || (is_far(rate, head) || is_far(rate, tail))
}

// Whether one of two numbers of record frames is out of range.
fn is_either_far(rate: Rate, at: i64, by: i64) -> bool
    ensures { result ≡ (items.is_far rate at || items.is_far rate by) }
{
    is_far(rate, at) || is_far(rate, by)
}

// Whether an item can't be put in at an instant, since one of the times is out of range.
fn is_far_put(rate: Rate, media: Option<&MediaList>, at: i64, put: &Put) -> bool
    ensures { result ≡ (items.is_far rate at
        || items.is_wrong_put rate (option_copied media.entry) put.now) }
{
    is_far(rate, at) || is_wrong_put(rate, media, put)
}

/// Whether one of the times of an act is out of range, or a length or a start is negative.
pub(crate) fn is_beyond(rate: Rate, media: Option<&MediaList>, act: &Act) -> bool
    ensures { result ≡ acts.is_beyond rate (option_copied media.entry) act.now }
{
    match act {
        Act::Overwrite { at, put, .. } | Act::Insert { at, put, .. } | Act::Fill { at, put, .. } =>
            is_far_put(rate, media, *at, put),
        Act::Slice { at, .. } | Act::Remove { at, .. } => is_far(rate, *at),
        Act::Slip { at, by, .. } | Act::Slide { at, by, .. } => is_either_far(rate, *at, *by),
        Act::Trim { at, head, tail, .. } => are_far(rate, *at, *head, *tail),
        Act::Ripple { at, head, tail, .. } => are_far(rate, *at, *head, *tail),
        Act::Roll { at, head, tail, .. } => are_far(rate, *at, *head, *tail),
        Act::Undo | Act::Redo => false,
    }
}

/// The edit of a list that an act asks for; none where it asks for no such edit.
pub(crate) fn list_edit_of(
    alloc: Global,
    rate: Rate,
    media: Option<&MediaList>,
    act: &Act,
) -> Result<Option<Edit>, AllocError>
    requires listed { acts.is_unlisted (option_copied media) act.now ≡ false }
    requires near { acts.is_beyond rate (option_copied media) act.now ≡ false }
    ensures edit { IfOk result
        (λ found. IfSome found (IsEditOf rate (option_copied media.entry) act.now)) }
    ensures item { IfOk result (λ found. IfSome found HasEditItem) }
    ensures group { IfOk result (λ found. IfSome found (λ edit. is_list_edit edit ≡ true)) }
    ensures none { IfOk result (λ found. IfNone found (group act.now ≢ OfLists)) }
{
    match act {
        Act::Overwrite { place, at, put } => Ok(Some(Edit::Overwrite {
            place: copy_place(alloc, place)?,
            at: *at,
            item: item_of(alloc, rate, media, put)?,
        })),
        Act::Insert { place, at, put } => Ok(Some(Edit::Insert {
            place: copy_place(alloc, place)?,
            at: *at,
            item: item_of(alloc, rate, media, put)?,
        })),
        Act::Slice { place, at } => Ok(Some(Edit::Slice {
            place: copy_place(alloc, place)?,
            at: *at,
        })),
        Act::Fill {
            place,
            at,
            mode,
            put,
        } => Ok(Some(Edit::Fill {
            place: copy_place(alloc, place)?,
            at: *at,
            mode: *mode,
            item: item_of(alloc, rate, media, put)?,
        })),
        Act::Remove { place, at, mode } => Ok(Some(Edit::Remove {
            place: copy_place(alloc, place)?,
            at: *at,
            mode: *mode,
        })),
        Act::Trim { .. }
        | Act::Slip { .. }
        | Act::Slide { .. }
        | Act::Ripple { .. }
        | Act::Roll { .. }
        | Act::Undo
        | Act::Redo => Ok(None),
    }
}

// The edit that moves cuts, as an act asks for.
fn cut_edit_of(alloc: Global, act: &Act) -> Result<Edit, AllocError>
    requires { moves_cuts act.now ≡ true }
    ensures edit { IfOk result (λ edit. (rate : AnyRate) (media : MediaRows)
        → IsEditOf rate media act.now edit) }
    ensures group { IfOk result (λ edit. is_list_edit edit ≡ false) }
{
    match act {
        Act::Ripple {
            place,
            at,
            head,
            tail,
        } => Ok(Edit::Ripple {
            place: copy_place(alloc, place)?,
            at: *at,
            head: *head,
            tail: *tail,
        }),
        Act::Roll {
            place,
            at,
            head,
            tail,
        } => Ok(Edit::Roll {
            place: copy_place(alloc, place)?,
            at: *at,
            head: *head,
            tail: *tail,
        }),
        _ => unreachable!(),
    }
}

/// The edit of edges that an act asks for; none where it asks for no such edit.
pub(crate) fn edge_edit_of(alloc: Global, act: &Act) -> Result<Option<Edit>, AllocError>
    ensures edit { IfOk result (λ found. IfSome found (λ edit. (rate : AnyRate) (media : MediaRows)
        → IsEditOf rate media act.now edit)) }
    ensures group { IfOk result (λ found. IfSome found (λ edit. is_list_edit edit ≡ false)) }
    ensures none { IfOk result (λ found. IfNone found (group act.now ≢ OfEdges)) }
{
    match act {
        Act::Trim {
            place,
            at,
            head,
            tail,
        } => Ok(Some(Edit::Trim {
            place: copy_place(alloc, place)?,
            at: *at,
            head: *head,
            tail: *tail,
        })),
        Act::Slip { place, at, by } => Ok(Some(Edit::Slip {
            place: copy_place(alloc, place)?,
            at: *at,
            by: *by,
        })),
        Act::Slide { place, at, by } => Ok(Some(Edit::Slide {
            place: copy_place(alloc, place)?,
            at: *at,
            by: *by,
        })),
        Act::Ripple { .. } | Act::Roll { .. } => Ok(Some(cut_edit_of(alloc, act)?)),
        Act::Overwrite { .. }
        | Act::Insert { .. }
        | Act::Slice { .. }
        | Act::Fill { .. }
        | Act::Remove { .. }
        | Act::Undo
        | Act::Redo => Ok(None),
    }
}
