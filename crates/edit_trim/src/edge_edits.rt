//! Edits of edges, taken apart.

ghost use Rattle.std.specs.Prelude.{◌≡◌, false};
ghost use Rattle.edit_plans.specs.Planned.{is_list_edit};
ghost use Rattle.edit_trim.specs.Asked.{asked, edit_of};

use otio_model::{Edit, Place};

/// How edges move, in record frames.
#[derive(Clone, Copy)]
pub(crate) enum EdgeEdit {
    /// The head and the tail of the item, against the gaps beside it.
    Trim { head: i64, tail: i64 },
    /// The media that the item shows, and not the item.
    Slip { by: i64 },
    /// The item, and the tail of the item before it with it.
    Slide { by: i64 },
    /// The head and the tail of the item, and what follows moves with it.
    Ripple { head: i64, tail: i64 },
    /// The head and the tail of the item, against the items beside it.
    Roll { head: i64, tail: i64 },
}

/// An edit of edges: where, when and how.
#[derive(Drop)]
pub(crate) struct Asked {
    pub place: Place,
    pub at: i64,
    pub edges: EdgeEdit,
}

// An edit of edges at a place and an instant.
fn edges_at(place: Place, at: i64, edges: EdgeEdit) -> Asked
    ensures { asked result ≡ edit_of place at edges }
{
    Asked { place, at, edges }
}

/// An edit of edges in its parts.
pub(crate) fn parts_of(edit: Edit) -> Asked
    requires { is_list_edit edit ≡ false }
    ensures { edit ≡ asked result }
{
    match edit {
        Edit::Trim {
            place,
            at,
            head,
            tail,
        } => edges_at(place, at, EdgeEdit::Trim { head, tail }),
        Edit::Slip { place, at, by } => edges_at(place, at, EdgeEdit::Slip { by }),
        Edit::Slide { place, at, by } => edges_at(place, at, EdgeEdit::Slide { by }),
        Edit::Ripple {
            place,
            at,
            head,
            tail,
        } => edges_at(place, at, EdgeEdit::Ripple { head, tail }),
        Edit::Roll {
            place,
            at,
            head,
            tail,
        } => edges_at(place, at, EdgeEdit::Roll { head, tail }),
        _ => unreachable!(),
    }
}
