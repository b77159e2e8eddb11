//! How many items of each kind there are at all levels.

ghost use Rattle.std.specs.Prelude.{◌≡◌, ◌+◌, ◌<◌, ◌≤◌, ◌^◌};
ghost use Rattle.otio_model.specs.Counts as sizes;
ghost use Rattle.show_prog.specs.Counted as counted;
ghost use Rattle.show_prog.specs.Counted.{nothing, together, total};

use otio_model::{Children, Item, ItemOf};

/// How many items of each kind there are.
#[derive(Clone, Copy)]
pub(crate) struct Counts {
    pub(crate) tracks: usize,
    pub(crate) stacks: usize,
    pub(crate) clips: usize,
    pub(crate) gaps: usize,
    pub(crate) transitions: usize,
}

/// No items.
const NOTHING: Counts = Counts {
    tracks: 0,
    stacks: 0,
    clips: 0,
    gaps: 0,
    transitions: 0,
};

// The items of two counts together.
fn add(one: Counts, other: Counts) -> Counts
    requires { total one + total other < 2 ^ 64 }
    ensures { result ≡ together one other }
{
    Counts {
        tracks: one.tracks + other.tracks,
        stacks: one.stacks + other.stacks,
        clips: one.clips + other.clips,
        gaps: one.gaps + other.gaps,
        transitions: one.transitions + other.transitions,
    }
}

// Counts an item and all below it.
#[cycle(count)]
fn count_item(item: &Item) -> Counts
    requires few { sizes.count_of item.now < 2 ^ 32 }
    ensures value { result ≡ counted.counts_of item.now }
    ensures total { total result ≤ sizes.count_of item.now }
{
    match item {
        ItemOf::Clip(_) => Counts {
            clips: 1,
            ..NOTHING
        },
        ItemOf::Gap(_) => Counts { gaps: 1, ..NOTHING },
        ItemOf::Transition(_) => Counts {
            transitions: 1,
            ..NOTHING
        },
        ItemOf::Stack(stack) => add(
            Counts {
                stacks: 1,
                ..NOTHING
            },
            count_children(&stack.children),
        ),
        ItemOf::Track(track) => add(
            Counts {
                tracks: 1,
                ..NOTHING
            },
            count_children(&track.children),
        ),
    }
}

/// Counts children and all below them.
#[cycle(count)]
pub(crate) fn count_children(children: &Children) -> Counts
    requires few { sizes.count children.now < 2 ^ 32 }
    ensures value { result ≡ counted.counts children.now }
    ensures total { total result ≤ sizes.count children.now }
{
    let mut all = NOTHING;
    'children: for index in 0..children.len() {
        all = add(all, count_item(children.child(index)));
    }
    all
}
