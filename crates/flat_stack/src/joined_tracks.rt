//! Joined tracks, into which the children of the inputs move.

ghost use Rattle.std.specs.Prelude.{◌≡◌, ◌≢◌, ◌++◌, ◌∷◌, [], ℕ, IfOk, IfSome, List, map, OnOk};
ghost use Rattle.std.specs.Prelude.{slice_get, Some};
ghost use Rattle.otio_model.specs.declared.compositions.ItemOf.{ItemOf as AnyItemOf};
ghost use Rattle.otio_model.specs.declared.compositions.Listed.{Listed};
ghost use Rattle.otio_model.specs.declared.timelines.Timeline.{Timeline as AnyTimeline};
ghost use Rattle.otio_model.specs.Timelines.{bare};
ghost use Rattle.flat.specs.Joined as joined;
ghost use Rattle.flat.specs.Roots as roots;
ghost use Rattle.flat_stack.specs.Portions as portions;
ghost use Rattle.flat_stack.specs.Portions.{AreRoots, IsPlanned, flat, planned_track};
ghost use Rattle.flat_stack.specs.Portions.{portion_items, portions_items, root_at};

use crate::part_copies::{move_roots, take_children, take_first, with_roots};
use crate::planned_tracks::{PlannedTrack, Portion};
use otio_model::{Children, Item, ItemOf, Items, Timeline};
use std::alloc::{AllocError, Global};

/// The root children of an input, each until it is taken.
type Roots = Vec<Option<Item>>;

// Items that are all there.
fn all_there(alloc: Global, items: Vec<Item>) -> Result<Roots, AllocError>
    ensures { IfOk result (λ there. there.items ≡ portions.all_there items.items) }
{
    let mut left = items;
    left.reverse();
    let mut there: Roots = Vec::new(alloc);
    'left: while let Some(item) = left.pop() {
        there.push(Some(item))?;
    }
    Ok(there)
}

// Takes the root children out of an input.
fn take_roots(alloc: Global, input: &mut Timeline) -> Result<Roots, AllocError>
    ensures roots { IfOk result (λ taken.
        taken.items ≡ portions.all_there (roots.roots input.old)) }
    ensures rest { OnOk result ((l : List (AnyItemOf Listed)) →
        bare (roots.with_roots l input.new) ≡ bare (roots.with_roots l input.old)) }
{
    let mut items: Vec<Item> = Vec::new(alloc);
    move_roots(alloc, input, &mut items)?;
    let taken = all_there(alloc, items)?;
    Ok(taken)
}

// Takes the root child of a number out; `None` where it is gone.
fn take_child(roots: &mut Roots, child: usize) -> Option<Item>
    ensures taken { result ≡ flat (slice_get roots.old.items child) }
    ensures left { (c : ℕ) (x : AnyItemOf Listed) → flat (slice_get roots.new.items c) ≡ Some x →
        flat (slice_get roots.old.items c) ≡ Some x }
{
    if child < roots.len() {
        return roots[child].take();
    }
    None
}

// Takes a root child of an input out; `None` where it is gone.
fn take_root(all: &mut Vec<Roots>, input: usize, child: usize) -> Option<Item>
    ensures taken { (inputs : List AnyTimeline) → AreRoots all.old.items inputs →
        IfSome result (λ x. root_at inputs input child ≡ Some x) }
    ensures left { (inputs : List AnyTimeline) → AreRoots all.old.items inputs →
        AreRoots all.new.items inputs }
{
    if input < all.len() {
        return take_child(&mut all[input], child);
    }
    None
}

// Moves the children of a track to the end of a list; another item has none.
fn move_children(alloc: Global, track: Item, all: &mut Vec<Item>) -> Result<(), AllocError>
    ensures { OnOk result (all.new.items ≡ all.old.items ++ roots.items_in track) }
{
    match track {
        ItemOf::Track(mut track) => {
            let children = take_children(alloc, &mut track.children)?;
            children.move_into(all)
        }
        _ => Ok(()),
    }
}

// Moves what stands next in a joined track to the end of a list. An error also comes where that is
// gone, which no plan of a join leads to.
fn move_portion(
    alloc: Global,
    portion: Portion,
    inputs: &mut Vec<Roots>,
    all: &mut Vec<Item>,
) -> Result<(), AllocError>
    ensures moved { OnOk result ((l : List AnyTimeline) → AreRoots inputs.old.items l →
        all.new.items ≡ all.old.items ++ portion_items l portion) }
    ensures left { OnOk result ((l : List AnyTimeline) → AreRoots inputs.old.items l →
        AreRoots inputs.new.items l) }
{
    match portion {
        Portion::Made(item) => {
            all.push(item)?;
            Ok(())
        }
        Portion::Moved { input, child } => match take_root(inputs, input, child) {
            Some(track) => {
                move_children(alloc, track, all)?;
                Ok(())
            }
            None => Err(AllocError),
        },
    }
}

// Moves what stands in a joined track to a list.
fn move_portions(
    alloc: Global,
    portions: Vec<Portion>,
    inputs: &mut Vec<Roots>,
) -> Result<Vec<Item>, AllocError>
    ensures moved { IfOk result (λ all. (l : List AnyTimeline) → AreRoots inputs.old.items l →
        all.items ≡ portions_items l portions.items) }
    ensures left { OnOk result ((l : List AnyTimeline) → AreRoots inputs.old.items l →
        AreRoots inputs.new.items l) }
{
    let mut left = portions;
    left.reverse();
    let mut all: Vec<Item> = Vec::new(alloc);
    'left: while let Some(portion) = left.pop() {
        move_portion(alloc, portion, inputs, &mut all)?;
    }
    Ok(all)
}

// A track with other children, enabled; another item stays as it is.
fn joined_with(alloc: Global, track: Item, items: Vec<Item>) -> Result<Item, AllocError>
    ensures { IfOk result (λ made. made ≡ joined.joined_with track items.items) }
{
    match track {
        ItemOf::Clip(clip) => Ok(ItemOf::Clip(clip)),
        ItemOf::Gap(gap) => Ok(ItemOf::Gap(gap)),
        ItemOf::Transition(transition) => Ok(ItemOf::Transition(transition)),
        ItemOf::Stack(stack) => Ok(ItemOf::Stack(stack)),
        ItemOf::Track(mut track) => {
            track.children = Children::of(alloc, Items::of(items))?;
            track.enabled = true;
            Ok(ItemOf::Track(track))
        }
    }
}

// A joined track, into which its children move.
fn joined_track(
    alloc: Global,
    planned: PlannedTrack,
    inputs: &mut Vec<Roots>,
) -> Result<Item, AllocError>
    ensures made { IfOk result (λ track. (l : List AnyTimeline) → AreRoots inputs.old.items l →
        track ≡ planned_track l planned) }
    ensures left { OnOk result ((l : List AnyTimeline) → AreRoots inputs.old.items l →
        AreRoots inputs.new.items l) }
{
    let PlannedTrack { track, portions } = planned;
    let items = move_portions(alloc, portions, inputs)?;
    let joined = joined_with(alloc, track, items)?;
    Ok(joined)
}

// All joined tracks, into which their children move.
fn joined_tracks(
    alloc: Global,
    plans: Vec<PlannedTrack>,
    inputs: Vec<Roots>,
) -> Result<Vec<Item>, AllocError>
    ensures { IfOk result (λ tracks. (l : List AnyTimeline) → AreRoots inputs.items l →
        tracks.items ≡ map (planned_track l) plans.items) }
{
    let mut inputs = inputs;
    let mut left = plans;
    left.reverse();
    let mut all: Vec<Item> = Vec::new(alloc);
    'left: while let Some(planned) = left.pop() {
        let track = joined_track(alloc, planned, &mut inputs)?;
        all.push(track)?;
    }
    Ok(all)
}

/// The first input, and the root children of all.
#[derive(Drop)]
struct Opened {
    /// It has no root children any more.
    first: Timeline,
    all: Vec<Roots>,
}

// Takes the root children out of all inputs; of the others than the first nothing else is kept.
fn open_inputs(alloc: Global, inputs: Vec<Timeline>) -> Result<Opened, AllocError>
    requires { inputs.items ≢ [] }
    ensures roots { IfOk result (λ opened. AreRoots opened.all.items inputs.items) }
    ensures first { IfOk result (λ opened. (t : AnyTimeline) (more : List AnyTimeline) →
        inputs.items ≡ t ∷ more → (l : List (AnyItemOf Listed)) →
        bare (roots.with_roots l opened.first) ≡ bare (roots.with_roots l t)) }
{
    let mut left = inputs;
    let mut first = take_first(&mut left);
    let mut all: Vec<Roots> = Vec::new(alloc);
    let taken = take_roots(alloc, &mut first)?;
    all.push(taken)?;
    'left: while let Some(mut input) = left.pop() {
        let taken = take_roots(alloc, &mut input)?;
        all.push(taken)?;
    }
    Ok(Opened { first, all })
}

/// The inputs joined as it is planned; the children of their tracks move. An error comes where
/// memory runs out.
pub(crate) fn joined_as(
    alloc: Global,
    inputs: Vec<Timeline>,
    plans: Vec<PlannedTrack>,
) -> Result<Timeline, AllocError>
    requires some { inputs.items ≢ [] }
    ensures { IfOk result (IsPlanned inputs.items plans.items) }
{
    let opened = open_inputs(alloc, inputs)?;
    let Opened { first, all } = opened;
    let tracks = joined_tracks(alloc, plans, all)?;
    let joined = with_roots(alloc, first, tracks)?;
    Ok(joined)
}
