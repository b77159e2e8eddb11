//! Stretches of one clip or of none.
//!
//! The tracks are taken by halves: what the upper half gives goes before what the lower one gives.
//! So the work is that of a sort, however the tracks' children lie.

ghost use Rattle.std.specs.Prelude.{◌≡◌, ◌+◌, ◌<◌, ◌≤◌, ◌^◌, ◌<ℤ◌, ◌≤ℤ◌, ℤ, IfOk, List, None, Option};
ghost use Rattle.std.specs.Prelude.{IfNone, IfSome, Some, drop, false, length, pos, slice_get, take, true};
ghost use Rattle.std.specs.Prelude.{◌∷◌, []};
ghost use Rattle.std.specs.Option.{option_or};
ghost use Rattle.otio_model.specs.declared.compositions.ItemOf.{ItemOf as AnyItemOf};
ghost use Rattle.otio_model.specs.declared.compositions.Listed.{Listed};
ghost use Rattle.otio_model.specs.Counts as counts;
ghost use Rattle.otio_model.specs.Counts.{count_of};
ghost use Rattle.otio_model.specs.Trees.{children_of, items_of};
ghost use Rattle.coord.specs.Soundness.{AreFaultless, IsFaultlessItem};
ghost use Rattle.flat.specs.Pieces as flat_pieces;
ghost use Rattle.flat.specs.Pieces.{Giver};
ghost use Rattle.flat.specs.Roots as roots;
ghost use Rattle.pieces.specs.Short.{AreCuttable};
ghost use Rattle.flat_stack.specs.Runs as runs;
ghost use Rattle.flat_stack.specs.Runs.{AreRuns};

use otio_model::{Children, Item, ItemOf};
use pieces::sound_ticks;
use sequences::Text;
use std::alloc::{AllocError, Global};

/// A clip, by the indexes of its track and of itself there, and where it starts.
#[derive(Clone, Copy)]
pub struct Given {
    /// The index of its track.
    pub track: usize,
    /// Its index in the track.
    pub child: usize,
    /// Where it starts, in ticks from the start of its track.
    pub start: i128,
}

/// Root children that follow one another.
#[derive(Clone, Copy)]
pub(crate) struct RootRange {
    /// The index of the first.
    pub(crate) from: usize,
    /// How many there are.
    pub(crate) count: usize,
}

/// What one clip, or none, gives up to an instant.
#[derive(Clone, Copy)]
pub(crate) struct Stretch {
    pub(crate) to: i128,
    pub(crate) given: Option<Given>,
}

// Whether an item is an enabled clip.
fn gives(item: &Item) -> bool
    ensures { result ≡ flat_pieces.gives item.now }
{
    match item {
        ItemOf::Clip(clip) => clip.enabled,
        _ => false,
    }
}

/// Whether an item is an enabled track of a kind.
pub fn is_layer(item: &Item, kind: &Text) -> bool
    ensures { result ≡ roots.is_layer kind.now item.now }
{
    match item {
        ItemOf::Track(track) => track.enabled && track.kind.as_str() == kind.as_str(),
        _ => false,
    }
}

// The children of an item that is an enabled track of a kind.
fn layer_children<'a>(item: &'a Item, kind: &Text) -> Option<&'a Children>
    ensures there { IfSome result (λ c. children_of item.now ≡ Some c.now) }
    ensures some { IfSome result (λ c. roots.is_layer kind.now item.now ≡ true) }
    ensures none { IfNone result (roots.is_layer kind.now item.now ≡ false) }
{
    match item {
        ItemOf::Track(track) => {
            if track.enabled && track.kind.as_str() == kind.as_str() {
                return Some(&track.children);
            }
            None
        }
        _ => None,
    }
}

// Nothing up to an end.
fn nothing(alloc: Global, end: i128) -> Result<Vec<Stretch>, AllocError>
    requires { pos 0 <ℤ end }
    ensures { IfOk result (λ all. (l : List (AnyItemOf Listed)) →
        AreRuns l (λ w. None) end (pos 0) all.items) }
{
    let mut all: Vec<Stretch> = Vec::new(alloc);
    all.push(Stretch {
        to: end,
        given: None,
    })?;
    Ok(all)
}

// What an item gives that starts at an instant.
fn given_by(item: &Item, track: usize, child: usize, start: i128) -> Option<Given>
    ensures { result ≡ runs.given_by item.now track child start }
{
    if gives(item) {
        return Some(Given {
            track,
            child,
            start,
        });
    }
    None
}

// What each child of a track gives, up to an end.
fn track_stretches(
    alloc: Global,
    children: &Children,
    track: usize,
    end: i128,
) -> Result<Vec<Stretch>, AllocError>
    requires few { length (items_of children.now) < 2 ^ 32 }
    requires cuttable { AreCuttable (items_of children.now) }
    requires low { pos 0 <ℤ end }
    requires high { end ≤ℤ pos 705600000000000000000000 }
    ensures { IfOk result (λ all. (l : List (AnyItemOf Listed)) (x : AnyItemOf Listed) →
        slice_get l track ≡ Some x → roots.items_in x ≡ items_of children.now →
        AreRuns l (flat_pieces.holder track 0 (pos 0) (items_of children.now)) end (pos 0)
        all.items) }
{
    let mut all: Vec<Stretch> = Vec::new(alloc);
    let mut at: i128 = 0;
    'children: for index in 0..children.len() {
        let item = children.child(index);
        let ticks = sound_ticks(item);
        if ticks > 0 {
            let given = given_by(item, track, index, at);
            if at + ticks >= end {
                all.push(Stretch { to: end, given })?;
                return Ok(all);
            }
            at += ticks;
            all.push(Stretch { to: at, given })?;
        }
    }
    all.push(Stretch {
        to: end,
        given: None,
    })?;
    Ok(all)
}

// What a root child gives where it is an enabled track of a kind, up to an end.
fn layer_stretches(
    alloc: Global,
    item: &Item,
    kind: &Text,
    track: usize,
    end: i128,
) -> Result<Vec<Stretch>, AllocError>
    requires few { count_of item.now < 2 ^ 32 }
    requires faultless { IsFaultlessItem item.now }
    requires low { pos 0 <ℤ end }
    requires high { end ≤ℤ pos 705600000000000000000000 }
    ensures { IfOk result (λ all. (l : List (AnyItemOf Listed)) →
        slice_get l track ≡ Some item.now →
        AreRuns l (flat_pieces.giver track kind.now (item.now ∷ [])) end (pos 0) all.items) }
{
    match layer_children(item, kind) {
        Some(children) => {
            let all = track_stretches(alloc, children, track, end)?;
            Ok(all)
        }
        None => {
            let all = nothing(alloc, end)?;
            Ok(all)
        }
    }
}

// What the first of two stretches gives, else the second, up to where one of them ends.
fn upper_first(upper: Stretch, lower: Stretch) -> Stretch
    ensures { result ≡ runs.upper_first upper lower }
{
    let given = match upper.given {
        Some(given) => Some(given),
        None => lower.given,
    };
    if upper.to <= lower.to {
        return Stretch {
            to: upper.to,
            given,
        };
    }
    Stretch {
        to: lower.to,
        given,
    }
}

// The next stretch of one list, where another ends at an instant.
fn behind(index: usize, stretch: Stretch, to: i128) -> usize
    requires { index < 2 ^ 63 }
    ensures { result ≡ runs.behind index stretch to }
{
    if stretch.to <= to {
        return index + 1;
    }
    index
}

// The stretch of an index; `None` after the last one.
#[tactic(auto, using(crate::proofs::RunLemmas::at_index, crate::proofs::RunLemmas::none_at))]
fn stretch_at(list: &[Stretch], index: usize) -> Option<Stretch>
    ensures { result ≡ slice_get list.now index }
{
    if index < list.len() {
        return Some(list[index]);
    }
    None
}

// What the upper stretches give, else the lower ones. Both go up to the same end.
fn merged(alloc: Global, upper: &[Stretch], lower: &[Stretch]) -> Result<Vec<Stretch>, AllocError>
    ensures { IfOk result (λ all. (l : List (AnyItemOf Listed)) (g h : ℤ → Option Giver) (end : ℤ) →
        AreRuns l g end (pos 0) upper.now → AreRuns l h end (pos 0) lower.now →
        AreRuns l (λ w. option_or (g w) (h w)) end (pos 0) all.items) }
{
    let mut all: Vec<Stretch> = Vec::new(alloc);
    let mut high = 0;
    let mut low = 0;
    'stretches: while high < upper.len() {
        let first = upper[high];
        let second = match stretch_at(lower, low) {
            Some(second) => second,
            None => return Ok(all),
        };
        let next = upper_first(first, second);
        all.push(next)?;
        high = behind(high, first, next.to);
        low = behind(low, second, next.to);
    }
    Ok(all)
}

/// What the tracks of a kind give among root children that follow one another, up to an end.
pub(crate) fn stretches_in(
    alloc: Global,
    children: &Children,
    kind: &Text,
    among: RootRange,
    end: i128,
) -> Result<Vec<Stretch>, AllocError>
    requires few { counts.count children.now < 2 ^ 32 }
    requires faultless { AreFaultless children.now }
    requires there { among.from + among.count ≤ length (items_of children.now) }
    requires low { pos 0 <ℤ end }
    requires high { end ≤ℤ pos 705600000000000000000000 }
    ensures { IfOk result (λ all. AreRuns (items_of children.now)
        (flat_pieces.giver among.from kind.now
        (take among.count (drop among.from (items_of children.now)))) end (pos 0) all.items) }
{
    if among.count == 0 {
        let all = nothing(alloc, end)?;
        return Ok(all);
    }
    if among.count == 1 {
        let all = layer_stretches(alloc, children.child(among.from), kind, among.from, end)?;
        return Ok(all);
    }
    let half = among.count / 2;
    let front = RootRange {
        from: among.from,
        count: half,
    };
    let back = RootRange {
        from: among.from + half,
        count: among.count - half,
    };
    let lower = stretches_in(alloc, children, kind, front, end)?;
    let upper = stretches_in(alloc, children, kind, back, end)?;
    let all = merged(alloc, upper.as_slice(), lower.as_slice())?;
    Ok(all)
}
