//! Groups of clips: those of one key and one rate of their media, numbered in the order of their
//! first clips.

ghost use Rattle.std.specs.Prelude.{◌≡◌, ◌⊎◌, ◌↔◌, ◌∷◌, ◌++◌, ◌<◌, [], Some, Contains, IfOk, IsTrue, MatchOption, OnOk, OnErr, length, option_map, slice_get};
ghost use Rattle.show_prog.specs.Pictures as pictures;
ghost use Rattle.pull_list.specs.Found.{AddsGroup, IsGroupOf, group_in};
ghost use Rattle.pull_list.specs.Labels.{HasNumber, IsLabel, IsNumber};

use coord::media_rate;
use otio_model::Clip;
use show_prog::{KeyRef, key_of};
use std::alloc::{AllocError, Global};
use std::cmp::Ordering;
use std::collections::BTreeMap;
use std::marker::Model;
use tick_time::Rate;

/// What the clips of a group have in common.
#[derive(Clone, Copy)]
pub struct Group<'a> {
    /// What their frames are known by.
    pub(crate) key: KeyRef<'a>,
    /// The rate of their media.
    pub(crate) rate: Rate,
}

// A group as it is looked up: the kind of its key as a number, the key's texts, and the rate.
type Label<'a> = (u8, &'a str, &'a str, &'a str, i64, i64);

/// The groups that are known, and the number of each.
pub struct Groups<'a> {
    pub(crate) list: Vec<Group<'a>>,
    pub(crate) numbers: BTreeMap<Label<'a>, usize>,
}

impl<'a> Model for Groups<'a> {
    ghost use Rattle.std.specs.Prelude.{List, map};
    ghost use Rattle.pull_list.specs.Used.{ClipGroup as Common};
    ghost use Rattle.pull_list.specs.Found.{group_in};
    ghost use Rattle.pull_list.specs.Labels.{AreNumbered};

    ghost Value = { List Common };

    ghost view = { λ g. map group_in g.list.items };

    ghost invariant = { λ g. AreNumbered g.numbers (map group_in g.list.items) };
}

/// The group of a clip; `None` where its media have no rate.
pub(crate) fn group_of<'a>(clip: &'a Clip) -> Option<Group<'a>>
    ensures { IsGroupOf clip.now (option_map group_in result) }
{
    match media_rate(clip) {
        Some(rate) => Some(Group {
            key: key_of(clip),
            rate,
        }),
        None => None,
    }
}

// The group as it is looked up.
fn label_of<'a>(group: Group<'a>) -> Label<'a>
    ensures { IsLabel (group_in group.entry) result }
{
    let (num, den) = (group.rate.num, group.rate.den);
    match group.key {
        KeyRef::Url(url) => (0, url.as_str(), "", "", num, den),
        KeyRef::Sequence(base, prefix, suffix) => {
            let (base, prefix) = (base.as_str(), prefix.as_str());
            (1, base, prefix, suffix.as_str(), num, den)
        }
        KeyRef::Generator(kind) => (2, kind.as_str(), "", "", num, den),
        KeyRef::Reel(reel) => (3, reel.as_str(), "", "", num, den),
        KeyRef::Name(name) => (4, name.as_str(), "", "", num, den),
    }
}

/// Whether two groups are the same.
pub(crate) fn is_same(one: Group<'_>, other: Group<'_>) -> bool
    ensures { IsTrue result ↔ (group_in one.entry ≡ group_in other.entry) }
{
    matches!(label_of(one).cmp(&label_of(other)), Ordering::Equal)
}

impl<'a> Groups<'a> {
    /// No groups.
    pub(crate) fn new(alloc: Global) -> Groups<'a>
        ensures { result ≡ [] }
    {
        Groups {
            list: Vec::new(alloc),
            numbers: BTreeMap::new(alloc),
        }
    }

    /// How many groups there are.
    pub(crate) fn len(&self) -> usize
        ensures { result ≡ length self.now }
    {
        self.list.len()
    }

    /// The group of a number.
    pub(crate) fn at(&self, number: usize) -> Group<'a>
        requires { number < length self.now }
        ensures { IsNumber self.now (group_in result) number }
    {
        self.list[number]
    }

    /// The number of a group; `None` where it isn't known.
    pub(crate) fn number_of(&self, group: Group<'a>) -> Option<usize>
        ensures { MatchOption result (HasNumber self.now (group_in group.entry) → ⊥)
            (IsNumber self.now (group_in group.entry)) }
    {
        match self.numbers.get(&label_of(group)) {
            Some(number) => Some(*number),
            None => None,
        }
    }

    /// The number of a group, which is added after the others where it is new.
    pub(crate) fn add(&mut self, group: Group<'a>) -> Result<usize, AllocError>
        ensures number { IfOk result (λ number.
            slice_get self.new number ≡ Some (group_in group.entry)) }
        ensures groups { OnOk result (AddsGroup self.old self.new (group_in group.entry)) }
    {
        match self.number_of(group) {
            Some(number) => Ok(number),
            None => self.add_new(group),
        }
    }

    // Adds a new group after the others, and gives its number.
    fn add_new(&mut self, group: Group<'a>) -> Result<usize, AllocError>
        requires { HasNumber self.old (group_in group) → ⊥ }
        ensures number { IfOk result (λ number.
            slice_get self.new number ≡ Some (group_in group.entry)) }
        ensures groups { OnOk result (self.new ≡ self.old ++ group_in group.entry ∷ []) }
    {
        let number = self.list.len();
        self.list.push(group)?;
        match self.numbers.insert(label_of(group), number) {
            Ok(_) => Ok(number),
            Err(_) => {
                self.list.pop();
                Err(AllocError)
            }
        }
    }
}

impl<'a> Drop for Groups<'a> {
    fn drop(self) {
        let Groups {
            list: _,
            numbers: _,
        } = self;
    }
}
