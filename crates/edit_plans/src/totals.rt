//! How long items are together, and how many they are.

ghost use Rattle.std.specs.Prelude.{◌≡◌, ◌+◌, ◌<◌, ◌≤◌, ◌^◌, drop, length, take};
ghost use Rattle.otio_model.specs.Counts.{count, count_of};
ghost use Rattle.otio_model.specs.Trees.{items_of};
ghost use Rattle.edit_plans.specs.Amounts.{AreFew, amount_in, more};

use otio_model::{Children, Item, ItemOf};
use pieces::{known_ticks, member};

/// What items come to, up to the greatest numbers.
#[derive(Clone, Copy)]
pub(crate) struct Amount {
    /// Their lengths added up, in ticks, one that isn't known as 0.
    pub(crate) ticks: u128,
    /// How many they are, with all below them.
    pub(crate) items: usize,
}

// How many items an item and all below it are.
fn item_count(item: &Item) -> usize
    requires few { count_of item.now < 2 ^ 32 }
    ensures { result ≡ count_of item.now }
{
    match item {
        ItemOf::Stack(stack) => stack.children.items_below() + 1,
        ItemOf::Track(track) => track.children.items_below() + 1,
        _ => 1,
    }
}

// What one item more comes to.
fn with_item(amount: Amount, item: &Item) -> Amount
    requires few { count_of item.now < 2 ^ 32 }
    ensures { result ≡ more amount item.now }
{
    Amount {
        ticks: amount.ticks.saturating_add(known_ticks(item)),
        items: amount.items.saturating_add(item_count(item)),
    }
}

/// What items of a list come to.
#[tactic(auto, using(crate::proofs::AmountLemmas::amount_more, crate::proofs::AmountLemmas::amount_all))]
pub(crate) fn amount_of(list: &[Item]) -> Amount
    requires few { AreFew list.now }
    ensures { result ≡ amount_in list.now }
{
    let mut all = Amount { ticks: 0, items: 0 };
    'items: for index in 0..list.len() {
        all = with_item(all, member(list, index));
    }
    all
}

// What all children come to.
#[tactic(auto, using(crate::proofs::Exchanges::whole_is))]
fn whole_amount(children: &Children) -> Amount
    requires few { count children.now < 2 ^ 32 }
    ensures { result ≡ amount_in (items_of children.now) }
{
    Amount {
        ticks: children.added_ticks(),
        items: children.items_below(),
    }
}

/// What so many children from an index on come to.
#[tactic(auto, using(crate::proofs::AmountLemmas::stretch_more, crate::proofs::AmountLemmas::stretch_whole))]
pub(crate) fn stretch_amount(children: &Children, at: usize, many: usize) -> Amount
    requires few { count children.now < 2 ^ 32 }
    requires there { at + many ≤ length (items_of children.now) }
    ensures { result ≡ amount_in (take many (drop at (items_of children.now))) }
{
    if many == children.len() {
        return whole_amount(children);
    }
    let mut all = Amount { ticks: 0, items: 0 };
    'children: for index in at..at + many {
        all = with_item(all, children.child(index));
    }
    all
}
