//! Lists in memory that fits them, of each size that lies in memory in another way.

use crate::values::{are_the_same, value_in_pieces};
use json_value::{Json, JsonList, copy_json};
use sequences::{Fitted, Text};
use std::alloc::{AllocError, Global};
use std::process::Abort;
use std::test::Fail;

/// No member, one, few, as many as are moved, and more.
const SIZES: [u32; 6] = [0, 1, 2, 64, 65, 1000];

// The numbers from 0, so many.
fn numbers(alloc: Global, count: u32) -> Result<Vec<u32>, AllocError> {
    let mut list = Vec::new(alloc);
    for number in 0..count {
        list.push(number)?;
    }
    Ok(list)
}

fn members_are(rt: &impl Abort, found: &[u32], members: &[u32]) {
    assert!(rt; found == members);
}

fn member_is(rt: &impl Abort, found: Option<&u32>, member: Option<&u32>) {
    assert!(rt; found.copied() == member.copied());
}

fn count_is(rt: &impl Abort, found: usize, count: usize) {
    assert!(rt; found == count);
}

// Holds that the list has these members and no others.
fn has_members(rt: &impl Abort, fitted: &Fitted<u32>, members: &[u32]) {
    members_are(rt, fitted.as_slice(), members);
    count_is(rt, fitted.len(), members.len());
    member_is(rt, fitted.get(0), members.first());
    member_is(rt, fitted.get(64), members.get(64));
    member_is(rt, fitted.get(members.len()), None);
}

// Holds that a list of so many members keeps them.
fn keeps(rt: &impl Abort, alloc: Global, count: u32) -> Result<(), AllocError> {
    let members = numbers(alloc, count)?;
    let fitted = Fitted::of(alloc, numbers(alloc, count)?)?;
    has_members(rt, &fitted, members.as_slice());
    let list = fitted.into_vec(alloc)?;
    members_are(rt, list.as_slice(), members.as_slice());
    drop(list);
    drop(members);
    Ok(())
}

#[test]
fn lists_keep_members(rt: HostRuntime) -> Result<(), Fail> {
    for &count in SIZES.iter() {
        keeps(&rt, rt.alloc(), count)?;
    }
    let none = Fitted::<u32>::new();
    has_members(&rt, &none, &[]);
    drop(none);
    Ok(())
}

// Holds that all members of the list are taken, and that these are so many.
fn takes(
    rt: &impl Abort,
    alloc: Global,
    list: &mut Vec<u32>,
    count: u32,
) -> Result<Fitted<u32>, AllocError> {
    let members = numbers(alloc, count)?;
    let fitted = Fitted::take(alloc, list)?;
    has_members(rt, &fitted, members.as_slice());
    members_are(rt, list.as_slice(), &[]);
    drop(members);
    Ok(fitted)
}

// Adds the numbers from 0, so many.
fn add_numbers(list: &mut Vec<u32>, count: u32) -> Result<(), AllocError> {
    for number in 0..count {
        list.push(number)?;
    }
    Ok(())
}

// Holds that so many members are taken out of a list, and as many others out of the same list.
fn takes_twice(rt: &impl Abort, alloc: Global, count: u32, others: u32) -> Result<(), AllocError> {
    let mut list = numbers(alloc, count)?;
    let first = takes(rt, alloc, &mut list, count)?;
    add_numbers(&mut list, others)?;
    let second = takes(rt, alloc, &mut list, others)?;
    let members = first.into_vec(alloc)?;
    let wanted = numbers(alloc, count)?;
    members_are(rt, members.as_slice(), wanted.as_slice());
    drop(wanted);
    drop(members);
    drop(second);
    drop(list);
    Ok(())
}

#[test]
fn members_are_taken_out(rt: HostRuntime) -> Result<(), Fail> {
    for &count in SIZES.iter() {
        for &others in SIZES.iter() {
            takes_twice(&rt, rt.alloc(), count, others)?;
        }
    }
    Ok(())
}

// A list of each size.
fn each_size(alloc: Global) -> Result<Vec<Fitted<u32>>, AllocError> {
    let mut lists = Vec::new(alloc);
    for &count in SIZES.iter() {
        lists.push(Fitted::of(alloc, numbers(alloc, count)?)?)?;
    }
    Ok(lists)
}

// Holds that each list has its size.
fn are_each_size(rt: &impl Abort, lists: &[Fitted<u32>]) {
    count_is(rt, lists.len(), SIZES.len());
    for (list, &count) in lists.iter().zip(SIZES.iter()) {
        count_is(rt, list.len(), count as usize);
    }
}

#[test]
fn lists_stand_in_lists(rt: HostRuntime) -> Result<(), Fail> {
    let alloc = rt.alloc();
    let mut lists = each_size(alloc)?;
    let taken = Fitted::take(alloc, &mut lists)?;
    are_each_size(&rt, taken.as_slice());
    drop(taken);
    drop(lists);
    let fitted = Fitted::of(alloc, each_size(alloc)?)?;
    let list = fitted.into_vec(alloc)?;
    are_each_size(&rt, list.as_slice());
    drop(list);
    Ok(())
}

// A list of so many numerals.
fn numerals(alloc: Global, count: u32) -> Result<Json, AllocError> {
    let mut list = Vec::new(alloc);
    for number in 0..count {
        let spelled = format!(in alloc; "{number}")?;
        list.push(Json::Num(Text::from_string(alloc, spelled)?))?;
    }
    Ok(Json::List(JsonList::of(alloc, list)?))
}

// The text of a list of so many numerals.
fn numerals_text(alloc: Global, count: u32) -> Result<String, AllocError> {
    let mut text = String::from_str(alloc, "[")?;
    for number in 0..count {
        if number > 0 {
            text.push_str(",")?;
        }
        let spelled = format!(in alloc; "{number}")?;
        text.push_str(spelled.as_str())?;
    }
    text.push_str("]")?;
    Ok(text)
}

// Holds that a list of so many members is read, and is copied.
fn is_read_and_copied(rt: &impl Abort, alloc: Global, count: u32) -> Result<(), AllocError> {
    let value = numerals(alloc, count)?;
    let text = numerals_text(alloc, count)?;
    let read = value_in_pieces(rt, alloc, text.as_bytes(), 7);
    are_the_same(rt, alloc, &read, &value);
    let copy = copy_json(alloc, &read)?;
    are_the_same(rt, alloc, &copy, &value);
    drop(copy);
    drop(read);
    drop(text);
    drop(value);
    Ok(())
}

#[test]
fn lists_of_values_are_read_and_copied(rt: HostRuntime) -> Result<(), Fail> {
    for &count in SIZES.iter() {
        is_read_and_copied(&rt, rt.alloc(), count)?;
    }
    Ok(())
}
