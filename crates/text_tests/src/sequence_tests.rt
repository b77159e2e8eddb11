//! Each public call once, and many names.

use sequences::{NamedValues, Sequence, Text, TextRoom};
use std::alloc::{AllocError, Global};
use std::process::Abort;
use std::test::Fail;

fn named(alloc: Global, names: &[&str]) -> Result<Vec<(Text, usize)>, AllocError> {
    let mut pairs = Vec::new(alloc);
    for (index, name) in names.iter().enumerate() {
        pairs.push((Text::of(alloc, name)?, index))?;
    }
    Ok(pairs)
}

fn add_shown(alloc: Global, text: &mut String, pair: &(Text, usize)) -> Result<(), AllocError> {
    let name = pair.0.as_str();
    let value = pair.1;
    let shown = format!(in alloc; "{name}={value} ")?;
    text.push_str(shown.as_str())
}

fn shown(alloc: Global, values: &NamedValues<usize>) -> Result<String, AllocError> {
    let mut text = String::new(alloc);
    for pair in values.as_slice() {
        add_shown(alloc, &mut text, pair)?;
    }
    Ok(text)
}

fn characters_are(rt: &impl Abort, found: &str, characters: &str) {
    assert!(rt; found == characters);
}

fn shows(rt: &impl Abort, alloc: Global, values: &NamedValues<usize>, pairs: &str) {
    let found = shown(alloc, values).expect(rt, "memory");
    characters_are(rt, found.as_str(), pairs);
}

fn name_is(rt: &impl Abort, values: &NamedValues<usize>, index: usize, name: Option<&str>) {
    assert!(rt; values.name(index).map(|name| name.as_str()) == name);
}

fn value_is(rt: &impl Abort, value: Option<&usize>, wanted: Option<usize>) {
    assert!(rt; value.copied() == wanted);
}

fn takes(rt: &impl Abort, values: &mut NamedValues<usize>, index: usize, value: Option<usize>) {
    let taken = values.take(index).map(|pair| pair.1);
    assert!(rt; taken == value);
}

fn count_is(rt: &impl Abort, found: usize, count: usize) {
    assert!(rt; found == count);
}

fn member_is(rt: &impl Abort, sequence: &Sequence<u32>, index: usize, member: Option<u32>) {
    assert!(rt; sequence.get(index).copied() == member);
}

fn members_are(rt: &impl Abort, found: &[u32], members: &[u32]) {
    assert!(rt; found == members);
}

fn gives(rt: &impl Abort, alloc: Global, sequence: &mut Sequence<u32>, members: &[u32]) {
    let taken = sequence.take_fitted(alloc).expect(rt, "memory");
    members_are(rt, taken.as_slice(), members);
}

#[test]
fn sequence_keeps_members(rt: HostRuntime) -> Result<(), Fail> {
    let alloc = rt.alloc();
    let mut sequence = Sequence::of(vec![in alloc; 7u32, 8]?);
    sequence.push(9)?;
    *sequence.at_mut(1) = 80;
    count_is(&rt, sequence.len(), 3);
    member_is(&rt, &sequence, 2, Some(9));
    member_is(&rt, &sequence, 3, None);
    members_are(&rt, sequence.as_slice(), &[7, 80, 9]);
    let list = sequence.into_vec();
    members_are(&rt, list.as_slice(), &[7, 80, 9]);
    drop(list);
    let none = Sequence::<u32>::new(alloc);
    count_is(&rt, none.len(), 0);
    drop(none);
    let mut few = Sequence::of(vec![in alloc; 1u32, 2]?);
    gives(&rt, alloc, &mut few, &[1, 2]);
    count_is(&rt, few.len(), 0);
    few.push(3)?;
    let emptied = few.emptied();
    count_is(&rt, emptied.len(), 0);
    drop(emptied);
    Ok(())
}

fn string_keeps(
    rt: &impl Abort,
    alloc: Global,
    string: String,
    characters: &str,
) -> Result<(), AllocError> {
    let text = Text::from_string(alloc, string)?;
    characters_are(rt, text.as_str(), characters);
    drop(text);
    Ok(())
}

fn text_keeps(rt: &impl Abort, alloc: Global, characters: &str) -> Result<(), AllocError> {
    let text = Text::of(alloc, characters)?;
    characters_are(rt, text.as_str(), characters);
    let string = text.into_string(alloc)?;
    characters_are(rt, string.as_str(), characters);
    string_keeps(rt, alloc, string, characters)
}

#[test]
fn text_keeps_characters(rt: HostRuntime) -> Result<(), Fail> {
    let alloc = rt.alloc();
    text_keeps(&rt, alloc, "Zürich ✂")?;
    text_keeps(&rt, alloc, "Überblendungs")?;
    text_keeps(&rt, alloc, "Überblendungen")?;
    text_keeps(&rt, alloc, "Überblendung am Kai, einmal")?;
    let long = String::from_str(alloc, "Überblendung am Kai, zweimal")?;
    string_keeps(&rt, alloc, long, "Überblendung am Kai, zweimal")?;
    let none = Text::empty();
    characters_are(&rt, none.as_str(), "");
    drop(none);
    let room = TextRoom::new(alloc)?;
    let few = Text::in_room(room, String::from_str(alloc, "-0.5")?);
    characters_are(&rt, few.as_str(), "-0.5");
    drop(few);
    Ok(())
}

fn put_later_values(alloc: Global, values: &mut NamedValues<usize>) -> Result<(), AllocError> {
    values.put(Text::of(alloc, "c")?, 30)?;
    values.put(Text::of(alloc, "d")?, 40)
}

#[test]
fn later_values_replace_earlier_ones(rt: HostRuntime) -> Result<(), Fail> {
    let alloc = rt.alloc();
    let pairs = named(alloc, &["b", "a", "b", "c", "ab", "a", ""])?;
    let mut values = NamedValues::of_pairs(alloc, pairs)?;
    shows(&rt, alloc, &values, "b=2 a=5 c=3 ab=4 =6 ");
    put_later_values(alloc, &mut values)?;
    shows(&rt, alloc, &values, "b=2 a=5 c=30 ab=4 =6 d=40 ");
    value_is(&rt, values.get("ab"), Some(4));
    value_is(&rt, values.get("abc"), None);
    takes(&rt, &mut values, 1, Some(5));
    takes(&rt, &mut values, 5, None);
    shows(&rt, alloc, &values, "b=2 c=30 ab=4 =6 d=40 ");
    count_is(&rt, values.len(), 5);
    name_is(&rt, &values, 1, Some("c"));
    name_is(&rt, &values, 5, None);
    value_is(&rt, values.value(1), Some(30));
    let pairs = values.into_vec();
    count_is(&rt, pairs.len(), 5);
    drop(pairs);
    Ok(())
}

#[test]
fn distinct_names_stay_as_they_are(rt: HostRuntime) -> Result<(), Fail> {
    let alloc = rt.alloc();
    let values = NamedValues::of_pairs(alloc, named(alloc, &["x", "y"])?)?;
    let again = NamedValues::of(values.into_vec());
    shows(&rt, alloc, &again, "x=0 y=1 ");
    drop(again);
    let none = NamedValues::<usize>::new(alloc);
    count_is(&rt, none.len(), 0);
    drop(none);
    Ok(())
}

const MANY: usize = 100_000;

fn numbered(alloc: Global, number: usize) -> Result<Text, AllocError> {
    Text::from_string(alloc, format!(in alloc; "name {number}")?)
}

// That many names, and then each of them again, where `twice` says so.
fn many(alloc: Global, twice: bool) -> Result<NamedValues<usize>, AllocError> {
    let mut pairs = Vec::new(alloc);
    for index in 0..MANY {
        pairs.push((numbered(alloc, index * 7919 % MANY)?, index))?;
    }
    if twice {
        for number in 0..MANY {
            pairs.push((numbered(alloc, number)?, MANY + number))?;
        }
    }
    NamedValues::of_pairs(alloc, pairs)
}

#[test]
fn many_names(rt: HostRuntime) -> Result<(), Fail> {
    let values = many(rt.alloc(), true)?;
    count_is(&rt, values.len(), MANY);
    name_is(&rt, &values, 3, Some("name 23757"));
    value_is(&rt, values.value(3), Some(123_757));
    drop(values);
    let distinct = many(rt.alloc(), false)?;
    count_is(&rt, distinct.len(), MANY);
    value_is(&rt, distinct.value(3), Some(3));
    drop(distinct);
    Ok(())
}
