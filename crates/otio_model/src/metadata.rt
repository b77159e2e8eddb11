//! The metadata of items.

ghost use Rattle.std.specs.Prelude.{◌≡◌, [], None, codes, IfOk, IsTrue, OnErr, OnOk};
ghost use Rattle.std.specs.Option.{option_copied};
ghost use Rattle.sequences.specs.Pairs as pairs_of;
ghost use Rattle.json_value.specs.declared.Json.{out-Json};
ghost use Rattle.otio_model.specs.HeldMembers.{members_of};
ghost use Rattle.otio_model.specs.Reels.{listed_reel, member_in};

use crate::near::{place_of, value_near};
use json_value::{Json, Members, copy_members};
use sequences::Text;
use std::alloc::{AllocError, Global};
use std::marker::Model;
use std::mem;
use std::rc::Rc;

/// The name of the object in which lists (CMX 3600) look for a reel.
const LIST: &str = "cmx_3600";

/// The name of the reel in that object.
const REEL: &str = "reel";

/// As many members at most are searched each time.
const FEW: usize = 64;

/// The metadata of an item: values under distinct names, kept as they are. Contracts see the list
/// of the pairs of a name and a value. A copy of a copy shares them.
pub struct Metadata {
    held: Held,
}

/// Where the members lie: with their owner, or in memory that their owners share.
#[derive(Drop)]
pub(crate) enum Held {
    /// After the place of the object in which lists look for a reel.
    Own(u32, Members),
    Common(Rc<Known>),
}

/// Members that owners share, and what is known of the reel among them. A wrong place costs a
/// search and changes no answer.
pub(crate) struct Known {
    members: Members,
    /// The place of the object in which lists look for a reel.
    list: u32,
    /// The place of the reel in it.
    reel: u32,
    /// Whether they are known to have none.
    lacks_reel: bool,
}

impl Model for Known {
    ghost use Rattle.std.specs.Prelude.{List, ℕ};
    ghost use Rattle.json_value.specs.declared.Json.{Json};

    ghost Value = { List (List ℕ × Json) };

    ghost use Rattle.std.specs.Coded.{coded_list, coded×, coded_ℕ};
    ghost use Rattle.json_value.specs.contracts.Json as json_row;

    ghost coded = { coded_list (coded× (coded_list coded_ℕ) json_row.the_row.coded) };

    ghost view = { λ known. known.members };

    ghost use Rattle.std.specs.Prelude.{◌≡◌, IsTrue, None};
    ghost use Rattle.otio_model.specs.Reels.{listed_reel};

    ghost invariant = { λ known. IsTrue known.lacks_reel → listed_reel known.members ≡ None };
}

impl Model for Metadata {
    ghost use Rattle.std.specs.Prelude.{List, ℕ};
    ghost use Rattle.json_value.specs.declared.Json.{Json};

    ghost Value = { List (List ℕ × Json) };

    ghost use Rattle.std.specs.Coded.{coded_list, coded×, coded_ℕ};
    ghost use Rattle.json_value.specs.contracts.Json as json_row;

    ghost coded = { coded_list (coded× (coded_list coded_ℕ) json_row.the_row.coded) };

    ghost use Rattle.otio_model.specs.HeldMembers.{members_of};

    ghost view = { λ metadata. members_of metadata.held };
}

impl Metadata {
    /// No members. They take no memory.
    pub fn new(alloc: Global) -> Metadata
        ensures { result ≡ [] }
    {
        Metadata::of(Members::new(alloc))
    }

    /// These members, in the same memory.
    pub fn of(members: Members) -> Metadata
        ensures { result ≡ members }
    {
        Metadata {
            held: Held::Own(0, members),
        }
    }

    /// The members.
    pub fn get(&self) -> &Members
        ensures { result.now ≡ self.now }
    {
        match &self.held {
            Held::Own(_, members) => members,
            Held::Common(known) => &known.members,
        }
    }

    /// Puts `value` at `name`: in the place of the value that is there, and else at the end. An
    /// error comes where memory runs out, and the metadata are then as they were.
    pub fn put(&mut self, alloc: Global, name: Text, value: Json) -> Result<(), AllocError>
        ensures put { OnOk result (self.new ≡ pairs_of.put name value self.old) }
        ensures unchanged { OnErr result (self.new ≡ self.old) }
    {
        let mut members = match taken(alloc, &mut self.held) {
            Ok(members) => members,
            Err(fault) => return Err(fault),
        };
        let done = members.put(name, value);
        self.held = Held::Own(0, members);
        done
    }

    /// Equal metadata, in memory that copies of them share. An error comes where memory runs out.
    pub(crate) fn copied(&self, alloc: Global) -> Result<Metadata, AllocError>
        ensures { IfOk result (λ copy. copy ≡ self.now) }
    {
        let held = match &self.held {
            Held::Own(list, members) => common_copy(alloc, *list, members)?,
            Held::Common(known) => Held::Common(known.clone()?),
        };
        Ok(Metadata { held })
    }

    /// Keeps where the reel stands, or that there is none, where a search for it would be long. An
    /// error comes where memory runs out.
    pub(crate) fn keep_reel(&mut self, alloc: Global) -> Result<(), AllocError>
        ensures { OnOk result (self.new ≡ self.old) }
    {
        let members = taken(alloc, &mut self.held)?;
        self.held = if is_long(&members) {
            Held::Common(Rc::new(alloc, known_of(members))?)
        } else {
            Held::Own(place_of(members.as_slice(), LIST), members)
        };
        Ok(())
    }

    /// What stands in place of the reel in the object in which lists look for it; `None` where
    /// nothing does. In practice it takes constant time where the places are kept, which no clause
    /// says.
    pub(crate) fn reel(&self) -> Option<&Json>
        ensures { option_copied result ≡ listed_reel self.now }
    {
        match &self.held {
            Held::Own(list, members) => reel_near(members, *list, 0),
            Held::Common(known) => known.reel(),
        }
    }
}

impl Known {
    // What stands in place of the reel.
    fn reel(&self) -> Option<&Json>
        ensures { option_copied result ≡ listed_reel self.now }
    {
        if self.lacks_reel {
            None
        } else {
            reel_near(&self.members, self.list, self.reel)
        }
    }
}

// What stands in place of the reel, where the object stands at one place and the reel in it at
// another.
fn reel_near(members: &Members, list: u32, reel: u32) -> Option<&Json>
    ensures { option_copied result ≡ listed_reel members.now }
{
    reel_within(value_near(members, LIST, list as usize)?, reel as usize)
}

// The value of the reel's name among the members of an object.
fn reel_within(value: &Json, place: usize) -> Option<&Json>
    ensures { option_copied result ≡ member_in (codes "reel") (out-Json value.now) }
{
    match value {
        Json::Map(members) => value_near(members.get(), REEL, place),
        _ => None,
    }
}

// Whether a search for the reel would be long.
fn is_long(members: &Members) -> bool {
    if members.len() > FEW {
        return true;
    }
    match members.get(LIST) {
        Some(Json::Map(inner)) => inner.get().len() > FEW,
        _ => false,
    }
}

// The members, with what is known of the reel among them.
fn known_of(members: Members) -> Known
    ensures { result ≡ members }
{
    let lacks_reel = lacks_reel(&members);
    let list = place_of(members.as_slice(), LIST);
    let reel = place_of_reel(&members);
    Known {
        members,
        list,
        reel,
        lacks_reel,
    }
}

// Whether nothing stands in place of the reel.
fn lacks_reel(members: &Members) -> bool
    ensures { IsTrue result → listed_reel members.now ≡ None }
{
    match reel_near(members, 0, 0) {
        Some(_) => false,
        None => true,
    }
}

// The place of the reel in its object; 0 where there is none.
fn place_of_reel(members: &Members) -> u32 {
    match members.get(LIST) {
        Some(Json::Map(inner)) => place_of(inner.get().as_slice(), REEL),
        _ => 0,
    }
}

// Equal members, in memory that copies of them share.
fn common_copy(alloc: Global, list: u32, members: &Members) -> Result<Held, AllocError>
    ensures { IfOk result (λ copy. members_of copy ≡ members.now) }
{
    let copies = copy_members(alloc, members)?;
    if copies.len() == 0 {
        return Ok(Held::Own(list, copies));
    }
    let known = Known {
        members: copies,
        list,
        reel: 0,
        lacks_reel: false,
    };
    Ok(Held::Common(Rc::new(alloc, known)?))
}

// Takes the members out, a copy of them where others share them. An error comes where memory runs
// out, and the members are then as they were.
fn taken(alloc: Global, held: &mut Held) -> Result<Members, AllocError>
    ensures taken { IfOk result (λ taken. taken ≡ members_of held.old) }
    ensures unchanged { OnErr result (members_of held.new ≡ members_of held.old) }
{
    match mem::replace(held, Held::Own(0, Members::new(alloc))) {
        Held::Own(_, members) => Ok(members),
        Held::Common(known) => match copy_members(alloc, &known.members) {
            Ok(copies) => Ok(copies),
            Err(fault) => {
                *held = Held::Common(known);
                Err(fault)
            }
        },
    }
}

// Drops are written out: a derived one is proved again in each crate that drops such a value.

impl Drop for Metadata {
    fn drop(self) {
        let Metadata { held: _ } = self;
    }
}

impl Drop for Known {
    fn drop(self) {
        let Known {
            members: _,
            list: _,
            reel: _,
            lacks_reel: _,
        } = self;
    }
}
