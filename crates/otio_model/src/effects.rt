//! The effects of an item, with the speed that they come to.

ghost use Rattle.std.specs.Prelude.{◌≡◌, ◌++◌, ◌∷◌, [], pos, IfOk, IfSome, OnErr, OnOk};
ghost use Rattle.tick_time.specs.Times.{IsSpeed};
ghost use Rattle.otio_model.specs.Speeds.{kept_speed};

use crate::effect_types::Effect;
use crate::field_copies::copy_effect_list;
use crate::speeds;
use owned::Shared;
use sequences::Sequence;
use std::alloc::{AllocError, Global};
use std::marker::Model;
use std::mem;

/// The effects of an item, in order. Contracts see the list of them; the speed that they come to is
/// kept beside it, so that no call looks at each of them again. A copy of a copy shares the list.
pub struct Effects {
    list: Shared<Sequence<Effect>>,
    /// The speed after them, in millionths; past 1000 times where it passes them on the way.
    speed: i64,
    alloc: Global,
}

impl Model for Effects {
    ghost use Rattle.std.specs.Prelude.{List};
    ghost use Rattle.otio_model.specs.declared.effect_types.Effect.{Effect};

    ghost Value = { List Effect };

    ghost use Rattle.std.specs.Coded.{coded_list};
    ghost use Rattle.otio_model.specs.contracts.effect_types.Effect as effect_row;

    ghost coded = { coded_list effect_row.the_row.coded };

    ghost view = { λ effects. effects.list };

    ghost use Rattle.std.specs.Prelude.{◌≡◌, pos};
    ghost use Rattle.otio_model.specs.Speeds.{kept_speed, speed_in};

    ghost invariant = { λ effects.
        speed_in effects.speed ≡ kept_speed (pos 1000000) effects.list };
}

impl Effects {
    /// No effects. They take no memory.
    pub fn new(alloc: Global) -> Effects
        ensures { result ≡ [] }
    {
        Effects {
            list: Shared::own(Sequence::new(alloc)),
            speed: 1_000_000,
            alloc,
        }
    }

    /// The effects of `list`, in the same memory.
    pub fn of(list: Vec<Effect>) -> Effects
        ensures { result ≡ list.items }
    {
        let alloc = *list.allocator();
        let speed = speeds::number_of(speeds::kept_speed(list.as_slice()));
        Effects {
            list: Shared::own(Sequence::of(list)),
            speed,
            alloc,
        }
    }

    /// Equal effects, in memory that copies of them share. An error comes where memory runs out.
    pub(crate) fn copied(&self, alloc: Global) -> Result<Effects, AllocError>
        ensures { IfOk result (λ copy. copy ≡ self.now) }
    {
        let list = match self.list.share()? {
            Some(list) => list,
            None => shared_list(alloc, self.list.get().as_slice())?,
        };
        Ok(Effects {
            list,
            speed: self.speed,
            alloc,
        })
    }

    /// The effects, in order.
    pub fn as_slice(&self) -> &[Effect]
        ensures { result.now ≡ self.now }
    {
        self.list.get().as_slice()
    }

    /// Puts `effect` behind the others. An error comes where memory runs out, and the effects are
    /// then as they were.
    pub fn push(&mut self, effect: Effect) -> Result<(), AllocError>
        ensures added { OnOk result (self.new ≡ self.old ++ effect ∷ []) }
        ensures unchanged { OnErr result (self.new ≡ self.old) }
    {
        let mut list = match taken(self.alloc, &mut self.list) {
            Ok(list) => list,
            Err(fault) => return Err(fault),
        };
        let added = list.push(effect);
        self.speed = speeds::number_of(speeds::kept_speed(list.as_slice()));
        self.list = Shared::own(list);
        added
    }

    /// The speed after these effects, in millionths. `None` exactly where it passes 1000 times,
    /// either way, after one of them. In practice it takes constant time, which no clause says.
    #[tactic(auto, using(crate::proofs::SpeedLemmas::kept_in_range))]
    pub fn speed(&self) -> Option<i64>
        ensures speed { result ≡ kept_speed (pos 1000000) self.now }
        ensures range { IfSome result IsSpeed }
    {
        speeds::speed_in(self.speed)
    }
}

// Equal effects, in memory that copies of them share.
fn shared_list(alloc: Global, list: &[Effect]) -> Result<Shared<Sequence<Effect>>, AllocError>
    ensures { IfOk result (λ copy. copy ≡ list.now) }
{
    let copies = Sequence::of(copy_effect_list(alloc, list)?);
    if copies.len() == 0 {
        return Ok(Shared::own(copies));
    }
    Shared::of(alloc, copies)
}

// Takes the list out, a copy of it where others share it. An error comes where memory runs out,
// and the list is then as it was.
fn taken(alloc: Global, list: &mut Shared<Sequence<Effect>>) -> Result<Sequence<Effect>, AllocError>
    ensures taken { IfOk result (λ taken. taken ≡ list.old) }
    ensures unchanged { OnErr result (list.new ≡ list.old) }
{
    let held = mem::replace(list, Shared::own(Sequence::new(alloc)));
    match held.into_own() {
        Ok(own) => Ok(own),
        Err(shared) => match copy_effect_list(alloc, shared.get().as_slice()) {
            Ok(copies) => Ok(Sequence::of(copies)),
            Err(fault) => {
                *list = shared;
                Err(fault)
            }
        },
    }
}

// Drops are written out: a derived one is proved anew in each crate that drops such a value.

impl Drop for Effects {
    fn drop(self) {
        let Effects {
            list: _,
            speed: _,
            alloc: _,
        } = self;
    }
}
