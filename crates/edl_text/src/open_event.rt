//! The latest event line, which M2 lines and notes may still change.

ghost use Rattle.std.specs.Prelude.{◌≡◌, ◌++◌, ◌∷◌, [], Some, map, true, false, IfOk, MatchOption, OnOk};
ghost use Rattle.edl_text.specs.Views.{reel_said};
ghost use Rattle.edl_text.specs.Events.{where_set};
ghost use Rattle.edl_text.specs.Sides.{reel_of as reel_named, begun as begun_by, duration as duration_of, is_cut as is_cut_kind};
ghost use Rattle.edl_text.specs.Lines.{are_same_channels as same_channels};
ghost use Rattle.edl_text.specs.StateSaid.{wants, at_speed, given as given_by};

use crate::event_frames::Frames;
use crate::sides::{copy_side, is_reel};
use crate::statement_types::{Channels, Kind, ReelName};
use edl_list::{Channel, Cross, Event, Side};
use owned::Owned;
use sequences::Text;
use std::alloc::{AllocError, Global};

/// The latest event line, with its sides as the lines behind it have made them so far.
#[derive(Drop)]
pub(crate) struct Pending {
    pub(crate) line: u32,
    pub(crate) number: u32,
    pub(crate) channels: Channels,
    pub(crate) kind: Kind,
    pub(crate) frames: Frames,
    pub(crate) to: Side,
    pub(crate) from: Option<Side>,
}

// How an event of this kind begins, with its outgoing side.
fn begun(alloc: Global, kind: Kind, from: Option<Side>) -> Result<Cross, AllocError>
    ensures { IfOk result (λ cross. cross ≡ begun_by kind from) }
{
    match from {
        None => Ok(Cross::Cut),
        Some(from) => begun_from(alloc, kind, from),
    }
}

// How an event of this kind begins from this side.
fn begun_from(alloc: Global, kind: Kind, from: Side) -> Result<Cross, AllocError>
    ensures { IfOk result (λ cross. cross ≡ begun_by kind (Some from)) }
{
    match kind {
        Kind::Cut => Ok(Cross::Cut),
        Kind::Dissolve(frames) => {
            let from = Owned::of(alloc, from)?;
            Ok(Cross::Dissolve { frames, from })
        }
        Kind::Wipe { code, frames } => {
            let from = Owned::of(alloc, from)?;
            Ok(Cross::Wipe { code, frames, from })
        }
    }
}

// A copy of an outgoing side.
fn copy_from(alloc: Global, from: &Option<Side>) -> Result<Option<Side>, AllocError>
    ensures { IfOk result (λ copy. copy ≡ from.now) }
{
    match from {
        None => Ok(None),
        Some(side) => Ok(Some(copy_side(alloc, side)?)),
    }
}

// The side at that speed, where it has the reel and no speed yet.
fn sped(side: Side, reel: ReelName<'_>, tenths: u16) -> Option<Side>
    ensures { MatchOption result
        (wants (reel_named (reel_said reel.entry)) side ≡ false)
        (λ given. (wants (reel_named (reel_said reel.entry)) side ≡ true)
        × (given ≡ at_speed tenths side)) }
{
    let mut side = side;
    if side.speed.is_none() && is_reel(reel, &side.reel) {
        side.speed = Some(tenths);
        Some(side)
    } else {
        None
    }
}

// The outgoing side at that speed, where there is one that has the reel and no speed yet.
fn given(from: Option<Side>, reel: ReelName<'_>, tenths: u16) -> Option<Side>
    ensures { result ≡ given_by (reel_named (reel_said reel.entry)) tenths from }
{
    match from {
        None => None,
        Some(side) => sped(side, reel, tenths),
    }
}

/// The duration of an event line in frames, 0 for a cut.
pub(crate) fn duration(kind: Kind) -> u16
    ensures { result ≡ duration_of kind }
{
    match kind {
        Kind::Cut => 0,
        Kind::Dissolve(frames) => frames,
        Kind::Wipe { code: _, frames } => frames,
    }
}

/// Whether an event line is a `C` line.
pub(crate) fn is_cut(kind: Kind) -> bool
    ensures { result ≡ is_cut_kind kind }
{
    matches!(kind, Kind::Cut)
}

/// Whether two lines have the same channels.
pub(crate) fn are_same_channels(a: Channels, b: Channels) -> bool
    ensures { result ≡ same_channels a b }
{
    a.picture == b.picture && a.first_sound == b.first_sound && a.second_sound == b.second_sound
}

impl Pending {
    ghost use Rattle.edl_text.specs.StateSaid.{event_of, events_given, sped_up, sped_by, named_from, named_to, from_end};

    /// The line with a speed for that reel, where one of its sides wants it. Where both have the
    /// reel, a lone speed is the incoming side's, and of two the first is the outgoing side's.
    pub(crate) fn with_speed(self, reel: ReelName<'_>, tenths: u16) -> Option<Pending>
        ensures { result ≡ sped_up (reel_named (reel_said reel.entry)) tenths self }
    {
        let mut pending = self;
        if is_reel(reel, &pending.to.reel) {
            pending.with_incoming_speed(reel, tenths)
        } else {
            pending.from = Some(given(pending.from.take(), reel, tenths)?);
            Some(pending)
        }
    }

    // The line with a speed for the reel of its own side.
    fn with_incoming_speed(self, reel: ReelName<'_>, tenths: u16) -> Option<Pending>
        ensures { result ≡ sped_by self.to.speed (reel_named (reel_said reel.entry)) tenths self }
    {
        let mut pending = self;
        if let Some(earlier) = pending.to.speed {
            pending.from = Some(given(pending.from.take(), reel, earlier)?);
        }
        pending.to.speed = Some(tenths);
        Some(pending)
    }

    /// The line with the name of the clip that it comes from. An empty name is none.
    pub(crate) fn with_from(self, alloc: Global, name: &str) -> Result<Pending, AllocError>
        ensures { IfOk result (λ pending. pending ≡ named_from name.now self) }
    {
        let mut pending = self;
        if name.is_empty() {
            return Ok(pending);
        }
        let text = Text::of(alloc, name)?;
        match pending.from.take() {
            None => pending.to.name = Some(text),
            Some(side) => {
                let mut side = side;
                side.name = Some(text);
                pending.from = Some(side);
            }
        }
        Ok(pending)
    }

    /// The line with the name of the clip that it goes to, which only a pair has. An empty name is
    /// none.
    pub(crate) fn with_to(self, alloc: Global, name: &str) -> Result<Pending, AllocError>
        ensures { IfOk result (λ pending. pending ≡ named_to name.now self) }
    {
        let mut pending = self;
        if name.is_empty() {
            return Ok(pending);
        }
        if pending.from.is_some() {
            pending.to.name = Some(Text::of(alloc, name)?);
        }
        Ok(pending)
    }

    /// The side of the line as an outgoing side: it begins and ends where the line's source ends.
    pub(crate) fn from_side(&self, alloc: Global) -> Result<Side, AllocError>
        ensures { IfOk result (λ side. side ≡ from_end self.now.to) }
    {
        let mut side = copy_side(alloc, &self.to)?;
        side.src_in = side.src_out;
        Ok(side)
    }

    // The event of the line on one channel.
    fn event(&self, alloc: Global, channel: Channel) -> Result<Event, AllocError>
        ensures { IfOk result (λ event. event ≡ event_of self.now channel) }
    {
        Ok(Event {
            line: self.line,
            channel,
            to: copy_side(alloc, &self.to)?,
            cross: begun(alloc, self.kind, copy_from(alloc, &self.from)?)?,
            rec_in: i64::from(self.frames.record_in),
            rec_out: i64::from(self.frames.record_out),
        })
    }

    // Adds the event of the line on a channel that it has.
    fn push_on(
        &self,
        alloc: Global,
        set: bool,
        channel: Channel,
        events: &mut Vec<Event>,
    ) -> Result<(), AllocError>
        ensures { OnOk result (events.new.items
            ≡ events.old.items ++ map (event_of self.now) (where_set set channel)) }
    {
        if set {
            let event = self.event(alloc, channel)?;
            events.push(event)?;
        }
        Ok(())
    }

    // Adds the events of the line on the channels before a second sound.
    fn push_before(&self, alloc: Global, events: &mut Vec<Event>) -> Result<(), AllocError>
        ensures { OnOk result (events.new.items ≡ events.old.items
            ++ map (event_of self.now) (where_set self.now.channels.picture Channel.V)
            ++ map (event_of self.now) (where_set self.now.channels.first_sound Channel.A)) }
    {
        self.push_on(alloc, self.channels.picture, Channel::V, events)?;
        self.push_on(alloc, self.channels.first_sound, Channel::A, events)?;
        Ok(())
    }

    // The event of the line on one channel, in the same memory.
    fn into_event(self, alloc: Global, channel: Channel) -> Result<Event, AllocError>
        ensures { IfOk result (λ event. event ≡ event_of self channel) }
    {
        Ok(Event {
            line: self.line,
            channel,
            to: self.to,
            cross: begun(alloc, self.kind, self.from)?,
            rec_in: i64::from(self.frames.record_in),
            rec_out: i64::from(self.frames.record_out),
        })
    }

    // Adds the event of the line on its last channel, in the same memory.
    fn push_last(
        self,
        alloc: Global,
        channel: Channel,
        events: &mut Vec<Event>,
    ) -> Result<(), AllocError>
        ensures { OnOk result (events.new.items
            ≡ events.old.items ++ event_of self channel ∷ []) }
    {
        events.push(self.into_event(alloc, channel)?)?;
        Ok(())
    }

    /// Adds the events of the line; the last takes the sides of the line.
    pub(crate) fn push_to(self, alloc: Global, events: &mut Vec<Event>) -> Result<(), AllocError>
        ensures { OnOk result (events.new.items ≡ events.old.items ++ events_given self) }
    {
        if self.frames.record_in == self.frames.record_out {
            drop(self);
            return Ok(());
        }
        if self.channels.second_sound {
            return match self.push_before(alloc, events) {
                Ok(()) => self.push_last(alloc, Channel::A2, events),
                Err(error) => {
                    drop(self);
                    Err(error)
                }
            };
        }
        if self.channels.first_sound {
            return match self.push_on(alloc, self.channels.picture, Channel::V, events) {
                Ok(()) => self.push_last(alloc, Channel::A, events),
                Err(error) => {
                    drop(self);
                    Err(error)
                }
            };
        }
        if self.channels.picture {
            return self.push_last(alloc, Channel::V, events);
        }
        drop(self);
        Ok(())
    }
}
