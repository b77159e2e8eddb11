//! What lines say together, taken one by one.

ghost use Rattle.std.specs.Prelude.{◌≡◌, ◌<◌, ◌-◌, ◌^◌, ◌++◌, ◌&&◌, not, List, [], length, unwrap_or, IfOk, OnOk};
ghost use Rattle.edl_text.specs.Statements as plain;
ghost use Rattle.edl_text.specs.Views.{said as view, event_said, speed_said};
ghost use Rattle.edl_text.specs.Lines.{named as named_by};
ghost use Rattle.edl_text.specs.Sides.{is_cut as is_cut_kind};
ghost use Rattle.edl_text.specs.StateSides.{side_of as new_side};

use crate::end_of_list_faults::late_fault;
use crate::event_frames::{Frames, frames_of, is_label};
use crate::faults::EdlFault;
use crate::open_event::{Pending, are_same_channels, duration, is_cut};
use crate::order::in_record_order;
use crate::sides::reel_of;
use crate::statement_types::{EventLine, Kind, LineFault, SpeedLine, Statement};
use crate::statements::statement_of;
use edl_list::{Event, EventList, Reel, Side};
use sequences::Text;
use std::alloc::{AllocError, Global};
use tick_time::Rate;

/// What the lines so far say together.
#[derive(Drop)]
pub(crate) struct Said {
    pub(crate) alloc: Global,
    pub(crate) rate: Rate,
    /// The number of lines.
    pub(crate) line: u32,
    /// The first title.
    pub(crate) title: Option<Text>,
    /// Whether drop-frame mode is in force.
    pub(crate) drop: bool,
    /// Whether it was at the first event line.
    pub(crate) first_drop: Option<bool>,
    /// The events of the event lines but the latest, in the order of the lines.
    pub(crate) events: Vec<Event>,
    /// The latest event line.
    pub(crate) pending: Option<Pending>,
}

impl Said {
    ghost use Rattle.tick_time.specs.declared.rates.Rate.{Rate as RateSaid};
    ghost use Rattle.edl_text.specs.StateSaid.{Stands, StandsAtNext, Takes, TakesLine, is_first_line, misses_by, closed_from, closed_events, Begins, IsSameButLines, AreSaid, Gives};

    /// What no line says.
    pub(crate) fn new(alloc: Global, rate: Rate) -> Said
        ensures { Stands rate [] result }
    {
        Said {
            alloc,
            rate,
            line: 0,
            title: None,
            drop: false,
            first_drop: None,
            events: Vec::new(alloc),
            pending: None,
        }
    }

    /// Takes the next line, or answers its fault.
    pub(crate) fn take_line(&mut self, line: &[u8]) -> Result<(), EdlFault>
        ensures { (rate : RateSaid) (past : List plain.Statement) → length past < 2 ^ 32 - 1
            → Stands rate past self.old → TakesLine result rate past line.now self.new }
    {
        self.line = self.line.saturating_add(1);
        match statement_of(line) {
            Ok(statement) => self.take(statement),
            Err(fault) => Err(named(fault, self.line)),
        }
    }

    // Takes what the next line says.
    fn take(&mut self, statement: Statement<'_>) -> Result<(), EdlFault>
        ensures { (rate : RateSaid) (past : List plain.Statement) → StandsAtNext rate past self.old
            → Takes result rate past (view statement.entry) self.new }
    {
        match statement {
            Statement::Nothing => Ok(()),
            Statement::Title(title) => self.take_title(title),
            Statement::Mode(drop) => self.take_mode(drop),
            Statement::Event(event) => self.take_event(event),
            Statement::Speed(speed) => self.take_speed(speed),
            Statement::FromName(name) => self.take_from(name),
            Statement::ToName(name) => self.take_to(name),
        }
    }

    // Takes a title, the first of which counts.
    fn take_title(&mut self, title: &[u8]) -> Result<(), EdlFault>
        ensures { (rate : RateSaid) (past : List plain.Statement) → StandsAtNext rate past self.old
            → Takes result rate past (plain.Title title.now) self.new }
    {
        if self.title.is_some() {
            return Ok(());
        }
        match std::str::from_utf8(title) {
            Ok(text) => {
                self.title = Some(Text::of(self.alloc, text)?);
                Ok(())
            }
            Err(_) => Err(EdlFault::Form(self.line)),
        }
    }

    // Takes the frame code mode.
    fn take_mode(&mut self, drop: bool) -> Result<(), EdlFault>
        ensures { (rate : RateSaid) (past : List plain.Statement) → StandsAtNext rate past self.old
            → Takes result rate past (plain.Mode drop) self.new }
    {
        self.drop = drop;
        Ok(())
    }

    // Takes an M2 line.
    fn take_speed(&mut self, speed: SpeedLine<'_>) -> Result<(), EdlFault>
        ensures { (rate : RateSaid) (past : List plain.Statement) → StandsAtNext rate past self.old
            → Takes result rate past (plain.Speed (speed_said speed.entry)) self.new }
    {
        let Some(pending) = self.pending.take() else {
            return Err(EdlFault::Form(self.line));
        };
        let pending = match pending.with_speed(speed.reel, speed.tenths) {
            Some(pending) => pending,
            None => return Err(EdlFault::Form(self.line)),
        };
        if !is_label(speed.label, self.rate, self.drop) {
            return Err(EdlFault::Timecode(self.line));
        }
        if speed.reverse {
            return Err(EdlFault::Reverse(self.line));
        }
        self.pending = Some(pending);
        Ok(())
    }

    // Takes a note of the name of the clip that an event comes from.
    fn take_from(&mut self, name: &str) -> Result<(), EdlFault>
        ensures { (rate : RateSaid) (past : List plain.Statement) → StandsAtNext rate past self.old
            → Takes result rate past (plain.FromName name.now) self.new }
    {
        let Some(pending) = self.pending.take() else {
            return Err(EdlFault::Form(self.line));
        };
        self.pending = Some(pending.with_from(self.alloc, name)?);
        Ok(())
    }

    // Takes a note of the name of the clip that an event goes to.
    fn take_to(&mut self, name: &str) -> Result<(), EdlFault>
        ensures { (rate : RateSaid) (past : List plain.Statement) → StandsAtNext rate past self.old
            → Takes result rate past (plain.ToName name.now) self.new }
    {
        let Some(pending) = self.pending.take() else {
            return Err(EdlFault::Form(self.line));
        };
        self.pending = Some(pending.with_to(self.alloc, name)?);
        Ok(())
    }

    // Takes an event line.
    fn take_event(&mut self, event: EventLine<'_>) -> Result<(), EdlFault>
        ensures { (rate : RateSaid) (past : List plain.Statement) → StandsAtNext rate past self.old
            → Takes result rate past (plain.Event (event_said event.entry)) self.new }
    {
        if self.is_lone(&event) {
            return Err(EdlFault::Form(self.line));
        }
        let Some(frames) = frames_of(&event.labels, self.rate, self.drop) else {
            return Err(EdlFault::Timecode(self.line));
        };
        if frames.run_back() {
            return Err(EdlFault::Order(self.line));
        }
        if self.misses(event.kind, &frames) {
            return Err(EdlFault::Order(self.line));
        }
        self.begin(event, frames)?;
        Ok(())
    }

    /// The list that the lines say, once all were taken, or the first fault of its events.
    pub(crate) fn list(self) -> Result<EventList, EdlFault>
        ensures { (rate : RateSaid) (past : List plain.Statement) → AreSaid rate past
            → Stands rate past self → Gives result rate past }
    {
        let mut said = self;
        let _ = said.close(Kind::Cut)?;
        let Said {
            alloc,
            rate,
            line: _,
            title,
            drop: _,
            first_drop,
            events,
            pending: _,
        } = said;
        match late_fault(alloc, events.as_slice())? {
            None => {}
            Some(fault) => return Err(fault),
        }
        let events = in_record_order(events)?;
        Ok(EventList {
            title: title_of(title),
            rate,
            drop: first_drop.unwrap_or(false),
            events,
        })
    }

    // Whether this is a `D` or `W` line without the first line of its pair.
    fn is_lone(&self, event: &EventLine<'_>) -> bool
        ensures { result ≡ (not (is_cut_kind event.now.kind)
            && not (is_first_line self.now.pending event.now.number event.now.channels)) }
    {
        !is_cut(event.kind) && !self.has_first_line(event)
    }

    // Whether the latest event line is a `C` line of the number and channels of this one.
    fn has_first_line(&self, event: &EventLine<'_>) -> bool
        ensures { result ≡ is_first_line self.now.pending event.now.number event.now.channels }
    {
        match &self.pending {
            None => false,
            Some(pending) => {
                is_cut(pending.kind)
                    && pending.number == event.number
                    && are_same_channels(pending.channels, event.channels)
            }
        }
    }

    // Whether a line of this kind doesn't meet the latest event line in the record, or lasts
    // longer than its record length.
    fn misses(&self, kind: Kind, frames: &Frames) -> bool
        ensures { result ≡ misses_by self.now.pending kind frames.now }
    {
        match &self.pending {
            None => false,
            Some(pending) => {
                let length = frames.record_out.saturating_sub(frames.record_in);
                !is_cut(kind)
                    && (pending.frames.record_out != frames.record_in
                        || length < u32::from(duration(kind)))
            }
        }
    }

    // Makes an event line the latest one.
    fn begin(&mut self, event: EventLine<'_>, frames: Frames) -> Result<(), AllocError>
        ensures { OnOk result (Begins (event_said event.entry) frames self.old self.new) }
    {
        if self.first_drop.is_none() {
            self.first_drop = Some(self.drop);
        }
        let reel = reel_of(self.alloc, event.reel)?;
        let from = self.close(event.kind)?;
        self.pending = Some(Pending {
            line: self.line,
            number: event.number,
            channels: event.channels,
            kind: event.kind,
            frames,
            to: side_of(reel, frames),
            from,
        });
        Ok(())
    }

    // Adds the events of the latest event line, and gives the outgoing side that it is for a line
    // of this kind.
    fn close(&mut self, kind: Kind) -> Result<Option<Side>, AllocError>
        ensures from { IfOk result (λ from. from ≡ closed_from self.old.pending kind) }
        ensures events { OnOk result (self.new.events.items ≡ self.old.events.items
            ++ closed_events self.old.pending) }
        ensures same { OnOk result (IsSameButLines self.old self.new) }
    {
        let Some(pending) = self.pending.take() else {
            return Ok(None);
        };
        if duration(kind) == 0 {
            pending.push_to(self.alloc, &mut self.events)?;
            return Ok(None);
        }
        let from = pending.from_side(self.alloc)?;
        pending.push_to(self.alloc, &mut self.events)?;
        Ok(Some(from))
    }
}

// The title, empty where there is none.
fn title_of(title: Option<Text>) -> Text
    ensures { result ≡ unwrap_or title [] }
{
    match title {
        Some(title) => title,
        None => Text::empty(),
    }
}

// The side of an event line before any note on it.
fn side_of(reel: Reel, frames: Frames) -> Side
    ensures { result ≡ new_side reel frames }
{
    Side {
        reel,
        name: None,
        src_in: i64::from(frames.source_in),
        src_out: i64::from(frames.source_out),
        speed: None,
    }
}

// The fault of a line that says nothing that a list may say.
fn named(fault: LineFault, line: u32) -> EdlFault
    ensures { result ≡ named_by fault line }
{
    match fault {
        LineFault::Key => EdlFault::Key(line),
        LineFault::Split => EdlFault::Split(line),
        LineFault::Form => EdlFault::Form(line),
    }
}
