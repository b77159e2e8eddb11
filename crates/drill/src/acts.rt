//! The clips and the edits that are drawn.

ghost use Rattle.std.specs.Prelude.{◌≡◌, ◌≤◌, ◌<◌, ◌^◌, ◌+◌, ◌++◌, pos, IfOk, OnOk, decimal};
ghost use Rattle.drill.specs.Acts as acts;
ghost use Rattle.drill.specs.Draws as draws;

use crate::generator::Random;
use edit_script::{Act, Put};
use itoa::Buffer;
use otio_model::{Place, RemoveMode};
use sequences::Text;
use std::alloc::{AllocError, Global};

// A text and a number after it.
fn numbered(alloc: Global, text: &str, number: u64) -> Result<Text, AllocError>
    ensures { IfOk result (λ made. made ≡ text.now ++ decimal number) }
{
    let mut made = String::new(alloc);
    let mut digits = Buffer::new();
    made.push_str(text)?;
    made.push_str(digits.format(number))?;
    Text::from_string(alloc, made)
}

// The place of the one track.
fn track(alloc: Global) -> Result<Place, AllocError>
    ensures { IfOk result (λ place. place ≡ acts.track) }
{
    let mut place = Place::new(alloc);
    place.push(0)?;
    Ok(place)
}

impl Random {
    // A clip of a name and a reel, so many frames long at least.
    fn clip(&mut self, name: Text, reel: Text, least: u64) -> Put
        requires { least ≤ 24 }
        ensures clip { result ≡ acts.clip name reel least self.old.state }
        ensures state { self.new.state ≡ draws.after 2 self.old.state }
    {
        let start = 1000 + self.draw(1000) as i64;
        let length = (least + self.draw(48)) as i64;
        Put::Clip {
            name,
            reel,
            start,
            length,
        }
    }

    /// The clip of an index in the timeline that a drill begins with. An error comes where memory
    /// runs out.
    pub fn clip_at(&mut self, alloc: Global, index: u64) -> Result<Put, AllocError>
        ensures clip { IfOk result (λ put. put ≡ acts.clip_at index self.old.state) }
        ensures state { OnOk result (self.new.state ≡ draws.after 2 self.old.state) }
    {
        let name = numbered(alloc, "c", index)?;
        let reel = numbered(alloc, "R", index % 4)?;
        Ok(self.clip(name, reel, 24))
    }

    // The clip that an edit puts in.
    fn new_clip(&mut self, alloc: Global) -> Result<Put, AllocError>
        ensures clip { IfOk result (λ put. put ≡ acts.new_clip self.old.state) }
        ensures state { OnOk result (self.new.state ≡ draws.after 3 self.old.state) }
    {
        let number = self.draw(4);
        let name = Text::of(alloc, "n")?;
        let reel = numbered(alloc, "R", number)?;
        Ok(self.clip(name, reel, 1))
    }

    // By how many frames an edit moves something.
    fn shift(&mut self) -> i64
        ensures shift { result ≡ acts.shift self.old.state }
        ensures state { self.new.state ≡ draws.next self.old.state }
    {
        self.draw(21) as i64 - 10
    }

    // By how many frames an edit moves a head and a tail.
    fn edges(&mut self) -> (i64, i64)
        ensures head { result.0 ≡ acts.shift self.old.state }
        ensures tail { result.1 ≡ acts.shift (draws.next self.old.state) }
        ensures state { self.new.state ≡ draws.after 2 self.old.state }
    {
        let head = self.shift();
        let tail = self.shift();
        (head, tail)
    }

    // An edit that moves cuts or media, by its kind.
    fn moving(&mut self, kind: u64, place: Place, at: i64) -> Act
        requires { place ≡ acts.track }
        ensures act { result ≡ (acts.moving kind at self.old.state).act }
        ensures state { self.new.state ≡ (acts.moving kind at self.old.state).state }
    {
        if kind == 5 {
            let (head, tail) = self.edges();
            return Act::Trim {
                place,
                at,
                head,
                tail,
            };
        }
        if kind == 6 {
            let by = self.shift();
            return Act::Slip { place, at, by };
        }
        let (head, tail) = self.edges();
        if kind == 7 {
            return Act::Ripple {
                place,
                at,
                head,
                tail,
            };
        }
        Act::Roll {
            place,
            at,
            head,
            tail,
        }
    }

    // An edit by its kind. An error comes where memory runs out.
    fn act_of(&mut self, alloc: Global, kind: u64, at: i64) -> Result<Act, AllocError>
        ensures act { IfOk result (λ act. act ≡ (acts.act_of kind at self.old.state).act) }
        ensures state { OnOk result
            (self.new.state ≡ (acts.act_of kind at self.old.state).state) }
    {
        let place = track(alloc)?;
        if kind == 0 {
            let put = self.new_clip(alloc)?;
            return Ok(Act::Overwrite { place, at, put });
        }
        if kind == 1 {
            let put = self.new_clip(alloc)?;
            return Ok(Act::Insert { place, at, put });
        }
        if kind == 2 {
            return Ok(Act::Slice { place, at });
        }
        if kind == 3 {
            let mode = RemoveMode::Gap;
            return Ok(Act::Remove { place, at, mode });
        }
        if kind == 4 {
            let mode = RemoveMode::Close;
            return Ok(Act::Remove { place, at, mode });
        }
        Ok(self.moving(kind, place, at))
    }

    // A frame of the one track, where that is so many frames long, or of the ten after it.
    fn frame(&mut self, frames: u128) -> i64
        requires { frames < 2 ^ 127 }
        ensures frame { result ≡ pos (draws.draw (frames + 10) self.old.state) }
        ensures state { self.new.state ≡ draws.next self.old.state }
    {
        self.draw(frames + 10) as i64
    }

    /// An edit of the one track, where that is so many frames long. An error comes where memory
    /// runs out.
    pub fn act(&mut self, alloc: Global, frames: u128) -> Result<Act, AllocError>
        requires { frames < 2 ^ 127 }
        ensures act { IfOk result (λ act. act ≡ (acts.act frames self.old.state).act) }
        ensures state { OnOk result (self.new.state ≡ (acts.act frames self.old.state).state) }
    {
        let kind = self.draw(9);
        let at = self.frame(frames);
        self.act_of(alloc, kind, at)
    }
}
