//! The command lines of `otio`, over files and streams that are handed in.
#![tactic(auto)]

ghost use Rattle.std.specs.Prelude.{◌≡◌, ℕ, List, Option, IfSome};
ghost use Rattle.dev_io.specs.Calls.{Tells};
ghost use Rattle.dev_io.specs.Handed.{Handed};
ghost use Rattle.dev_io.specs.Known.{KnownFiles};
ghost use Rattle.source_files.specs.Following.{FollowsAtLast};
ghost use Rattle.source_files.specs.HandedFiles.{HandsOver};
ghost use Rattle.source_files.specs.Reading.{Held};
ghost use Rattle.otio_tools.specs.Alike.{AreAlike};
ghost use Rattle.otio_tools.specs.Answer.{Answers};
ghost use Rattle.otio_tools.specs.Ends.{Completes, Ends};
ghost use Rattle.otio_tools.specs.Forms.{Answer};
ghost use Rattle.otio_tools.specs.Kept.{KeepsGiven, KeepsKnown};
ghost use Rattle.otio_tools.specs.Run.{Streams};
ghost use Rattle.otio_tools.specs.Served.{Serves};
ghost use Rattle.otio_tools.specs.Worked.{LeavesGiven, LeavesKnown};
ghost use Rattle.otio_tools.specs.declared.Desk.{Desk as Left};

mod cat_and_tool;
mod command;
mod drill_command;
mod edit_command;
mod frames_command;
mod list_to_list;
mod list_to_timeline;
mod list_with_notes;
mod messages;
mod name_checks;
mod planning;
mod pull_command;
mod stat_command;
mod timeline_to_list;
mod work_files;
mod written_objects;

pub use command::run;
use otio_model::Timeline;
use undo_log::Log;

/// Law: words and files have at most one answer. It does nothing.
pub fn one_answer()
    ensures { (words : List (List ℕ)) (held : Held) (a b : Answer) → Answers words held a
        → Answers words held b → a ≡ b }
{}

/// Law: words that name a log as a media list have the same answers as words that name a plain
/// list of the same rows in its place. It does nothing.
pub fn same_answers()
    ensures { (words swapped : List (List ℕ)) (held : Held) (answer : Answer)
        → AreAlike held words swapped → Answers words held answer
        → Answers swapped held answer }
{}

/// Law: how a run ends over files whose content is known follows from what its calls gave, where
/// these gave what is known, as those of every run do: with the one answer to the arguments and the
/// files, which comes where no device fails and memory doesn't run out. It does nothing.
pub fn known_files_are_served()
    ensures ends { (words : List (List ℕ)) (before now : ℕ) (sent : Streams) (result : Status)
        (old new : Option KnownFiles) (start stop : List Handed)
        → HandsOver (Serves words before now sent result) start stop
        → FollowsAtLast old new start stop → Tells (Ends words before now sent result) old new }
    ensures complete { (words : List (List ℕ)) (before now : ℕ) (sent : Streams) (result : Status)
        (old new : Option KnownFiles) (start stop : List Handed)
        → HandsOver (Serves words before now sent result) start stop
        → FollowsAtLast old new start stop → IfSome old (Completes words before now sent result) }
    ensures kept { (words : List (List ℕ)) (sent : Streams) (result : Status)
        (old new : Option KnownFiles) (start stop : List Handed)
        → HandsOver (KeepsGiven words sent result) start stop
        → FollowsAtLast old new start stop → IfSome old (KeepsKnown words sent result) }
    ensures worked { (words : List (List ℕ)) (result : Status) (desk : Option Left)
        (old new : Option KnownFiles) (start stop : List Handed)
        → HandsOver (LeavesGiven words result desk) start stop
        → FollowsAtLast old new start stop → IfSome old (LeavesKnown words result desk) }
{}

/// What a command has worked on: a timeline, and the log of the edits that led to it.
pub struct Desk {
    /// The timeline at the log's position.
    pub timeline: Timeline,
    /// The edits that can be undone, and those that can be done again.
    pub log: Log,
}

/// How a run ended. The number next to each is the exit status of the program.
#[derive(Clone, Copy, PartialEq, Eq)]
pub enum Status {
    /// 0: all input was read to its end, and all output was taken.
    Done,
    /// 1: the input breaks a rule of its format; the message names the first fault.
    Refused,
    /// 2: the words are no command line of this program.
    Usage,
    /// 3: a file is absent, or opening or reading it failed.
    Input,
    /// 4: the stream of output failed; what was sent is a prefix of the output.
    Output,
    /// 5: no memory was left.
    Memory,
}

impl Status {
    ghost use Rattle.otio_tools.specs.Status.{exit_status};

    /// The exit status of the program, from 0 to 5.
    pub fn code(self) -> u8
        ensures { result ≡ exit_status self }
    {
        match self {
            Status::Done => 0,
            Status::Refused => 1,
            Status::Usage => 2,
            Status::Input => 3,
            Status::Output => 4,
            Status::Memory => 5,
        }
    }
}

// Drops are written out: a derived one is proved anew in each crate that drops such a value.

impl Drop for Desk {
    fn drop(self) {
        let Desk {
            timeline: _,
            log: _,
        } = self;
    }
}
