//! The files that a command reads, and the table of messages: what is told of each fault after the
//! name of its file.
//!
//! Each file is opened, read and judged as what it is read as, before the next is opened. A fault
//! of a format or of a command becomes a [`Reason`]: a code, a word and where it lies. Its text is
//! handed over part by part, so a message takes no memory, whatever it tells.
#![tactic(auto)]

ghost use Rattle.std.specs.Prelude.{ℕ, List};
ghost use Rattle.dev_io.specs.Handed.{Handed};
ghost use Rattle.dev_io.specs.Known.{KnownFiles};
ghost use Rattle.source_files.specs.Following.{AreKnownAtLast};
ghost use Rattle.source_files.specs.HandedFiles.{GivesAll, GivesStop};
ghost use Rattle.source_files.specs.Order.{FirstIsNot};
ghost use Rattle.source_files.specs.Reading.{AreRead, IsRead, IsStopped, Source};
ghost use Rattle.source_files.specs.Contents.{Content as Held};
ghost use Rattle.source_files.specs.declared.read_faults.ReadFault.{ReadFault as Fault};

mod inputs;
mod json;
mod lists;
mod logs;
mod media;
mod messages;
mod objects;
mod places;
mod read_faults;
mod read_files;
mod reasons;
mod scripts;

pub use inputs::{Input, InputFile, InputKind};
pub use messages::{
    ale_reason, conform_reason, coord_reason, day_reason, edit_reason, events_reason,
    family_reason, far_command_reason, flat_reason, items_reason, json_reason, list_reason,
    media_reason, no_timecode_reason, not_carried_reason, not_timeline_reason, pull_frames_reason,
    range_reason, reel_reason, schema_reason, script_reason, undo_reason, unlisted_reason,
};
pub use read_faults::{ReadFault, Refusal, SourceFault};
pub use read_files::{
    input_file, input_files, json_file, list_file, log_file, media_file, noted_list_file,
    object_file, script_file, timeline_file,
};
pub use reasons::{Detail, Reason, put_reason};

/// Law: what calls read of files is what the files hold, where that is known and the calls gave
/// what is known. It does nothing.
pub fn known_files_are_read()
    ensures { (sources : List Source) (contents : List Held) (calls : List Handed)
        (old new : KnownFiles) → GivesAll sources contents calls → AreKnownAtLast calls old new
        → AreRead old.held sources contents }
{}

/// Law: why calls didn't read a file is so of what it holds, where that is known and the calls gave
/// what is known; each file before it was read. It does nothing.
pub fn known_files_are_unread()
    ensures { (sources : List Source) (name : List ℕ) (fault : Fault) (calls : List Handed)
        (old new : KnownFiles) → GivesStop sources name fault calls
        → AreKnownAtLast calls old new
        → FirstIsNot (IsRead old.held) (IsStopped old.held new.last fault) sources name }
{}
