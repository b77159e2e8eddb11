//! Command lines of `tool`, and of commands that read several files.

use crate::word_tests::{Wanted, asks, is_refused};
use command_words::{Command, Flattening, Joining, ToolAsked, TrackKind, Window};
use smpte_tc::RecordPoint;
use std::alloc::Global;
use std::process::Abort;
use tick_time::{Rate, rate_of};

// `tool` without an option.
fn plain_tool() -> ToolAsked {
    ToolAsked {
        joining: None,
        only: None,
        remove_transitions: false,
        trim: None,
        flatten: None,
        keep_flattened: false,
        list_tracks: false,
        list_clips: false,
        list_media: false,
        stats: false,
    }
}

// That a line asks for this command on these files.
fn asks_for_files(rt: &impl Abort, alloc: Global, line: &str, command: Command, names: &str) {
    asks(rt, alloc, line, &Wanted::Files(command, names));
}

// That lines ask for `cat` and `stat` of timelines.
fn timelines_are_asked_for(rt: &impl Abort, alloc: Global) {
    asks_for_files(rt, alloc, "cat x", Command::Cat, "x");
    asks_for_files(
        rt,
        alloc,
        "cat a b --media m c -o y d",
        Command::Cat,
        "a b c d",
    );
    asks_for_files(rt, alloc, "cat a -- --b -", Command::Cat, "a --b -");
    asks_for_files(rt, alloc, "stat x", Command::Stat, "x");
    asks_for_files(rt, alloc, "stat - --media -", Command::Stat, "-");
}

// That lines ask for the same of lists.
fn lists_are_asked_for(rt: &impl Abort, alloc: Global, rate: Rate) {
    let cat = Command::ListCat { rate };
    asks_for_files(rt, alloc, "cat --rate 24 a b.edl", cat, "a b.edl");
    asks_for_files(rt, alloc, "cat a.edl b", cat, "a.edl b");
    let stat = Command::ListStat { rate };
    asks_for_files(rt, alloc, "stat .edl", stat, ".edl");
}

// That lines ask for `tool` on several files.
fn tools_are_asked_for(rt: &impl Abort, alloc: Global, rate: Rate) {
    asks_for_tool(rt, alloc, "tool x", plain_tool());
    let tool = ToolAsked {
        joining: Some(Joining::Stack),
        ..plain_tool()
    };
    asks_for_files(
        rt,
        alloc,
        "tool a b --stack c",
        Command::Tool(tool),
        "a b c",
    );
    let of_lists = Command::ListTool { rate, tool };
    asks_for_files(rt, alloc, "tool a.edl --stack", of_lists, "a.edl");
}

#[test]
fn lines_ask_for_several_files(rt: HostRuntime) {
    let Some(rate) = rate_of(b"24") else {
        assert!(rt; false);
        return;
    };
    timelines_are_asked_for(&rt, rt.alloc());
    lists_are_asked_for(&rt, rt.alloc(), rate);
    tools_are_asked_for(&rt, rt.alloc(), rate);
}

// That a line asks for this of the one file `x`.
fn asks_for_tool(rt: &impl Abort, alloc: Global, line: &str, tool: ToolAsked) {
    asks_for_files(rt, alloc, line, Command::Tool(tool), "x");
}

#[test]
fn lines_ask_for_tool_listings(rt: HostRuntime) {
    let plain = plain_tool();
    let tracks = ToolAsked {
        list_tracks: true,
        stats: true,
        ..plain
    };
    asks_for_tool(&rt, rt.alloc(), "tool x --list-tracks --stats", tracks);
    let media = ToolAsked {
        list_media: true,
        ..plain
    };
    asks_for_tool(&rt, rt.alloc(), "tool x --list-media", media);
    let clips = ToolAsked {
        list_clips: true,
        ..plain
    };
    asks_for_tool(&rt, rt.alloc(), "tool --list-clips x", clips);
}

#[test]
fn lines_ask_for_tool_tracks(rt: HostRuntime) {
    let plain = plain_tool();
    let video = ToolAsked {
        only: Some(TrackKind::Video),
        ..plain
    };
    asks_for_tool(&rt, rt.alloc(), "tool x --video-only", video);
    let audio = ToolAsked {
        only: Some(TrackKind::Audio),
        ..plain
    };
    asks_for_tool(&rt, rt.alloc(), "tool x --audio-only", audio);
    let cuts = ToolAsked {
        remove_transitions: true,
        ..plain
    };
    asks_for_tool(&rt, rt.alloc(), "tool x --remove-transitions", cuts);
    let joined = ToolAsked {
        joining: Some(Joining::Concat),
        ..plain
    };
    asks_for_tool(&rt, rt.alloc(), "tool x --concat", joined);
}

#[test]
fn lines_ask_for_tool_flattening(rt: HostRuntime) {
    let plain = plain_tool();
    let all = ToolAsked {
        flatten: Some(Flattening::All),
        ..plain
    };
    asks_for_tool(&rt, rt.alloc(), "tool --flatten=all x", all);
    let audio = ToolAsked {
        flatten: Some(Flattening::Audio),
        keep_flattened: true,
        ..plain
    };
    asks_for_tool(
        &rt,
        rt.alloc(),
        "tool x --flatten audio --keep-flattened-tracks",
        audio,
    );
    let video = ToolAsked {
        flatten: Some(Flattening::Video),
        ..plain
    };
    asks_for_tool(&rt, rt.alloc(), "tool x --flatten video", video);
}

#[test]
fn a_line_asks_for_a_tool_window(rt: HostRuntime) {
    let start = RecordPoint::Frame(4);
    let end = RecordPoint::Label(*b"01:00:00:00");
    let tool = ToolAsked {
        trim: Some(Window { start, end }),
        ..plain_tool()
    };
    asks_for_tool(&rt, rt.alloc(), "tool x --trim 4,01:00:00:00", tool);
}

/// Lines that ask for no such command.
const NO_TOOLS: [&str; 27] = [
    "cat",
    "stat",
    "tool",
    "stat a b",
    "cat - -",
    "cat a - b -",
    "cat - a.edl --media -",
    "stat a.edl - ",
    "cat x --stats",
    "stat x --stats",
    "cat x --rate 29.5",
    "tool a b",
    "tool a --concat --stack",
    "tool a b --concat --stack",
    "tool a --video-only --audio-only",
    "tool a --stats --stats",
    "tool a --trim 4",
    "tool a --trim 4,",
    "tool a --trim ,4",
    "tool a --trim 4,5,6",
    "tool a --trim 4,05",
    "tool a --trim 1 2",
    "tool a --flatten both",
    "tool a --flatten",
    "tool a --flatten all --flatten all",
    "tool a --script s",
    "convert x --stats",
];

#[test]
fn other_lines_ask_for_no_tools(rt: HostRuntime) {
    for line in NO_TOOLS.iter() {
        is_refused(&rt, rt.alloc(), line);
    }
}
