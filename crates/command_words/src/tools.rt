// What the options of `tool` ask for.
ghost use Rattle.std.specs.Prelude.{◌≡◌, ◌<◌, ◌==◌, ℕ, List, Option, length, map, MatchOption};
ghost use Rattle.std.specs.List.{after_first, before_first, position_or_len};
ghost use Rattle.std.specs.Option.{option_map};
ghost use Rattle.command_words.specs.Given.{IsValue, given_by};
ghost use Rattle.command_words.specs.Tools.{AreTools, IsFlattening, IsJoining, IsOnly, IsWindow, are_several as several_behind, is_comma};

use crate::lines::Line;
use smpte_tc::{RecordPoint, point_of};
use text_lines::is_text;

/// How several timelines become one.
#[derive(Clone, Copy, PartialEq, Eq)]
pub enum Joining {
    /// One after another, track by track.
    Concat,
    /// One above another.
    Stack,
}

/// A kind of tracks.
#[derive(Clone, Copy, PartialEq, Eq)]
pub enum TrackKind {
    /// Tracks of pictures.
    Video,
    /// Tracks of sound.
    Audio,
}

/// Which tracks are flattened into one of their kind.
#[derive(Clone, Copy, PartialEq, Eq)]
pub enum Flattening {
    /// Those of pictures.
    Video,
    /// Those of sound.
    Audio,
    /// Those of pictures, and then those of sound.
    All,
}

/// What is kept of a timeline, from one record point to another.
#[derive(Clone, Copy, PartialEq, Eq)]
pub struct Window {
    /// The record point of the first frame that is kept.
    pub start: RecordPoint,
    /// The record point of the first frame that isn't kept any more.
    pub end: RecordPoint,
}

/// What is done with timelines, in this order, and what is listed of the outcome.
#[derive(Clone, Copy, PartialEq, Eq)]
pub struct ToolAsked {
    /// How the timelines become one; none where one file alone is named.
    pub joining: Option<Joining>,
    /// The kind of tracks that stay; none for all of them.
    pub only: Option<TrackKind>,
    /// Whether transitions are removed.
    pub remove_transitions: bool,
    /// What is kept; none for all of it.
    pub trim: Option<Window>,
    /// Which tracks are flattened; none for no track.
    pub flatten: Option<Flattening>,
    /// Whether the tracks that were flattened stay next to the new one.
    pub keep_flattened: bool,
    /// Whether the tracks are listed.
    pub list_tracks: bool,
    /// Whether the clips are listed.
    pub list_clips: bool,
    /// Whether the media of the clips are listed.
    pub list_media: bool,
    /// Whether the counts of items are listed.
    pub stats: bool,
}

/// What the options of `tool` ask for.
pub fn tool_asked(line: &Line<'_>) -> Option<ToolAsked>
    ensures { MatchOption result ((asked : ToolAsked) → AreTools (given_by line.now) asked → ⊥)
        (AreTools (given_by line.now)) }
{
    let tool = line.tool;
    let several = are_several(line.more.as_slice());
    let Some(joining) = joining_of(tool.concat, tool.stack, several) else {
        return None;
    };
    let Some(only) = only_of(tool.video_only, tool.audio_only) else {
        return None;
    };
    let Some(trim) = trim_asked(tool.trim) else {
        return None;
    };
    match flatten_asked(tool.flatten) {
        Some(flatten) => Some(ToolAsked {
            joining,
            only,
            remove_transitions: tool.remove_transitions,
            trim,
            flatten,
            keep_flattened: tool.keep_flattened,
            list_tracks: tool.list_tracks,
            list_clips: tool.list_clips,
            list_media: tool.list_media,
            stats: tool.stats,
        }),
        None => None,
    }
}

// Whether there are names after the first.
fn are_several(names: &[&str]) -> bool
    ensures { result ≡ several_behind (map (λ n. n.now) names.now) }
{
    match names {
        [] => false,
        [_, ..] => true,
    }
}

// How several timelines become one.
fn joining_of(concat: bool, stack: bool, several: bool) -> Option<Option<Joining>>
    ensures { MatchOption result
        ((joining : Option Joining) → IsJoining concat stack several joining → ⊥)
        (λ joining. IsJoining concat stack several joining) }
{
    match (concat, stack, several) {
        (true, true, _) => None,
        (true, false, _) => Some(Some(Joining::Concat)),
        (false, true, _) => Some(Some(Joining::Stack)),
        (false, false, true) => None,
        (false, false, false) => Some(None),
    }
}

// The kind of tracks that stay.
fn only_of(video: bool, audio: bool) -> Option<Option<TrackKind>>
    ensures { MatchOption result ((only : Option TrackKind) → IsOnly video audio only → ⊥)
        (λ only. IsOnly video audio only) }
{
    match (video, audio) {
        (true, true) => None,
        (true, false) => Some(Some(TrackKind::Video)),
        (false, true) => Some(Some(TrackKind::Audio)),
        (false, false) => Some(None),
    }
}

// The window that an option asks for.
fn trim_asked(word: Option<&str>) -> Option<Option<Window>>
    ensures { let given = option_map (λ s. s.now) word.entry in MatchOption result
        ((trim : Option Window) → IsValue IsWindow given trim → ⊥)
        (λ trim. IsValue IsWindow given trim) }
{
    match word {
        Some(word) => match window_of(word) {
            Some(window) => Some(Some(window)),
            None => None,
        },
        None => Some(None),
    }
}

// The window that a word is.
fn window_of(word: &str) -> Option<Window>
    ensures { MatchOption result ((window : Window) → IsWindow word.now window → ⊥)
        (IsWindow word.now) }
{
    let Some((start, end)) = split_at_comma(word) else {
        return None;
    };
    let Some(start) = point_of(start) else {
        return None;
    };
    match point_of(end) {
        Some(end) => Some(Window { start, end }),
        None => None,
    }
}

// What stands before the first comma, and after it.
fn split_at_comma(word: &str) -> Option<(&str, &str)>
    ensures { MatchOption result (position_or_len is_comma word.now ≡ length word.now)
        (λ parts. (parts.0.now ≡ before_first is_comma word.now)
        × (parts.1.now ≡ after_first is_comma word.now)
        × (position_or_len is_comma word.now < length word.now)) }
{
    word.split_once(',')
}

// Which tracks an option asks to flatten.
fn flatten_asked(word: Option<&str>) -> Option<Option<Flattening>>
    ensures { let given = option_map (λ s. s.now) word.entry in MatchOption result
        ((flatten : Option Flattening) → IsValue IsFlattening given flatten → ⊥)
        (λ flatten. IsValue IsFlattening given flatten) }
{
    match word {
        Some(word) => match flattening_of(word) {
            Some(flattening) => Some(Some(flattening)),
            None => None,
        },
        None => Some(None),
    }
}

// Which tracks a word says.
fn flattening_of(word: &str) -> Option<Flattening>
    ensures { MatchOption result ((flattening : Flattening) → IsFlattening word.now flattening → ⊥)
        (λ flattening. IsFlattening word.now flattening) }
{
    let word = word.as_bytes();
    if is_text(word, b"video") {
        return Some(Flattening::Video);
    }
    if is_text(word, b"audio") {
        return Some(Flattening::Audio);
    }
    if is_text(word, b"all") {
        return Some(Flattening::All);
    }
    None
}
