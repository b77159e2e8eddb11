// The words of commands, and the names of files.
ghost use Rattle.std.specs.Prelude.{◌≡◌, ◌↔◌, [], ◌∷◌, length, map, string_bytes, IsTrue, MatchOption};
ghost use Rattle.text_lines.specs.KeyWords.{meaning};
ghost use Rattle.command_words.specs.Names.{command_verbs, HasList, IsListName, IsLogName};

use text_lines::{is_word, strip_back};

/// A command, by its own word.
#[derive(Clone, Copy, PartialEq, Eq)]
pub enum Verb {
    /// `convert`.
    Convert,
    /// `cat`.
    Cat,
    /// `stat`.
    Stat,
    /// `tool`.
    Tool,
    /// `frames`.
    Frames,
    /// `edit`.
    Edit,
    /// `drill`.
    Drill,
    /// `pull`.
    Pull,
    /// `media`.
    Media,
}

/// The first of some words, and the others.
pub fn first_word(words: &[String]) -> Option<(&str, &[String])>
    ensures { MatchOption result
        (map (λ w. string_bytes w) words.now ≡ [])
        (λ first. map (λ w. string_bytes w) words.now ≡
        first.0.now ∷ map (λ w. string_bytes w) first.1.now) }
{
    let (word, rest) = words.split_first()?;
    Some((word.as_str(), rest))
}

/// The command of that word.
pub fn verb_of(word: &str) -> Option<Verb>
    ensures { result ≡ meaning word.now command_verbs }
{
    let word = word.as_bytes();
    if is_word(word, b"convert") {
        return Some(Verb::Convert);
    }
    if is_word(word, b"cat") {
        return Some(Verb::Cat);
    }
    if is_word(word, b"stat") {
        return Some(Verb::Stat);
    }
    if is_word(word, b"tool") {
        return Some(Verb::Tool);
    }
    if is_word(word, b"frames") {
        return Some(Verb::Frames);
    }
    if is_word(word, b"edit") {
        return Some(Verb::Edit);
    }
    if is_word(word, b"drill") {
        return Some(Verb::Drill);
    }
    if is_word(word, b"pull") {
        return Some(Verb::Pull);
    }
    if is_word(word, b"media") {
        return Some(Verb::Media);
    }
    None
}

/// Whether a name ends with `.edl`.
pub fn is_list_name(name: &str) -> bool
    ensures { IsTrue result ↔ IsListName name.now }
{
    strip_back(name.as_bytes(), b".edl").is_some()
}

/// Whether a name ends with `.ale` or `.ALE`.
pub fn is_log_name(name: &str) -> bool
    ensures { IsTrue result ↔ IsLogName name.now }
{
    strip_back(name.as_bytes(), b".ale").is_some() || strip_back(name.as_bytes(), b".ALE").is_some()
}

/// Whether one of some names ends with `.edl`.
pub fn has_list(names: &[&str]) -> bool
    ensures { IsTrue result ↔ HasList (map (λ n. n.now) names.now) }
{
    for &name in names {
        if is_list_name(name) {
            return true;
        }
    }
    false
}
