//! Steps of the machine that reads JSON text, over many bytes.

ghost use Rattle.std.specs.Prelude.{◌≡◌, ◌<◌, ◌≤◌, [], true, List, ℕ, Ok, Some, IfOk, IfSome, MatchOption, length, slice_index, take, drop};
ghost use Rattle.std.specs.Str.{IsUtf8, is_utf8};
ghost use Rattle.json_text.specs.State.Stands.{state_of, levels_of, hand_of};
ghost use Rattle.json_text.specs.State.Machine as spec;
ghost use Rattle.json_text.specs.Grammar.{AreBlank};
ghost use Rattle.json_text.specs.State.Runs.{IsRan, Skims, AreOpen, EndsAt, IsNumeral, place_behind};
ghost use Rattle.json_text.specs.State.Stands.{AddsText};

use crate::bytes::{
    after, are_open, before, ends, first_place, is_ascii, is_open, is_plain, is_whitespace,
    next_place, text_from,
};
use crate::escapes::gathered;
use crate::machine::Machine;
use crate::state::{Hand, Kind, Part, Place, Ran, Role, Taken};
use json_value::Json;
use sequences::{Text, TextRoom};
use std::alloc::AllocError;

/// Runs of a string that are shorter are gathered with the escapes after them.
const FEW: usize = 32;

/// Strings of ASCII that are shorter are taken at once.
const SHORT: usize = 23;

/// So many bytes are looked at one by one before whole blocks are.
const HEAD: usize = 16;

/// The bytes of a block.
const BLOCK: usize = 64;

impl Machine {
    /// Takes the bytes up to the first that can't be taken.
    pub(crate) fn run(&mut self, bytes: &[u8]) -> Result<Ran, AllocError>
        ensures { IfOk result (λ ran. IsRan ran (state_of self.old) bytes.now (state_of self.new)) }
    {
        let mut at = 0;
        while at < bytes.len() {
            let count = self.skim_from(bytes, at)?;
            if count > 0 {
                at += count;
            } else {
                match self.step(bytes[at])? {
                    Taken::Goes => {}
                    Taken::Stops(stop) => return Ok(Ran::Stops(at, stop)),
                }
                at += 1;
            }
        }
        Ok(Ran::All)
    }

    // Takes bytes from that index on that need no step of their own, and says how many they are.
    #[inline(always)]
    fn skim_from(&mut self, bytes: &[u8], at: usize) -> Result<usize, AllocError>
        requires { at < length bytes.now }
        ensures { IfOk result (λ count. Skims count (state_of self.old) (drop at bytes.now)
            (state_of self.new)) }
    {
        match bytes[at] {
            b'[' | b']' | b'{' | b'}' => Ok(0),
            _ => self.skim(after(bytes, at)),
        }
    }

    // Takes bytes that need no step of their own, as those of a string, of a numeral and white
    // space, and says how many they are.
    fn skim(&mut self, bytes: &[u8]) -> Result<usize, AllocError>
        ensures { IfOk result (λ count. Skims count (state_of self.old) bytes.now
            (state_of self.new)) }
    {
        match self.hand {
            Hand::Text(role, part) => match part {
                Part::Plain => self.skim_text(role, bytes),
                _ => Ok(0),
            },
            Hand::Value => self.skim_value(bytes),
            Hand::NextName => self.skim_name(bytes),
            Hand::FirstItem | Hand::FirstName | Hand::Behind => Ok(self.skim_blank(bytes)),
            Hand::Number(place) => self.skim_number(place, bytes),
            _ => Ok(0),
        }
    }

    // Takes white space before a name, or a quote and bytes of the string that it begins.
    fn skim_name(&mut self, bytes: &[u8]) -> Result<usize, AllocError>
        requires { self.old.hand ≡ Hand.NextName }
        ensures { IfOk result (λ count. Skims count (state_of self.old) bytes.now
            (state_of self.new)) }
    {
        if !bytes.is_empty() && bytes[0] == b'"' {
            return self.skim_quoted(Role::Name, bytes);
        }
        Ok(blank_count(bytes))
    }

    // Takes a quote that begins a string, and bytes of the string.
    fn skim_quoted(&mut self, role: Role, bytes: &[u8]) -> Result<usize, AllocError>
        requires some { 0 < length bytes.now }
        requires quote { slice_index bytes.now 0 ≡ 34 }
        requires begins { spec.step 127 (levels_of self.old) (state_of self.old).hand 34
            ≡ Ok (spec.state (levels_of self.old) (spec.text role [] spec.plain)) }
        ensures { IfOk result (λ count. Skims count (state_of self.old) bytes.now
            (state_of self.new)) }
    {
        self.text.clear();
        self.hand = Hand::Text(role, Part::Plain);
        let count = self.skim_text(role, after(bytes, 1))?;
        Ok(1 + count)
    }

    // Takes white space before a value, a whole numeral with the comma after it, or a quote and
    // bytes of the string that it begins.
    fn skim_value(&mut self, bytes: &[u8]) -> Result<usize, AllocError>
        requires { self.old.hand ≡ Hand.Value }
        ensures { IfOk result (λ count. Skims count (state_of self.old) bytes.now
            (state_of self.new)) }
    {
        if !bytes.is_empty() && bytes[0] == b'"' {
            return self.skim_quoted(Role::Content, bytes);
        }
        let blank = blank_count(bytes);
        if blank > 0 {
            return Ok(blank);
        }
        let count = numeral_count(bytes);
        if count > 0 {
            self.whole_number(bytes, count)
        } else {
            Ok(0)
        }
    }

    // Takes a whole numeral of so many bytes, with the comma after it.
    fn whole_number(&mut self, bytes: &[u8], count: usize) -> Result<usize, AllocError>
        requires hand { self.old.hand ≡ Hand.Value }
        requires whole { IsNumeral count bytes.now }
        ensures { IfOk result (λ taken. Skims taken (state_of self.old) bytes.now
            (state_of self.new)) }
    {
        let Some(next) = self.behind_comma() else {
            return Ok(0);
        };
        let numeral = Text::front(self.alloc, bytes, count)?;
        self.place(Json::Num(numeral))?;
        self.hand = next;
        Ok(count + 1)
    }

    // What is at hand after a comma of the innermost list or object.
    fn behind_comma(&self) -> Option<Hand>
        ensures { IfSome result (λ hand. (value root : Json) (text : List ℕ) →
            spec.behind_placed (levels_of self.now) value 44
            ≡ Ok (spec.state (spec.placed (levels_of self.now) value).levels
            (hand_of hand text root))) }
    {
        match self.kind() {
            None => None,
            Some(Kind::List) => Some(Hand::Value),
            Some(Kind::Map) => Some(Hand::NextName),
        }
    }

    // How many of the first bytes are white space, where that may stand in the innermost list or
    // object.
    fn skim_blank(&self, bytes: &[u8]) -> usize
        ensures { Skims result (state_of self.now) bytes.now (state_of self.now) }
    {
        let Some(level) = self.kind() else {
            return 0;
        };
        match self.hand {
            Hand::FirstItem => match level {
                Kind::List => blank_count(bytes),
                Kind::Map => 0,
            },
            Hand::FirstName => match level {
                Kind::Map => blank_count(bytes),
                Kind::List => 0,
            },
            Hand::Behind => blank_count(bytes),
            _ => 0,
        }
    }

    // Takes bytes of a string: a whole one with its end, or characters that stand for themselves.
    fn skim_text(&mut self, role: Role, bytes: &[u8]) -> Result<usize, AllocError>
        requires { self.old.hand ≡ Hand.Text role Part.Plain }
        ensures { IfOk result (λ count. Skims count (state_of self.old) bytes.now
            (state_of self.new)) }
    {
        let short = short_count(bytes);
        if self.text.is_empty() && short < bytes.len() && bytes[short] == b'"' {
            return match role {
                Role::Content => self.short_content(bytes, short),
                Role::Name => self.short_name(bytes, short),
            };
        }
        let count = open_from(bytes, short);
        if self.text.is_empty() && count < bytes.len() && bytes[count] == b'"' {
            return match role {
                Role::Content => self.whole_content(bytes, count),
                Role::Name => self.whole_name(bytes, count),
            };
        }
        if count < FEW {
            self.skim_gathered(role, bytes)
        } else {
            self.skim_open(bytes, count)
        }
    }

    // Takes a whole string of ASCII that is a value, with its end, which is at that index.
    fn short_content(&mut self, bytes: &[u8], count: usize) -> Result<usize, AllocError>
        requires hand { self.old.hand ≡ Hand.Text Role.Content Part.Plain }
        requires fresh { self.old.text.items ≡ [] }
        requires whole { EndsAt count bytes.now }
        requires utf8 { is_utf8 (take count bytes.now) ≡ true }
        ensures { IfOk result (λ taken. Skims taken (state_of self.old) bytes.now
            (state_of self.new)) }
    {
        let text = Text::front(self.alloc, bytes, count)?;
        self.place(Json::Str(text))?;
        Ok(self.skim_follow(bytes, count + 1))
    }

    // Takes a whole string of ASCII that is a name, with its end, which is at that index.
    fn short_name(&mut self, bytes: &[u8], count: usize) -> Result<usize, AllocError>
        requires hand { self.old.hand ≡ Hand.Text Role.Name Part.Plain }
        requires fresh { self.old.text.items ≡ [] }
        requires whole { EndsAt count bytes.now }
        requires utf8 { is_utf8 (take count bytes.now) ≡ true }
        ensures { IfOk result (λ taken. Skims taken (state_of self.old) bytes.now
            (state_of self.new)) }
    {
        let Some(level) = self.kind() else {
            return Ok(0);
        };
        match level {
            Kind::Map => {}
            Kind::List => return Ok(0),
        }
        let text = Text::front(self.alloc, bytes, count)?;
        self.names(text);
        Ok(self.skim_follow(bytes, count + 1))
    }

    // Takes a colon after a name or a comma after a value, where so many bytes were taken, and
    // says how many are taken then.
    fn skim_follow(&mut self, bytes: &[u8], taken: usize) -> usize
        requires { taken ≤ length bytes.now }
        ensures { (state : spec.MachineState) → Skims taken state bytes.now (state_of self.old)
            → Skims result state bytes.now (state_of self.new) }
    {
        if taken >= bytes.len() {
            return taken;
        }
        match self.hand_after(bytes[taken]) {
            Some(hand) => {
                self.hand = hand;
                taken + 1
            }
            None => taken,
        }
    }

    // What is at hand after a colon after a name, and after a comma after a value; `None` at any
    // other byte.
    fn hand_after(&self, byte: u8) -> Option<Hand>
        ensures { IfSome result (λ hand. (text : List ℕ) (root : Json) →
            spec.step 127 (levels_of self.now) (state_of self.now).hand byte
            ≡ Ok (spec.state (levels_of self.now) (hand_of hand text root))) }
    {
        match self.hand {
            Hand::Colon if byte == b':' => Some(Hand::Value),
            Hand::Behind if byte == b',' => match self.kind() {
                None => None,
                Some(Kind::List) => Some(Hand::Value),
                Some(Kind::Map) => Some(Hand::NextName),
            },
            _ => None,
        }
    }

    // Takes characters of ASCII and whole escapes of a string.
    fn skim_gathered(&mut self, role: Role, bytes: &[u8]) -> Result<usize, AllocError>
        requires { self.old.hand ≡ Hand.Text role Part.Plain }
        ensures { IfOk result (λ count. Skims count (state_of self.old) bytes.now
            (state_of self.new)) }
    {
        let (count, made) = gathered(bytes);
        self.text.extend_from_slice(made.as_slice())?;
        Ok(count)
    }

    // Takes a whole string that is a value, with its end, which is at that index.
    fn whole_content(&mut self, bytes: &[u8], count: usize) -> Result<usize, AllocError>
        requires hand { self.old.hand ≡ Hand.Text Role.Content Part.Plain }
        requires fresh { self.old.text.items ≡ [] }
        requires whole { EndsAt count bytes.now }
        ensures { IfOk result (λ taken. Skims taken (state_of self.old) bytes.now
            (state_of self.new)) }
    {
        let Some(text) = text_from(self.alloc, before(bytes, count))? else {
            return Ok(0);
        };
        self.place(Json::Str(text))?;
        Ok(count + 1)
    }

    // Takes a whole string that is a name, with its end, which is at that index.
    fn whole_name(&mut self, bytes: &[u8], count: usize) -> Result<usize, AllocError>
        requires hand { self.old.hand ≡ Hand.Text Role.Name Part.Plain }
        requires fresh { self.old.text.items ≡ [] }
        requires whole { EndsAt count bytes.now }
        ensures { IfOk result (λ taken. Skims taken (state_of self.old) bytes.now
            (state_of self.new)) }
    {
        let Some(level) = self.kind() else {
            return Ok(0);
        };
        match level {
            Kind::Map => {}
            Kind::List => return Ok(0),
        }
        let Some(text) = text_from(self.alloc, before(bytes, count))? else {
            return Ok(0);
        };
        self.names(text);
        Ok(count + 1)
    }

    // Takes characters of a string that stand for themselves, of so many bytes.
    fn skim_open(&mut self, bytes: &[u8], most: usize) -> Result<usize, AllocError>
        requires { AreOpen (take most bytes.now) }
        ensures added { IfOk result (λ count. AddsText count bytes.now self.old self.new) }
        ensures opens { IfOk result (λ count. AreOpen (take count bytes.now)) }
        ensures utf8 { IfOk result (λ count. IsUtf8 (take count bytes.now)) }
    {
        let count = utf8_count(bytes, most);
        self.text.extend_from_slice(before(bytes, count))?;
        Ok(count)
    }

    // Takes bytes of a numeral.
    fn skim_number(&mut self, place: Place, bytes: &[u8]) -> Result<usize, AllocError>
        requires { self.old.hand ≡ Hand.Number place }
        ensures { IfOk result (λ count. Skims count (state_of self.old) bytes.now
            (state_of self.new)) }
    {
        let (count, next) = numeral_run(place, bytes);
        self.text.extend_from_slice(before(bytes, count))?;
        self.hand = Hand::Number(next);
        Ok(count)
    }

    /// The value, where the bytes that were taken are a whole text. A numeral takes the room.
    pub(crate) fn finish(self, room: TextRoom) -> Option<Json>
        ensures { result ≡ spec.at_last (state_of self) }
    {
        let Machine {
            alloc: _,
            levels: _,
            depth,
            hand,
            text,
            root,
        } = self;
        if depth > 0 {
            return None;
        }
        match hand {
            Hand::Done => Some(root),
            Hand::Number(place) if ends(place) => numeral(room, text),
            _ => None,
        }
    }
}

// The same of bytes of which the first, so many, are known to stand there.
fn open_from(bytes: &[u8], known: usize) -> usize
    requires within { known ≤ length bytes.now }
    requires opens { AreOpen (take known bytes.now) }
    ensures within { result ≤ length bytes.now }
    ensures opens { AreOpen (take result bytes.now) }
{
    if known < SHORT && known < bytes.len() && bytes[known] < 128 {
        known
    } else {
        open_count(bytes)
    }
}

// How many of the first bytes stand before a quote, a backslash or a control character.
fn open_count(bytes: &[u8]) -> usize
    ensures within { result ≤ length bytes.now }
    ensures opens { AreOpen (take result bytes.now) }
{
    let first = open_front(before(bytes, HEAD));
    if first < HEAD {
        return first;
    }
    let mut at = HEAD;
    'pieces: while bytes.len() - at >= BLOCK && are_open(before(after(bytes, at), BLOCK)) {
        at += BLOCK;
    }
    at + open_front(after(bytes, at))
}

// How many of the first bytes stand before a quote, a backslash or a control character, one by
// one.
fn open_front(bytes: &[u8]) -> usize
    ensures within { result ≤ length bytes.now }
    ensures opens { AreOpen (take result bytes.now) }
{
    for (index, byte) in bytes.iter().enumerate() {
        if !is_open(*byte) {
            return index;
        }
    }
    bytes.len()
}

// How many of the first bytes, of no more than a short string has, are characters of ASCII that
// stand for themselves.
fn short_count(bytes: &[u8]) -> usize
    ensures within { result ≤ length bytes.now }
    ensures opens { AreOpen (take result bytes.now) }
    ensures utf8 { is_utf8 (take result bytes.now) ≡ true }
{
    plain_count(before(bytes, SHORT))
}

// How many of the first bytes are characters of ASCII that stand for themselves, one by one.
fn plain_count(bytes: &[u8]) -> usize
    ensures within { result ≤ length bytes.now }
    ensures opens { AreOpen (take result bytes.now) }
    ensures utf8 { is_utf8 (take result bytes.now) ≡ true }
{
    for (index, byte) in bytes.iter().enumerate() {
        if !is_plain(*byte) {
            return index;
        }
    }
    bytes.len()
}

// How many of the first bytes are characters that stand for themselves, of so many bytes none of
// which ends them.
fn utf8_count(bytes: &[u8], most: usize) -> usize
    requires { AreOpen (take most bytes.now) }
    ensures within { result ≤ length bytes.now }
    ensures opens { AreOpen (take result bytes.now) }
    ensures utf8 { IsUtf8 (take result bytes.now) }
{
    let run = before(bytes, most);
    if is_ascii(run) {
        return run.len();
    }
    match std::str::from_utf8(run) {
        Ok(_) => run.len(),
        Err(fault) => fault.valid_up_to(),
    }
}

// How many of the first bytes go on in the numeral, and the place after them.
fn numeral_run(place: Place, bytes: &[u8]) -> (usize, Place)
    ensures within { result.0 ≤ length bytes.now }
    ensures goes { place_behind (Some place) (take result.0 bytes.now) ≡ Some result.1 }
{
    let mut last = place;
    for (index, byte) in bytes.iter().enumerate() {
        match next_place(last, *byte) {
            Some(next) => last = next,
            None => return (index, last),
        }
    }
    (bytes.len(), last)
}

// How many of the first bytes are a numeral with a comma after it; 0 where none is there.
fn numeral_count(bytes: &[u8]) -> usize
    ensures { 0 < result → IsNumeral result bytes.now }
{
    let Some((first, rest)) = bytes.split_first() else {
        return 0;
    };
    let Some(place) = first_place(*first) else {
        return 0;
    };
    let (count, last) = numeral_run(place, rest);
    if count < rest.len() && rest[count] == b',' && ends(last) {
        1 + count
    } else {
        0
    }
}

// How many of the first bytes are white space.
fn blank_count(bytes: &[u8]) -> usize
    ensures within { result ≤ length bytes.now }
    ensures blank { AreBlank (take result bytes.now) }
{
    for (index, byte) in bytes.iter().enumerate() {
        if !is_whitespace(*byte) {
            return index;
        }
    }
    bytes.len()
}

// The numeral of that spelling, in that room.
fn numeral(room: TextRoom, spelling: Vec<u8>) -> Option<Json>
    ensures { result ≡ spec.numeral spelling.items }
{
    match String::from_utf8(spelling) {
        Ok(text) => Some(Json::Num(Text::in_room(room, text))),
        Err(_) => None,
    }
}
