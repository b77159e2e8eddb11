//! The steps of the machine that reads JSON text, but for those inside a string.

ghost use Rattle.std.specs.Prelude.{◌≡◌, ◌≤◌, ◌++◌, ◌∷◌, [], List, ℕ, IfOk, IsTrue, OnOk, Some, None, length, nat_lt};
ghost use Rattle.json_text.specs.State.Machine as spec;
ghost use Rattle.json_text.specs.State.Opened.{unclosed_in, unclosed_of, list, map};

use crate::bytes::{after, ends, is_whitespace, next_place, text_from};
use crate::state::{Hand, Kind, Level, Part, Place, Role, Stop, Taken, Word};
use json_value::{Json, JsonList, Members};
use owned::Owned;
use sequences::Text;
use std::alloc::{AllocError, Global};
use std::mem;

/// How many lists and objects may stand in one another.
pub(crate) const LEVELS: usize = 127;

/// As many members at most are moved into memory that fits them.
const FEW: usize = 64;

/// A reader of one text, byte by byte.
#[derive(Drop)]
pub(crate) struct Machine {
    pub(crate) alloc: Global,
    /// The open lists and objects, outermost first, and after them those whose memory serves again.
    pub(crate) levels: Vec<Level>,
    /// How many are open.
    pub(crate) depth: usize,
    pub(crate) hand: Hand,
    pub(crate) text: Vec<u8>,
    pub(crate) root: Json,
    ghost within: { depth ≤ length levels.items },
}

impl Machine {
    ghost use Rattle.json_text.specs.State.Stands.{state_of, levels_of, hand_of, value_of, left_of, innermost, IsTaken};

    /// Where a text begins.
    pub(crate) fn new(alloc: Global) -> Machine
        ensures { state_of result ≡ spec.start }
    {
        Machine {
            alloc,
            levels: Vec::new(alloc),
            depth: 0,
            hand: Hand::Value,
            text: Vec::new(alloc),
            root: Json::Null,
        }
    }

    /// One step.
    pub(crate) fn step(&mut self, byte: u8) -> Result<Taken, AllocError>
        ensures { IfOk result (λ taken. IsTaken taken
            (spec.step 127 (levels_of self.old) (state_of self.old).hand byte)
            (state_of self.new)) }
    {
        match self.hand {
            Hand::Value => self.begin(byte),
            Hand::FirstItem => self.first_item(byte),
            Hand::FirstName => self.first_name(byte),
            Hand::NextName => self.next_name(byte),
            Hand::Colon => Ok(self.colon(byte)),
            Hand::Behind => self.behind(byte),
            Hand::Done => Ok(self.done(byte)),
            Hand::Word(word, count) => self.in_word(word, count, byte),
            Hand::Number(place) => self.in_number(place, byte),
            Hand::Text(role, part) => self.in_text(role, part, byte),
        }
    }

    /// Puts a value where it belongs.
    #[inline(always)]
    pub(crate) fn place(&mut self, value: Json) -> Result<(), AllocError>
        ensures { OnOk result (state_of self.new ≡ spec.placed (levels_of self.old) value) }
    {
        if self.depth == 0 {
            self.root = value;
            self.hand = Hand::Done;
            return Ok(());
        }
        add(&mut self.levels[self.depth - 1], value)?;
        self.hand = Hand::Behind;
        Ok(())
    }

    // Opens a list.
    fn open_list(&mut self) -> Result<Taken, AllocError>
        ensures { IfOk result (λ taken. IsTaken taken
            (spec.opened 127 (levels_of self.old) (list []) spec.first_item)
            (state_of self.new)) }
    {
        if !self.go_inside(Kind::List)? {
            return Ok(Taken::Stops(Stop::Depth));
        }
        Ok(self.goes(Hand::FirstItem))
    }

    // Opens an object.
    fn open_map(&mut self) -> Result<Taken, AllocError>
        ensures { IfOk result (λ taken. IsTaken taken
            (spec.opened 127 (levels_of self.old) (map [] []) spec.first_name)
            (state_of self.new)) }
    {
        if !self.go_inside(Kind::Map)? {
            return Ok(Taken::Stops(Stop::Depth));
        }
        Ok(self.goes(Hand::FirstName))
    }

    // Opens a list or an object inside the innermost one, unless that were one too many.
    #[inline(always)]
    fn go_inside(&mut self, kind: Kind) -> Result<bool, AllocError>
        ensures few { IfOk result (λ inside. inside ≡ nat_lt (length (levels_of self.old)) 127) }
        ensures inside { IfOk result (λ inside. IsTrue inside
            → levels_of self.new ≡ unclosed_in kind [] [] [] ∷ levels_of self.old) }
    {
        if self.depth >= LEVELS {
            return Ok(false);
        }
        if self.depth == self.levels.len() {
            self.levels.push(Level::empty(self.alloc, kind))?;
        } else {
            self.levels[self.depth].reopen(kind);
        }
        self.depth += 1;
        Ok(true)
    }

    /// What the innermost one is; `None` where nothing is open.
    #[inline(always)]
    pub(crate) fn kind(&self) -> Option<Kind>
        ensures { result ≡ innermost (levels_of self.now) }
    {
        if self.depth == 0 {
            None
        } else {
            Some(self.levels[self.depth - 1].kind)
        }
    }

    // Takes the start of a value; at white space the hand stays.
    fn begin(&mut self, byte: u8) -> Result<Taken, AllocError>
        ensures { IfOk result (λ taken. IsTaken taken
            (spec.begin 127 (levels_of self.old)
            (state_of self.old).hand byte) (state_of self.new)) }
    {
        match byte {
            b'"' => Ok(self.begin_text(Role::Content)),
            b'[' => self.open_list(),
            b'{' => self.open_map(),
            b'n' => Ok(self.goes(Hand::Word(Word::Null, 1))),
            b't' => Ok(self.goes(Hand::Word(Word::True, 1))),
            b'f' => Ok(self.goes(Hand::Word(Word::False, 1))),
            b'-' => self.begin_number(byte, Place::Minus),
            b'0' => self.begin_number(byte, Place::Nought),
            b'1'..=b'9' => self.begin_number(byte, Place::Whole),
            _ => Ok(self.skip(byte)),
        }
    }

    /// Goes on with another hand.
    pub(crate) fn goes(&mut self, hand: Hand) -> Taken
        ensures { IsTaken result (Ok (spec.state (levels_of self.old)
            (hand_of hand self.old.text.items self.old.root))) (state_of self.new) }
    {
        self.hand = hand;
        Taken::Goes
    }

    // Takes white space and nothing else.
    fn skip(&mut self, byte: u8) -> Taken
        ensures { IsTaken result (spec.skipped (levels_of self.old)
            (state_of self.old).hand byte) (state_of self.new) }
    {
        if is_whitespace(byte) {
            Taken::Goes
        } else {
            Taken::Stops(Stop::Syntax)
        }
    }

    // Begins a string.
    fn begin_text(&mut self, role: Role) -> Taken
        ensures { IsTaken result (Ok (spec.state (levels_of self.old)
            (spec.text role [] spec.plain))) (state_of self.new) }
    {
        self.text.clear();
        self.goes(Hand::Text(role, Part::Plain))
    }

    // Begins a numeral.
    fn begin_number(&mut self, byte: u8, place: Place) -> Result<Taken, AllocError>
        ensures { IfOk result (λ taken. IsTaken taken
            (Ok (spec.state (levels_of self.old) (spec.number (byte ∷ []) place)))
            (state_of self.new)) }
    {
        self.text.clear();
        self.text.push(byte)?;
        Ok(self.goes(Hand::Number(place)))
    }

    // Takes the byte after the bracket of a list.
    fn first_item(&mut self, byte: u8) -> Result<Taken, AllocError>
        requires { self.old.hand ≡ Hand.FirstItem }
        ensures { IfOk result (λ taken. IsTaken taken
            (spec.item_first 127 (levels_of self.old) byte) (state_of self.new)) }
    {
        match self.kind() {
            Some(Kind::List) => {}
            _ => return Ok(Taken::Stops(Stop::Syntax)),
        }
        if byte == b']' {
            self.close()
        } else {
            self.begin(byte)
        }
    }

    // Ends the innermost list or object.
    fn close(&mut self) -> Result<Taken, AllocError>
        ensures { IfOk result (λ taken. IsTaken taken (spec.closed (levels_of self.old))
            (state_of self.new)) }
    {
        if self.depth == 0 {
            return Ok(Taken::Stops(Stop::Syntax));
        }
        let value = self.levels[self.depth - 1].whole(self.alloc)?;
        self.depth -= 1;
        self.place(value)?;
        Ok(Taken::Goes)
    }

    // Takes the byte after the brace of an object.
    fn first_name(&mut self, byte: u8) -> Result<Taken, AllocError>
        requires { self.old.hand ≡ Hand.FirstName }
        ensures { IfOk result (λ taken. IsTaken taken (spec.name_first (levels_of self.old) byte)
            (state_of self.new)) }
    {
        let Some(Kind::Map) = self.kind() else {
            return Ok(Taken::Stops(Stop::Syntax));
        };
        if byte == b'}' {
            self.close()
        } else {
            Ok(self.name(byte))
        }
    }

    // Takes the byte after a comma of an object.
    fn next_name(&mut self, byte: u8) -> Result<Taken, AllocError>
        requires { self.old.hand ≡ Hand.NextName }
        ensures { IfOk result (λ taken. IsTaken taken (spec.name_next (levels_of self.old) byte)
            (state_of self.new)) }
    {
        Ok(self.name(byte))
    }

    // Takes the start of a name; at white space the hand stays.
    fn name(&mut self, byte: u8) -> Taken
        ensures { IsTaken result (spec.name_begins (levels_of self.old)
            (state_of self.old).hand byte) (state_of self.new) }
    {
        if byte == b'"' {
            self.begin_text(Role::Name)
        } else {
            self.skip(byte)
        }
    }

    // Takes the byte after a name.
    fn colon(&mut self, byte: u8) -> Taken
        requires { self.old.hand ≡ Hand.Colon }
        ensures { IsTaken result (spec.at_colon (levels_of self.old) byte) (state_of self.new) }
    {
        if byte == b':' {
            self.goes(Hand::Value)
        } else {
            self.skip(byte)
        }
    }

    // Takes the byte after a value of a list or an object.
    fn behind(&mut self, byte: u8) -> Result<Taken, AllocError>
        requires { self.old.hand ≡ Hand.Behind }
        ensures { IfOk result (λ taken. IsTaken taken (spec.behind_in (levels_of self.old) byte)
            (state_of self.new)) }
    {
        let (next, end) = match self.kind() {
            None => return Ok(Taken::Stops(Stop::Syntax)),
            Some(Kind::List) => (Hand::Value, b']'),
            Some(Kind::Map) => (Hand::NextName, b'}'),
        };
        if byte == b',' {
            Ok(self.goes(next))
        } else if byte == end {
            self.close()
        } else {
            Ok(self.skip(byte))
        }
    }

    // Takes the byte after the whole value.
    fn done(&mut self, byte: u8) -> Taken
        requires { self.old.hand ≡ Hand.Done }
        ensures { IsTaken result (spec.at_end (levels_of self.old) self.old.root byte)
            (state_of self.new) }
    {
        if self.depth == 0 {
            self.skip(byte)
        } else {
            Taken::Stops(Stop::Syntax)
        }
    }

    // Takes a byte of a word.
    fn in_word(&mut self, word: Word, count: u8, byte: u8) -> Result<Taken, AllocError>
        ensures { IfOk result (λ taken. IsTaken taken
            (spec.in_word (levels_of self.old) (value_of word) (left_of word count) byte)
            (state_of self.new)) }
    {
        let Some((first, rest)) = word.left(count).split_first() else {
            return Ok(Taken::Stops(Stop::Syntax));
        };
        if byte != *first {
            return Ok(Taken::Stops(Stop::Syntax));
        }
        if rest.is_empty() {
            self.place(word.value())?;
            Ok(Taken::Goes)
        } else {
            Ok(self.goes(Hand::Word(word, count + 1)))
        }
    }

    // Takes a byte in or after a numeral.
    fn in_number(&mut self, place: Place, byte: u8) -> Result<Taken, AllocError>
        ensures { IfOk result (λ taken. IsTaken taken
            (spec.in_number (levels_of self.old) self.old.text.items place byte)
            (state_of self.new)) }
    {
        match next_place(place, byte) {
            Some(next) => {
                self.text.push(byte)?;
                Ok(self.goes(Hand::Number(next)))
            }
            None => self.end_number(place, byte),
        }
    }

    // Takes the byte after a numeral.
    fn end_number(&mut self, place: Place, byte: u8) -> Result<Taken, AllocError>
        ensures { IfOk result (λ taken. IsTaken taken
            (spec.number_ends (levels_of self.old) self.old.text.items place byte)
            (state_of self.new)) }
    {
        if !ends(place) {
            return Ok(Taken::Stops(Stop::Syntax));
        }
        let Some(numeral) = text_from(self.alloc, self.text.as_slice())? else {
            return Ok(Taken::Stops(Stop::Syntax));
        };
        self.place(Json::Num(numeral))?;
        self.follow(byte)
    }

    // Takes the byte after a value that was just put where it belongs.
    fn follow(&mut self, byte: u8) -> Result<Taken, AllocError>
        ensures { IfOk result (λ taken. IsTaken taken
            (spec.follow (levels_of self.old) (state_of self.old).hand byte) (state_of self.new)) }
    {
        match self.hand {
            Hand::Behind => self.behind(byte),
            Hand::Done => Ok(self.done(byte)),
            _ => Ok(Taken::Stops(Stop::Syntax)),
        }
    }
}

// Adds a value to a list, or to an object under the name at hand.
#[inline(always)]
fn add(level: &mut Level, value: Json) -> Result<(), AllocError>
    ensures { OnOk result (unclosed_of level.new ≡ spec.added (unclosed_of level.old) value) }
{
    match level.kind {
        Kind::List => level.items.push(value)?,
        Kind::Map => {
            let name = mem::replace(&mut level.name, no_name());
            level.pairs.push((name, value))?;
        }
    }
    Ok(())
}

impl Level {
    // An empty one.
    fn empty(alloc: Global, kind: Kind) -> Level
        ensures { unclosed_of result ≡ unclosed_in kind [] [] [] }
    {
        Level {
            kind,
            items: Vec::new(alloc),
            pairs: Vec::new(alloc),
            name: no_name(),
        }
    }

    // Begins an empty one in the same memory.
    #[inline(always)]
    fn reopen(&mut self, kind: Kind)
        ensures { unclosed_of self.new ≡ unclosed_in kind [] [] [] }
    {
        self.kind = kind;
        match kind {
            Kind::List => {
                if !self.items.is_empty() {
                    self.items.clear();
                }
            }
            Kind::Map => {
                if !self.pairs.is_empty() {
                    self.pairs.clear();
                }
                self.name = no_name();
            }
        }
    }

    // Its value. What it holds is taken out.
    #[inline(always)]
    fn whole(&mut self, alloc: Global) -> Result<Json, AllocError>
        ensures { IfOk result (λ value. value ≡ spec.whole (unclosed_of self.old)) }
    {
        match self.kind {
            Kind::List => Ok(Json::List(JsonList::take(alloc, &mut self.items)?)),
            Kind::Map => {
                let members = Members::of_pairs(alloc, taken(alloc, &mut self.pairs)?)?;
                Ok(Json::Map(Owned::of(alloc, members)?))
            }
        }
    }
}

// Takes the pairs out: few in memory that just fits them, many in the list's own.
#[inline(always)]
fn taken(alloc: Global, list: &mut Vec<(Text, Json)>) -> Result<Vec<(Text, Json)>, AllocError>
    ensures { IfOk result (λ taken. taken.items ≡ list.old.items) }
{
    if list.len() > FEW {
        return Ok(mem::replace(list, Vec::new(alloc)));
    }
    let mut taken = Vec::with_capacity(alloc, list.len())?;
    taken.append(list)?;
    Ok(taken)
}

// The name of an object none of whose names is at hand.
fn no_name() -> Text
    ensures { result ≡ [] }
{
    Text::empty()
}

impl Word {
    ghost use Rattle.json_text.specs.State.Stands.{value_of, letters_of, left_of};

    // The letters.
    fn letters(self) -> &'static [u8]
        ensures { result.now ≡ letters_of self }
    {
        match self {
            Word::Null => b"null",
            Word::True => b"true",
            Word::False => b"false",
        }
    }

    // The letters after so many.
    fn left(self, count: u8) -> &'static [u8]
        ensures { result.now ≡ left_of self count }
    {
        let letters = self.letters();
        let count = usize::from(count);
        if count < letters.len() {
            after(letters, count)
        } else {
            &[]
        }
    }

    // The value that the word stands for.
    fn value(self) -> Json
        ensures { result ≡ value_of self }
    {
        match self {
            Word::Null => Json::Null,
            Word::True => Json::Bool(true),
            Word::False => Json::Bool(false),
        }
    }
}
