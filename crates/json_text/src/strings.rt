//! The steps of the machine that reads JSON text inside a string.

ghost use Rattle.std.specs.Prelude.{◌≡◌, ◌≤◌, ◌++◌, ◌∷◌, [], List, ℕ, IfOk, OnOk, Some, None};
ghost use Rattle.json_text.specs.State.Machine as spec;
ghost use Rattle.json_text.specs.Grammar as grammar;
ghost use Rattle.json_text.specs.State.Stands.{ranges_of, state_of, levels_of, hand_of, part_of, IsTaken};

use crate::bytes::{digit_value, escaped, of_digits16, push_char, tails, text_from};
use crate::machine::Machine;
use crate::state::{Digits, Hand, Kind, Part, Role, Stop, Tail, Taken};
use json_value::Json;
use sequences::Text;
use std::alloc::AllocError;

impl Machine {
    /// Takes a byte of a string.
    pub(crate) fn in_text(&mut self, role: Role, part: Part, byte: u8) -> Result<Taken, AllocError>
        ensures { IfOk result (λ taken. IsTaken taken
            (spec.in_text (levels_of self.old) role self.old.text.items (part_of part) byte)
            (state_of self.new)) }
    {
        match part {
            Part::Plain => self.in_plain(role, byte),
            Part::Escape => self.in_escape(role, byte),
            Part::Code(digits) => self.in_code(role, digits, byte),
            Part::High(high) => Ok(self.wants(b'\\', Hand::Text(role, Part::Slash(high)), byte)),
            Part::Slash(high) => Ok(self.wants(
                b'u',
                Hand::Text(role, Part::Low(high, Digits::Zero)),
                byte,
            )),
            Part::Low(high, digits) => self.in_low(role, high, digits, byte),
            Part::Tail(tail) => self.in_tail(role, tail, byte),
        }
    }

    // Goes on in the string.
    fn text_goes(&mut self, role: Role, part: Part) -> Taken
        ensures { IsTaken result (spec.text_goes (levels_of self.old) role self.old.text.items
            (part_of part)) (state_of self.new) }
    {
        self.goes(Hand::Text(role, part))
    }

    // Goes on in the string after one more byte.
    fn text_adds(&mut self, role: Role, byte: u8, part: Part) -> Result<Taken, AllocError>
        ensures { IfOk result (λ taken. IsTaken taken
            (spec.text_goes (levels_of self.old) role (self.old.text.items ++ (byte ∷ []))
            (part_of part)) (state_of self.new)) }
    {
        self.text.push(byte)?;
        Ok(self.text_goes(role, part))
    }

    // Takes a byte between characters.
    fn in_plain(&mut self, role: Role, byte: u8) -> Result<Taken, AllocError>
        ensures { IfOk result (λ taken. IsTaken taken
            (spec.in_plain (levels_of self.old) role self.old.text.items byte)
            (state_of self.new)) }
    {
        match byte {
            b'"' => self.end_text(role),
            b'\\' => Ok(self.text_goes(role, Part::Escape)),
            0..=31 => Ok(Taken::Stops(Stop::Syntax)),
            32..=127 => self.text_adds(role, byte, Part::Plain),
            _ => self.begin_tail(role, byte),
        }
    }

    // Takes the first byte of a character of several bytes.
    fn begin_tail(&mut self, role: Role, byte: u8) -> Result<Taken, AllocError>
        ensures { IfOk result (λ taken. IsTaken taken
            (spec.wide (levels_of self.old) role (self.old.text.items ++ (byte ∷ []))
            (spec.tails byte)) (state_of self.new)) }
    {
        match tails(byte) {
            Some(tail) => self.text_adds(role, byte, Part::Tail(tail)),
            None => Ok(Taken::Stops(Stop::Utf8)),
        }
    }

    // Takes a further byte of a character.
    fn in_tail(&mut self, role: Role, tail: Tail, byte: u8) -> Result<Taken, AllocError>
        ensures { IfOk result (λ taken. IsTaken taken
            (spec.in_tail (levels_of self.old) role self.old.text.items (ranges_of tail) byte)
            (state_of self.new)) }
    {
        if byte < tail.least || tail.most < byte {
            return Ok(Taken::Stops(Stop::Utf8));
        }
        match tail.next() {
            Some(rest) => self.text_adds(role, byte, Part::Tail(rest)),
            None => self.text_adds(role, byte, Part::Plain),
        }
    }

    // Ends a string.
    fn end_text(&mut self, role: Role) -> Result<Taken, AllocError>
        ensures { IfOk result (λ taken. IsTaken taken
            (spec.text_ends (levels_of self.old) role self.old.text.items) (state_of self.new)) }
    {
        match role {
            Role::Content => self.end_content(),
            Role::Name => self.end_name(),
        }
    }

    // Ends a string that is a value.
    fn end_content(&mut self) -> Result<Taken, AllocError>
        ensures { IfOk result (λ taken. IsTaken taken
            (spec.text_ends (levels_of self.old) Role.Content self.old.text.items)
            (state_of self.new)) }
    {
        let Some(text) = text_from(self.alloc, self.text.as_slice())? else {
            return Ok(Taken::Stops(Stop::Utf8));
        };
        self.place(Json::Str(text))?;
        Ok(Taken::Goes)
    }

    // Ends a string that is a name.
    fn end_name(&mut self) -> Result<Taken, AllocError>
        ensures { IfOk result (λ taken. IsTaken taken
            (spec.text_ends (levels_of self.old) Role.Name self.old.text.items)
            (state_of self.new)) }
    {
        match self.kind() {
            Some(Kind::Map) => {}
            _ => return Ok(Taken::Stops(Stop::Syntax)),
        }
        match text_from(self.alloc, self.text.as_slice())? {
            Some(name) => Ok(self.names(name)),
            None => Ok(Taken::Stops(Stop::Utf8)),
        }
    }

    /// Puts a name at hand in the innermost object.
    #[inline(always)]
    pub(crate) fn names(&mut self, text: Text) -> Taken
        ensures { IsTaken result (spec.named (levels_of self.old) text) (state_of self.new) }
    {
        match self.kind() {
            Some(Kind::Map) => self.levels[self.depth - 1].name = text,
            _ => return Taken::Stops(Stop::Syntax),
        }
        self.goes(Hand::Colon)
    }

    // Takes the byte that an escape wants.
    fn wants(&mut self, wanted: u8, hand: Hand, byte: u8) -> Taken
        ensures { IsTaken result (spec.wanted (levels_of self.old) wanted
            (hand_of hand self.old.text.items self.old.root) byte) (state_of self.new) }
    {
        if byte == wanted {
            self.goes(hand)
        } else {
            Taken::Stops(refused(byte))
        }
    }

    // Takes the byte after a backslash.
    fn in_escape(&mut self, role: Role, byte: u8) -> Result<Taken, AllocError>
        ensures { IfOk result (λ taken. IsTaken taken
            (spec.in_escape (levels_of self.old) role self.old.text.items byte)
            (state_of self.new)) }
    {
        match escaped(byte) {
            Some(character) => self.text_adds(role, character, Part::Plain),
            None => Ok(self.wants(b'u', Hand::Text(role, Part::Code(Digits::Zero)), byte)),
        }
    }

    // Takes a digit of an escape.
    fn in_code(&mut self, role: Role, digits: Digits, byte: u8) -> Result<Taken, AllocError>
        ensures { IfOk result (λ taken. IsTaken taken
            (spec.in_code (levels_of self.old) role self.old.text.items digits byte)
            (state_of self.new)) }
    {
        let digit = digit_value(byte);
        if digit >= 16 {
            return Ok(Taken::Stops(refused(byte)));
        }
        match digits {
            Digits::Zero => Ok(self.text_goes(role, Part::Code(Digits::One(byte)))),
            Digits::One(a) => Ok(self.second_digit(role, a, byte)),
            Digits::Two(a, b) => Ok(self.text_goes(role, Part::Code(Digits::Three(a, b, byte)))),
            Digits::Three(a, b, c) => self.coded(role, of_digits16(a, b, c, byte)),
        }
    }

    // Takes the second digit of an escape; the first half of a character stands first.
    fn second_digit(&mut self, role: Role, first: u8, byte: u8) -> Taken
        ensures { IsTaken result (spec.digit_of_code (levels_of self.old) role self.old.text.items
            (Digits.One first) byte) (state_of self.new) }
    {
        if digit_value(first) == 13 && digit_value(byte) > 11 {
            Taken::Stops(Stop::Syntax)
        } else {
            self.text_goes(role, Part::Code(Digits::Two(first, byte)))
        }
    }

    // Takes the character that an escape names, or the first half of one.
    fn coded(&mut self, role: Role, code: u32) -> Result<Taken, AllocError>
        ensures { IfOk result (λ taken. IsTaken taken
            (spec.coded (levels_of self.old) role self.old.text.items code) (state_of self.new)) }
    {
        if code >= 0xD800 && code <= 0xDBFF {
            return Ok(self.text_goes(role, Part::High(code as u16)));
        }
        self.paired(role, code)
    }

    // Takes the character of that code.
    fn paired(&mut self, role: Role, code: u32) -> Result<Taken, AllocError>
        ensures { IfOk result (λ taken. IsTaken taken
            (spec.paired (levels_of self.old) role self.old.text.items code) (state_of self.new)) }
    {
        match char::from_u32(code) {
            Some(character) => {
                push_char(&mut self.text, character)?;
                Ok(self.text_goes(role, Part::Plain))
            }
            None => Ok(Taken::Stops(Stop::Syntax)),
        }
    }

    // Takes a digit of the second half of a character.
    fn in_low(
        &mut self,
        role: Role,
        high: u16,
        digits: Digits,
        byte: u8,
    ) -> Result<Taken, AllocError>
        ensures { IfOk result (λ taken. IsTaken taken
            (spec.in_low (levels_of self.old) role self.old.text.items high digits byte)
            (state_of self.new)) }
    {
        let digit = digit_value(byte);
        match digits {
            _ if digit >= 16 => Ok(Taken::Stops(refused(byte))),
            Digits::Zero if digit != 13 => Ok(Taken::Stops(Stop::Syntax)),
            Digits::Zero => Ok(self.text_goes(role, Part::Low(high, Digits::One(byte)))),
            Digits::One(_) if digit < 12 => Ok(Taken::Stops(Stop::Syntax)),
            Digits::One(a) => Ok(self.text_goes(role, Part::Low(high, Digits::Two(a, byte)))),
            Digits::Two(a, b) => Ok(self.text_goes(
                role,
                Part::Low(high, Digits::Three(a, b, byte)),
            )),
            Digits::Three(a, b, c) => self.paired(role, joined(high, of_digits16(a, b, c, byte))),
        }
    }
}

// Why an escape doesn't take the byte.
fn refused(byte: u8) -> Stop
    ensures { spec.refused byte ≡ Err result }
{
    if byte < 128 || tails(byte).is_some() {
        Stop::Syntax
    } else {
        Stop::Utf8
    }
}

/// The character that two halves make.
pub(crate) fn joined(high: u16, low: u32) -> u32
    requires { low ≤ 160000 }
    ensures { result ≡ grammar.joined high low }
{
    0x1_0000 + (u32::from(high).saturating_sub(0xD800) * 1024 + low.saturating_sub(0xDC00))
}
