//! The text that is written of a JSON value is a JSON text of that value, and the numerals of a
//! value that was read are the numbers that exact times are read from, also when its old objects
//! are upgraded.
#![tactic(auto)]

ghost use Rattle.json_law.specs.Written.{LayoutIsText, ReadIsJson, RereadIsSame};
ghost use Rattle.json_law.specs.Forms.{HaveOneForm};
ghost use Rattle.json_law.specs.Law.{ReadHasNumerals, UpgradedHasNumerals, UpgradedStays};

/// The layout of a value is a JSON text (RFC 8259) of that value, where at most 127 lists and
/// objects are nested in it and its numerals are JSON numerals; and each value that a JSON text
/// denotes is such a value. So a text that is read and written again denotes the same value.
pub fn layout_is_text()
    ensures layout { LayoutIsText }
    ensures read { ReadIsJson }
    ensures reread { RereadIsSame }
{}

/// A text is a numeral of a JSON value exactly where it is a number of RFC 8259, section 6, of
/// which [`tick_time::Decimal::read`] reads the value.
pub fn one_form()
    ensures { HaveOneForm }
{}

/// Law: each numeral in a value that a JSON text (RFC 8259) denotes is a number of JSON, as
/// `schema_tab` asks of the values that it reads; and so is each one in what that value is upgraded
/// to. It does nothing.
pub fn read_has_numerals()
    ensures read { ReadHasNumerals }
    ensures upgraded { UpgradedHasNumerals }
{}

/// Law: a second upgrade changes nothing. The value that a JSON text (RFC 8259) denotes, once
/// upgraded, is left as it is by another upgrade. It does nothing.
pub fn upgraded_stays()
    ensures { UpgradedStays }
{}
