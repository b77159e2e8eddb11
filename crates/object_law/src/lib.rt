//! A JSON value represents at most one object, or has one first fault, and never both; and what is
//! written of an object that was read reads back as that object.
//!
//! `specs/Writable.antt` says which objects are written so that they are read again. Each object
//! that was read is one, and patches keep timelines so.
#![tactic(auto)]

ghost use Rattle.object_law.specs.One.{HasOneCount, HasOneFault, IsNeverBoth, StandsForOne};
ghost use Rattle.object_law.specs.Law.{OldIsRead, PatchedIsWritable, ReadIsWritable, WritableIsRead, WrittenIsRead};

/// Law: a JSON value represents at most one object by the tables of the schemas, the memory that
/// timelines reserve being ignored; it has at most one first fault; and it has none where it
/// represents an object of at most 100 000 items. It does nothing.
pub fn one_answer()
    ensures object { StandsForOne }
    ensures count { HasOneCount }
    ensures fault { HasOneFault }
    ensures apart { IsNeverBoth }
{}

/// Law: an object that was read from an upgraded value is writable; what is written of a writable
/// object reads back as that object, and so does what is written of it in the older family
/// (`Clip.1`, `Marker.1`), where it has a form there, once that is upgraded; so what is written of
/// an object that was read reads back as it. It does nothing.
pub fn written_is_read()
    ensures writable { ReadIsWritable }
    ensures read { WritableIsRead }
    ensures older { OldIsRead }
    ensures again { WrittenIsRead }
{}

/// Law: a writable timeline is writable after a patch whose items are writable and that leaves no
/// two transitions side by side. It does nothing.
pub fn patched_is_writable()
    ensures { PatchedIsWritable }
{}
