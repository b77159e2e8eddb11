// Texts of lists.
ghost use Rattle.std.specs.Prelude.{All, IsUtf8};
ghost use Rattle.edl_law.specs.Law.{HasName, HasNames};
ghost use Rattle.note_law.specs.Law.{HasText};
ghost use Rattle.otio_tools.specs.Carried.{HasTexts};

use edl_list::{Cross, Event, EventList, Side};
use note_text::{Notes, Said};
use sequences::Text;

/// Shows that the texts of a list are UTF-8. It does nothing else.
pub fn check_texts(list: &EventList)
    ensures { HasTexts list.now }
{
    check_text(&list.title);
    for event in list.events.as_slice() {
        check_names(event);
    }
}

// The same of an event.
fn check_names(event: &Event)
    ensures { HasNames event.now }
{
    check_name(&event.to);
    match &event.cross {
        Cross::Cut => {}
        Cross::Dissolve { frames: _, from } => check_name(from.get()),
        Cross::Wipe {
            code: _,
            frames: _,
            from,
        } => check_name(from.get()),
    }
}

// The same of a side.
fn check_name(side: &Side)
    ensures { HasName side.now }
{
    if let Some(name) = &side.name {
        check_text(name);
    }
}

/// Shows that the names of locators among notes are UTF-8. It does nothing else.
pub fn check_notes(notes: &Notes)
    ensures { All (λ note. HasText note.said) notes.now }
{
    for note in notes.as_slice() {
        check_said(&note.said);
    }
}

// The same of what a note says.
fn check_said(said: &Said)
    ensures { HasText said.now }
{
    match said {
        Said::Loc {
            at: _,
            color: _,
            name,
        } => check_text(name),
        Said::Sop {
            slope: _,
            offset: _,
            power: _,
        } => {}
        Said::Sat(_) => {}
    }
}

// The same of a text.
fn check_text(text: &Text)
    ensures { IsUtf8 text.now }
{
    let _ = text.as_str();
}
