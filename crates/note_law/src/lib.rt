//! Laws of notes: that the notes of a list change nothing that its timeline shows, and that the
//! text of a list with notes is read as the same list with the same notes. Their functions do
//! nothing.
#![tactic(auto)]

ghost use Rattle.std.specs.Prelude.{◌≡◌, ◌≤◌, ℕ, ℤ, Bool, List, Some, None, IsUtf8, length, All};
ghost use Rattle.note_law.specs.Law.{AreOwn, HasNotedText, HasNotesAgain, HasText, IsReadAgain, IsSpelled};
ghost use Rattle.edl_list.specs.Labelled.{IsLabelled};
ghost use Rattle.limits.specs.Limits.{most_bytes};
ghost use Rattle.coord.specs.Soundness.{IsSound};
ghost use Rattle.media_rows.specs.Rows.{MediaRows};
ghost use Rattle.edl_frames.specs.Carried.{not_carried, IsListOf};
ghost use Rattle.edl_law.specs.Kept.{KeepsFrames};
ghost use Rattle.edl_law.specs.Law.{HasNames};
ghost use Rattle.edl_law.specs.Premises.{AreListed};
ghost use Rattle.note_text.specs.NotedSpelling.{noted_spelling};
ghost use Rattle.tick_time.specs.declared.times.Time.{Time};
ghost use Rattle.otio_model.specs.declared.timelines.Timeline.{Timeline};
ghost use Rattle.coord.specs.Programs.{program};
ghost use Rattle.otio_model.specs.Timelines.{bare};
ghost use Rattle.edl_list.specs.Formed.{IsWellFormed};
ghost use Rattle.edl_list.specs.declared.list.Channel.{Channel};
ghost use Rattle.edl_list.specs.declared.list.EventList.{EventList};
ghost use Rattle.edl_frames.specs.Channels.{on, on_reels};
ghost use Rattle.edl_frames.specs.Homes.{HasList};
ghost use Rattle.note_text.specs.Found.{AreNotesOf};
ghost use Rattle.object_law.specs.Writable.{IsObject};
ghost use Rattle.otio_model.specs.declared.objects.Object.{Timeline as ObjectOfTimeline};
ghost use Rattle.note_text.specs.Belonging.{AreNotes, IsNoteOf};
ghost use Rattle.note_text.specs.Noted.{IsNoted};
ghost use Rattle.note_text.specs.declared.notes.Note.{Note};

/// Law: a timeline that has a start, as each that a list conforms to, shows with notes what it
/// shows without: on each root child at each record frame, and on each channel of a list, whether
/// clips are known by their own keys or by their reels. It does nothing.
pub fn notes_keep_frames()
    ensures program { (t r : Timeline) (list : EventList) (notes : List Note) (start : Time) →
        t.global_start_time ≡ Some start → IsNoted t list notes r → (k : ℕ) (n : ℤ) →
        program r k n ≡ program t k n }
    ensures on { (t r : Timeline) (list : EventList) (notes : List Note) (start : Time) →
        t.global_start_time ≡ Some start → IsNoted t list notes r → (c : Channel) (n : ℤ) →
        on r c n ≡ on t c n }
    ensures reels { (t r : Timeline) (list : EventList) (notes : List Note) (start : Time) →
        t.global_start_time ≡ Some start → IsNoted t list notes r → (c : Channel) (n : ℤ) →
        on_reels r c n ≡ on_reels t c n }
{}

/// Law: the text of a list with notes that [`note_text::write_noted`] sends is read, at the rate of
/// the list, as a list that is the same, and as no other. It holds of each well formed and even
/// list that fits the layout that is asked for, whose labels are below the day, with notes that
/// have texts, and whose text is no larger than a reader takes. Where the notes are those of events
/// that aren't black, stand in their order, count for them, and their names are as they are
/// written, the text has these notes. It does nothing.
pub fn noted_round_trip()
    ensures list { (list : EventList) (notes : List Note) (drop wide : Bool) →
        HasNotedText list notes drop wide → IsReadAgain list notes drop wide }
    ensures notes { (list : EventList) (notes : List Note) (drop wide : Bool) →
        HasNotedText list notes drop wide → AreOwn list notes →
        HasNotesAgain list notes drop wide }
{}

/// Law: the text of a sound timeline's list with notes that have texts, of no more bytes than a
/// reader takes, keeps the timeline's frames: it is read as one list and no other, the media list
/// holds that list, it conforms to a timeline, and each such timeline shows what the first one
/// shows. It does nothing.
pub fn noted_lists_keep_frames()
    ensures { (t : Timeline) (media : MediaRows) (drop wide : Bool) (list : EventList)
        (notes : List Note) → IsSound t → AreListed media →
        not_carried t media drop wide ≡ None → IsListOf t media drop wide list →
        IsUtf8 list.title → All HasNames list.events →
        All (λ note. IsSpelled list.rate drop note.said) notes →
        length (noted_spelling list notes drop wide) ≤ most_bytes →
        KeepsFrames t media wide (noted_spelling list notes drop wide) }
{}

/// Law: with notes of a well formed list a timeline is one, the memory that it keeps to spare
/// aside. It does nothing.
pub fn noted_timelines_are_one()
    ensures { (list : EventList) (notes : List Note) (t a b : Timeline) → IsWellFormed list →
        IsNoted t list notes a → IsNoted t list notes b → bare a ≡ bare b }
{}

/// Law: a timeline has the same notes for its list, whichever media list, mode and layout that is
/// for. It does nothing.
pub fn found_notes_are_one()
    ensures { (t : Timeline) (list : EventList) (a b : List Note) → HasList t list →
        AreNotesOf t list a → AreNotesOf t list b → a ≡ b }
{}

/// Law: a timeline that is writable, as each that a list conforms to, is writable with notes, so
/// what is written of it stands for it. It does nothing.
pub fn noted_timelines_are_writable()
    ensures { (list : EventList) (notes : List Note) (t r : Timeline) →
        IsNoted t list notes r → IsObject (ObjectOfTimeline t) → IsObject (ObjectOfTimeline r) }
{}

/// Law: the notes of a timeline for its list are notes of events that aren't black, for which they
/// count, in their order, with names as they are written. Where the labels of the list are below
/// the day, the notes can be written, and those whose names are texts have texts. It does nothing.
pub fn found_notes_are_writable()
    ensures own { (t : Timeline) (list : EventList) (notes : List Note) → IsWellFormed list →
        AreNotesOf t list notes → AreOwn list notes }
    ensures written { (t : Timeline) (list : EventList) (drop : Bool) (notes : List Note) →
        IsWellFormed list → All (IsLabelled list.rate drop) list.events →
        AreNotesOf t list notes → All (IsNoteOf list drop) notes }
    ensures spelled { (t : Timeline) (list : EventList) (drop : Bool) (notes : List Note) →
        IsWellFormed list → All (IsLabelled list.rate drop) list.events →
        All (λ note. HasText note.said) notes → AreNotesOf t list notes →
        All (λ note. IsSpelled list.rate drop note.said) notes }
{}

/// Law: bytes have the same notes for a list in every reading. It does nothing.
pub fn notes_are_one()
    ensures { (bytes : List ℕ) (list : EventList) (a b : List Note) →
        AreNotes bytes list a → AreNotes bytes list b → a ≡ b }
{}
