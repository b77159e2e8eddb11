//! Laws of the text of a timeline's list. Their functions do nothing.

ghost use Rattle.std.specs.Prelude.{◌≡◌, ◌≤◌, Bool, false, None, IsUtf8, length, All};
ghost use Rattle.limits.specs.Limits.{most_bytes, most_items};
ghost use Rattle.otio_model.specs.declared.timelines.Timeline.{Timeline};
ghost use Rattle.coord.specs.Soundness.{IsCalm, IsSound};
ghost use Rattle.edl_list.specs.declared.list.EventList.{EventList};
ghost use Rattle.edl_text.specs.Spelling.{spelling};
ghost use Rattle.edl_text.specs.Lists.{IsList};
ghost use Rattle.edl_law.specs.Law.{HasNames};
ghost use Rattle.media_rows.specs.Rows.{MediaRows};
ghost use Rattle.edl_frames.specs.Counted.{item_count};
ghost use Rattle.edl_frames.specs.Carried.{not_carried, IsListOf};
ghost use Rattle.edl_law.specs.Premises.{AreListed};
ghost use Rattle.edl_law.specs.Kept.{KeepsFrames};

/// Law: the text of a sound timeline's list, of no more bytes than a reader takes, keeps the
/// timeline's frames: it is read as one list and no other, the media list holds that list, it
/// conforms to a timeline, and each such timeline shows what the first one shows. In the narrow
/// layout that list makes no more items than a timeline may have. The title and the names of the
/// list are UTF-8, as each text is.
pub fn written_lists_keep_frames()
    ensures kept { (t : Timeline) (media : MediaRows) (drop wide : Bool) (list : EventList) →
        IsSound t → AreListed media → not_carried t media drop wide ≡ None →
        IsListOf t media drop wide list → IsUtf8 list.title → All HasNames list.events →
        length (spelling list drop wide) ≤ most_bytes →
        KeepsFrames t media wide (spelling list drop wide) }
    ensures few { (t : Timeline) (media : MediaRows) (drop : Bool) (list read : EventList) →
        IsCalm t → AreListed media → not_carried t media drop false ≡ None →
        IsListOf t media drop false list → IsUtf8 list.title → All HasNames list.events →
        IsList list.rate (spelling list drop false) read → item_count read ≤ most_items }
{}
