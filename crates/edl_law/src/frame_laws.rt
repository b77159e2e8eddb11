//! Laws of lists and the timelines that they stand for. Their functions do nothing.

ghost use Rattle.std.specs.Prelude.{◌≡◌, ◌≢◌, ◌≤◌, ℤ, Bool, List, Some, None, length};
ghost use Rattle.tick_time.specs.declared.rates.Rate.{Rate};
ghost use Rattle.limits.specs.Limits.{most_items};
ghost use Rattle.otio_model.specs.Counts.{count};
ghost use Rattle.otio_model.specs.Timelines.{bare};
ghost use Rattle.otio_model.specs.declared.timelines.Timeline.{Timeline};
ghost use Rattle.edl_list.specs.declared.list.Channel.{Channel};
ghost use Rattle.edl_list.specs.declared.list.EventList.{EventList};
ghost use Rattle.edl_list.specs.Alike.{IsSame};
ghost use Rattle.media_rows.specs.declared.row.MediaRow.{MediaRow};
ghost use Rattle.media_rows.specs.Rows.{AreRows, MediaRows};
ghost use Rattle.edl_list.specs.Formed.{IsWellFormed};
ghost use Rattle.edl_list.specs.Layouts.{most_events, narrow};
ghost use Rattle.coord.specs.Soundness.{IsCalm, IsSound};
ghost use Rattle.edl_frames.specs.declared.faults.ConformFault.{ConformFault};
ghost use Rattle.edl_frames.specs.declared.faults.ConformFault.TheVariants.{Memory};
ghost use Rattle.edl_frames.specs.Shown.{shown};
ghost use Rattle.edl_frames.specs.Conformed.{IsTimelineOf};
ghost use Rattle.edl_frames.specs.Channels.{on, on_reels};
ghost use Rattle.edl_frames.specs.Refused.{IsAccepted};
ghost use Rattle.edl_frames.specs.Counted.{item_count};
ghost use Rattle.edl_frames.specs.Faults.{IsConformFault};
ghost use Rattle.edl_frames.specs.declared.reasons.NotCarried.{NotCarried};
ghost use Rattle.edl_frames.specs.declared.reasons.NotCarried.TheVariants.{Memory as NoMemory};
ghost use Rattle.edl_frames.specs.Carried.{not_carried, IsListOf, IsNotCarried};
ghost use Rattle.edl_law.specs.Premises.{AreInRange, AreListed, IsFine};
ghost use Rattle.edl_law.specs.WorkedTracks.{AreWorkedTracks, Clock24};
ghost use Rattle.edl_law.specs.Worked.{AreWorkedLists, IsRate24};

/// Law: the timeline of a list whose events its media list holds shows on each channel, at each
/// record frame, what the list shows.
pub fn conformed_timelines_show_lists()
    ensures { (list : EventList) (media : MediaRows) (t : Timeline) (c : Channel) (n : ℤ) →
        IsWellFormed list → IsAccepted list media → IsTimelineOf list media t →
        on t c n ≡ shown list media c n }
{}

/// Law: in the timeline of a list no two transitions stand side by side, none stands in a stack,
/// and no offset is negative.
pub fn conformed_timelines_are_calm()
    ensures { (list : EventList) (media : MediaRows) (t : Timeline) →
        IsTimelineOf list media t → IsCalm t }
{}

/// Law: each well formed list has a timeline, with any media list whose media lie within a million
/// seconds of 0, as those of each media list do.
pub fn conformed_timelines_are_there()
    ensures { (list : EventList) (media : MediaRows) → IsWellFormed list → AreInRange media →
        (t : Timeline) × IsTimelineOf list media t }
{}

/// Law: a list has one timeline at most, its reserved memory aside.
pub fn conformed_timelines_are_one()
    ensures { (list : EventList) (media : MediaRows) (a b : Timeline) →
        IsTimelineOf list media a → IsTimelineOf list media b → bare a ≡ bare b }
{}

/// Law: the timeline of a list has as many items below its root stack as `item_count` says.
pub fn timelines_have_counts()
    ensures { (list : EventList) (media : MediaRows) (t : Timeline) →
        IsTimelineOf list media t → count t.tracks.children ≡ item_count list }
{}

/// Law: but for want of memory, a list is refused by one fault at most, and by none where its media
/// list holds its events and they don't make too many items.
pub fn conform_faults_are_one()
    ensures one { (list : EventList) (media : MediaRows) (f g : ConformFault) →
        IsConformFault list media f → IsConformFault list media g → f ≢ Memory → g ≢ Memory →
        f ≡ g }
    ensures none { (list : EventList) (media : MediaRows) (f : ConformFault) →
        IsConformFault list media f → f ≢ Memory → IsAccepted list media →
        item_count list ≤ most_items → ⊥ }
{}

/// Law: small lists at 24 frames a second show and conform as it is worked out by hand: a dissolve
/// of 24 frames between two files, a dissolve to a still whose outgoing side the event before
/// continues or doesn't, and a list whose second reel isn't listed.
pub fn lists_are_worked()
    ensures lists { (rate : Rate) → IsRate24 rate → AreWorkedLists rate }
    ensures rate { (rate : Rate) × IsRate24 rate }
{}

/// Law: the list of a sound timeline shows on each channel, at each record frame, what the timeline
/// shows; without a media list, what it shows where each clip is known by its reel.
pub fn lists_show_timelines()
    ensures listed { (t : Timeline) (list : EventList) (rows : List MediaRow) (drop wide : Bool)
        (c : Channel) (n : ℤ) → IsSound t → AreRows rows →
        not_carried t (Some rows) drop wide ≡ None → IsListOf t (Some rows) drop wide list →
        shown list (Some rows) c n ≡ on t c n }
    ensures reels { (t : Timeline) (list : EventList) (drop wide : Bool) (c : Channel) (n : ℤ) →
        IsSound t → not_carried t None drop wide ≡ None → IsListOf t None drop wide list →
        shown list None c n ≡ on_reels t c n }
{}

/// Law: the list of a timeline that is carried is well formed and even, the layout that is asked
/// for has room for its events and reels, its labels are below the day in the mode that is asked
/// for, and its media list holds its events.
pub fn lists_are_fine()
    ensures { (t : Timeline) (list : EventList) (media : MediaRows) (drop wide : Bool) →
        IsCalm t → AreListed media → not_carried t media drop wide ≡ None →
        IsListOf t media drop wide list → IsFine list media drop wide }
{}

/// Law: each timeline that is carried has a list, for each media list, mode and layout.
pub fn lists_are_there()
    ensures { (t : Timeline) (media : MediaRows) (drop wide : Bool) → IsCalm t →
        not_carried t media drop wide ≡ None →
        (list : EventList) × IsListOf t media drop wide list }
{}

/// Law: a timeline has one list at most.
pub fn lists_of_timelines_are_one()
    ensures { (t : Timeline) (media : MediaRows) (drop wide : Bool) (a b : EventList) →
        IsListOf t media drop wide a → IsListOf t media drop wide b → a ≡ b }
{}

/// Law: a list of no more events than the narrow layout has numbers for makes no more items than a
/// timeline may have.
pub fn narrow_lists_have_few_items()
    ensures { (list : EventList) → length list.events ≤ most_events narrow →
        item_count list ≤ most_items }
{}

/// Law: but for want of memory, a timeline has one reason at most for which it has no list, and
/// none where it has one.
pub fn reasons_are_one()
    ensures one { (t : Timeline) (media : MediaRows) (drop wide : Bool) (a b : NotCarried) →
        IsNotCarried t media drop wide a → IsNotCarried t media drop wide b → a ≢ NoMemory →
        b ≢ NoMemory → a ≡ b }
    ensures none { (t : Timeline) (media : MediaRows) (drop wide : Bool) (a : NotCarried) →
        IsNotCarried t media drop wide a → a ≢ NoMemory → not_carried t media drop wide ≡ None → ⊥ }
{}

/// Law: a sound timeline that was written as a list, read again as the same list and conformed
/// shows what it showed: against its media list the same frames of the same files, and without one
/// the same frames of the same reels.
pub fn frames_are_kept()
    ensures listed { (t again : Timeline) (list read : EventList) (rows : List MediaRow)
        (drop wide : Bool) → IsSound t → AreRows rows →
        not_carried t (Some rows) drop wide ≡ None → IsListOf t (Some rows) drop wide list →
        IsSame list read → IsWellFormed read →
        IsAccepted read (Some rows) × (IsTimelineOf read (Some rows) again →
        (c : Channel) (n : ℤ) → on again c n ≡ on t c n) }
    ensures reels { (t again : Timeline) (list read : EventList) (drop wide : Bool) → IsSound t →
        not_carried t None drop wide ≡ None → IsListOf t None drop wide list →
        IsSame list read → IsWellFormed read →
        IsAccepted read None × (IsTimelineOf read None again →
        (c : Channel) (n : ℤ) → on again c n ≡ on_reels t c n) }
{}

/// Law: small tracks at 24 frames a second have the events that are worked out by hand: of a
/// dissolve between two clips, of one to black, and of one to a clip at one and a half its speed.
/// A clip at 1.1 of its speed isn't carried where its side begins between two frames, nor are a
/// clip without a reel, one whose reel is longer than its column, and a second Video track. A gap,
/// a disabled clip without a reel and a disabled track are carried.
pub fn tracks_are_worked()
    ensures tracks { (clock : Clock24) → AreWorkedTracks clock }
    ensures clock { Clock24 }
{}
