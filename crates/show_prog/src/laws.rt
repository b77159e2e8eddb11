//! Laws of the listings. Their functions do nothing.

ghost use Rattle.std.specs.Prelude.{◌≡◌, ◌↔◌, Bool, AllPairs, Contains, Some};
ghost use Rattle.tick_time.specs.declared.rates.Rate.{Rate as AnyRate};
ghost use Rattle.otio_model.specs.declared.compositions.ItemOf.TheVariants.{Clip};
ghost use Rattle.otio_model.specs.declared.compositions.Listed.{Listed};
ghost use Rattle.otio_model.specs.declared.timelines.Timeline.{Timeline as AnyTimeline};
ghost use Rattle.otio_model.specs.Timelines.{bare};
ghost use Rattle.otio_model.specs.Trees.{item_at};
ghost use Rattle.schema_write.specs.Texts as written;
ghost use Rattle.coord.specs.Keys.{frame_rate};
ghost use Rattle.coord.specs.Soundness.{Precedes};
ghost use Rattle.show_prog.specs.Spots.{Spot, spots};
ghost use Rattle.show_prog.specs.ListingTexts.{listed_text, rate_text};
ghost use Rattle.show_prog.specs.Worked.{AreListingsWorked};

/// Law: of timelines that differ in their spare memory alone the listings are the same.
pub fn bare_is_listed()
    ensures { (a b : AnyTimeline) (tracks clips media stats : Bool) → bare a ≡ bare b →
        listed_text a tracks clips media stats ≡ listed_text b tracks clips media stats }
{}

/// Law: a rate is listed as it is written in JSON.
pub fn rates_are_written()
    ensures { (rate : AnyRate) → rate_text (frame_rate rate) ≡ written.rate_text rate }
{}

/// Law: of a small tree what is worked out by hand is listed: nested clips by their places, items
/// of each kind, and tracks by their indexes among all root children.
pub fn listings_are_worked()
    ensures { AreListingsWorked }
{}

/// Law: a clip is listed with a place exactly where this place leads to it, and the places stand in
/// document order, each once.
pub fn spots_are_clips()
    ensures places { (l : Listed) (s : Spot) → Contains (spots l) s ↔
        (item_at s.place l ≡ Some (Clip s.clip)) }
    ensures order { (l : Listed) → AllPairs (λ (s t : Spot). Precedes s.place t.place) (spots l) }
{}
