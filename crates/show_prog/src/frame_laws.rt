//! Laws of what is listed. Their functions do nothing.

ghost use Rattle.std.specs.Prelude.{◌≡◌, ℕ, Option};
ghost use Rattle.otio_model.specs.declared.timelines.Timeline.{Timeline as AnyTimeline};
ghost use Rattle.otio_model.specs.Timelines.{bare};
ghost use Rattle.smpte_tc.specs.declared.points.RecordPoint.{RecordPoint as AnyPoint};
ghost use Rattle.show_prog.specs.declared.frame_range.Listing.{Listing as AnyListing};
ghost use Rattle.show_prog.specs.Rows.{listing_of, listing_text};

/// Law: of timelines that differ in their spare memory alone the same is listed, in the same lines.
pub fn bare_rows_are_listed()
    ensures listing { (a b : AnyTimeline) (child : Option ℕ) (start : Option AnyPoint)
        (count : Option ℕ) → bare a ≡ bare b →
        listing_of a child start count ≡ listing_of b child start count }
    ensures text { (a b : AnyTimeline) (l : AnyListing) → bare a ≡ bare b →
        listing_text a l ≡ listing_text b l }
{}
