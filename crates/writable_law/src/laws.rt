//! Laws of items and timelines that are written. Their functions do nothing.

ghost use Rattle.std.specs.Prelude.{◌≡◌, ℤ, false, List, Some};
ghost use Rattle.tick_time.specs.declared.rates.Rate.{Rate};
ghost use Rattle.json_value.specs.declared.Json.{Json};
ghost use Rattle.otio_model.specs.declared.compositions.ItemOf.{ItemOf};
ghost use Rattle.otio_model.specs.declared.compositions.Listed.{Listed};
ghost use Rattle.otio_model.specs.declared.objects.Object.{Object, out-Object};
ghost use Rattle.otio_model.specs.declared.objects.Object.{Timeline as ObjectOfTimeline};
ghost use Rattle.otio_model.specs.declared.objects.Object.TheOpen.{Object-F};
ghost use Rattle.otio_model.specs.declared.timelines.Timeline.{Timeline};
ghost use Rattle.coord.specs.Soundness.{IsCalm};
ghost use Rattle.edits.specs.Children.{Ranged, all_made, made};
ghost use Rattle.edits.specs.Cuts.{back};
ghost use Rattle.edits.specs.Edits.{fitted};
ghost use Rattle.edits.specs.Refusals.{is_wrong_fit};
ghost use Rattle.schema_rows.specs.Stands.{Stands};
ghost use Rattle.schema_up.specs.Upgrades.{upgraded};
ghost use Rattle.schema_write.specs.Objects.{json_of, old_json_of};
ghost use Rattle.schema_write.specs.OldForms.{HasOldForm};
ghost use Rattle.object_law.specs.Writable.{IsUpgraded, AreItems, IsItem, IsTimeline};

/// Law: a timeline that was read from an upgraded JSON value is writable, and its transitions stand
/// where they may. It does nothing.
pub fn read_timelines_are_writable()
    ensures writable { (t : Timeline) (value : Json) (object : Object) → IsUpgraded value →
        Stands value object → out-Object object ≡ Object-F.Timeline t → IsTimeline t }
    ensures calm { (t : Timeline) (value : Json) (object : Object) → IsUpgraded value →
        Stands value object → out-Object object ≡ Object-F.Timeline t → IsCalm t }
{}

/// Law: the transitions of a writable timeline stand where they may, and what is written of it
/// reads back as that timeline, also in the older family (`Clip.1`, `Marker.1`), where it has a
/// form there, once that is upgraded. It does nothing.
pub fn writable_timelines_stand()
    ensures calm { (t : Timeline) → IsTimeline t → IsCalm t }
    ensures again { (t : Timeline) → IsTimeline t →
        Stands (json_of (ObjectOfTimeline t)) (ObjectOfTimeline t) }
    ensures older { (t : Timeline) → IsTimeline t → HasOldForm (ObjectOfTimeline t) →
        Stands (upgraded (old_json_of (ObjectOfTimeline t))) (ObjectOfTimeline t) }
{}

/// Law: a writable item is writable with another range, also where its speed fits it to a length;
/// and so is what comes after a cut. It does nothing.
pub fn made_items_are_writable()
    ensures ranged { (r : Rate) (x y : ItemOf Listed) (s n : ℤ) → IsItem x →
        made r (Ranged x s n) ≡ Some y → IsItem y }
    ensures fitted { (r : Rate) (x y : ItemOf Listed) (room s n : ℤ) → IsItem x →
        is_wrong_fit x room ≡ false → made r (Ranged (fitted x room) s n) ≡ Some y →
        IsItem y }
    ensures behind { (r : Rate) (l m : List (ItemOf Listed)) (t : ℤ) → AreItems l →
        all_made r (back l t) ≡ Some m → AreItems m }
{}
