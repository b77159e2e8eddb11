//! Laws of the written form, on functions that do nothing.

ghost use Rattle.std.specs.Prelude.{◌≡◌, ℤ};
ghost use Rattle.tick_time.specs.declared.rates.Rate.{Rate};
ghost use Rattle.tick_time.specs.declared.times.Time.{Time};
ghost use Rattle.tick_time.specs.Times.{IsSpeed};
ghost use Rattle.otio_model.specs.declared.compositions.Listed.{Listed};
ghost use Rattle.otio_model.specs.declared.compositions.ItemOf.{ItemOf};
ghost use Rattle.otio_model.specs.declared.objects.Object.{Object};
ghost use Rattle.otio_model.specs.declared.effect_types.Effect.{Effect};
ghost use Rattle.otio_model.specs.declared.markers.Marker.{Marker};
ghost use Rattle.otio_model.specs.declared.media.Media.{Media};
ghost use Rattle.schema_rows.specs.Readings.{object_fields, item_fields, effect_reading, marker_reading, medium_reading};
ghost use Rattle.schema_write.specs.Objects.{json_of, item_json, effect_json, marker_json, medium_json};
ghost use Rattle.schema_write.specs.Tables.{fields_json, reading_json};
ghost use Rattle.schema_write.specs.Texts.{decimal_text, rate_text, value_text};
ghost use Rattle.schema_write.specs.Reread.{ReadsAsMillionths, ReadsAsRate, ReadsAsTime};

/// Law: what is written of an object, an item, an effect, a marker and a media reference is the
/// text of its schema, a value for each row of the schema's table in the table's order, and its
/// other members; a value that was kept is written as it is. It does nothing.
pub fn written_by_tables()
    ensures objects { (object : Object) → json_of object ≡ fields_json (object_fields object) }
    ensures items { (item : ItemOf Listed) → item_json item ≡ fields_json (item_fields item) }
    ensures effects { (effect : Effect) →
        effect_json effect ≡ reading_json (effect_reading effect) }
    ensures markers { (marker : Marker) →
        marker_json marker ≡ reading_json (marker_reading marker) }
    ensures media { (medium : Media) → medium_json medium ≡ reading_json (medium_reading medium) }
{}

/// Law: the text that is written of a speed, of a rate and of the value of a time is read as that
/// speed, that rate and that time. It does nothing.
pub fn texts_are_read()
    ensures speeds { (speed : ℤ) → IsSpeed speed → ReadsAsMillionths (decimal_text speed) speed }
    ensures rates { (rate : Rate) → ReadsAsRate (rate_text rate) rate }
    ensures times { (time : Time) → ReadsAsTime (value_text time) time }
{}
