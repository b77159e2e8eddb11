//! Calls below the program: names of schemas, the rows of a table, and laws, which do nothing.

ghost use Rattle.std.specs.Prelude.{IfSome};
ghost use Rattle.schema_rows.specs.Numerals.{HasNumerals};

use json_law::{read_has_numerals, upgraded_stays};
use json_text::JsonReader;
use json_value::Json;
use object_law::{one_answer, patched_is_writable, written_is_read};
use otio_model::Place;
use schema_rows::{EFFECTS, ITEMS, MEDIA, Schema, SchemaFault, Value, named, names_are_distinct};
use schema_tab::read_fields;
use schema_write::{texts_are_read, written_by_tables};
use std::alloc::Global;
use std::mem::forget;
use std::process::Abort;

fn finds(rt: &impl Abort, family: &[Schema], name: &str, wanted: Option<Schema>) {
    assert!(rt; named(family, name) == wanted, "{name}");
}

#[test]
fn schemas_are_found_in_their_family(rt: HostRuntime) {
    finds(&rt, &ITEMS, "Gap", Some(Schema::Gap));
    finds(&rt, &EFFECTS, "Gap", None);
    let images = "ImageSequenceReference";
    finds(&rt, &MEDIA, images, Some(Schema::Images));
    assert!(rt; Schema::Clip.text() == "Clip.2");
    assert!(rt; Schema::FirstClip.text() == "Clip.1");
    assert!(rt; Schema::Track.version() == 1);
}

// The value of a text; none where it has none.
fn value_of(alloc: Global, text: &str) -> Option<Json>
    ensures { IfSome result HasNumerals }
{
    read_has_numerals();
    let mut reader = JsonReader::new(alloc);
    match reader.feed(text.as_bytes()) {
        Ok(()) => match reader.finish() {
            Ok(value) => Some(value),
            Err(_) => None,
        },
        Err(_) => None,
    }
}

// How many values were read. They are not freed.
fn count_of(values: Result<Vec<Value>, SchemaFault>) -> usize {
    let count = match &values {
        Ok(values) => values.len(),
        Err(_) => 0,
    };
    forget(values);
    count
}

// How many values a schema's table gives of a value that is an object.
fn row_count(alloc: Global, schema: Schema, value: &Json) -> usize
    requires { HasNumerals value.now }
{
    match value {
        Json::Map(_) => {
            let place = Place::new(alloc);
            count_of(read_fields(alloc, schema.table(), value, &place))
        }
        _ => 0,
    }
}

#[test]
fn each_row_has_a_value(rt: HostRuntime) {
    let alloc = rt.alloc();
    match value_of(alloc, r#"{"name":"s"}"#) {
        Some(value) => {
            assert!(rt; row_count(alloc, Schema::Collection, &value) == 3);
            assert!(rt; row_count(alloc, Schema::FirstClip, &value) == 7);
        }
        None => assert!(rt; false),
    }
}

#[test]
fn laws_do_nothing(_rt: HostRuntime) {
    names_are_distinct();
    upgraded_stays();
    written_by_tables();
    texts_are_read();
    written_is_read();
    patched_is_writable();
    one_answer();
}
