//! The next of some values, where its kind is known.
//!
//! Each function has the condition that the next value is of its kind, so no other case comes.

ghost use Rattle.std.specs.Prelude.{◌≡◌, ◌∷◌, Some};
ghost use Rattle.std.specs.Vec.Iter.{into_iter_items};
ghost use Rattle.schema_tab.specs.Shapes as shapes;
ghost use Rattle.schema_tab.specs.Shapes.{Shape, first_shape};

use json_value::Members;
use otio_model::{Effects, Items, Markers, MediaMap, Metadata, Objects, Stack};
use schema_rows::Value;
use sequences::Text;
use std::vec::IntoIter;
use tick_time::{Scalar, Span, Time};

/// What a value holds, where it can only be of this form.
macro_rules! held {
    ($held:ident in $form:pat = $value:expr) => {
        match $value {
            $form => $held,
            _ => unreachable!(),
        }
    };
}

pub(crate) fn next_text(values: &mut IntoIter<Value>) -> Text
    requires { first_shape (into_iter_items values.old) ≡ Some shapes.text }
    ensures { into_iter_items values.old ≡ Value.Text result ∷ into_iter_items values.new }
{
    held!(text in Some(Value::Text(text)) = values.next())
}

pub(crate) fn next_flag(values: &mut IntoIter<Value>) -> bool
    requires { first_shape (into_iter_items values.old) ≡ Some shapes.flag }
    ensures { into_iter_items values.old ≡ Value.Flag result ∷ into_iter_items values.new }
{
    held!(flag in Some(Value::Flag(flag)) = values.next())
}

pub(crate) fn next_meta(values: &mut IntoIter<Value>) -> Members
    requires { first_shape (into_iter_items values.old) ≡ Some shapes.meta }
    ensures { into_iter_items values.old ≡ Value.Meta result ∷ into_iter_items values.new }
{
    held!(members in Some(Value::Meta(members)) = values.next())
}

pub(crate) fn next_metadata(values: &mut IntoIter<Value>) -> Metadata
    requires { first_shape (into_iter_items values.old) ≡ Some shapes.meta }
    ensures { into_iter_items values.old ≡ Value.Meta result ∷ into_iter_items values.new }
{
    Metadata::of(next_meta(values))
}

pub(crate) fn next_span(values: &mut IntoIter<Value>) -> Option<Span>
    requires { first_shape (into_iter_items values.old) ≡ Some shapes.span }
    ensures { into_iter_items values.old ≡ Value.Span result ∷ into_iter_items values.new }
{
    held!(span in Some(Value::Span(span)) = values.next())
}

pub(crate) fn next_time(values: &mut IntoIter<Value>) -> Option<Time>
    requires { first_shape (into_iter_items values.old) ≡ Some shapes.time }
    ensures { into_iter_items values.old ≡ Value.Time result ∷ into_iter_items values.new }
{
    held!(time in Some(Value::Time(time)) = values.next())
}

// The next value.
fn next_value(values: &mut IntoIter<Value>) -> Value
    requires { (shape : Shape) × (first_shape (into_iter_items values.old) ≡ Some shape) }
    ensures { into_iter_items values.old ≡ result ∷ into_iter_items values.new }
{
    held!(value in Some(value) = values.next())
}

pub(crate) fn next_number(values: &mut IntoIter<Value>) -> Scalar
    requires { first_shape (into_iter_items values.old) ≡ Some shapes.number }
    ensures { into_iter_items values.old ≡ Value.Number result ∷ into_iter_items values.new }
{
    held!(speed in Value::Number(speed) = next_value(values))
}

pub(crate) fn next_items(values: &mut IntoIter<Value>) -> Items
    requires { first_shape (into_iter_items values.old) ≡ Some shapes.items }
    ensures { into_iter_items values.old ≡ Value.Items result ∷ into_iter_items values.new }
{
    held!(items in Some(Value::Items(items)) = values.next())
}

pub(crate) fn next_effects(values: &mut IntoIter<Value>) -> Effects
    requires { first_shape (into_iter_items values.old) ≡ Some shapes.effects }
    ensures { into_iter_items values.old ≡ Value.Effects result ∷ into_iter_items values.new }
{
    held!(effects in Some(Value::Effects(effects)) = values.next())
}

pub(crate) fn next_markers(values: &mut IntoIter<Value>) -> Markers
    requires { first_shape (into_iter_items values.old) ≡ Some shapes.markers }
    ensures { into_iter_items values.old ≡ Value.Markers result ∷ into_iter_items values.new }
{
    held!(markers in Some(Value::Markers(markers)) = values.next())
}

pub(crate) fn next_media(values: &mut IntoIter<Value>) -> MediaMap
    requires { first_shape (into_iter_items values.old) ≡ Some shapes.media }
    ensures { into_iter_items values.old ≡ Value.Media result ∷ into_iter_items values.new }
{
    held!(media in Some(Value::Media(media)) = values.next())
}

pub(crate) fn next_objects(values: &mut IntoIter<Value>) -> Objects
    requires { first_shape (into_iter_items values.old) ≡ Some shapes.objects }
    ensures { into_iter_items values.old ≡ Value.Objects result ∷ into_iter_items values.new }
{
    held!(objects in Some(Value::Objects(objects)) = values.next())
}

pub(crate) fn next_stack(values: &mut IntoIter<Value>) -> Stack
    requires { first_shape (into_iter_items values.old) ≡ Some shapes.stack }
    ensures { into_iter_items values.old ≡ Value.Stack result ∷ into_iter_items values.new }
{
    let stack = held!(stack in Some(Value::Stack(stack)) = values.next());
    stack.into_inner()
}
