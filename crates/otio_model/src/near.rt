//! Values of names whose places are known.

ghost use Rattle.std.specs.Prelude.{◌≡◌};
ghost use Rattle.std.specs.Option.{option_copied};
ghost use Rattle.sequences.specs.Pairs.{value_of};

use sequences::{NamedValues, Text};

/// The value of that name; `None` exactly where no pair has the name. In practice it takes constant
/// time where the pair stands at `place`, which no clause says.
pub(crate) fn value_near<'a, T>(
    pairs: &'a NamedValues<T>,
    name: &str,
    place: usize,
) -> Option<&'a T>
    ensures { option_copied result ≡ value_of name.now pairs.now }
{
    match pairs.as_slice().get(place) {
        Some(pair) => {
            if name == pair.0.as_str() {
                return Some(&pair.1);
            }
        }
        None => {}
    }
    pairs.get(name)
}

/// The place of the first pair of that name, of the first 2^32; 0 where none has the name.
pub(crate) fn place_of<T>(pairs: &[(Text, T)], name: &str) -> u32 {
    for (index, pair) in pairs.iter().enumerate() {
        if name == pair.0.as_str() {
            return index.min(u32::MAX as usize) as u32;
        }
    }
    0
}
