//! Copies of values of each kind, and the size of a value.

use crate::values::{is_written, nested, value_of};
use json_value::{Json, copy_json};
use sequences::Text;
use std::test::Fail;

/// A member of each kind, as it is written.
const SAMPLES: &str = "{
    \"nothing\": null,
    \"truth\": true,
    \"numeral\": -1.50e3,
    \"\": \"é\\n\",
    \"list\": [
        false,
        {}
    ]
}
";

#[test]
fn copies_are_equal(rt: HostRuntime) -> Result<(), Fail> {
    let alloc = rt.alloc();
    let value = value_of(&rt, alloc, SAMPLES);
    let copy = copy_json(alloc, &value)?;
    is_written(&rt, alloc, &value, SAMPLES.as_bytes());
    is_written(&rt, alloc, &copy, SAMPLES.as_bytes());
    drop(copy);
    drop(value);
    Ok(())
}

#[test]
fn copies_deep_values(rt: HostRuntime) -> Result<(), Fail> {
    let value = nested(rt.alloc(), 1_000)?;
    let copy = copy_json(rt.alloc(), &value)?;
    assert!(rt; matches!(&copy, Json::List(_)));
    drop(copy);
    drop(value);
    Ok(())
}

#[test]
fn values_are_small(rt: HostRuntime) {
    assert!(rt; std::mem::size_of::<Json>() == 24);
    assert!(rt; std::mem::size_of::<(Text, Json)>() == 40);
}
