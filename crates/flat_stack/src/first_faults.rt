//! Which of two places at which something is wrong stands before the other.

ghost use Rattle.std.specs.Prelude.{◌≡◌};
ghost use Rattle.flat_stack.specs.Sought as sought;

use crate::fault_places::Spot;

// Whether one child of a root child, or itself, stands before another.
fn child_before(first: Option<usize>, second: Option<usize>) -> bool
    ensures { result ≡ sought.child_before first second }
{
    match second {
        Some(second) => match first {
            Some(first) => first < second,
            None => true,
        },
        None => false,
    }
}

// Whether one spot stands before another in document order.
fn is_before(first: Spot, second: Spot) -> bool
    ensures { result ≡ sought.is_before first second }
{
    if first.track < second.track {
        return true;
    }
    first.track == second.track && child_before(first.child, second.child)
}

/// The earlier of two spots, where there are any.
pub(crate) fn earlier(first: Option<Spot>, second: Option<Spot>) -> Option<Spot>
    ensures { result ≡ sought.earlier first second }
{
    let one = match first {
        Some(one) => one,
        None => return second,
    };
    match second {
        Some(two) => {
            if is_before(one, two) {
                return Some(one);
            }
            Some(two)
        }
        None => Some(one),
    }
}
