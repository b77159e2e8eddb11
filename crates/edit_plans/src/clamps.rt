//! Limits of moves, in whole frames.

ghost use Rattle.std.specs.Prelude.{◌≡◌, IfSome, Some, None, pos, ◌≤ℤ◌, ◌-ℤ◌, ◌*ℤ◌};
ghost use Rattle.std.specs.Int.{int_div_euclid, int_max};
ghost use Rattle.edits.specs.Edges as edges;
ghost use Rattle.edit_plans.specs.Bounds.{IsMove};

// How many whole frames of so many ticks there are.
fn frame_count(frame: i128, ticks: i128) -> i128
    requires frame { pos 1 ≤ℤ frame }
    requires low { pos 0 ≤ℤ ticks }
    ensures value { result ≡ int_div_euclid ticks frame }
    ensures least { pos 0 ≤ℤ (result *ℤ frame) }
    ensures most { (result *ℤ frame) ≤ℤ ticks }
{
    ticks.div_euclid(frame)
}

/// The whole frames in so many ticks, in ticks; 0 where these are negative.
pub fn whole_frames(frame: i128, ticks: i128) -> i128
    requires frame { pos 1 ≤ℤ frame }
    ensures value { result ≡ edges.whole_frames frame ticks }
    ensures low { pos 0 ≤ℤ result }
{
    if ticks < 0 {
        return 0;
    }
    frame_count(frame, ticks) * frame
}

/// The same of a limit; none where there is none.
pub fn whole_limit(frame: i128, limit: Option<i128>) -> Option<i128>
    requires frame { pos 1 ≤ℤ frame }
    ensures value { result ≡ edges.whole_limit frame limit }
    ensures low { IfSome result (λ ticks. pos 0 ≤ℤ ticks) }
{
    match limit {
        Some(ticks) => Some(whole_frames(frame, ticks)),
        None => None,
    }
}

/// The lesser of two limits, where none is no limit.
pub fn lesser(a: Option<i128>, b: Option<i128>) -> Option<i128>
    requires a { IfSome a (λ ticks. pos 0 ≤ℤ ticks) }
    requires b { IfSome b (λ ticks. pos 0 ≤ℤ ticks) }
    ensures value { result ≡ edges.lesser a b }
    ensures low { IfSome result (λ ticks. pos 0 ≤ℤ ticks) }
{
    match a {
        Some(x) => match b {
            Some(y) => Some(x.min(y)),
            None => Some(x),
        },
        None => b,
    }
}

// The number held from the negative of a number on.
fn held_from(least: i128, number: i128) -> i128
    requires least { pos 0 ≤ℤ least }
    requires number { IsMove number }
    ensures value { result ≡ int_max number (pos 0 -ℤ least) }
    ensures near { IsMove result }
{
    number.max(0 - least)
}

// The number held from the negative of a limit on.
fn at_least(limit: Option<i128>, number: i128) -> i128
    requires least { IfSome limit (λ least. pos 0 ≤ℤ least) }
    requires number { IsMove number }
    ensures value { result ≡ edges.at_least limit number }
    ensures near { IsMove result }
{
    match limit {
        Some(least) => held_from(least, number),
        None => number,
    }
}

// The number held up to a limit.
fn at_most(limit: Option<i128>, number: i128) -> i128
    requires most { IfSome limit (λ most. pos 0 ≤ℤ most) }
    requires number { IsMove number }
    ensures value { result ≡ edges.at_most limit number }
    ensures near { IsMove result }
{
    match limit {
        Some(most) => number.min(most),
        None => number,
    }
}

/// The number held from the negative of one limit up to another one.
pub fn clamped(below: Option<i128>, above: Option<i128>, number: i128) -> i128
    requires below { IfSome below (λ least. pos 0 ≤ℤ least) }
    requires above { IfSome above (λ most. pos 0 ≤ℤ most) }
    requires number { IsMove number }
    ensures value { result ≡ edges.clamped below above number }
    ensures near { IsMove result }
{
    at_most(above, at_least(below, number))
}

/// Whether a number is 0.
pub fn is_zero(number: i128) -> bool
    ensures { result ≡ edges.is_zero number }
{
    number <= 0 && 0 <= number
}
