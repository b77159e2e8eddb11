//! How much of a mix is its incoming side.

ghost use Rattle.std.specs.Prelude.{◌≡◌, ◌<◌, pos, ◌≤ℤ◌, ◌<ℤ◌, unsigned_abs};
ghost use Rattle.coord.specs.Looks as looks;
ghost use Rattle.show_prog.specs.Walk.{weight_of};

/// A fraction `num / den` in lowest terms.
#[derive(Clone, Copy)]
pub(crate) struct Share {
    pub(crate) num: i128,
    pub(crate) den: i128,
}

// The greatest common divisor.
#[tactic(auto, using(crate::proofs::Euclid::divisor_next, crate::proofs::Euclid::divisor_done, crate::proofs::Euclid::divisor_some))]
fn divisor(a: u128, b: u128) -> u128
    ensures value { result ≡ looks.divisor a b }
{
    if b == 0 { a } else { divisor(b, a % b) }
}

/// So many ticks of a whole, in lowest terms.
pub(crate) fn lowest(part: i128, whole: i128) -> Share
    requires low { pos 0 ≤ℤ part }
    requires some { pos 0 <ℤ whole }
    ensures { weight_of result ≡ looks.weight (unsigned_abs part) (unsigned_abs whole) }
{
    let num = part.unsigned_abs();
    let den = whole.unsigned_abs();
    let common = divisor(num, den);
    Share {
        num: (num / common) as i128,
        den: (den / common) as i128,
    }
}
