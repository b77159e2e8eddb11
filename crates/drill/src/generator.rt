//! The generator of numbers.

ghost use Rattle.std.specs.Prelude.{◌≡◌, ◌≤◌, ◌<◌, ◌^◌};
ghost use Rattle.drill.specs.Draws as draws;

/// A generator of numbers, each made from the one before (a linear congruential generator modulo
/// 2^64, of which the upper 31 bits are used).
#[derive(Clone, Copy)]
pub struct Random {
    /// The number that it stands at: the seed at first.
    pub state: u64,
}

// The generator's number after a draw.
fn next(state: u64) -> u64
    ensures { result ≡ draws.next state }
{
    let raised = u128::from(state) * 6_364_136_223_846_793_005 + 1_442_695_040_888_963_407;
    (raised % 18_446_744_073_709_551_616) as u64
}

impl Random {
    /// A number that is drawn of those below `below`.
    pub fn draw(&mut self, below: u128) -> u64
        requires { 1 ≤ below }
        ensures number { result ≡ draws.draw below self.old.state }
        ensures state { self.new.state ≡ draws.next self.old.state }
        ensures less { result < below }
        ensures small { result < 2 ^ 31 }
    {
        self.state = next(self.state);
        let upper = self.state >> 33;
        (u128::from(upper) % below) as u64
    }
}
