//! Laws of what timelines show. Their functions do nothing.

ghost use Rattle.std.specs.Prelude.{◌≡◌, ◌≢◌, ◌<◌, ◌*◌, ℕ, ℤ, List};
ghost use Rattle.std.specs.Int.{IsGcd};
ghost use Rattle.otio_model.specs.declared.compositions.Listed.{Listed};
ghost use Rattle.otio_model.specs.declared.timelines.Timeline.{Timeline as AnyTimeline};
ghost use Rattle.otio_model.specs.Lengths.{lengths};
ghost use Rattle.otio_model.specs.Timelines.{bare};
ghost use Rattle.coord.specs.declared.faults.CoordFault.{CoordFault as AnyTold};
ghost use Rattle.coord.specs.declared.faults.CoordFault.TheVariants.{Memory};
ghost use Rattle.coord.specs.declared.faults.ItemFault.{ItemFault as AnyFault};
ghost use Rattle.coord.specs.Sights.{sights, lengths_seen};
ghost use Rattle.coord.specs.Looks.{divisor, weight};
ghost use Rattle.coord.specs.Soundness.{IsFirstFault, IsFaultless, IsFaultOf, IsSound};
ghost use Rattle.coord.specs.Agreement.{unrated};
ghost use Rattle.coord.specs.Worked.{IsDissolveWorked};
ghost use Rattle.coord.specs.WorkedItems.{Clock, IsClock24, AreWorkedItems};
ghost use Rattle.coord.specs.Programs.{at, at_by, rate_24, program, record_rate, start_frame};

/// Law: the lengths that children are seen to have are theirs.
pub fn lengths_are_seen()
    ensures { (l : Listed) → lengths_seen (sights l) ≡ lengths l }
{}

/// Law: a viewer who takes every rate for 24 sees at each instant what agrees with what is shown.
pub fn agreement_is_seen()
    ensures { (t : AnyTimeline) (k : ℕ) (u : ℤ) →
        unrated (at t k u) ≡ at_by (λ rate. rate_24) t k u }
{}

/// Law: a dissolve of 24 frames is mixed as it is worked out by hand, also where its cut is moved
/// to its first frame.
pub fn dissolves_are_mixed()
    ensures { IsDissolveWorked }
{}

/// Law: small lists of items show what is worked out by hand: a dissolve of 12 frames, a clip at
/// twice its speed behind a gap, a nested stack at twice its speed, a dissolve to a still, and a
/// dissolve of 24 frames, also where its cut is moved to its first frame.
pub fn items_are_worked()
    ensures rows { (clock : Clock) → AreWorkedItems clock }
    ensures clock { (clock : Clock) × IsClock24 clock }
{}

/// Law: Euclid's divisor is the greatest common divisor: it divides both numbers, and every number
/// that divides both divides it.
pub fn divisor_is_greatest()
    ensures { (a b : ℕ) → IsGcd a b (divisor a b) }
{}

/// Law: a weight stays the same where both of its numbers are multiplied by one that isn't 0.
pub fn weights_are_lowest()
    ensures { (a b c : ℕ) → 0 < c → weight (a * c) (b * c) ≡ weight a b }
{}

/// Law: there is one first fault at most.
pub fn first_fault_is_one()
    ensures { (l : Listed) (p q : List ℕ) (f g : AnyFault) → IsFirstFault l p f →
        IsFirstFault l q g → (p ≡ q) × (f ≡ g) }
{}

/// Law: a timeline has one fault at most, want of memory aside.
pub fn one_fault()
    ensures { (t : AnyTimeline) (f g : AnyTold) → f ≢ Memory → g ≢ Memory → IsFaultOf t f →
        IsFaultOf t g → f ≡ g }
{}

/// Law: a timeline without a fault has none, and no want of memory is told of it.
pub fn sound_or_faulty()
    ensures { (t : AnyTimeline) (f : AnyTold) → IsFaultless t → IsFaultOf t f → ⊥ }
{}

/// Law: timelines that differ in their spare memory alone show the same and have the same faults.
pub fn bare_is_seen()
    ensures programs { (a b : AnyTimeline) (k : ℕ) (n : ℤ) → bare a ≡ bare b →
        program a k n ≡ program b k n }
    ensures rate { (a b : AnyTimeline) → bare a ≡ bare b → record_rate a ≡ record_rate b }
    ensures start { (a b : AnyTimeline) → bare a ≡ bare b → start_frame a ≡ start_frame b }
    ensures faultless { (a b : AnyTimeline) → bare a ≡ bare b → IsFaultless a → IsFaultless b }
    ensures sound { (a b : AnyTimeline) → bare a ≡ bare b → IsSound a → IsSound b }
    ensures faults { (a b : AnyTimeline) (f : AnyTold) → bare a ≡ bare b → IsFaultOf a f →
        IsFaultOf b f }
{}
