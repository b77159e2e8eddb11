//! Laws of what is drawn. Their functions do nothing.

ghost use Rattle.drill.specs.Worked.{IsDrawWorked};

/// Law: the first draws of seed 0 are those that were computed by hand.
pub fn draws_are_worked()
    ensures { IsDrawWorked }
{}
