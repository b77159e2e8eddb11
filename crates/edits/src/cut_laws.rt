//! Cuts, worked out by hand.

ghost use Rattle.edits.specs.WorkedCuts.{AreCut, AreNear, ArePieces, AreStripped};

/// Law: times near an instant, pieces of items, fronts and backs of lists and the transitions that
/// a zone strips are those that are worked out by hand. It does nothing.
pub fn cuts_are_worked()
    ensures times { AreNear }
    ensures pieces { ArePieces }
    ensures strips { AreStripped }
    ensures lists { AreCut }
{}
