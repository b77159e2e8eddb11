//! How long edited lists are: a law, whose function does nothing.

ghost use Rattle.std.specs.Prelude.{◌≡◌, ◌++◌, ℤ, List, pos, ◌+ℤ◌, ◌-ℤ◌, ◌≤ℤ◌};
ghost use Rattle.std.specs.Int.{int_max};
ghost use Rattle.otio_model.specs.declared.compositions.ItemOf.{ItemOf};
ghost use Rattle.otio_model.specs.declared.compositions.Listed.{Listed};
ghost use Rattle.edits.specs.Children.{Child};
ghost use Rattle.edits.specs.Cuts.{back, front, olds, put_between, strip};
ghost use Rattle.edits.specs.Edges.{added};
ghost use Rattle.edits.specs.Refusals.{long};

/// Law: how long a list is that has others between two cuts, in ticks.
pub fn spliced_lengths()
    ensures olds { (l : List (ItemOf Listed)) → long (olds l) ≡ added l }
    ensures joined { (l r : List Child) → long (l ++ r) ≡ long l +ℤ long r }
    ensures front { (l : List (ItemOf Listed)) (t : ℤ) → pos 0 ≤ℤ t → long (front l t) ≡ t }
    ensures back { (l : List (ItemOf Listed)) (t : ℤ) → pos 0 ≤ℤ t →
        long (back l t) ≡ int_max (pos 0) (added l -ℤ t) }
    ensures between { (l : List (ItemOf Listed)) (a b : ℤ) (n : List Child) → pos 0 ≤ℤ a →
        pos 0 ≤ℤ b → long (put_between (strip l a b) a n b)
        ≡ (a +ℤ long n) +ℤ int_max (pos 0) (added l -ℤ b) }
{}
