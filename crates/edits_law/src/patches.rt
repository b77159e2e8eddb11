//! How few children an edit touches, and what is known of a tree of which one list was changed:
//! laws, whose functions do nothing.

ghost use Rattle.std.specs.Prelude.{◌≡◌, ℕ, ◌+◌, ◌≤◌, ◌++◌, ◌∷◌, ℤ, List, None, Some, pos};
ghost use Rattle.std.specs.Prelude.{length, option_map, ◌+ℤ◌, ◌-ℤ◌, ◌≤ℤ◌};
ghost use Rattle.tick_time.specs.declared.rates.Rate.{Rate};
ghost use Rattle.otio_model.specs.declared.compositions.ItemOf.{ItemOf};
ghost use Rattle.otio_model.specs.declared.compositions.Listed.{Listed};
ghost use Rattle.otio_model.specs.Counts.{count};
ghost use Rattle.otio_model.specs.Edits.{list_at, replaced, with_at};
ghost use Rattle.coord.specs.Soundness.{AreFaultless, fault_of};
ghost use Rattle.coord.specs.declared.faults.ItemFault.TheVariants.{Long};
ghost use Rattle.edits.specs.Children.{Child, all_made, ticks};
ghost use Rattle.edits.specs.Cuts.{olds, put_between, strip};
ghost use Rattle.edits.specs.Edges.{added, first_changed, last_changed};
ghost use Rattle.edits.specs.Everywhere.{Everywhere, OnTheWay};
ghost use Rattle.edits.specs.Narrow.{ahead, beyond, onward, past_met, touched, up_to_met};

/// Law: a list with others between two cuts is the old one but for the children that are touched,
/// and few come in their place.
pub fn patches_are_narrow()
    ensures parts { (l : List (ItemOf Listed)) (a b : ℤ) →
        ahead l a b ++ (touched l a b ++ beyond l a b) ≡ l }
    ensures between { (l : List (ItemOf Listed)) (a b : ℤ) (n : List Child) → a ≤ℤ b →
        pos 0 ≤ℤ b → put_between (strip l a b) a n b
        ≡ olds (ahead l a b) ++ (put_between
        (strip (touched l a b) (a -ℤ added (ahead l a b)) (b -ℤ added (ahead l a b)))
        (a -ℤ added (ahead l a b)) n (b -ℤ added (ahead l a b)) ++ olds (beyond l a b)) }
    ensures made { (rate : Rate) (l r : List (ItemOf Listed)) (c : List Child) →
        all_made rate (olds l ++ (c ++ olds r))
        ≡ option_map (λ m. l ++ (m ++ r)) (all_made rate c) }
    ensures patched { (l m r put : List (ItemOf Listed)) →
        replaced (length l) (length m) put (l ++ (m ++ r)) ≡ l ++ (put ++ r) }
    ensures few { (m : List (ItemOf Listed)) (a b : ℤ) (n : List Child) → a ≤ℤ b →
        length (put_between (strip m a b) a n b) ≤ length m + 1 + length n }
{}

/// Law: what edits of edges make of what stands before and after the item changes no child
/// outside those that the zone touches.
pub fn edge_patches_are_narrow()
    ensures before { (f : ItemOf Listed → List Child) (l : List (ItemOf Listed)) (a b : ℤ) →
        a ≤ℤ b → pos 0 ≤ℤ b → a ≤ℤ added l → added l ≤ℤ b → last_changed f (strip l a b)
        ≡ olds (ahead l a b) ++ last_changed f
        (strip (onward l a b) (a -ℤ added (ahead l a b)) (b -ℤ added (ahead l a b))) }
    ensures before_kept { (l : List (ItemOf Listed)) (a b : ℤ) → olds (strip l a b)
        ≡ olds (ahead l a b) ++ olds
        (strip (onward l a b) (a -ℤ added (ahead l a b)) (b -ℤ added (ahead l a b))) }
    ensures behind { (f : ItemOf Listed → List Child) (l : List (ItemOf Listed)) (a b : ℤ) →
        a ≤ℤ pos 0 → pos 0 ≤ℤ b → first_changed f (strip l a b)
        ≡ first_changed f (strip (up_to_met l a b) a b) ++ olds (past_met l a b) }
    ensures behind_kept { (l : List (ItemOf Listed)) (a b : ℤ) → olds (strip l a b)
        ≡ olds (strip (up_to_met l a b) a b) ++ olds (past_met l a b) }
    ensures ahead { (l : List (ItemOf Listed)) (x : ItemOf Listed) (r : List (ItemOf Listed))
        (a b : ℤ) → added l ≤ℤ b → a ≤ℤ (added l +ℤ ticks x) →
        ahead (l ++ (x ∷ r)) a b ≡ ahead l a b }
    ensures touched { (l : List (ItemOf Listed)) (x : ItemOf Listed) (r : List (ItemOf Listed))
        (a b : ℤ) → added l ≤ℤ b → a ≤ℤ (added l +ℤ ticks x) → touched (l ++ (x ∷ r)) a b
        ≡ onward l a b
        ++ (x ∷ up_to_met r (a -ℤ (added l +ℤ ticks x)) (b -ℤ (added l +ℤ ticks x))) }
    ensures few_before { (f : ItemOf Listed → List Child) (l : List (ItemOf Listed)) →
        ((x : ItemOf Listed) → length (f x) ≤ 1) → length (last_changed f l) ≤ length l }
    ensures few_behind { (f : ItemOf Listed → List Child) (l : List (ItemOf Listed)) →
        ((x : ItemOf Listed) → length (f x) ≤ 1) → length (first_changed f l) ≤ length l }
{}

/// Law: where the old items, those of a new list at a place and those on the way there have no
/// fault, none has; where none of them is too long, none is; and there are as many more as the new
/// list has more than the old one.
pub fn changed_trees_are_known()
    ensures sound { (place : List ℕ) (m l : Listed) → AreFaultless l → AreFaultless m →
        OnTheWay (λ x. fault_of x ≡ None) place (with_at place m l) →
        AreFaultless (with_at place m l) }
    ensures short { (place : List ℕ) (m l : Listed) →
        Everywhere (λ x. fault_of x ≡ Some Long → ⊥) l →
        Everywhere (λ x. fault_of x ≡ Some Long → ⊥) m →
        OnTheWay (λ x. fault_of x ≡ Some Long → ⊥) place (with_at place m l) →
        Everywhere (λ x. fault_of x ≡ Some Long → ⊥) (with_at place m l) }
    ensures count { (place : List ℕ) (m l c : Listed) → list_at place l ≡ Some c →
        count (with_at place m l) + count c ≡ count l + count m }
{}
