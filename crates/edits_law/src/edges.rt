//! The laws of the five edits of edges. Their function does nothing.

ghost use Rattle.std.specs.Prelude.{◌≡◌, ℤ, List, Some, pos, ◌+ℤ◌, ◌≤ℤ◌};
ghost use Rattle.otio_model.specs.declared.compositions.ItemOf.{ItemOf};
ghost use Rattle.otio_model.specs.declared.compositions.Listed.{Listed};
ghost use Rattle.coord.specs.Looks.{list_shows};
ghost use Rattle.coord.specs.Sights.{View};
ghost use Rattle.edits.specs.Children.{child_looks, ticks};
ghost use Rattle.edits.specs.Edges.{Held, Moves, first_item, last_item};
ghost use Rattle.edits.specs.Edges as edges;
ghost use Rattle.edits.specs.Good.{IsBefore, IsBehind, IsHeld, IsMoved, IsTrimmedBefore};
ghost use Rattle.edits.specs.Good.{IsTrimmedBehind};
ghost use Rattle.edits.specs.Laws as laws;

/// Law: what a list shows after each of the five edits of edges.
pub fn edge_edits_show()
    ensures slip { (v : View) (f by w : ℤ) (h : Held) →
        list_shows (child_looks v (edges.slipped f h by)) w
        ≡ laws.slip_law (edges.slip_by f h by) v h w }
    ensures slide { (v : View) (l : List (ItemOf Listed)) (h : Held) (y : ItemOf Listed)
        (d w : ℤ) → IsHeld l h → last_item h.before ≡ Some y → pos 0 ≤ℤ (ticks y +ℤ d) →
        list_shows (child_looks v (edges.slid h d)) w ≡ laws.slide_law v l h y d w }
    ensures ripple { (v : View) (l : List (ItemOf Listed)) (h : Held) (m : Moves) (w : ℤ) →
        IsHeld l h → IsMoved h.item m →
        list_shows (child_looks v (edges.rippled h m)) w ≡ laws.ripple_law v l h m w }
    ensures trim { (v : View) (l : List (ItemOf Listed)) (h : Held) (m : Moves) (w : ℤ) →
        IsHeld l h → IsMoved h.item m → IsTrimmedBefore (last_item h.before) m.head →
        IsTrimmedBehind (first_item h.behind) m.tail →
        list_shows (child_looks v (edges.trimmed h m)) w ≡ laws.trim_law v l h m w }
    ensures roll { (v : View) (l : List (ItemOf Listed)) (h : Held) (m : Moves) (w : ℤ) →
        IsHeld l h → IsMoved h.item m → IsBefore (last_item h.before) m.head →
        IsBehind (first_item h.behind) m.tail →
        list_shows (child_looks v (edges.rolled h m)) w ≡ laws.roll_law v l h m w }
{}
