//! The laws of the five edits of lists. Their function does nothing.

ghost use Rattle.std.specs.Prelude.{◌≡◌, ℤ, List, pos, true, ◌+ℤ◌, ◌≤ℤ◌};
ghost use Rattle.otio_model.specs.declared.compositions.ItemOf.{ItemOf};
ghost use Rattle.otio_model.specs.declared.compositions.Listed.{Listed};
ghost use Rattle.otio_model.specs.declared.edit_types.RemoveMode.{RemoveMode};
ghost use Rattle.coord.specs.Looks.{list_shows};
ghost use Rattle.coord.specs.Sights.{View};
ghost use Rattle.edits.specs.Children.{Child, Old, child_looks, child_ticks};
ghost use Rattle.edits.specs.Cuts.{cuts_whole, strip};
ghost use Rattle.edits.specs.Edges.{Held, end, start};
ghost use Rattle.edits.specs.Edits as edits;
ghost use Rattle.edits.specs.Good.{AreFair, IsPut};
ghost use Rattle.edits.specs.Laws.{insert_law, overwrite_law, remove_law, stripped};

/// Law: what a list shows after each of the five edits of lists. A fill is an overwrite.
pub fn list_edits_show()
    ensures overwrite { (v : View) (l : List (ItemOf Listed)) (a : ℤ) (c : Child) (w : ℤ) →
        AreFair l → IsPut c → pos 0 ≤ℤ a →
        cuts_whole (strip l a (a +ℤ child_ticks c)) (a +ℤ child_ticks c) ≡ true →
        list_shows (child_looks v (edits.overwritten l a c)) w ≡ overwrite_law v l a c w }
    ensures insert { (v : View) (l : List (ItemOf Listed)) (a : ℤ) (x : ItemOf Listed) (w : ℤ) →
        AreFair l → IsPut (Old x) → pos 0 ≤ℤ a → cuts_whole (strip l a a) a ≡ true →
        list_shows (child_looks v (edits.inserted l a x)) w ≡ insert_law v l a x w }
    ensures slice { (v : View) (l : List (ItemOf Listed)) (a w : ℤ) →
        AreFair l → pos 0 ≤ℤ a → cuts_whole (strip l a a) a ≡ true →
        list_shows (child_looks v (edits.sliced l a)) w ≡ stripped v l a a w }
    ensures remove { (mode : RemoveMode) (v : View) (l : List (ItemOf Listed)) (h : Held)
        (w : ℤ) → AreFair l → pos 0 ≤ℤ start h →
        cuts_whole (strip l (start h) (end h)) (end h) ≡ true →
        list_shows (child_looks v (edits.removed mode l h)) w ≡ remove_law mode v l h w }
{}
