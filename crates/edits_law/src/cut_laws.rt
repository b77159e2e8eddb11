//! Laws of cuts. Their functions do nothing.

ghost use Rattle.std.specs.Prelude.{◌≡◌, ℤ, List, None, pos, true, ◌+ℤ◌, ◌-ℤ◌, ◌≤ℤ◌, ◌<ℤ◌};
ghost use Rattle.otio_model.specs.declared.compositions.ItemOf.{ItemOf};
ghost use Rattle.otio_model.specs.declared.compositions.Listed.{Listed};
ghost use Rattle.coord.specs.Looks.{Look, item_shows, list_shows, total};
ghost use Rattle.coord.specs.Sights.{View, looks, overlap_of, seen, sight};
ghost use Rattle.edits.specs.Children.{Child, child_looks, seen_child};
ghost use Rattle.edits.specs.Cuts.{cuts_whole, is_whole_at, left_piece, put_between, right_piece};
ghost use Rattle.edits.specs.Cuts as cuts;
ghost use Rattle.edits.specs.Outside.{IsOutside};
ghost use Rattle.edits.specs.Splices as looked;
ghost use Rattle.edits.specs.Splices.{AreGood, AreItems, spliced, strip};

/// Law: the pieces of an item that is cut show at each instant what the item showed there.
pub fn pieces_show()
    ensures left { (v : View) (x : ItemOf Listed) (t : ℤ) → overlap_of x ≡ None →
        seen_child v (left_piece x t) ≡ looked.left (seen v (sight x)) t }
    ensures right { (v : View) (x : ItemOf Listed) (t : ℤ) → overlap_of x ≡ None →
        is_whole_at x t ≡ true →
        seen_child v (right_piece x t) ≡ looked.right (seen v (sight x)) t }
{}

/// Law: a list with items in the place of a stretch shows before it what it did, then the items,
/// and after them what it did after it.
pub fn spliced_shows()
    ensures before { (l n : List Look) (a b w : ℤ) → AreGood l → AreItems n → pos 0 ≤ℤ a →
        a ≤ℤ b → w <ℤ a →
        list_shows (spliced (strip l a b) a n b) w ≡ list_shows (strip l a b) w }
    ensures within { (l n : List Look) (a b w : ℤ) → AreGood l → AreItems n → pos 0 ≤ℤ a →
        a ≤ℤ b → a ≤ℤ w → w <ℤ (a +ℤ total n) →
        list_shows (spliced (strip l a b) a n b) w ≡ item_shows n (w -ℤ a) }
    ensures behind { (l n : List Look) (a b w : ℤ) → AreGood l → AreItems n → pos 0 ≤ℤ a →
        a ≤ℤ b → (a +ℤ total n) ≤ℤ w → list_shows (spliced (strip l a b) a n b) w
        ≡ list_shows (strip l a b) ((w -ℤ (a +ℤ total n)) +ℤ b) }
    ensures items { (v : View) (s : List (ItemOf Listed)) (a : ℤ) (n : List Child) (b : ℤ) →
        cuts_whole s b ≡ true → child_looks v (put_between s a n b)
        ≡ spliced (looks v s) a (child_looks v n) b }
{}

/// Law: a list without the transitions that a zone strips shows what it did outside their overlaps.
pub fn strips_show()
    ensures looks { (v : View) (l : List (ItemOf Listed)) (a b : ℤ) →
        looks v (cuts.strip l a b) ≡ strip (looks v l) a b }
    ensures outside { (v : View) (l : List (ItemOf Listed)) (a b w : ℤ) → IsOutside l a b w →
        list_shows (looks v (cuts.strip l a b)) w ≡ list_shows (looks v l) w }
{}
