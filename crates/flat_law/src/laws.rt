//! Laws of flat timelines. Their functions do nothing.

ghost use Rattle.std.specs.Prelude.{◌≡◌, ◌≢◌, ℕ, ℤ, Bool, Option, None, Some, List, [], ◌∷◌, ◌++◌};
ghost use Rattle.std.specs.Prelude.{true, map, pos, slice_get, ◌≤ℤ◌, ◌<ℤ◌, ◌-ℤ◌};
ghost use Rattle.tick_time.specs.Rates.{frame};
ghost use Rattle.otio_model.specs.declared.compositions.ItemOf.{ItemOf};
ghost use Rattle.otio_model.specs.declared.compositions.Listed.{Listed};
ghost use Rattle.otio_model.specs.declared.timelines.Timeline.{Timeline};
ghost use Rattle.otio_model.specs.Timelines.{bare};
ghost use Rattle.coord.specs.Agreement.{Agree};
ghost use Rattle.coord.specs.Looks.{FrameRate};
ghost use Rattle.coord.specs.Programs.{at, at_by, instant, kind_of, program, start_frame};
ghost use Rattle.coord.specs.Soundness.{IsSound};
ghost use Rattle.edits.specs.After.{rate_of};
ghost use Rattle.flat.specs.declared.faults.Cause.{Cause};
ghost use Rattle.flat.specs.Blocked.{Blocks, IsFirst, IsFree};
ghost use Rattle.flat.specs.Built.{IsBefore, IsOne, Leaves, steady_for};
ghost use Rattle.flat.specs.Flattened.{IsFlattened, flat_index, has_kind, top_shows};
ghost use Rattle.flat.specs.Joined.{AreFit, IsJoined, JoinBlocks, Slot, joined_slots, track_of};
ghost use Rattle.flat.specs.Joined as joins;
ghost use Rattle.flat.specs.Pieces.{AreLongest, Giver, Piece, giver, longest};
ghost use Rattle.flat.specs.Piled.{IsPiled};
ghost use Rattle.flat.specs.Piled as piles;
ghost use Rattle.flat.specs.Roots.{is_track, roots};
ghost use Rattle.flat.specs.Straight.{IsStraight, still_shows};
ghost use Rattle.flat.specs.Windowed.{IsWindowed, WindowBlocks, from_start, is_window};
ghost use Rattle.flat.specs.Windowed.{window_shows};
ghost use Rattle.flat.specs.Worked.{AreFlatsWorked};

/// Law: there is one flattened timeline at most, and its flat track shows at each instant what the
/// topmost enabled track of the kind that isn't Blank shows there, up to the rates of media.
pub fn flattened_shows()
    ensures one { (t r q : Timeline) (kind : List ℕ) (keep : Bool) →
        IsFlattened t kind keep r → IsFlattened t kind keep q → bare r ≡ bare q }
    ensures shows { (t r : Timeline) (kind : List ℕ) (keep : Bool)
        (rate_kept : FrameRate → FrameRate) (u : ℤ) →
        ((a b : FrameRate) → rate_kept a ≡ rate_kept b) →
        IsSound t → IsFree (Blocks kind (roots t)) → has_kind kind (roots t) ≡ true →
        IsFlattened t kind keep r →
        at_by rate_kept r (flat_index keep kind (roots t)) u ≡
        top_shows rate_kept kind (roots t) u }
    ensures agree { (t r : Timeline) (kind : List ℕ) (keep : Bool) (u : ℤ) →
        IsSound t → IsFree (Blocks kind (roots t)) → has_kind kind (roots t) ≡ true →
        IsFlattened t kind keep r →
        Agree (at r (flat_index keep kind (roots t)) u)
        (top_shows (λ rate. rate) kind (roots t) u) }
{}

/// Law: a window shows on each enabled track what the list without the transitions that meet its
/// ends shows inside the window and the track, at the record frames that it had, and Blank
/// elsewhere and on disabled tracks, up to the rates of media.
pub fn windowed_shows()
    ensures agree { (t r : Timeline) (a b : ℤ) (k : ℕ) (n : ℤ) →
        IsSound t → a <ℤ b → start_frame t ≤ℤ a →
        IsFree (WindowBlocks (roots t) (from_start t a) (from_start t b)) → IsWindowed t a b r →
        Agree (program r k n)
        (window_shows (λ rate. rate) (slice_get (roots t) k) (from_start t a) (from_start t b)
        (instant t n)) }
    ensures shows { (t r : Timeline) (a b : ℤ) (rate_kept : FrameRate → FrameRate) (k : ℕ)
        (n : ℤ) → ((p q : FrameRate) → rate_kept p ≡ rate_kept q) →
        IsSound t → a <ℤ b → start_frame t ≤ℤ a →
        IsFree (WindowBlocks (roots t) (from_start t a) (from_start t b)) → IsWindowed t a b r →
        at_by rate_kept r k (instant r n) ≡
        window_shows rate_kept (slice_get (roots t) k) (from_start t a) (from_start t b)
        (instant t n) }
{}

/// Law: a joined track shows in each input's stretch what that input's track of the same kind and
/// number shows, and Blank where it has none; and each track of each input is in one.
pub fn joined_shows()
    ensures tracks { (t : Timeline) (more : List Timeline) (i k : ℕ) (l : List (ItemOf Listed))
        (x : ItemOf Listed) → slice_get (roots t ∷ map roots more) i ≡ Some l →
        slice_get l k ≡ Some x → is_track x ≡ true →
        (j : ℕ) × (s : Slot) × (slice_get (joined_slots t more) j ≡ Some s) ×
        (s.kind ≡ kind_of x) × (track_of s.kind s.index l ≡ Some x) }
    ensures shows { (t r : Timeline) (more : List Timeline) (rate_kept : FrameRate → FrameRate)
        (j : ℕ) (s : Slot) (u : ℤ) → AreFit true t more → IsJoined t more r →
        slice_get (joined_slots t more) j ≡ Some s →
        at_by rate_kept r j u ≡
        joins.joined_shows (frame (rate_of t).num (rate_of t).den) rate_kept s.kind s.index
        (roots t) (map roots more) u }
{}

/// Law: a piled timeline shows each child as its input did.
pub fn piled_shows()
    ensures { (t r : Timeline) (more : List Timeline) (rate_kept : FrameRate → FrameRate) (k : ℕ)
        (u : ℤ) → IsPiled t more r →
        at_by rate_kept r k u ≡ piles.piled_shows rate_kept t more k u }
{}

/// Law: a timeline without transitions shows in each track, at all levels, what the item shows that
/// holds the instant.
pub fn straight_shows()
    ensures { (t r : Timeline) (rate_kept : FrameRate → FrameRate) (k : ℕ) (u : ℤ) →
        IsStraight t r →
        at_by rate_kept r k u ≡ still_shows rate_kept (slice_get (roots t) k) u }
{}

/// Law: flat timelines are as they are worked out by hand.
pub fn rows_are_worked()
    ensures { AreFlatsWorked }
{}

/// Law: where nothing refuses sound timelines, they can be flattened, cut to a window and joined:
/// no time that this needs is out of range.
pub fn flat_calls_are_made()
    ensures flat { (t : Timeline) (kind : List ℕ) (keep : Bool) (l : List Piece) → IsSound t →
        IsFree (Blocks kind (roots t)) → has_kind kind (roots t) ≡ true →
        AreLongest (giver 0 kind (roots t)) (longest kind (roots t)) (pos 0) l →
        (r : Timeline) × IsFlattened t kind keep r }
    ensures window { (t : Timeline) (a b : ℤ) → IsSound t → is_window t a b ≡ true →
        IsFree (WindowBlocks (roots t) (from_start t a) (from_start t b)) →
        (r : Timeline) × IsWindowed t a b r }
    ensures join { (t : Timeline) (more : List Timeline) → AreFit true t more →
        (r : Timeline) × IsJoined t more r }
{}

/// Law: there is one first fault at most, of a timeline to be flattened, to be cut to a window or
/// to be joined.
pub fn first_faults_are_one()
    ensures flatten { (kind : List ℕ) (l : List (ItemOf Listed)) (p q : List ℕ) (c d : Cause) →
        IsFirst (Blocks kind l) p c → IsFirst (Blocks kind l) q d → (p ≡ q) × (c ≡ d) }
    ensures window { (l : List (ItemOf Listed)) (a b : ℤ) (p q : List ℕ) (c d : Cause) →
        IsFirst (WindowBlocks l a b) p c → IsFirst (WindowBlocks l a b) q d →
        (p ≡ q) × (c ≡ d) }
    ensures join { (s t : Bool) (l : List (ItemOf Listed)) (p q : List ℕ) (c d : Cause) →
        IsFirst (JoinBlocks s t l) p c → IsFirst (JoinBlocks s t l) q d → (p ≡ q) × (c ≡ d) }
{}

/// Law: stretches that are found one after another, each up to the next end at which the giver
/// changes, are the longest ones.
pub fn stretches_are_built()
    ensures same { (k : ℕ) (kind : List ℕ) (l : List (ItemOf Listed)) (w v : ℤ) → pos 0 ≤ℤ w →
        w ≤ℤ v → IsBefore (steady_for kind l w) (v -ℤ w) →
        giver k kind l v ≡ giver k kind l w }
    ensures one { (kind : List ℕ) (l : List (ItemOf Listed)) (w v : ℤ) (g h : Giver) →
        giver 0 kind l w ≡ Some g → giver 0 kind l v ≡ Some h → g.track ≡ h.track →
        g.child ≡ h.child → g ≡ h }
    ensures grows { (g : ℤ → Option Giver) (at mid to : ℤ) (p : Option Giver) →
        IsOne g at mid p → IsOne g mid to p → IsOne g at to p }
    ensures begins { (g : ℤ → Option Giver) (end : ℤ) → Leaves g end [] (pos 0) }
    ensures goes_on { (g : ℤ → Option Giver) (end at to : ℤ) (p : Option Giver)
        (done : List Piece) → Leaves g end done at → at <ℤ to → to ≤ℤ end → IsOne g at to p →
        (to <ℤ end → g to ≢ p) →
        Leaves g end (done ++ record { from = at; to = to; of = p } ∷ []) to }
    ensures ends { (g : ℤ → Option Giver) (end at : ℤ) (done : List Piece) →
        Leaves g end done at → at ≡ end → AreLongest g end (pos 0) done }
{}
