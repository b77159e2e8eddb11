//! What the context of a child says of it. The function does nothing.

ghost use Rattle.std.specs.Prelude.{◌≡◌, ◌+◌, ℕ, drop};
ghost use Rattle.otio_model.specs.declared.compositions.Listed.{Listed};
ghost use Rattle.otio_model.specs.Trees.{items_of};
ghost use Rattle.edl_list.specs.declared.list.Channel.{Channel};
ghost use Rattle.edl_frames.specs.Jobs.{Job};
ghost use Rattle.edl_frames.specs.ChildEvents.{event_of};
ghost use Rattle.edl_frames.specs.ChildReasons.{reason_of};
ghost use Rattle.edl_conform.specs.declared.child_context.Past.{Past};
ghost use Rattle.edl_conform.specs.declared.child_context.ChildContext.{ChildContext};
ghost use Rattle.edl_conform.specs.Stated.{stated_past, stated_seat};
ghost use Rattle.edl_conform.specs.Seated.{IsSeatAt, seat_with};

/// Law: of all that stands after a child, its reason and its event see the next child alone, so
/// those of the context at an index are those of the child there.
pub fn seats_are_children()
    ensures reason { (l : Listed) (i : ℕ) (past : Past) (seat : ChildContext) →
        IsSeatAt l i past seat → (j : Job) (c : Channel) → reason_of j c (seat_with seat.item.now
        seat.start (stated_past past) (drop (i + 1) (items_of l)))
        ≡ reason_of j c (stated_seat seat) }
    ensures event { (l : Listed) (i : ℕ) (past : Past) (seat : ChildContext) →
        IsSeatAt l i past seat → (j : Job) (c : Channel) → event_of j c (seat_with seat.item.now
        seat.start (stated_past past) (drop (i + 1) (items_of l)))
        ≡ event_of j c (stated_seat seat) }
{}
