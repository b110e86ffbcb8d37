//! Laws over the definitions, each the contract of a function that does nothing: which seats are all seats. A crate above
//! takes a law by a call at its own types, or cites the lemma that its answer names.
ghost use Rattle.std.specs.Prelude.{◌≡◌, List, [], ◌∷◌};
ghost use Rattle.desk.specs.declared.view.View.{View};
ghost use Rattle.desk.specs.Closing.{AreAll, AreLive, AreSplitFrom};
ghost use Rattle.desk.specs.Lacking.{CameBack};
ghost use Rattle.desk.specs.Rule.{IsLive, newcomer, parent, child, both};

/// A first seat and the seats that were split off from it, none of which was split or took in another, are all seats.
pub fn split_seats_are_all<E, N>()
    ensures { (v : View E N) (ws : List (View E N)) → IsLive v → AreLive ws → AreSplitFrom v ws → AreAll (v ∷ ws) }
{}

/// A seat that splits a seat off, and takes it in again when both came back, came back itself; one that only made calls did
/// too; and the first seat, when it came back, is all seats.
pub fn seats_come_back<E, N>()
    ensures taken { (v p q a b w : View E N) → p ≡ parent v → q ≡ child v → w ≡ both a b → IsLive a → IsLive b → CameBack p a → CameBack q b → CameBack v w }
    ensures calls { (v w : View E N) → (w.start ≡ v.start) × (w.name ≡ v.name) × (w.splits ≡ v.splits) × (w.joined ≡ v.joined) → CameBack v w }
    ensures again { (u v w : View E N) → CameBack u v → CameBack v w → CameBack u w }
    ensures all { (engine : E) (v : View E N) → IsLive v → CameBack (newcomer engine) v → AreAll (v ∷ []) }
{}
